// The top call.

ghost use Rattle.std.specs.Prelude.{◌≡◌, Some, map};
ghost use Rattle.std.specs.String.{string_bytes};
ghost use Rattle.command_line.specs.Clerk.{clerk_asked_of};
ghost use Rattle.command_line.specs.declared.asked.ClerkTask.TheVariants as task;
ghost use Rattle.permit_program.specs.Runs.{DeskAt, IsRun, WroteLine, outside_of, sink_at};
ghost use Rattle.clerk_program.specs.Clerk.{TellsCarried, clerk_usage_line, permit_clerk};

use crate::carry::carry_over;
use crate::certify::make_certificate;
use command_line::{ClerkTask, WordsRefusal, read_clerk_words};
use office_io::{Sink, Source};
use permit_program::{end_made, end_refused, end_unread, refuse, take_bytes};
use std::alloc::Global;

// How many bytes are read at the most: a journal, and a day file behind it.
const MOST_BYTES: u32 = 272_629_760;

/// Answers the words of the clerk's command line: reads what is left in the source, writes what the task makes of that to the sink,
/// and ends with its status. It starts no thread, and tells nobody of recalls.
///
/// 0 is done; 2 words that ask for nothing; 3 a fault of the source; 4 a fault of the sink while the output was written; 5 a
/// record that is bad, or a text that is no journal; 6 a record that is one too many of its kind, more bytes than 268,435,456 of a
/// journal and 4,194,304 of a day file, or a next day whose text has more; 7 no memory; 9 a journal that is not legal for its day
/// file, or not whole.
///
/// With 0 the whole text was written, with 4 a front of it. With 2 it is the usage line, and with 5, 6 and 9 the line of the
/// refusal: whole, unless the sink failed. With 3 and 7 nothing was written. Where the source tells its bytes and does not fail,
/// the words and the bytes decide: the status is the one that they call for, or 7, or 4 in the place of 0.
///
/// After a day was carried over, the other sink is told of each permit that goes on, by a line with its number and that on the next
/// day. A fault of that sink leaves the status as it is. It is told nothing else.
pub fn run_clerk<R: AllocGlobal, S: Source, K: Sink, T: Sink>(
    rt: &R,
    words: &[String],
    source: &mut S,
    sink: &mut K,
    told: &mut T,
) -> u8
    ensures run { let outside = outside_of ⟦<S as Source>⟧ ⟦<K as Sink>⟧ in
        let asked = clerk_asked_of (map string_bytes words.now) in
        (desk : DeskAt) → IsRun permit_clerk asked (outside source.old sink.old desk) (outside source.new sink.new desk) result }
    ensures told { let outside = outside_of ⟦<S as Source>⟧ ⟦<K as Sink>⟧ in
        let told_at = sink_at ⟦<T as Sink>⟧ in
        let asked = clerk_asked_of (map string_bytes words.now) in
        (desk : DeskAt) → TellsCarried asked (outside source.old sink.old desk) (outside source.new sink.new desk) result
        (told_at told.old) (told_at told.new) }
{
    let alloc = rt.alloc();
    match read_clerk_words(alloc, words) {
        Ok(ClerkTask::Certify) => perform_certify(alloc, source, sink),
        Ok(ClerkTask::Carry { in_force }) => perform_carry(alloc, in_force, source, sink, told),
        Err(WordsRefusal::Usage) => refuse_clerk_words(sink),
        Err(WordsRefusal::NoMemory) => 7,
    }
}

/// Answers words that ask the clerk for nothing: writes how the program is used, and ends with 2.
pub fn refuse_clerk_words<K: Sink>(sink: &mut K) -> u8
    ensures status { result ≡ 2 }
    ensures line { let sink_at = sink_at ⟦<K as Sink>⟧ in
        WroteLine clerk_usage_line (sink_at sink.old) (sink_at sink.new) }
{
    refuse(sink, b"usage: permit_clerk certify|carry [--in-force]\n", 2)
}

// Performs `certify`: takes all that is left, and writes the certificate.
fn perform_certify<S: Source, K: Sink>(alloc: Global, source: &mut S, sink: &mut K) -> u8
    ensures { let outside = outside_of ⟦<S as Source>⟧ ⟦<K as Sink>⟧ in
        (desk : DeskAt) → IsRun permit_clerk (Some task.Certify) (outside source.old sink.old desk)
        (outside source.new sink.new desk) result }
{
    let bytes = match take_bytes(alloc, source, true, MOST_BYTES) {
        Ok(bytes) => bytes,
        Err(unread) => return end_unread(sink, unread),
    };
    match make_certificate(alloc, bytes.as_slice()) {
        Ok(text) => end_made(sink, text.as_slice()),
        Err(refusal) => end_refused(sink, refusal),
    }
}

// Performs `carry`: takes all that is left, writes the next day's file, and tells how its permits are numbered.
fn perform_carry<S: Source, K: Sink, T: Sink>(
    alloc: Global,
    in_force: bool,
    source: &mut S,
    sink: &mut K,
    told: &mut T,
) -> u8
    ensures run { let outside = outside_of ⟦<S as Source>⟧ ⟦<K as Sink>⟧ in
        (desk : DeskAt) → IsRun permit_clerk (Some (task.Carry in_force)) (outside source.old sink.old desk)
        (outside source.new sink.new desk) result }
    ensures told { let outside = outside_of ⟦<S as Source>⟧ ⟦<K as Sink>⟧ in
        let told_at = sink_at ⟦<T as Sink>⟧ in
        (desk : DeskAt) → TellsCarried (Some (task.Carry in_force)) (outside source.old sink.old desk)
        (outside source.new sink.new desk) result (told_at told.old) (told_at told.new) }
{
    let bytes = match take_bytes(alloc, source, true, MOST_BYTES) {
        Ok(bytes) => bytes,
        Err(unread) => return end_unread(sink, unread),
    };
    let carried = match carry_over(alloc, bytes.as_slice(), in_force) {
        Ok(carried) => carried,
        Err(refusal) => return end_refused(sink, refusal),
    };
    let status = end_made(sink, carried.text.as_slice());
    if status == 0 {
        // A fault of who is told leaves the status as it is.
        refuse(told, carried.lines.as_slice(), status)
    } else {
        status
    }
}
