// The top call.

ghost use Rattle.std.specs.Prelude.{◌≡◌, ◌≢◌, ◌<◌, Some, map};
ghost use Rattle.std.specs.String.{string_bytes};
ghost use Rattle.clearance_rules.specs.Counters.{IsBlankOf};
ghost use Rattle.notice_desk.specs.Standings.{AreNew};
ghost use Rattle.command_line.specs.Asking.{NumbersAreInRange, asked_of};
ghost use Rattle.command_line.specs.declared.asked.Asked.{Asked};
ghost use Rattle.command_line.specs.declared.asked.Task.TheVariants as task;
ghost use Rattle.permit_program.specs.Runs.{CountedDay, CountsItsDay, DeskAt, IsAlone, IsRun, WroteLine, desk_at, outside_of, permit_cli, sink_at, usage_line};

use crate::commands::{make_text, reads};
use crate::day::make_journal;
use crate::endings::{end_made, end_refused, end_unread, refuse, take_bytes};
use analyst_pool::Gate;
use command_line::{Asked, Task, WordsRefusal, read_words};
use notice_desk::{Notice, NoticeFault, Subscribers};
use office_core::Readings;
use office_io::{Sink, Source};
use std::alloc::Global;
use std::sync::Wait;
use std::sync::ledger::{Blank, Ledger};
use std::thread::Threads;

/// How a run ended that needs no threads, or that it is a day's.
#[derive(Clone, Copy, Debug, PartialEq, Eq)]
pub enum Alone {
    Status(u8),
    Day,
}

/// How a run ended: with this status, and with the counter of what was tested in the turns of a day's office and the readings of it,
/// where they came back.
#[derive(Drop)]
pub struct Ended<L: Ledger> {
    pub status: u8,
    pub readings: Option<Readings<L>>,
}

impl<L: Ledger> Ended<L> {
    // A run that has no counter to hand out.
    fn uncounted(status: u8) -> Ended<L>
        ensures status { result.status ≡ status }
        ensures none { result.readings ≡ None }
    {
        Ended {
            status,
            readings: None,
        }
    }
}

// How many bytes are read at the most.
const MOST_BYTES: u32 = 4_194_304;

/// Answers the words of a command line: reads what the command reads from the source, writes what it makes of that to the
/// sink, tells the subscribers of a day's recalls, and ends with its status. It is asked of subscribers who are through with
/// no recall.
///
/// 0 is done; 2 words that ask for nothing; 3 a fault of the source; 4 a fault of the sink while the output was written; 5 a
/// record that is bad, trucks that are no convoy, or a text that is no journal; 6 a record that is one too many of its kind,
/// or more than 4,194,304 bytes; 7 no memory; 8 a fault of an object that is told of recalls, after the whole journal was
/// written; 9 a journal that is not legal for its day file; 10 a day that makes more entries than a history may hold.
///
/// With 0 the whole text that the command promises was written, with 4 a front of it, and with 8 the whole journal. With 2 it
/// is the usage line, and with 5, 6, 9 and 10 the line of the refusal: whole, unless the sink failed. With 3 and 7 nothing was
/// written. A command that reads makes its text of all bytes that the source had left, where it tells them.
///
/// After a day that ends with 0 each subscriber was told its own recalls, in order and once each, and with 8 they were told as
/// far as the object that failed. With any other status, and by any other command, nobody was told anything.
///
/// Where the source tells its bytes and does not fail, the words and the bytes decide: the status is the one that they call
/// for, or 7, or 4 or 8 in the place of 0. At most 4,194,305 bytes are taken, and none with 2.
///
/// A day's actors work on threads of their own, and the gate is told how far each is. The call waits until all are done. What
/// the office tests in their turns is counted by a counter that is made of the blank and read behind each entry, and handed out.
pub fn run<
    R: Threads + Wait + AllocGlobal + Sync,
    S: Source,
    K: Sink,
    G: Gate + Sync,
    L: Ledger + Send + Sync,
>(
    rt: &R,
    words: &[String],
    source: &mut S,
    sink: &mut K,
    notices: &mut Subscribers,
    gate: &G,
    blank: Blank,
) -> Ended<L>
    requires counter { IsBlankOf L.name L.parts blank }
    requires notices { AreNew (desk_at ⟦<dyn Notice as Notice>⟧ notices.old).standings }
    ensures run { let outside = outside_of ⟦<S as Source>⟧ ⟦<K as Sink>⟧ in
        let desk = desk_at ⟦<dyn Notice as Notice>⟧ in
        let asked = asked_of (map string_bytes words.now) in
        IsRun permit_cli asked (outside source.old sink.old (desk notices.old)) (outside source.new sink.new (desk notices.new)) result.status }
    // After a day that ends with 0 the counter is handed out, and the headline holds with the readings of it.
    ensures counted { let outside = outside_of ⟦<S as Source>⟧ ⟦<K as Sink>⟧ in
        let desk = desk_at ⟦<dyn Notice as Notice>⟧ in
        let asked = asked_of (map string_bytes words.now) in
        CountsItsDay asked (outside source.old sink.old (desk notices.old)) (outside source.new sink.new (desk notices.new))
        result.status result.readings }
{
    match run_alone(rt, words, source, sink) {
        Alone::Status(status) => Ended::uncounted(status),
        Alone::Day => perform_day(rt, source, sink, notices, gate, blank),
    }
}

/// Answers the words of a command line that need no threads, and says of those of a day that they are: then nothing was
/// read or written. The statuses are those of `run`.
pub fn run_alone<R: AllocGlobal, S: Source, K: Sink>(
    rt: &R,
    words: &[String],
    source: &mut S,
    sink: &mut K,
) -> Alone
    ensures { let outside = outside_of ⟦<S as Source>⟧ ⟦<K as Sink>⟧ in
        let asked = asked_of (map string_bytes words.now) in
        (desk : DeskAt) → IsAlone asked (outside source.old sink.old desk) (outside source.new sink.new desk) result }
{
    let alloc = rt.alloc();
    let asked = match read_words(alloc, words) {
        Ok(asked) => asked,
        Err(WordsRefusal::Usage) => return Alone::Status(refuse_words(sink)),
        Err(WordsRefusal::NoMemory) => return Alone::Status(7),
    };
    match asked.task {
        Task::Day => Alone::Day,
        _ => Alone::Status(perform(alloc, asked, source, sink)),
    }
}

/// Answers words that ask for nothing: writes how the program is used, and ends with 2.
pub fn refuse_words<K: Sink>(sink: &mut K) -> u8
    ensures status { result ≡ 2 }
    ensures line { let sink_at = sink_at ⟦<K as Sink>⟧ in
        WroteLine usage_line (sink_at sink.old) (sink_at sink.new) }
{
    refuse(
        sink,
        b"usage: permit_cli check|day|make|trial|audit|design|convoy|reroute [--seed N] [--size N] [--trucks N] [--gap N]\n",
        2,
    )
}

// Performs a command that needs no threads: takes what it reads, and writes what it makes of that.
fn perform<S: Source, K: Sink>(alloc: Global, asked: Asked, source: &mut S, sink: &mut K) -> u8
    requires alone { asked.task ≢ task.Day }
    requires range { NumbersAreInRange asked.options }
    ensures { let outside = outside_of ⟦<S as Source>⟧ ⟦<K as Sink>⟧ in
        (desk : DeskAt) → IsRun permit_cli (Some asked) (outside source.old sink.old desk) (outside source.new sink.new desk) result }
{
    let bytes = match take_bytes(alloc, source, reads(asked), MOST_BYTES) {
        Ok(bytes) => bytes,
        Err(unread) => return end_unread(sink, unread),
    };
    match make_text(alloc, asked, bytes.as_slice()) {
        Ok(text) => end_made(sink, text.as_slice()),
        Err(refusal) => end_refused(sink, refusal),
    }
}

// Performs `day`: takes all that is left, writes the journal of it, and tells of its recalls.
fn perform_day<
    R: Threads + Wait + AllocGlobal + Sync,
    S: Source,
    K: Sink,
    G: Gate + Sync,
    L: Ledger + Send + Sync,
>(
    rt: &R,
    source: &mut S,
    sink: &mut K,
    notices: &mut Subscribers,
    gate: &G,
    blank: Blank,
) -> Ended<L>
    requires counter { IsBlankOf L.name L.parts blank }
    requires notices { AreNew (desk_at ⟦<dyn Notice as Notice>⟧ notices.old).standings }
    ensures run { let outside = outside_of ⟦<S as Source>⟧ ⟦<K as Sink>⟧ in
        let desk = desk_at ⟦<dyn Notice as Notice>⟧ in
        (asked : Asked) → asked.task ≡ task.Day → IsRun permit_cli (Some asked) (outside source.old sink.old (desk notices.old))
        (outside source.new sink.new (desk notices.new)) result.status }
    ensures counted { let outside = outside_of ⟦<S as Source>⟧ ⟦<K as Sink>⟧ in
        let desk = desk_at ⟦<dyn Notice as Notice>⟧ in
        result.status ≡ 0 → CountedDay result.readings (outside source.old sink.old (desk notices.old))
        (outside source.new sink.new (desk notices.new)) }
{
    let bytes = match take_bytes(rt.alloc(), source, true, MOST_BYTES) {
        Ok(bytes) => bytes,
        Err(unread) => return Ended::uncounted(end_unread(sink, unread)),
    };
    let day = match make_journal::<R, G, L>(rt, bytes.as_slice(), gate, blank) {
        Ok(day) => day,
        Err(refusal) => return Ended::uncounted(end_refused(sink, refusal)),
    };
    let status = end_made(sink, day.journal.as_slice());
    if status != 0 {
        return Ended::uncounted(status);
    }
    let status = match notices.deliver(day.recalls.as_slice()) {
        Ok(()) => 0,
        Err(NoticeFault { .. }) => 8,
    };
    Ended {
        status,
        readings: Some(day.readings),
    }
}
