//! The permit office's program: it reads records from standard input, writes a report, a journal or a day file to standard
//! output, and tells standard error of each permit that a day recalled.
#![tactic(auto)]

ghost use Rattle.std.specs.Prelude.{◌≡◌, map};
ghost use Rattle.std.specs.String.{string_bytes};
ghost use Rattle.notice_desk.specs.Standings.{AreNew};
ghost use Rattle.command_line.specs.Asking.{asked_of};
ghost use Rattle.permit_program.specs.Runs.{IsRun, desk_at, outside_of, permit_cli};
ghost use Rattle.permit_program.specs.Counters.{IsBlankOf};

use analyst_pool::OpenGate;
use notice_desk::{Notice, Subscribers};
use office_io::{Sink, Source, StdSink, StdSource};
use permit_program::{
    Ended, LineNotice, WordsFault, add_listener, refuse_words, run, words_behind,
};
use std::env;
use std::marker::Brand;
use std::process::ExitCode;
use std::sync::Wait;
use std::sync::ledger::{Blank, Ledger};
use std::thread::Threads;

// Hands the words and the standard streams in, and the status out. A word that is no text is none that the program knows.
// Standard error is told of all recalls.
fn main(rt: HostRuntime) -> ExitCode {
    let mut source = StdSource::new(rt.stdin());
    let mut sink = StdSink::new(rt.stdout());
    let mut notices = Subscribers::new(rt.alloc());
    let is_added = match Box::new(rt.alloc(), LineNotice::new(StdSink::new(rt.stderr()))) {
        Ok(notice) => add_listener(&mut notices, notice),
        Err(_) => false,
    };
    let status = match words_behind(rt.alloc(), env::args(&rt)) {
        Ok(words) if is_added => run_counted::<Brand, _, _>(
            &rt,
            words.as_slice(),
            &mut source,
            &mut sink,
            &mut notices,
            Blank::new(1),
        ),
        Err(WordsFault::NotText) => refuse_words(&mut sink),
        Ok(_) | Err(WordsFault::NoMemory) => 7,
    };
    ExitCode::from(status)
}

// Runs the program with a gate that keeps no actor waiting, and with a counter of what an office tests in its turns. It is a run
// of these words, and ends with its status.
fn run_counted<L: Ledger + Send + Sync, S: Source, K: Sink>(
    rt: &(impl Threads + Wait + AllocGlobal + Sync),
    words: &[String],
    source: &mut S,
    sink: &mut K,
    notices: &mut Subscribers,
    blank: Blank,
) -> u8
    requires counter { IsBlankOf L.name L.parts blank }
    requires notices { AreNew (desk_at ⟦<dyn Notice as Notice>⟧ notices.old).standings }
    ensures run { let outside = outside_of ⟦<S as Source>⟧ ⟦<K as Sink>⟧ in
        let desk = desk_at ⟦<dyn Notice as Notice>⟧ in
        let asked = asked_of (map string_bytes words.now) in
        IsRun permit_cli asked (outside source.old sink.old (desk notices.old)) (outside source.new sink.new (desk notices.new)) result }
{
    let ended: Ended<L> = run(rt, words, source, sink, notices, &OpenGate, blank);
    ended.status
}
