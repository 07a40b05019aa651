// What the tests of this crate share: runs over sources and sinks in memory.

ghost use Rattle.std.specs.Prelude.{◌<◌};
ghost use Rattle.notice_desk.specs.Standings.{AreNew, standings};
ghost use Rattle.permit_program.specs.Counters.{IsBlankOf};

use crate::cases::Notices;
use analyst_pool::{Gate, OpenGate};
use notice_desk::{MemoryNotice, Notice, Recall, Subscribers};
use office_io::{MemorySink, MemorySource};
use permit_program::{Ended, add_listener, run};
use std::alloc::Global;
use std::marker::Brand;
use std::process::Abort;
use std::sync::Wait;
use std::sync::ledger::{Blank, Ledger};
use std::thread::Threads;

// How a run ended, and what it wrote.
#[derive(Drop)]
pub(crate) struct Ran {
    pub(crate) status: u8,
    pub(crate) text: Vec<u8>,
}

// Runs the words over an input, of which some reads fail, and a sink of which some writes fail, where nobody is told of recalls.
pub(crate) fn run_words<R: Abort + Threads + Wait + AllocGlobal + Sync>(
    rt: &R,
    words: &str,
    input: &[u8],
    reads: &[u32],
    writes: &[u32],
) -> Ran {
    run_at(rt, words, input, reads, writes, &OpenGate)
}

// The same with a gate of the actors.
pub(crate) fn run_at<R: Abort + Threads + Wait + AllocGlobal + Sync, G: Gate + Sync>(
    rt: &R,
    words: &str,
    input: &[u8],
    reads: &[u32],
    writes: &[u32],
    gate: &G,
) -> Ran {
    let mut nobody = nobody(rt.alloc());
    let ran = run_told(rt, words, input, reads, writes, &mut nobody, gate);
    drop(nobody);
    ran
}

// Runs the words over an input, where these are told of recalls: how the run ended, and what was heard. Where some recalls are
// given, these are delivered behind the run.
pub(crate) fn hear<R: Abort + Threads + Wait + AllocGlobal + Sync>(
    rt: &R,
    words: &str,
    input: &[u8],
    notices: Notices,
    again: &[Recall],
) -> (Ran, Vec<Recall>) {
    let mut notices = subscribers(rt, rt.alloc(), notices);
    let ran = run_told(rt, words, input, &[], &[], &mut notices, &OpenGate);
    if !again.is_empty() {
        deliver(rt, &mut notices, again);
    }
    let heard = heard_of(rt, rt.alloc(), &notices);
    drop(notices);
    (ran, heard)
}

// Nobody, who is through with nothing.
#[tactic(auto, using(notice_desk::proofs::Ready::none_new))]
fn nobody(alloc: Global) -> Subscribers
    ensures { AreNew (standings (λ n. (⟦<dyn Notice as Notice>⟧ n.vtable).list n.value) result) }
{
    Subscribers::new(alloc)
}

// Those who are told of recalls.
fn subscribers(rt: &impl Abort, alloc: Global, notices: Notices) -> Subscribers
    ensures { AreNew (standings (λ n. (⟦<dyn Notice as Notice>⟧ n.vtable).list n.value) result) }
{
    let mut subscribers = nobody(alloc);
    match notices {
        Notices::Nobody => {}
        Notices::Told(_) => assert!(rt; add_listener(&mut subscribers, notice(rt, alloc, &[]))),
        Notices::Unheard => assert!(rt; add_listener(&mut subscribers, notice(rt, alloc, &[1]))),
    }
    subscribers
}

// A list with room for four recalls. The calls of these numbers fail.
fn notice(rt: &impl Abort, alloc: Global, failing: &[u32]) -> Box<MemoryNotice> {
    let failing = failing.to_vec(alloc).expect(rt, "memory");
    let notice = MemoryNotice::new(alloc, 4, failing).expect(rt, "memory");
    Box::new(alloc, notice).expect(rt, "memory")
}

// Delivers recalls to one subscriber, who is through with no more than there are.
#[tactic(auto, using(crate::proofs::Within::one_within))]
fn deliver(rt: &impl Abort, notices: &mut Subscribers, recalls: &[Recall]) {
    assert!(rt; notices.len() == 1);
    assert!(rt; notices.passed(0) <= recalls.len());
    assert!(rt; notices.deliver(recalls).is_ok());
}

// What the first object was told, where there is one.
fn heard_of(rt: &impl Abort, alloc: Global, notices: &Subscribers) -> Vec<Recall> {
    if notices.len() == 0 {
        return Vec::new(alloc);
    }
    let told = notices.told(0).expect(rt, "it tells its list");
    told.to_vec(alloc).expect(rt, "memory")
}

// A run where these are told of recalls. What was built is let go by a call of `drop`: where a scope lets it go, the proof of the
// whole function goes through its parts.
fn run_told<R: Abort + Threads + Wait + AllocGlobal + Sync, G: Gate + Sync>(
    rt: &R,
    words: &str,
    input: &[u8],
    reads: &[u32],
    writes: &[u32],
    notices: &mut Subscribers,
    gate: &G,
) -> Ran
    requires { AreNew (standings (λ n. (⟦<dyn Notice as Notice>⟧ n.vtable).list n.value) notices.old) }
{
    let words = list_of(rt, rt.alloc(), words);
    let mut source = source_of(rt, rt.alloc(), input, reads);
    let mut sink = sink_of(rt, rt.alloc(), writes);
    let blank = Blank::new(1);
    let status = run_counted::<R, G, Brand>(
        rt,
        &words,
        &mut source,
        &mut sink,
        notices,
        gate,
        blank,
    );
    drop(words);
    drop(source);
    let text = bytes_of(rt, rt.alloc(), &sink);
    drop(sink);
    Ran { status, text }
}

// The status of a run with a counter of the office's tests, which is let go.
fn run_counted<
    R: Abort + Threads + Wait + AllocGlobal + Sync,
    G: Gate + Sync,
    L: Ledger + Send + Sync,
>(
    rt: &R,
    words: &[String],
    source: &mut MemorySource,
    sink: &mut MemorySink,
    notices: &mut Subscribers,
    gate: &G,
    blank: Blank,
) -> u8
    requires counter { IsBlankOf L.name L.parts blank }
    requires new { AreNew (standings (λ n. (⟦<dyn Notice as Notice>⟧ n.vtable).list n.value) notices.old) }
{
    let Ended { status, readings } = run::<R, MemorySource, MemorySink, G, L>(
        rt, words, source, sink, notices, gate, blank,
    );
    drop(readings);
    status
}

// A source of these bytes, whose reads of these numbers fail.
pub(crate) fn source_of(
    rt: &impl Abort,
    alloc: Global,
    input: &[u8],
    reads: &[u32],
) -> MemorySource {
    let reads = reads.to_vec(alloc).expect(rt, "memory");
    MemorySource::new(input.to_vec(alloc).expect(rt, "memory"), reads)
}

// A sink with room, whose writes of these numbers fail.
pub(crate) fn sink_of(rt: &impl Abort, alloc: Global, writes: &[u32]) -> MemorySink {
    let writes = writes.to_vec(alloc).expect(rt, "memory");
    MemorySink::new(alloc, 200_000, writes).expect(rt, "memory")
}

pub(crate) fn bytes_of(rt: &impl Abort, alloc: Global, sink: &MemorySink) -> Vec<u8> {
    sink.bytes().to_vec(alloc).expect(rt, "memory")
}

// The words in a list. There is a bar between them.
pub(crate) fn list_of(rt: &impl Abort, alloc: Global, words: &str) -> Vec<String> {
    let mut list = Vec::new(alloc);
    if !words.is_empty() {
        for word in words.split('|') {
            let word = word.to_string(alloc).expect(rt, "memory");
            list.push(word).expect(rt, "memory");
        }
    }
    list
}

// Two texts, one behind the other.
pub(crate) fn joined(rt: &impl Abort, alloc: Global, front: &str, rest: &str) -> String {
    format!(in alloc; "{front}{rest}").expect(rt, "memory")
}

// What is said of a text is so.
pub(crate) fn holds(rt: &impl Abort, fact: bool, text: &str) {
    assert!(rt; fact, "{text}");
}

// That a run over an input ended with this status and wrote this text.
pub(crate) fn same(rt: &impl Abort, ran: &Ran, status: u8, text: &str, input: &str) {
    holds(rt, ran.status == status, input);
    holds(rt, ran.text.as_slice() == text.as_bytes(), input);
}

// The same of a run of these words over this input.
pub(crate) fn ends<R: Abort + Threads + Wait + AllocGlobal + Sync>(
    rt: &R,
    words: &str,
    input: &[u8],
    status: u8,
    text: &str,
) {
    let ran = run_words(rt, words, input, &[], &[]);
    same(rt, &ran, status, text, text);
}
