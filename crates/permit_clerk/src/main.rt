//! The clerk's program: it reads a journal with its day file behind it from standard input, and writes to standard output whether
//! the journal is one of all of that day, or the file of the next day. Standard error is told of each permit that goes on.
#![tactic(auto)]

use clerk_program::{refuse_clerk_words, run_clerk};
use office_io::{StdSink, StdSource};
use permit_program::{WordsFault, words_behind};
use std::env;
use std::process::ExitCode;

// Hands the words and the standard streams in, and the status out. A word that is no text is none that the program knows.
fn main(rt: HostRuntime) -> ExitCode {
    let mut source = StdSource::new(rt.stdin());
    let mut sink = StdSink::new(rt.stdout());
    let mut told = StdSink::new(rt.stderr());
    let status = match words_behind(rt.alloc(), env::args(&rt)) {
        Ok(words) => run_clerk(&rt, words.as_slice(), &mut source, &mut sink, &mut told),
        Err(WordsFault::NotText) => refuse_clerk_words(&mut sink),
        Err(WordsFault::NoMemory) => 7,
    };
    ExitCode::from(status)
}
