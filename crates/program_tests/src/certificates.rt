// Runs of `certify`: journals of all of a day, and each way in which something is none.

use crate::days::Front;
use crate::runs::{Ran, bytes_of, joined, list_of, same, sink_of, source_of};
use clerk_program::run_clerk;
use std::process::Abort;

// Two actors: one applies, and the other looks at the permit. Their commands stand in rows 9 and 10.
const SHOWN: &str = "\
actor,bob,,,,,,
apply,ann,T1,A,B,,2026-03-02,2026-03-06
show,bob,1,,,,,
end,,,,,,,
";

// The journals of that day, with `S` for the submit of its application and its permit: a whole one, and the same where the other
// actor looks first; one whose entries are two callers' in the wrong order; a command that is another's; one command too many; one
// that lacks its last; one that lacks all; one that lacks the submit; one with another command; and what an audit refuses.
const JUDGED: [(&str, u8, &str); 12] = [
    (
        "1 snapshot = at 0\nS2 show 1 = shown 1 caller 1 truck 1 days 2026-03-02 2026-03-06 at 0 seen 0 inforce\nend 3\n",
        0,
        "whole 3\n",
    ),
    (
        "2 show 1 = unknown\n1 snapshot = at 0\nSend 3\n",
        0,
        "whole 3\n",
    ),
    (
        "1 snapshot = at 0\n2 show 1 = shown 1 caller 1 truck 1 days 2026-03-02 2026-03-06 at 0 seen 0 inforce\nSend 3\n",
        9,
        "not legal: entry 2\n",
    ),
    (
        "1 snapshot = at 0\nS1 show 1 = shown 1 caller 1 truck 1 days 2026-03-02 2026-03-06 at 0 seen 0 inforce\nend 3\n",
        9,
        "not whole: entry 3\n",
    ),
    (
        "2 show 1 = unknown\n1 snapshot = at 0\nS1 snapshot = at 0\nend 4\n",
        9,
        "not whole: entry 4\n",
    ),
    (
        "2 show 1 = unknown\n3 snapshot = at 0\nend 2\n",
        9,
        "not whole: entry 2\n",
    ),
    ("1 snapshot = at 0\nSend 2\n", 9, "not whole: record 10\n"),
    ("end 0\n", 9, "not whole: record 9\n"),
    (
        "1 snapshot = at 0\n2 show 1 = unknown\nend 2\n",
        9,
        "not whole: record 9\n",
    ),
    (
        "2 show 2 = unknown\n1 snapshot = at 0\nSend 3\n",
        9,
        "not whole: entry 1\n",
    ),
    ("1 snapshot = at 1\nend 1\n", 9, "not legal: entry 1\n"),
    ("1 snapshot\nend 1\n", 5, "refused: line 2\n"),
];

const SUBMIT: &str =
    "1 submit truck 1 from 1 to 2 asked none days 2026-03-02 2026-03-06 seen 0 route 1 = issued 1 at 0 route 1\n";

// A run of the clerk's words over an input, of which some reads fail, and a sink of which some writes fail.
fn run_words(
    rt: &(impl Abort + AllocGlobal),
    words: &str,
    input: &[u8],
    reads: &[u32],
    writes: &[u32],
) -> Ran {
    let (ran, told) = run_telling(rt, words, input, reads, writes, &[]);
    drop(told);
    ran
}

// The same with what the other sink was told, of which some writes fail too.
pub(crate) fn run_telling(
    rt: &(impl Abort + AllocGlobal),
    words: &str,
    input: &[u8],
    reads: &[u32],
    writes: &[u32],
    tells: &[u32],
) -> (Ran, Vec<u8>) {
    let words = list_of(rt, rt.alloc(), words);
    let mut source = source_of(rt, rt.alloc(), input, reads);
    let mut sink = sink_of(rt, rt.alloc(), writes);
    let mut told = sink_of(rt, rt.alloc(), tells);
    let status = run_clerk(rt, words.as_slice(), &mut source, &mut sink, &mut told);
    drop(words);
    drop(source);
    let text = bytes_of(rt, rt.alloc(), &sink);
    let lines = bytes_of(rt, rt.alloc(), &told);
    drop(sink);
    drop(told);
    (Ran { status, text }, lines)
}

// A run over an input ends with this status and writes this text.
fn ends(rt: &(impl Abort + AllocGlobal), words: &str, input: &str, status: u8, text: &str) {
    let ran = run_words(rt, words, input.as_bytes(), &[], &[]);
    same(rt, &ran, status, text, input);
    drop(ran);
}

#[test]
fn certifies_whole_journals_alone(rt: HostRuntime) {
    let day = joined(&rt, rt.alloc(), Front::Load.text(), SHOWN);
    for &(entries, status, line) in &JUDGED {
        let entries = entries
            .replace(rt.alloc(), "S", SUBMIT)
            .expect(&rt, "memory");
        let journal = joined(&rt, rt.alloc(), "permit-journal 3\n", entries.as_str());
        let input = joined(&rt, rt.alloc(), journal.as_str(), day.as_str());
        ends(&rt, "certify", input.as_str(), status, line);
    }
}

#[test]
fn answers_what_the_clerk_is_not_asked(rt: HostRuntime) {
    let usage = "usage: permit_clerk certify|carry [--in-force]\n";
    for words in [
        "",
        "audit",
        "certify|certify",
        "certify|--seed|1",
        "carry|--in-force|--in-force",
        "--help",
    ] {
        ends(&rt, words, "", 2, usage);
    }
    ends(&rt, "certify", "", 5, "refused: line 1\n");
    ends(
        &rt,
        "certify",
        "permit-journal 3\nend 0\n",
        5,
        "refused: record 1 end\n",
    );
}

// A read that fails ends with 3, and a write with 4.
#[test]
fn tells_a_fault_of_the_clerks_streams(rt: HostRuntime) {
    let input = joined(
        &rt,
        rt.alloc(),
        "permit-journal 3\nend 0\n",
        "day,2026-03-02,,,,,,\nend,,,,,,,\n",
    );
    ends(&rt, "certify", input.as_str(), 0, "whole 0\n");
    let unread = run_words(&rt, "certify", input.as_bytes(), &[1], &[]);
    same(&rt, &unread, 3, "", "a read");
    let unwritten = run_words(&rt, "certify", input.as_bytes(), &[], &[1]);
    same(&rt, &unwritten, 4, "", "a write");
}
