// Runs of `audit`: journals that are legal for their day files, and each way in which something is not.

use crate::days::{Front, ISSUED, ISSUED_JOURNAL};
use crate::runs::{ends, joined};
use journal_reader::read;
use std::process::Abort;
use std::sync::Wait;
use std::thread::Threads;

// An audit of a journal with its day file behind it judges each entry legal.
pub(crate) fn is_legal<R: Abort + Threads + Wait + AllocGlobal + Sync>(
    rt: &R,
    journal: &[u8],
    day: &[u8],
) {
    let history = read(rt.alloc(), journal).expect(rt, "a journal");
    let entries = history.len();
    drop(history);
    let line = format!(in rt.alloc(); "legal {entries}\n").expect(rt, "memory");
    let mut input = journal.to_vec(rt.alloc()).expect(rt, "memory");
    input.extend_from_slice(day).expect(rt, "memory");
    ends(rt, "audit", input.as_slice(), 0, line.as_str());
    drop(input);
    drop(line);
}

// A journal of another format, one with another reply, and texts that are no journals; the status and the line. A day file stands
// behind them. The first line of the formats is told here.
const JUDGED: [(&str, u8, &str); 7] = [
    (
        "permit-journal 1\n1 snapshot = at 0\nend 1\n",
        0,
        "legal 1\n",
    ),
    (
        "permit-journal 3\n1 snapshot = at 1\nend 1\n",
        9,
        "not legal: entry 1\n",
    ),
    (
        "permit-journal 3\n1 snapshot = at 0\n1 submit truck 1 from 1 to 2 asked none days 2026-03-02 2026-03-06 seen 0 route 1 = notneeded\nend 2\n",
        9,
        "not legal: entry 2\n",
    ),
    (
        "permit-journal 3\n1 submit truck 2 from 1 to 2 asked none days 2026-03-02 2026-03-06 seen 0 route 1 = notneeded\nend 1\n",
        9,
        "not legal: entry 1\n",
    ),
    ("permit-journal 3\n", 5, "refused: line 2\n"),
    ("permit-journal 4\n", 5, "refused: line 1\n"),
    (
        "permit-journal 3\nend 0\nend 0\n",
        5,
        "refused: record 1 fields\n",
    ),
];

#[test]
fn judges_what_is_no_legal_journal(rt: HostRuntime) {
    let day = joined(&rt, rt.alloc(), Front::Load.text(), ISSUED);
    for &(journal, status, line) in &JUDGED {
        let input = joined(&rt, rt.alloc(), journal, day.as_str());
        ends(&rt, "audit", input.as_bytes(), status, line);
    }
    ends(
        &rt,
        "audit",
        ISSUED_JOURNAL.as_bytes(),
        5,
        "refused: record 1 end\n",
    );
    ends(&rt, "audit", b"", 5, "refused: line 1\n");
}
