use crate::fixtures::{ALONE, base, day};
use journal_audit::{Verdict, audit};
use journal_reader::read;
use office_words::Entry;
use std::alloc::Global;
use std::process::Abort;
use std::sync::Arc;

// What an audit says of entries on these segments, of which the first is posted at a height.
pub(crate) fn verdict(
    rt: &impl Abort,
    alloc: Global,
    segments: &str,
    height: u32,
    history: &[Entry],
) -> Verdict {
    let base = Arc::new(alloc, base(rt, alloc, segments, height)).expect(rt, "memory");
    assert!(rt; history.len() <= 1_000_000);
    audit(alloc, base, day(rt, "2026-03-02"), history).expect(rt, "memory")
}

// The same of the lines of a journal, on one segment on which the first truck just fits. They are of the first format, which has the
// same words.
fn verdict_on(rt: &impl Abort, alloc: Global, lines: &str) -> Verdict {
    let entries = lines.lines().count();
    let text = format!(in alloc; "permit-journal 1\n{lines}end {entries}\n").expect(rt, "memory");
    let history = read(alloc, text.as_bytes()).expect(rt, "a journal");
    let verdict = verdict(rt, alloc, ALONE, 168, history.as_slice());
    drop(history);
    verdict
}

// Entries of a journal that are legal.
const BEGIN: &str = "\
1 submit truck 1 from 1 to 2 asked none days 2026-03-02 2026-03-06 seen 0 route 1 = issued 1 at 0 route 1
2 post segment 1 height 167 = posted 1 recalled 1
";

// Each of these behind the begin is legal.
const LEGAL: &str = "\
1 submit truck 1 from 1 to 2 asked none days 2026-03-02 2026-03-06 seen 1 cut 1 = refused 1 segment 1 height 168 over 167
1 submit truck 2 from 1 to 2 asked none days 2026-03-02 2026-03-06 seen 0 route 1 = issued 2 at 1 route 1
1 submit truck 2 from 1 to 2 asked none days 2026-03-02 2026-03-06 seen 0 route 1 = nomemory
1 held truck 1 from 1 to 2 asked none days 2026-03-02 2026-03-06 = nomemory
2 post segment 1 height 160 = nomemory
1 show 9 = unknown
";

// What was found then is not what is proposed; the version is to come; the truck is not there; the days are no days of a trip; the
// number is another; and of four calls no memory is wanted.
const BAD: &str = "\
1 submit truck 1 from 1 to 2 asked none days 2026-03-02 2026-03-06 seen 1 route 1 = outdated 1 fails segment 1 height 168 over 167
1 submit truck 1 from 1 to 2 asked none days 2026-03-02 2026-03-06 seen 2 cut 1 = refused 1 segment 1 height 168 over 167
1 held truck 9 from 1 to 2 asked none days 2026-03-02 2026-03-06 = notneeded
1 held truck 3 from 1 to 2 asked none days 2026-03-06 2026-03-02 = notneeded
1 submit truck 2 from 1 to 2 asked none days 2026-03-02 2026-03-06 seen 0 route 1 = issued 3 at 1 route 1
1 submit truck 1 from 1 to 2 asked none days 2026-03-02 2026-03-06 seen 1 cut 1 = nomemory
1 held truck 3 from 1 to 2 asked none days 2026-03-02 2026-03-06 = nomemory
2 post segment 2 height 160 = nomemory
1 snapshot = nomemory
";

// Callers 1 and 17 of an audit go by turns: what is known for the one is of a later version than the other's next proposal.
const BY_TURNS: &str = "\
17 submit truck 1 from 1 to 2 asked none days 2026-03-02 2026-03-06 seen 1 cut 1 = refused 1 segment 1 height 168 over 167
1 submit truck 1 from 1 to 2 asked none days 2026-03-02 2026-03-06 seen 0 route 1 = outdated 1 fails segment 1 height 168 over 167
17 submit truck 1 from 1 to 2 asked none days 2026-03-02 2026-03-06 seen 1 cut 1 = refused 1 segment 1 height 168 over 167";

// What is said of lines behind the begin, and before one that is legal.
fn judge(rt: &impl Abort, alloc: Global, behind: &str, wanted: Verdict) {
    let lines = format!(in alloc; "{BEGIN}{behind}\n1 show 0 = unknown\n").expect(rt, "memory");
    let verdict = verdict_on(rt, alloc, lines.as_str());
    drop(lines);
    assert!(rt; verdict == wanted, "{behind}");
}

#[test]
fn names_the_first_bad_entry(rt: HostRuntime) {
    for line in LEGAL.lines() {
        judge(&rt, rt.alloc(), line, Verdict::Legal);
    }
    for line in BAD.lines() {
        judge(&rt, rt.alloc(), line, Verdict::Bad { entry: 2 });
    }
    judge(&rt, rt.alloc(), BY_TURNS, Verdict::Legal);
}
