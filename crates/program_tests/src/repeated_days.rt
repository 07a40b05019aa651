// Days whose commands are many lines alike, for the tests.

use crate::days::Front;
use crate::runs::{ends, joined};
use std::alloc::{AllocError, Global};
use std::process::Abort;
use std::sync::Wait;
use std::thread::Threads;

// These lines so often, one behind the other.
fn repeated(alloc: Global, lines: &str, times: u32) -> Result<String, AllocError> {
    let mut text = String::new(alloc);
    'times: for _ in 0..times {
        text.push_str(lines)?;
    }
    Ok(text)
}

// Two trips that are late, to two nodes.
const TO_AND_FRO: &str = "\
apply,ann,T1,A,B,,2026-03-02,2026-03-06
apply,ann,T1,A,C,,2026-03-02,2026-03-06
";

// Each is looked for at the current version first, and is late then.
const LATE_TO_AND_FRO: &str = "\
1 snapshot = at 0
1 submit truck 1 from 1 to 2 asked none days 2026-03-02 2026-03-06 seen 0 route 1 = late 2026-03-03
1 snapshot = at 0
1 submit truck 1 from 1 to 3 asked none days 2026-03-02 2026-03-06 seen 0 route 2 = late 2026-03-03
";

// The goal changes 19 times, so heights of the nodes are kept, which are not where it changes less than 16 times.
fn goes_to_and_fro<R: Abort + Threads + Wait + AllocGlobal + Sync>(rt: &R) {
    let alloc = rt.alloc();
    let trips = repeated(alloc, TO_AND_FRO, 10).expect(rt, "memory");
    let rest = format!(in alloc; "setday,ann,2026-03-03,,,,,\n{trips}end,,,,,,,\n");
    let rest = rest.expect(rt, "memory");
    drop(trips);
    let day = joined(rt, alloc, Front::Ways.text(), rest.as_str());
    drop(rest);
    let lines = repeated(alloc, LATE_TO_AND_FRO, 10).expect(rt, "memory");
    let journal = format!(in alloc;
        "permit-journal 3\n1 day 2026-03-03 = day 2026-03-03\n{lines}end 41\n"
    );
    let journal = journal.expect(rt, "memory");
    drop(lines);
    ends(rt, "day", day.as_bytes(), 0, journal.as_str());
    drop(journal);
    drop(day);
}

#[test]
fn serves_a_day_whose_goals_change_often(rt: HostRuntime) {
    goes_to_and_fro(&rt);
}
