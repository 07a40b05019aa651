// The lines of permits that were recalled, from the journals of histories.

use journal_reader::read;
use report_text::reroute_report;
use std::alloc::Global;
use std::process::Abort;

// A number of a caller, counted from 0, a journal in which it applies again, and the lines of it. Caller 3 of the first journal is
// the one who does. In the second nobody does, and nothing is recalled; in the third nobody does yet.
const HISTORIES: [(u32, &str, &str); 4] = [
    (
        2,
        "permit-journal 3
1 post segment 1 closed 1 = posted 1 recalled 7,4294967295
3 held truck 1 from 1 to 2 asked none days 2026-03-02 2026-03-06 = issued 9 at 1 route 2,3
3 held truck 2 from 1 to 2 asked none days 2026-03-02 2026-03-06 = refused 1 segment 1 closed
2 snapshot = at 1
2 post segment 2 height 167 = posted 2 recalled 9
3 held truck 1 from 1 to 2 asked none days 2026-03-02 2026-03-06 = refused 2 segment 65536 span 2 moment 7/2 hs20 3/1 rating 1000
2 post segment 2 height 168 = posted 3 recalled 1
3 held truck 1 from 1 to 2 asked none days 2026-03-02 2026-03-06 = issued 10 at 3 route -/65536
end 8
",
        "permit 7 replaced 9 at 1 route 2,3
permit 4294967295 refused 1 segment 1 closed
permit 9 refused 2 segment 65536 span 2 moment 7/2 hs20 3/1 rating 1000
permit 1 replaced 10 at 3 route -/65536
",
    ),
    (
        1,
        "permit-journal 3
1 held truck 1 from 1 to 2 asked none days 2026-03-02 2026-03-06 = issued 1 at 0 route 1
1 post segment 1 closed 0 = posted 1 recalled -
end 2
",
        "",
    ),
    (
        1,
        "permit-journal 3
1 post segment 1 closed 1 = posted 1 recalled 1,2
end 1
",
        "",
    ),
    (0, "permit-journal 3\nend 0\n", ""),
];

// Whether the lines of a journal's history are these.
fn tells(rt: &impl Abort, alloc: Global, caller: u32, journal: &str, lines: &str) -> bool {
    let history = read(alloc, journal.as_bytes()).expect(rt, "a journal");
    let text = reroute_report(alloc, caller, &history).expect(rt, "memory");
    text.as_slice() == lines.as_bytes()
}

// A line for each recall for which there is an answer, with every kind of words in it.
#[test]
fn tells_what_became_of_recalled_permits(rt: HostRuntime) {
    for &(caller, journal, lines) in &HISTORIES {
        assert!(rt; tells(&rt, rt.alloc(), caller, journal, lines), "{journal}");
    }
}
