use crate::fixtures::holds;
use journal_reader::{JournalRefusal, read};
use journal_text::print;
use std::alloc::Global;
use std::process::Abort;

// A day of one application.
const ONE_TRIP: &str = "permit-journal 3
1 snapshot = at 0
1 submit truck 1 from 1 to 2 asked none days 2026-03-02 2026-03-06 seen 0 route 1 = issued 1 at 0 route 1
end 2
";

// What the files of `examples/` give.
const BRIDGE: &str = "permit-journal 3
1 snapshot = at 0
1 submit truck 1 from 1 to 2 asked 1 days 2026-03-02 2026-03-06 seen 0 route 1 = issued 1 at 0 route 1
1 post span 1 rating 999 = posted 1 recalled 1
1 snapshot = at 1
1 submit truck 1 from 1 to 2 asked 1 days 2026-03-02 2026-03-06 seen 1 fails 1 = refused 1 segment 1 span 1 moment 1920000/1 hs20 1920000/1 rating 999
end 5
";

const NO_ROAD: &str = "permit-journal 3
1 snapshot = at 0
1 submit truck 1 from 1 to 2 asked none days 2026-03-02 2026-03-06 seen 0 cut 1,3 = noroad
1 snapshot = at 0
1 submit truck 1 from 1 to 3 asked none days 2026-03-02 2026-03-06 seen 0 cut 1 = refused 0 segment 1 closed
1 snapshot = at 0
1 submit truck 1 from 1 to 3 asked 1 days 2026-03-02 2026-03-06 seen 0 fails 1 = refused 0 segment 1 closed
end 6
";

const RECALL: &str = "permit-journal 3
1 snapshot = at 0
1 submit truck 1 from 1 to 2 asked 1 days 2026-03-02 2026-03-06 seen 0 route 1 = issued 1 at 0 route 1
1 post segment 1 height 167 = posted 1 recalled 1
1 show 1 = shown 1 caller 1 truck 1 days 2026-03-02 2026-03-06 at 0 seen 0 recalled 1
end 4
";

// Every form that a line can have, and the greatest values. Whether a reply fits its call is not asked.
const FORMS: &str = "permit-journal 3
65536 snapshot = at 4294967295
1 submit truck 65536 from 65536 to 65536 asked - days 0001-01-01 9999-12-28 seen 4294967295 none = notneeded
1 submit truck 1 from 1 to 2 asked 1,65536 days 2026-03-02 2026-03-06 seen 0 cut - = noroad
1 held truck 1 from 1 to 2 asked none days 2026-03-02 2026-03-06 = late 2026-03-03
1 held truck 1 from 1 to 2 asked 3,2,1 days 2026-03-02 2026-03-06 = outdated 1 meets segment 2
1 post segment 1 closed 0 = posted 0 recalled -
1 post segment 1 closed 1 = posted 4294967295 recalled 1,4294967295,0
1 post segment 1 width 4294967295 = range
1 post segment 1 length 0 = outdated 9 fails segment 1 width 2 over 1
1 post segment 1 gross 1 = refused 1 segment 1 length 0 over 4294967295
1 post segment 1 allowance 1000 = refused 1 segment 1 gross 2 over 1
1 post span 65536 rating 0 = refused 1 segment 1 height 2 over 1
1 day 2026-03-02 = day 2026-03-02
1 day 2026-03-02 = dayback 2026-03-03
1 surrender 0 = surrendered
1 surrender 1 = notyours
1 show 1 = unknown
1 show 4294967295 = notinforce expired
1 show 1 = notinforce surrendered
1 show 1 = shown 1 caller 65536 truck 1 days 2026-03-02 2026-03-06 at 2 seen 1 inforce
1 show 1 = issued 1 at 2 route -
1 snapshot = refused 0 segment 1 group 1-65536 weight 1 limit 2 allowance 3
1 snapshot = refused 0 segment 1 span 2 moment 0/1 hs20 340282366920938463463374607431768211455/2 rating 4
1 snapshot = refused 0 segment 1 span 2 shear 1/340282366920938463463374607431768211455 hs20 5/3 rating 4
1 snapshot = nomemory
end 25
";

// Three axles over a posted weight of tridem groups, which the first format has no words for.
const TRIDEM: &str = "permit-journal 3
1 snapshot = at 0
1 submit truck 1 from 1 to 2 asked none days 2026-03-02 2026-03-06 seen 0 route 1 = issued 1 at 0 route 1
1 post segment 1 tridem 50999 = posted 1 recalled 1
1 snapshot = at 1
1 submit truck 1 from 1 to 2 asked none days 2026-03-02 2026-03-06 seen 1 cut 1 = refused 1 segment 1 tridem 2-4 weight 51000 over 50999
end 5
";

// An annual permit on two routes, recalled by a segment of the second, which only the third format has words for.
const ANNUAL: &str = "permit-journal 3
1 snapshot = at 0
1 submit truck 1 from 1 to 2 asked 1/2,3 days 2026-03-02 2027-03-02 seen 0 route 1/2,3 = issued 1 at 0 route 1/2,3
1 post segment 3 closed 1 = posted 1 recalled 1
end 3
";

// Eight routes, of which some are equal, and routes of no segment. Whether a route is a walk is not asked.
const ROUTES: &str = "permit-journal 3
1 held truck 1 from 1 to 2 asked 1/1/1/1/1/1/1/65536,2 days 2026-03-02 2026-03-06 = issued 1 at 0 route 1/2/3/4/5/6/7/8
1 submit truck 1 from 1 to 2 asked -/1 days 2026-03-02 2026-03-06 seen 0 route -/- = issued 1 at 0 route 1/-
end 2
";

// The history of the one text is printed as the other.
fn prints_as(rt: &impl Abort, alloc: Global, text: &str, wanted: &str) {
    let history = read(alloc, text.as_bytes()).expect(rt, text);
    let printed = print(alloc, history.as_slice()).expect(rt, "memory");
    drop(history);
    holds(rt, printed.as_slice() == wanted.as_bytes(), text);
}

// Texts that are journals, and the oldest format that has words for each.
const JOURNALS: [(&str, u32); 9] = [
    ("permit-journal 3\nend 0\n", 1),
    (ONE_TRIP, 1),
    (BRIDGE, 1),
    (NO_ROAD, 1),
    (RECALL, 1),
    (FORMS, 1),
    (TRIDEM, 2),
    (ANNUAL, 3),
    (ROUTES, 3),
];

// They stand in one function alone, since the proof of each one that has them goes through their bytes.
fn journals() -> &'static [(&'static str, u32)] {
    &JOURNALS
}

#[test]
fn journals_are_read_and_printed_again(rt: HostRuntime) {
    for &(text, _) in journals() {
        prints_as(&rt, rt.alloc(), text, text);
    }
}

// Under the first line of an older format a journal gives the same history, which is printed in the third format.
fn prints_from(rt: &impl Abort, alloc: Global, text: &str, format: u32) {
    let first_line = format!(in alloc; "permit-journal {format}").expect(rt, "memory");
    let older = text.replace(alloc, "permit-journal 3", first_line.as_str());
    prints_as(rt, alloc, older.expect(rt, "memory").as_str(), text);
}

#[test]
fn journals_of_the_older_formats_give_the_same_histories(rt: HostRuntime) {
    for &(text, oldest) in journals() {
        for format in oldest..3 {
            prints_from(&rt, rt.alloc(), text, format);
        }
    }
}

// The row of the bad line, where the text is refused for one.
fn bad_row(alloc: Global, text: &str) -> Option<u64> {
    match read(alloc, text.as_bytes()).err() {
        Some(JournalRefusal::BadLine { row }) => Some(row),
        _ => None,
    }
}

// Texts that are none, and the row of the first line that no journal has there.
const BAD_JOURNALS: [(&str, u64); 30] = [
    // no first line, a part of it, another, and none but it
    ("", 1),
    ("\n", 1),
    ("permit-journal 1", 1),
    ("permit-journal 4\nend 0\n", 1),
    ("permit-journal 3", 1),
    ("permit-journal 3\n", 2),
    ("permit-journal 2\n", 2),
    // what the first format has no words for, posted or named
    (
        "permit-journal 1\n1 post segment 1 tridem 50999 = posted 1 recalled -\nend 1\n",
        2,
    ),
    (
        "permit-journal 1\n1 snapshot = refused 0 segment 1 tridem 2-4 weight 51000 over 50999\nend 1\n",
        2,
    ),
    (
        "permit-journal 1\n1 snapshot = outdated 0 fails segment 1 tridem 2-4 weight 51000 over 50999\nend 1\n",
        2,
    ),
    // what the first two have no words for: two routes that are asked for, found or issued
    (
        "permit-journal 2\n1 held truck 1 from 1 to 2 asked 1/1 days 2026-03-02 2026-03-06 = noroad\nend 1\n",
        2,
    ),
    (
        "permit-journal 2\n1 submit truck 1 from 1 to 2 asked 1/2 days 2026-03-02 2026-03-06 seen 0 none = noroad\nend 1\n",
        2,
    ),
    (
        "permit-journal 2\n1 submit truck 1 from 1 to 2 asked 1 days 2026-03-02 2026-03-06 seen 0 route 1/2 = noroad\nend 1\n",
        2,
    ),
    (
        "permit-journal 2\n1 snapshot = at 0\n1 snapshot = issued 1 at 0 route 1/2\nend 2\n",
        3,
    ),
    (
        "permit-journal 1\n1 snapshot = issued 1 at 0 route 1/2\nend 1\n",
        2,
    ),
    ("permit-journal 1\n", 2),
    // a zero in front; the same line is bad whatever follows
    ("permit-journal 1\n1 snapshot = at 00\nend 1\n", 2),
    ("permit-journal 1\n1 snapshot = at 00", 2),
    // a last line without its line feed, though it is the end line
    ("permit-journal 1\n1 snapshot = at 0\nend 1", 3),
    ("permit-journal 1\n1 snapshot = at 0", 2),
    // no end line
    ("permit-journal 1\n1 snapshot = at 0\n", 3),
    // an end line with another count, too early, or written otherwise
    ("permit-journal 1\n1 snapshot = at 0\nend 2\n", 3),
    ("permit-journal 1\nend 1\n", 2),
    ("permit-journal 1\nend 00\n", 2),
    ("permit-journal 1\nend  0\n", 2),
    // anything after the end line
    ("permit-journal 1\nend 0\n\n", 3),
    ("permit-journal 1\nend 0\nx", 3),
    ("permit-journal 1\nend 0\nend 0\n", 3),
    // an empty line, and a carriage return
    ("permit-journal 1\n\nend 0\n", 2),
    ("permit-journal 1\r\nend 0\n", 1),
];

#[test]
fn names_the_first_line_that_no_journal_has(rt: HostRuntime) {
    for &(text, row) in &BAD_JOURNALS {
        holds(&rt, bad_row(rt.alloc(), text) == Some(row), text);
    }
}

// What stands in place of what in the journal of one application, and the row of the line that is bad then.
const CHANGES: [(&str, &str, u64); 5] = [
    ("= at 0\n", "= at 00\n", 2),
    ("end 2\n", "end 2", 4),
    ("end 2\n", "end 3\n", 4),
    ("end 2\n", "end 2\n1 snapshot = at 0\n", 5),
    (" issued", "  issued", 3),
];

#[test]
fn names_the_line_that_was_changed(rt: HostRuntime) {
    for &(old, new, row) in &CHANGES {
        let text = ONE_TRIP.replace(rt.alloc(), old, new).expect(&rt, "memory");
        let found = bad_row(rt.alloc(), text.as_str());
        holds(&rt, found == Some(row), new);
    }
}

// Lines that no journal has, in whatever format: indices and numbers out of range, with a sign, with a zero in front, or none; spaces;
// words that are missing, too many, or another; lists; routes with a part that is none, with another separator, and nine of them; days;
// fractions and groups.
const FAULTS: &str = "\
0 snapshot = at 0
65537 snapshot = at 0
01 snapshot = at 0
1 snapshot = at 4294967296
1 snapshot = at 18446744073709551616
1 snapshot = at +0
1 snapshot = at -0
1 snapshot = at\x20
1 snapshot = at x
 1 snapshot = at 0
1  snapshot = at 0
1 snapshot = at 0\x20
1 snapshot\t= at 0
1 snapshot = at 0\r
1 snapshot at 0
1 snapshot =
1 snapshot
1 = at 0
1 snapshot = at 0 0
1 Snapshot = at 0
1 snapshot = full 1
1 post segment 1 closed 2 = range
1 post segment 1 rating 2 = range
1 post span 1 height 2 = range
1 held truck 1 from 1 to 2 days 2026-03-02 2026-03-06 asked none = noroad
1 snapshot = posted 1 recalled\x20
1 snapshot = posted 1 recalled 1,
1 snapshot = posted 1 recalled ,1
1 snapshot = posted 1 recalled 1,,2
1 snapshot = posted 1 recalled 1, 2
1 snapshot = posted 1 recalled -,1
1 snapshot = issued 1 at 0 route 0
1 snapshot = issued 1 at 0 route 65537
1 snapshot = issued 1 at 0 route none
1 snapshot = issued 1 at 0 route /
1 snapshot = issued 1 at 0 route 1/
1 snapshot = issued 1 at 0 route /1
1 snapshot = issued 1 at 0 route 1//2
1 snapshot = issued 1 at 0 route 1/0
1 snapshot = issued 1 at 0 route 1|2
1 snapshot = issued 1 at 0 route 1,/2
1 snapshot = issued 1 at 0 route 1/2/3/4/5/6/7/8/9
1 held truck 1 from 1 to 2 asked 1/none days 2026-03-02 2026-03-06 = noroad
1 day 2026-02-30 = range
1 day 2026-3-02 = range
1 snapshot = refused 0 segment 1 span 2 shear 2/4 hs20 5/3 rating 4
1 snapshot = refused 0 segment 1 span 2 shear 0/2 hs20 5/3 rating 4
1 snapshot = refused 0 segment 1 span 2 shear 1/0 hs20 5/3 rating 4
1 snapshot = refused 0 segment 1 span 2 shear 5 hs20 5/3 rating 4
1 snapshot = refused 0 segment 1 span 2 shear 5/1/1 hs20 5/3 rating 4
1 snapshot = refused 0 segment 1 span 2 shear 340282366920938463463374607431768211456/1 hs20 5/3 rating 4
1 snapshot = refused 0 segment 1 group 1-0 weight 1 limit 2 allowance 3
1 snapshot = refused 0 segment 1 group 1 weight 1 limit 2 allowance 3
1 snapshot = refused 0 segment 1 height 2 under 1
1 snapshot = refused 0 segment 1 tridem 2-4 weight 51000 limit 50999
1 post segment 1 closed 01 = range
1 post segment 1 tridems 1 = range";

#[test]
fn takes_no_line_with_a_fault(rt: HostRuntime) {
    for line in FAULTS.split('\n') {
        let text = format!(in rt.alloc(); "permit-journal 3\n{line}\nend 1\n");
        let text = text.expect(&rt, "memory");
        holds(&rt, bad_row(rt.alloc(), text.as_str()) == Some(2), line);
    }
}
