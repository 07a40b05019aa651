// What is said of a history and of the commands of a day file. Nothing else of the history is looked at, so the lines here need
// be those of no office.

use crate::fixtures::entries;
use day_text::read_day;
use journal_whole::{Wholeness, judge};
use std::alloc::Global;
use std::process::Abort;

// Two actors. The first applies and then looks at a permit, and the second posts.
const FILE: &str = "\
day,2026-03-02,,,,,,
node,a,,,,,,
node,b,,,,,,
segment,ab,a,b,1000,,,
truck,t1,ACME,168,102,720,0:12000 180:17000 228:17000,
actor,x,,,,,,
actor,y,,,,,,
apply,x,t1,a,b,,2026-03-02,2026-03-06
post,y,ab,height,167,,,
show,x,1,,,,,
end,,,,,,,
";

// The second actor has no command, and the first looks twice.
const LOOKS: &str = "\
day,2026-03-02,,,,,,
actor,x,,,,,,
actor,y,,,,,,
show,x,1,,,,,
show,x,2,,,,,
end,,,,,,,
";

const NOTHING: &str = "day,2026-03-02,,,,,,\nend,,,,,,,\n";

const LOOK: &str = "1 snapshot = at 0\n";

const LATE: &str = "\
1 submit truck 1 from 1 to 2 asked none days 2026-03-02 2026-03-06 seen 0 route 1 = outdated 1 fails segment 1 height 168 over 167
";

const ISSUED: &str = "\
1 submit truck 1 from 1 to 2 asked none days 2026-03-02 2026-03-06 seen 0 route 1 = issued 1 at 0 route 1
";

// The office finds what the application needs, and the other commands come behind it.
const HELD_AND_ALL: &str = "\
1 held truck 1 from 1 to 2 asked none days 2026-03-02 2026-03-06 = noroad
1 show 1 = unknown
2 post segment 1 height 167 = posted 1 recalled -
";

const HELD_LATE: &str = "\
1 held truck 1 from 1 to 2 asked none days 2026-03-02 2026-03-06 = outdated 1 meets segment 1
";

const POST: &str = "2 post segment 1 height 167 = posted 1 recalled -\n";

const SHOW: &str = "1 show 1 = unknown\n";

const SHOW_NEXT: &str = "1 show 2 = unknown\n";

// None of these comes next behind the posting and the first look.
const STRAY: &str = "\
3 show 1 = unknown
2 post segment 1 height 167 = range
2 show 1 = unknown
1 show 1 = unknown
1 snapshot = at 0
1 submit truck 1 from 1 to 2 asked none days 2026-03-02 2026-03-06 seen 1 route 1 = noroad
1 submit truck 2 from 1 to 2 asked none days 2026-03-02 2026-03-06 seen 0 route 1 = noroad
1 submit truck 1 from 2 to 2 asked none days 2026-03-02 2026-03-06 seen 0 route 1 = noroad
1 submit truck 1 from 1 to 1 asked none days 2026-03-02 2026-03-06 seen 0 route 1 = noroad
1 submit truck 1 from 1 to 2 asked 1 days 2026-03-02 2026-03-06 seen 0 route 1 = noroad
1 submit truck 1 from 1 to 2 asked none days 2026-03-03 2026-03-06 seen 0 route 1 = noroad
1 submit truck 1 from 1 to 2 asked none days 2026-03-02 2026-03-07 seen 0 route 1 = noroad
1 submit truck 1 from 1 to 2 asked none days 2026-03-02 2026-03-06 seen 0 route 1 = nomemory
1 held truck 1 from 1 to 2 asked none days 2026-03-02 2026-03-06 = noroad
";

// None of these comes first.
const FIRST_STRAY: &str = "\
1 show 1 = unknown
1 snapshot = nomemory
1 snapshot = noroad
1 held truck 1 from 1 to 2 asked none days 2026-03-02 2026-03-06 = noroad
2 post segment 1 height 166 = posted 1 recalled -
2 post segment 1 height 167 = nomemory
2 day 2026-03-02 = day 2026-03-02
3 snapshot = at 0
";

// What is said of these lines and of the commands of a file.
fn says(rt: &impl Abort, alloc: Global, file: &str, parts: &[&str], wanted: Wholeness) {
    let mut lines = String::new(alloc);
    for part in parts {
        lines.push_str(part).expect(rt, "memory");
    }
    let file = read_day(alloc, file.as_bytes()).expect(rt, "a day file");
    let history = entries(rt, alloc, lines.as_str());
    let actors = file.actors().len();
    let said = judge(alloc, actors, file.commands(), history.as_slice()).expect(rt, "memory");
    drop(history);
    drop(file);
    assert!(rt; said == wanted, "{lines}");
}

// The same of the first file, and of lines behind so many attempts that are out of date.
fn says_behind(rt: &impl Abort, alloc: Global, tries: u32, lines: &str, wanted: Wholeness) {
    let mut text = String::new(alloc);
    for _ in 0..tries {
        text.push_str(LOOK).expect(rt, "memory");
        text.push_str(LATE).expect(rt, "memory");
    }
    says(rt, alloc, FILE, &[text.as_str(), lines], wanted);
    drop(text);
}

#[test]
fn takes_all_commands_whatever_comes_between(rt: HostRuntime) {
    let alloc = rt.alloc();
    let whole = Wholeness::Whole;
    says(&rt, alloc, FILE, &[LOOK, ISSUED, SHOW, POST], whole);
    says(
        &rt,
        alloc,
        FILE,
        &[LOOK, POST, LATE, LOOK, ISSUED, SHOW],
        whole,
    );
    says(
        &rt,
        alloc,
        FILE,
        &[POST, LOOK, LATE, LOOK, LATE, LOOK, ISSUED, SHOW],
        whole,
    );
    says(&rt, alloc, LOOKS, &[SHOW, SHOW_NEXT], whole);
    says(&rt, alloc, NOTHING, &[], whole);
}

#[test]
fn names_the_first_command_that_is_lacking(rt: HostRuntime) {
    let alloc = rt.alloc();
    says(&rt, alloc, FILE, &[], Wholeness::Lacks { order: 0 });
    says(&rt, alloc, FILE, &[LOOK], Wholeness::Lacks { order: 0 });
    says(
        &rt,
        alloc,
        FILE,
        &[LOOK, LATE, POST],
        Wholeness::Lacks { order: 0 },
    );
    says(
        &rt,
        alloc,
        FILE,
        &[LOOK, ISSUED, SHOW],
        Wholeness::Lacks { order: 1 },
    );
    says(
        &rt,
        alloc,
        FILE,
        &[POST, LOOK, ISSUED],
        Wholeness::Lacks { order: 2 },
    );
    says(&rt, alloc, LOOKS, &[SHOW], Wholeness::Lacks { order: 1 });
}

#[test]
fn names_the_first_entry_that_strays(rt: HostRuntime) {
    let alloc = rt.alloc();
    for line in FIRST_STRAY.lines() {
        says(
            &rt,
            alloc,
            FILE,
            &[line, "\n", SHOW],
            Wholeness::Strays { entry: 0 },
        );
    }
    for line in STRAY.lines() {
        let parts = [POST, LOOK, line, "\n", SHOW];
        says(&rt, alloc, FILE, &parts, Wholeness::Strays { entry: 2 });
    }
    let again = [LOOK, ISSUED, LOOK, ISSUED];
    says(&rt, alloc, FILE, &again, Wholeness::Strays { entry: 2 });
    says(
        &rt,
        alloc,
        LOOKS,
        &[SHOW_NEXT, SHOW],
        Wholeness::Strays { entry: 0 },
    );
    says(
        &rt,
        alloc,
        LOOKS,
        &[SHOW, SHOW_NEXT, SHOW],
        Wholeness::Strays { entry: 2 },
    );
    says(&rt, alloc, NOTHING, &[SHOW], Wholeness::Strays { entry: 0 });
}

#[test]
fn lets_the_office_find_after_eight_attempts_alone(rt: HostRuntime) {
    let alloc = rt.alloc();
    says_behind(&rt, alloc, 8, HELD_AND_ALL, Wholeness::Whole);
    says_behind(&rt, alloc, 7, HELD_AND_ALL, Wholeness::Strays { entry: 14 });
    says_behind(&rt, alloc, 8, LOOK, Wholeness::Strays { entry: 16 });
    says_behind(&rt, alloc, 8, HELD_LATE, Wholeness::Strays { entry: 16 });
    says_behind(&rt, alloc, 8, "", Wholeness::Lacks { order: 0 });
}
