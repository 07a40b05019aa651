use day_text::read_day;
use day_trial::serve_rerouted;
use journal_text::print;
use std::alloc::Global;
use std::process::Abort;

// Each day has one actor, so the desk calls as number 2. Its truck is 168 in high, so it needs a permit. S1 leads from A to B, S2
// and S3 lead around it, and S4 is a longer way.

// A day on which recalled permits are replaced, and the journal of its history.
type Served = (&'static [u8], &'static [u8]);

// The way of permit 1 is closed, so permit 2 takes its place along the way around. That is closed too, and no way is left.
const REPLACED: Served = (
    b"day,2026-03-02,,,,,,
node,A,,,,,,
node,B,,,,,,
node,C,,,,,,
segment,S1,A,B,1000,,,
segment,S2,A,C,1000,,,
segment,S3,C,B,1000,,,
truck,T1,ACME,168,102,720,0:12000 180:17000 228:17000,
actor,ann,,,,,,
apply,ann,T1,A,B,,2026-03-02,2026-03-06
post,ann,S1,closed,1,,,
post,ann,S3,closed,1,,,
end,,,,,,,
",
    b"permit-journal 3
1 snapshot = at 0
1 submit truck 1 from 1 to 2 asked none days 2026-03-02 2026-03-06 seen 0 route 1 = issued 1 at 0 route 1
1 post segment 1 closed 1 = posted 1 recalled 1
2 held truck 1 from 1 to 2 asked none days 2026-03-02 2026-03-06 = issued 2 at 1 route 2,3
1 post segment 3 closed 1 = posted 2 recalled 2
2 held truck 1 from 1 to 2 asked none days 2026-03-02 2026-03-06 = refused 2 segment 1 closed
end 6
",
);

// Nothing is posted, so the desk asks for nothing.
const UNPOSTED: Served = (
    b"day,2026-03-02,,,,,,
node,A,,,,,,
node,B,,,,,,
segment,S1,A,B,1000,,,
truck,T1,ACME,168,102,720,0:12000 180:17000 228:17000,
actor,ann,,,,,,
apply,ann,T1,A,B,S1,2026-03-02,2026-03-06
show,ann,1,,,,,
end,,,,,,,
",
    b"permit-journal 3
1 snapshot = at 0
1 submit truck 1 from 1 to 2 asked 1 days 2026-03-02 2026-03-06 seen 0 route 1 = issued 1 at 0 route 1
1 show 1 = shown 1 caller 1 truck 1 days 2026-03-02 2026-03-06 at 0 seen 0 inforce
end 3
",
);

// A replacement is recalled and replaced in turn. It belongs to the desk, so nobody else can give it back.
const REPLACED_TWICE: Served = (
    b"day,2026-03-02,,,,,,
node,A,,,,,,
node,B,,,,,,
node,C,,,,,,
segment,S1,A,B,1000,,,
segment,S2,A,C,1000,,,
segment,S3,C,B,1000,,,
segment,S4,A,B,9000,,,
truck,T1,ACME,168,102,720,0:12000 180:17000 228:17000,
actor,ann,,,,,,
apply,ann,T1,A,B,S1,2026-03-02,2026-03-06
post,ann,S1,height,167,,,
post,ann,S2,closed,1,,,
surrender,ann,3,,,,,
end,,,,,,,
",
    b"permit-journal 3
1 snapshot = at 0
1 submit truck 1 from 1 to 2 asked 1 days 2026-03-02 2026-03-06 seen 0 route 1 = issued 1 at 0 route 1
1 post segment 1 height 167 = posted 1 recalled 1
2 held truck 1 from 1 to 2 asked none days 2026-03-02 2026-03-06 = issued 2 at 1 route 2,3
1 post segment 2 closed 1 = posted 2 recalled 2
2 held truck 1 from 1 to 2 asked none days 2026-03-02 2026-03-06 = issued 3 at 2 route 4
1 surrender 3 = notyours
end 7
",
);

// Two permits are recalled at once, on a later day. The first began before it, and its replacement begins on it.
const LATER: Served = (
    b"day,2026-03-02,,,,,,
node,A,,,,,,
node,B,,,,,,
segment,S1,A,B,1000,,,
segment,S4,A,B,9000,,,
truck,T1,ACME,168,102,720,0:12000 180:17000 228:17000,
actor,ann,,,,,,
apply,ann,T1,A,B,,2026-03-02,2026-03-06
apply,ann,T1,A,B,,2026-03-05,2026-03-09
setday,ann,2026-03-04,,,,,
post,ann,S1,closed,1,,,
end,,,,,,,
",
    b"permit-journal 3
1 snapshot = at 0
1 submit truck 1 from 1 to 2 asked none days 2026-03-02 2026-03-06 seen 0 route 1 = issued 1 at 0 route 1
1 snapshot = at 0
1 submit truck 1 from 1 to 2 asked none days 2026-03-05 2026-03-09 seen 0 route 1 = issued 2 at 0 route 1
1 day 2026-03-04 = day 2026-03-04
1 post segment 1 closed 1 = posted 1 recalled 1,2
2 held truck 1 from 1 to 2 asked none days 2026-03-04 2026-03-06 = issued 3 at 1 route 2
2 held truck 1 from 1 to 2 asked none days 2026-03-05 2026-03-09 = issued 4 at 1 route 2
end 8
",
);

const SERVED: [Served; 4] = [REPLACED, UNPOSTED, REPLACED_TWICE, LATER];

fn serves(rt: &impl Abort, alloc: Global, day: &[u8], journal: &[u8]) {
    let file = read_day(alloc, day).expect(rt, "a day file");
    let office = serve_rerouted(alloc, file).expect(rt, "memory");
    let text = print(alloc, office.history()).expect(rt, "memory");
    drop(office);
    assert!(rt; text.as_slice() == journal);
}

#[test]
fn replaces_what_each_command_recalled(rt: HostRuntime) {
    for &(day, journal) in &SERVED {
        serves(&rt, rt.alloc(), day, journal);
    }
}
