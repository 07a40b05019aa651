use day_text::read_day;
use day_trial::serve_in_order;
use report_text::summary;

// Two analysts and a posting between them: the truck is 168 in high, so the permit is recalled, and then refused.
const DAY: &[u8] = b"day,2026-03-02,,,,,,
node,A,,,,,,
node,B,,,,,,
node,C,,,,,,
segment,S1,A,B,5000,,,
truck,T1,ACME,168,102,720,0:12000 180:17000 228:17000,
truck,T2,BOLT,150,100,720,0:12000 180:17000 228:17000,
actor,ann,,,,,,
actor,bob,,,,,,
apply,ann,T1,A,B,,2026-03-02,2026-03-06
apply,bob,T2,A,B,,2026-03-02,2026-03-06
apply,ann,T1,A,C,,2026-03-02,2026-03-06
post,bob,S1,height,167,,,
apply,bob,T1,A,B,,2026-03-02,2026-03-06
post,ann,S1,height,166,,,
show,ann,1,,,,,
end,,,,,,,
";

// Four applications make two entries each, the other commands one.
const SUMMARY: &[u8] = b"entries 11
issued 1
refused 1
noroad 1
notneeded 1
recalled 1
version 2
";

#[test]
fn counts_a_day_worked_by_hand(rt: HostRuntime) {
    let file = read_day(rt.alloc(), DAY).expect(&rt, "a day file");
    let office = serve_in_order(rt.alloc(), file).expect(&rt, "memory");
    let text = summary(rt.alloc(), office.history()).expect(&rt, "memory");
    drop(office);
    assert!(rt; text.as_slice() == SUMMARY);
}
