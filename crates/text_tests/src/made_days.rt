use crate::fixtures::same;
use day_maker::make_day;
use day_text::read_day;

const BEGINNING: &str = "\
day,2026-01-01,,,,,,
node,n0-0,,,,,,
node,n0-1,,,,,,
node,n1-0,,,,,,
node,n1-1,,,,,,
segment,e0-0,n0-0,n0-1,1149,,,
segment,w0-0,n0-1,n0-0,1149,,,
segment,s0-0,n0-0,n1-0,4249,,,
segment,u0-0,n1-0,n0-0,4249,,,
segment,s0-1,n0-1,n1-1,2305,,,
segment,u0-1,n1-1,n0-1,2305,,,
segment,e1-0,n1-0,n1-1,3044,,,
segment,w1-0,n1-1,n1-0,3044,,,
span,b0-0,e0-0,276,1619,,,
span,b1-0,e1-0,996,1489,,,
";

// The draws from seed 1 are 149, 11249, 57305, 38044, 35283, 24819, 26463 and 18689, worked by hand.
#[test]
fn begins_as_worked_by_hand(rt: HostRuntime) {
    let text = make_day(rt.alloc(), 1, 1).expect(&rt, "memory");
    assert!(rt; text.as_slice().starts_with(BEGINNING.as_bytes()));
}

#[test]
fn is_read_as_a_day_file(rt: HostRuntime) {
    let text = make_day(rt.alloc(), 65535, 3).expect(&rt, "memory");
    let file = read_day(rt.alloc(), text.as_slice()).expect(&rt, "a day file");
    let counts = [
        file.base().fleet().len(),
        file.actors().len(),
        file.commands().len(),
    ];
    drop(file);
    same(&rt, 0, counts, [4, 4, 60]);
}
