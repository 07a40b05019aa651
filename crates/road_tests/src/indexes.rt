ghost use Rattle.std.specs.Prelude.{◌<◌, length};

use crate::fixtures::same;
use recall_index::Index;
use std::process::Abort;

// These use a segment.
fn uses(rt: &impl Abort, index: &Index, segment: u32, numbers: &[u32])
    requires { segment < length index.now }
{
    same(rt, segment as usize, index.using(segment), numbers);
}

// Two routes over three segments, of which the first holds a segment twice.
#[test]
fn lists_those_whose_route_holds_a_segment(rt: HostRuntime) {
    let (first, second) = ([0, 2, 0], [2]);
    let mut index = Index::new(rt.alloc(), 3).expect(&rt, "memory");
    index.add(1, &first).expect(&rt, "memory");
    uses(&rt, &index, 0, &[1]);
    uses(&rt, &index, 1, &[]);
    uses(&rt, &index, 2, &[1]);
    index.add(7, &second).expect(&rt, "memory");
    uses(&rt, &index, 2, &[1, 7]);
    index.remove(1, &first);
    uses(&rt, &index, 0, &[]);
    uses(&rt, &index, 2, &[7]);
    // and of a list that becomes empty
    index.remove(7, &second);
    uses(&rt, &index, 2, &[]);
    drop(index);
}

// Numbers with another between them, and then a block before another.
#[test]
fn takes_many_numbers_out_at_once(rt: HostRuntime) {
    let (both, second) = ([0, 1], [1]);
    let mut index = Index::new(rt.alloc(), 2).expect(&rt, "memory");
    index.add(1, &both).expect(&rt, "memory");
    index.add(2, &both).expect(&rt, "memory");
    index.add(3, &both).expect(&rt, "memory");
    index.add(4, &second).expect(&rt, "memory");
    index.remove_each(&[1, 3], &both);
    uses(&rt, &index, 0, &[2]);
    uses(&rt, &index, 1, &[2, 4]);
    index.remove_each(&[2], &both);
    uses(&rt, &index, 0, &[]);
    uses(&rt, &index, 1, &[4]);
    drop(index);
}
