//! What no clause says: that turns are taken and the calls return, on threads that run at once.
ghost use Rattle.std.specs.Prelude.{◌≡◌, ◌<◌, Some, All};
ghost use Rattle.office_turn.specs.Told.{IsReady};

use office_turn::{Notes, Pass, Root, Turn, Worn, note_once};
use std::alloc::Global;
use std::process::Abort;
use std::sync::Wait;
use std::thread::{Threads, for_each_mut};

// A lock with room for so many notes, each made in a turn.
fn start(rt: &impl Abort, alloc: Global, most: u32) -> (Turn<Notes>, Root<Notes>)
    ensures tied { result.0.terms ≡ Some result.0.most }
    ensures lock { result.1.lock ≡ result.0 }
{
    assert!(rt; 1 <= most && most <= 1_000_000);
    let notes = Notes::new(alloc, most).expect(rt, "memory");
    Turn::start(alloc, notes, most).expect(rt, "memory")
}

// One pass more.
fn admit(rt: &impl Abort, turn: &Turn<Notes>, root: &mut Root<Notes>) -> Pass<Notes>
    requires { root.old.lock ≡ turn.now }
    ensures ready { IsReady turn.now result }
    ensures lock { root.new.lock ≡ turn.now }
{
    assert!(rt; root.admitted() < 65_536);
    turn.admit(root)
}

// Takes a pass back.
fn join(turn: &Turn<Notes>, root: &mut Root<Notes>, pass: Pass<Notes>)
    requires lock { root.old.lock ≡ turn.now }
    requires ready { IsReady turn.now pass }
    ensures { root.new.lock ≡ turn.now }
{
    turn.join(root, pass);
}

// The notes of a lock whose passes are all back.
fn close(rt: &impl Abort, turn: Turn<Notes>, root: Root<Notes>) -> Notes
    requires { root.lock ≡ turn }
{
    assert!(rt; root.joined() == root.admitted());
    turn.close(root)
}

// Notes a number in a turn.
fn note<R: Wait>(
    rt: &R,
    turn: &Turn<Notes>,
    pass: &mut Pass<Notes>,
    number: u32,
) -> Result<(), Worn>
    requires tied { turn.now.terms ≡ Some turn.now.most }
    requires ready { IsReady turn.now pass.old }
    ensures { IsReady turn.now pass.new }
{
    note_once(rt, turn, pass, number)
}

// Notes the numbers below `count`, each in a turn of its own.
fn note_each<R: Wait>(rt: &R, turn: &Turn<Notes>, pass: &mut Pass<Notes>, count: u32)
    requires tied { turn.now.terms ≡ Some turn.now.most }
    requires ready { IsReady turn.now pass.old }
    ensures { IsReady turn.now pass.new }
{
    for number in 0..count {
        if note(rt, turn, pass, number).is_err() {
            return;
        }
    }
}

// Each pass notes on a thread of its own.
fn note_at_once<R: Threads + Wait + Sync>(
    rt: &R,
    turn: &Turn<Notes>,
    passes: &mut [Pass<Notes>],
    count: u32,
)
    requires tied { turn.now.terms ≡ Some turn.now.most }
    requires ready { All (IsReady turn.now) passes.old }
    ensures { All (IsReady turn.now) passes.new }
{
    let threads = passes.len();
    if threads > 0 {
        for_each_mut(
            rt,
            passes,
            threads,
            &|_, pass| note_each(rt, turn, pass, count),
        );
    }
}

// How many numbers each caller noted, where each noted 0, 1, 2 and so on.
fn counts_in_order<const N: usize>(notes: &Notes) -> Option<[u32; N]> {
    let mut counts = [0; N];
    for &(caller, number) in &notes.pairs {
        let count = counts.get_mut(caller as usize)?;
        if *count != number {
            return None;
        }
        *count = number.wrapping_add(1);
    }
    Some(counts)
}

#[test]
fn a_lock_of_one_turn_is_worn_after_it(rt: HostRuntime) {
    let (turn, mut root) = start(&rt, rt.alloc(), 1);
    let mut pass = admit(&rt, &turn, &mut root);
    let first = note(&rt, &turn, &mut pass, 7);
    let second = note(&rt, &turn, &mut pass, 8);
    join(&turn, &mut root, pass);
    let notes = close(&rt, turn, root);
    assert!(rt; first == Ok(()));
    assert!(rt; second == Err(Worn { turns: 1 }));
    assert!(rt; notes.pairs.as_slice() == [(0, 7)].as_slice());
}

#[test]
fn two_passes_on_two_threads_note_twice_each(rt: HostRuntime) {
    let (turn, mut root) = start(&rt, rt.alloc(), 100);
    let mut passes = [admit(&rt, &turn, &mut root), admit(&rt, &turn, &mut root)];
    note_at_once(&rt, &turn, &mut passes, 2);
    let [one, two] = passes;
    let numbers = (one.number(), two.number());
    join(&turn, &mut root, one);
    join(&turn, &mut root, two);
    let counts = (root.admitted(), root.joined());
    let notes = close(&rt, turn, root);
    assert!(rt; numbers == (0, 1));
    assert!(rt; counts == (2, 2));
    assert!(rt; notes.pairs.len() == 4);
    assert!(rt; counts_in_order(&notes) == Some([2, 2]));
}

// Eight passes of a lock with so many turns, each of which notes so often on a thread of its own. Their notes. All turns are taken.
fn eight_note<R: Abort + Threads + Wait + AllocGlobal + Sync>(
    rt: &R,
    most: u32,
    times: u32,
) -> Notes {
    let (turn, mut root) = start(rt, rt.alloc(), most);
    let mut passes = [
        admit(rt, &turn, &mut root),
        admit(rt, &turn, &mut root),
        admit(rt, &turn, &mut root),
        admit(rt, &turn, &mut root),
        admit(rt, &turn, &mut root),
        admit(rt, &turn, &mut root),
        admit(rt, &turn, &mut root),
        admit(rt, &turn, &mut root),
    ];
    note_at_once(rt, &turn, &mut passes, times);
    let [one, two, three, four, five, six, seven, mut eight] = passes;
    let more = note(rt, &turn, &mut eight, times);
    join(&turn, &mut root, one);
    join(&turn, &mut root, two);
    join(&turn, &mut root, three);
    join(&turn, &mut root, four);
    join(&turn, &mut root, five);
    join(&turn, &mut root, six);
    join(&turn, &mut root, seven);
    join(&turn, &mut root, eight);
    let notes = close(rt, turn, root);
    assert!(rt; more == Err(Worn { turns: most }));
    notes
}

#[test]
fn eight_passes_on_eight_threads_note_200_times_each(rt: HostRuntime) {
    let notes = eight_note(&rt, 1600, 200);
    assert!(rt; notes.pairs.len() == 1600);
    assert!(rt; counts_in_order(&notes) == Some([200; 8]));
}

// Eight callers want 200 turns each, and there are five: the lock wears out while more of them sleep than turns are left, and each
// of them comes back.
#[test]
fn callers_come_back_from_a_lock_that_wears_out(rt: HostRuntime) {
    let notes = eight_note(&rt, 5, 200);
    assert!(rt; notes.pairs.len() == 5);
    assert!(rt; counts_in_order::<8>(&notes).is_some());
}
