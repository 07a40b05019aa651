//! What no clause says: that calls are answered, on threads that run at once.
ghost use Rattle.std.specs.Prelude.{◌≡◌, ◌<◌};
ghost use Rattle.clearance_rules.specs.Counters.{IsBlankOf};
ghost use Rattle.office_turn.specs.Told.{IsReady};

use crate::fixtures::{ALONE, base, day, full_at, has_lines};
use journal_audit::{Verdict, audit};
use office_core::{CountedOffice, Looked, Office, OfficeCalls, OneSeat};
use office_desk::{Desk, Pass, Root, Seat};
use office_words::Reply;
use restriction_log::Change;
use std::alloc::Global;
use std::marker::Brand;
use std::process::Abort;
use std::sync::ledger::{Blank, Ledger};
use std::sync::{Arc, Wait};
use std::thread::{Threads, join_mut};

// A desk of an office about one segment.
fn start<L: Ledger>(rt: &impl Abort, alloc: Global, most: u32, blank: Blank) -> (Desk<L>, Root<L>)
    requires counter { IsBlankOf L.name L.parts blank }
    ensures { result.1.lock ≡ result.0 }
{
    assert!(rt; 1 <= most && most <= 1_000_000);
    let base = Arc::new(alloc, base(rt, alloc, ALONE, 168)).expect(rt, "memory");
    Desk::start(alloc, base, day(rt, "2026-03-02"), most, blank).expect(rt, "memory")
}

// One caller more.
fn admit<L: Ledger>(rt: &impl Abort, desk: &Desk<L>, root: &mut Root<L>) -> Pass<L>
    requires { root.old.lock ≡ desk.now }
    ensures ready { IsReady desk.now result }
    ensures lock { root.new.lock ≡ desk.now }
{
    assert!(rt; root.admitted() < 65_536);
    desk.admit(root)
}

// A caller goes.
fn leave<L: Ledger>(desk: &Desk<L>, root: &mut Root<L>, pass: Pass<L>)
    requires lock { root.old.lock ≡ desk.now }
    requires ready { IsReady desk.now pass }
    ensures { root.new.lock ≡ desk.now }
{
    desk.leave(root, pass);
}

// The office of a desk that all callers left.
fn close<L: Ledger>(rt: &impl Abort, desk: Desk<L>, root: Root<L>) -> Office
    requires { root.lock ≡ desk }
{
    assert!(rt; root.joined() == root.admitted());
    let (office, _tests) = desk.close(root);
    office
}

// The office of such a desk, for calls on one thread.
fn take_home<L: Ledger>(rt: &impl Abort, desk: Desk<L>, root: Root<L>) -> CountedOffice<L>
    requires { root.lock ≡ desk }
{
    assert!(rt; root.joined() == root.admitted());
    let (office, readings) = desk.close(root);
    CountedOffice::resume(office, readings).expect(rt, "memory")
}

// Caller 3 looks at a permit that nobody has, on one thread.
fn show_at_home<L: Ledger>(office: &mut CountedOffice<L>) {
    let mut seat = OneSeat::new(office, 2);
    drop(seat.show(0));
}

// The office's own history is one of an office about its roads and trucks.
fn is_legal(rt: &impl Abort, alloc: Global, office: &Office) {
    let base = office.share_base().expect(rt, "memory");
    let verdict = audit(alloc, base, day(rt, "2026-03-02"), office.history()).expect(rt, "memory");
    assert!(rt; verdict == Verdict::Legal);
}

// Posts that the segment is closed. How many entries the history held, where it was full, and else 0.
fn post<R: Wait, L: Ledger>(rt: &R, desk: &Desk<L>, pass: &mut Pass<L>) -> u32
    requires { IsReady desk.now pass.old }
    ensures { IsReady desk.now pass.new }
{
    let change = Change::Closed {
        segment: 0,
        closed: true,
    };
    full_at(desk.post(rt, pass, change))
}

// Looks at a permit that nobody has.
fn show<R: Wait, L: Ledger>(rt: &R, desk: &Desk<L>, pass: &mut Pass<L>)
    requires { IsReady desk.now pass.old }
    ensures { IsReady desk.now pass.new }
{
    drop(desk.show(rt, pass, 0));
}

// Does so by a seat, which can go to another thread.
fn show_by_seat<R: Wait + Sync, L: Ledger + Send + Sync>(
    rt: &R,
    desk: &Desk<L>,
    pass: Pass<L>,
) -> Pass<L>
    requires { IsReady desk.now pass }
    ensures { IsReady desk.now result }
{
    let mut seat = sent(Seat::new(rt, desk, pass));
    drop(seat.show(0));
    seat.into_pass()
}

// The version of a look, or how many entries a full history held.
fn look<R: Wait + Abort, L: Ledger>(rt: &R, desk: &Desk<L>, pass: &mut Pass<L>) -> Result<u32, u32>
    requires { IsReady desk.now pass.old }
    ensures { IsReady desk.now pass.new }
{
    match desk.snapshot(rt, pass) {
        Looked::At(snapshot) => Ok(snapshot.version()),
        Looked::Full { entries } => Err(entries),
        Looked::NoMemory => rt.abort(),
    }
}

// Posts a change and looks at a permit, so often.
fn post_and_show<R: Wait, L: Ledger>(rt: &R, desk: &Desk<L>, pass: &mut Pass<L>, times: u32)
    requires { IsReady desk.now pass.old }
    ensures { IsReady desk.now pass.new }
{
    for _ in 0..times {
        let _full = post(rt, desk, pass);
        show(rt, desk, pass);
    }
}

// These calls, which can go to another thread.
fn sent<C: OfficeCalls + Send>(calls: C) -> C
    ensures { result ≡ calls }
{
    calls
}

// How many calls of two callers there are. Each of them posts and looks in turns, and the postings are numbered in order.
fn count_calls(rt: &impl Abort, office: &Office) -> [u32; 2] {
    let mut counts = [0_u32; 2];
    let mut versions = 0_u32;
    for entry in office.history() {
        let caller = entry.caller as usize;
        assert!(rt; caller < 2);
        let posts = counts[caller] % 2 == 0;
        match &entry.reply {
            Reply::Posted { version, .. } => {
                versions = versions.wrapping_add(1);
                assert!(rt; posts && *version == versions);
            }
            Reply::Unknown => assert!(rt; !posts),
            _ => rt.abort(),
        }
        counts[caller] = counts[caller].wrapping_add(1);
    }
    counts
}

#[test]
fn a_look_sees_the_posting_before_it(rt: HostRuntime) {
    look_behind_a_posting::<Brand>(&rt, Blank::new(1));
}

const BEHIND: &str = "\
1 post segment 1 closed 1 = posted 1 recalled -
1 snapshot = at 1
2 show 0 = unknown
3 show 0 = unknown
";

// Looks behind a posting of the same caller. The office that comes back goes on on one thread, and its history is audited.
fn look_behind_a_posting<L: Ledger + Send + Sync>(
    rt: &(impl Abort + Wait + AllocGlobal + Sync),
    blank: Blank,
)
    requires counter { IsBlankOf L.name L.parts blank }
{
    let (desk, mut root) = start::<L>(rt, rt.alloc(), 100, blank);
    let mut one = admit(rt, &desk, &mut root);
    let full = post(rt, &desk, &mut one);
    let looked = look(rt, &desk, &mut one);
    leave(&desk, &mut root, one);
    let other = admit(rt, &desk, &mut root);
    let other = show_by_seat(rt, &desk, other);
    leave(&desk, &mut root, other);
    let mut office = take_home(rt, desk, root);
    show_at_home(&mut office);
    has_lines(rt, rt.alloc(), office.office(), BEHIND);
    is_legal(rt, rt.alloc(), office.office());
    drop(office);
    assert!(rt; full == 0 && looked == Ok(1));
}

#[test]
fn is_full_once_all_turns_are_taken(rt: HostRuntime) {
    take_all_turns::<Brand>(&rt, Blank::new(1));
}

// Takes the one turn that there is, and two more.
fn take_all_turns<L: Ledger>(rt: &(impl Abort + Wait + AllocGlobal + Sync), blank: Blank)
    requires counter { IsBlankOf L.name L.parts blank }
{
    let (desk, mut root) = start::<L>(rt, rt.alloc(), 1, blank);
    let mut one = admit(rt, &desk, &mut root);
    show(rt, &desk, &mut one);
    let full = post(rt, &desk, &mut one);
    let looked = look(rt, &desk, &mut one);
    leave(&desk, &mut root, one);
    let office = close(rt, desk, root);
    has_lines(rt, rt.alloc(), &office, "1 show 0 = unknown\n");
    drop(office);
    assert!(rt; full == 1 && looked == Err(1));
}

#[test]
fn two_callers_post_and_look_at_once(rt: HostRuntime) {
    call_at_once::<Brand>(&rt, Blank::new(1));
}

// Two callers post and look in turns, both at once.
fn call_at_once<L: Ledger + Send + Sync>(
    rt: &(impl Abort + Wait + Threads + AllocGlobal + Sync),
    blank: Blank,
)
    requires counter { IsBlankOf L.name L.parts blank }
{
    let (desk, mut root) = start::<L>(rt, rt.alloc(), 1_000, blank);
    let mut one = admit(rt, &desk, &mut root);
    let mut two = admit(rt, &desk, &mut root);
    both_at_once(rt, &desk, &mut one, &mut two);
    leave(&desk, &mut root, one);
    leave(&desk, &mut root, two);
    let office = close(rt, desk, root);
    assert!(rt; office.version() == 400);
    let counts = count_calls(rt, &office);
    drop(office);
    assert!(rt; counts == [400, 400]);
}

// Two passes do so at once.
fn both_at_once<'a, R: Threads + Wait + Sync, L: Ledger + Send + Sync>(
    rt: &'a R,
    desk: &'a Desk<L>,
    one: &'a mut Pass<L>,
    two: &'a mut Pass<L>,
)
    requires one { IsReady desk.now one.old }
    requires two { IsReady desk.now two.old }
    ensures one { IsReady desk.now one.new }
    ensures two { IsReady desk.now two.new }
{
    let mut first = || post_and_show(rt, desk, one, 200);
    let mut second = || post_and_show(rt, desk, two, 200);
    join_mut(rt, &mut first, &mut second);
}
