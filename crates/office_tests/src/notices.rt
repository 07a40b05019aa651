ghost use Rattle.notice_desk.specs.Standings.{AreNew, AreWithinRecalls, standings};

use crate::fixtures::{named, recall};
use notice_desk::{MemoryNotice, Notice, NoticeFault, Recall, Returned, Subscribers, Whom};
use std::alloc::Global;
use std::process::Abort;

// Three recalls, of which the second is another carrier's.
fn three(rt: &impl Abort) -> [Recall; 3] {
    [
        recall(rt, 1, 1, b"ACME"),
        recall(rt, 4, 2, b"BETA"),
        recall(rt, 2, 2, b"ACME"),
    ]
}

// Nobody, who is through with nothing.
#[tactic(auto, using(notice_desk::proofs::Ready::none_new))]
fn nobody(alloc: Global) -> Subscribers
    ensures { AreNew (standings (λ n. (⟦<dyn Notice as Notice>⟧ n.vtable).list n.value) result) }
{
    Subscribers::new(alloc)
}

// A list with room for eight recalls. The calls of these numbers fail.
fn notice(rt: &impl Abort, alloc: Global, failing: &[u32]) -> Box<MemoryNotice> {
    let failing = failing.to_vec(alloc).expect(rt, "memory");
    let notice = MemoryNotice::new(alloc, 8, failing).expect(rt, "memory");
    Box::new(alloc, notice).expect(rt, "memory")
}

// Adds to subscribers who are through with nothing.
#[tactic(auto, using(notice_desk::proofs::Ready::added_new))]
fn add(rt: &impl Abort, subscribers: &mut Subscribers, whom: Whom, notice: Box<dyn Notice>)
    requires { AreNew (standings list subscribers.old) }
    ensures { AreNew (standings list subscribers.new) }
{
    if let Err(Returned { notice }) = subscribers.add(whom, notice) {
        drop(notice);
        rt.abort()
    }
}

// Delivers to those who are through with no more than there is.
#[tactic(auto, using(notice_desk::proofs::Ready::stopped_within, notice_desk::proofs::Ready::delivered_within))]
fn deliver_more(subscribers: &mut Subscribers, recalls: &[Recall]) -> Result<(), NoticeFault>
    requires { let told = standings (λ n. (⟦<dyn Notice as Notice>⟧ n.vtable).list n.value) in
        AreWithinRecalls recalls.now (told subscribers.old) }
    ensures { let told = standings (λ n. (⟦<dyn Notice as Notice>⟧ n.vtable).list n.value) in
        AreWithinRecalls recalls.now (told subscribers.new) }
{
    subscribers.deliver(recalls)
}

// Delivers to those who are through with nothing.
#[tactic(auto, using(notice_desk::proofs::Ready::new_within))]
fn deliver_first(subscribers: &mut Subscribers, recalls: &[Recall]) -> Result<(), NoticeFault>
    requires { AreNew (standings (λ n. (⟦<dyn Notice as Notice>⟧ n.vtable).list n.value) subscribers.old) }
    ensures { let told = standings (λ n. (⟦<dyn Notice as Notice>⟧ n.vtable).list n.value) in
        AreWithinRecalls recalls.now (told subscribers.new) }
{
    deliver_more(subscribers, recalls)
}

// The second subscriber goes, where it is to.
#[tactic(auto, using(notice_desk::proofs::Ready::removed_within))]
fn leave(rt: &impl Abort, subscribers: &mut Subscribers, leaves: bool, recalls: &[Recall])
    requires { let told = standings (λ n. (⟦<dyn Notice as Notice>⟧ n.vtable).list n.value) in
        AreWithinRecalls recalls.now (told subscribers.old) }
    ensures { let told = standings (λ n. (⟦<dyn Notice as Notice>⟧ n.vtable).list n.value) in
        AreWithinRecalls recalls.now (told subscribers.new) }
{
    if leaves {
        let before = subscribers.len();
        assert!(rt; 1 < before);
        subscribers.unsubscribe(1);
        assert!(rt; subscribers.len() == before - 1);
    }
}

// How many recalls a subscriber is through with, and from which on and up to which its object was told of them.
type Stand = (usize, usize, usize);

// The subscribers stand so.
fn stand(rt: &impl Abort, subscribers: &Subscribers, recalls: &[Recall], stands: &[Stand]) {
    for (at, &(passed, from, to)) in stands.iter().enumerate() {
        assert!(rt; at < subscribers.len() && from <= to && to <= recalls.len());
        assert!(rt; subscribers.passed(at) == passed, "subscriber {at}");
        assert!(rt;
            subscribers.told(at) == Some(&recalls[from..to]),
            "subscriber {at}"
        );
    }
}

// Of how many recalls is told. Who is told: of BETA's alone or of all, and which calls of the object fail. Then what the first delivery
// answers, and how they stand; whether the second one goes, and how they stand; and how once the rest was delivered.
type Row = (
    usize,
    &'static [(bool, &'static [u32])],
    Result<(), NoticeFault>,
    &'static [Stand],
    bool,
    &'static [Stand],
    &'static [Stand],
);

const ROWS: [Row; 4] = [
    // each is told its own
    (
        3,
        &[(false, &[]), (true, &[1])],
        Err(NoticeFault { at: 1 }),
        &[(3, 0, 3)],
        false,
        &[],
        &[(3, 0, 3), (3, 1, 2)],
    ),
    // what failed is told once more
    (
        1,
        &[(false, &[1])],
        Err(NoticeFault { at: 0 }),
        &[(0, 0, 0)],
        false,
        &[],
        &[(1, 0, 1)],
    ),
    // it goes on where it stopped
    (
        3,
        &[(false, &[]), (false, &[2]), (false, &[])],
        Err(NoticeFault { at: 1 }),
        &[(3, 0, 3), (1, 0, 1), (0, 0, 0)],
        false,
        &[],
        &[(3, 0, 3), (3, 0, 3), (3, 0, 3)],
    ),
    // the one whose object failed goes, and those who stay are told the rest
    (
        3,
        &[(false, &[]), (false, &[2]), (false, &[])],
        Err(NoticeFault { at: 1 }),
        &[(3, 0, 3), (1, 0, 1), (0, 0, 0)],
        true,
        &[(3, 0, 3), (0, 0, 0)],
        &[(3, 0, 3), (3, 0, 3)],
    ),
];

// Those who are told of recalls.
fn subscribers(rt: &impl Abort, alloc: Global, listeners: &[(bool, &[u32])]) -> Subscribers
    ensures { AreNew (standings (λ n. (⟦<dyn Notice as Notice>⟧ n.vtable).list n.value) result) }
{
    let mut subscribers = nobody(alloc);
    'listeners: for &(of_beta, failing) in listeners {
        let whom = if of_beta {
            Whom::Carrier(named(rt, b"BETA"))
        } else {
            Whom::All
        };
        add(rt, &mut subscribers, whom, notice(rt, alloc, failing));
    }
    subscribers
}

// They are told as a row says.
fn are_told(rt: &impl Abort, subscribers: &mut Subscribers, recalls: &[Recall], row: &Row)
    requires { AreNew (standings (λ n. (⟦<dyn Notice as Notice>⟧ n.vtable).list n.value) subscribers.old) }
{
    assert!(rt; deliver_first(subscribers, recalls) == row.2);
    stand(rt, subscribers, recalls, row.3);
    leave(rt, subscribers, row.4, recalls);
    stand(rt, subscribers, recalls, row.5);
    assert!(rt; deliver_more(subscribers, recalls) == Ok(()));
    stand(rt, subscribers, recalls, row.6);
}

#[test]
fn tells_each_its_own_once(rt: HostRuntime) {
    let recalls = three(&rt);
    for row in &ROWS {
        let mut subscribers = subscribers(&rt, rt.alloc(), row.1);
        assert!(rt; row.0 <= 3);
        are_told(&rt, &mut subscribers, &recalls[..row.0], row);
        subscribers.close();
    }
}
