// The actors of a day at their desk.

ghost use Rattle.std.specs.Prelude.{◌≡◌, ◌≢◌, ◌+◌, ◌<◌, ◌≤◌, [], length, vec_len, vec_capacity};
ghost use Rattle.office_turn.specs.Told.{opening_root};
ghost use Rattle.office_desk.specs.Desks.{terms_in};
ghost use Rattle.day_run.specs.declared.ended.Ended.TheVariants as ended;
ghost use Rattle.day_run.specs.Workers.{AreAt, AreDoneFrom, AreFresh, AreReceivedFrom, AreShort, AreSound, HaveRun, OneIsFull};

use crate::ended::Ended;
use analyst_pool::{Gate, Worker, run_actors};
use office_desk::{Desk, Root, Seat};
use office_words::Command;
use std::alloc::AllocError;
use std::sync::Wait;
use std::sync::ledger::Ledger;
use std::thread::Threads;
use trip_analysis::Base;

/// An actor with its script and its seat at the desk.
type Actor<'a, R, L> = Worker<Seat<'a, R, L>>;

/// Admits a pass for each script, has the actors carry out their scripts, all at once, and takes the passes in. How they ended:
/// without memory also where there was none for the workers.
pub(crate) fn work_all<
    R: Threads + Wait + AllocGlobal + Sync,
    G: Gate + Sync,
    L: Ledger + Send + Sync,
>(
    rt: &R,
    desk: &Desk<L>,
    root: &mut Root<L>,
    base: &Base,
    scripts: Vec<Vec<Command>>,
    gate: &G,
) -> Ended
    requires root { root.old ≡ opening_root desk.now }
    requires base { (terms_in desk.now).0 ≡ base.now }
    requires sound { AreSound base.now scripts.items }
    requires short { AreShort scripts.items }
    requires few { vec_len scripts < 65536 }
    ensures lock { root.new.lock ≡ desk.now }
    ensures joined { length root.new.receipts ≡ root.new.admitted }
    ensures admitted { result ≢ ended.NoMemory → root.new.admitted ≡ vec_len scripts }
    ensures run { HaveRun desk.now root.new.receipts scripts.items result }
{
    let alloc = rt.alloc();
    let made: Result<Vec<Actor<'_, R, L>>, AllocError> = Vec::with_capacity(alloc, scripts.len());
    let Ok(mut workers) = made else {
        return Ended::NoMemory;
    };
    admit_all(rt, desk, root, scripts, &mut workers);
    run_actors(rt, alloc, base, &mut workers, gate);
    take_all(desk, root, workers)
}

// Admits a pass for each script, in their order. There is room for the workers.
fn admit_all<'a, R: Wait, L: Ledger>(
    rt: &'a R,
    desk: &'a Desk<L>,
    root: &mut Root<L>,
    scripts: Vec<Vec<Command>>,
    workers: &mut Vec<Actor<'a, R, L>>,
)
    requires root { root.old ≡ opening_root desk.now }
    requires none { workers.old.items ≡ [] }
    requires room { vec_len scripts ≤ vec_capacity workers.old }
    requires few { vec_len scripts < 65536 }
    requires short { AreShort scripts.items }
    ensures lock { root.new.lock ≡ desk.now }
    ensures admitted { root.new.admitted ≡ vec_len scripts }
    ensures joined { root.new.receipts ≡ [] }
    ensures count { length workers.new.items ≡ vec_len scripts }
    ensures fresh { AreFresh (λ s. s.pass) desk.now scripts.items workers.new.items }
{
    let mut number = 0;
    for script in scripts {
        let pass = desk.admit(root);
        workers.push_reserved(Worker::new(Seat::new(rt, desk, pass), number, script));
        number += 1;
    }
}

// Takes all passes in, and tells how their actors ended.
fn take_all<'a, R: Wait, L: Ledger>(
    desk: &'a Desk<L>,
    root: &mut Root<L>,
    mut workers: Vec<Actor<'a, R, L>>,
) -> Ended
    requires lock { root.old.lock ≡ desk.now }
    requires passes { AreAt (λ s. s.pass) desk.now workers.items }
    ensures lock { root.new.lock ≡ desk.now }
    ensures admitted { root.new.admitted ≡ root.old.admitted }
    ensures joined { length root.new.receipts ≡ length root.old.receipts + vec_len workers.entry }
    ensures received { AreReceivedFrom (λ s. s.pass) 0 root.new.receipts workers.entry.items }
    ensures done { result ≡ ended.Done → AreDoneFrom 0 workers.entry.items }
    ensures full { result ≡ ended.Full → OneIsFull workers.entry.items }
{
    let mut ended = Ended::Done;
    while let Some(worker) = workers.pop() {
        ended = ended.and(worker.outcome());
        desk.leave(root, worker.into_calls().into_pass());
    }
    workers.destroy_empty();
    ended
}
