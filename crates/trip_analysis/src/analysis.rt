// What is found for an application.

ghost use Rattle.std.specs.Prelude.{◌≡◌, true, IfOk, MatchOption};
ghost use Rattle.restriction_log.specs.States.{AreOf};
ghost use Rattle.snapshot_store.specs.Stores.{store_version_of};
ghost use Rattle.trip_analysis.specs.Applications.{Sound};
ghost use Rattle.trip_analysis.specs.Passing.{TestsAtMost, needs_none};
ghost use Rattle.trip_analysis.specs.Findings.{IsFinding, IsFoundAt, IsToSearch};
ghost use Rattle.trip_analysis.specs.Tests.{tests_for};

use crate::application::Application;
use crate::base::Base;
use crate::finding::{Proposal, What};
use crate::last_route::LastRoute;
use crate::truck_on::TruckOn;
use clearance_rules::Steps;
use names::NoMemory;
use restriction_log::State;
use route_search::{Heights, Passable, TripEnds, shortest_walk};
use snapshot_store::Snapshot;
use std::alloc::Global;
use std::sync::ledger::Ledger;

/// What is found for the application in a state of the base's roads. `NoMemory` where no memory was left.
///
/// A legal truck needs no permit. Asked routes are the finding where each segment of each of them meets, and else the first
/// segment that fails, in the order of the routes and on each in its order. Without an asked route the finding is the first,
/// in dictionary order, of the shortest walks over the segments that meet. Where there is none it is the cut: the nodes that
/// walks over such segments reach or, where no walk at all leads there, those that any walks reach.
///
/// What is tested is counted: of asked routes at most their segments, else at most those of the roads, and nothing for a legal
/// truck.
pub fn find<L: Ledger>(
    alloc: Global,
    base: &Base,
    state: &State,
    application: &Application,
    steps: &mut Steps<L>,
) -> Result<What, NoMemory>
    requires state { AreOf base.now.roads state.now }
    requires sound { Sound base.now application.now }
    ensures found { IfOk result (λ w. IsFinding base.now state.now application.now w) }
    ensures steps { TestsAtMost (tests_for base.now application.now.asked) steps.old steps.new }
    ensures legal { needs_none base.now application.now.truck ≡ true → steps.new ≡ steps.old }
{
    match find_at_once(base, state, application, steps)? {
        Some(what) => return Ok(what),
        None => (),
    }
    let truck = application.truck();
    let on = TruckOn { base, state, truck };
    let passable = on.flags(alloc, steps)?;
    let network = base.network();
    network.lists_are_in_order();
    let flags = passable.as_slice();
    let roads = Passable { network, flags };
    let (from, to) = (application.from(), application.to());
    let heights = Heights::none(alloc);
    let found = shortest_walk(alloc, &TripEnds { roads, from, to }, &heights)?;
    LastRoute::none().proposed(alloc, found)
}

/// What is found for the application in the state of a snapshot, with the snapshot's version. `NoMemory` where no memory was
/// left.
pub fn analyse<L: Ledger>(
    alloc: Global,
    base: &Base,
    snapshot: &Snapshot,
    application: &Application,
    steps: &mut Steps<L>,
) -> Result<Proposal, NoMemory>
    requires roads { snapshot.now.roads ≡ base.now.roads }
    requires sound { Sound base.now application.now }
    ensures seen { IfOk result (λ proposal. proposal.seen ≡ store_version_of snapshot.now) }
    ensures found { IfOk result (λ proposal. IsFoundAt base.now snapshot.now application.now proposal.what) }
    ensures steps { TestsAtMost (tests_for base.now application.now.asked) steps.old steps.new }
{
    let what = find(alloc, base, snapshot.state(), application, steps)?;
    Ok(Proposal {
        seen: snapshot.version(),
        what,
    })
}

// What is found without a search: that a legal truck needs no permit, or what asked routes give. Nothing, and nothing is tested,
// where a search is to find it.
pub(crate) fn find_at_once<L: Ledger>(
    base: &Base,
    state: &State,
    application: &Application,
    steps: &mut Steps<L>,
) -> Result<Option<What>, NoMemory>
    requires state { AreOf base.now.roads state.now }
    requires sound { Sound base.now application.now }
    ensures found { IfOk result (λ found. MatchOption found
        (IsToSearch base.now application.now × (steps.new ≡ steps.old))
        (IsFinding base.now state.now application.now)) }
    ensures steps { TestsAtMost (tests_for base.now application.now.asked) steps.old steps.new }
    ensures legal { needs_none base.now application.now.truck ≡ true → steps.new ≡ steps.old }
{
    let truck = application.truck();
    if base.fleet()[truck as usize].load.legal() {
        return Ok(Some(What::NotNeeded));
    }
    let Some(routes) = application.asked() else {
        return Ok(None);
    };
    let on = TruckOn { base, state, truck };
    match on.first_on(routes.all(), steps) {
        Some(failing) => Ok(Some(What::Fails {
            segment: failing.segment,
        })),
        None => Ok(Some(What::Route(routes.clone()?))),
    }
}
