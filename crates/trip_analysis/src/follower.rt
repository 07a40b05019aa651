// Who finds what applications ask for at one snapshot after another.

ghost use Rattle.std.specs.Prelude.{◌≡◌};
ghost use Rattle.snapshot_store.specs.Stores.{state_now};
ghost use Rattle.trip_analysis.specs.Followers.{AreKnownAt, GoesOn};
ghost use Rattle.trip_analysis.specs.Known.{AreKnown};
ghost use Rattle.trip_analysis.specs.Passing.{TestsAtMost};
ghost use Rattle.trip_analysis.specs.Tests.{tests_to_go_on};

use crate::analyst::Analyst;
use crate::application::Application;
use crate::base::Base;
use crate::finding::Proposal;
use clearance_rules::Steps;
use names::NoMemory;
use snapshot_store::Snapshot;
use std::alloc::Global;
use std::marker::Model;
use std::snapshot::Snapshot as Told;
use std::sync::ledger::Ledger;

/// An analyst who follows the versions of a store: what is known of the trucks is kept from one snapshot to the next, and
/// only segments at which the two differ are judged anew.
///
/// A follower belongs to one base, and each call that takes a base is given that one. Contracts see the base, and the last
/// snapshot that the follower was given, if there was one.
#[derive(Drop)]
pub struct Follower {
    // has no bytes: it tells contracts of which base the follower is
    base: Told<Base>,
    analyst: Analyst,
    last: Option<Snapshot>,
}

impl Model for Follower {
    ghost use Rattle.trip_analysis.specs.Followers.{Followed, IsFollower, followed_in};

    ghost Value = { Followed };

    ghost view = { followed_in };

    ghost invariant = { IsFollower };
}

impl Follower {
    ghost use Rattle.std.specs.Prelude.{◌≡◌, ◌+◌, IfOk};
    ghost use Rattle.snapshot_store.specs.Stores.{store_version_of};
    ghost use Rattle.trip_analysis.specs.Applications.{Sound};
    ghost use Rattle.trip_analysis.specs.Findings.{IsFoundAt};
    ghost use Rattle.trip_analysis.specs.Followers.{GoesOn, followed, newly_followed};
    ghost use Rattle.trip_analysis.specs.Passing.{TestsAtMost};
    ghost use Rattle.trip_analysis.specs.Tests.{tests_for, tests_to_go_on};

    /// A follower of this base, who was given no snapshot yet and knows nothing of its trucks.
    pub fn new(alloc: Global, base: &Base) -> Result<Follower, NoMemory>
        ensures { IfOk result (λ follower. follower ≡ newly_followed base.now) }
    {
        Ok(Follower {
            base: Told::of(base),
            analyst: Analyst::new(alloc, base)?,
            last: None,
        })
    }

    /// What is found for the application in the state of the snapshot, with the snapshot's version, by what is known.
    /// `NoMemory` where no memory was left; the snapshot is the last one then too.
    ///
    /// The snapshot is of the version of the last one that was given, or of a later one of the same store.
    pub fn analyse<L: Ledger>(
        &mut self,
        alloc: Global,
        base: &Base,
        snapshot: Snapshot,
        application: &Application,
        steps: &mut Steps<L>,
    ) -> Result<Proposal, NoMemory>
        requires base { self.old.base ≡ base.now }
        requires roads { snapshot.roads ≡ base.now.roads }
        requires later { GoesOn self.old.last snapshot }
        requires sound { Sound base.now application.now }
        ensures seen { IfOk result (λ proposal. proposal.seen ≡ store_version_of snapshot) }
        ensures found { IfOk result (λ proposal. IsFoundAt base.now snapshot application.now proposal.what) }
        ensures known { self.new ≡ followed base.now snapshot }
        ensures steps { TestsAtMost (tests_to_go_on base.now + tests_for base.now application.now.asked)
            steps.old steps.new }
    {
        go_on(base, &mut self.analyst, &self.last, &snapshot, steps);
        let found = self
            .analyst
            .find(alloc, base, &snapshot, application, steps);
        let seen = snapshot.version();
        self.last = Some(snapshot);
        Ok(Proposal { seen, what: found? })
    }
}

// Goes on from the state of the last snapshot to that of the next one. At one version they are the same.
fn go_on<L: Ledger>(
    base: &Base,
    analyst: &mut Analyst,
    last: &Option<Snapshot>,
    next: &Snapshot,
    steps: &mut Steps<L>,
)
    requires known { AreKnownAt base.now last.now analyst.old }
    requires roads { next.now.roads ≡ base.now.roads }
    requires later { GoesOn last.now next.now }
    ensures known { AreKnown base.now (state_now next.now) analyst.new }
    ensures steps { TestsAtMost (tests_to_go_on base.now) steps.old steps.new }
{
    if let Some(last) = last {
        if last.version() != next.version() {
            analyst.turn_to(base, last, next, steps);
        }
    }
}
