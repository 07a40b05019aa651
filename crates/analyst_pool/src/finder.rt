// Who finds what the applications of a caller need.

ghost use Rattle.std.specs.Prelude.{◌≡◌, ◌<◌, IfOk, IfSome, None};
ghost use Rattle.snapshot_store.specs.Stores.{store_version_of};
ghost use Rattle.trip_analysis.specs.Applications.{Sound};
ghost use Rattle.trip_analysis.specs.Findings.{IsFoundAt};
ghost use Rattle.trip_analysis.specs.Counters.{IsBlankOf};
ghost use Rattle.analyst_pool.specs.Following.{FollowsAt};

use names::NoMemory;
use snapshot_store::Snapshot;
use std::alloc::Global;
use std::sync::ledger::{Blank, Ledger};
use trip_analysis::{Application, Base, Follower, Proposal, Steps};

/// Who finds what the applications of a caller need: what is known of the trucks, which is nothing before the first
/// application, and a counter of what is tested for them.
///
/// Contracts see these as they are.
#[derive(Drop)]
pub struct Finder<L: Ledger> {
    follower: Option<Follower>,
    steps: Steps<L>,
}

impl<L: Ledger> Finder<L> {
    /// One who knows nothing yet, with a new counter.
    pub fn new(blank: Blank) -> Finder<L>
        requires counter { IsBlankOf L.name L.parts blank }
        ensures { result.follower ≡ None }
    {
        Finder {
            follower: None,
            steps: Steps::new(blank),
        }
    }

    /// The counter of what was tested. What is known of the trucks is let go.
    pub fn into_steps(self) -> Steps<L>
        ensures { result ≡ self.steps }
    {
        let Finder { steps, .. } = self;
        steps
    }

    // What is found for an application at a snapshot. Nothing is known before the first application.
    pub(crate) fn find(
        &mut self,
        alloc: Global,
        base: &Base,
        snapshot: Snapshot,
        application: &Application,
    ) -> Result<Proposal, NoMemory>
        requires roads { snapshot.roads ≡ base.now.roads }
        requires sound { Sound base.now application.now }
        requires follows { IfSome self.old.follower (FollowsAt base.now snapshot) }
        ensures seen { IfOk result (λ proposal. proposal.seen ≡ store_version_of snapshot) }
        ensures found { IfOk result (λ proposal. IsFoundAt base.now snapshot application.now proposal.what) }
        ensures follows { IfSome self.new.follower (FollowsAt base.now snapshot) }
    {
        let mut follower = match self.follower.take() {
            Some(follower) => follower,
            None => Follower::new(alloc, base)?,
        };
        let found = follower.analyse(alloc, base, snapshot, application, &mut self.steps);
        self.follower = Some(follower);
        found
    }
}
