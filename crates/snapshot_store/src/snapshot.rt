// A version and its state.

use crate::store::Store;
use restriction_log::{Stamps, State};
use std::alloc::Global;
use std::marker::Model;
use std::snapshot::Snapshot as Told;
use std::sync::Arc;

/// A version of what is posted on a network, and its state, which it has in common with the store and with the other
/// snapshots of the version.
///
/// Contracts see the network and the postings of the version, as those of a store.
#[derive(Drop)]
pub struct Snapshot {
    // has no bytes: it tells contracts what the store had when the snapshot was taken
    pub(crate) store: Told<Store>,
    pub(crate) version: u32,
    pub(crate) state: Arc<State, Global>,
    pub(crate) stamps: Arc<Stamps, Global>,
}

impl Model for Snapshot {
    ghost use Rattle.snapshot_store.specs.Stores.{Stored};
    ghost use Rattle.snapshot_store.specs.Snapshots.{IsSnapshot};

    ghost Value = { Stored };

    ghost view = { λ s. s.store.value };

    ghost invariant = { IsSnapshot };
}

impl Snapshot {
    ghost use Rattle.std.specs.Prelude.{◌≡◌, ◌<◌, ◌≤◌, length, drop, true, IfSome, IfNone};
    ghost use Rattle.restriction_log.specs.Changes.{is_touched};
    ghost use Rattle.restriction_log.specs.States.{AreOf};
    ghost use Rattle.snapshot_store.specs.Stores.{AreKept, state_now, store_version_of};

    /// The number of the last posting before it was taken. Takes no memory.
    pub fn version(&self) -> u32
        ensures count { result ≡ store_version_of self.now }
        ensures few { result ≤ 1000000 }
    {
        self.version
    }

    /// What was in force then. Takes no memory.
    pub fn state(&self) -> &State
        ensures value { result.now ≡ state_now self.now }
        ensures of_network { AreOf self.now.roads result.now }
    {
        &self.state
    }

    /// The first segment from `from` on of which a posting numbered above `after` names it or one of its spans, where there
    /// is one. Takes no memory, and passes over each page of segments that no such posting names.
    #[tactic(auto, using(crate::proofs::Changed::changed_above, crate::proofs::Changed::kept_below))]
    pub fn next_changed(&self, after: u32, from: u32) -> Option<u32>
        ensures changed { IfSome result (λ s. is_touched self.now.roads s (drop after self.now.postings)
            ≡ true) }
        ensures within { IfSome result (λ s. (from ≤ s) × (s < length self.now.roads.segments)) }
        ensures first { IfSome result (λ s. AreKept self.now after from s) }
        ensures none { IfNone result (AreKept self.now after from (length self.now.roads.segments)) }
    {
        self.stamps.next_above(after, from)
    }
}
