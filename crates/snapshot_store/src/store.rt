// The store of versions.

use crate::next::Next;
use crate::snapshot::Snapshot;
use restriction_log::{Change, Log, Network, NoMemory, PostRefusal, Stamps, State, takes, touched};
use std::alloc::Global;
use std::marker::Model;
use std::snapshot::Snapshot as Told;
use std::sync::Arc;

/// What is posted on a network, and the state of the current version.
///
/// A store is of the network with which it was started, which is handed to each call that takes one. Contracts see that
/// network and the postings.
#[derive(Drop)]
pub struct Store {
    alloc: Global,
    // has no bytes: it tells contracts of which network the store is
    network: Told<Network>,
    log: Log,
    state: Arc<State, Global>,
    stamps: Arc<Stamps, Global>,
}

impl Model for Store {
    ghost use Rattle.snapshot_store.specs.Stores.{IsStore, Stored, stored_in};

    ghost Value = { Stored };

    ghost view = { stored_in };

    ghost invariant = { IsStore };
}

impl Store {
    ghost use Rattle.std.specs.Prelude.{◌≡◌, ◌+◌, ◌<◌, ◌≤◌, length, drop, None, true, IfSome, IfNone, IfOk, IfErr, OnOk, OnErr};
    ghost use Rattle.std.specs.Arc.{arc_value};
    ghost use Rattle.restriction_log.specs.Changes.{is_touched, takes};
    ghost use Rattle.restriction_log.specs.Logs.{IsPostCause, post_refusal};
    ghost use Rattle.restriction_log.specs.Stamps.{HasStamps};
    ghost use Rattle.restriction_log.specs.States.{AreOf};
    ghost use Rattle.snapshot_store.specs.Stores.{AreKept, IsNextOf, newly_stored, state_now, store_version_of, with_change};

    /// A store of this network, on which nothing is posted yet.
    pub fn start(alloc: Global, network: &Network) -> Result<Store, NoMemory>
        ensures { IfOk result (λ store. store ≡ newly_stored network.now) }
    {
        network.lists_are_in_order();
        let log = Log::start(alloc, network)?;
        let state = Arc::new(alloc, State::base(alloc, network)?)?;
        let stamps = Arc::new(alloc, Stamps::base(alloc, network)?)?;
        Ok(Store {
            alloc,
            network: Told::of(network),
            log,
            state,
            stamps,
        })
    }

    /// The number of the last posting, 0 where there is none. Takes no memory.
    pub fn version(&self) -> u32
        ensures count { result ≡ store_version_of self.now }
        ensures few { result ≤ 1000000 }
    {
        self.log.version()
    }

    /// What is in force: the base values of the network with all postings applied in order. Takes no memory.
    pub fn now(&self) -> &State
        ensures value { result.now ≡ state_now self.now }
        ensures of_network { AreOf self.now.roads result.now }
    {
        &self.state
    }

    /// The current version, as one more owner of its state. `NoMemory` where no further owner can be had.
    pub fn snapshot(&self) -> Result<Snapshot, NoMemory>
        ensures { IfOk result (λ snapshot. snapshot ≡ self.now) }
    {
        Ok(Snapshot {
            store: Told::of(self),
            version: self.log.version(),
            state: Arc::try_clone(&self.state)?,
            stamps: Arc::try_clone(&self.stamps)?,
        })
    }

    /// Whether a posting numbered above `after` names the segment or one of its spans. Takes no memory.
    ///
    /// Where none does, the limits of the segment and the ratings of its spans are those of version `after`.
    pub fn changed(&self, network: &Network, segment: u32, after: u32) -> bool
        requires network { network.now ≡ self.now.roads }
        requires within { segment < length self.now.roads.segments }
        ensures value { result ≡ is_touched self.now.roads segment (drop after self.now.postings) }
    {
        self.stamps.stamp(segment) > after
    }

    /// The first segment from `from` on of which a posting numbered above `after` names it or one of its spans, where there
    /// is one. Takes no memory, and passes over each page of segments that no such posting names.
    #[tactic(auto, using(crate::proofs::Changed::changed_above, crate::proofs::Changed::kept_below))]
    pub fn next_changed(&self, after: u32, from: u32) -> Option<u32>
        ensures changed { IfSome result (λ s. is_touched self.now.roads s (drop after self.now.postings)
            ≡ true) }
        ensures within { IfSome result (λ s. (from ≤ s) × (s < length self.now.roads.segments)) }
        ensures first { IfSome result (λ s. AreKept self.now after from s) }
        ensures none { IfNone result (AreKept self.now after from (length self.now.roads.segments)) }
    {
        self.stamps.next_above(after, from)
    }

    /// What a posting would make of the store. Refusals, in this order: `Range` where the network does not take the change,
    /// `Full` at version 1,000,000, `NoMemory`.
    pub fn next(&self, network: &Network, change: Change) -> Result<Next, PostRefusal>
        requires { network.now ≡ self.now.roads }
        ensures change { IfOk result (λ next. next.change ≡ change) }
        ensures next { IfOk result (IsNextOf self.now) }
        ensures of_network { IfOk result (λ next. AreOf self.now.roads next.state) }
        ensures allowed { OnOk result (post_refusal self.now.roads self.now.postings change ≡ None) }
        ensures refused { IfErr result (IsPostCause (post_refusal self.now.roads self.now.postings change)) }
    {
        if !takes(network, &change) {
            return Err(PostRefusal::Range);
        }
        if self.log.is_full() {
            return Err(PostRefusal::Full);
        }
        match self.state_with(&change) {
            Ok(state) => Ok(Next { change, state }),
            Err(NoMemory) => Err(PostRefusal::NoMemory),
        }
    }

    // The state that a change makes of the current one.
    fn state_with(&self, change: &Change) -> Result<Arc<State, Global>, NoMemory>
        requires { takes self.now.roads change.now ≡ true }
        ensures state { IfOk result (λ state. arc_value state ≡ state_now (with_change self.now change.now)) }
        ensures of_network { IfOk result (λ state. AreOf self.now.roads (arc_value state)) }
    {
        let state = self.state.with(self.alloc, change)?;
        Ok(Arc::new(self.alloc, state)?)
    }

    // The stamps with the one that a posting of the change sets.
    #[tactic(auto, using(crate::proofs::Changed::stamps_posted))]
    fn stamps_with(
        &self,
        network: &Network,
        change: &Change,
    ) -> Result<Arc<Stamps, Global>, NoMemory>
        requires network { network.now ≡ self.now.roads }
        requires takes { takes self.now.roads change.now ≡ true }
        ensures { IfOk result (λ stamps. HasStamps self.now.roads (with_change self.now change.now).postings
            (arc_value stamps)) }
    {
        let segment = touched(network, change);
        let stamps = self
            .stamps
            .with(self.alloc, segment, self.log.version() + 1)?;
        Ok(Arc::new(self.alloc, stamps)?)
    }

    /// Posts what was made of this store, and answers the new version. `NoMemory` where no memory was left, and then the
    /// store is as it was.
    pub fn commit(&mut self, network: &Network, next: Next) -> Result<u32, NoMemory>
        requires network { network.now ≡ self.old.roads }
        requires next { IsNextOf self.old next }
        ensures version { IfOk result (λ version. version ≡ store_version_of self.old + 1) }
        ensures posted { OnOk result (self.new ≡ with_change self.old next.change) }
        ensures unchanged { OnErr result (self.new ≡ self.old) }
    {
        let stamps = self.stamps_with(network, &next.change)?;
        match self.log.post(network, next.change) {
            Ok(version) => {
                self.state = next.state;
                self.stamps = stamps;
                Ok(version)
            }
            Err(PostRefusal::NoMemory) => Err(NoMemory),
            Err(PostRefusal::Range | PostRefusal::Full) => unreachable!(),
        }
    }

    /// Posts a change, and answers the new version.
    ///
    /// Refusals, in this order: `Range` where the network does not take the change, `Full` at version 1,000,000,
    /// `NoMemory`. After each the store is as it was.
    pub fn post(&mut self, network: &Network, change: Change) -> Result<u32, PostRefusal>
        requires { network.now ≡ self.old.roads }
        ensures version { IfOk result (λ version. version ≡ store_version_of self.old + 1) }
        ensures posted { OnOk result (self.new ≡ with_change self.old change) }
        ensures allowed { OnOk result (post_refusal self.old.roads self.old.postings change ≡ None) }
        ensures refused { IfErr result (IsPostCause (post_refusal self.old.roads self.old.postings change)) }
        ensures unchanged { OnErr result (self.new ≡ self.old) }
    {
        let next = self.next(network, change)?;
        match self.commit(network, next) {
            Ok(version) => Ok(version),
            Err(NoMemory) => Err(PostRefusal::NoMemory),
        }
    }
}
