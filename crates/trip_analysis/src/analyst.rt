// Who finds what applications ask for, and keeps what is known of each truck.

ghost use Rattle.std.specs.Prelude.{◌≡◌, ◌<◌, length, true, false, IfOk};
ghost use Rattle.road_graph.specs.Roads.{IsRoads};
ghost use Rattle.restriction_log.specs.States.{AgreeOn, AreOf, InForce};
ghost use Rattle.snapshot_store.specs.Stores.{IsLater, state_now};
ghost use Rattle.trip_analysis.specs.Applications.{Sound};
ghost use Rattle.trip_analysis.specs.Passing.{TestsAtMost, needs_none};
ghost use Rattle.trip_analysis.specs.Findings.{IsFinding};
ghost use Rattle.trip_analysis.specs.Tests.{tests_for, tests_to_go_on};
ghost use Rattle.trip_analysis.specs.Known.{AreJudged, AreKnown, AreOfFleet};

use crate::analysis::find_at_once;
use crate::application::Application;
use crate::base::Base;
use crate::finding::What;
use crate::kept::Tables;
use crate::known::Known;
use crate::last_route::LastRoute;
use crate::truck_at::TruckAt;
use crate::truck_on::TruckOn;
use clearance_rules::Steps;
use names::NoMemory;
use restriction_log::State;
use road_graph::Network;
use route_search::{Passable, Table, TripEnds};
use snapshot_store::Snapshot;
use std::alloc::Global;
use std::sync::ledger::Ledger;

/// What is known of the trucks of a base, in order, in a state of its roads: something once a truck was needed. Beside it heights
/// of its nodes, which stay whatever is posted, the table that searches write, and the route that was found last.
#[derive(Drop)]
pub struct Analyst {
    known: Vec<Option<Known>>,
    tables: Tables,
    last: LastRoute,
}

impl Analyst {
    /// An analyst for this base, who knows nothing of its trucks.
    pub fn new(alloc: Global, base: &Base) -> Result<Analyst, NoMemory>
        ensures { IfOk result (λ a. (state : InForce) → AreKnown base.now state a) }
    {
        let mut known = Vec::new(alloc);
        let count = base.fleet().len();
        'trucks: for _ in 0..count {
            known.push(None)?;
        }
        let tables = Tables {
            heights: base.own_heights(alloc)?,
            table: Table::new(alloc),
        };
        let last = LastRoute::none();
        Ok(Analyst {
            known,
            tables,
            last,
        })
    }

    /// What is found for the application in the state of the snapshot, as `find` says it, by what is known. This is known in
    /// that state afterwards too, also where no memory was left.
    pub fn find<L: Ledger>(
        &mut self,
        alloc: Global,
        base: &Base,
        snapshot: &Snapshot,
        application: &Application,
        steps: &mut Steps<L>,
    ) -> Result<What, NoMemory>
        requires known { AreKnown base.now (state_now snapshot.now) self.old }
        requires roads { snapshot.now.roads ≡ base.now.roads }
        requires sound { Sound base.now application.now }
        ensures found { IfOk result (λ w. IsFinding base.now (state_now snapshot.now) application.now w) }
        ensures known { AreKnown base.now (state_now snapshot.now) self.new }
        ensures steps { TestsAtMost (tests_for base.now application.now.asked) steps.old steps.new }
        ensures legal { needs_none base.now application.now.truck ≡ true → steps.new ≡ steps.old }
    {
        match find_at_once(base, snapshot.state(), application, steps)? {
            Some(what) => return Ok(what),
            None => (),
        }
        let truck = application.truck();
        let at = TruckAt {
            base,
            snapshot,
            truck,
        };
        let slot = &mut self.known[truck as usize];
        let mut known = Known::at(alloc, slot.take(), &at, steps)?;
        let network = base.network();
        network.lists_are_in_order();
        let flags = known.passable.as_slice();
        let roads = Passable { network, flags };
        let (from, to) = (application.from(), application.to());
        let trip = TripEnds { roads, from, to };
        let found = known.kept.search(alloc, &trip, &mut self.tables);
        *slot = Some(known);
        self.last.proposed(alloc, found?)
    }

    /// Goes on from the state of a snapshot, in which the trucks are known, to that of a later one: of the segments that
    /// postings between them name, each at which the states differ is judged anew. Takes no memory.
    pub fn turn_to<L: Ledger>(
        &mut self,
        base: &Base,
        last: &Snapshot,
        next: &Snapshot,
        steps: &mut Steps<L>,
    )
        requires known { AreKnown base.now (state_now last.now) self.old }
        requires roads { next.now.roads ≡ base.now.roads }
        requires later { IsLater last.now next.now }
        ensures known { AreKnown base.now (state_now next.now) self.new }
        ensures steps { TestsAtMost (tests_to_go_on base.now) steps.old steps.new }
    {
        base.lists_are_in_order();
        let mut from = 0;
        'changed: while let Some(segment) = next.next_changed(last.version(), from) {
            if differs(base.network(), last.state(), next.state(), segment) {
                self.judge(base, next.state(), segment, steps);
            }
            from = segment + 1;
        }
    }

    // Judges a segment anew for each truck of which something is known.
    fn judge<L: Ledger>(&mut self, base: &Base, state: &State, segment: u32, steps: &mut Steps<L>)
        requires known { AreOfFleet base.now self.old }
        requires state { AreOf base.now.roads state.now }
        requires segment { segment < length base.now.roads.segments }
        requires roads { IsRoads base.now.roads }
        ensures judged { AreJudged base.now state.now segment self.old self.new }
        ensures steps { TestsAtMost (length base.now.fleet) steps.old steps.new }
    {
        'trucks: for truck in 0..base.fleet().len() {
            if let Some(known) = &mut self.known[truck] {
                let on = TruckOn {
                    base,
                    state,
                    truck: truck as u32,
                };
                let passable = on.is_passable(segment, steps);
                known.write(base.network(), segment, passable);
            }
        }
    }
}

// Whether the limits of a segment, or the rating of one of its spans, are others in the new state.
fn differs(network: &Network, old: &State, new: &State, segment: u32) -> bool
    requires segment { segment < length network.now.segments }
    requires old { AreOf network.now old.now }
    requires new { AreOf network.now new.now }
    ensures { result ≡ false → AgreeOn network.now segment old.now new.now }
{
    if old.segment(segment) != new.segment(segment) {
        return true;
    }
    'spans: for span in network.spans_of(segment) {
        if old.rating(*span) != new.rating(*span) {
            return true;
        }
    }
    false
}
