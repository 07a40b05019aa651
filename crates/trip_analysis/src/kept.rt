// What is kept of the searches over the segments that one truck may pass.

ghost use Rattle.std.specs.Prelude.{◌≡◌, ◌<◌, length, IfOk};
ghost use Rattle.route_search.specs.Founds.{IsRouteOrNone, IsShortest};
ghost use Rattle.route_search.specs.Heights.{AreHeights};
ghost use Rattle.trip_analysis.specs.Known.{IsKeptOver, IsSettled};

use names::NoMemory;
use route_search::{
    Heights, Passable, Potentials, Region, Shortest, Table, TripEnds, potentials, shortest_route,
    shortest_route_by,
};
use std::alloc::Global;

/// For each node how far it is from there to a goal that came twice, and what is reached from the region of a trip that had no
/// route.
#[derive(Drop)]
pub(crate) struct Kept {
    pub settled: Option<Settled>,
    // around the start of the last trip that had no route and was not told of
    pub region: Option<Region>,
    // the goal of the last trip that was searched for
    pub last: Option<u32>,
}

/// For each node how far it is from there to a goal.
#[derive(Drop)]
pub(crate) struct Settled {
    pub goal: u32,
    pub potentials: Potentials,
}

/// What searches for any truck go by: heights of the nodes, and the table that each search writes.
#[derive(Drop)]
pub(crate) struct Tables {
    pub heights: Heights,
    pub table: Table,
}

impl Kept {
    /// The shortest walk of a trip over these segments. Where the kept region tells that there is none, no search is made;
    /// where a search finds none, the region around its start is kept.
    pub fn search(
        &mut self,
        alloc: Global,
        trip: &TripEnds,
        tables: &mut Tables,
    ) -> Result<Shortest, NoMemory>
        requires kept { IsKeptOver trip.now.roads.network.now trip.now.roads.flags.now self.old }
        requires heights { AreHeights trip.now.roads.network.now.segments tables.old.heights }
        ensures found { IfOk result
            (IsShortest trip.now.roads.network.now trip.now.roads.flags.now trip.now.from trip.now.to) }
        ensures kept { IsKeptOver trip.now.roads.network.now trip.now.roads.flags.now self.new }
        ensures heights { AreHeights trip.now.roads.network.now.segments tables.new.heights }
    {
        if let Some(region) = &self.region {
            if let Some(found) = region.tell(trip.from, trip.to)? {
                return Ok(found);
            }
        }
        match self.route(alloc, trip, tables)? {
            Some(route) => Ok(route),
            None => {
                let region = Region::around(alloc, &trip.roads, trip.from)?;
                let found = region.why(trip.to)?;
                self.region = Some(region);
                Ok(found)
            }
        }
    }

    // The shortest route of a trip, if there is one. Potentials are kept of a goal that comes again; else one search is made
    // that leaves out what leads away, by one column of heights more where trips of a truck have several goals.
    fn route(
        &mut self,
        alloc: Global,
        trip: &TripEnds,
        tables: &mut Tables,
    ) -> Result<Option<Shortest>, NoMemory>
        requires kept { IsKeptOver trip.now.roads.network.now trip.now.roads.flags.now self.old }
        requires heights { AreHeights trip.now.roads.network.now.segments tables.old.heights }
        ensures found { IfOk result
            (IsRouteOrNone trip.now.roads.network.now trip.now.roads.flags.now trip.now.from trip.now.to) }
        ensures kept { IsKeptOver trip.now.roads.network.now trip.now.roads.flags.now self.new }
        ensures heights { AreHeights trip.now.roads.network.now.segments tables.new.heights }
    {
        if self.comes_again(trip.to) {
            let settled = self.settled_at(alloc, &trip.roads, trip.to)?;
            let found = shortest_route_by(alloc, trip, &settled.potentials);
            self.settled = Some(settled);
            return found;
        }
        let others = self.last.is_some();
        self.last = Some(trip.to);
        if others {
            tables.heights.add(alloc, trip.roads.network)?;
        }
        shortest_route(alloc, trip, &tables.heights, &mut tables.table)
    }

    // Whether potentials of the goal are kept, or the last trip had it too.
    fn comes_again(&self, goal: u32) -> bool {
        if self.last == Some(goal) {
            return true;
        }
        match &self.settled {
            Some(settled) => settled.goal == goal,
            None => false,
        }
    }

    // The potentials of a goal, taken out of what is kept: the kept ones, where they are of this goal, and else new ones.
    fn settled_at(
        &mut self,
        alloc: Global,
        roads: &Passable,
        goal: u32,
    ) -> Result<Settled, NoMemory>
        requires kept { IsKeptOver roads.now.network.now roads.now.flags.now self.old }
        requires goal { goal < length roads.now.network.now.nodes }
        ensures goal { IfOk result (λ settled. settled.goal ≡ goal) }
        ensures settled { IfOk result (IsSettled roads.now.network.now roads.now.flags.now) }
        ensures kept { IsKeptOver roads.now.network.now roads.now.flags.now self.new }
    {
        if let Some(settled) = self.settled.take() {
            if settled.goal == goal {
                return Ok(settled);
            }
        }
        let potentials = potentials(alloc, roads, goal)?;
        Ok(Settled { goal, potentials })
    }
}
