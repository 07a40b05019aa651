// The records of trucks and actors.

ghost use Rattle.std.specs.Prelude.{◌≡◌};
ghost use Rattle.csv.specs.Records.{fields_of};
ghost use Rattle.day_text.specs.Causes.{Grows};
ghost use Rattle.day_text.specs.Fleets.{actors_of, fleet_of, fleet_with};

use crate::actors::Actors;
use crate::demands::{demand, has_only, limit, name_in};
use crate::refusal::{Kind, RecordCause, RecordRefusal};
use crate::truck::{TruckFields, load_of, parse_truck};
use crate::trucks::Fleet;
use csv::StringRecord;
use std::alloc::Global;
use trip_analysis::Truck;

/// The most trucks of a day file.
const MOST_TRUCKS: usize = 64;

/// The most actors of a day file.
const MOST_ACTORS: usize = 16;

/// Adds the truck of a record.
#[tactic(auto, unfolding(crate::specs::Fleets::fleet_of))]
pub(crate) fn add_truck(
    alloc: Global,
    fleet: &mut Fleet,
    row: &StringRecord,
) -> Result<(), RecordRefusal>
    ensures { Grows result fleet.new (fleet_of fleet.old (fields_of row.now)) }
{
    let fields = parse_truck(alloc, row)?;
    add_fields(fleet, &fields)
}

// Adds the truck of these fields.
fn add_fields(fleet: &mut Fleet, fields: &TruckFields) -> Result<(), RecordRefusal>
    ensures { Grows result fleet.new (fleet_with fleet.old fields.now) }
{
    if fleet.has(&fields.name) {
        return Err(RecordRefusal::bad(RecordCause::Same));
    }
    let load = load_of(fields)?;
    if fleet.len() >= MOST_TRUCKS {
        return Err(RecordRefusal::too_many(Kind::Trucks));
    }
    fleet.push(Truck {
        name: fields.name,
        carrier: fields.carrier,
        load,
    })
}

/// Adds the actor of a record.
#[tactic(auto, unfolding(crate::specs::Fleets::actors_of))]
pub(crate) fn add_actor(actors: &mut Actors, row: &StringRecord) -> Result<(), RecordRefusal>
    ensures { Grows result actors.new (actors_of actors.old (fields_of row.now)) }
{
    has_only(row, 2)?;
    let name = name_in(row, 2)?;
    demand(!actors.has(&name), RecordCause::Same)?;
    limit(actors.len() < MOST_ACTORS, Kind::Actors)?;
    actors.push(name)
}
