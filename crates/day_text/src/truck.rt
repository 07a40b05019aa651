// The record of a truck.

ghost use Rattle.std.specs.Prelude.{◌≡◌};
ghost use Rattle.csv.specs.Records.{fields_of};
ghost use Rattle.day_text.specs.Causes.{Judges};
ghost use Rattle.day_text.specs.Trucks.{load_of, train_number, truck_fields_of};

use crate::axles::{Axles, parse_axles};
use crate::demands::{demand, has_only, name_in, number_in, or_bad};
use crate::fields::field;
use crate::refusal::{Cause, RecordCause, RecordRefusal};
use axle_train::{Train, TrainRefusal};
use clearance_rules::{Load, is_cross_section, is_length};
use csv::StringRecord;
use names::Name;
use std::alloc::Global;

/// The fields of a truck's record, each in its form.
#[derive(Drop)]
pub(crate) struct TruckFields {
    pub name: Name,
    pub carrier: Name,
    pub height: u32,
    pub width: u32,
    pub length: u32,
    pub axles: Axles,
}

/// The fields of a truck's record.
#[tactic(auto, unfolding(crate::specs::Trucks::truck_fields_of))]
pub(crate) fn parse_truck(alloc: Global, row: &StringRecord) -> Result<TruckFields, RecordRefusal>
    ensures { Judges result (truck_fields_of (fields_of row.now)) }
{
    has_only(row, 7)?;
    let name = name_in(row, 2)?;
    let carrier = name_in(row, 3)?;
    let height = number_in(row, 4)?;
    let width = number_in(row, 5)?;
    let length = number_in(row, 6)?;
    let axles = or_bad(parse_axles(alloc, field(row, 6))?, RecordCause::Field(7))?;
    Ok(TruckFields {
        name,
        carrier,
        height,
        width,
        length,
        axles,
    })
}

/// The load that the fields of a truck say.
#[tactic(auto, unfolding(crate::specs::Trucks::load_of))]
pub(crate) fn load_of(truck: &TruckFields) -> Result<Load, Cause>
    ensures { result ≡ load_of truck.now.height truck.now.width truck.now.length truck.now.axles }
{
    demand(is_cross_section(truck.height), RecordCause::Range(4))?;
    demand(is_cross_section(truck.width), RecordCause::Range(5))?;
    demand(is_length(truck.length), RecordCause::Range(6))?;
    let train = match Train::new(truck.axles.as_slice()) {
        Ok(train) => train,
        Err(refusal) => return Err(Cause::Bad(RecordCause::Train(train_number(refusal)))),
    };
    match Load::new(truck.height, truck.width, truck.length, train) {
        Ok(load) => Ok(load),
        Err(_) => unreachable!(),
    }
}

// The number that a refused train prints.
fn train_number(refusal: TrainRefusal) -> u32
    ensures { result ≡ train_number refusal }
{
    match refusal {
        TrainRefusal::TooFew => 1,
        TrainRefusal::TooMany => 2,
        TrainRefusal::PlaceOrder { .. } => 3,
        TrainRefusal::Weight { .. } => 4,
        TrainRefusal::Gross => 5,
        TrainRefusal::TooLong => 6,
    }
}
