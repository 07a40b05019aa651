// The records of the trucks and of the actors.

ghost use Rattle.std.specs.Prelude.{◌≡◌, ◌<◌, ◌++◌, All, length, map, OnOk};
ghost use Rattle.trip_analysis.specs.Bases.{truck_of};
ghost use Rattle.day_writer.specs.Rows.{actor_row, truck_row};
ghost use Rattle.day_writer.specs.Texts.{line, text_of};

use crate::field::Field;
use crate::page::Page;
use names::Name;
use std::alloc::AllocError;
use trip_analysis::{Base, Truck};

/// The trucks of these numbers.
pub(crate) fn put_trucks(page: &mut Page, base: &Base, trucks: &[u32]) -> Result<(), AllocError>
    requires { All (λ t. t < length base.now.fleet) trucks.now }
    ensures { OnOk result (page.new ≡ page.old
        ++ text_of (map truck_row (map (truck_of base.now) trucks.now))) }
{
    'trucks: for i in 0..trucks.len() {
        put_truck(page, &base.fleet()[trucks[i] as usize])?;
    }
    Ok(())
}

/// The actors.
pub(crate) fn put_actors(page: &mut Page, actors: &[Name]) -> Result<(), AllocError>
    ensures { OnOk result (page.new ≡ page.old ++ text_of (map actor_row actors.now)) }
{
    'actors: for name in actors {
        page.put("actor", &[Field::Name(*name)])?;
    }
    Ok(())
}

// A truck.
fn put_truck(page: &mut Page, truck: &Truck) -> Result<(), AllocError>
    ensures { OnOk result (page.new ≡ page.old ++ line (truck_row truck.now)) }
{
    page.put(
        "truck",
        &[
            Field::Name(truck.name),
            Field::Name(truck.carrier),
            Field::Number(truck.load.height()),
            Field::Number(truck.load.width()),
            Field::Number(truck.load.length()),
            Field::Axles(truck.load.train()),
        ],
    )
}
