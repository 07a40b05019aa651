// What the records of a day file say so far.

ghost use Rattle.std.specs.Prelude.{◌≡◌};

use crate::actors::Actors;
use crate::orders::Orders;
use crate::trucks::Fleet;
use permit_days::Day;
use road_graph::Network;
use std::alloc::{AllocError, Global};
use std::marker::Model;

/// The roads, the opening day, the trucks, the actors and the commands of the records so far.
#[derive(Drop)]
pub(crate) struct DaySoFar {
    pub network: Network,
    pub day: Day,
    pub fleet: Fleet,
    pub actors: Actors,
    pub orders: Orders,
}

/// What goes from one record to the next. It stays where it is, and what moves is a pointer to it.
#[derive(Drop)]
pub(crate) struct Growing {
    pub so_far: Box<DaySoFar>,
}

impl Model for Growing {
    ghost use Rattle.day_text.specs.declared.day_so_far.DaySoFar.{DaySoFar};

    ghost Value = { DaySoFar };

    ghost view = { λ g. g.so_far.value };
}

impl Growing {
    ghost use Rattle.std.specs.Prelude.{IfOk};

    /// What was said so far, in a place of its own.
    pub fn new(alloc: Global, so_far: DaySoFar) -> Result<Growing, AllocError>
        ensures { IfOk result (λ growing. growing ≡ so_far) }
    {
        Ok(Growing {
            so_far: Box::new(alloc, so_far)?,
        })
    }

    /// What was said so far.
    pub fn into_inner(self) -> DaySoFar
        ensures { result ≡ self }
    {
        Box::into_inner(self.so_far)
    }
}
