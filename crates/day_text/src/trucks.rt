// The trucks of a day file.

ghost use Rattle.std.specs.Prelude.{◌≡◌, ◌++◌, ◌∷◌, ◌<◌, [], length, ◌≤◌, false, OnOk, IfErr, IfSome};
ghost use Rattle.road_graph.specs.Roads.{has_name, number_of};
ghost use Rattle.day_text.specs.Fleets.{truck_names};
ghost use Rattle.day_text.specs.declared.refusal.RecordRefusal.TheVariants as refusal;

use crate::refusal::RecordRefusal;
use names::Name;
use road_graph::Names;
use std::alloc::Global;
use std::marker::Model;
use trip_analysis::Truck;

/// Trucks, numbered from 0 in the order in which they came, each with a name of its own.
#[derive(Drop)]
pub(crate) struct Fleet {
    names: Names,
    trucks: Vec<Truck>,
}

impl Model for Fleet {
    ghost use Rattle.std.specs.Prelude.{List, length, ◌≤◌, ◌≡◌};
    ghost use Rattle.trip_analysis.specs.declared.base.Truck.{Truck};
    ghost use Rattle.day_text.specs.Fleets.{truck_names};

    ghost Value = { List Truck };

    ghost view = { λ a. a.trucks.items };

    ghost invariant = { λ a. (a.names ≡ truck_names a.trucks.items) × (length a.trucks.items ≤ 64) };
}

impl Fleet {
    /// No trucks.
    pub(crate) fn new(alloc: Global) -> Fleet
        ensures { result ≡ [] }
    {
        Fleet {
            names: Names::new(alloc),
            trucks: Vec::new(alloc),
        }
    }

    /// How many there are.
    pub(crate) fn len(&self) -> usize
        ensures { result ≡ length self.now }
    {
        self.trucks.len()
    }

    /// Whether there is a truck of this name.
    pub(crate) fn has(&self, name: &Name) -> bool
        ensures { result ≡ has_name name.now (truck_names self.now) }
    {
        self.names.contains(name)
    }

    /// The number of the truck of this name, where there is one.
    pub(crate) fn number(&self, name: &Name) -> Option<u32>
        ensures number { result ≡ number_of name.now (truck_names self.now) }
        ensures within { IfSome result (λ i. i < length self.now) }
    {
        self.names.number(name)
    }

    /// Adds a truck whose name is not there.
    pub(crate) fn push(&mut self, truck: Truck) -> Result<(), RecordRefusal>
        requires fresh { has_name truck.name (truck_names self.old) ≡ false }
        requires few { length self.old < 64 }
        ensures added { OnOk result (self.new ≡ self.old ++ truck ∷ []) }
        ensures memory { IfErr result (λ why. why ≡ refusal.NoMemory) }
    {
        self.trucks.reserve(1)?;
        self.names.enter(truck.name)?;
        self.trucks.push_reserved(truck);
        Ok(())
    }

    /// The trucks in the vector that holds them.
    pub(crate) fn into_vec(self) -> Vec<Truck>
        ensures trucks { result.items ≡ self }
        ensures few { length self ≤ 64 }
    {
        self.trucks
    }
}
