// The actors of a day file.

ghost use Rattle.std.specs.Prelude.{◌≡◌, ◌++◌, ◌∷◌, ◌<◌, [], length, false, OnOk, IfErr, IfSome};
ghost use Rattle.road_graph.specs.Roads.{has_name, number_of};
ghost use Rattle.day_text.specs.declared.refusal.RecordRefusal.TheVariants as refusal;

use crate::refusal::RecordRefusal;
use names::Name;
use road_graph::Names;
use std::alloc::Global;
use std::marker::Model;

/// Actors, numbered from 0 in the order in which they came, each with a name of its own.
#[derive(Drop)]
pub(crate) struct Actors {
    index: Names,
    names: Vec<Name>,
}

impl Model for Actors {
    ghost use Rattle.std.specs.Prelude.{List, ℕ, length, ◌≤◌, ◌≡◌};

    ghost Value = { List (List ℕ) };

    ghost view = { λ a. a.names.items };

    ghost invariant = { λ a. (a.index ≡ a.names.items) × (length a.names.items ≤ 16) };
}

impl Actors {
    /// No actors.
    pub(crate) fn new(alloc: Global) -> Actors
        ensures { result ≡ [] }
    {
        Actors {
            index: Names::new(alloc),
            names: Vec::new(alloc),
        }
    }

    /// How many there are.
    pub(crate) fn len(&self) -> usize
        ensures { result ≡ length self.now }
    {
        self.names.len()
    }

    /// Whether there is an actor of this name.
    pub(crate) fn has(&self, name: &Name) -> bool
        ensures { result ≡ has_name name.now self.now }
    {
        self.index.contains(name)
    }

    /// The number of the actor of this name, where there is one.
    pub(crate) fn number(&self, name: &Name) -> Option<u32>
        ensures number { result ≡ number_of name.now self.now }
        ensures within { IfSome result (λ i. i < length self.now) }
    {
        self.index.number(name)
    }

    /// Adds an actor whose name is not there.
    pub(crate) fn push(&mut self, name: Name) -> Result<(), RecordRefusal>
        requires fresh { has_name name self.old ≡ false }
        requires few { length self.old < 16 }
        ensures added { OnOk result (self.new ≡ self.old ++ name ∷ []) }
        ensures memory { IfErr result (λ why. why ≡ refusal.NoMemory) }
    {
        self.names.reserve(1)?;
        self.index.enter(name)?;
        self.names.push_reserved(name);
        Ok(())
    }

    /// The actors in the vector that holds them.
    pub(crate) fn into_vec(self) -> Vec<Name>
        ensures { result.items ≡ self }
    {
        self.names
    }
}
