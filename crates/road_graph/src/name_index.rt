// The names of a kind, each with its number.

ghost use Rattle.std.specs.Prelude.{◌≡◌, ◌<◌, ◌≤◌, ◌++◌, ◌∷◌, [], length, false, OnOk, OnErr, IfSome, IfNone, slice_get, Some};
ghost use Rattle.road_graph.specs.Roads.{has_name, number_of};

use indexmap::IndexMap;
use names::Name;
use std::alloc::{AllocError, Global};
use std::marker::Model;

/// Names of one kind, each there once, numbered from 0 in the order in which they were entered.
///
/// They are the keys of a map and no set: a library holds the statements of all calls of each type that its public words reach,
/// and a set brings those of a map with its own.
#[derive(Drop)]
pub struct Names {
    names: IndexMap<Name, ()>,
}

impl Model for Names {
    ghost use Rattle.std.specs.Prelude.{List, ℕ};
    ghost use Rattle.indexmap.specs.IndexMap.{keys};

    ghost Value = { List (List ℕ) };

    ghost view = { λ n. keys n.names };
}

impl Names {
    /// No names. Takes no memory.
    pub fn new(alloc: Global) -> Names
        ensures empty { result ≡ [] }
    {
        Names {
            names: IndexMap::new(alloc),
        }
    }

    /// How many names there are. Takes no memory.
    pub fn len(&self) -> usize
        ensures len { result ≡ length self.now }
    {
        self.names.len()
    }

    /// Whether the name is there. Takes no memory.
    #[tactic(auto, using(crate::proofs::Naming::name_is_there))]
    pub fn contains(&self, name: &Name) -> bool
        ensures { result ≡ has_name name.now self.now }
    {
        self.names.contains_key(name)
    }

    /// The number of a name, where it is there. Takes no memory.
    #[tactic(auto, using(crate::proofs::Naming::name_is_there, crate::proofs::Naming::number_found))]
    pub fn number(&self, name: &Name) -> Option<u32>
        requires { length self.now ≤ 16384 }
        ensures number { result ≡ number_of name.now self.now }
        ensures found { IfSome result (λ i. slice_get self.now i ≡ Some name.now) }
        ensures within { IfSome result (λ i. i < length self.now) }
        ensures missing { IfNone result (has_name name.now self.now ≡ false) }
    {
        match self.names.get_index_of(name) {
            Some(i) => Some(i as u32),
            None => None,
        }
    }

    /// The name of a number. Takes no memory.
    pub fn name(&self, i: u32) -> Name
        requires { i < length self.now }
        ensures { slice_get self.now i ≡ Some result }
    {
        match self.names.get_index(i as usize) {
            Some((name, _)) => *name,
            None => unreachable!(),
        }
    }

    /// Enters a name that is not there. `AllocError` where no memory was left.
    #[tactic(auto, using(indexmap::proofs::SetLemmas::keys_insert_entry))]
    pub fn enter(&mut self, name: Name) -> Result<(), AllocError>
        requires { has_name name self.old ≡ false }
        ensures ok { OnOk result (self.new ≡ self.old ++ name ∷ []) }
        ensures err { OnErr result (self.new ≡ self.old) }
    {
        self.names.insert(name, ())?;
        Ok(())
    }
}
