// A posting and the state that it makes, before it is in force.

use restriction_log::{Change, State};
use std::alloc::Global;
use std::marker::Model;
use std::sync::Arc;

/// A change, and the state that it would make. Nothing is posted yet.
#[derive(Drop)]
pub struct Next {
    pub(crate) change: Change,
    pub(crate) state: Arc<State, Global>,
}

impl Model for Next {
    ghost use Rattle.std.specs.Arc.{arc_value};
    ghost use Rattle.snapshot_store.specs.Stores.{NextState};

    ghost Value = { NextState };

    ghost view = { λ n. record { change = n.change; state = arc_value n.state } };
}

impl Next {
    ghost use Rattle.std.specs.Prelude.{◌≡◌};

    /// The change. Takes no memory.
    pub fn change(&self) -> Change
        ensures { result ≡ self.now.change }
    {
        self.change
    }

    /// What would be in force. Takes no memory.
    pub fn state(&self) -> &State
        ensures { result.now ≡ self.now.state }
    {
        &self.state
    }
}
