// The commands of a day file, in the order of their records.

ghost use Rattle.std.specs.Prelude.{◌≡◌, []};
ghost use Rattle.day_text.specs.Causes.{Grows};
ghost use Rattle.day_text.specs.Commands.{with_order};

use crate::demands::limit;
use crate::refusal::{Kind, RecordRefusal};
use office_words::Command;
use std::alloc::Global;
use std::marker::Model;

/// The most commands of a day file.
const MOST_COMMANDS: usize = 4096;

/// A command, and the number of the actor who gives it.
#[derive(Drop)]
pub struct Order {
    pub actor: u32,
    pub command: Command,
}

/// The commands so far.
#[derive(Drop)]
pub(crate) struct Orders {
    list: Vec<Order>,
}

impl Model for Orders {
    ghost use Rattle.std.specs.Prelude.{List};
    ghost use Rattle.day_text.specs.declared.orders.Order.{Order};

    ghost Value = { List Order };

    ghost view = { λ a. a.list.items };
}

impl Orders {
    /// No commands.
    pub(crate) fn new(alloc: Global) -> Orders
        ensures { result ≡ [] }
    {
        Orders {
            list: Vec::new(alloc),
        }
    }

    /// Adds a command, where there is room for it.
    pub(crate) fn push(&mut self, order: Order) -> Result<(), RecordRefusal>
        ensures { Grows result self.new (with_order self.old order) }
    {
        limit(self.list.len() < MOST_COMMANDS, Kind::Commands)?;
        self.list.push(order)?;
        Ok(())
    }

    /// The commands in the vector that holds them.
    pub(crate) fn into_vec(self) -> Vec<Order>
        ensures { result.items ≡ self }
    {
        self.list
    }
}
