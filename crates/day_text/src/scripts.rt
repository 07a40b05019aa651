// The scripts of a day file: the commands of each actor.

ghost use Rattle.std.specs.Prelude.{◌≡◌, ◌<◌, All, IfOk, length};
ghost use Rattle.day_text.specs.Laws.{IsDayFile};
ghost use Rattle.day_text.specs.Scripts.{AreScripts};

use crate::day_file::DayFile;
use crate::orders::Order;
use names::NoMemory;
use office_words::Command;
use permit_days::Day;
use std::alloc::Global;
use trip_analysis::Base;

impl DayFile {
    /// The roads and the trucks, the opening day, and the script of each actor: its commands, in the order of their records.
    /// The commands are moved there.
    pub fn into_scripts(self, alloc: Global) -> Result<(Base, Day, Vec<Vec<Command>>), NoMemory>
        requires { IsDayFile self }
        ensures base { IfOk result (λ parts. parts.0 ≡ self.base) }
        ensures day { IfOk result (λ parts. parts.1 ≡ self.day) }
        ensures count { IfOk result (λ parts. length parts.2.items ≡ length self.actors) }
        ensures scripts { IfOk result (λ parts. AreScripts parts.2.items self.commands) }
    {
        let (base, day, actors, orders) = self.into_parts();
        let count = actors.len();
        drop(actors);
        match scripts_of(alloc, count, orders) {
            Ok(scripts) => Ok((base, day, scripts)),
            Err(no_memory) => {
                drop(base);
                Err(no_memory)
            }
        }
    }
}

// The script of each of so many actors: each command is put behind the others of its actor.
fn scripts_of(
    alloc: Global,
    actors: usize,
    orders: Vec<Order>,
) -> Result<Vec<Vec<Command>>, NoMemory>
    requires { All (λ o. o.actor < actors) orders.items }
    ensures count { IfOk result (λ scripts. length scripts.items ≡ actors) }
    ensures scripts { IfOk result (λ scripts. AreScripts scripts.items orders.items) }
{
    let mut scripts = Vec::with_capacity(alloc, actors)?;
    'actors: for _ in 0..actors {
        scripts.push_reserved(Vec::new(alloc));
    }
    'orders: for order in orders {
        scripts[order.actor as usize].push(order.command)?;
    }
    Ok(scripts)
}
