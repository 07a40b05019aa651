// The day file: a road network, trucks, actors and the commands of a day.

ghost use Rattle.std.specs.Prelude.{◌≡◌, Ok, IfErr, IfOk};
ghost use Rattle.day_text.specs.Causes.{Tells};
ghost use Rattle.day_text.specs.Days.{day_of, ended_day};
ghost use Rattle.day_text.specs.Laws.{IsDayFile};
ghost use Rattle.day_text.specs.Refusals.{IsRefusedAs};

use crate::day_so_far::DaySoFar;
use crate::orders::Order;
use crate::progress::DayProgress;
use crate::records::read_records;
use crate::refusal::{FileRefusal, RecordCause, RecordRefusal};
use names::Name;
use permit_days::Day;
use std::alloc::Global;
use std::marker::Model;
use trip_analysis::Base;

/// A day file. Nodes, segments, spans, trucks, actors and commands are numbered from 0 in the order of their records.
#[derive(Drop)]
pub struct DayFile {
    base: Base,
    day: Day,
    actors: Vec<Name>,
    commands: Vec<Order>,
}

impl Model for DayFile {
    ghost use Rattle.day_text.specs.Days.{DayParts};

    ghost Value = { DayParts };

    ghost view = { λ a. record { base = a.base; day = a.day; actors = a.actors.items; commands = a.commands.items } };
}

impl DayFile {
    /// The roads and the trucks.
    pub fn base(&self) -> &Base
        ensures { result.now ≡ self.now.base }
    {
        &self.base
    }

    /// The opening day.
    pub fn day(&self) -> Day
        ensures { result ≡ self.now.day }
    {
        self.day
    }

    /// The actors.
    pub fn actors(&self) -> &[Name]
        ensures { result.now ≡ self.now.actors }
    {
        self.actors.as_slice()
    }

    /// The commands, in the order of their records.
    pub fn commands(&self) -> &[Order]
        ensures { result.now ≡ self.now.commands }
    {
        self.commands.as_slice()
    }

    /// The day file of these parts. Takes no memory.
    pub fn of_parts(base: Base, day: Day, actors: Vec<Name>, commands: Vec<Order>) -> DayFile
        ensures { result
            ≡ record { base = base; day = day; actors = actors.items; commands = commands.items } }
    {
        DayFile {
            base,
            day,
            actors,
            commands,
        }
    }

    /// The roads and the trucks, the opening day, the actors and the commands. Takes no memory.
    pub fn into_parts(self) -> (Base, Day, Vec<Name>, Vec<Order>)
        ensures base { result.0 ≡ self.base }
        ensures day { result.1 ≡ self.day }
        ensures actors { result.2.items ≡ self.actors }
        ensures commands { result.3.items ≡ self.commands }
    {
        (self.base, self.day, self.actors, self.commands)
    }
}

/// The day file that the bytes are. `Refused` comes exactly where they are none, with the row of the first record that is
/// refused and the first cause that holds for it.
///
/// The file has at most 16 actors and 4,096 commands. Each command is of an actor of the file, and each application is sound
/// for its roads and trucks.
pub fn read_day(alloc: Global, bytes: &[u8]) -> Result<DayFile, FileRefusal>
    ensures ok { IfOk result (λ file. day_of bytes.now ≡ Ok file) }
    ensures keeps { IfOk result (λ file. IsDayFile file) }
    ensures refused { IfErr result (λ refusal. IsRefusedAs (day_of bytes.now) refusal) }
{
    let (row, progress) = read_records(alloc, DayProgress::Start, bytes)?;
    finish(progress, row)
}

// The file, where its end was told. The row is that after the last.
fn finish(progress: DayProgress, row: u64) -> Result<DayFile, FileRefusal>
    ensures { Tells result (ended_day (row, progress)) }
{
    match progress {
        DayProgress::Ended(growing) => {
            let DaySoFar {
                network,
                day,
                fleet,
                actors,
                orders,
            } = growing.into_inner();
            Ok(DayFile {
                base: Base::new(network, fleet.into_vec()),
                day,
                actors: actors.into_vec(),
                commands: orders.into_vec(),
            })
        }
        unended => {
            drop(unended);
            Err(RecordRefusal::bad(RecordCause::End).at(row))
        }
    }
}
