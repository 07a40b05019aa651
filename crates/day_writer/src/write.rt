// The text of a day.

ghost use Rattle.std.specs.Prelude.{◌≡◌, ◌++◌, IfOk, OnOk};
ghost use Rattle.day_writer.specs.Rows.{day_rows_of, day_text_of};
ghost use Rattle.day_writer.specs.Sheets.{IsSheet, parts_of_sheet};
ghost use Rattle.day_writer.specs.Texts.{text_of};
ghost use Rattle.day_writer.specs.Writable.{IsWritable};

use crate::commands::put_commands;
use crate::field::Field;
use crate::page::Page;
use crate::roads::{put_limits, put_nodes, put_segments, put_spans};
use crate::traffic::{put_actors, put_trucks};
use day_text::Order;
use names::{Name, NoMemory};
use permit_days::Day;
use restriction_log::State;
use std::alloc::{AllocError, Global};
use trip_analysis::Base;

/// What a day file is written of: roads with what is in force on them, some of the trucks, the opening day, the actors, and the
/// commands in their order, in which trucks are counted as they are written.
#[derive(Clone, Copy)]
pub struct Sheet<'a> {
    /// The roads, as they are but for what is in force, and the trucks.
    pub base: &'a Base,
    /// What is in force on the roads, which is written as their own.
    pub state: &'a State,
    /// The trucks that are written, by their numbers in the base.
    pub trucks: &'a [u32],
    pub day: Day,
    pub actors: &'a [Name],
    pub commands: &'a [Order],
}

/// The text of the day file of these parts. `NoMemory` where no memory was left.
pub fn write_day(alloc: Global, sheet: &Sheet) -> Result<Vec<u8>, NoMemory>
    requires there { IsSheet sheet.now }
    requires writable { IsWritable (parts_of_sheet sheet.now) }
    ensures text { IfOk result (λ text. text.items ≡ day_text_of (parts_of_sheet sheet.now)) }
{
    let mut page = Page::new(alloc);
    match put_day(&mut page, sheet) {
        Ok(()) => Ok(page.into_text()?),
        Err(_) => {
            drop(page);
            Err(NoMemory)
        }
    }
}

// The whole file.
fn put_day(page: &mut Page, sheet: &Sheet) -> Result<(), AllocError>
    requires there { IsSheet sheet.now }
    requires writable { IsWritable (parts_of_sheet sheet.now) }
    ensures { OnOk result (page.new ≡ page.old ++ text_of (day_rows_of (parts_of_sheet sheet.now))) }
{
    let network = sheet.base.network();
    page.put("day", &[Field::Day(sheet.day)])?;
    put_nodes(page, network)?;
    put_segments(page, network)?;
    put_spans(page, network, sheet.state)?;
    put_trucks(page, sheet.base, sheet.trucks)?;
    put_actors(page, sheet.actors)?;
    put_limits(page, network, sheet.state)?;
    put_commands(page, sheet)?;
    page.put::<Field>("end", &[])?;
    Ok(())
}
