// The day file of a seed and a size.

ghost use Rattle.std.specs.Prelude.{◌≡◌, ◌≤◌, IfOk, OnOk};
ghost use Rattle.day_maker.specs.Made.{day_maker, made_day};
ghost use Rattle.day_maker.specs.Texts.{page_after};

use crate::field::Field;
use crate::page::Page;
use crate::roads::{put_nodes, put_segments, put_spans};
use crate::traffic::{put_actors, put_commands, put_trucks};
use names::NoMemory;
use std::alloc::{AllocError, Global};

/// The text of the day file that is made of a seed and a size: a grid of `size + 1` by `size + 1` nodes with its segments and
/// spans, four trucks, four actors and `20 * size` commands. `NoMemory` where no memory was left.
pub fn make_day(alloc: Global, seed: u32, size: u32) -> Result<Vec<u8>, NoMemory>
    requires seed { seed ≤ 65535 }
    requires some { 1 ≤ size }
    requires small { size ≤ 40 }
    ensures { IfOk result (λ text. text.items ≡ made_day seed size) }
{
    let mut page = Page::new(alloc, seed);
    match put_day(&mut page, size) {
        Ok(()) => Ok(page.into_text()?),
        Err(_) => {
            drop(page);
            Err(NoMemory)
        }
    }
}

// The whole file.
fn put_day(page: &mut Page, size: u32) -> Result<(), AllocError>
    requires some { 1 ≤ size }
    requires small { size ≤ 40 }
    ensures { OnOk result (page.new ≡ page_after (day_maker size) page.old) }
{
    page.put("day", &[Field::Word("2026-01-01")])?;
    put_nodes(page, size)?;
    put_segments(page, size)?;
    put_spans(page, size)?;
    put_trucks(page)?;
    put_actors(page)?;
    put_commands(page, size)?;
    page.put("end", &[])?;
    Ok(())
}
