// The roads that are made: a grid of nodes, the segments between neighbours, and the spans on those to the east.

ghost use Rattle.std.specs.Prelude.{◌≡◌, ◌<◌, ◌≤◌, ◌+◌, OnOk};
ghost use Rattle.day_maker.specs.Fields.{field_text};
ghost use Rattle.day_maker.specs.Making.{each};
ghost use Rattle.day_maker.specs.Made.{both_ways, cell, nodes, segments, span, spans};
ghost use Rattle.day_maker.specs.Texts.{page_after};

use crate::field::Field;
use crate::page::Page;
use std::alloc::AllocError;

/// All nodes.
pub(crate) fn put_nodes(page: &mut Page, size: u32) -> Result<(), AllocError>
    requires { size ≤ 40 }
    ensures { OnOk result (page.new ≡ page_after (nodes size) page.old) }
{
    'rows: for r in 0..size + 1 {
        'columns: for c in 0..size + 1 {
            page.put("node", &[Field::Cell(b'n', r, c)])?;
        }
    }
    Ok(())
}

/// All segments: of each node those to the east and to the south, and back.
pub(crate) fn put_segments(page: &mut Page, size: u32) -> Result<(), AllocError>
    requires { size ≤ 40 }
    ensures { OnOk result (page.new ≡ page_after (segments size) page.old) }
{
    'rows: for r in 0..size + 1 {
        'columns: for c in 0..size + 1 {
            let here = Field::Cell(b'n', r, c);
            if c < size {
                let names = (Field::Cell(b'e', r, c), Field::Cell(b'w', r, c));
                put_both_ways(page, names, here, Field::Cell(b'n', r, c + 1))?;
            }
            if r < size {
                let names = (Field::Cell(b's', r, c), Field::Cell(b'u', r, c));
                put_both_ways(page, names, here, Field::Cell(b'n', r + 1, c))?;
            }
        }
    }
    Ok(())
}

/// All spans.
pub(crate) fn put_spans(page: &mut Page, size: u32) -> Result<(), AllocError>
    requires { size ≤ 40 }
    ensures { OnOk result (page.new ≡ page_after (spans size) page.old) }
{
    'rows: for r in 0..size + 1 {
        'columns: for c in 0..size {
            put_span(page, r, c)?;
        }
    }
    Ok(())
}

// The segment from a node to another and the one back, by their names, of one drawn length.
fn put_both_ways<'a>(
    page: &mut Page,
    names: (Field<'a>, Field<'a>),
    here: Field<'a>,
    there: Field<'a>,
) -> Result<(), AllocError>
    ensures { OnOk result (page.new ≡ page_after
        (both_ways (field_text names.entry.0) (field_text names.entry.1) (field_text here.entry) (field_text there.entry)) page.old) }
{
    let feet = Field::Number(1000 + page.draw(4000));
    page.put("segment", &[names.0, here, there, feet])?;
    page.put("segment", &[names.1, there, here, feet])?;
    Ok(())
}

// The span on the segment from a node to the east.
#[tactic(auto, unfolding(crate::specs::Made::span))]
fn put_span(page: &mut Page, r: u32, c: u32) -> Result<(), AllocError>
    ensures { OnOk result (page.new ≡ page_after (span r c) page.old) }
{
    let inches = 240 + 12 * page.draw(80);
    let rating = 800 + page.draw(1500);
    let name = Field::Cell(b'b', r, c);
    let on = Field::Cell(b'e', r, c);
    page.put(
        "span",
        &[name, on, Field::Number(inches), Field::Number(rating)],
    )
}
