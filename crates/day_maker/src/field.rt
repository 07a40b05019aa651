// A field of a record that is made.

ghost use Rattle.std.specs.Prelude.{◌≡◌, ◌++◌, OnOk};
ghost use Rattle.day_maker.specs.Fields.{field_text};
ghost use Rattle.day_writer.specs.Texts.{axles_text};

use axle_train::Axle;
use day_writer::{FieldText, write_axle};
use office_io::write_number;
use std::alloc::AllocError;

/// A field: a word, a number, a letter with a number, a letter with a row and a column of the grid, or axles.
#[derive(Clone, Copy)]
pub(crate) enum Field<'a> {
    Word(&'a str),
    Number(u32),
    Numbered(u8, u32),
    Cell(u8, u32, u32),
    Axles(&'a [Axle]),
}

impl<'a> FieldText for Field<'a> {
    ghost text = { field_text };

    #[tactic(auto, unfolding(crate::specs::Made::cell))]
    fn write(&self, out: &mut Vec<u8>) -> Result<(), AllocError> {
        match *self {
            Field::Word(word) => out.extend_from_slice(word.as_bytes()),
            Field::Number(n) => write_number(out, n),
            Field::Numbered(letter, n) => {
                out.push(letter)?;
                write_number(out, n)
            }
            Field::Cell(letter, r, c) => {
                out.push(letter)?;
                write_number(out, r)?;
                out.push(b'-')?;
                write_number(out, c)
            }
            Field::Axles(axles) => write_axles(out, axles),
        }
    }
}

// Axles, with a space between them.
#[tactic(auto, using(crate::proofs::Writing::axles_add))]
fn write_axles(out: &mut Vec<u8>, axles: &[Axle]) -> Result<(), AllocError>
    ensures { OnOk result (out.new.items ≡ out.old.items ++ axles_text axles.now) }
{
    let Some((first, more)) = axles.split_first() else {
        return Ok(());
    };
    write_axle(out, *first)?;
    'more: for axle in more {
        out.push(b' ')?;
        write_axle(out, *axle)?;
    }
    Ok(())
}
