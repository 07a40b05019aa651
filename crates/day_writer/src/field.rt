// A field of a record.

ghost use Rattle.std.specs.Prelude.{◌≡◌, ◌++◌, List, ℕ, OnOk};
ghost use Rattle.day_writer.specs.Fields.{field_text};
ghost use Rattle.day_writer.specs.Texts.{axle_text, axles_text};

use axle_train::{Axle, Train};
use names::Name;
use office_io::write_number;
use permit_days::Day;
use std::alloc::AllocError;

/// A field of a record: anything that has a text, and adds it to what was written.
pub trait FieldText {
    ghost text: { Self → List ℕ };

    /// Adds the text of the field.
    fn write(&self, out: &mut Vec<u8>) -> Result<(), AllocError>
        ensures { OnOk result (out.new.items ≡ out.old.items ++ text self.now) };
}

/// A field of a day's record: a text, a name, a number, a day, or the axles of a train.
#[derive(Clone, Copy)]
pub enum Field<'a> {
    Text(&'a [u8]),
    Name(Name),
    Number(u32),
    Day(Day),
    Axles(&'a Train),
}

impl<'a> FieldText for Field<'a> {
    ghost text = { field_text };

    fn write(&self, out: &mut Vec<u8>) -> Result<(), AllocError> {
        match *self {
            Field::Text(text) => out.extend_from_slice(text),
            Field::Name(name) => out.extend_from_slice(name.as_bytes()),
            Field::Number(n) => write_number(out, n),
            Field::Day(day) => out.extend_from_slice(&day.text()),
            Field::Axles(train) => write_train(out, train),
        }
    }
}

// The axles of a train, with one space between two of them.
fn write_train(out: &mut Vec<u8>, train: &Train) -> Result<(), AllocError>
    ensures { OnOk result (out.new.items ≡ out.old.items ++ axles_text train.now) }
{
    let count = train.len();
    write_axle(out, train.axle(0))?;
    'more: for i in 1..count {
        out.push(b' ')?;
        write_axle(out, train.axle(i))?;
    }
    Ok(())
}

/// Adds an axle as PLACE:WEIGHT.
pub fn write_axle(out: &mut Vec<u8>, axle: Axle) -> Result<(), AllocError>
    ensures { OnOk result (out.new.items ≡ out.old.items ++ axle_text axle) }
{
    write_number(out, axle.place)?;
    out.push(b':')?;
    write_number(out, axle.weight)
}
