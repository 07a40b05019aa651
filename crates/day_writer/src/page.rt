// A page to which records are added.

ghost use Rattle.std.specs.Prelude.{◌≡◌, ◌≤◌, ◌∷◌, ◌++◌, None, Some, length, map, OnOk, IfOk};
ghost use Rattle.day_writer.specs.Texts.{line, row};
ghost use Rattle.day_writer.specs.Writers.{GoesOn, IsBetweenRecords, given_text};

use crate::field::FieldText;
use csv::Writer;
use std::alloc::{AllocError, Global};
use std::marker::Model;

/// The records so far. Contracts see their text. A writer whose record failed is let go, since how it stands is not told.
#[derive(Drop)]
pub struct Page {
    alloc: Global,
    writer: Option<Writer<Vec<u8>>>,
    // Where the text of each field is made, so that only the first ones take memory.
    field: Vec<u8>,
}

impl Model for Page {
    ghost use Rattle.std.specs.Prelude.{List, ℕ};
    ghost use Rattle.std.specs.Option.{ForSome};
    ghost use Rattle.day_writer.specs.Writers.{IsBetweenRecords, given_text};

    ghost Value = { List ℕ };

    ghost view = { λ a. given_text a.writer };

    ghost invariant = { λ a. ForSome a.writer (λ w. IsBetweenRecords w) };
}

impl Page {
    ghost use Rattle.std.specs.Prelude.{[]};

    /// An empty page.
    pub fn new(alloc: Global) -> Page
        ensures { result ≡ [] }
    {
        Page {
            alloc,
            writer: Some(Writer::from_writer(Vec::new(alloc))),
            field: Vec::new(alloc),
        }
    }

    /// Where what is written takes its memory.
    pub fn alloc(&self) -> Global {
        self.alloc
    }

    /// Adds one record of these fields, with empty ones behind them to make eight. After an `Err` no further record is taken.
    pub fn put<F: FieldText>(&mut self, kind: &str, fields: &[F]) -> Result<(), AllocError>
        requires { length fields.now ≤ 7 }
        ensures { OnOk result (self.new ≡ self.old ++ line (row (kind.now ∷ map F.text fields.now))) }
    {
        let Some(writer) = &mut self.writer else {
            return Err(AllocError);
        };
        match write_row(writer, &mut self.field, kind, fields) {
            Ok(()) => Ok(()),
            Err(_) => {
                let_go(&mut self.writer);
                Err(AllocError)
            }
        }
    }

    /// The text.
    pub fn into_text(self) -> Result<Vec<u8>, AllocError>
        ensures { IfOk result (λ text. text.items ≡ self) }
    {
        let Page { writer, .. } = self;
        match writer {
            Some(writer) => writer.into_inner().map_err(|_| AllocError),
            None => Err(AllocError),
        }
    }
}

// Lets a writer go. A function that does so first clears room on its stack for a whole writer, and `put` would at each record.
#[cold]
#[inline(never)]
fn let_go(writer: &mut Option<Writer<Vec<u8>>>)
    ensures { writer.new ≡ None }
{
    *writer = None;
}

// Writes the record of these fields, with empty ones behind them to make eight. The text of each is made in `text`.
fn write_row<F: FieldText>(
    writer: &mut Writer<Vec<u8>>,
    text: &mut Vec<u8>,
    kind: &str,
    fields: &[F],
) -> Result<(), AllocError>
    requires few { length fields.now ≤ 7 }
    requires ready { IsBetweenRecords writer.old }
    ensures ready { OnOk result (IsBetweenRecords writer.new) }
    ensures text { let fields = row (kind.now ∷ map F.text fields.now) in
        OnOk result (given_text (Some writer.new) ≡ given_text (Some writer.old) ++ line fields) }
{
    write_field(writer, kind.as_bytes())?;
    'fields: for field in fields {
        text.clear();
        field.write(text)?;
        write_field(writer, text.as_slice())?;
    }
    'blanks: for _ in fields.len()..7 {
        write_field(writer, b"")?;
    }
    match writer.end_record() {
        Ok(()) => Ok(()),
        Err(_) => Err(AllocError),
    }
}

// Writes one field more of a record.
fn write_field(writer: &mut Writer<Vec<u8>>, field: &[u8]) -> Result<(), AllocError>
    ensures { OnOk result (GoesOn writer.old field.now writer.new) }
{
    match writer.write_field(field) {
        Ok(()) => Ok(()),
        Err(_) => Err(AllocError),
    }
}
