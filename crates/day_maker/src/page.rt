// A page to which records are added, and from which numbers are drawn.

ghost use Rattle.std.specs.Prelude.{◌≡◌, ◌<◌, ◌≤◌, ◌%◌, ◌∷◌, length, map, OnOk, IfOk};
ghost use Rattle.day_maker.specs.Fields.{field_text};
ghost use Rattle.day_maker.specs.Making.{drawn, put};
ghost use Rattle.day_maker.specs.Texts.{page_after};
ghost use Rattle.day_writer.specs.Texts.{row};

use crate::field::Field;
use day_writer as writer;
use std::alloc::{AllocError, Global};
use std::marker::Model;

/// The records so far, and the number from which the next draw is made.
#[derive(Drop)]
pub(crate) struct Page {
    records: writer::Page,
    number: u32,
}

impl Model for Page {
    ghost use Rattle.day_maker.specs.Texts.{PageParts};

    ghost Value = { PageParts };

    ghost view = { λ a. record { text = a.records; number = a.number } };
}

impl Page {
    ghost use Rattle.std.specs.Prelude.{[]};

    /// An empty page.
    pub(crate) fn new(alloc: Global, seed: u32) -> Page
        ensures { result ≡ record { text = []; number = seed } }
    {
        Page {
            records: writer::Page::new(alloc),
            number: seed,
        }
    }

    /// Where what is made takes its memory.
    pub(crate) fn alloc(&self) -> Global {
        self.records.alloc()
    }

    /// A number below `below`.
    #[tactic(auto, unfolding(crate::specs::Making::drawn))]
    pub(crate) fn draw(&mut self, below: u32) -> u32
        requires { 0 < below }
        ensures value { result ≡ drawn self.old.number % below }
        ensures next { self.new ≡ record self.old { number = drawn self.old.number } }
    {
        self.number = ((75 * u64::from(self.number) + 74) % 65537) as u32;
        self.number % below
    }

    /// One record of these fields, with empty ones behind them to make eight.
    pub(crate) fn put(&mut self, kind: &str, fields: &[Field]) -> Result<(), AllocError>
        requires { length fields.now ≤ 7 }
        ensures { OnOk result (self.new ≡ page_after
            (put (row (kind.now ∷ map field_text fields.now))) self.old) }
    {
        self.records.put(kind, fields)
    }

    /// The text.
    pub(crate) fn into_text(self) -> Result<Vec<u8>, AllocError>
        ensures { IfOk result (λ text. text.items ≡ self.text) }
    {
        self.records.into_text()
    }
}
