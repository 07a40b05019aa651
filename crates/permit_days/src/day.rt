// A day.

ghost use Rattle.std.specs.Prelude.{◌≡◌, Some, Ok, Err, true};
ghost use Rattle.permit_days.specs.Days.{days_between, is_day_text, day_number_of, reading_of};

use crate::calendar::{days_above, is_shaped, is_there, number};
use crate::refusal::DayRefusal;
use std::cmp::Ordering;
use std::hash::{Hash, Hasher};
use std::marker::Model;
use std::{fmt, str};

/// A day of the calendar. Contracts see it as its text, ten bytes.
#[derive(Clone, Copy)]
pub struct Day {
    bytes: [u8; 10],
}

impl Model for Day {
    ghost use Rattle.std.specs.Prelude.{◌≡◌, true, ℕ, List};

    ghost Value = { List ℕ };

    ghost use Rattle.permit_days.specs.Days.{is_day_text};

    ghost view = { λ a. a.bytes };

    ghost invariant = { λ a. is_day_text a.bytes ≡ true };

    ghost inverse = { λ text. record { bytes = text } };
}

impl Day {
    /// The day that the text writes, or why it is none: `Shape` where it has another shape, and else
    /// `NoSuchDay` where there is no such day. Takes no memory.
    pub fn read(text: &[u8]) -> Result<Day, DayRefusal>
        ensures { result ≡ reading_of text.now }
    {
        if !is_shaped(text) {
            return Err(DayRefusal::Shape);
        }
        if !is_there(text) {
            return Err(DayRefusal::NoSuchDay);
        }
        let mut bytes = [0u8; 10];
        bytes.copy_from_slice(text);
        Ok(Day { bytes })
    }

    /// The text of the day, YYYY-MM-DD. Takes no memory.
    pub fn text(self) -> [u8; 10]
        ensures value { result ≡ self }
        ensures day { is_day_text self ≡ true }
    {
        self.bytes
    }

    /// How many days it lies after 1970-01-01; negative before. Takes no memory.
    pub fn number(self) -> i32
        ensures { result ≡ day_number_of self }
    {
        number(&self.text())
    }

    /// How many days it lies after a first day; 0 where it does not. Takes no memory.
    pub fn days_since(self, first: Day) -> u32
        ensures { result ≡ days_between first self }
    {
        days_above(first.number(), self.number())
    }
}

impl fmt::Display for Day {
    ghost output = { λ day. Some day };

    fn fmt<W: fmt::Write>(&self, f: &mut fmt::Formatter<W>) -> fmt::Result {
        match str::from_utf8(&self.text()) {
            Ok(text) => f.write_str(text),
            Err(_) => Err(fmt::Error),
        }
    }
}

impl PartialEq for Day {
    ghost use Rattle.std.specs.Str.{bytes_eq};
    ghost use Rattle.std.specs.Cmp.Lexicographic.{nat_list_eq_equiv};
    ghost use Rattle.std.specs.Cmp;

    ghost eq = { bytes_eq };

    ghost laws = { Cmp.partial_equiv_from_equiv nat_list_eq_equiv };

    fn eq(&self, other: &Day) -> bool {
        self.text() == other.text()
    }
}

impl Eq for Day {
    ghost use Rattle.std.specs.Cmp.Lexicographic.{nat_list_eq_equiv};

    ghost laws = { nat_list_eq_equiv };
}

impl PartialOrd for Day {
    ghost use Rattle.std.specs.Prelude.{Some};
    ghost use Rattle.std.specs.Cmp.Lexicographic.{slice_cmp, texts_po};
    ghost use Rattle.std.specs.Ordering.{nat_cmp};

    ghost partial_cmp = { λ a b. Some (slice_cmp nat_cmp a b) };

    ghost laws = { texts_po };

    fn partial_cmp(&self, other: &Day) -> Option<Ordering> {
        Some(self.cmp(other))
    }
}

impl Ord for Day {
    ghost use Rattle.std.specs.Prelude.{refl};
    ghost use Rattle.std.specs.Cmp.Lexicographic.{nat_list_cmp_total, slice_cmp, texts_ties};
    ghost use Rattle.std.specs.Ordering.{nat_cmp};

    ghost cmp = { slice_cmp nat_cmp };

    ghost total = { nat_list_cmp_total };

    ghost matches_partial_cmp = { λ a b. refl };

    ghost matches_eq = { texts_ties };

    fn cmp(&self, other: &Day) -> Ordering {
        self.text().cmp(&other.text())
    }
}

impl Hash for Day {
    ghost use Rattle.std.proofs.Common.{rules};
    ghost use Rattle.std.specs.Hash as fed;

    ghost hash_input = { fed.str };

    ghost respects_eq = { Prim.search rules };

    fn hash<H: Hasher>(&self, state: &mut H) {
        state.write(&self.text());
        state.write_u8(0xff);
    }
}
