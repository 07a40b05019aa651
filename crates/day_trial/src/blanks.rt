// What the counters of a lone office are made of.

ghost use Rattle.std.specs.Prelude.{◌≡◌};

use std::sync::ledger::Blank;

/// What the two counters of a lone office are made of: that of the office, and that of who finds what applications need.
#[derive(Drop)]
pub struct Blanks {
    pub(crate) office: Blank,
    pub(crate) finder: Blank,
}

impl Blanks {
    /// Two new blanks, each in one part.
    pub fn new() -> Blanks
        ensures office { result.office.parts ≡ 1 }
        ensures finder { result.finder.parts ≡ 1 }
    {
        Blanks {
            office: Blank::new(1),
            finder: Blank::new(1),
        }
    }
}
