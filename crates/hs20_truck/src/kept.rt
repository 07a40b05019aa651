// A study that keeps what is asked of it most.

ghost use Rattle.std.specs.Prelude.{◌≡◌, List, IfOk};
ghost use Rattle.axle_train.specs.declared.axle.Axle.{Axle};
ghost use Rattle.influence_line.specs.Spans.{IsSpanLength};
ghost use Rattle.hs20_truck.specs.Kept.{IsTableKept, IsNumberFor, SaysAllOf};

use crate::live::{is_carried, study_of};
use axle_train::Train;
use span_rating::{SpanStudy, Study, least_rating};
use std::alloc::{AllocError, Global};
use std::marker::Model;

/// The study of one train that keeps, for spans of the lengths that it was told to keep, the least rating with
/// which they carry the train, and computes the rest. What it answers does not depend on what it keeps, and
/// contracts see the axles of its train alone.
#[derive(Drop)]
pub struct Kept {
    train: Train,
    // For each length in inches, 0 where it is not kept, and else one more than the least rating. As long as
    // nothing is kept there is no table.
    numbers: Option<Vec<u32>>,
}

impl Model for Kept {
    ghost use Rattle.std.specs.Prelude.{List};
    ghost use Rattle.axle_train.specs.declared.axle.Axle.{Axle};

    ghost Value = { List Axle };

    ghost view = { λ k. k.train };

    ghost use Rattle.hs20_truck.specs.Kept.{IsTableKept};

    ghost invariant = { λ k. IsTableKept k.train k.numbers };
}

impl Kept {
    /// A study of this train that keeps nothing yet. Takes no memory.
    pub fn new(train: Train) -> Kept
        ensures { result ≡ train }
    {
        Kept {
            train,
            numbers: None,
        }
    }

    /// The train.
    pub fn train(&self) -> &Train
        ensures { result.now ≡ self.now }
    {
        &self.train
    }

    /// May keep, for speed alone, what spans of `inches` ask of the train. Nothing that contracts see changes. The first length takes
    /// the memory for all.
    pub fn keep(&mut self, alloc: Global, inches: u32) -> Result<(), AllocError>
        requires { IsSpanLength inches }
        ensures { self.new ≡ self.old }
    {
        if number_of(&self.numbers, inches) != 0 {
            return Ok(());
        }
        let study = study_of(&self.train, inches);
        let least = least_rating(&study.truck, &study.design);
        let mut numbers = table_of(alloc, self.numbers.take())?;
        numbers[inches as usize] = least + 1;
        self.numbers = Some(numbers);
        Ok(())
    }
}

impl SpanStudy for Kept {
    ghost axles = { λ k. k };

    fn of(&self, inches: u32) -> Study {
        study_of(&self.train, inches)
    }

    fn carries(&self, inches: u32, rating: u32) -> bool {
        let number = number_of(&self.numbers, inches);
        if number == 0 {
            return is_carried(&self.train, inches, rating);
        }
        number - 1 <= rating
    }
}

// What is kept for spans of this length, whose train ever it is.
fn number_of(numbers: &Option<Vec<u32>>, inches: u32) -> u32
    ensures { (axles : List Axle) → IsTableKept axles numbers.now → IsNumberFor axles inches result }
{
    match numbers {
        Some(numbers) => match numbers.get(inches as usize) {
            Some(number) => *number,
            None => 0,
        },
        None => 0,
    }
}

// The table of what is kept, or one of nothing.
fn table_of(alloc: Global, numbers: Option<Vec<u32>>) -> Result<Vec<u32>, AllocError>
    ensures { IfOk result (λ table. SaysAllOf numbers table.items) }
{
    match numbers {
        Some(numbers) => Ok(numbers),
        None => vec![in alloc; 0; 6001],
    }
}
