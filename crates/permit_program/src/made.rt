// What `make` and `trial` make of a number: a day file, and the summary of its day.

ghost use Rattle.std.specs.Prelude.{◌≡◌, ◌≤◌, IfOk, ℕ, List, Ok};
ghost use Rattle.day_maker.specs.Made.{made_day};
ghost use Rattle.day_text.specs.Days.{day_of};
ghost use Rattle.day_text.specs.Laws.{IsDayFile};
ghost use Rattle.permit_program.specs.Command.{Makes};
ghost use Rattle.permit_program.specs.Made.{make, trial};

use day_maker::{made_days_are_accepted, make_day};
use day_text::{DayFile, FileRefusal, read_day};
use day_trial::{serial_histories_are_one, serve_in_order};
use names::NoMemory;
use report_text::summary;
use std::alloc::Global;

/// The day file that is made from a number, of this size. There is no other.
pub(crate) fn make_day_file(alloc: Global, seed: u32, size: u32) -> Result<Vec<u8>, NoMemory>
    requires seed { seed ≤ 65535 }
    requires size { (1 ≤ size) × (size ≤ 40) }
    ensures { IfOk result (λ text. (bytes : List ℕ) → Makes (make seed size) bytes text.items) }
{
    make_day(alloc, seed, size)
}

/// The summary of the day that is made from a number: of its commands, carried out one after another on one thread,
/// each by its own actor. There is no other.
pub(crate) fn make_summary(alloc: Global, seed: u32, size: u32) -> Result<Vec<u8>, NoMemory>
    requires seed { seed ≤ 65535 }
    requires size { (1 ≤ size) × (size ≤ 40) }
    ensures { IfOk result (λ text. (bytes : List ℕ) → Makes (trial seed size) bytes text.items) }
{
    let file = read_made_day(alloc, seed, size)?;
    let office = serve_in_order(alloc, file)?;
    // the law by which a day file has one such history
    serial_histories_are_one();
    summary(alloc, office.history())
}

// The day that is made from a number, read as a day file, which it always is.
fn read_made_day(alloc: Global, seed: u32, size: u32) -> Result<DayFile, NoMemory>
    requires seed { seed ≤ 65535 }
    requires size { (1 ≤ size) × (size ≤ 40) }
    ensures read { IfOk result (λ file. day_of (made_day seed size) ≡ Ok file) }
    ensures keeps { IfOk result (λ file. IsDayFile file) }
{
    let text = make_day(alloc, seed, size)?;
    made_days_are_accepted();
    match read_day(alloc, text.as_slice()) {
        Ok(file) => Ok(file),
        Err(FileRefusal::NoMemory) => Err(NoMemory),
        Err(FileRefusal::Refused { .. }) => unreachable!(),
    }
}
