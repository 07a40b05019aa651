// Why a text was not read.

ghost use Rattle.std.specs.Prelude.{◌≡◌};
ghost use Rattle.journal_reader.specs.declared.refusal.JournalRefusal.TheVariants.{NoMemory};

use std::alloc::{AllocError, AllocFailed};
use thiserror::Error;

/// Why a text was not read.
#[derive(Clone, Copy, Debug, PartialEq, Eq, Error)]
pub enum JournalRefusal {
    /// No journal begins with the lines up to this one, counted from 1, and it is the first such line.
    #[error("line {row} is not that of a journal")]
    BadLine { row: u64 },
    /// No memory was left.
    #[error("there is no memory")]
    NoMemory,
}

impl From<AllocError> for JournalRefusal {
    ghost from_gives = { λ _ refusal. refusal ≡ NoMemory };

    fn from(_e: AllocError) -> JournalRefusal {
        JournalRefusal::NoMemory
    }
}

impl<T: Drop> From<AllocFailed<T>> for JournalRefusal {
    ghost from_gives = { λ _ refusal. refusal ≡ NoMemory };

    fn from(_e: AllocFailed<T>) -> JournalRefusal {
        JournalRefusal::NoMemory
    }
}
