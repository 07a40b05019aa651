// Why a permit was not issued.

ghost use Rattle.std.specs.Prelude.{◌≡◌};
ghost use Rattle.permit_book.specs.declared.refusal.BookRefusal.TheVariants.{NoMemory};

use std::alloc::AllocError;
use thiserror::Error;

/// Why a permit was not issued: the first of these causes that applies, in this order.
#[derive(Clone, Copy, Debug, PartialEq, Eq, Error)]
pub enum BookRefusal {
    /// There are 1,000,000 permits.
    #[error("the book is full")]
    Full,
    /// No memory was left.
    #[error("out of memory")]
    NoMemory,
}

impl From<AllocError> for BookRefusal {
    ghost from_gives = { λ _ refusal. refusal ≡ NoMemory };

    fn from(_error: AllocError) -> BookRefusal {
        BookRefusal::NoMemory
    }
}
