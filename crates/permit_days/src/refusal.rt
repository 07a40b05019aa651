// Why a text is no day.

use thiserror::Error;

/// Why a text is no day. The shape is tested first.
#[derive(Clone, Copy, Debug, PartialEq, Eq, Error)]
pub enum DayRefusal {
    /// The text is not four digits, `-`, two digits, `-` and two digits.
    #[error("a day is written YYYY-MM-DD")]
    Shape,
    /// The text has that shape, and there is no such day.
    #[error("there is no such day")]
    NoSuchDay,
}
