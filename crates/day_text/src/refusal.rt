// Why a record, and so a file, is refused.

ghost use Rattle.std.specs.Prelude.{◌≡◌};
ghost use Rattle.day_text.specs.declared.refusal.RecordRefusal.TheVariants.{NoMemory, Refused};

use std::alloc::{AllocError, AllocFailed};
use thiserror::Error;

/// Why a record is bad: the first of these causes that holds, in this order. Fields are counted from 1, the kind among
/// them.
#[derive(Clone, Copy, Debug, Drop, PartialEq, Eq)]
pub enum RecordCause {
    /// The reader refuses it, or it has not eight fields.
    Fields,
    /// Its first field is no kind of this file.
    Kind,
    /// Its kind may not stand here.
    Order,
    /// A field after its last one is not empty.
    Extra,
    /// This field has not its form.
    Field(u32),
    /// The name that it defines is there already.
    Same,
    /// This field refers to a name that is not there.
    Unknown(u32),
    /// This field is out of its range, or is no day of the calendar.
    Range(u32),
    /// The axles are no train, by the rule of this number.
    Train(u32),
    /// An application leads from a node to itself.
    SamePlace,
    /// A route that is asked for is no walk between the two nodes.
    BrokenRoute,
    /// The last day is before the first.
    DayOrder,
    /// Two routes or more are asked for, and the last day lies more than 365 days after the first.
    AnnualDays,
    /// The input ends without an end.
    End,
}

/// What there are too many of.
#[derive(Clone, Copy, Debug, Drop, PartialEq, Eq)]
pub enum Kind {
    Nodes,
    Segments,
    Spans,
    SpansOfSegment,
    Trucks,
    Actors,
    Commands,
    Probes,
}

/// The cause of a refusal: a record that is bad, or one too many of its kind.
#[derive(Clone, Copy, Debug, Drop, PartialEq, Eq)]
pub enum Cause {
    Bad(RecordCause),
    TooMany(Kind),
}

/// Why a record was not taken.
#[derive(Clone, Copy, Debug, Drop, PartialEq, Eq, Error)]
pub enum RecordRefusal {
    /// It is bad, or one too many of its kind.
    #[error("the record is refused")]
    Refused(Cause),
    /// No memory was left.
    #[error("out of memory")]
    NoMemory,
}

impl RecordRefusal {
    ghost use Rattle.day_text.specs.Causes.{located};

    /// The refusal of a bad record.
    pub fn bad(cause: RecordCause) -> RecordRefusal
        ensures { result ≡ RecordRefusal.Refused (Cause.Bad cause) }
    {
        RecordRefusal::Refused(Cause::Bad(cause))
    }

    /// This refusal, of the record in this row.
    pub fn at(self, row: u64) -> FileRefusal
        ensures { result ≡ located row self }
    {
        match self {
            RecordRefusal::Refused(cause) => FileRefusal::Refused { row, cause },
            RecordRefusal::NoMemory => FileRefusal::NoMemory,
        }
    }

    /// The refusal of a record that is one too many.
    pub fn too_many(kind: Kind) -> RecordRefusal
        ensures { result ≡ RecordRefusal.Refused (Cause.TooMany kind) }
    {
        RecordRefusal::Refused(Cause::TooMany(kind))
    }
}

impl From<Cause> for RecordRefusal {
    ghost from_gives = { λ cause refusal. refusal ≡ Refused cause };

    fn from(cause: Cause) -> RecordRefusal {
        RecordRefusal::Refused(cause)
    }
}

impl From<AllocError> for RecordRefusal {
    ghost from_gives = { λ _ refusal. refusal ≡ NoMemory };

    fn from(_e: AllocError) -> RecordRefusal {
        RecordRefusal::NoMemory
    }
}

impl<T: Drop> From<AllocFailed<T>> for RecordRefusal {
    ghost from_gives = { λ _ refusal. refusal ≡ NoMemory };

    fn from(_e: AllocFailed<T>) -> RecordRefusal {
        RecordRefusal::NoMemory
    }
}

/// The first record of a file that is refused, and why. Records are counted from 1.
#[derive(Clone, Copy, Debug, Drop, PartialEq, Eq, Error)]
pub enum FileRefusal {
    /// The record in this row is refused. With the cause `End` it is the row after the last.
    #[error("record {row} is refused: {cause:?}")]
    Refused { row: u64, cause: Cause },
    /// No memory was left.
    #[error("out of memory")]
    NoMemory,
}
