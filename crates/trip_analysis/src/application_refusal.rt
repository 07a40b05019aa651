// Why an application is refused.

use thiserror::Error;

/// Why an application is none, in the order in which the causes are tested.
#[derive(Clone, Copy, Debug, Drop, PartialEq, Eq, Error)]
pub enum ApplicationRefusal {
    /// It goes from a node to itself.
    #[error("the trip begins where it ends")]
    SamePlace,
    /// This asked route, counted from 0, is the first that is no walk between its nodes: at this place of its list, counted
    /// from 0, a segment does not begin where the last one ended; at the list's length, the walk does not end where the trip
    /// ends.
    #[error("an asked route breaks off")]
    BrokenRoute { route: usize, at: usize },
    /// Its last day is before its first.
    #[error("the last day is before the first")]
    DayOrder,
    /// It asks for more than one route, and its last day lies so many days after its first: more than 365.
    #[error("an annual permit would last {days} days")]
    AnnualDays { days: u32 },
}
