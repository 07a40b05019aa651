// What an audit says.

use office_core::Replay;

/// What an audit says of a history.
#[derive(Clone, Copy, Debug, PartialEq, Eq)]
pub enum Verdict {
    /// It is one of an office of the base that opened on the day.
    Legal,
    /// The entries before this one, counted from 0, are such a history, and with it they are not.
    Bad { entry: usize },
}

/// What an audit says of a history, with what an office keeps behind a legal one.
#[derive(Drop)]
pub enum Audited {
    /// It is one of an office of the base that opened on the day.
    Legal(Replay),
    /// The entries before this one, counted from 0, are such a history, and with it they are not.
    Bad { entry: usize },
}
