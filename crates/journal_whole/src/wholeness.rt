// What is said of a history and of the commands of a day.

/// What is said of a history and of the commands of a day.
#[derive(Clone, Copy, Debug, PartialEq, Eq)]
pub enum Wholeness {
    /// It is a history of all the commands.
    Whole,
    /// The entries before this one, counted from 0, may stand at the front of such a history, and with it they may not.
    Strays { entry: usize },
    /// The entries may stand at the front of such a history. The commands before this one, counted from 0, are finished, and
    /// this one is not.
    Lacks { order: usize },
}
