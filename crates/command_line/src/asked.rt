// What words ask for.

use thiserror::Error;

/// What the program can be asked for.
#[derive(Clone, Copy, Debug, PartialEq, Eq)]
pub enum Task {
    /// One truck is judged.
    Check,
    /// An office is run for a day.
    Day,
    /// A day file is made.
    Make,
    /// A day file is made and run, and summed up.
    Trial,
    /// A journal is checked against its day file.
    Audit,
    /// One truck is rated against three design loads.
    Design,
    /// Trucks that follow each other are rated.
    Convoy,
    /// An office is run for a day, and applies again for each permit that it recalls.
    Reroute,
}

/// What the clerk can be asked for.
#[derive(Clone, Copy, Debug, PartialEq, Eq)]
pub enum ClerkTask {
    /// A journal is certified as that of the whole of its day.
    Certify,
    /// The next day's file is written: of the trucks, perhaps only those that hold a permit in force.
    Carry { in_force: bool },
}

/// The numbers of the options. All are read with every task.
#[derive(Clone, Copy, Debug, PartialEq, Eq)]
pub struct Options {
    /// Where a made day file begins: 0 to 65,535.
    pub seed: u32,
    /// How large a made day file is: 1 to 40.
    pub size: u32,
    /// How many trucks follow each other: 2 to 16.
    pub trucks: u32,
    /// The least number of inches between two of them: 1 to 3,000.
    pub gap: u32,
}

/// A task, with the numbers of the options.
#[derive(Clone, Copy, Debug, PartialEq, Eq)]
pub struct Asked {
    pub task: Task,
    pub options: Options,
}

/// Why words ask for nothing.
#[derive(Clone, Copy, Debug, PartialEq, Eq, Error)]
pub enum WordsRefusal {
    /// The command line does not take them, or COMMAND is no task. `--help` is among these.
    #[error("these words ask for nothing")]
    Usage,
    #[error("out of memory")]
    NoMemory,
}
