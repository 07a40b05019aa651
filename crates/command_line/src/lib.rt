//! The command line: what the words after the program's name ask for.
//!
//! The words are read by one command of `clap`, the argument parser that Rust programs use: a positional COMMAND, and the
//! options `--seed`, `--size`, `--trucks` and `--gap` with a whole number each. To the crate above it promises that words are
//! accepted exactly where that command takes them and COMMAND is the word of a task, and what they ask for then. A call for
//! help is refused as any other mistake is, since the program has no help text but its usage line. The clerk's program has a
//! command line of its own, with a COMMAND and a flag.
#![tactic(auto)]

mod asked;
mod clerk;
mod laws;
mod office;
mod reading;

pub use asked::{Asked, ClerkTask, Options, Task, WordsRefusal};
pub use clerk::read_clerk_words;
pub use laws::{
    clerk_words_ask, each_word_asks_for_its_task, no_words_and_help_ask_for_nothing,
    what_asks_is_accepted,
};
pub use reading::read_words;
