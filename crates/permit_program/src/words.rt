// The words of a command line.

ghost use Rattle.std.specs.Prelude.{◌≡◌, ◌<◌, IfOk, drop};
ghost use Rattle.std.specs.Vec.Iter.{into_iter_items};

use std::alloc::{AllocFailed, Global};
use std::io;
use std::io::ErrorKind;
use std::vec::IntoIter;
use thiserror::Error;

/// Why there are no words.
#[derive(Clone, Copy, Debug, Drop, PartialEq, Eq, Error)]
pub enum WordsFault {
    #[error("a word is no text")]
    NotText,
    #[error("out of memory")]
    NoMemory,
}

// The words come as text, all of them, or the kit tells of which kind its error is.
impl From<io::Error> for WordsFault {
    fn from(error: io::Error) -> WordsFault {
        match error.kind() {
            ErrorKind::InvalidData => WordsFault::NotText,
            _ => WordsFault::NoMemory,
        }
    }
}

impl From<AllocFailed<String>> for WordsFault {
    fn from(_e: AllocFailed<String>) -> WordsFault {
        WordsFault::NoMemory
    }
}

/// The words of a command line as the host gives them, all but the first, which is the program's name.
pub fn words_behind(
    alloc: Global,
    words: io::Result<IntoIter<String>>,
) -> Result<Vec<String>, WordsFault>
    ensures { IfOk result (λ behind. IfOk words (λ all. behind.items ≡ drop 1 (into_iter_items all))) }
{
    Ok(behind_the_first(alloc, words?)?)
}

// All of these words but the first.
fn behind_the_first(
    alloc: Global,
    words: IntoIter<String>,
) -> Result<Vec<String>, AllocFailed<String>>
    ensures { IfOk result (λ behind. behind.items ≡ drop 1 (into_iter_items words)) }
{
    let mut words = words;
    drop(words.next());
    let mut behind = Vec::new(alloc);
    'rest: while let Some(word) = words.next() {
        behind.push(word)?;
    }
    Ok(behind)
}
