// How bytes are refused.

ghost use Rattle.std.specs.Prelude.{◌≡◌, ◌≤◌, ◌∷◌, ◌++◌, [], IfOk};
ghost use Rattle.std.specs.Fmt.{decimal};
ghost use Rattle.std.specs.String.{string_bytes};
ghost use Rattle.permit_program.specs.Command.{IsCommandAnswer, IsAnswerTo};
ghost use Rattle.permit_program.specs.Audit.{IsAnswerToText, answer_to_entry};
ghost use Rattle.permit_program.specs.Convoy.{answer_to_convoy};
ghost use Rattle.permit_program.specs.Reroute.{answer_to_entries};
ghost use Rattle.permit_program.specs.declared.refusal.Refusal.TheVariants as refusal;

use convoy_moves::ConvoyRefusal;
use day_text::FileRefusal;
use journal_reader::JournalRefusal;
use names::NoMemory;
use report_text::{convoy_refusal_line, refusal_line, refusal_status};
use std::alloc::Global;
use thiserror::Error;

/// Why a command makes nothing of bytes.
#[derive(Debug, Drop, Error)]
pub enum Refusal {
    /// It refuses them: the status that the program ends with, and the line that it writes.
    #[error("the bytes are refused, with status {status}")]
    Refused { status: u8, line: String },
    /// No memory was left.
    #[error("out of memory")]
    NoMemory,
}

impl Refusal {
    /// How a refused file is answered: by the row of its first refused record, and the first cause that holds for it.
    pub fn of_file(alloc: Global, refused: FileRefusal) -> Refusal
        ensures { IsAnswerTo refused result }
    {
        let FileRefusal::Refused { row, cause } = refused else {
            return Refusal::NoMemory;
        };
        match refusal_line(alloc, row, cause) {
            Ok(line) => Refusal::Refused {
                status: refusal_status(cause),
                line,
            },
            Err(NoMemory) => Refusal::NoMemory,
        }
    }

    /// How trucks that are no convoy are answered: by the first limit that they pass.
    pub(crate) fn of_convoy(alloc: Global, refused: ConvoyRefusal) -> Refusal
        ensures { IsCommandAnswer (answer_to_convoy refused) result }
    {
        match convoy_refusal_line(alloc, refused) {
            Ok(line) => Refusal::Refused { status: 5, line },
            Err(NoMemory) => Refusal::NoMemory,
        }
    }

    /// How a text that is no journal is answered: by the first line with which no journal goes on.
    pub fn of_journal(alloc: Global, refused: JournalRefusal) -> Refusal
        ensures { IsAnswerToText refused result }
    {
        let JournalRefusal::BadLine { row } = refused else {
            return Refusal::NoMemory;
        };
        match numbered_line(alloc, "refused: line", row) {
            Ok(line) => Refusal::Refused { status: 5, line },
            Err(NoMemory) => Refusal::NoMemory,
        }
    }

    /// How a history that is not legal is answered: by its first bad entry, counted from 0 here and from 1 in the line.
    pub fn of_entry(alloc: Global, entry: usize) -> Refusal
        requires { entry ≤ 1000000 }
        ensures { IsCommandAnswer (answer_to_entry entry) result }
    {
        match numbered_line(alloc, "not legal: entry", entry as u64 + 1) {
            Ok(line) => Refusal::Refused { status: 9, line },
            Err(NoMemory) => Refusal::NoMemory,
        }
    }

    /// How a day is answered that makes more entries than a history may hold.
    pub(crate) fn of_entries(alloc: Global) -> Refusal
        ensures { IsCommandAnswer answer_to_entries result }
    {
        match String::from_str(alloc, "refused: entries\n") {
            Ok(line) => Refusal::Refused { status: 10, line },
            Err(_) => Refusal::NoMemory,
        }
    }
}

// A line of some words and a number.
fn numbered_line(alloc: Global, words: &str, number: u64) -> Result<String, NoMemory>
    ensures { IfOk result (λ text. string_bytes text ≡ words.now ++ (32 ∷ (decimal number ++ (10 ∷ [])))) }
{
    let mut text = String::new(alloc);
    write!(text, "{words} {number}\n")?;
    Ok(text)
}

impl From<NoMemory> for Refusal {
    ghost from_gives = { λ _ r. r ≡ refusal.NoMemory };

    fn from(_e: NoMemory) -> Refusal {
        Refusal::NoMemory
    }
}
