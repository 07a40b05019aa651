// How bytes are refused as no whole journal.

ghost use Rattle.std.specs.Prelude.{◌≡◌, ◌<◌, ◌∷◌, ◌++◌, [], IfErr, IfOk, codes};
ghost use Rattle.std.specs.Fmt.{decimal};
ghost use Rattle.std.specs.String.{string_bytes};
ghost use Rattle.permit_program.specs.Command.{IsCommandAnswer};
ghost use Rattle.clerk_program.specs.WholeJournals.{answer_to_bytes, answer_to_lack, answer_to_stray};

use names::NoMemory;
use permit_program::Refusal;
use std::alloc::Global;

/// How too many bytes are answered.
pub(crate) fn of_bytes(alloc: Global) -> Refusal
    ensures { IsCommandAnswer answer_to_bytes result }
{
    match String::from_str(alloc, "refused: bytes\n") {
        Ok(line) => Refusal::Refused { status: 6, line },
        Err(_) => Refusal::NoMemory,
    }
}

/// How a history is answered that strays: by the first such entry, counted from 0 here and from 1 in the line.
pub(crate) fn of_stray(alloc: Global, entry: usize) -> Refusal
    requires { entry < 1000000 }
    ensures { IsCommandAnswer (answer_to_stray entry) result }
{
    not_whole(numbered_line(alloc, "entry", entry as u64 + 1))
}

/// How a history is answered that lacks commands: by the row of the first of them.
pub(crate) fn of_lack(alloc: Global, row: u64) -> Refusal
    ensures { IsCommandAnswer (answer_to_lack row) result }
{
    not_whole(numbered_line(alloc, "record", row))
}

// The refusal of a history that is not whole, with this line.
fn not_whole(line: Result<String, NoMemory>) -> Refusal
    ensures line { IfOk line (λ text. IsCommandAnswer
        (record { status = 9; line = string_bytes text }) result) }
    ensures none { IfErr line (λ e. result ≡ Refusal.NoMemory) }
{
    match line {
        Ok(line) => Refusal::Refused { status: 9, line },
        Err(NoMemory) => Refusal::NoMemory,
    }
}

// The line that a history is not whole, by what and by its number.
fn numbered_line(alloc: Global, what: &str, number: u64) -> Result<String, NoMemory>
    ensures { IfOk result (λ text. string_bytes text ≡ codes "not whole: " ++ what.now
        ++ (32 ∷ (decimal number ++ (10 ∷ [])))) }
{
    let mut text = String::new(alloc);
    write!(text, "not whole: {what} {number}\n")?;
    Ok(text)
}
