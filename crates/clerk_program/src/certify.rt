// What `certify` makes: the line that a journal is one of all of the day whose file stands behind it.

ghost use Rattle.std.specs.Prelude.{◌≡◌, IfErr, IfOk};
ghost use Rattle.std.specs.String.{string_bytes};
ghost use Rattle.permit_program.specs.Command.{IsRefusalOf, Makes};
ghost use Rattle.clerk_program.specs.Certify.{certify, whole_history_line};

use crate::whole_day::read_whole;
use names::NoMemory;
use permit_program::Refusal;
use std::alloc::Global;

/// The line that says that the journal at the head of the bytes is one of all of the day whose file stands behind it, with the
/// number of its entries. It is refused as `read_whole` says.
pub(crate) fn make_certificate(alloc: Global, bytes: &[u8]) -> Result<Vec<u8>, Refusal>
    ensures made { IfOk result (λ text. Makes certify bytes.now text.items) }
    ensures refused { IfErr result (IsRefusalOf certify bytes.now) }
{
    match read_whole(alloc, bytes) {
        Ok(day) => Ok(whole_line(alloc, day.history.len())?.into_bytes()),
        Err(refusal) => Err(refusal),
    }
}

// The line that says so of a whole history, with the number of its entries.
fn whole_line(alloc: Global, count: usize) -> Result<String, NoMemory>
    ensures { IfOk result (λ text. string_bytes text ≡ whole_history_line count) }
{
    let mut text = String::new(alloc);
    write!(text, "whole {count}\n")?;
    Ok(text)
}
