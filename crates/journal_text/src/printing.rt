// The text of a history.

ghost use Rattle.std.specs.Prelude.{◌≡◌, ◌∷◌, ◌++◌, codes, flat_map, IfOk, OnOk};
ghost use Rattle.journal_text.specs.Journals.{ended, journal_of, line_of};

use crate::calls::call;
use crate::format::Format;
use crate::lists::LastList;
use crate::replies::reply;
use crate::words::{digits, index_digits, word};
use names::NoMemory;
use office_words::Entry;
use std::alloc::{AllocError, Global};

/// The text of a history, in the last format, which has words for all that an office answers: a line for each entry, between a
/// first line and an end that counts them. `NoMemory` where no memory was left.
pub fn print(alloc: Global, history: &[Entry]) -> Result<Vec<u8>, NoMemory>
    ensures { IfOk result (λ text. text.items ≡ journal_of history.now) }
{
    Ok(text(alloc, history)?)
}

#[tactic(auto, using(crate::proofs::Pieces::journal_adds))]
fn text(alloc: Global, history: &[Entry]) -> Result<Vec<u8>, AllocError>
    ensures { IfOk result (λ text. text.items ≡ journal_of history.now) }
{
    let mut out = Vec::new(alloc);
    out.extend_from_slice(Format::Three.first_line().as_bytes())?;
    out.push(b'\n')?;
    let mut last = LastList::none(alloc);
    'history: for entry in history {
        line(&mut out, &mut last, entry)?;
    }
    out.extend_from_slice(b"end ")?;
    digits(&mut out, history.len() as u64)?;
    out.push(b'\n')?;
    Ok(out)
}

// The line of an entry.
#[tactic(auto, using(crate::proofs::Pieces::line_adds))]
fn line<'a>(out: &mut Vec<u8>, last: &mut LastList<'a>, entry: &'a Entry) -> Result<(), AllocError>
    ensures { OnOk result (out.new.items ≡ out.old.items ++ ended (line_of entry.now)) }
{
    index_digits(out, entry.caller)?;
    call(out, last, &entry.call)?;
    word(out, "=")?;
    reply(out, last, &entry.reply)?;
    out.push(b'\n')?;
    Ok(())
}
