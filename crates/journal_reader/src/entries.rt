// The entry of a line, and the last line.

ghost use Rattle.std.specs.Prelude.{◌≡◌, ◌∷◌, [], IfSome, IfOk, codes, ℕ, length, Some, None};
ghost use Rattle.std.specs.Str.{bytes_eq};
ghost use Rattle.journal_text.specs.Words.{index};
ghost use Rattle.journal_text.specs.Entries.{call_words, reply_words};
ghost use Rattle.journal_text.specs.Journals.{end_line, line_of};
ghost use Rattle.journal_reader.specs.Words.{IsTextOf, left, parts, seen};
ghost use Rattle.journal_reader.specs.Fits.{FitsEntry};
ghost use Rattle.journal_reader.specs.Formats.{FitsIn};
ghost use Rattle.journal_reader.specs.Readers.{IsLastReply, IsWordsOf, call_at, entry_in, entry_of, last_reply, reply_at};

use crate::calls::call;
use crate::numbers::first_place;
use crate::parts::is_done;
use crate::replies::reply;
use crate::words::after;
use journal_text::Format;
use office_io::spells;
use office_words::{Entry, Reply};
use std::alloc::{AllocError, Global};

/// The entry of a line in a journal of this format.
pub fn entry(alloc: Global, format: Format, line: &[u8]) -> Result<Option<Entry>, AllocError>
    ensures exact { IfOk result (λ found. found ≡ entry_in format line.now) }
    ensures sound { IfOk result (IsTextOf line_of (FitsIn format) line.now) }
{
    if let Some(entry) = any_entry(alloc, line)?
        && format.has_words_for(&entry)
    {
        Ok(Some(entry))
    } else {
        Ok(None)
    }
}

// The entry of a line, whatever the format is.
#[tactic(auto, unfolding(crate::specs::Readers::entry_of))]
fn any_entry(alloc: Global, line: &[u8]) -> Result<Option<Entry>, AllocError>
    ensures exact { IfOk result (λ found. found ≡ entry_of line.now) }
    ensures sound { IfOk result (IsWordsOf (parts 32 line.now)) }
{
    if let (_, Some(caller), rest) = first_place(line, b' ')
        && let Some((call, rest)) = call(alloc, rest)?
        && let Some(reply) = last_reply(alloc, rest)?
    {
        Ok(Some(Entry {
            caller,
            call,
            reply,
        }))
    } else {
        Ok(None)
    }
}

// The reply behind `=`, with which a line ends.
#[tactic(auto, unfolding(crate::specs::Readers::last_reply))]
fn last_reply(alloc: Global, rest: &[u8]) -> Result<Option<Reply>, AllocError>
    ensures exact { IfOk result (λ found. found ≡ last_reply (left rest.now)) }
    ensures sound { IfOk result (IsLastReply (left rest.now)) }
{
    if let Some(rest) = after(rest, "=")
        && let Some((reply, rest)) = reply(alloc, rest)?
        && is_done(rest, b' ')
    {
        Ok(Some(reply))
    } else {
        Ok(None)
    }
}

/// Whether a line is the last one, after so many entries.
pub fn is_end(line: &[u8], count: usize) -> bool
    ensures { result ≡ bytes_eq line.now (end_line count) }
{
    match line.strip_prefix(b"end ") {
        Some(digits) => spells(digits, count),
        None => false,
    }
}
