// The history that a text is the journal of.

ghost use Rattle.std.specs.Prelude.{IfOk, IfErr};
ghost use Rattle.journal_reader.specs.Journals.{IsJournalOf, IsWhy};

use crate::entries::{entry, is_end};
use crate::formats::format_of;
use crate::parts::line;
use crate::refusal::JournalRefusal;
use office_words::Entry;
use std::alloc::Global;

/// The history that the bytes are the journal of, in whatever format, or the first line such that no journal begins with the
/// lines up to it; `NoMemory` where no memory was left.
#[tactic(auto, using(crate::proofs::Rows::no_lines, crate::proofs::Rows::one_more, crate::proofs::Rows::one_more_fits))]
pub fn read(alloc: Global, bytes: &[u8]) -> Result<Vec<Entry>, JournalRefusal>
    ensures journal { IfOk result (λ history. IsJournalOf history.items bytes.now) }
    ensures refused { IfErr result (IsWhy bytes.now) }
{
    let Some((first, mut rest)) = line(bytes) else {
        return Err(JournalRefusal::BadLine { row: 1 });
    };
    let Some(format) = format_of(first) else {
        return Err(JournalRefusal::BadLine { row: 1 });
    };
    let mut list = Vec::new(alloc);
    'lines: while let Some((found, more)) = line(rest) {
        let Some(entry) = entry(alloc, format, found)? else {
            let row = list.len() as u64 + 2;
            if !is_end(found, list.len()) {
                return Err(JournalRefusal::BadLine { row });
            }
            if !more.is_empty() {
                return Err(JournalRefusal::BadLine { row: row + 1 });
            }
            return Ok(list);
        };
        list.push(entry)?;
        rest = more;
    }
    Err(JournalRefusal::BadLine {
        row: list.len() as u64 + 2,
    })
}
