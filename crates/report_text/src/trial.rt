// The summary of a history.

ghost use Rattle.std.specs.Prelude.{◌≡◌, ◌≤◌, ◌++◌, ◌*◌, ◌^◌, count_by, length, sum_by, IfOk, OnOk};
ghost use Rattle.report_text.specs.Summaries.{is_of, recalled_count, summary_of, told, last_version_from};

use names::NoMemory;
use office_io::write_number;
use office_words::{Entry, Reply};
use std::alloc::{AllocError, Global};

// What replies to applications are counted by.
#[derive(Clone, Copy)]
enum Kind {
    Issued,
    Refused,
    NoRoad,
    NotNeeded,
}

/// The summary of a history: seven lines, each a word, a space and a number. `NoMemory` where no memory was left.
pub fn summary(alloc: Global, history: &[Entry]) -> Result<Vec<u8>, NoMemory>
    ensures { IfOk result (λ text. text.items ≡ summary_of history.now) }
{
    let mut out = Vec::new(alloc);
    line(&mut out, "entries", history.len() as u128)?;
    line(&mut out, "issued", count(history, Kind::Issued) as u128)?;
    line(&mut out, "refused", count(history, Kind::Refused) as u128)?;
    line(&mut out, "noroad", count(history, Kind::NoRoad) as u128)?;
    line(
        &mut out,
        "notneeded",
        count(history, Kind::NotNeeded) as u128,
    )?;
    line(&mut out, "recalled", recalled(history))?;
    line(&mut out, "version", last_version(history) as u128)?;
    Ok(out)
}

// A word, a space, a number and a line feed.
#[tactic(auto, using(crate::proofs::SummaryLines::line_adds))]
fn line(out: &mut Vec<u8>, word: &str, n: u128) -> Result<(), AllocError>
    ensures { OnOk result (out.new.items ≡ out.old.items ++ told word.now n) }
{
    out.extend_from_slice(word.as_bytes())?;
    out.push(b' ')?;
    write_number(out, n)?;
    out.push(b'\n')?;
    Ok(())
}

// How many replies are of this kind.
fn count(history: &[Entry], kind: Kind) -> usize
    ensures { result ≡ count_by (λ e. is_of kind e.reply) history.now }
{
    let mut count = 0;
    'history: for entry in history {
        if is_of_kind(kind, &entry.reply) {
            count += 1;
        }
    }
    count
}

// Whether a reply is of this kind.
fn is_of_kind(kind: Kind, reply: &Reply) -> bool
    ensures { result ≡ is_of kind reply.now }
{
    match kind {
        Kind::Issued => matches!(reply, Reply::Issued { .. }),
        Kind::Refused => matches!(reply, Reply::Refused { .. }),
        Kind::NoRoad => matches!(reply, Reply::NoRoad),
        Kind::NotNeeded => matches!(reply, Reply::NotNeeded),
    }
}

// How many permits are recalled.
fn recalled(history: &[Entry]) -> u128
    ensures { result ≡ sum_by (λ e. recalled_count e.reply) history.now }
{
    let mut sum = 0;
    'history: for entry in history {
        if let Reply::Posted { recalled, .. } = &entry.reply {
            sum += recalled.as_slice().len() as u128;
        }
    }
    sum
}

// The version that the last posting names, 0 where there is none.
fn last_version(history: &[Entry]) -> u32
    ensures { result ≡ last_version_from 0 history.now }
{
    let mut last = 0;
    'history: for entry in history {
        if let Reply::Posted { version, .. } = &entry.reply {
            last = *version;
        }
    }
    last
}
