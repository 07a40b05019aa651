// A line for each permit that was recalled.

ghost use Rattle.std.specs.Prelude.{◌≡◌, ◌++◌, IfOk, OnOk};
ghost use Rattle.std.specs.Fmt.{decimal};
ghost use Rattle.reroute_desk.specs.Issues.{recalled_in};
ghost use Rattle.report_text.specs.RecallLines.{line_for, permit_lines, refused_line, replaced_line, replies_to, reroute_text};

use clearance_rules::Limit;
use journal_text::{limit_text, routes_text};
use names::NoMemory;
use office_io::write_number;
use office_words::{Entry, Reply};
use std::alloc::{AllocError, Global};
use trip_routes::SharedRoutes;

/// A line for each permit that the history recalls, in order: what the office answered this caller when it applied for that permit
/// once more. `NoMemory` where no memory was left.
pub fn reroute_report(alloc: Global, caller: u32, history: &[Entry]) -> Result<Vec<u8>, NoMemory>
    ensures { IfOk result (λ text. text.items ≡ reroute_text caller history.now) }
{
    let recalled = recalled(alloc, history)?;
    let mut text = Vec::new(alloc);
    let mut left = recalled.as_slice();
    'entries: for entry in history {
        if entry.caller != caller {
            continue;
        }
        let Some((permit, others)) = left.split_first() else {
            return Ok(text);
        };
        add_line(&mut text, *permit, &entry.reply)?;
        left = others;
    }
    Ok(text)
}

// All numbers that the history recalls, in order.
fn recalled(alloc: Global, history: &[Entry]) -> Result<Vec<u32>, NoMemory>
    ensures { IfOk result (λ numbers. numbers.items ≡ recalled_in history.now) }
{
    let mut numbers = Vec::new(alloc);
    'entries: for entry in history {
        let Reply::Posted { recalled, .. } = &entry.reply else {
            continue;
        };
        numbers.extend_from_slice(recalled.as_slice())?;
    }
    Ok(numbers)
}

// The line of a permit.
fn add_line(text: &mut Vec<u8>, permit: u32, reply: &Reply) -> Result<(), NoMemory>
    ensures { OnOk result (text.new.items ≡ text.old.items ++ line_for permit reply.now) }
{
    match reply {
        Reply::Issued {
            number,
            version,
            routes,
        } => add_replaced(text, permit, *number, *version, routes),
        Reply::Refused { version, limit } => add_refused(text, permit, *version, limit),
        _ => Ok(()),
    }
}

// The line of a permit that is replaced.
#[tactic(auto, using(crate::proofs::RecallLines::replaced_adds))]
fn add_replaced(
    text: &mut Vec<u8>,
    permit: u32,
    number: u32,
    version: u32,
    routes: &SharedRoutes,
) -> Result<(), NoMemory>
    ensures { OnOk result
        (text.new.items ≡ text.old.items ++ replaced_line permit number version routes.now) }
{
    let routes = routes_text(*text.allocator(), routes)?;
    add_number(text, "permit ", permit)?;
    add_number(text, " replaced ", number)?;
    add_number(text, " at ", version)?;
    text.extend_from_slice(b" route ")?;
    text.extend_from_slice(routes.as_slice())?;
    text.push(b'\n')?;
    Ok(())
}

// The line of a permit whose trip fails a limit now.
#[tactic(auto, using(crate::proofs::RecallLines::refused_adds))]
fn add_refused(text: &mut Vec<u8>, permit: u32, version: u32, limit: &Limit) -> Result<(), NoMemory>
    ensures { OnOk result
        (text.new.items ≡ text.old.items ++ refused_line permit version limit.now) }
{
    let limit = limit_text(*text.allocator(), limit)?;
    add_number(text, "permit ", permit)?;
    add_number(text, " refused ", version)?;
    text.push(b' ')?;
    text.extend_from_slice(limit.as_slice())?;
    text.push(b'\n')?;
    Ok(())
}

// Some words, and a number.
fn add_number(text: &mut Vec<u8>, words: &str, number: u32) -> Result<(), AllocError>
    ensures { OnOk result (text.new.items ≡ text.old.items ++ (words.now ++ decimal number)) }
{
    text.extend_from_slice(words.as_bytes())?;
    write_number(text, number)
}
