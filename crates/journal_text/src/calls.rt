// The words of calls.

ghost use Rattle.std.specs.Prelude.{◌≡◌, ◌∷◌, OnOk, codes};
ghost use Rattle.std.specs.Fmt.{decimal};
ghost use Rattle.journal_text.specs.Words.{Adds, index, list_text};
ghost use Rattle.journal_text.specs.Entries.{application_words, asked_words, call_words, days_words, what_words};

use crate::limits::change;
use crate::lists::LastList;
use crate::words::{day, named, named_place, named_routes, word};
use office_words::Call;
use permit_days::Day;
use std::alloc::AllocError;
use trip_analysis::{Application, What};

/// A call. The text of a list is that of the last one, where it has the same places.
pub fn call<'a>(
    out: &mut Vec<u8>,
    last: &mut LastList<'a>,
    call: &'a Call,
) -> Result<(), AllocError>
    ensures { OnOk result (Adds out.old.items out.new.items (call_words call.now)) }
{
    match call {
        Call::Snapshot => word(out, "snapshot"),
        Call::Submit {
            application: asked,
            proposal,
        } => {
            word(out, "submit")?;
            application(out, last, asked)?;
            named(out, "seen", proposal.seen)?;
            what(out, last, &proposal.what)
        }
        Call::Held { application: asked } => {
            word(out, "held")?;
            application(out, last, asked)
        }
        Call::Post { change: posted } => {
            word(out, "post")?;
            change(out, posted)
        }
        Call::Day { day: new } => {
            word(out, "day")?;
            day(out, *new)
        }
        Call::Surrender { number } => named(out, "surrender", *number),
        Call::Show { number } => named(out, "show", *number),
    }
}

/// The first and the last day.
pub fn days(out: &mut Vec<u8>, first: Day, last: Day) -> Result<(), AllocError>
    ensures { OnOk result (Adds out.old.items out.new.items (days_words first last)) }
{
    word(out, "days")?;
    day(out, first)?;
    day(out, last)
}

// An application.
fn application<'a>(
    out: &mut Vec<u8>,
    last: &mut LastList<'a>,
    application: &'a Application,
) -> Result<(), AllocError>
    ensures { OnOk result (Adds out.old.items out.new.items (application_words application.now)) }
{
    named_place(out, "truck", application.truck())?;
    named_place(out, "from", application.from())?;
    named_place(out, "to", application.to())?;
    asked(out, last, application)?;
    days(out, application.first(), application.last())
}

// The asked routes, if any are asked for.
fn asked<'a>(
    out: &mut Vec<u8>,
    last: &mut LastList<'a>,
    application: &'a Application,
) -> Result<(), AllocError>
    ensures { OnOk result (Adds out.old.items out.new.items (asked_words application.now.asked)) }
{
    match application.asked() {
        None => {
            word(out, "asked")?;
            word(out, "none")
        }
        Some(routes) => named_routes(out, last, "asked", routes),
    }
}

// What was found.
fn what<'a>(out: &mut Vec<u8>, last: &mut LastList<'a>, what: &'a What) -> Result<(), AllocError>
    ensures { OnOk result (Adds out.old.items out.new.items (what_words what.now)) }
{
    match what {
        What::NotNeeded => word(out, "none"),
        What::Route(routes) => named_routes(out, last, "route", routes),
        What::Fails { segment } => named_place(out, "fails", *segment),
        What::Cut(nodes) => {
            word(out, "cut")?;
            last.print(out, b' ', nodes.as_slice())
        }
    }
}
