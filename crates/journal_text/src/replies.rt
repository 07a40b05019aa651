// The words of replies.

ghost use Rattle.std.specs.Prelude.{◌≡◌, ◌∷◌, OnOk, codes};
ghost use Rattle.std.specs.Fmt.{decimal};
ghost use Rattle.journal_text.specs.Words.{Adds, index, list_text};
ghost use Rattle.journal_text.specs.Entries.{reply_words, shown_words, standing_words, status_words};

use crate::calls::days;
use crate::limits::{cause, limit};
use crate::lists::LastList;
use crate::words::{named, named_day, named_numbers, named_place, named_routes, word};
use clearance_rules::Limit;
use office_words::{Cause, Reply};
use permit_book::Status;
use std::alloc::AllocError;
use trip_routes::SharedRoutes;

/// A reply. The text of a list is that of the last one, where it has the same places.
pub fn reply<'a>(
    out: &mut Vec<u8>,
    last: &mut LastList<'a>,
    reply: &'a Reply,
) -> Result<(), AllocError>
    ensures { OnOk result (Adds out.old.items out.new.items (reply_words reply.now)) }
{
    match reply {
        Reply::SnapshotAt { version } => named(out, "at", *version),
        Reply::Issued {
            number,
            version,
            routes,
        } => issued(out, last, *number, *version, routes),
        Reply::Refused { version, limit } => refused(out, *version, limit),
        Reply::Outdated { version, cause } => outdated(out, *version, cause),
        Reply::NotNeeded => word(out, "notneeded"),
        Reply::NoRoad => word(out, "noroad"),
        Reply::Late { day: kept } => named_day(out, "late", *kept),
        Reply::Posted { version, recalled } => posted(out, *version, recalled.as_slice()),
        Reply::OutOfRange => word(out, "range"),
        Reply::DayIs { day: new } => named_day(out, "day", *new),
        Reply::DayBack { day: kept } => named_day(out, "dayback", *kept),
        Reply::Surrendered => word(out, "surrendered"),
        Reply::NotYours => word(out, "notyours"),
        Reply::Unknown => word(out, "unknown"),
        Reply::NotInForce { status } => not_in_force(out, *status),
        Reply::Shown {
            number,
            caller,
            truck,
            first,
            last,
            version,
            seen,
            status: now,
        } => {
            shown(out, *number, *caller, *truck)?;
            days(out, *first, *last)?;
            standing(out, *version, *seen, *now)
        }
        Reply::Full { .. } => Ok(()),
        Reply::NoMemory => word(out, "nomemory"),
    }
}

// That a permit is issued.
fn issued<'a>(
    out: &mut Vec<u8>,
    last: &mut LastList<'a>,
    number: u32,
    version: u32,
    routes: &'a SharedRoutes,
) -> Result<(), AllocError>
    ensures { OnOk result (Adds out.old.items out.new.items
        (reply_words (Reply.Issued number version routes.now))) }
{
    named(out, "issued", number)?;
    named(out, "at", version)?;
    named_routes(out, last, "route", routes)
}

// That a limit fails.
fn refused(out: &mut Vec<u8>, version: u32, why: &Limit) -> Result<(), AllocError>
    ensures { OnOk result (Adds out.old.items out.new.items (reply_words (Reply.Refused version why.now))) }
{
    named(out, "refused", version)?;
    limit(out, why)
}

// That a proposal is outdated.
fn outdated(out: &mut Vec<u8>, version: u32, why: &Cause) -> Result<(), AllocError>
    ensures { OnOk result (Adds out.old.items out.new.items (reply_words (Reply.Outdated version why.now))) }
{
    named(out, "outdated", version)?;
    cause(out, why)
}

// That a change is posted.
fn posted(out: &mut Vec<u8>, version: u32, recalled: &[u32]) -> Result<(), AllocError>
    ensures { OnOk result (Adds out.old.items out.new.items
        (reply_words (Reply.Posted version recalled.now))) }
{
    named(out, "posted", version)?;
    named_numbers(out, "recalled", recalled)
}

// That a permit is not in force.
fn not_in_force(out: &mut Vec<u8>, now: Status) -> Result<(), AllocError>
    ensures { OnOk result (Adds out.old.items out.new.items (reply_words (Reply.NotInForce now))) }
{
    word(out, "notinforce")?;
    status(out, now)
}

// Whose permit is shown.
fn shown(out: &mut Vec<u8>, number: u32, caller: u32, truck: u32) -> Result<(), AllocError>
    ensures { OnOk result (Adds out.old.items out.new.items (shown_words number caller truck)) }
{
    named(out, "shown", number)?;
    named_place(out, "caller", caller)?;
    named_place(out, "truck", truck)
}

// The versions that a permit was issued at and found at, and how it stands.
fn standing(out: &mut Vec<u8>, version: u32, seen: u32, now: Status) -> Result<(), AllocError>
    ensures { OnOk result (Adds out.old.items out.new.items (standing_words version seen now)) }
{
    named(out, "at", version)?;
    named(out, "seen", seen)?;
    status(out, now)
}

// How a permit stands.
fn status(out: &mut Vec<u8>, status: Status) -> Result<(), AllocError>
    ensures { OnOk result (Adds out.old.items out.new.items (status_words status)) }
{
    match status {
        Status::InForce => word(out, "inforce"),
        Status::Recalled { version } => named(out, "recalled", version),
        Status::Surrendered => word(out, "surrendered"),
        Status::Expired => word(out, "expired"),
    }
}
