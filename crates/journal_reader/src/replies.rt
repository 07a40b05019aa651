// Replies.

ghost use Rattle.std.specs.Prelude.{◌≡◌, ◌<◌, ◌∷◌, IfSome, IfOk, codes, ℕ, List, length, option_map};
ghost use Rattle.std.specs.Fmt.{decimal};
ghost use Rattle.journal_text.specs.Words.{index, numbers_words, routes_words};
ghost use Rattle.journal_text.specs.Entries.{cause_words, days_words, limit_words, reply_words, shown_words, standing_words, status_words};
ghost use Rattle.journal_reader.specs.Words.{Spells, left, seen, word_at};
ghost use Rattle.journal_reader.specs.Fits.{FitsCause, FitsDay, FitsIndex, FitsLimit, FitsNumber, FitsNumbers, FitsReply, FitsRoutes, FitsStatus};
ghost use Rattle.journal_reader.specs.Readers.{bare_reply, issued_at, outdated_at, plain_reply, posted_at, refused_at, reply_at, shown_at, standing_at, status_at, whose_at};

use crate::calls::days;
use crate::limits::{cause, limit};
use crate::numbers::is;
use crate::words::{day, named_number, named_numbers, named_place, named_routes, number, word};
use office_words::Reply;
use permit_book::Status;
use std::alloc::{AllocError, Global};

/// A reply.
#[tactic(auto, unfolding(crate::specs::Readers::reply_at))]
pub fn reply(alloc: Global, rest: &[u8]) -> Result<Option<(Reply, &[u8])>, AllocError>
    ensures exact { IfOk result (λ found. seen found ≡ reply_at (left rest.now)) }
    ensures sound { IfOk result (Spells reply_words FitsReply (left rest.now)) }
{
    let Some((kind, rest)) = word(rest) else {
        return Ok(None);
    };
    if is(kind, "issued") {
        issued(alloc, rest)
    } else if is(kind, "posted") {
        posted(alloc, rest)
    } else {
        Ok(plain_reply(kind, rest))
    }
}

// That a permit is issued.
#[tactic(auto, unfolding(crate::specs::Readers::issued_at))]
fn issued(alloc: Global, rest: &[u8]) -> Result<Option<(Reply, &[u8])>, AllocError>
    ensures exact { IfOk result (λ found. seen found ≡ issued_at (left rest.now)) }
    ensures sound { IfOk result (Spells reply_words FitsReply (codes "issued" ∷ left rest.now)) }
{
    if let Some((number, rest)) = number(rest)
        && let Some((version, rest)) = named_number(rest, "at")
        && let Some((routes, rest)) = named_routes(alloc, rest, "route")?
    {
        let reply = Reply::Issued {
            number,
            version,
            routes,
        };
        Ok(Some((reply, rest)))
    } else {
        Ok(None)
    }
}

// That a change is posted.
#[tactic(auto, unfolding(crate::specs::Readers::posted_at))]
fn posted(alloc: Global, rest: &[u8]) -> Result<Option<(Reply, &[u8])>, AllocError>
    ensures exact { IfOk result (λ found. seen found ≡ posted_at (left rest.now)) }
    ensures sound { IfOk result (Spells reply_words FitsReply (codes "posted" ∷ left rest.now)) }
{
    if let Some((version, rest)) = number(rest)
        && let Some((recalled, rest)) = named_numbers(alloc, rest, "recalled")?
    {
        Ok(Some((Reply::Posted { version, recalled }, rest)))
    } else {
        Ok(None)
    }
}

// A reply that holds no list.
#[tactic(auto, unfolding(crate::specs::Readers::plain_reply))]
fn plain_reply<'a>(kind: &[u8], rest: &'a [u8]) -> Option<(Reply, &'a [u8])>
    ensures exact { seen result ≡ plain_reply kind.now (left rest.now) }
    ensures sound { Spells reply_words FitsReply (kind.now ∷ left rest.now) result }
{
    if is(kind, "at") {
        let (version, rest) = number(rest)?;
        Some((Reply::SnapshotAt { version }, rest))
    } else if is(kind, "refused") {
        refused(rest)
    } else if is(kind, "outdated") {
        outdated(rest)
    } else if is(kind, "late") {
        let Some((day, rest)) = day(rest) else {
            return None;
        };
        Some((Reply::Late { day }, rest))
    } else if is(kind, "day") {
        let Some((day, rest)) = day(rest) else {
            return None;
        };
        Some((Reply::DayIs { day }, rest))
    } else if is(kind, "dayback") {
        let Some((day, rest)) = day(rest) else {
            return None;
        };
        Some((Reply::DayBack { day }, rest))
    } else if is(kind, "notinforce") {
        let (status, rest) = status(rest)?;
        Some((Reply::NotInForce { status }, rest))
    } else if is(kind, "shown") {
        shown(rest)
    } else {
        Some((bare_reply(kind)?, rest))
    }
}

// A reply of one word.
#[tactic(auto, unfolding(crate::specs::Readers::bare_reply))]
fn bare_reply(kind: &[u8]) -> Option<Reply>
    ensures exact { result ≡ bare_reply kind.now }
    ensures sound { IfSome result (λ r. ((ws : _) → kind.now ∷ ws ≡ reply_words r ws) × FitsReply r) }
{
    if is(kind, "notneeded") {
        Some(Reply::NotNeeded)
    } else if is(kind, "noroad") {
        Some(Reply::NoRoad)
    } else if is(kind, "range") {
        Some(Reply::OutOfRange)
    } else if is(kind, "surrendered") {
        Some(Reply::Surrendered)
    } else if is(kind, "notyours") {
        Some(Reply::NotYours)
    } else if is(kind, "unknown") {
        Some(Reply::Unknown)
    } else if is(kind, "nomemory") {
        Some(Reply::NoMemory)
    } else {
        None
    }
}

// That a limit fails.
#[tactic(auto, unfolding(crate::specs::Readers::refused_at))]
fn refused(rest: &[u8]) -> Option<(Reply, &[u8])>
    ensures exact { seen result ≡ refused_at (left rest.now) }
    ensures sound { Spells reply_words FitsReply (codes "refused" ∷ left rest.now) result }
{
    if let Some((version, rest)) = number(rest)
        && let Some((limit, rest)) = limit(rest)
    {
        Some((Reply::Refused { version, limit }, rest))
    } else {
        None
    }
}

// That a proposal is outdated.
#[tactic(auto, unfolding(crate::specs::Readers::outdated_at))]
fn outdated(rest: &[u8]) -> Option<(Reply, &[u8])>
    ensures exact { seen result ≡ outdated_at (left rest.now) }
    ensures sound { Spells reply_words FitsReply (codes "outdated" ∷ left rest.now) result }
{
    if let Some((version, rest)) = number(rest)
        && let Some((cause, rest)) = cause(rest)
    {
        Some((Reply::Outdated { version, cause }, rest))
    } else {
        None
    }
}

// What a permit says: whose it is, its days, the versions that it was issued at and found at, and how it stands.
#[tactic(auto, unfolding(crate::specs::Readers::shown_at, crate::specs::Readers::whose_at, crate::specs::Readers::standing_at))]
fn shown(rest: &[u8]) -> Option<(Reply, &[u8])>
    ensures exact { seen result ≡ shown_at (left rest.now) }
    ensures sound { Spells reply_words FitsReply (codes "shown" ∷ left rest.now) result }
{
    if let Some((number, rest)) = number(rest)
        && let Some((caller, rest)) = named_place(rest, "caller")
        && let Some((truck, rest)) = named_place(rest, "truck")
        && let Some(((first, last), rest)) = days(rest)
        && let Some((version, rest)) = named_number(rest, "at")
        && let Some((seen, rest)) = named_number(rest, "seen")
        && let Some((status, rest)) = status(rest)
    {
        let reply = Reply::Shown {
            number,
            caller,
            truck,
            first,
            last,
            version,
            seen,
            status,
        };
        Some((reply, rest))
    } else {
        None
    }
}

// How a permit stands.
#[tactic(auto, unfolding(crate::specs::Readers::status_at))]
fn status(rest: &[u8]) -> Option<(Status, &[u8])>
    ensures exact { seen result ≡ status_at (left rest.now) }
    ensures sound { Spells status_words FitsStatus (left rest.now) result }
{
    let (kind, rest) = word(rest)?;
    if is(kind, "inforce") {
        Some((Status::InForce, rest))
    } else if is(kind, "recalled") {
        let (version, rest) = number(rest)?;
        Some((Status::Recalled { version }, rest))
    } else if is(kind, "surrendered") {
        Some((Status::Surrendered, rest))
    } else if is(kind, "expired") {
        Some((Status::Expired, rest))
    } else {
        None
    }
}
