// Calls.

ghost use Rattle.std.specs.Prelude.{◌≡◌, ◌<◌, ◌∷◌, IfSome, IfOk, codes, ℕ, List, Option, length, option_map};
ghost use Rattle.std.specs.Fmt.{decimal};
ghost use Rattle.journal_text.specs.Words.{index, list_text, routes_text};
ghost use Rattle.journal_text.specs.Entries.{application_words, asked_words, call_words, change_words, days_words, what_words};
ghost use Rattle.journal_reader.specs.Words.{Spells, left, list_of, place_of, routes_spelled, seen, word_at};
ghost use Rattle.journal_reader.specs.Fits.{FitsApplication, FitsAsked, FitsCall, FitsChange, FitsDay, FitsIndex, FitsIndices, FitsNumber, FitsWhat};
ghost use Rattle.journal_reader.specs.Readers.{FitsTerm, term_words, application_at, asked_at, call_at, change_at, days_at, held_at, plain_call, submit_at, trip_at, what_at};

use crate::limits::change;
use crate::numbers::is;
use crate::routes::routes_in;
use crate::words::{after, day, named_number, named_place, number, place, places, routes, word};
use office_words::Call;
use permit_days::Day;
use road_graph::SharedNumbers;
use std::alloc::{AllocError, Global};
use trip_analysis::{Application, Proposal, What};
use trip_routes::SharedRoutes;

/// A call.
#[tactic(auto, unfolding(crate::specs::Readers::call_at))]
pub fn call(alloc: Global, rest: &[u8]) -> Result<Option<(Call, &[u8])>, AllocError>
    ensures exact { IfOk result (λ found. seen found ≡ call_at (left rest.now)) }
    ensures sound { IfOk result (Spells call_words FitsCall (left rest.now)) }
{
    let Some((kind, rest)) = word(rest) else {
        return Ok(None);
    };
    if is(kind, "submit") {
        submit(alloc, rest)
    } else if is(kind, "held") {
        held(alloc, rest)
    } else {
        Ok(plain_call(kind, rest))
    }
}

/// The first and the last day.
#[tactic(auto, unfolding(crate::specs::Readers::days_at))]
pub fn days(rest: &[u8]) -> Option<((Day, Day), &[u8])>
    ensures exact { seen result ≡ days_at (left rest.now) }
    ensures sound { Spells term_words FitsTerm (left rest.now) result }
{
    if let Some(rest) = after(rest, "days")
        && let Some((first, rest)) = day(rest)
        && let Some((last, rest)) = day(rest)
    {
        Some(((first, last), rest))
    } else {
        None
    }
}

// A call that holds no list.
#[tactic(auto, unfolding(crate::specs::Readers::plain_call))]
fn plain_call<'a>(kind: &[u8], rest: &'a [u8]) -> Option<(Call, &'a [u8])>
    ensures exact { seen result ≡ plain_call kind.now (left rest.now) }
    ensures sound { Spells call_words FitsCall (kind.now ∷ left rest.now) result }
{
    if is(kind, "snapshot") {
        Some((Call::Snapshot, rest))
    } else if is(kind, "post") {
        let (change, rest) = change(rest)?;
        Some((Call::Post { change }, rest))
    } else if is(kind, "day") {
        let Some((day, rest)) = day(rest) else {
            return None;
        };
        Some((Call::Day { day }, rest))
    } else if is(kind, "surrender") {
        let (number, rest) = number(rest)?;
        Some((Call::Surrender { number }, rest))
    } else if is(kind, "show") {
        let (number, rest) = number(rest)?;
        Some((Call::Show { number }, rest))
    } else {
        None
    }
}

// An application with what was found for it.
#[tactic(auto, unfolding(crate::specs::Readers::submit_at))]
fn submit(alloc: Global, rest: &[u8]) -> Result<Option<(Call, &[u8])>, AllocError>
    ensures exact { IfOk result (λ found. seen found ≡ submit_at (left rest.now)) }
    ensures sound { IfOk result (Spells call_words FitsCall (codes "submit" ∷ left rest.now)) }
{
    if let Some((application, rest)) = application(alloc, rest)?
        && let Some((seen, rest)) = named_number(rest, "seen")
        && let Some((what, rest)) = what(alloc, rest)?
    {
        let call = Call::Submit {
            application,
            proposal: Proposal { seen, what },
        };
        Ok(Some((call, rest)))
    } else {
        Ok(None)
    }
}

// An application for which the office looks itself.
#[tactic(auto, unfolding(crate::specs::Readers::held_at))]
fn held(alloc: Global, rest: &[u8]) -> Result<Option<(Call, &[u8])>, AllocError>
    ensures exact { IfOk result (λ found. seen found ≡ held_at (left rest.now)) }
    ensures sound { IfOk result (Spells call_words FitsCall (codes "held" ∷ left rest.now)) }
{
    let Some((application, rest)) = application(alloc, rest)? else {
        return Ok(None);
    };
    Ok(Some((Call::Held { application }, rest)))
}

// An application: the truck, the nodes where the trip begins and ends, the asked routes and the days.
#[tactic(auto, unfolding(crate::specs::Readers::application_at, crate::specs::Readers::trip_at))]
fn application(alloc: Global, rest: &[u8]) -> Result<Option<(Application, &[u8])>, AllocError>
    ensures exact { IfOk result (λ found. seen found ≡ application_at (left rest.now)) }
    ensures sound { IfOk result (Spells application_words FitsApplication (left rest.now)) }
{
    if let Some((truck, rest)) = named_place(rest, "truck")
        && let Some((from, rest)) = named_place(rest, "from")
        && let Some((to, rest)) = named_place(rest, "to")
        && let Some((asked, rest)) = asked(alloc, rest)?
        && let Some(((first, last), rest)) = days(rest)
    {
        let application = Application::of_fields(truck, from, to, asked, first, last);
        Ok(Some((application, rest)))
    } else {
        Ok(None)
    }
}

// The asked routes, if any are asked for.
#[tactic(auto, unfolding(crate::specs::Readers::asked_at))]
fn asked(alloc: Global, rest: &[u8]) -> Result<Option<(Option<SharedRoutes>, &[u8])>, AllocError>
    ensures exact { IfOk result (λ found. seen found ≡ asked_at (left rest.now)) }
    ensures sound { IfOk result (Spells asked_words FitsAsked (left rest.now)) }
{
    let Some(rest) = after(rest, "asked") else {
        return Ok(None);
    };
    let Some((text, rest)) = word(rest) else {
        return Ok(None);
    };
    if is(text, "none") {
        return Ok(Some((None, rest)));
    }
    let Some(routes) = routes_in(alloc, text)? else {
        return Ok(None);
    };
    Ok(Some((Some(routes), rest)))
}

// What was found.
#[tactic(auto, unfolding(crate::specs::Readers::what_at))]
fn what(alloc: Global, rest: &[u8]) -> Result<Option<(What, &[u8])>, AllocError>
    ensures exact { IfOk result (λ found. seen found ≡ what_at (left rest.now)) }
    ensures sound { IfOk result (Spells what_words FitsWhat (left rest.now)) }
{
    let Some((kind, rest)) = word(rest) else {
        return Ok(None);
    };
    if is(kind, "none") {
        return Ok(Some((What::NotNeeded, rest)));
    }
    if is(kind, "route") {
        let Some((routes, rest)) = routes(alloc, rest)? else {
            return Ok(None);
        };
        return Ok(Some((What::Route(routes), rest)));
    }
    if is(kind, "fails") {
        let Some((segment, rest)) = place(rest) else {
            return Ok(None);
        };
        return Ok(Some((What::Fails { segment }, rest)));
    }
    if is(kind, "cut") {
        let Some((nodes, rest)) = places(alloc, rest)? else {
            return Ok(None);
        };
        return Ok(Some((What::Cut(SharedNumbers::of(alloc, nodes)?), rest)));
    }
    Ok(None)
}
