// The routes that a word spells.

ghost use Rattle.std.specs.Prelude.{◌≡◌, IfOk};
ghost use Rattle.journal_text.specs.Words.{routes_text};
ghost use Rattle.journal_reader.specs.Words.{IsTextOf, routes_spelled};
ghost use Rattle.journal_reader.specs.Fits.{FitsRoutes};

use crate::numbers::indices_in;
use crate::parts::{first_part, part};
use std::alloc::{AllocError, Global};
use trip_routes::{Routes, RoutesRefusal, SharedRoutes};

/// The routes that a word spells, if there are eight at most.
#[tactic(auto, unfolding(crate::specs::Words::routes_spelled))]
pub fn routes_in(alloc: Global, word: &[u8]) -> Result<Option<SharedRoutes>, AllocError>
    ensures exact { IfOk result (λ found. found ≡ routes_spelled word.now) }
    ensures sound { IfOk result (IsTextOf routes_text FitsRoutes word.now) }
{
    let (first, mut rest) = first_part(word, b'/');
    let Some(route) = indices_in(alloc, first)? else {
        return Ok(None);
    };
    let mut routes = Routes::one(route);
    'parts: while let Some((next, more)) = part(rest, b'/') {
        let Some(route) = indices_in(alloc, next)? else {
            return Ok(None);
        };
        match routes.push(&route) {
            Ok(()) => rest = more,
            Err(RoutesRefusal::Full) => return Ok(None),
            Err(RoutesRefusal::NoMemory) => return Err(AllocError),
        }
    }
    let shared = SharedRoutes::of(alloc, routes)?;
    Ok(Some(shared))
}
