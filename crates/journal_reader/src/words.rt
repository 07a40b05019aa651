// Words that stand next in what is left of a line, with what is left behind them.
//
// A day, a fraction or what holds one, beside what is left, is taken by `if let` or `let .. else`: the proof has no rule for
// `?` there.

ghost use Rattle.std.specs.Prelude.{◌≡◌, ◌≢◌, ◌<◌, ◌^◌, ◌∷◌, IfSome, IfOk, IsTrue, codes, ℕ, List, get_or, length, option_map};
ghost use Rattle.std.specs.Fmt.{decimal};
ghost use Rattle.influence_line.specs.Fractions.{ratio_text};
ghost use Rattle.journal_text.specs.Words.{index, list_text, numbers_words, routes_words};
ghost use Rattle.journal_reader.specs.Words.{Spells, parts_seen, after_word, day_at, left, list_of, number32, read_number, number_spelled, place_at, place_of, routes_spelled, seen, word_at};
ghost use Rattle.journal_reader.specs.Fits.{FitsDay, FitsIndex, FitsIndices, FitsNumber, FitsNumbers, FitsRatio, FitsRoutes};
ghost use Rattle.journal_reader.specs.Readers.{fraction_at, list_at, list_words, lists_words, named_number, named_place, named_routes, numbers_at, routes_at};

use crate::numbers::{day_in, fraction_in, indices_in, is, next_number, next_place, numbers_in};
use crate::parts::part;
use crate::routes::routes_in;
use influence_line::Frac;
use permit_days::Day;
use road_graph::Numbers;
use std::alloc::{AllocError, Global};
use trip_routes::SharedRoutes;

/// The next word.
pub fn word(rest: &[u8]) -> Option<(&[u8], &[u8])>
    ensures exact { parts_seen 32 result ≡ word_at (left rest.now) }
    ensures sound { IfSome result (λ x. left rest.now ≡ x.0.now ∷ left x.1.now) }
{
    part(rest, b' ')
}

/// What follows this word. A text that begins with it and a space, or with it alone, needs no search for the word's end.
#[inline(always)]
#[tactic(auto, using(crate::proofs::Pieces::after_same))]
pub fn after<'a>(rest: &'a [u8], text: &str) -> Option<&'a [u8]>
    ensures exact { option_map (λ x. left x.now) result ≡ after_word text.now (left rest.now) }
    ensures sound { IfSome result (λ x. left rest.now ≡ text.now ∷ left x.now) }
{
    if let Some(more) = behind(rest, text) {
        return Some(more);
    }
    after_any(rest, text)
}

/// A number.
#[tactic(auto, unfolding(crate::specs::Words::read_number))]
pub fn number(rest: &[u8]) -> Option<(u32, &[u8])>
    ensures exact { seen result ≡ read_number (left rest.now) }
    ensures sound { Spells (λ n ws. decimal n ∷ ws) FitsNumber (left rest.now) result }
{
    let (_, n, rest) = next_number(rest, b' ')?;
    Some((n?, rest))
}

/// An index.
#[tactic(auto, unfolding(crate::specs::Words::place_at))]
pub fn place(rest: &[u8]) -> Option<(u32, &[u8])>
    ensures exact { seen result ≡ place_at (left rest.now) }
    ensures sound { Spells (λ i ws. index i ∷ ws) FitsIndex (left rest.now) result }
{
    let (_, i, rest) = next_place(rest, b' ')?;
    Some((i?, rest))
}

/// A day.
#[tactic(auto, unfolding(crate::specs::Words::day_at))]
pub fn day(rest: &[u8]) -> Option<(Day, &[u8])>
    ensures exact { seen result ≡ day_at (left rest.now) }
    ensures sound { Spells (λ day ws. day ∷ ws) FitsDay (left rest.now) result }
{
    let (word, rest) = word(rest)?;
    Some((day_in(word)?, rest))
}

/// A fraction in lowest terms.
#[tactic(auto, unfolding(crate::specs::Readers::fraction_at))]
pub fn fraction(rest: &[u8]) -> Option<(Frac, &[u8])>
    ensures exact { seen result ≡ fraction_at (left rest.now) }
    ensures sound { Spells (λ f ws. ratio_text f ∷ ws) FitsRatio (left rest.now) result }
{
    let (word, rest) = word(rest)?;
    Some((fraction_in(word)?, rest))
}

/// A word and a number.
#[tactic(auto, unfolding(crate::specs::Readers::named_number))]
pub fn named_number<'a>(rest: &'a [u8], text: &str) -> Option<(u32, &'a [u8])>
    ensures exact { seen result ≡ named_number text.now (left rest.now) }
    ensures sound { Spells (λ n ws. text.now ∷ decimal n ∷ ws) FitsNumber (left rest.now) result }
{
    number(after(rest, text)?)
}

/// A word and an index.
#[tactic(auto, unfolding(crate::specs::Readers::named_place))]
pub fn named_place<'a>(rest: &'a [u8], text: &str) -> Option<(u32, &'a [u8])>
    ensures exact { seen result ≡ named_place text.now (left rest.now) }
    ensures sound { Spells (λ i ws. text.now ∷ index i ∷ ws) FitsIndex (left rest.now) result }
{
    place(after(rest, text)?)
}

/// A list of indices.
#[tactic(auto, unfolding(crate::specs::Readers::list_at))]
pub fn places(alloc: Global, rest: &[u8]) -> Result<Option<(Numbers, &[u8])>, AllocError>
    ensures exact { IfOk result (λ found. seen found ≡ list_at (left rest.now)) }
    ensures sound { IfOk result (Spells list_words FitsIndices (left rest.now)) }
{
    if let Some((text, rest)) = word(rest)
        && let Some(list) = indices_in(alloc, text)?
    {
        Ok(Some((list, rest)))
    } else {
        Ok(None)
    }
}

/// Routes.
#[tactic(auto, unfolding(crate::specs::Readers::routes_at))]
pub fn routes(alloc: Global, rest: &[u8]) -> Result<Option<(SharedRoutes, &[u8])>, AllocError>
    ensures exact { IfOk result (λ found. seen found ≡ routes_at (left rest.now)) }
    ensures sound { IfOk result (Spells lists_words FitsRoutes (left rest.now)) }
{
    if let Some((text, rest)) = word(rest)
        && let Some(routes) = routes_in(alloc, text)?
    {
        Ok(Some((routes, rest)))
    } else {
        Ok(None)
    }
}

/// A word and routes.
#[tactic(auto, unfolding(crate::specs::Readers::named_routes))]
pub fn named_routes<'a>(
    alloc: Global,
    rest: &'a [u8],
    text: &str,
) -> Result<Option<(SharedRoutes, &'a [u8])>, AllocError>
    ensures exact { IfOk result (λ found. seen found ≡ named_routes text.now (left rest.now)) }
    ensures sound { IfOk result (Spells (routes_words text.now) FitsRoutes (left rest.now)) }
{
    let Some(rest) = after(rest, text) else {
        return Ok(None);
    };
    routes(alloc, rest)
}

/// A word and a list of numbers.
#[tactic(auto, unfolding(crate::specs::Readers::numbers_at))]
pub fn named_numbers<'a>(
    alloc: Global,
    rest: &'a [u8],
    text: &str,
) -> Result<Option<(Numbers, &'a [u8])>, AllocError>
    ensures exact { IfOk result (λ found. seen found ≡ numbers_at text.now (left rest.now)) }
    ensures sound { IfOk result (Spells (numbers_words text.now) FitsNumbers (left rest.now)) }
{
    if let Some(rest) = after(rest, text)
        && let Some((text, rest)) = word(rest)
        && let Some(list) = numbers_in(alloc, text)?
    {
        Ok(Some((list, rest)))
    } else {
        Ok(None)
    }
}

// What is left behind this word, where its end is seen at once.
#[inline(always)]
#[tactic(auto, using(crate::proofs::Pieces::word_behind))]
fn behind<'a>(rest: &'a [u8], text: &str) -> Option<&'a [u8]>
    ensures { IfSome result (λ x. left rest.now ≡ text.now ∷ left x.now) }
{
    if let Some((_, words)) = rest.split_first()
        && let Some(more) = words.strip_prefix(text.as_bytes())
        && is_word(text)
        && (more.is_empty() || more[0] == b' ')
    {
        Some(more)
    } else {
        None
    }
}

// Whether no space is in a text.
#[inline(always)]
fn is_word(text: &str) -> bool
    ensures { IsTrue result → (k : ℕ) → k < length text.now → get_or text.now k 0 ≢ 32 }
{
    'bytes: for b in text.as_bytes() {
        if *b == b' ' {
            return false;
        }
    }
    true
}

// What follows this word, which may also be none of one word.
#[cold]
#[inline(never)]
fn after_any<'a>(rest: &'a [u8], text: &str) -> Option<&'a [u8]>
    ensures exact { option_map (λ x. left x.now) result ≡ after_word text.now (left rest.now) }
    ensures sound { IfSome result (λ x. left rest.now ≡ text.now ∷ left x.now) }
{
    if let Some((word, rest)) = word(rest)
        && is(word, text)
    {
        Some(rest)
    } else {
        None
    }
}
