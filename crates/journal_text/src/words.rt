// Words that are added to a text, each behind a space.

ghost use Rattle.std.specs.Prelude.{◌≡◌, ◌<◌, ◌+◌, ◌∷◌, ◌++◌, ◌%◌, OnOk, codes};
ghost use Rattle.std.specs.Fmt.{decimal};
ghost use Rattle.influence_line.specs.Fractions.{ratio_text};
ghost use Rattle.journal_text.specs.Words.{Adds, group, index, list_text, numbers_words, routes_text, routes_words};

use crate::lists::LastList;
use influence_line::Frac;
use office_io::write_number;
use permit_days::Day;
use std::alloc::AllocError;
use trip_routes::SharedRoutes;

/// A word.
#[inline(always)]
#[tactic(auto, using(crate::proofs::Pieces::adds_word))]
pub fn word(out: &mut Vec<u8>, text: &str) -> Result<(), AllocError>
    ensures { OnOk result (Adds out.old.items out.new.items (λ ws. text.now ∷ ws)) }
{
    out.push(b' ')?;
    out.extend_from_slice(text.as_bytes())?;
    Ok(())
}

/// A day.
#[tactic(auto, using(crate::proofs::Pieces::adds_word))]
pub fn day(out: &mut Vec<u8>, day: Day) -> Result<(), AllocError>
    ensures { OnOk result (Adds out.old.items out.new.items (λ ws. day ∷ ws)) }
{
    out.push(b' ')?;
    out.extend_from_slice(&day.text())?;
    Ok(())
}

/// The digits of a number.
pub fn digits(out: &mut Vec<u8>, n: u64) -> Result<(), AllocError>
    ensures { OnOk result (out.new.items ≡ out.old.items ++ decimal n) }
{
    write_number(out, n)
}

/// The digits of an index, counted from 1.
pub fn index_digits(out: &mut Vec<u8>, i: u32) -> Result<(), AllocError>
    ensures { OnOk result (out.new.items ≡ out.old.items ++ index i) }
{
    digits(out, u64::from(i) + 1)
}

/// A number.
#[inline(always)]
#[tactic(auto, using(crate::proofs::Pieces::adds_spaced))]
pub fn number(out: &mut Vec<u8>, n: u32) -> Result<(), AllocError>
    ensures { OnOk result (Adds out.old.items out.new.items (λ ws. decimal n ∷ ws)) }
{
    digits_behind(out, b' ', u64::from(n))
}

/// An index, counted from 1.
#[inline(always)]
#[tactic(auto, using(crate::proofs::Pieces::adds_spaced))]
pub fn place(out: &mut Vec<u8>, i: u32) -> Result<(), AllocError>
    ensures { OnOk result (Adds out.old.items out.new.items (λ ws. index i ∷ ws)) }
{
    index_behind(out, b' ', i)
}

/// A word and a number.
#[inline(always)]
pub fn named(out: &mut Vec<u8>, text: &str, n: u32) -> Result<(), AllocError>
    ensures { OnOk result (Adds out.old.items out.new.items (λ ws. text.now ∷ decimal n ∷ ws)) }
{
    word(out, text)?;
    number(out, n)
}

/// A word and a day.
#[inline(always)]
pub fn named_day(out: &mut Vec<u8>, text: &str, kept: Day) -> Result<(), AllocError>
    ensures { OnOk result (Adds out.old.items out.new.items (λ ws. text.now ∷ kept ∷ ws)) }
{
    word(out, text)?;
    day(out, kept)
}

/// A word and an index.
#[inline(always)]
pub fn named_place(out: &mut Vec<u8>, text: &str, i: u32) -> Result<(), AllocError>
    ensures { OnOk result (Adds out.old.items out.new.items (λ ws. text.now ∷ index i ∷ ws)) }
{
    word(out, text)?;
    place(out, i)
}

/// A word and a fraction in lowest terms.
pub fn named_fraction(out: &mut Vec<u8>, text: &str, f: Frac) -> Result<(), AllocError>
    ensures { OnOk result (Adds out.old.items out.new.items (λ ws. text.now ∷ ratio_text f ∷ ws)) }
{
    word(out, text)?;
    wide_digits_behind(out, b' ', f.num())?;
    wide_digits_behind(out, b'/', f.den())
}

/// A word and a group of axles, by its first and its last.
pub fn named_group(out: &mut Vec<u8>, text: &str, i: u32, j: u32) -> Result<(), AllocError>
    ensures { OnOk result (Adds out.old.items out.new.items (λ ws. text.now ∷ group i j ∷ ws)) }
{
    word(out, text)?;
    index_behind(out, b' ', i)?;
    index_behind(out, b'-', j)
}

/// A word and a list of numbers.
pub fn named_numbers(out: &mut Vec<u8>, text: &str, numbers: &[u32]) -> Result<(), AllocError>
    ensures { OnOk result (Adds out.old.items out.new.items (numbers_words text.now numbers.now)) }
{
    word(out, text)?;
    let Some((first, rest)) = numbers.split_first() else {
        out.extend_from_slice(b" -")?;
        return Ok(());
    };
    digits_behind(out, b' ', u64::from(*first))?;
    'numbers: for n in rest {
        digits_behind(out, b',', u64::from(*n))?;
    }
    Ok(())
}

/// A word and routes.
pub fn named_routes<'a>(
    out: &mut Vec<u8>,
    last: &mut LastList<'a>,
    text: &str,
    routes: &'a SharedRoutes,
) -> Result<(), AllocError>
    ensures { OnOk result (Adds out.old.items out.new.items (routes_words text.now routes.now)) }
{
    word(out, text)?;
    route_lists(out, last, routes)
}

/// The lists of routes with slashes between them, behind a space.
pub fn route_lists<'a>(
    out: &mut Vec<u8>,
    last: &mut LastList<'a>,
    routes: &'a SharedRoutes,
) -> Result<(), AllocError>
    ensures { OnOk result (out.new.items ≡ out.old.items ++ (32 ∷ routes_text routes.now)) }
{
    let count = routes.len();
    last.print(out, b' ', routes.route(0))?;
    'routes: for i in 1..count {
        last.print(out, b'/', routes.route(i))?;
    }
    Ok(())
}

/// A byte, and the indices of a list, counted from 1.
pub fn place_list(out: &mut Vec<u8>, before: u8, places: &[u32]) -> Result<(), AllocError>
    ensures { OnOk result (out.new.items ≡ out.old.items ++ (before ∷ list_text index places.now)) }
{
    let Some((first, rest)) = places.split_first() else {
        out.extend_from_slice(&[before, b'-'])?;
        return Ok(());
    };
    index_behind(out, before, *first)?;
    'places: for i in rest {
        index_behind(out, b',', *i)?;
    }
    Ok(())
}

// A byte, and the digits of an index, counted from 1.
#[inline(always)]
fn index_behind(out: &mut Vec<u8>, before: u8, i: u32) -> Result<(), AllocError>
    ensures { OnOk result (out.new.items ≡ out.old.items ++ (before ∷ index i)) }
{
    digits_behind(out, before, u64::from(i) + 1)
}

// A byte, and the digits of a number.
fn digits_behind(out: &mut Vec<u8>, before: u8, n: u64) -> Result<(), AllocError>
    ensures { OnOk result (out.new.items ≡ out.old.items ++ (before ∷ decimal n)) }
{
    if n < 10_000 {
        return four_digits_behind(out, before, n as u32);
    }
    out.push(before)?;
    digits(out, n)
}

// The same of at most four digits. They go out in one piece, whose length the compiler knows.
#[inline(always)]
#[tactic(auto, using(crate::proofs::Digits::one, crate::proofs::Digits::two, crate::proofs::Digits::three, crate::proofs::Digits::four))]
fn four_digits_behind(out: &mut Vec<u8>, before: u8, n: u32) -> Result<(), AllocError>
    requires { n < 10000 }
    ensures { OnOk result (out.new.items ≡ out.old.items ++ (before ∷ decimal n)) }
{
    let tens = n / 10;
    let hundreds = tens / 10;
    if n < 10 {
        out.extend_from_slice(&[before, last_digit(n)])?;
    } else if n < 100 {
        out.extend_from_slice(&[before, last_digit(tens), last_digit(n)])?;
    } else if n < 1000 {
        out.extend_from_slice(&[
            before,
            last_digit(hundreds),
            last_digit(tens),
            last_digit(n),
        ])?;
    } else {
        out.extend_from_slice(&[
            before,
            last_digit(hundreds / 10),
            last_digit(hundreds),
            last_digit(tens),
            last_digit(n),
        ])?;
    }
    Ok(())
}

// The digit of the ones.
#[inline(always)]
fn last_digit(n: u32) -> u8
    ensures { result ≡ 48 + n % 10 }
{
    b'0' + (n % 10) as u8
}

// A byte, and the digits of a wide number.
fn wide_digits_behind(out: &mut Vec<u8>, before: u8, n: u128) -> Result<(), AllocError>
    ensures { OnOk result (out.new.items ≡ out.old.items ++ (before ∷ decimal n)) }
{
    out.push(before)?;
    write_number(out, n)
}
