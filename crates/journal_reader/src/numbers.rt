// What single words spell.

ghost use Rattle.std.specs.Prelude.{◌≡◌, ◌<◌, ◌≤◌, ◌^◌, ◌⊎◌, ◌∷◌, IfSome, IfOk, IsTrue, min, ℕ, List, ◌++◌, length, option_map, Some, get_or, take};
ghost use Rattle.std.specs.Fmt.{decimal};
ghost use Rattle.std.specs.Str.{bytes_eq};
ghost use Rattle.std.specs.Str.Parse.{AllDigits};
ghost use Rattle.influence_line.specs.Fractions.{ratio_text};
ghost use Rattle.journal_text.specs.Words.{group, index, list_text};
ghost use Rattle.journal_reader.specs.Words.{IsTextOf, all_of, day_spelled, fraction_of, group_of, list_of, number32, number_spelled, pair_of, parts, parts_left, place_of, value_from, wide_of, word_at};
ghost use Rattle.journal_reader.specs.Fits.{FitsDay, FitsIndex, FitsIndices, FitsNumber, FitsNumbers, FitsRatio};

use crate::parts::{first_part, is_done, part};
use influence_line::Frac;
use office_io::spells;
use permit_days::Day;
use road_graph::Numbers;
use std::alloc::{AllocError, Global};

/// Whether a word is this one.
pub fn is(word: &[u8], text: &str) -> bool
    ensures { result ≡ bytes_eq word.now text.now }
{
    word == text.as_bytes()
}

/// The number that a word spells. Of its digits it makes a number, and at most the greatest that there is.
#[tactic(auto, using(crate::proofs::Numerals::value_more))]
pub fn number_in(word: &[u8]) -> Option<u32>
    ensures exact { result ≡ number_spelled (2 ^ 32) word.now }
    ensures sound { IfSome result (λ n. word.now ≡ decimal n) }
{
    let mut value: u32 = 0;
    'digits: for b in word {
        value = value
            .saturating_mul(10)
            .saturating_add(u32::from(b.saturating_sub(b'0')));
    }
    if spells(word, value) {
        Some(value)
    } else {
        None
    }
}

/// The next part, the number that it spells, and what is left behind it. The separator is no digit.
#[inline(always)]
pub fn next_number(rest: &[u8], sep: u8) -> Option<(&[u8], Option<u32>, &[u8])>
    requires { sep < 48 }
    ensures exact { option_map (λ x. (x.0.now, parts_left sep x.2.now)) result
        ≡ word_at (parts_left sep rest.now) }
    ensures part { IfSome result (λ x. parts_left sep rest.now ≡ x.0.now ∷ parts_left sep x.2.now) }
    ensures number { IfSome result (λ x. x.1 ≡ number32 x.0.now) }
    ensures sound { IfSome result (λ x. IfSome x.1 (λ n. x.0.now ≡ decimal n)) }
    ensures shorter { IfSome result (λ x. length x.2.now < length rest.now) }
{
    if rest.is_empty() {
        None
    } else {
        Some(first_number(&rest[1..], sep))
    }
}

/// The next part, the index that it spells, counted from 1, and what is left behind it. The separator is no digit.
#[inline(always)]
#[tactic(auto, unfolding(crate::specs::Words::place_of))]
pub fn next_place(rest: &[u8], sep: u8) -> Option<(&[u8], Option<u32>, &[u8])>
    requires { sep < 48 }
    ensures exact { option_map (λ x. (x.0.now, parts_left sep x.2.now)) result
        ≡ word_at (parts_left sep rest.now) }
    ensures part { IfSome result (λ x. parts_left sep rest.now ≡ x.0.now ∷ parts_left sep x.2.now) }
    ensures place { IfSome result (λ x. x.1 ≡ place_of x.0.now) }
    ensures sound { IfSome result (λ x. IsTextOf index FitsIndex x.0.now x.1) }
    ensures shorter { IfSome result (λ x. length x.2.now < length rest.now) }
{
    if rest.is_empty() {
        None
    } else {
        Some(first_place(&rest[1..], sep))
    }
}

/// The first part, the index that it spells, counted from 1, and what is left behind it. The separator is no digit.
#[inline(always)]
#[tactic(auto, unfolding(crate::specs::Words::place_of))]
pub fn first_place(text: &[u8], sep: u8) -> (&[u8], Option<u32>, &[u8])
    requires { sep < 48 }
    ensures parts { parts sep text.now ≡ result.0.now ∷ parts_left sep result.2.now }
    ensures place { result.1 ≡ place_of result.0.now }
    ensures sound { IsTextOf index FitsIndex result.0.now result.1 }
    ensures shorter { length result.2.now ≤ length text.now }
{
    let (word, n, rest) = first_number(text, sep);
    let Some(n) = n else {
        return (word, None, rest);
    };
    if 1 <= n && n <= 65536 {
        (word, Some(n - 1), rest)
    } else {
        (word, None, rest)
    }
}

/// The index that a word spells, counted from 1.
#[tactic(auto, unfolding(crate::specs::Words::place_of))]
pub fn place_in(word: &[u8]) -> Option<u32>
    ensures exact { result ≡ place_of word.now }
    ensures sound { IsTextOf index FitsIndex word.now result }
{
    if let Some(n) = number_in(word)
        && 1 <= n
        && n <= 65536
    {
        Some(n - 1)
    } else {
        None
    }
}

/// The day that a word spells.
#[tactic(auto, unfolding(crate::specs::Words::day_spelled))]
pub fn day_in(word: &[u8]) -> Option<Day>
    ensures exact { result ≡ day_spelled word.now }
    ensures sound { IsTextOf (λ day. day) FitsDay word.now result }
{
    Day::read(word).ok()
}

/// The fraction in lowest terms that a word spells.
#[tactic(auto, unfolding(crate::specs::Words::pair_of, crate::specs::Words::fraction_of))]
pub fn fraction_in(word: &[u8]) -> Option<Frac>
    ensures exact { result ≡ fraction_of word.now }
    ensures sound { IsTextOf ratio_text FitsRatio word.now result }
{
    let (num, rest) = first_part(word, b'/');
    if let Some((den, rest)) = part(rest, b'/')
        && let Some(num) = wide_in(num)
        && let Some(den) = wide_in(den)
        && is_done(rest, b'/')
    {
        Frac::of(num, den)
    } else {
        None
    }
}

/// The group of axles that a word spells, by its first and its last.
#[tactic(auto, unfolding(crate::specs::Words::pair_of, crate::specs::Words::group_of))]
pub fn group_in(word: &[u8]) -> Option<(u32, u32)>
    ensures exact { result ≡ group_of word.now }
    ensures sound { IfSome result (λ g. (word.now ≡ group g.0 g.1) × FitsIndex g.0 × FitsIndex g.1) }
{
    let (i, rest) = first_part(word, b'-');
    if let Some((j, rest)) = part(rest, b'-')
        && let Some(i) = place_in(i)
        && let Some(j) = place_in(j)
        && is_done(rest, b'-')
    {
        Some((i, j))
    } else {
        None
    }
}

/// The numbers that a list spells.
#[tactic(auto, unfolding(crate::specs::Words::list_of))]
pub fn numbers_in(alloc: Global, word: &[u8]) -> Result<Option<Numbers>, AllocError>
    ensures exact { IfOk result (λ found. found ≡ list_of number32 word.now) }
    ensures sound { IfOk result (IsTextOf (list_text decimal) FitsNumbers word.now) }
{
    if is(word, "-") {
        return Ok(Some(Numbers::of(Vec::new(alloc))));
    }
    all_numbers(alloc, word)
}

// The numbers with commas between them.
fn all_numbers(alloc: Global, word: &[u8]) -> Result<Option<Numbers>, AllocError>
    ensures { IfOk result (λ found. found ≡ all_of number32 (parts 44 word.now)) }
{
    let mut list = Vec::new(alloc);
    let (_, first, mut rest) = first_number(word, b',');
    let Some(n) = first else {
        return Ok(None);
    };
    list.push(n)?;
    'parts: while let Some((_, next, more)) = next_number(rest, b',') {
        let Some(n) = next else {
            return Ok(None);
        };
        list.push(n)?;
        rest = more;
    }
    Ok(Some(Numbers::of(list)))
}

/// The indices that a list spells.
#[tactic(auto, unfolding(crate::specs::Words::list_of))]
pub fn indices_in(alloc: Global, word: &[u8]) -> Result<Option<Numbers>, AllocError>
    ensures exact { IfOk result (λ found. found ≡ list_of place_of word.now) }
    ensures sound { IfOk result (IsTextOf (list_text index) FitsIndices word.now) }
{
    if is(word, "-") {
        return Ok(Some(Numbers::of(Vec::new(alloc))));
    }
    all_indices(alloc, word)
}

// The indices with commas between them.
fn all_indices(alloc: Global, word: &[u8]) -> Result<Option<Numbers>, AllocError>
    ensures { IfOk result (λ found. found ≡ all_of place_of (parts 44 word.now)) }
{
    let mut list = Vec::new(alloc);
    let (_, first, mut rest) = first_place(word, b',');
    let Some(i) = first else {
        return Ok(None);
    };
    list.push(i)?;
    'parts: while let Some((_, next, more)) = next_place(rest, b',') {
        let Some(i) = next else {
            return Ok(None);
        };
        list.push(i)?;
        rest = more;
    }
    Ok(Some(Numbers::of(list)))
}

// The first part, the number that it spells, and what is left behind it. The separator is no digit, so the end of a number
// is found as it is read; what is no number that ends there is looked at once more.
#[inline(always)]
fn first_number(text: &[u8], sep: u8) -> (&[u8], Option<u32>, &[u8])
    requires { sep < 48 }
    ensures parts { parts sep text.now ≡ result.0.now ∷ parts_left sep result.2.now }
    ensures number { result.1 ≡ number32 result.0.now }
    ensures sound { IfSome result.1 (λ n. result.0.now ≡ decimal n) }
    ensures shorter { length result.2.now ≤ length text.now }
{
    let (at, n) = front_digits(text);
    let (word, rest) = text.split_at(at);
    if is_whole(word, rest, sep) && n <= u64::from(u32::MAX) {
        return (word, Some(n as u32), rest);
    }
    let (word, rest) = first_part(text, sep);
    (word, number_in(word), rest)
}

// Whether digits are all of a part, with no zero in front of others.
#[inline(always)]
fn is_whole(digits: &[u8], rest: &[u8], sep: u8) -> bool
    ensures some { IsTrue result → 0 < length digits.now }
    ensures zero { IsTrue result → get_or digits.now 0 0 ≡ 48 → length digits.now ≡ 1 }
    ensures ends { IsTrue result → (length rest.now ≡ 0) ⊎ (get_or rest.now 0 0 ≡ sep) }
{
    (rest.is_empty() || rest[0] == sep)
        && (digits.len() == 1 || !digits.is_empty() && digits[0] != b'0')
}

// How many digits stand in front, ten at the most, and the number that they spell.
#[inline(always)]
fn front_digits(text: &[u8]) -> (usize, u64)
    ensures within { result.0 ≤ length text.now }
    ensures digits { AllDigits 10 (take result.0 text.now) }
    ensures value { result.1 ≡ value_from 0 (take result.0 text.now) }
{
    let mut value: u64 = 0;
    let end = text.len().min(10);
    'digits: for at in 0..end {
        let b = text[at];
        if b < b'0' || b > b'9' {
            return (at, value);
        }
        value = value * 10 + u64::from(b - b'0');
    }
    (end, value)
}

// The wide number that a word spells.
#[tactic(auto, using(crate::proofs::Numerals::value_more))]
fn wide_in(word: &[u8]) -> Option<u128>
    ensures { result ≡ wide_of word.now }
{
    let mut value: u128 = 0;
    'digits: for b in word {
        value = value
            .saturating_mul(10)
            .saturating_add(u128::from(b.saturating_sub(b'0')));
    }
    if spells(word, value) {
        Some(value)
    } else {
        None
    }
}
