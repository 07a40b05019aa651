// Changes and limits.

ghost use Rattle.std.specs.Prelude.{◌≡◌, ◌<◌, ◌∷◌, IfSome, codes, ℕ, length, option_map};
ghost use Rattle.std.specs.Fmt.{decimal};
ghost use Rattle.std.specs.Str.{bytes_eq};
ghost use Rattle.influence_line.specs.Fractions.{ratio_text};
ghost use Rattle.journal_text.specs.Words.{group, index};
ghost use Rattle.journal_text.specs.Entries.{cause_words, change_words, effect_words, limit_words};
ghost use Rattle.journal_reader.specs.Words.{Spells, group_of, left, seen, word_at};
ghost use Rattle.journal_reader.specs.Fits.{FitsCause, FitsChange, FitsIndex, FitsLimit, FitsNumber, FitsRatio};
ghost use Rattle.journal_reader.specs.Readers.{SpellsLimitOf, cause_at, change_at, effect_at, read_group_limit, limit_at, may_stand, read_over_limit, segment_change, span_change, read_span_limit, read_tridem_limit};

use crate::numbers::{group_in, is};
use crate::words::{after, fraction, named_number, named_place, number, place, word};
use clearance_rules::Limit;
use office_words::Cause;
use restriction_log::Change;
use road_graph::What;

/// A change.
#[tactic(auto, unfolding(crate::specs::Readers::change_at))]
pub fn change(rest: &[u8]) -> Option<(Change, &[u8])>
    ensures exact { seen result ≡ change_at (left rest.now) }
    ensures sound { Spells change_words FitsChange (left rest.now) result }
{
    let (kind, rest) = word(rest)?;
    if is(kind, "segment") {
        segment_change(rest)
    } else if is(kind, "span") {
        span_change(rest)
    } else {
        None
    }
}

/// Why a proposal is out of date.
#[tactic(auto, unfolding(crate::specs::Readers::cause_at))]
pub fn cause(rest: &[u8]) -> Option<(Cause, &[u8])>
    ensures exact { seen result ≡ cause_at (left rest.now) }
    ensures sound { Spells cause_words FitsCause (left rest.now) result }
{
    let (kind, rest) = word(rest)?;
    if is(kind, "fails") {
        let Some((limit, rest)) = limit(rest) else {
            return None;
        };
        Some((Cause::NowFails { limit }, rest))
    } else if is(kind, "meets") {
        let (segment, rest) = named_place(rest, "segment")?;
        Some((Cause::NowMeets { segment }, rest))
    } else {
        None
    }
}

/// A limit.
#[tactic(auto, unfolding(crate::specs::Readers::limit_at))]
pub fn limit(rest: &[u8]) -> Option<(Limit, &[u8])>
    ensures exact { seen result ≡ limit_at (left rest.now) }
    ensures sound { Spells limit_words FitsLimit (left rest.now) result }
{
    let (segment, rest) = named_place(rest, "segment")?;
    let (named, rest) = word(rest)?;
    if is(named, "closed") {
        Some((Limit::Closed { segment }, rest))
    } else if is(named, "group") {
        group_limit(segment, rest)
    } else if is(named, "tridem") {
        tridem_limit(segment, rest)
    } else if is(named, "span") {
        span_limit(segment, rest)
    } else {
        over_limit(segment, named, rest)
    }
}

// A change of a segment.
#[tactic(auto, using(crate::proofs::Changes::change_spelled), unfolding(crate::specs::Readers::segment_change))]
fn segment_change(rest: &[u8]) -> Option<(Change, &[u8])>
    ensures exact { seen result ≡ segment_change (left rest.now) }
    ensures sound { Spells change_words FitsChange (codes "segment" ∷ left rest.now) result }
{
    if let Some((segment, rest)) = place(rest)
        && let Some((named, rest)) = word(rest)
        && let Some(what) = What::of_word(named)
        && let Some((value, rest)) = number(rest)
        && may_stand(what, value)
    {
        Some((Change::of(segment, what, value), rest))
    } else {
        None
    }
}

// Whether a value of this limit may stand in a journal: a segment is closed by 1 and open by 0.
fn may_stand(what: What, value: u32) -> bool
    ensures { result ≡ may_stand what value }
{
    match what {
        What::Closed => value <= 1,
        _ => true,
    }
}

// A new rating of a span.
#[tactic(auto, unfolding(crate::specs::Readers::span_change))]
fn span_change(rest: &[u8]) -> Option<(Change, &[u8])>
    ensures exact { seen result ≡ span_change (left rest.now) }
    ensures sound { Spells change_words FitsChange (codes "span" ∷ left rest.now) result }
{
    let (span, rest) = place(rest)?;
    let (permille, rest) = named_number(rest, "rating")?;
    Some((Change::Rating { span, permille }, rest))
}

// What the load has, over what is posted.
#[tactic(auto, unfolding(crate::specs::Readers::read_over_limit))]
fn over_limit<'a>(segment: u32, named: &[u8], rest: &'a [u8]) -> Option<(Limit, &'a [u8])>
    ensures exact { seen result ≡ read_over_limit segment named.now (left rest.now) }
    ensures sound { SpellsLimitOf segment named.now (left rest.now) result }
{
    let (has, rest) = number(rest)?;
    let (allowed, rest) = named_number(rest, "over")?;
    let limit = if is(named, "height") {
        Limit::Height {
            segment,
            has,
            allowed,
        }
    } else if is(named, "width") {
        Limit::Width {
            segment,
            has,
            allowed,
        }
    } else if is(named, "length") {
        Limit::Length {
            segment,
            has,
            allowed,
        }
    } else if is(named, "gross") {
        Limit::Gross {
            segment,
            has,
            allowed,
        }
    } else {
        return None;
    };
    Some((limit, rest))
}

// A group of axles over its allowance.
#[tactic(auto, unfolding(crate::specs::Readers::read_group_limit))]
fn group_limit(segment: u32, rest: &[u8]) -> Option<(Limit, &[u8])>
    ensures exact { seen result ≡ read_group_limit segment (left rest.now) }
    ensures sound { SpellsLimitOf segment (codes "group") (left rest.now) result }
{
    let (axles, rest) = word(rest)?;
    let (i, j) = group_in(axles)?;
    let (weight, rest) = named_number(rest, "weight")?;
    let (limit, rest) = named_number(rest, "limit")?;
    let (allowance, rest) = named_number(rest, "allowance")?;
    let limit = Limit::Group {
        segment,
        i,
        j,
        weight,
        limit,
        allowance,
    };
    Some((limit, rest))
}

// A tridem group over its posted weight.
#[tactic(auto, unfolding(crate::specs::Readers::read_tridem_limit))]
fn tridem_limit(segment: u32, rest: &[u8]) -> Option<(Limit, &[u8])>
    ensures exact { seen result ≡ read_tridem_limit segment (left rest.now) }
    ensures sound { SpellsLimitOf segment (codes "tridem") (left rest.now) result }
{
    let (axles, rest) = word(rest)?;
    let (i, j) = group_in(axles)?;
    let (weight, rest) = named_number(rest, "weight")?;
    let (pounds, rest) = named_number(rest, "over")?;
    let limit = Limit::Tridem {
        segment,
        i,
        j,
        weight,
        allowed: pounds,
    };
    Some((limit, rest))
}

// An effect over the rating of a span.
#[tactic(auto, unfolding(crate::specs::Readers::read_span_limit, crate::specs::Readers::effect_at))]
fn span_limit(segment: u32, rest: &[u8]) -> Option<(Limit, &[u8])>
    ensures exact { seen result ≡ read_span_limit segment (left rest.now) }
    ensures sound { SpellsLimitOf segment (codes "span") (left rest.now) result }
{
    if let Some((span, rest)) = place(rest)
        && let Some((named, rest)) = word(rest)
        && let Some((has, rest)) = fraction(rest)
        && let Some(rest) = after(rest, "hs20")
        && let Some((design, rest)) = fraction(rest)
        && let Some((rating, rest)) = named_number(rest, "rating")
    {
        let limit = if is(named, "moment") {
            Limit::Moment {
                segment,
                span,
                has,
                design,
                rating,
            }
        } else if is(named, "shear") {
            Limit::Shear {
                segment,
                span,
                has,
                design,
                rating,
            }
        } else {
            return None;
        };
        Some((limit, rest))
    } else {
        None
    }
}
