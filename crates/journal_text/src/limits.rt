// The words of changes, limits and causes.

ghost use Rattle.std.specs.Prelude.{◌≡◌, ◌∷◌, OnOk, codes};
ghost use Rattle.std.specs.Fmt.{decimal};
ghost use Rattle.influence_line.specs.Fractions.{ratio_text};
ghost use Rattle.journal_text.specs.Words.{Adds, index};
ghost use Rattle.journal_text.specs.Entries.{IsOfGroup, IsOfSpan, cause_words, change_words, effect_words, limit_words, over_words, posted_words};

use crate::words::{named, named_fraction, named_group, named_place, word};
use clearance_rules::Limit;
use influence_line::Frac;
use office_words::Cause;
use restriction_log::{Change, Replaced};
use std::alloc::AllocError;

/// A change that is posted.
pub fn change(out: &mut Vec<u8>, change: &Change) -> Result<(), AllocError>
    ensures { OnOk result (Adds out.old.items out.new.items (change_words change.now)) }
{
    match change.replaced() {
        Replaced::Limit {
            segment,
            what,
            value,
        } => posted(out, segment, what.word(), value),
        Replaced::Rating { span, permille } => {
            named_place(out, "span", span)?;
            named(out, "rating", permille)
        }
    }
}

/// A limit that fails.
pub fn limit(out: &mut Vec<u8>, limit: &Limit) -> Result<(), AllocError>
    ensures { OnOk result (Adds out.old.items out.new.items (limit_words limit.now)) }
{
    match limit {
        Limit::Closed { segment } => {
            named_place(out, "segment", *segment)?;
            word(out, "closed")
        }
        Limit::Height {
            segment,
            has,
            allowed,
        } => over(out, *segment, "height", *has, *allowed),
        Limit::Width {
            segment,
            has,
            allowed,
        } => over(out, *segment, "width", *has, *allowed),
        Limit::Length {
            segment,
            has,
            allowed,
        } => over(out, *segment, "length", *has, *allowed),
        Limit::Gross {
            segment,
            has,
            allowed,
        } => over(out, *segment, "gross", *has, *allowed),
        Limit::Group { .. } | Limit::Tridem { .. } => group_limit(out, limit),
        Limit::Moment { .. } | Limit::Shear { .. } => span_limit(out, limit),
    }
}

/// Why a proposal is outdated.
pub fn cause(out: &mut Vec<u8>, cause: &Cause) -> Result<(), AllocError>
    ensures { OnOk result (Adds out.old.items out.new.items (cause_words cause.now)) }
{
    match cause {
        Cause::NowFails { limit: why } => {
            word(out, "fails")?;
            limit(out, why)
        }
        Cause::NowMeets { segment } => {
            word(out, "meets")?;
            named_place(out, "segment", *segment)
        }
    }
}

// A limit of a group of axles: the group, what it weighs, and what is allowed.
fn group_limit(out: &mut Vec<u8>, limit: &Limit) -> Result<(), AllocError>
    requires { IsOfGroup limit.now }
    ensures { OnOk result (Adds out.old.items out.new.items (limit_words limit.now)) }
{
    match limit {
        Limit::Group {
            segment,
            i,
            j,
            weight,
            limit,
            allowance,
        } => {
            named_place(out, "segment", *segment)?;
            named_group(out, "group", *i, *j)?;
            named(out, "weight", *weight)?;
            named(out, "limit", *limit)?;
            named(out, "allowance", *allowance)
        }
        Limit::Tridem {
            segment,
            i,
            j,
            weight,
            allowed,
        } => {
            named_place(out, "segment", *segment)?;
            named_group(out, "tridem", *i, *j)?;
            named(out, "weight", *weight)?;
            named(out, "over", *allowed)
        }
        _ => unreachable!(),
    }
}

// A limit of a span, by the effect that fails it.
fn span_limit(out: &mut Vec<u8>, limit: &Limit) -> Result<(), AllocError>
    requires { IsOfSpan limit.now }
    ensures { OnOk result (Adds out.old.items out.new.items (limit_words limit.now)) }
{
    match limit {
        Limit::Moment {
            segment,
            span,
            has,
            design,
            rating,
        } => {
            named_place(out, "segment", *segment)?;
            named_place(out, "span", *span)?;
            effect(out, "moment", *has, *design, *rating)
        }
        Limit::Shear {
            segment,
            span,
            has,
            design,
            rating,
        } => {
            named_place(out, "segment", *segment)?;
            named_place(out, "span", *span)?;
            effect(out, "shear", *has, *design, *rating)
        }
        _ => unreachable!(),
    }
}

// A value of a segment.
fn posted(out: &mut Vec<u8>, segment: u32, name: &str, value: u32) -> Result<(), AllocError>
    ensures { OnOk result (Adds out.old.items out.new.items (posted_words segment name.now value)) }
{
    named_place(out, "segment", segment)?;
    named(out, name, value)
}

// A posted value that is exceeded.
fn over(
    out: &mut Vec<u8>,
    segment: u32,
    name: &str,
    has: u32,
    allowed: u32,
) -> Result<(), AllocError>
    ensures { OnOk result (Adds out.old.items out.new.items (over_words segment name.now has allowed)) }
{
    posted(out, segment, name, has)?;
    named(out, "over", allowed)
}

// An effect that is over its rating.
fn effect(
    out: &mut Vec<u8>,
    name: &str,
    has: Frac,
    design: Frac,
    rating: u32,
) -> Result<(), AllocError>
    ensures { OnOk result (Adds out.old.items out.new.items (effect_words name.now has design rating)) }
{
    named_fraction(out, name, has)?;
    named_fraction(out, "hs20", design)?;
    named(out, "rating", rating)
}
