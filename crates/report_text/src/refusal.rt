// The line of a refusal, and its status.

ghost use Rattle.std.specs.Prelude.{◌≡◌, IfOk};
ghost use Rattle.std.specs.String.{string_bytes};
ghost use Rattle.report_text.specs.RefusalLaws.{RefusalLinesDiffer};
ghost use Rattle.report_text.specs.RefusalLines.{bad_word, kind_word, cause_number_of, refusal_line_of, refusal_status_of};

use day_text::{Cause, Kind, RecordCause};
use names::NoMemory;
use std::alloc::Global;

/// The line of a refusal, by the row of its record and the cause: `refused: record ROW CAUSE`, ended by one line feed.
pub fn refusal_line(alloc: Global, row: u64, cause: Cause) -> Result<String, NoMemory>
    ensures { IfOk result (λ text. string_bytes text ≡ refusal_line_of row cause) }
{
    let word = match cause {
        Cause::Bad(cause) => bad_word(cause),
        Cause::TooMany(kind) => kind_word(kind),
    };
    let mut text = String::new(alloc);
    match number(cause) {
        Some(number) => write!(text, "refused: record {row} {word} {number}\n")?,
        None => write!(text, "refused: record {row} {word}\n")?,
    }
    Ok(text)
}

/// A law, and no code: two refusals have two lines.
pub fn refusal_lines_differ()
    ensures { RefusalLinesDiffer }
{}

/// The status of a refusal: 5 where the record is bad, and 6 where it is one too many of its kind.
pub fn refusal_status(cause: Cause) -> u8
    ensures { result ≡ refusal_status_of cause }
{
    match cause {
        Cause::Bad(_) => 5,
        Cause::TooMany(_) => 6,
    }
}

// The word for what is bad about a record.
fn bad_word(cause: RecordCause) -> &'static str
    ensures { result.now ≡ bad_word cause }
{
    match cause {
        RecordCause::Fields => "fields",
        RecordCause::Kind => "kind",
        RecordCause::Order => "order",
        RecordCause::Extra => "extra",
        RecordCause::Field(_) => "field",
        RecordCause::Same => "same",
        RecordCause::Unknown(_) => "unknown",
        RecordCause::Range(_) => "range",
        RecordCause::Train(_) => "train",
        RecordCause::SamePlace => "same-place",
        RecordCause::BrokenRoute => "broken-route",
        RecordCause::DayOrder => "day-order",
        RecordCause::AnnualDays => "annual-days",
        RecordCause::End => "end",
    }
}

// The word for what there are too many of.
fn kind_word(kind: Kind) -> &'static str
    ensures { result.now ≡ kind_word kind }
{
    match kind {
        Kind::Nodes => "nodes",
        Kind::Segments => "segments",
        Kind::Spans => "spans",
        Kind::SpansOfSegment => "spans-of-segment",
        Kind::Trucks => "trucks",
        Kind::Actors => "actors",
        Kind::Commands => "commands",
        Kind::Probes => "probes",
    }
}

// The number that stands behind the word: of a field, or of the rule that a train breaks.
fn number(cause: Cause) -> Option<u32>
    ensures { result ≡ cause_number_of cause }
{
    match cause {
        Cause::Bad(RecordCause::Field(number)) => Some(number),
        Cause::Bad(RecordCause::Unknown(number)) => Some(number),
        Cause::Bad(RecordCause::Range(number)) => Some(number),
        Cause::Bad(RecordCause::Train(number)) => Some(number),
        Cause::Bad(_) | Cause::TooMany(_) => None,
    }
}
