// The records of the road network.

ghost use Rattle.std.specs.Prelude.{◌≡◌};
ghost use Rattle.csv.specs.Records.{fields_of};
ghost use Rattle.road_graph.specs.Roads.{has_name, segment_names, span_names};
ghost use Rattle.day_text.specs.Causes.{Grows};
ghost use Rattle.day_text.specs.Roads.{with_limit_of, with_node_of, with_segment_of, with_span_of};

use crate::demands::{has_only, name_in, number_in, or_bad};
use crate::fields::field;
use crate::referred::known;
use crate::refusal::{Kind, RecordCause, RecordRefusal};
use csv::StringRecord;
use names::Name;
use road_graph::{AddRefusal, Network, Span, What};

/// Adds the node of a record.
#[tactic(auto, unfolding(crate::specs::Roads::with_node_of))]
pub(crate) fn add_node(network: &mut Network, row: &StringRecord) -> Result<(), RecordRefusal>
    ensures { Grows result network.new (with_node_of network.old (fields_of row.now)) }
{
    has_only(row, 2)?;
    let name = name_in(row, 2)?;
    match network.add_node(name) {
        Ok(_) => Ok(()),
        Err(AddRefusal::SameName) => Err(RecordRefusal::bad(RecordCause::Same)),
        Err(AddRefusal::TooMany) => Err(RecordRefusal::too_many(Kind::Nodes)),
        Err(AddRefusal::NoMemory) => Err(RecordRefusal::NoMemory),
        Err(_) => unreachable!(),
    }
}

/// Adds the segment of a record.
#[tactic(auto, unfolding(crate::specs::Roads::with_segment_of))]
pub(crate) fn add_segment(network: &mut Network, row: &StringRecord) -> Result<(), RecordRefusal>
    ensures { Grows result network.new (with_segment_of network.old (fields_of row.now)) }
{
    has_only(row, 5)?;
    let name = name_in(row, 2)?;
    let from = name_in(row, 3)?;
    let to = name_in(row, 4)?;
    let feet = number_in(row, 5)?;
    if has_segment(network, &name) {
        return Err(RecordRefusal::bad(RecordCause::Same));
    }
    let from = known(network.node_named(&from), 3)?;
    let to = known(network.node_named(&to), 4)?;
    match network.add_segment(name, from, to, feet) {
        Ok(_) => Ok(()),
        Err(AddRefusal::Range) => Err(RecordRefusal::bad(RecordCause::Range(5))),
        Err(AddRefusal::TooMany) => Err(RecordRefusal::too_many(Kind::Segments)),
        Err(AddRefusal::NoMemory) => Err(RecordRefusal::NoMemory),
        // the name is new, and the nodes are there
        Err(_) => unreachable!(),
    }
}

/// Sets the limit of a record.
#[tactic(auto, unfolding(crate::specs::Roads::with_limit_of))]
pub(crate) fn set_limit(network: &mut Network, row: &StringRecord) -> Result<(), RecordRefusal>
    ensures { Grows result network.new (with_limit_of network.old (fields_of row.now)) }
{
    has_only(row, 4)?;
    let segment = name_in(row, 2)?;
    let what = or_bad(
        What::of_word(field(row, 2).as_bytes()),
        RecordCause::Field(3),
    )?;
    let value = number_in(row, 4)?;
    let segment = known(network.segment_named(&segment), 2)?;
    match network.set_limit(segment, what, value) {
        Ok(()) => Ok(()),
        // The segment is there: what is left is the range.
        Err(_) => Err(RecordRefusal::bad(RecordCause::Range(4))),
    }
}

/// Adds the span of a record.
#[tactic(auto, unfolding(crate::specs::Roads::with_span_of))]
pub(crate) fn add_span(network: &mut Network, row: &StringRecord) -> Result<(), RecordRefusal>
    ensures { Grows result network.new (with_span_of network.old (fields_of row.now)) }
{
    has_only(row, 5)?;
    let name = name_in(row, 2)?;
    let segment = name_in(row, 3)?;
    let inches = number_in(row, 4)?;
    let rating = number_in(row, 5)?;
    if has_span(network, &name) {
        return Err(RecordRefusal::bad(RecordCause::Same));
    }
    let segment = known(network.segment_named(&segment), 3)?;
    if inches < 1 || inches > 6000 {
        return Err(RecordRefusal::bad(RecordCause::Range(4)));
    }
    if !Span::takes_rating(rating) {
        return Err(RecordRefusal::bad(RecordCause::Range(5)));
    }
    if network.spans() >= 2048 {
        return Err(RecordRefusal::too_many(Kind::Spans));
    }
    match network.add_span(name, segment, inches, rating) {
        Ok(_) => Ok(()),
        Err(AddRefusal::TooMany) => Err(RecordRefusal::too_many(Kind::SpansOfSegment)),
        Err(AddRefusal::NoMemory) => Err(RecordRefusal::NoMemory),
        // the name is new, the segment is there, and the numbers are in range
        Err(_) => unreachable!(),
    }
}

// Whether a segment has this name.
#[tactic(auto, using(crate::proofs::Naming::numbered_is_there))]
fn has_segment(network: &Network, name: &Name) -> bool
    ensures { result ≡ has_name name.now (segment_names network.now.segments) }
{
    network.segment_named(name).is_some()
}

// Whether a span has this name.
#[tactic(auto, using(crate::proofs::Naming::numbered_is_there))]
fn has_span(network: &Network, name: &Name) -> bool
    ensures { result ≡ has_name name.now (span_names network.now.spans) }
{
    network.span_named(name).is_some()
}
