// The steps that write what was added. Each takes all the room that it needs first, and then only what cannot fail is done,
// so that nothing has changed where no memory was left.

ghost use Rattle.std.specs.Prelude.{◌≡◌, ◌<◌, ◌≤◌, ◌++◌, ◌∷◌, [], ◌^◌, length, map, nat_lt, ◌&&◌, false, OnOk, OnErr, IfSome, IfNone, slice_get, Some};
ghost use Rattle.road_graph.specs.Lists.{lists_of, IsAppended};
ghost use Rattle.road_graph.specs.Roads.{has_name, number_of, next_arrival};
ghost use Rattle.road_graph.specs.Adding.{segments_limited};

use crate::lists::{push_at, reserve_at};
use crate::name_index::Names;
use crate::segment::{Arrival, Segment, Span};
use crate::values::What;
use names::Name;
use std::alloc::{AllocError, Global};

/// Whether both are numbers below the count.
pub(crate) fn are_below(count: usize, from: u32, to: u32) -> bool
    ensures { result ≡ (nat_lt from count && nat_lt to count) }
{
    (from as usize) < count && (to as usize) < count
}

/// Enters a node at which no segment begins or ends.
pub(crate) fn enter_node(
    alloc: Global,
    names: &mut Names,
    outgoing: &mut Vec<Vec<u32>>,
    incoming: &mut Vec<Vec<Arrival>>,
    name: Name,
) -> Result<(), AllocError>
    requires { has_name name names.old ≡ false }
    ensures name { OnOk result (names.new ≡ names.old ++ name ∷ []) }
    ensures outgoing { OnOk result (lists_of outgoing.new.items ≡ lists_of outgoing.old.items ++ [] ∷ []) }
    ensures incoming { OnOk result (lists_of incoming.new.items ≡ lists_of incoming.old.items ++ [] ∷ []) }
    ensures name_unchanged { OnErr result (names.new ≡ names.old) }
    ensures outgoing_unchanged { OnErr result (outgoing.new.items ≡ outgoing.old.items) }
    ensures incoming_unchanged { OnErr result (incoming.new.items ≡ incoming.old.items) }
{
    outgoing.reserve(1)?;
    incoming.reserve(1)?;
    names.enter(name)?;
    outgoing.push_reserved(Vec::new(alloc));
    incoming.push_reserved(Vec::new(alloc));
    Ok(())
}

/// Enters a segment that carries no span, at the node where it begins and the node where it ends.
pub(crate) fn enter_segment(
    alloc: Global,
    names: &mut Names,
    segments: &mut Vec<Segment>,
    outgoing: &mut Vec<Vec<u32>>,
    incoming: &mut Vec<Vec<Arrival>>,
    carried: &mut Vec<Vec<u32>>,
    segment: Segment,
) -> Result<(), AllocError>
    requires fresh { has_name segment.name names.old ≡ false }
    requires few { length segments.old.items < 16384 }
    requires from { segment.from < length outgoing.old.items }
    requires to { segment.to < length incoming.old.items }
    ensures name { OnOk result (names.new ≡ names.old ++ segment.name ∷ []) }
    ensures segment { OnOk result (segments.new.items ≡ segments.old.items ++ segment ∷ []) }
    ensures outgoing { OnOk result
        (IsAppended outgoing.old.items outgoing.new.items segment.from (length segments.old.items)) }
    ensures incoming { OnOk result
        (IsAppended incoming.old.items incoming.new.items segment.to (next_arrival segments.old.items segment)) }
    ensures carried { OnOk result (lists_of carried.new.items ≡ lists_of carried.old.items ++ [] ∷ []) }
    ensures name_unchanged { OnErr result (names.new ≡ names.old) }
    ensures segments_unchanged { OnErr result (segments.new.items ≡ segments.old.items) }
    ensures outgoing_unchanged { OnErr result (lists_of outgoing.new.items ≡ lists_of outgoing.old.items) }
    ensures incoming_unchanged { OnErr result (lists_of incoming.new.items ≡ lists_of incoming.old.items) }
    ensures carried_unchanged { OnErr result (carried.new.items ≡ carried.old.items) }
{
    let number = segments.len() as u32;
    segments.reserve(1)?;
    carried.reserve(1)?;
    reserve_at(outgoing, segment.from as usize)?;
    reserve_at(incoming, segment.to as usize)?;
    names.enter(segment.name)?;
    push_at(outgoing, segment.from as usize, number);
    push_at(
        incoming,
        segment.to as usize,
        Arrival {
            segment: number,
            from: segment.from,
            feet: segment.feet,
        },
    );
    carried.push_reserved(Vec::new(alloc));
    segments.push_reserved(segment);
    Ok(())
}

/// Enters a span at its segment.
pub(crate) fn enter_span(
    names: &mut Names,
    spans: &mut Vec<Span>,
    carried: &mut Vec<Vec<u32>>,
    span: Span,
) -> Result<(), AllocError>
    requires fresh { has_name span.name names.old ≡ false }
    requires few { length spans.old.items < 2048 }
    requires within { span.segment < length carried.old.items }
    ensures name { OnOk result (names.new ≡ names.old ++ span.name ∷ []) }
    ensures span { OnOk result (spans.new.items ≡ spans.old.items ++ span ∷ []) }
    ensures carried { OnOk result
        (IsAppended carried.old.items carried.new.items span.segment (length spans.old.items)) }
    ensures name_unchanged { OnErr result (names.new ≡ names.old) }
    ensures spans_unchanged { OnErr result (spans.new.items ≡ spans.old.items) }
    ensures carried_unchanged { OnErr result (lists_of carried.new.items ≡ lists_of carried.old.items) }
{
    let number = spans.len() as u32;
    spans.reserve(1)?;
    reserve_at(carried, span.segment as usize)?;
    names.enter(span.name)?;
    push_at(carried, span.segment as usize, number);
    spans.push_reserved(span);
    Ok(())
}

/// Replaces a limit of a segment.
pub(crate) fn enter_limit(segments: &mut Vec<Segment>, i: usize, what: What, value: u32)
    requires { i < length segments.old.items }
    ensures { segments.new.items ≡ segments_limited segments.old.items i what value }
{
    let segment = &mut segments[i];
    segment.base = segment.base.with(what, value);
}
