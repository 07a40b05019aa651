// The records of the roads.

ghost use Rattle.std.specs.Prelude.{◌≡◌, ◌<◌, ◌++◌, length, map, flat_map, OnOk};
ghost use Rattle.road_graph.specs.Roads.{segment_at, span_at};
ghost use Rattle.day_writer.specs.Limits.{limit_rows, one_limit_rows, value_of};
ghost use Rattle.day_writer.specs.Rows.{node_row, segment_row, span_row};
ghost use Rattle.restriction_log.specs.States.{AreOf};
ghost use Rattle.day_writer.specs.Sheets.{roads_in_force};
ghost use Rattle.day_writer.specs.Texts.{text_of};

use crate::field::Field;
use crate::page::Page;
use restriction_log::State;
use road_graph::{Network, Segment, Span, Values, What};
use std::alloc::AllocError;

/// The nodes.
pub(crate) fn put_nodes(page: &mut Page, network: &Network) -> Result<(), AllocError>
    ensures { OnOk result (page.new ≡ page.old ++ text_of (map node_row network.now.nodes)) }
{
    'nodes: for i in 0..network.nodes() {
        let name = network.node(i);
        page.put("node", &[Field::Name(name)])?;
    }
    Ok(())
}

/// The segments, each without its limits.
pub(crate) fn put_segments(page: &mut Page, network: &Network) -> Result<(), AllocError>
    ensures { let roads = network.now in
        OnOk result (page.new ≡ page.old ++ text_of (map (segment_row roads) roads.segments)) }
{
    'segments: for i in 0..network.segments() {
        let segment = network.segment(i);
        let from = network.node(segment.from);
        let to = network.node(segment.to);
        page.put(
            "segment",
            &[
                Field::Name(segment.name),
                Field::Name(from),
                Field::Name(to),
                Field::Number(segment.feet),
            ],
        )?;
    }
    Ok(())
}

/// The limits in force that differ from those of a segment without any, segment by segment.
pub(crate) fn put_limits(
    page: &mut Page,
    network: &Network,
    state: &State,
) -> Result<(), AllocError>
    requires { AreOf network.now state.now }
    ensures { let segments = (roads_in_force network.now state.now).segments in
        OnOk result (page.new ≡ page.old ++ text_of (flat_map limit_rows segments)) }
{
    'segments: for i in 0..network.segments() {
        put_limits_of(page, &segment_in_force(network, state, i))?;
    }
    Ok(())
}

/// The spans, each with its rating in force.
pub(crate) fn put_spans(page: &mut Page, network: &Network, state: &State) -> Result<(), AllocError>
    requires { AreOf network.now state.now }
    ensures { let spans = (roads_in_force network.now state.now).spans in
        OnOk result (page.new ≡ page.old ++ text_of (map (span_row network.now) spans)) }
{
    'spans: for i in 0..network.spans() {
        let span = span_in_force(network, state, i);
        let segment = network.segment(span.segment);
        page.put(
            "span",
            &[
                Field::Name(span.name),
                Field::Name(segment.name),
                Field::Number(span.inches),
                Field::Number(span.rating),
            ],
        )?;
    }
    Ok(())
}

// The segment of a number with the limits in force on it as its own.
fn segment_in_force(network: &Network, state: &State, i: u32) -> Segment
    requires there { i < length network.now.segments }
    requires of_roads { AreOf network.now state.now }
    ensures { result ≡ segment_at (roads_in_force network.now state.now).segments i }
{
    let mut segment = network.segment(i);
    segment.base = state.segment(i);
    segment
}

// The span of a number with the rating in force as its own.
fn span_in_force(network: &Network, state: &State, i: u32) -> Span
    requires there { i < length network.now.spans }
    requires of_roads { AreOf network.now state.now }
    ensures value { result ≡ span_at (roads_in_force network.now state.now).spans i }
    ensures on { result.segment < length network.now.segments }
{
    let mut span = network.span(i);
    span.rating = state.rating(i);
    span
}

// The limits of a segment that are set.
fn put_limits_of(page: &mut Page, segment: &Segment) -> Result<(), AllocError>
    ensures { OnOk result (page.new ≡ page.old ++ text_of (limit_rows segment.now)) }
{
    put_limit(page, segment, What::Closed)?;
    put_limit(page, segment, What::Height)?;
    put_limit(page, segment, What::Width)?;
    put_limit(page, segment, What::Length)?;
    put_limit(page, segment, What::Gross)?;
    put_limit(page, segment, What::Allowance)?;
    put_limit(page, segment, What::Tridem)
}

// One limit of a segment, where it is set.
fn put_limit(page: &mut Page, segment: &Segment, what: What) -> Result<(), AllocError>
    ensures { OnOk result (page.new ≡ page.old ++ text_of (one_limit_rows segment.now what)) }
{
    let value = value_of(&segment.base, what);
    if value == value_of(&Values::default(), what) {
        return Ok(());
    }
    page.put(
        "limit",
        &[
            Field::Name(segment.name),
            Field::Text(what.word().as_bytes()),
            Field::Number(value),
        ],
    )
}

// The number that a record gives for a limit.
fn value_of(values: &Values, what: What) -> u32
    ensures { result ≡ value_of values.now what }
{
    match what {
        What::Closed => u32::from(values.closed),
        What::Height => values.height,
        What::Width => values.width,
        What::Length => values.length,
        What::Gross => values.gross,
        What::Allowance => values.allowance,
        What::Tridem => values.tridem,
    }
}
