// The network: what was added, and a list for each node and each segment.

use crate::entering::{are_below, enter_limit, enter_node, enter_segment, enter_span};
use crate::name_index::Names;
use crate::refusal::AddRefusal;
use crate::segment::{Arrival, Segment, Span};
use crate::values::{Values, What};
use names::Name;
use std::alloc::Global;
use std::marker::Model;

/// The most nodes of a network.
const MOST_NODES: usize = 4096;

/// The most segments of a network.
const MOST_SEGMENTS: usize = 16384;

/// The most spans of a network.
const MOST_SPANS: usize = 2048;

/// The most spans of one segment.
const MOST_ON_SEGMENT: usize = 16;

/// Nodes, directed segments and bridge spans, each with a name of its kind and a number, counted from 0.
///
/// A network only grows, and a limit of a segment may be set. After a refusal it is as it was.
#[derive(Drop)]
pub struct Network {
    alloc: Global,
    nodes: Names,
    segment_names: Names,
    segments: Vec<Segment>,
    span_names: Names,
    spans: Vec<Span>,
    // for each node the segments that begin there, and those that end there
    outgoing: Vec<Vec<u32>>,
    incoming: Vec<Vec<Arrival>>,
    // for each segment its spans
    carried: Vec<Vec<u32>>,
}

impl Model for Network {
    ghost use Rattle.road_graph.specs.Roads.{Roads};

    ghost Value = { Roads };

    ghost use Rattle.road_graph.specs.Kept.{IsNetworkKept, roads_in};

    ghost view = { roads_in };

    ghost invariant = { IsNetworkKept };
}

impl Network {
    ghost use Rattle.std.specs.Prelude.{◌≡◌, ◌<◌, length, slice_get, Some, None, false, IfSome, IfNone, IfOk, IfErr, OnOk, OnErr};
    ghost use Rattle.road_graph.specs.Roads.{Roads, no_roads, has_name, number_of, segment_names, span_names, segment_at, span_at, outgoing_of, incoming_of, spans_of, IsRoads, IsSegment, IsSpan, IsOutgoing, IsIncoming, AreSpansOf};
    ghost use Rattle.road_graph.specs.Adding.{new_span, with_node, with_segment, new_segment, with_span, network_with_limit, node_refusal, segment_refusal, span_refusal, limit_refusal, IsAddCause};

    /// A network with nothing in it. It keeps the allocator for what is added. Takes no memory.
    pub fn new(alloc: Global) -> Network
        ensures { result ≡ no_roads }
    {
        Network {
            alloc,
            nodes: Names::new(alloc),
            segment_names: Names::new(alloc),
            segments: Vec::new(alloc),
            span_names: Names::new(alloc),
            spans: Vec::new(alloc),
            outgoing: Vec::new(alloc),
            incoming: Vec::new(alloc),
            carried: Vec::new(alloc),
        }
    }

    /// Adds a node, and answers its number.
    ///
    /// Refusals, in this order: `SameName`, `TooMany` at 4,096 nodes, `NoMemory`.
    pub fn add_node(&mut self, name: Name) -> Result<u32, AddRefusal>
        ensures number { IfOk result (λ number. number ≡ length self.old.nodes) }
        ensures added { OnOk result (self.new ≡ with_node self.old name) }
        ensures taken { OnOk result (node_refusal self.old name ≡ None) }
        ensures refused { IfErr result (λ refusal. IsAddCause (node_refusal self.old name) refusal) }
        ensures unchanged { OnErr result (self.new ≡ self.old) }
    {
        if self.nodes.contains(&name) {
            return Err(AddRefusal::SameName);
        }
        let number = self.nodes.len();
        if number >= MOST_NODES {
            return Err(AddRefusal::TooMany);
        }
        enter_node(
            self.alloc,
            &mut self.nodes,
            &mut self.outgoing,
            &mut self.incoming,
            name,
        )?;
        Ok(number as u32)
    }

    /// Adds a directed segment on which no limit is set, and answers its number. `feet` is its length.
    ///
    /// Refusals, in this order: `SameName`, `UnknownNode` where `from` or `to` is none, `Range` where `feet` is not 1 to
    /// 10,000,000, `TooMany` at 16,384 segments, `NoMemory`.
    pub fn add_segment(
        &mut self,
        name: Name,
        from: u32,
        to: u32,
        feet: u32,
    ) -> Result<u32, AddRefusal>
        ensures number { IfOk result (λ number. number ≡ length self.old.segments) }
        ensures added { OnOk result (self.new ≡ with_segment self.old (new_segment name from to feet)) }
        ensures taken { OnOk result (segment_refusal self.old name from to feet ≡ None) }
        ensures refused { IfErr result (IsAddCause (segment_refusal self.old name from to feet)) }
        ensures unchanged { OnErr result (self.new ≡ self.old) }
    {
        if self.segment_names.contains(&name) {
            return Err(AddRefusal::SameName);
        }
        if !are_below(self.nodes.len(), from, to) {
            return Err(AddRefusal::UnknownNode);
        }
        if !Segment::takes(feet) {
            return Err(AddRefusal::Range);
        }
        let number = self.segments.len();
        if number >= MOST_SEGMENTS {
            return Err(AddRefusal::TooMany);
        }
        let segment = Segment {
            name,
            from,
            to,
            feet,
            base: Values::default(),
        };
        enter_segment(
            self.alloc,
            &mut self.segment_names,
            &mut self.segments,
            &mut self.outgoing,
            &mut self.incoming,
            &mut self.carried,
            segment,
        )?;
        Ok(number as u32)
    }

    /// Adds a span to a segment, and answers its number. `inches` is its length, `rating` its load rating in per mille of
    /// HS20-44.
    ///
    /// Refusals, in this order: `SameName`, `UnknownSegment`, `Range` where `inches` is not 1 to 6,000 or `rating` is above
    /// 100,000, `TooMany` at 2,048 spans or 16 of this segment, `NoMemory`.
    pub fn add_span(
        &mut self,
        name: Name,
        segment: u32,
        inches: u32,
        rating: u32,
    ) -> Result<u32, AddRefusal>
        ensures number { IfOk result (λ number. number ≡ length self.old.spans) }
        ensures added { OnOk result (self.new ≡ with_span self.old (new_span name segment inches rating)) }
        ensures taken { OnOk result (span_refusal self.old name segment inches rating ≡ None) }
        ensures refused { IfErr result (IsAddCause (span_refusal self.old name segment inches rating)) }
        ensures unchanged { OnErr result (self.new ≡ self.old) }
    {
        if self.span_names.contains(&name) {
            return Err(AddRefusal::SameName);
        }
        if segment as usize >= self.segments.len() {
            return Err(AddRefusal::UnknownSegment);
        }
        if !Span::takes(inches, rating) {
            return Err(AddRefusal::Range);
        }
        let number = self.spans.len();
        if number >= MOST_SPANS {
            return Err(AddRefusal::TooMany);
        }
        if self.spans_of(segment).len() >= MOST_ON_SEGMENT {
            return Err(AddRefusal::TooMany);
        }
        let span = Span {
            name,
            segment,
            inches,
            rating,
        };
        enter_span(
            &mut self.span_names,
            &mut self.spans,
            &mut self.carried,
            span,
        )?;
        Ok(number as u32)
    }

    /// Sets a limit of a segment. Takes no memory.
    ///
    /// Refusals, in this order: `UnknownSegment`, `Range`.
    pub fn set_limit(&mut self, segment: u32, what: What, value: u32) -> Result<(), AddRefusal>
        ensures set { OnOk result (self.new ≡ network_with_limit self.old segment what value) }
        ensures taken { OnOk result (limit_refusal self.old segment what value ≡ None) }
        ensures refused { IfErr result (λ refusal. limit_refusal self.old segment what value ≡ Some refusal) }
        ensures unchanged { OnErr result (self.new ≡ self.old) }
    {
        if segment as usize >= self.segments.len() {
            return Err(AddRefusal::UnknownSegment);
        }
        if !what.takes(value) {
            return Err(AddRefusal::Range);
        }
        enter_limit(&mut self.segments, segment as usize, what, value);
        Ok(())
    }

    /// The number of the node of this name, where there is one. Takes no memory.
    pub fn node_named(&self, name: &Name) -> Option<u32>
        ensures number { result ≡ number_of name.now self.now.nodes }
        ensures found { IfSome result (λ i. slice_get self.now.nodes i ≡ Some name.now) }
        ensures within { IfSome result (λ i. i < length self.now.nodes) }
        ensures missing { IfNone result (has_name name.now self.now.nodes ≡ false) }
    {
        self.nodes.number(name)
    }

    /// The number of the segment of this name, where there is one. Takes no memory.
    pub fn segment_named(&self, name: &Name) -> Option<u32>
        ensures number { result ≡ number_of name.now (segment_names self.now.segments) }
        ensures found { IfSome result (λ i. slice_get (segment_names self.now.segments) i ≡ Some name.now) }
        ensures within { IfSome result (λ i. i < length self.now.segments) }
        ensures missing { IfNone result (has_name name.now (segment_names self.now.segments) ≡ false) }
    {
        self.segment_names.number(name)
    }

    /// The number of the span of this name, where there is one. Takes no memory.
    pub fn span_named(&self, name: &Name) -> Option<u32>
        ensures number { result ≡ number_of name.now (span_names self.now.spans) }
        ensures found { IfSome result (λ i. slice_get (span_names self.now.spans) i ≡ Some name.now) }
        ensures within { IfSome result (λ i. i < length self.now.spans) }
        ensures missing { IfNone result (has_name name.now (span_names self.now.spans) ≡ false) }
    {
        self.span_names.number(name)
    }

    /// How many nodes there are. Takes no memory.
    pub fn nodes(&self) -> u32
        ensures count { result ≡ length self.now.nodes }
        ensures roads { IsRoads self.now }
    {
        self.nodes.len() as u32
    }

    /// The name of the node of a number. Takes no memory.
    pub fn node(&self, i: u32) -> Name
        requires { i < length self.now.nodes }
        ensures { slice_get self.now.nodes i ≡ Some result }
    {
        self.nodes.name(i)
    }

    /// A fact, and no work: the lists of a network are in order. Takes no memory.
    pub fn lists_are_in_order(&self)
        ensures { IsRoads self.now }
    {
        let _nodes = self.nodes();
    }

    /// How many segments there are. Takes no memory.
    pub fn segments(&self) -> u32
        ensures count { result ≡ length self.now.segments }
        ensures roads { IsRoads self.now }
    {
        self.segments.len() as u32
    }

    /// How many spans there are. Takes no memory.
    pub fn spans(&self) -> u32
        ensures count { result ≡ length self.now.spans }
        ensures roads { IsRoads self.now }
    {
        self.spans.len() as u32
    }

    /// The segment of a number. Takes no memory.
    pub fn segment(&self, i: u32) -> Segment
        requires { i < length self.now.segments }
        ensures value { slice_get self.now.segments i ≡ Some result }
        ensures at { result ≡ segment_at self.now.segments i }
        ensures fits { IsSegment (length self.now.nodes) result }
    {
        let segments = &self.segments;
        segments[i as usize]
    }

    /// The span of a number. Takes no memory.
    pub fn span(&self, i: u32) -> Span
        requires { i < length self.now.spans }
        ensures value { slice_get self.now.spans i ≡ Some result }
        ensures at { result ≡ span_at self.now.spans i }
        ensures fits { IsSpan (length self.now.segments) result }
    {
        let spans = &self.spans;
        spans[i as usize]
    }

    /// The numbers of the segments that begin at a node, rising. Takes no memory.
    pub fn outgoing(&self, node: u32) -> &[u32]
        requires { node < length self.now.nodes }
        ensures value { result.now ≡ outgoing_of self.now.segments node }
        ensures meaning { IsOutgoing self.now.segments node result.now }
    {
        let outgoing = &self.outgoing;
        outgoing[node as usize].as_slice()
    }

    /// The segments that end at a node, each with its number, the node where it begins and its feet, rising by number.
    /// Takes no memory.
    pub fn incoming(&self, node: u32) -> &[Arrival]
        requires { node < length self.now.nodes }
        ensures value { result.now ≡ incoming_of self.now.segments node }
        ensures meaning { IsIncoming self.now.segments node result.now }
    {
        let incoming = &self.incoming;
        incoming[node as usize].as_slice()
    }

    /// The numbers of the spans of a segment, rising. Takes no memory.
    pub fn spans_of(&self, segment: u32) -> &[u32]
        requires { segment < length self.now.segments }
        ensures value { result.now ≡ spans_of self.now.spans segment }
        ensures meaning { AreSpansOf self.now.spans segment result.now }
    {
        let carried = &self.carried;
        carried[segment as usize].as_slice()
    }
}
