// What a network is made of.

ghost use Rattle.std.specs.Prelude.{◌≡◌, ◌&&◌};
ghost use Rattle.road_graph.specs.Ranges.{is_feet, is_inches, is_rating};

use crate::values::Values;
use names::Name;

/// A directed segment of road.
#[derive(Clone, Copy, PartialEq, Eq)]
pub struct Segment {
    /// Its name.
    pub name: Name,
    /// The number of the node where it begins.
    pub from: u32,
    /// The number of the node where it ends.
    pub to: u32,
    /// Its length in feet, 1 to 10,000,000.
    pub feet: u32,
    /// Its limits before anything is posted.
    pub base: Values,
}

/// A simple bridge span on a segment.
#[derive(Clone, Copy, PartialEq, Eq)]
pub struct Span {
    /// Its name.
    pub name: Name,
    /// The number of the segment that it carries.
    pub segment: u32,
    /// Its length in inches, 1 to 6,000.
    pub inches: u32,
    /// Its load rating before anything is posted, in per mille of HS20-44, 0 to 100,000.
    pub rating: u32,
}

/// A segment as seen from the node where it ends.
#[derive(Clone, Copy, Debug, PartialEq, Eq)]
pub struct Arrival {
    /// The number of the segment.
    pub segment: u32,
    /// The number of the node where it begins.
    pub from: u32,
    /// Its length in feet.
    pub feet: u32,
}

impl Segment {
    // Whether the length is in the range of a segment's.
    pub(crate) fn takes(feet: u32) -> bool
        ensures { result ≡ is_feet feet }
    {
        1 <= feet && feet <= 10000000
    }
}

impl Span {
    /// Whether the value is in the range of a span's rating. Takes no memory.
    pub fn takes_rating(permille: u32) -> bool
        ensures { result ≡ is_rating permille }
    {
        permille <= 100000
    }

    // Whether the length and the rating are in the ranges of a span's.
    pub(crate) fn takes(inches: u32, rating: u32) -> bool
        ensures { result ≡ (is_inches inches && is_rating rating) }
    {
        1 <= inches && inches <= 6000 && Span::takes_rating(rating)
    }
}
