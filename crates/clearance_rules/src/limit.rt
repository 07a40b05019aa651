// A limit that a load fails.

use influence_line::Frac;

/// A limit of a segment that a load fails, with the two sides that were compared. The order of the variants is the order
/// in which they are tested.
#[derive(Clone, Copy, Debug, PartialEq, Eq)]
pub enum Limit {
    /// Nothing may pass the segment.
    Closed {
        segment: u32,
    },
    /// The load is higher than is posted, in inches.
    Height {
        segment: u32,
        has: u32,
        allowed: u32,
    },
    /// The load is wider than is posted, in inches.
    Width {
        segment: u32,
        has: u32,
        allowed: u32,
    },
    /// The load is longer than is posted, in inches.
    Length {
        segment: u32,
        has: u32,
        allowed: u32,
    },
    /// The load is heavier than is posted, in pounds.
    Gross {
        segment: u32,
        has: u32,
        allowed: u32,
    },
    /// Some group of axles weighs more than `allowance` thousandths of its limit. The group from axle `i` to axle `j`,
    /// with its weight and its limit in pounds, is the worst one.
    Group {
        segment: u32,
        i: u32,
        j: u32,
        weight: u32,
        limit: u32,
        allowance: u32,
    },
    /// The tridem group from axle `i` to axle `j`, the heaviest one, weighs more than is posted, in pounds.
    Tridem {
        segment: u32,
        i: u32,
        j: u32,
        weight: u32,
        allowed: u32,
    },
    /// The peak moment on a span, in pounds times inches, is more than `rating` thousandths of the design truck's.
    Moment {
        segment: u32,
        span: u32,
        has: Frac,
        design: Frac,
        rating: u32,
    },
    /// The peak end shear on a span, in pounds, is more than `rating` thousandths of the design truck's.
    Shear {
        segment: u32,
        span: u32,
        has: Frac,
        design: Frac,
        rating: u32,
    },
}
