// One axle of a truck.

/// One axle: its place in inches behind the first axle, and its weight in pounds.
#[derive(Clone, Copy, Debug, PartialEq, Eq)]
pub struct Axle {
    pub place: u32,
    pub weight: u32,
}
