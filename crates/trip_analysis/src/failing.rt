// A segment that a truck may not pass.

use clearance_rules::Limit;

/// A segment that fails a load, with its first failing limit.
#[derive(Clone, Copy, Drop, PartialEq, Eq)]
pub struct Failing {
    pub segment: u32,
    pub limit: Limit,
}
