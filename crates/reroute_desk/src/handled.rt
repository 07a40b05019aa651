// What became of recalled permits.

use clearance_rules::Limit;
use trip_routes::SharedRoutes;

/// A permit that was recalled, and what the desk did about it.
#[derive(Drop)]
pub struct Handled {
    /// The number of the recalled permit.
    pub old: u32,
    pub what: HandledAs,
}

/// What the desk did about a recalled permit.
#[derive(Drop)]
pub enum HandledAs {
    /// Nothing, since its last day was before the day.
    Ended,
    /// It was applied for again, and the permit of this number was issued at this version for these routes.
    Replaced {
        number: u32,
        version: u32,
        routes: SharedRoutes,
    },
    /// It was applied for again, and at this version the trip fails this limit.
    Refused {
        version: u32,
        limit: Limit,
    },
}
