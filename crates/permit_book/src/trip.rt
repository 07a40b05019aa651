// What a permit is for.

use permit_days::Day;
use trip_routes::SharedRoutes;

/// A trip that a permit is for: who asked for it, with which truck, along which routes, and on which days.
#[derive(Drop)]
pub struct Trip {
    /// Who asked for it.
    pub caller: u32,
    /// The truck, by its place in the fleet.
    pub truck: u32,
    /// The one to eight routes, on each of which it may go.
    pub routes: SharedRoutes,
    /// The first of its days.
    pub first: Day,
    /// The last of its days.
    pub last: Day,
}
