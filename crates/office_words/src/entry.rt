// What is asked of an office, what it answers, and the entries of its history.

use permit_book::Status;
use permit_days::Day;
use restriction_log::Change;
use road_graph::Numbers;
use trip_analysis::{Application, Limit, Proposal};
use trip_routes::SharedRoutes;

/// What is asked of the office.
#[derive(Drop)]
pub enum Call {
    /// Which version it is.
    Snapshot,
    /// A permit, for what was found for the application at an earlier version.
    Submit {
        application: Application,
        proposal: Proposal,
    },
    /// A permit, for what the office itself finds now.
    Held {
        application: Application,
    },
    /// That a change is posted.
    Post {
        change: Change,
    },
    /// That it is this day from now on.
    Day {
        day: Day,
    },
    /// That a permit is given back.
    Surrender {
        number: u32,
    },
    /// What a permit says.
    Show {
        number: u32,
    },
}

/// Why a proposal is out of date.
#[derive(Clone, Copy, PartialEq, Eq)]
pub enum Cause {
    /// A segment of its routes fails now: the first one's first failing limit.
    NowFails { limit: Limit },
    /// The segment that stood in the way meets now.
    NowMeets { segment: u32 },
}

/// What the office answers.
#[derive(Clone, Drop)]
pub enum Reply {
    /// The current version.
    SnapshotAt {
        version: u32,
    },
    /// A permit of this number was issued at this version for these routes.
    Issued {
        number: u32,
        version: u32,
        routes: SharedRoutes,
    },
    /// At this version the trip fails this limit.
    Refused {
        version: u32,
        limit: Limit,
    },
    /// At this version what was proposed holds no more.
    Outdated {
        version: u32,
        cause: Cause,
    },
    /// The truck is legal.
    NotNeeded,
    /// No segment leaves the nodes that the truck can reach.
    NoRoad,
    /// The trip would begin before this day, which it is.
    Late {
        day: Day,
    },
    /// The change is the posting of this number, and these permits are recalled by it.
    Posted {
        version: u32,
        recalled: Numbers,
    },
    /// The network does not take the change.
    OutOfRange,
    /// It is this day from now on.
    DayIs {
        day: Day,
    },
    /// The day asked for is before this one, which it is.
    DayBack {
        day: Day,
    },
    /// The permit is given back.
    Surrendered,
    /// The permit is another caller's.
    NotYours,
    /// There is no permit of that number.
    Unknown,
    /// The permit is not in force, but this.
    NotInForce {
        status: Status,
    },
    /// What a permit says.
    Shown {
        number: u32,
        caller: u32,
        truck: u32,
        first: Day,
        last: Day,
        version: u32,
        seen: u32,
        status: Status,
    },
    /// The history holds this many entries, the most that it may.
    Full {
        entries: u32,
    },
    /// No memory was left.
    NoMemory,
}

/// A call with its caller and its reply.
#[derive(Drop)]
pub struct Entry {
    pub caller: u32,
    pub call: Call,
    pub reply: Reply,
}

/// What an actor wants of an office, in one call or more.
#[derive(Drop)]
pub enum Command {
    /// A permit for a trip.
    Apply(Application),
    /// That a change is posted.
    Post(Change),
    /// That it is this day from now on.
    Day(Day),
    /// That a permit is given back.
    Surrender(u32),
    /// What a permit says.
    Show(u32),
}
