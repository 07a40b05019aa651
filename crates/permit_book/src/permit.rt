// A permit, what became of it, and what it is on a day.

ghost use Rattle.std.specs.Prelude.{◌≡◌};
ghost use Rattle.permit_book.specs.Permits.{is_in_force, is_live, status_of};

use crate::trip::Trip;
use permit_days::Day;

/// What became of a permit.
#[derive(Clone, Copy, Debug, PartialEq, Eq)]
pub enum Mark {
    /// It was issued, and nothing came after.
    Live,
    /// The posting of this number made one of its segments fail.
    Recalled { version: u32 },
    /// Its holder gave it back.
    Surrendered,
}

/// What a permit is on a day.
#[derive(Clone, Copy, Debug, PartialEq, Eq)]
pub enum Status {
    /// It is live, and its last day is not over.
    InForce,
    /// The posting of this number made one of its segments fail.
    Recalled { version: u32 },
    /// Its holder gave it back.
    Surrendered,
    /// It is live, and its last day is over.
    Expired,
}

/// A permit for a trip, once or throughout a year.
#[derive(Drop)]
pub struct Permit {
    /// Its number, from 1 on.
    pub number: u32,
    /// Whom it allows what, and on which days it holds.
    pub trip: Trip,
    /// The number of the last posting when it was issued.
    pub version: u32,
    /// The number of the last posting when its routes were found.
    pub seen: u32,
    /// What became of it.
    pub mark: Mark,
}

impl Mark {
    /// Whether nothing became of the permit but that it was issued. Takes no memory.
    pub fn is_live(self) -> bool
        ensures { result ≡ is_live self }
    {
        match self {
            Mark::Live => true,
            Mark::Recalled { .. } | Mark::Surrendered => false,
        }
    }
}

impl Status {
    /// Whether it is in force. Takes no memory.
    pub fn is_in_force(self) -> bool
        ensures { result ≡ is_in_force self }
    {
        match self {
            Status::InForce => true,
            Status::Recalled { .. } | Status::Surrendered | Status::Expired => false,
        }
    }
}

impl Permit {
    /// What it is on a day: a live permit is expired where its last day is before that day. Takes no memory.
    pub fn status(&self, today: Day) -> Status
        ensures { result ≡ status_of self.now today }
    {
        match self.mark {
            Mark::Live if self.trip.last < today => Status::Expired,
            Mark::Live => Status::InForce,
            Mark::Recalled { version } => Status::Recalled { version },
            Mark::Surrendered => Status::Surrendered,
        }
    }
}
