// Why trucks are no convoy.

ghost use Rattle.std.specs.Prelude.{◌≡◌, ◌<◌, ◌≤◌, ◌↔◌, IsTrue};
ghost use Rattle.convoy_moves.specs.Convoys.{IsConvoySize};
ghost use Rattle.convoy_moves.specs.Refusals.{axles_together, closest_length, gross_together, refusal_number};

use axle_train::Train;
use thiserror::Error;

/// Why trucks are no convoy: the first of these limits that they pass, in this order.
#[derive(Clone, Copy, Debug, PartialEq, Eq, Error)]
pub enum ConvoyRefusal {
    /// The trucks have more than 32 axles together.
    #[error("a convoy has at most 32 axles")]
    TooManyAxles,
    /// With no more than the gap between them, the last axle of all is more than 3,000 in behind the first.
    #[error("a convoy is at most 3000 in long")]
    TooLong,
    /// The trucks weigh more than 2,000,000 lb together.
    #[error("a convoy weighs at most 2000000 lb")]
    Gross,
}

impl ConvoyRefusal {
    /// The number of the refusal, 1 to 3, in their order.
    pub fn number(self) -> u32
        ensures { result ≡ refusal_number self }
    {
        match self {
            ConvoyRefusal::TooManyAxles => 1,
            ConvoyRefusal::TooLong => 2,
            ConvoyRefusal::Gross => 3,
        }
    }
}

/// Whether so many trucks have more than 32 axles together.
pub(crate) fn have_too_many_axles(truck: &Train, trucks: u32) -> bool
    requires { trucks ≤ 16 }
    ensures { IsTrue result ↔ 32 < axles_together truck.now trucks }
{
    trucks as usize * truck.len() > 32
}

/// Whether so many trucks, with just this gap between two of them, are more than 3,000 in from the first axle to the last.
pub(crate) fn are_too_long(truck: &Train, trucks: u32, gap: u32) -> bool
    requires { IsConvoySize trucks gap }
    ensures { IsTrue result ↔ 3000 < closest_length truck.now trucks gap }
{
    let len = truck.len();
    let last = truck.axle(len - 1).place;
    trucks * last + (trucks - 1) * gap > 3000
}

/// Whether so many trucks weigh more than 2,000,000 lb together.
pub(crate) fn are_too_heavy(truck: &Train, trucks: u32) -> bool
    requires { trucks ≤ 16 }
    ensures { IsTrue result ↔ 2000000 < gross_together truck.now trucks }
{
    trucks * truck.gross() > 2000000
}
