// The heaviest tridem group of a truck.

ghost use Rattle.std.specs.Prelude.{◌≡◌, ◌+◌, ◌<◌, ◌≤◌, length, IfSome, IfNone, MatchOption};
ghost use Rattle.axle_limits.specs.Tridems.{HasNoTridem, IsHeaviestSoFar, IsHeaviestTridem, heavier_of, heaviest_tridem_of, tridem_at};

use crate::group::bounds;
use crate::legal::{TANDEM_SPREAD, TRIDEM_SPREAD};
use axle_train::Train;

/// A tridem group, from axle `i` to axle `j`, and its weight in pounds.
#[derive(Clone, Copy, Debug, PartialEq, Eq)]
pub struct Heaviest {
    pub i: usize,
    pub j: usize,
    pub weight: u32,
}

/// The heaviest tridem group of a truck, or none where it has no tridem group.
///
/// A tridem group is exactly three axles that are over 96 in and at most 144 in from first to last. Of groups that weigh
/// the same it is the first. Takes no memory.
pub fn heaviest_tridem(train: &Train) -> Option<Heaviest>
    ensures meaning { IfSome result (IsHeaviestTridem train.now) }
    ensures none { IfNone result (HasNoTridem train.now) }
    ensures value { result ≡ heaviest_tridem_of train.now }
{
    bounds(train);
    let mut best = None;
    for i in 0..train.len() - 2 {
        best = heavier(best, tridem_at(train, i));
    }
    best
}

/// The tridem group that begins with axle `i`, if one does.
fn tridem_at(train: &Train, i: usize) -> Option<Heaviest>
    requires { i + 2 < length train.now }
    ensures { result ≡ tridem_at train.now i }
{
    bounds(train);
    let j = i + 2;
    let spread = train.spread(i, j);
    if TANDEM_SPREAD < spread && spread <= TRIDEM_SPREAD {
        let weight = train.group_weight(i, j);
        Some(Heaviest { i, j, weight })
    } else {
        None
    }
}

/// The heavier of two groups, the first where they weigh the same.
fn heavier(best: Option<Heaviest>, next: Option<Heaviest>) -> Option<Heaviest>
    ensures { result ≡ heavier_of best next }
{
    match (best, next) {
        (Some(best), Some(next)) if next.weight <= best.weight => Some(best),
        (best, None) => best,
        (_, next) => next,
    }
}
