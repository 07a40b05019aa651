// The worst group: the one whose weight is the greatest part of its limit.

ghost use Rattle.std.specs.Prelude.{◌≡◌, ◌*◌, ◌<◌, ◌≤◌, ◌⊎◌, length};
ghost use Rattle.axle_limits.specs.Groups.{group_at};
ghost use Rattle.axle_limits.specs.Worst.{IsWorst, IsGroupInRange, worst_of, IsAtLeastAsBad, IsWorseThan};

use crate::group::{bounds, group_limit};
use axle_train::Train;

/// The group from axle `i` to axle `j`, its weight and its limit in pounds.
#[derive(Clone, Copy, Debug, PartialEq, Eq)]
pub struct WorstGroup {
    pub i: usize,
    pub j: usize,
    pub weight: u32,
    pub limit: u32,
}

/// The group, single axles among them, whose weight is the greatest part of its limit, over it or not.
///
/// Of groups that are equally bad it is the first, by the first axle and then by the last. Fractions are compared by their
/// cross products. Takes no memory.
pub fn worst(train: &Train) -> WorstGroup
    ensures meaning { IsWorst train.now result }
    ensures value { result ≡ worst_of train.now }
    ensures range { IsGroupInRange result }
{
    bounds(train);
    let mut best = group_at(train, 0, 0);
    for i in 0..train.len() {
        for j in i..train.len() {
            best = worse(best, group_at(train, i, j));
        }
    }
    best
}

/// The worse of two groups, the first where they are equally bad.
fn worse(best: WorstGroup, next: WorstGroup) -> WorstGroup
    requires best { IsGroupInRange best }
    requires next { IsGroupInRange next }
    ensures range { IsGroupInRange result }
    ensures kept { IsAtLeastAsBad best result }
    ensures met { next.weight * result.limit ≤ result.weight * next.limit }
    ensures either { (result ≡ best) ⊎ ((result ≡ next) × IsWorseThan best next) }
{
    if u64::from(next.weight) * u64::from(best.limit)
        > u64::from(best.weight) * u64::from(next.limit)
    {
        next
    } else {
        best
    }
}

/// The axles from `i` to `j` as a group.
fn group_at(train: &Train, i: usize, j: usize) -> WorstGroup
    requires ordered { i ≤ j }
    requires within { j < length train.now }
    ensures value { result ≡ group_at train.now i j }
    ensures range { IsGroupInRange result }
{
    WorstGroup {
        i,
        j,
        weight: train.group_weight(i, j),
        limit: group_limit(train, i, j).limit,
    }
}
