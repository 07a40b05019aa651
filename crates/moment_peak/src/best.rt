// The axle and the run with the greatest moment.

ghost use Rattle.std.specs.Prelude.{◌≡◌, ◌<◌, ◌≤◌, ◌^◌, ◌⊎◌, IsTrue, false};
ghost use Rattle.axle_train.specs.Bounds.{IsTrain};
ghost use Rattle.influence_line.specs.Spans.{IsSpanLength};
ghost use Rattle.moment_peak.specs.Candidates.{IsAtPeak, IsAttained};
ghost use Rattle.moment_peak.specs.Centres.{HasEarlierRun, IsFirstBestPair, IsNoWorse, KeepsAll};
ghost use Rattle.moment_peak.specs.Sweeps.{IsSummed};

use crate::pair::Pair;
use crate::run::Run;
use crate::widest::widest;
use axle_train::Train;

/// An axle and a run: the run's greatest moment under that axle is `value` pounds times inches over four times the run's
/// weight and the span.
#[derive(Clone, Copy)]
pub struct Candidate {
    pub value: u128,
    pub axle: usize,
    pub run: Run,
}

/// The axle and the run with the greatest moment. Of several it is the least axle, and the run whose widest one with the
/// same centre of weight comes first.
pub fn best_pair(train: &Train, span: u32) -> Candidate
    requires { IsSpanLength span }
    ensures attained { IsAttained span train.now result }
    ensures peak { IsAtPeak span train.now result }
    ensures first { IsFirstBestPair span train.now result }
    ensures bounds { IsTrain train.now }
{
    let mut pair = Pair::start(train, span);
    let mut best = pair.candidate(train, span);
    'pairs: while let Some(next) = pair.next(train, span) {
        pair = next;
        best = better(train, best, pair.candidate(train, span));
    }
    best
}

/// The better of two candidates. Where both are as good it is the one with the lesser axle, which is that of `best`, and
/// where they have one axle the earlier one.
fn better(train: &Train, best: Candidate, next: Candidate) -> Candidate
    requires runs { IsSummed train.now best.run × IsSummed train.now next.run }
    requires small { (best.value < 2 ^ 72) × (next.value < 2 ^ 72) }
    requires order { best.axle ≤ next.axle }
    ensures kept { KeepsAll train.now best result }
    ensures met { IsNoWorse train.now result next }
    ensures either { (result ≡ best) ⊎ (result ≡ next) }
{
    let _len = train.len();
    let left = next.value * u128::from(best.run.sums.weight);
    let right = best.value * u128::from(next.run.sums.weight);
    if left > right {
        return next;
    }
    if left == right {
        if best.axle == next.axle {
            if comes_first(train, next.run, best.run) {
                return next;
            }
        }
    }
    best
}

/// Whether the widest run with the centre of weight of the one run comes before that of the other, in the order of first
/// and last.
#[inline(never)]
fn comes_first(train: &Train, one: Run, other: Run) -> bool
    requires runs { IsSummed train.now one × IsSummed train.now other }
    ensures before { IsTrue result → HasEarlierRun train.now one.sums other.sums }
    ensures behind { result ≡ false → HasEarlierRun train.now other.sums one.sums }
{
    let one = widest(train, one);
    let other = widest(train, other);
    if one.first != other.first {
        return one.first < other.first;
    }
    one.last < other.last
}
