// The widest run with a centre of weight.

ghost use Rattle.std.specs.Prelude.{◌≡◌, ◌+◌, ◌-◌, ◌<◌, IfNone, IfSome};
ghost use Rattle.moment_peak.specs.Centres.{HasCentre, HoldsCentres, IsWidest};
ghost use Rattle.moment_peak.specs.Sweeps.{IsSummed};

use crate::run::Run;
use axle_train::Train;

/// The run with the centre of weight of `run` in which each other one with this centre is inside. So it is the first of
/// them, and each axle that is in one of them is in it.
pub fn widest(train: &Train, run: Run) -> Run
    requires { IsSummed train.now run }
    ensures { IsWidest train.now run.sums result }
{
    let mut wide = Run::whole(train);
    'runs: while let Some(next) = narrower(train, run, wide) {
        wide = next;
    }
    wide
}

/// The run `wide` without its last axle where its centre of weight is behind that of `run`, without its first one where it
/// is in front of it.
fn narrower(train: &Train, run: Run, wide: Run) -> Option<Run>
    requires run { IsSummed train.now run }
    requires wide { IsSummed train.now wide }
    requires inside { HoldsCentres train.now run.sums wide }
    ensures summed { IfSome result (λ next. IsSummed train.now next) }
    ensures inside { IfSome result (λ next. HoldsCentres train.now run.sums next) }
    ensures shorter { IfSome result (λ next. next.last + wide.first < wide.last + next.first) }
    ensures same { IfNone result (HasCentre train.now wide.first wide.last run.sums) }
{
    let _len = train.len();
    let left = wide.sums.moment * run.sums.weight;
    let right = run.sums.moment * wide.sums.weight;
    if left == right {
        return None;
    }
    if left > right {
        return Some(wide.without_last(train));
    }
    Some(wide.without_first(train))
}
