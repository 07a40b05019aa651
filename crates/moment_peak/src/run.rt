// Runs of neighbouring axles, with their sums.

ghost use Rattle.std.specs.Prelude.{◌≡◌, ◌+◌, ◌*◌, ◌<◌, ◌≤◌, length};
ghost use Rattle.axle_train.specs.Bounds.{IsTrain};
ghost use Rattle.axle_train.specs.Trains.{axle_at};
ghost use Rattle.influence_line.specs.Spans.{IsSpanLength};
ghost use Rattle.moment_peak.specs.Sweeps.{IsMore, IsSummed};

use axle_train::{Axle, Train};

/// What the vertices of some axles are made of: their weight in pounds, and their weight times place in pounds times
/// inches behind the train's first axle.
#[derive(Clone, Copy)]
pub struct Sums {
    pub weight: u64,
    pub moment: u64,
}

impl Sums {
    /// The sums of no axle.
    pub fn none() -> Sums
        ensures weight { result.weight ≡ 0 }
        ensures moment { result.moment ≡ 0 }
    {
        Sums {
            weight: 0,
            moment: 0,
        }
    }

    /// The sums with one axle more.
    pub fn with(self, axle: Axle) -> Sums
        requires light { self.weight ≤ 2000000 }
        requires near { self.moment ≤ 6000000000 }
        ensures { IsMore self result axle }
    {
        let pounds = u64::from(axle.weight);
        Sums {
            weight: self.weight + pounds,
            moment: self.moment + pounds * u64::from(axle.place),
        }
    }

    /// The sums with one axle less.
    pub fn without(self, axle: Axle) -> Sums
        requires { (axle.weight ≤ self.weight) × (axle.weight * axle.place ≤ self.moment) }
        ensures { IsMore result self axle }
    {
        let pounds = u64::from(axle.weight);
        Sums {
            weight: self.weight - pounds,
            moment: self.moment - pounds * u64::from(axle.place),
        }
    }
}

/// The axles `first` to `last`, and their sums.
#[derive(Clone, Copy)]
pub struct Run {
    pub first: usize,
    pub last: usize,
    pub sums: Sums,
}

impl Run {
    /// The axles in front of the middle of a span at whose start the first one stands.
    pub fn start(train: &Train, span: u32) -> Run
        requires { IsSpanLength span }
        ensures summed { IsSummed train.now result }
        ensures first { result.first ≡ 0 }
        ensures half { 2 * (axle_at train.now result.last).place < span }
        ensures bounds { IsTrain train.now }
    {
        let len = train.len();
        let mut run = Run::alone(train, 0);
        for last in 1..len {
            if 2 * train.axle(last).place >= span {
                return run;
            }
            run = run.with_next(train);
        }
        run
    }

    /// All axles of a train.
    pub fn whole(train: &Train) -> Run
        ensures summed { IsSummed train.now result }
        ensures first { result.first ≡ 0 }
        ensures last { result.last + 1 ≡ length train.now }
    {
        let len = train.len();
        let mut run = Run::alone(train, 0);
        'axles: while run.last + 1 < len {
            run = run.with_next(train);
        }
        run
    }

    /// One axle alone.
    pub fn alone(train: &Train, i: usize) -> Run
        requires within { i < length train.now }
        ensures summed { IsSummed train.now result }
        ensures first { result.first ≡ i }
        ensures last { result.last ≡ i }
    {
        let _len = train.len();
        Run {
            first: i,
            last: i,
            sums: Sums::none().with(train.axle(i)),
        }
    }

    /// The run with the axle behind it.
    pub fn with_next(self, train: &Train) -> Run
        requires summed { IsSummed train.now self }
        requires more { self.last + 1 < length train.now }
        ensures summed { IsSummed train.now result }
        ensures first { result.first ≡ self.first }
        ensures last { result.last ≡ self.last + 1 }
        ensures more { IsMore self.sums result.sums (axle_at train.now (self.last + 1)) }
    {
        let len = train.len();
        let last = self.last + 1;
        prove!(last < len);
        Run {
            first: self.first,
            last,
            sums: self.sums.with(train.axle(last)),
        }
    }

    /// The run without its first axle.
    pub fn without_first(self, train: &Train) -> Run
        requires summed { IsSummed train.now self }
        requires longer { self.first < self.last }
        ensures summed { IsSummed train.now result }
        ensures first { result.first ≡ self.first + 1 }
        ensures last { result.last ≡ self.last }
        ensures less { IsMore result.sums self.sums (axle_at train.now self.first) }
    {
        let _len = train.len();
        Run {
            first: self.first + 1,
            last: self.last,
            sums: self.sums.without(train.axle(self.first)),
        }
    }

    /// The run without its last axle.
    pub fn without_last(self, train: &Train) -> Run
        requires summed { IsSummed train.now self }
        requires longer { self.first < self.last }
        ensures summed { IsSummed train.now result }
        ensures first { result.first ≡ self.first }
        ensures last { result.last + 1 ≡ self.last }
    {
        let _len = train.len();
        Run {
            first: self.first,
            last: self.last - 1,
            sums: self.sums.without(train.axle(self.last)),
        }
    }
}
