// The pairs of an axle and a run under which a train can have its peak moment, one after another as it rolls over the span.

ghost use Rattle.std.specs.Prelude.{◌≡◌, ◌+◌, ◌*◌, ◌<◌, ◌≤◌, ◌^◌, length, IfNone, IfSome};
ghost use Rattle.axle_train.specs.Bounds.{IsTrain};
ghost use Rattle.axle_train.specs.Trains.{axle_at, spread};
ghost use Rattle.influence_line.specs.Spans.{IsSpanLength};
ghost use Rattle.moment_peak.specs.Candidates.{IsValueOf};
ghost use Rattle.moment_peak.specs.Pairs.{IsFirstPair, IsLastOfRun, IsLastPair, IsNextPair, IsPair, IsRunEnd};
ghost use Rattle.moment_peak.specs.Sweeps.{IsFullRun};

use crate::best::Candidate;
use crate::run::{Run, Sums};
use axle_train::Train;

/// A run, one of its axles, and the sums of the run's axles in front of that one.
#[derive(Clone, Copy)]
pub struct Pair {
    pub run: Run,
    pub axle: usize,
    pub before: Sums,
}

impl Pair {
    /// The first pair: the axles in front of the middle of a span at whose start the first one stands, and that one. As
    /// long as fewer are on the span, their centre of weight is in front of the middle, and so is each of them.
    pub fn start(train: &Train, span: u32) -> Pair
        requires { IsSpanLength span }
        ensures pair { IsPair span train.now result }
        ensures first { IsFirstPair span train.now result }
        ensures front { (result.run.first ≡ 0) × (result.axle ≡ 0) }
        ensures half { 2 * (axle_at train.now result.run.last).place < span }
        ensures bounds { IsTrain train.now }
    {
        Pair {
            run: Run::start(train, span),
            axle: 0,
            before: Sums::none(),
        }
    }

    /// The next pair. The axle is the one under which the shear passes 0. It moves to the rear as the train rolls on with
    /// one run on the span, and stays as the run changes, so a train of n axles has at most 3n - 2 pairs.
    pub fn next(self, train: &Train, span: u32) -> Option<Pair>
        requires span { IsSpanLength span }
        requires pair { IsPair span train.now self }
        ensures next { IfSome result (IsNextPair span train.now self) }
        ensures last { IfNone result (IsLastPair span train.now self) }
    {
        let len = train.len();
        let end = self.run.last + 1;
        if end < len {
            if train.spread(self.run.first, end) <= span {
                return Some(self.until_next(train, span));
            }
        }
        self.until_first(train, span)
    }

    /// The next pair, where the run ends as the axle behind it comes on.
    fn until_next(self, train: &Train, span: u32) -> Pair
        requires pair { IsPair span train.now self }
        requires more { self.run.last + 1 < length train.now }
        requires fits { spread train.now self.run.first (self.run.last + 1) ≤ span }
        ensures { IsNextPair span train.now self result }
    {
        let _len = train.len();
        let place = train.axle(self.run.last + 1).place;
        match self.raised(train, span, place) {
            Some(next) => next,
            None => self.with_next(train, span),
        }
    }

    /// The next pair, where the run ends as its first axle goes off, or the train is over.
    fn until_first(self, train: &Train, span: u32) -> Option<Pair>
        requires span { IsSpanLength span }
        requires pair { IsPair span train.now self }
        requires full { IsFullRun span train.now self.run }
        ensures next { IfSome result (IsNextPair span train.now self) }
        ensures last { IfNone result (IsLastPair span train.now self) }
    {
        let len = train.len();
        let place = train.axle(self.run.first).place + span;
        if let Some(next) = self.raised(train, span, place) {
            return Some(next);
        }
        let end = self.run.last + 1;
        if end < len {
            if self.run.first == self.run.last {
                return Some(self.alone(train, span));
            }
        } else if 2 * train.spread(self.run.first, self.run.last) < span {
            // all that is left is behind the middle
            return None;
        }
        Some(self.without_first(train, span))
    }

    /// The pair of the axle behind, if the shear under that one passes 0 before the run ends, where the far support is at
    /// `place`.
    fn raised(self, train: &Train, span: u32, place: u32) -> Option<Pair>
        requires pair { IsPair span train.now self }
        requires end { IsRunEnd span train.now self.run place }
        ensures next { IfSome result (IsNextPair span train.now self) }
        ensures last { IfNone result (IsLastOfRun span train.now self) }
    {
        let _len = train.len();
        if self.axle == self.run.last {
            return None;
        }
        let before = self.before.with(train.axle(self.axle));
        let lost = u64::from(span) * before.weight + self.run.sums.moment;
        if lost <= self.run.sums.weight * u64::from(place) {
            return Some(Pair {
                run: self.run,
                axle: self.axle + 1,
                before,
            });
        }
        None
    }

    /// The same axle, with the run that has the axle behind it too.
    fn with_next(self, train: &Train, span: u32) -> Pair
        requires pair { IsPair span train.now self }
        requires last { IsLastOfRun span train.now self }
        requires more { self.run.last + 1 < length train.now }
        requires fits { spread train.now self.run.first (self.run.last + 1) ≤ span }
        ensures { IsNextPair span train.now self result }
    {
        let _len = train.len();
        Pair {
            run: self.run.with_next(train),
            axle: self.axle,
            before: self.before,
        }
    }

    /// The axle behind the run, alone: the one axle on the span is further from it than the span.
    fn alone(self, train: &Train, span: u32) -> Pair
        requires pair { IsPair span train.now self }
        requires last { IsLastOfRun span train.now self }
        requires more { self.run.last + 1 < length train.now }
        requires full { IsFullRun span train.now self.run }
        requires one { self.run.first ≡ self.run.last }
        ensures { IsNextPair span train.now self result }
    {
        let _len = train.len();
        let end = self.run.last + 1;
        Pair {
            run: Run::alone(train, end),
            axle: end,
            before: Sums::none(),
        }
    }

    /// The same axle, or else the first that is left, with the run that has no longer its first axle.
    fn without_first(self, train: &Train, span: u32) -> Pair
        requires pair { IsPair span train.now self }
        requires last { IsLastOfRun span train.now self }
        requires full { IsFullRun span train.now self.run }
        requires longer { self.run.first < self.run.last }
        ensures { IsNextPair span train.now self result }
    {
        let _len = train.len();
        let run = self.run.without_first(train);
        if self.axle == self.run.first {
            return Pair {
                run,
                axle: run.first,
                before: Sums::none(),
            };
        }
        Pair {
            run,
            axle: self.axle,
            before: self.before.without(train.axle(self.run.first)),
        }
    }

    /// The greatest moment of the pair's run under its axle. At its vertex the axle stands `at` units of 1 / (2 * weight)
    /// inch from the left support. The moment there is the left reaction times that distance, at * at / (4 * weight * span),
    /// less `front`, what the axles in front take off.
    pub fn candidate(self, train: &Train, span: u32) -> Candidate
        requires span { IsSpanLength span }
        requires pair { IsPair span train.now self }
        ensures value { IsValueOf span train.now self result }
        ensures small { result.value < 2 ^ 72 }
    {
        let _len = train.len();
        let place = train.axle(self.axle).place;
        let run = self.run.sums;
        let at = run.weight * u64::from(span + place) - run.moment;
        let front = self.before.weight * u64::from(place) - self.before.moment;
        let square = u128::from(at) * u128::from(at);
        let off = u128::from(4 * (run.weight * u64::from(span))) * u128::from(front);
        Candidate {
            value: square.saturating_sub(off),
            axle: self.axle,
            run: self.run,
        }
    }
}
