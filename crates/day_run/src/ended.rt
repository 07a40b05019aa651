// How the actors of a day ended, all together.

ghost use Rattle.std.specs.Prelude.{◌≡◌, ◌⊎◌};
ghost use Rattle.analyst_pool.specs.declared.worker.Outcome.TheVariants as outcome;
ghost use Rattle.day_run.specs.Workers.{IsFullOutcome};

use analyst_pool::Outcome;

/// How the actors ended so far.
#[derive(Clone, Copy, PartialEq, Eq)]
pub(crate) enum Ended {
    /// Each carried out all its commands.
    Done,
    /// One found no memory, and none a full history.
    NoMemory,
    /// One found the history full.
    Full,
}

impl Ended {
    /// How they ended, where one more ended so.
    pub(crate) fn and(self, next: Outcome) -> Ended
        ensures done { result ≡ Ended.Done → (self ≡ Ended.Done) × (next ≡ outcome.Done) }
        ensures full { result ≡ Ended.Full → (self ≡ Ended.Full) ⊎ IsFullOutcome next }
    {
        match next {
            Outcome::Done => self,
            Outcome::Full { .. } => Ended::Full,
            Outcome::NoMemory { .. } | Outcome::Waiting => match self {
                Ended::Full => Ended::Full,
                Ended::Done | Ended::NoMemory => Ended::NoMemory,
            },
        }
    }
}
