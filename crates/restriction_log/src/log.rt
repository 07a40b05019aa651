// The log of postings.

ghost use Rattle.std.specs.Prelude.{◌≡◌};
ghost use Rattle.restriction_log.specs.Changes.{AreTaken, is_touched};

use crate::change::{Change, takes, touched};
use crate::refusal::PostRefusal;
use road_graph::{Network, NoMemory};
use std::alloc::Global;
use std::marker::Model;

/// The most postings of a log.
const MOST_POSTINGS: usize = 1000000;

/// The changes that were posted, in order. The first is number 1, and the version is the number of the last.
///
/// A log is of one network: the one with which it was started is handed to each call that takes one.
#[derive(Drop)]
pub struct Log {
    changes: Vec<Change>,
}

impl Model for Log {
    ghost use Rattle.std.specs.Prelude.{◌≤◌, List, length};
    ghost use Rattle.restriction_log.specs.declared.change.Change.{Change};

    ghost Value = { List Change };

    ghost view = { λ log. log.changes.items };

    ghost invariant = { λ log. length log.changes.items ≤ 1000000 };
}

impl Log {
    ghost use Rattle.std.specs.Prelude.{◌≡◌, ◌+◌, ◌<◌, ◌≤◌, ◌++◌, ◌∷◌, [], length, drop, false, nat_le, None, IfOk, IfErr, OnOk, OnErr};
    ghost use Rattle.restriction_log.specs.Changes.{AreTaken, is_touched};
    ghost use Rattle.restriction_log.specs.States.{AgreeSince};
    ghost use Rattle.restriction_log.specs.Logs.{post_refusal, IsPostCause};

    /// A log of this network with no postings, which keeps the allocator for those to come.
    pub fn start(alloc: Global, network: &Network) -> Result<Log, NoMemory>
        ensures empty { IfOk result (λ log. log ≡ []) }
        ensures taken { IfOk result (λ log. AreTaken network.now log) }
    {
        Ok(Log {
            changes: Vec::new(alloc),
        })
    }

    /// Posts a change, and answers the new version.
    ///
    /// Refusals, in this order: `Range` where the network does not take the change, `Full` at version 1,000,000,
    /// `NoMemory`. After each the log is as it was.
    pub fn post(&mut self, network: &Network, change: Change) -> Result<u32, PostRefusal>
        requires { AreTaken network.now self.old }
        ensures version { IfOk result (λ version. version ≡ length self.old + 1) }
        ensures posted { OnOk result (self.new ≡ self.old ++ change ∷ []) }
        ensures allowed { OnOk result (post_refusal network.now self.old change ≡ None) }
        ensures refused { IfErr result (IsPostCause (post_refusal network.now self.old change)) }
        ensures unchanged { OnErr result (self.new ≡ self.old) }
        ensures taken { AreTaken network.now self.new }
    {
        if !takes(network, &change) {
            return Err(PostRefusal::Range);
        }
        if self.is_full() {
            return Err(PostRefusal::Full);
        }
        let version = self.changes.len();
        self.changes.reserve(1)?;
        self.changes.push_reserved(change);
        Ok(version as u32 + 1)
    }

    /// The number of the last posting, 0 where there is none. Takes no memory.
    pub fn version(&self) -> u32
        ensures count { result ≡ length self.now }
        ensures few { result ≤ 1000000 }
    {
        self.changes.len() as u32
    }

    /// Whether there is no number left for a posting. Takes no memory.
    pub fn is_full(&self) -> bool
        ensures { result ≡ nat_le 1000000 (length self.now) }
    {
        self.changes.len() >= MOST_POSTINGS
    }

    /// Whether a posting numbered above `after` names the segment or one of its spans. Takes no memory.
    ///
    /// Where none does, the limits of the segment and the ratings of its spans are those of version `after`.
    pub fn changed(&self, network: &Network, segment: u32, after: u32) -> bool
        requires taken { AreTaken network.now self.now }
        requires within { segment < length network.now.segments }
        ensures value { result ≡ is_touched network.now segment (drop after self.now) }
        ensures meaning { result ≡ false → AgreeSince network.now segment after self.now }
    {
        let after = after as usize;
        after < self.changes.len() && is_touched(network, segment, &self.changes[after..])
    }
}

/// Whether one of these changes names the segment or one of its spans.
fn is_touched(network: &Network, segment: u32, changes: &[Change]) -> bool
    requires { AreTaken network.now changes.now }
    ensures { result ≡ is_touched network.now segment changes.now }
{
    'changes: for change in changes {
        if touched(network, change) == segment {
            return true;
        }
    }
    false
}
