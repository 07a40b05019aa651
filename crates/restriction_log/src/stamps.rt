// Stamps: which segments changed after a version.

use crate::page::PAGE;
use crate::pages::Pages;
use road_graph::{Network, NoMemory};
use std::alloc::Global;
use std::marker::Model;

/// For each segment its stamp: the number of the last posting that names it or one of its spans, 0 where none does.
///
/// They are kept in pages, as a state is, beside the newest stamp of each page: so what changed after a version is found
/// by a look at each page, and at the segments of those that changed. Contracts see the list of stamps.
#[derive(Drop)]
pub struct Stamps {
    stamps: Pages<u32>,
    // for each page a number that none of its stamps is above
    newest: Vec<u32>,
}

impl Model for Stamps {
    ghost use Rattle.std.specs.Prelude.{List, ℕ};
    ghost use Rattle.restriction_log.specs.Stamps.{AreNewest};

    ghost Value = { List ℕ };

    ghost view = { λ s. s.stamps };

    ghost invariant = { λ s. AreNewest s.stamps s.newest.items };
}

impl Stamps {
    ghost use Rattle.std.specs.Prelude.{◌≡◌, ◌<◌, ◌≤◌, ℕ, [], length, slice_index_or, slice_set, IfOk, IfSome, IfNone};
    ghost use Rattle.restriction_log.specs.Stamps.{HasStamps};

    /// The stamps of this network before anything is posted.
    pub fn base(alloc: Global, network: &Network) -> Result<Stamps, NoMemory>
        ensures { IfOk result (HasStamps network.now []) }
    {
        let count = network.segments() as usize;
        let zeros = vec![in alloc; 0; count]?;
        Ok(Stamps {
            stamps: Pages::of(alloc, &zeros)?,
            newest: vec![in alloc; 0; count / PAGE + 1]?,
        })
    }

    /// The stamp of a segment. Takes no memory.
    pub fn stamp(&self, segment: u32) -> u32
        requires { segment < length self.now }
        ensures { result ≡ slice_index_or self.now segment 0 }
    {
        self.stamps.get(segment as usize)
    }

    /// These stamps with that of one segment replaced: its page is copied, and all else gets one more owner.
    pub fn with(&self, alloc: Global, segment: u32, number: u32) -> Result<Stamps, NoMemory>
        requires { segment < length self.now }
        ensures { IfOk result (λ stamps. stamps ≡ slice_set self.now segment number) }
    {
        let at = segment as usize;
        let stamps = self.stamps.with(alloc, at, number)?;
        let mut newest = Vec::from_slice(alloc, &self.newest)?;
        newest[at / PAGE] = number.max(newest[at / PAGE]);
        Ok(Stamps { stamps, newest })
    }

    /// The first segment from `from` on whose stamp is above the number, where there is one. Takes no memory.
    pub fn next_above(&self, number: u32, from: u32) -> Option<u32>
        ensures above { IfSome result (λ s. number < slice_index_or self.now s 0) }
        ensures within { IfSome result (λ s. (from ≤ s) × (s < length self.now)) }
        ensures first { IfSome result (λ s. (i : ℕ) → from ≤ i → i < s
            → slice_index_or self.now i 0 ≤ number) }
        ensures none { IfNone result ((i : ℕ) → from ≤ i → slice_index_or self.now i 0 ≤ number) }
    {
        let mut segment = from as usize;
        while segment < self.stamps.len() {
            if self.newest[segment / PAGE] <= number {
                segment = (segment / PAGE + 1) * PAGE;
            } else if self.stamps.get(segment) > number {
                return Some(segment as u32);
            } else {
                segment += 1;
            }
        }
        None
    }
}
