// The snapshots of the versions that the submits of a history name.

ghost use Rattle.std.specs.Prelude.{◌≡◌, ◌+◌, ◌≤◌, ℕ, [], All, IfOk, IfSome, OnOk, is_some, length, true};
ghost use Rattle.snapshot_store.specs.Stores.{Stored};
ghost use Rattle.office_core.specs.Machine.{version_of};
ghost use Rattle.office_core.specs.Registers.{stored_now};
ghost use Rattle.journal_audit.specs.Versions.{AreVersions, HasKept, IsKeptAt, IsMarkedVersion, IsNamed, versions_of};

use crate::marks::marks_of;
use names::NoMemory;
use office_core::Replay;
use office_words::Entry;
use snapshot_store::Snapshot;
use std::alloc::Global;

/// The snapshots of the versions so far that some submit of the history names, and no others: so what they take is in proportion
/// to the history.
#[derive(Drop)]
pub(crate) struct Versions {
    // for each version that the history can reach, whether a submit names it
    pub(crate) named: Vec<bool>,
    // for each version so far its snapshot, if it is named
    pub(crate) kept: Vec<Option<Snapshot>>,
}

impl Versions {
    /// The one version of an office on which nothing is posted yet, for a history that has these entries.
    pub(crate) fn open(
        alloc: Global,
        replay: &Replay,
        history: &[Entry],
    ) -> Result<Versions, NoMemory>
        requires few { length history.now ≤ 1000000 }
        requires none { version_of replay.now.machine ≡ 0 }
        ensures named { IfOk result (λ v. All (λ e. IsNamed v.named.items e.call) history.now) }
        ensures marks { IfOk result (λ v. length v.named.items ≡ length history.now + 1) }
        ensures versions { IfOk result (AreVersions (stored_now replay.now)) }
        ensures all { IfOk result (λ v. length v.kept.items ≡ versions_of (stored_now replay.now)) }
    {
        let mut versions = Versions {
            named: marks_of(alloc, history)?,
            kept: Vec::new(alloc),
        };
        versions.go_on(replay)?;
        Ok(versions)
    }

    /// Goes on to the current version, if it is one more.
    pub(crate) fn go_on(&mut self, replay: &Replay) -> Result<(), NoMemory>
        requires versions { AreVersions (stored_now replay.now) self.old }
        requires last { versions_of (stored_now replay.now) ≤ length self.old.kept.items + 1 }
        ensures named { self.new.named.items ≡ self.old.named.items }
        ensures versions { OnOk result (AreVersions (stored_now replay.now) self.new) }
        ensures all { OnOk result (length self.new.kept.items ≡ versions_of (stored_now replay.now)) }
        ensures stay { OnOk result ((n : ℕ) (s : Stored) → IsKeptAt self.old n s → IsKeptAt self.new n s) }
    {
        if self.kept.len() > replay.version() as usize {
            return Ok(());
        }
        let next = self.next(replay)?;
        self.kept.push(next)?;
        Ok(())
    }

    // The snapshot of the current version, which is the next one, if it is named.
    fn next(&self, replay: &Replay) -> Result<Option<Snapshot>, NoMemory>
        ensures snapshot { IfOk result (λ next. IfSome next (λ s. s ≡ stored_now replay.now)) }
        ensures named { IfOk result (λ next. IsMarkedVersion self.now.named.items (length self.now.kept.items)
            → is_some next ≡ true) }
    {
        let version = self.kept.len();
        if version < self.named.len() && self.named[version] {
            return Ok(Some(replay.snapshot()?));
        }
        Ok(None)
    }

    /// The snapshot of a version that is kept. Takes no memory.
    pub(crate) fn at(&self, version: u32) -> &Snapshot
        requires { HasKept self.now version }
        ensures { IsKeptAt self.now version result.now }
    {
        match &self.kept[version as usize] {
            Some(snapshot) => snapshot,
            None => unreachable!(),
        }
    }
}
