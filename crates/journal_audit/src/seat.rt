// What is found again for the submits of a caller.

ghost use Rattle.std.specs.Prelude.{IfOk};
ghost use Rattle.snapshot_store.specs.Stores.{Stored, state_now};
ghost use Rattle.trip_analysis.specs.Applications.{Sound};
ghost use Rattle.trip_analysis.specs.Findings.{IsFinding};
ghost use Rattle.journal_audit.specs.declared.versions.Versions.{Versions};
ghost use Rattle.journal_audit.specs.Seats.{IsSeat};
ghost use Rattle.journal_audit.specs.Versions.{SnapshotsGoOn, HasKept, IsKeptAt};

use crate::versions::Versions;
use clearance_rules::Steps;
use names::NoMemory;
use std::alloc::Global;
use std::sync::ledger::Ledger;
use trip_analysis::{Analyst, Application, Base, What, find};

/// What was known of the trucks when a submit of a caller was last judged, and at which version that was. A caller looks at the
/// office again and again, so mostly what is known needs to go on by a few postings alone.
#[derive(Drop)]
pub(crate) struct Seat {
    alloc: Global,
    pub(crate) analyst: Analyst,
    pub(crate) at: Option<u32>,
}

impl Seat {
    /// A seat at which nothing is known yet.
    pub(crate) fn new(alloc: Global, base: &Base) -> Result<Seat, NoMemory>
        ensures { (versions : Versions) → IfOk result (IsSeat base.now versions) }
    {
        let analyst = Analyst::new(alloc, base)?;
        Ok(Seat {
            alloc,
            analyst,
            at: None,
        })
    }

    /// What is found for the application at a version that is kept. A version before that of the last one is looked at anew, and
    /// what is known stays as it is.
    pub(crate) fn find<L: Ledger>(
        &mut self,
        base: &Base,
        versions: &Versions,
        seen: u32,
        application: &Application,
        steps: &mut Steps<L>,
    ) -> Result<What, NoMemory>
        requires order { SnapshotsGoOn base.now versions.now }
        requires kept { HasKept versions.now seen }
        requires seat { IsSeat base.now versions.now self.old }
        requires sound { Sound base.now application.now }
        ensures found { IfOk result
            (λ w. (s : Stored) → IsKeptAt versions.now seen s → IsFinding base.now (state_now s) application.now w) }
        ensures seat { IsSeat base.now versions.now self.new }
    {
        let snapshot = versions.at(seen);
        if let Some(at) = self.at {
            if at > seen {
                return find(self.alloc, base, snapshot.state(), application, steps);
            }
            self.analyst.turn_to(base, versions.at(at), snapshot, steps);
        }
        self.at = Some(seen);
        self.analyst
            .find(self.alloc, base, snapshot, application, steps)
    }
}
