// The audit of a history.

ghost use Rattle.std.specs.Prelude.{◌≡◌, ◌<◌, ◌≤◌, IfOk, length};
ghost use Rattle.std.specs.Arc.{arc_value};
ghost use Rattle.clearance_rules.specs.Counters.{IsBlankOf};
ghost use Rattle.journal_audit.specs.Auditors.{HasOpened};
ghost use Rattle.journal_audit.specs.Verdicts.{IsAudited, IsVerdict, LeavesVerdict};

use crate::auditor::Auditor;
use crate::verdict::{Audited, Verdict};
use clearance_rules::Steps;
use names::NoMemory;
use office_words::Entry;
use permit_days::Day;
use std::alloc::Global;
use std::marker::Brand;
use std::sync::Arc;
use std::sync::ledger::{Blank, Ledger};
use trip_analysis::Base;

/// Whether a history is one of an office about this base that opened on this day, and else which is the first entry with which it
/// is not. Nothing of the entries is known. `NoMemory` where no memory was left for the audit.
pub fn audit(
    alloc: Global,
    base: Arc<Base, Global>,
    day: Day,
    history: &[Entry],
) -> Result<Verdict, NoMemory>
    requires { length history.now ≤ 1000000 }
    ensures { IfOk result (IsVerdict (arc_value base) day history.now) }
{
    match go_through(alloc, base, day, history)? {
        Audited::Legal(replay) => {
            drop(replay);
            Ok(Verdict::Legal)
        }
        Audited::Bad { entry } => Ok(Verdict::Bad { entry }),
    }
}

/// The same audit, which hands out what an office keeps behind a legal history.
pub fn go_through(
    alloc: Global,
    base: Arc<Base, Global>,
    day: Day,
    history: &[Entry],
) -> Result<Audited, NoMemory>
    requires { length history.now ≤ 1000000 }
    ensures { IfOk result (IsAudited (arc_value base) day history.now) }
{
    let mut auditor = Auditor::open(alloc, base, day, history)?;
    match judge_all::<Brand>(&mut auditor, day, history, Blank::new(1)) {
        Ok(Verdict::Legal) => Ok(Audited::Legal(auditor.into_replay())),
        Ok(Verdict::Bad { entry }) => {
            drop(auditor);
            Ok(Audited::Bad { entry })
        }
        Err(NoMemory) => {
            drop(auditor);
            Err(NoMemory)
        }
    }
}

// Judges the entries one after another, up to the first that is no step. What is tested is counted by a counter of this ledger.
// The auditor is lent: where a function lets one go on each of its ways out, its proof goes through all parts at each.
fn judge_all<L: Ledger>(
    auditor: &mut Auditor,
    day: Day,
    history: &[Entry],
    blank: Blank,
) -> Result<Verdict, NoMemory>
    requires counter { IsBlankOf L.name L.parts blank }
    requires few { length history.now ≤ 1000000 }
    requires opened { HasOpened auditor.old day history.now }
    ensures { IfOk result (LeavesVerdict auditor.old.replay.base day history.now auditor.new.replay) }
{
    let mut steps = Steps::<L>::new(blank);
    'entries: for i in 0..history.len() {
        if !auditor.judge(&history[i], &mut steps)? {
            return Ok(Verdict::Bad { entry: i });
        }
    }
    Ok(Verdict::Legal)
}
