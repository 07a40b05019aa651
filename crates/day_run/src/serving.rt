// An office whose actors carry out the commands of a day file.

ghost use Rattle.std.specs.Prelude.{◌≡◌, ◌*◌, length, max, IfOk, OnOk};
ghost use Rattle.road_graph.specs.Roads.{IsRoads};
ghost use Rattle.clearance_rules.specs.Counters.{IsBlankOf};
ghost use Rattle.day_text.specs.Laws.{IsDayFile};
ghost use Rattle.office_core.specs.Costs.{Counts};
ghost use Rattle.day_run.specs.Served.{IsServed, LoneActorsAreOne};

use crate::ended::Ended;
use crate::opening::{Opening, open};
use crate::workers::work_all;
use analyst_pool::Gate;
use day_text::{DayFile, prepare_on_threads};
use names::NoMemory;
use office_core::{Office, Readings};
use std::sync::Wait;
use std::sync::ledger::{Blank, Ledger};
use std::thread::Threads;

/// The office of a day file's roads and trucks, after its actors carried out their commands, each actor on a thread of its
/// own, and the counter of its turns with the readings of it. `NoMemory` where no memory was left, also where a reply says so; a
/// full history is never found. The gate is told how far each actor is.
///
/// The history is legal and keeps every promise. The entries of each actor are those of its finished commands, in the order of
/// the file, and nobody else has one.
///
/// It waits until all actors are done.
pub fn serve<R: Threads + Wait + AllocGlobal + Sync, G: Gate + Sync, L: Ledger + Send + Sync>(
    rt: &R,
    file: DayFile,
    gate: &G,
    blank: Blank,
) -> Result<(Office, Readings<L>), NoMemory>
    requires counter { IsBlankOf L.name L.parts blank }
    requires file { IsDayFile file }
    ensures served { IfOk result (λ done. IsServed file done.0.history) }
    ensures base { IfOk result (λ done. done.0.base ≡ file.base) }
    // It has room for the 17 entries that a command may make, and for no more than these, or for one.
    ensures room { IfOk result (λ done. done.0.most ≡ max 1 (17 * length file.commands)) }
    // The counter stood at 0 when the office opened, and rose in the turn of each entry by no more than its call may cost.
    ensures counted { IfOk result (λ done. Counts file.base file.day done.0.history done.1) }
    ensures roads { OnOk result (IsRoads file.base.roads) }
{
    let file = prepare_on_threads(rt, file)?;
    let Opening {
        desk,
        mut root,
        base,
        scripts,
    } = open::<L>(rt.alloc(), file, blank)?;
    let ended = work_all(rt, &desk, &mut root, &base, scripts, gate);
    drop(base);
    let closed = desk.close(root);
    match ended {
        Ended::Done => Ok(closed),
        Ended::NoMemory => {
            drop(closed);
            Err(NoMemory)
        }
        Ended::Full => unreachable!(),
    }
}

/// A law, and no code: over roads within their bounds, no two histories serve a day of at most one actor.
pub fn lone_actors_are_one()
    ensures { LoneActorsAreOne }
{}
