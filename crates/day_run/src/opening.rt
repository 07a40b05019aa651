// A desk that opens for the actors of a day.

ghost use Rattle.std.specs.Prelude.{◌≡◌, ◌≤◌, ◌*◌, length, max, IfOk, Some};
ghost use Rattle.std.specs.Arc.{arc_value};
ghost use Rattle.clearance_rules.specs.Counters.{IsBlankOf};
ghost use Rattle.office_turn.specs.Told.{opening_root};
ghost use Rattle.day_text.specs.Laws.{IsDayFile};
ghost use Rattle.day_text.specs.Scripts.{AreScripts};

use analyst_pool::most_entries;
use day_text::DayFile;
use names::NoMemory;
use office_desk::{Desk, Root};
use office_words::Command;
use permit_days::Day;
use std::alloc::Global;
use std::sync::Arc;
use std::sync::ledger::{Blank, Ledger};
use trip_analysis::Base;

/// What the actors of a day work with: a new desk with its root, what it is about, and the script of each.
pub(crate) struct Opening<L: Ledger> {
    pub desk: Desk<L>,
    pub root: Root<L>,
    pub base: Arc<Base, Global>,
    pub scripts: Vec<Vec<Command>>,
}

/// A desk about the roads and trucks of a day file, which opens on its day with room for all its commands.
pub(crate) fn open<L: Ledger>(
    alloc: Global,
    file: DayFile,
    blank: Blank,
) -> Result<Opening<L>, NoMemory>
    requires counter { IsBlankOf L.name L.parts blank }
    requires file { IsDayFile file }
    ensures terms { IfOk result (λ o. o.desk.terms ≡ Some (file.base, file.day, o.desk.most)) }
    ensures room { IfOk result (λ o. o.desk.most ≡ max 1 (17 * length file.commands)) }
    ensures root { IfOk result (λ o. o.root ≡ opening_root o.desk) }
    ensures base { IfOk result (λ o. arc_value o.base ≡ file.base) }
    ensures count { IfOk result (λ o. length o.scripts.items ≡ length file.actors) }
    ensures scripts { IfOk result (λ o. AreScripts o.scripts.items file.commands) }
{
    let most = most_entries(file.commands());
    let (base, day, scripts) = file.into_scripts(alloc)?;
    match desk_about(alloc, base, day, most, blank) {
        Ok((base, desk, root)) => Ok(Opening {
            desk,
            root,
            base,
            scripts,
        }),
        Err(no_memory) => {
            drop(scripts);
            Err(no_memory)
        }
    }
}

// A new desk about this base, and the base with one more owner.
fn desk_about<L: Ledger>(
    alloc: Global,
    base: Base,
    day: Day,
    most: u32,
    blank: Blank,
) -> Result<(Arc<Base, Global>, Desk<L>, Root<L>), NoMemory>
    requires counter { IsBlankOf L.name L.parts blank }
    requires some { 1 ≤ most }
    requires bounded { most ≤ 1000000 }
    ensures base { IfOk result (λ made. arc_value made.0 ≡ base) }
    ensures terms { IfOk result (λ made. made.1.terms ≡ Some (base, day, most)) }
    ensures most { IfOk result (λ made. made.1.most ≡ most) }
    ensures root { IfOk result (λ made. made.2 ≡ opening_root made.1) }
{
    let base = Arc::new(alloc, base)?;
    let shared = Arc::try_clone(&base)?;
    let (desk, root) = Desk::start(alloc, shared, day, most, blank)?;
    Ok((base, desk, root))
}
