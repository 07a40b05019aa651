// What `day` makes: the journal of an office's day, and its recalls.

ghost use Rattle.std.specs.Prelude.{◌≡◌, ◌<◌, IfErr, IfOk};
ghost use Rattle.clearance_rules.specs.Counters.{IsBlankOf};
ghost use Rattle.journal_text.specs.Journals.{journal_of};
ghost use Rattle.reroute_desk.specs.RecallLists.{recalls_in};
ghost use Rattle.permit_program.specs.Command.{IsRefusalOf, MakesAndTells};
ghost use Rattle.permit_program.specs.Day.{day};
ghost use Rattle.permit_program.specs.Headline.{CountedHeadline};

use crate::refusal::Refusal;
use analyst_pool::Gate;
use day_run::{lone_actors_are_one, serve};
use day_text::read_day;
use journal_text::print;
use names::NoMemory;
use notice_desk::Recall;
use office_core::{Office, Readings};
use reroute_desk::recalls;
use std::alloc::Global;
use std::sync::Wait;
use std::sync::ledger::{Blank, Ledger};
use std::thread::Threads;

/// A day that is over: its journal, the recalls of its history, and the counter of what its office tested, with the readings of it.
#[derive(Drop)]
pub(crate) struct DayOutput<L: Ledger> {
    pub(crate) journal: Vec<u8>,
    pub(crate) recalls: Vec<Recall>,
    pub(crate) readings: Readings<L>,
}

/// The journal of the day file that the bytes are, and its recalls: of an office whose actors carried out their commands, each
/// on a thread of its own. The gate is told how far each actor is.
///
/// The journal is as the headline says, and the headline holds with the readings of the counter. Of a day of at most one actor
/// there is no other journal. The recalls are all those of its history, in order. `Refused` has the status and the line of the
/// first refused record, by its row and its cause.
///
/// It waits until all actors are done.
pub(crate) fn make_journal<
    R: Threads + Wait + AllocGlobal + Sync,
    G: Gate + Sync,
    L: Ledger + Send + Sync,
>(rt: &R, bytes: &[u8], gate: &G, blank: Blank) -> Result<DayOutput<L>, Refusal>
    requires counter { IsBlankOf L.name L.parts blank }
    ensures made { IfOk result
        (λ output. MakesAndTells day bytes.now output.journal.items output.recalls.items) }
    ensures counted { IfOk result (λ output. CountedHeadline output.readings bytes.now output.journal.items) }
    ensures refused { IfErr result (IsRefusalOf day bytes.now) }
{
    let alloc = rt.alloc();
    let file = match read_day(alloc, bytes) {
        Ok(file) => file,
        Err(refused) => return Err(Refusal::of_file(alloc, refused)),
    };
    let (office, readings) = serve::<R, G, L>(rt, file, gate, blank)?;
    // the law by which no other history serves a day of one actor
    lone_actors_are_one();
    let told = tell(alloc, &office);
    // an office has many parts, so it is let go in one place
    drop(office);
    let told = told?;
    Ok(DayOutput {
        journal: told.journal,
        recalls: told.recalls,
        readings,
    })
}

// What is told of a history: its journal and its recalls.
#[derive(Drop)]
struct Told {
    journal: Vec<u8>,
    recalls: Vec<Recall>,
}

// The journal of an office's history, and all its recalls, in order.
fn tell(alloc: Global, office: &Office) -> Result<Told, NoMemory>
    ensures journal { IfOk result (λ told. told.journal.items ≡ journal_of office.now.history) }
    ensures recalls { IfOk result (λ told. told.recalls.items
        ≡ recalls_in office.now.base office.now.history) }
{
    let journal = print(alloc, office.history())?;
    let recalls = recalls(alloc, office.base(), office.history())?;
    Ok(Told { journal, recalls })
}
