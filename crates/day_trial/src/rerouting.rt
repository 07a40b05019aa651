// An office that carries out the commands of a day file, with a desk that applies again for what they recall.

ghost use Rattle.std.specs.Prelude.{◌≡◌, ◌≢◌, ◌<◌, ◌≤◌, [], false, length, true, All, IfErr, IfOk, OnOk};
ghost use Rattle.road_graph.specs.Roads.{IsRoads};
ghost use Rattle.office_words.specs.Commands.{MayCarryOut};
ghost use Rattle.office_words.specs.declared.entry.Reply.TheVariants as answer;
ghost use Rattle.office_core.specs.Replies.{is_full};
ghost use Rattle.day_text.specs.Laws.{IsDayFile};
ghost use Rattle.reroute_desk.specs.Desks.{HasGoneOn, HasHandledAll, IsRerouteCause, KeepsUp};
ghost use Rattle.day_trial.specs.Blanks.{AreBlanks};
ghost use Rattle.day_trial.specs.declared.refusal.ServingRefusal.TheVariants.{TooMany};
ghost use Rattle.day_trial.specs.Rerouted.{IsRerouted};
ghost use Rattle.day_trial.specs.Rerouting.{AreLong, HasFinished, HasRerouted, HasReroutedOne, HasStopped, IsCaughtUp, IsLongAlone, IsLongWith, IsServingCause, WasCutShort, WasStopped, room_for};

use crate::blanks::Blanks;
use crate::lone::LoneOffice;
use crate::refusal::ServingRefusal;
use analyst_pool::{runs_are_one, scripts_are_short};
use day_text::{DayFile, Order};
use office_core::{Office, answers_are_one};
use office_words::Reply;
use reroute_desk::{RerouteRefusal, Rerouter, calls_of_others_keep_up, new_desks_keep_up};
use std::alloc::Global;
use std::marker::Brand;
use std::sync::ledger::Ledger;

// The most entries that an office may have.
const MOST_ENTRIES: u32 = 1000000;

/// The office of a day file's roads and trucks after each command was carried out by its actor, one after another in the order
/// of the file, and after each command the permits that it recalled were applied for again, by the caller whose number is the
/// count of actors.
///
/// Its history is legal and keeps every promise. All its entries are those of these commands and of these applications.
///
/// It has room for n times n and 2 times n entries, where the file has n commands, which make no more by
/// `rerouted_histories_are_short`; but for at least 1 entry, and for at most 1,000,000.
///
/// Refusals: `TooMany` only where such a history has 1,000,000 entries before all is done, and each one in which all is done
/// has more; and `NoMemory`, also where a reply says so.
pub fn serve_rerouted(alloc: Global, file: DayFile) -> Result<Office, ServingRefusal>
    requires { IsDayFile file }
    ensures served { IfOk result (λ office. IsRerouted file office.history) }
    ensures short { IfOk result (λ office. length office.history ≤ 1000000) }
    ensures room { IfOk result (λ office. office.most ≡ room_for (length file.commands)) }
    ensures refused { IfErr result (λ refusal. IsServingCause file refusal) }
    ensures roads { OnOk result (IsRoads file.base.roads) }
    ensures long_roads { IfErr result (λ refusal. refusal ≡ TooMany → IsRoads file.base.roads) }
{
    serve_counted::<Brand, Brand>(alloc, file, Blanks::new())
}

// Opens an office whose tests are counted by ledgers of these blanks, and has it carry out each command of the file and then
// apply again for what the command recalled.
fn serve_counted<F: Ledger, O: Ledger>(
    alloc: Global,
    file: DayFile,
    blanks: Blanks,
) -> Result<Office, ServingRefusal>
    requires blanks { AreBlanks F.name F.parts O.name O.parts blanks }
    requires file { IsDayFile file }
    ensures served { IfOk result (λ office. IsRerouted file office.history) }
    ensures short { IfOk result (λ office. length office.history ≤ 1000000) }
    ensures room { IfOk result (λ office. office.most ≡ room_for (length file.commands)) }
    ensures refused { IfErr result (λ refusal. IsServingCause file refusal) }
    ensures roads { OnOk result (IsRoads file.base.roads) }
    ensures long_roads { IfErr result (λ refusal. refusal ≡ TooMany → IsRoads file.base.roads) }
{
    // the number that no actor has
    let caller = file.actors().len() as u32;
    let most = room_for(file.commands());
    // where nobody else calls, commands make few entries: no room that is smaller than the greatest is ever filled
    runs_are_one();
    let (mut lone, orders) = LoneOffice::<F, O>::open(alloc, file, most, blanks)?;
    let carried = carry_out_all(alloc, &mut lone, caller, orders.as_slice());
    drop(orders);
    let office = lone.into_office();
    // an office tells that its history is legal and keeps its promises
    let _history = office.history();
    carried?;
    Ok(office)
}

// Carries out each command in turn, and has a desk of this caller catch up after each.
fn carry_out_all<F: Ledger, O: Ledger>(
    alloc: Global,
    lone: &mut LoneOffice<F, O>,
    caller: u32,
    orders: &[Order],
) -> Result<(), ServingRefusal>
    requires roads { IsRoads lone.old.base.roads }
    requires sound { All (λ o. MayCarryOut lone.old.base o.command) orders.now }
    requires callers { All (λ o. o.actor < caller) orders.now }
    requires caller { caller ≤ 16 }
    requires few { length orders.now ≤ 4096 }
    requires new { lone.old.history ≡ [] }
    ensures served { OnOk result (HasRerouted lone.old lone.new caller orders.now) }
    ensures stopped { IfErr result (λ refusal. refusal ≡ TooMany
        → HasStopped lone.old lone.new caller orders.now) }
    ensures refused { IfErr result (λ refusal. refusal ≡ TooMany
        → AreLong lone.old.base lone.old.opening lone.old.most caller orders.now) }
{
    // a new desk keeps up with an office that has no entry, and the entries of commands are determined
    new_desks_keep_up();
    runs_are_one();
    answers_are_one();
    let mut desk = Rerouter::new(alloc, caller);
    'orders: for i in 0..orders.len() {
        // an office tells that its history is legal
        let _history = lone.office().history();
        carry_out_one(alloc, lone, &mut desk, &orders[i], i as u32)?;
    }
    Ok(())
}

// Carries out one command, which has this place in the file, and has the desk catch up.
fn carry_out_one<F: Ledger, O: Ledger>(
    alloc: Global,
    lone: &mut LoneOffice<F, O>,
    desk: &mut Rerouter,
    order: &Order,
    place: u32,
) -> Result<(), ServingRefusal>
    requires roads { IsRoads lone.old.base.roads }
    requires sound { MayCarryOut lone.old.base order.now.command }
    requires caller { order.now.actor < desk.old.caller }
    requires few { desk.old.caller ≤ 16 }
    requires caught_up { IsCaughtUp desk.old lone.old }
    ensures carried { OnOk result (HasReroutedOne lone.old desk.old.caller order.now lone.new) }
    ensures caught_up { OnOk result (IsCaughtUp desk.new lone.new) }
    ensures caller { OnOk result (desk.new.caller ≡ desk.old.caller) }
    ensures stopped { IfErr result (λ refusal. refusal ≡ TooMany
        → WasCutShort lone.old desk.old.caller order.now lone.new) }
    ensures refused { IfErr result (λ refusal. refusal ≡ TooMany
        → IsLongWith lone.old desk.old.caller order.now) }
{
    // the entries of a command are determined, and the desk keeps up with the office after each entry of others
    runs_are_one();
    calls_of_others_keep_up();
    finish(alloc, lone, order, place)?;
    let caught_up = catch_up(lone, desk);
    // what the office promises of its history
    let _history = lone.office().history();
    Ok(caught_up?)
}

// Has the desk catch up with the office.
fn catch_up<F: Ledger, O: Ledger>(
    lone: &mut LoneOffice<F, O>,
    desk: &mut Rerouter,
) -> Result<(), RerouteRefusal>
    requires { KeepsUp desk.old lone.old }
    ensures gone { HasGoneOn desk.old lone.old result desk.new lone.new }
    ensures all { OnOk result (HasHandledAll desk.new lone.new) }
    ensures refused { IfErr result (IsRerouteCause desk.new lone.new) }
{
    desk.catch_up(&mut lone.office)
}

// Carries out one command, which has this place in the file.
fn finish<F: Ledger, O: Ledger>(
    alloc: Global,
    lone: &mut LoneOffice<F, O>,
    order: &Order,
    place: u32,
) -> Result<(), ServingRefusal>
    requires roads { IsRoads lone.old.base.roads }
    requires sound { MayCarryOut lone.old.base order.now.command }
    requires caller { order.now.actor < 65536 }
    ensures finished { OnOk result (HasFinished lone.old order.now lone.new) }
    ensures stopped { IfErr result (λ refusal. refusal ≡ TooMany → WasStopped lone.old order.now lone.new) }
    ensures refused { IfErr result (λ refusal. refusal ≡ TooMany → IsLongAlone lone.old order.now) }
{
    // where nobody else calls, a command is finished at once; and finished commands found memory
    runs_are_one();
    scripts_are_short();
    let reply = lone.carry_out(alloc, order, place);
    // what the office promises of its history
    let _history = lone.office().history();
    finished(&reply)
}

// The room of an office for all that these commands make: at least one place, and no more than an office may have.
fn room_for<T>(commands: &[T]) -> u32
    requires { length commands.now ≤ 4096 }
    ensures value { result ≡ room_for (length commands.now) }
    ensures some { 1 ≤ result }
    ensures bounded { result ≤ 1000000 }
{
    let count = commands.len() as u32;
    (count * count + 2 * count).min(MOST_ENTRIES).max(1)
}

// That the command which this reply answers is finished, or why no later one is carried out.
fn finished(reply: &Reply) -> Result<(), ServingRefusal>
    ensures room { OnOk result (is_full reply.now ≡ false) }
    ensures memory { OnOk result (reply.now ≢ answer.NoMemory) }
    ensures full { IfErr result (λ refusal. refusal ≡ TooMany → is_full reply.now ≡ true) }
{
    match reply {
        Reply::NoMemory => Err(ServingRefusal::NoMemory),
        Reply::Full { .. } => Err(ServingRefusal::TooMany),
        _ => Ok(()),
    }
}
