// An office that carries out the commands of a day file.

ghost use Rattle.std.specs.Prelude.{◌≡◌, ◌≢◌, ◌+◌, ◌*◌, ◌<◌, ◌≤◌, [], false, length, All, IfOk, OnOk};
ghost use Rattle.road_graph.specs.Roads.{IsRoads};
ghost use Rattle.office_words.specs.Commands.{MayCarryOut};
ghost use Rattle.office_words.specs.declared.entry.Reply.TheVariants as answer;
ghost use Rattle.office_core.specs.Replies.{is_full};
ghost use Rattle.day_text.specs.Laws.{IsDayFile};
ghost use Rattle.day_trial.specs.Blanks.{AreBlanks};
ghost use Rattle.day_trial.specs.Serial.{IsSerial};
ghost use Rattle.day_trial.specs.Serving.{HasCarriedOut, HasServed};

use crate::blanks::Blanks;
use crate::lone::LoneOffice;
use analyst_pool::{most_entries, scripts_are_short, unfoldings_are_short};
use day_text::{DayFile, Order};
use names::NoMemory;
use office_core::Office;
use office_words::Reply;
use std::alloc::Global;
use std::marker::Brand;
use std::sync::ledger::Ledger;

/// The office of a day file's roads and trucks after each command was carried out by its actor, one after another in the order
/// of the file. `NoMemory` where no memory was left, also where a reply says so.
///
/// Its history is legal and keeps every promise. All its entries are those of these commands.
pub fn serve_in_order(alloc: Global, file: DayFile) -> Result<Office, NoMemory>
    requires { IsDayFile file }
    ensures served { IfOk result (λ office. IsSerial file office.history) }
    ensures roads { OnOk result (IsRoads file.base.roads) }
{
    serve_counted::<Brand, Brand>(alloc, file, Blanks::new())
}

// Opens an office whose tests are counted by ledgers of these blanks, and has it carry out each command of the file.
fn serve_counted<F: Ledger, O: Ledger>(
    alloc: Global,
    file: DayFile,
    blanks: Blanks,
) -> Result<Office, NoMemory>
    requires blanks { AreBlanks F.name F.parts O.name O.parts blanks }
    requires file { IsDayFile file }
    ensures served { IfOk result (λ office. IsSerial file office.history) }
    ensures roads { OnOk result (IsRoads file.base.roads) }
{
    let most = most_entries(file.commands());
    let (mut lone, orders) = LoneOffice::<F, O>::open(alloc, file, most, blanks)?;
    let carried = carry_out_all(alloc, &mut lone, orders.as_slice());
    drop(orders);
    let office = lone.into_office();
    carried?;
    // an office tells that its history is legal and keeps its promises; and finished commands found memory
    let _history = office.history();
    scripts_are_short();
    Ok(office)
}

// Carries out each command in turn.
fn carry_out_all<F: Ledger, O: Ledger>(
    alloc: Global,
    lone: &mut LoneOffice<F, O>,
    orders: &[Order],
) -> Result<(), NoMemory>
    requires sound { All (λ o. MayCarryOut lone.old.base o.command) orders.now }
    requires callers { All (λ o. o.actor < 65536) orders.now }
    requires few { length orders.now ≤ 4096 }
    requires new { lone.old.history ≡ [] }
    requires room { 17 * length orders.now ≤ lone.old.most }
    ensures { OnOk result (HasServed lone.old lone.new orders.now) }
{
    'orders: for i in 0..orders.len() {
        carry_out_one(alloc, lone, &orders[i], i as u32)?;
    }
    Ok(())
}

// Carries out one command, which has this place in the file. There is room for its entries.
fn carry_out_one<F: Ledger, O: Ledger>(
    alloc: Global,
    lone: &mut LoneOffice<F, O>,
    order: &Order,
    place: u32,
) -> Result<(), NoMemory>
    requires sound { MayCarryOut lone.old.base order.now.command }
    requires caller { order.now.actor < 65536 }
    requires room { length lone.old.history + 17 ≤ lone.old.most }
    ensures { OnOk result (HasCarriedOut lone.old order.now lone.new) }
{
    // the laws by which the history cannot be full
    unfoldings_are_short();
    let reply = lone.carry_out(alloc, order, place);
    outcome(&reply)
}

// Whether a command with this reply is finished, where the history is not full.
fn outcome(reply: &Reply) -> Result<(), NoMemory>
    requires { is_full reply.now ≡ false }
    ensures { OnOk result (reply.now ≢ answer.NoMemory) }
{
    match reply {
        Reply::NoMemory => Err(NoMemory),
        Reply::Full { .. } => unreachable!(),
        _ => Ok(()),
    }
}
