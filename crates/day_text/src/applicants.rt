// The trucks that apply on a day.

ghost use Rattle.std.specs.Prelude.{◌≡◌, length, IfOk};

use crate::day_file::DayFile;
use crate::orders::Order;
use names::NoMemory;
use office_words::Command;
use restriction_log::State;
use std::alloc::Global;
use std::thread::Threads;
use trip_analysis::Base;

/// The most columns of heights that an analyst makes.
const COLUMNS: u32 = 16;

/// The most trucks of a fleet.
const MOST_TRUCKS: usize = 64;

/// The most actors of a day.
const MOST_ACTORS: usize = 16;

/// From so many trucks on it pays to start threads for what they ask of spans, where there are many of these.
const MANY_TRUCKS: usize = 8;

/// From so many spans on there are many.
const MANY_SPANS: u32 = 64;

/// The day file, whose base keeps what is the same for all who serve the day: what each truck that applies asks of spans of each
/// length on its roads, which segments each truck that seeks a way may pass before anything is posted, and heights of the nodes
/// where trips have many goals. Whoever serves the day then looks it up, and else computes it. Nothing that contracts see
/// changes. `NoMemory` where no memory was left.
pub fn prepare(alloc: Global, file: DayFile) -> Result<DayFile, NoMemory>
    ensures { IfOk result (λ prepared. prepared ≡ file) }
{
    let (mut base, day, actors, commands) = file.into_parts();
    let learnt = learn(alloc, &mut base, commands.as_slice());
    // a file has many parts, so it is let go in one place
    let file = DayFile::of_parts(base, day, actors, commands);
    learnt?;
    Ok(file)
}

/// The same. Where the file has many trucks and many spans, what the trucks that apply ask of spans is found on threads.
pub fn prepare_on_threads<R: Threads + AllocGlobal + Sync>(
    rt: &R,
    file: DayFile,
) -> Result<DayFile, NoMemory>
    ensures { IfOk result (λ prepared. prepared ≡ file) }
{
    let (mut base, day, actors, commands) = file.into_parts();
    learn_on_threads(rt, &mut base, commands.as_slice());
    // what is kept already is not found again
    prepare(rt.alloc(), DayFile::of_parts(base, day, actors, commands))
}

// Has the base keep what is the same for all who serve the day.
fn learn(alloc: Global, base: &mut Base, orders: &[Order]) -> Result<(), NoMemory>
    ensures { base.new ≡ base.old }
{
    learn_applicants(alloc, base, orders)?;
    learn_seekers(alloc, base, orders)?;
    learn_goals(alloc, base, orders)
}

// Has the base keep what trucks ask of spans, on threads where there are many. Where no memory was left it keeps less.
fn learn_on_threads<R: Threads + AllocGlobal + Sync>(rt: &R, base: &mut Base, orders: &[Order])
    ensures { base.new ≡ base.old }
{
    if base.fleet().len() < MANY_TRUCKS || base.network().spans() < MANY_SPANS {
        return;
    }
    let alloc = rt.alloc();
    if let Ok(chosen) = applicants(alloc, base, orders) {
        base.learn_at_once(rt, alloc, &chosen);
    }
}

// Has the base keep what each truck that applies asks of spans.
fn learn_applicants(alloc: Global, base: &mut Base, orders: &[Order]) -> Result<(), NoMemory>
    ensures { base.new ≡ base.old }
{
    let chosen = applicants(alloc, base, orders)?;
    'trucks: for truck in 0..base.fleet().len() {
        if chosen[truck] {
            base.learn(alloc, truck as u32)?;
        }
    }
    Ok(())
}

// For each truck whether it applies.
fn applicants(alloc: Global, base: &Base, orders: &[Order]) -> Result<Vec<bool>, NoMemory>
    ensures { IfOk result (λ chosen. length chosen.items ≡ length base.now.fleet) }
{
    let mut chosen = vec![in alloc; false; base.fleet().len()]?;
    'orders: for order in orders {
        if let Command::Apply(application) = &order.command {
            let truck = application.truck() as usize;
            if truck < chosen.len() {
                chosen[truck] = true;
            }
        }
    }
    Ok(chosen)
}

// Has the base keep which segments each truck that seeks a way may pass before anything is posted.
fn learn_seekers(alloc: Global, base: &mut Base, orders: &[Order]) -> Result<(), NoMemory>
    ensures { base.new ≡ base.old }
{
    let first = State::base(alloc, base.network())?;
    let count = base.fleet().len() as u32;
    'trucks: for truck in 0..count {
        let seeks = orders.iter().any(|order| match &order.command {
            Command::Apply(application) => {
                application.truck() == truck && application.asked().is_none()
            }
            _ => false,
        });
        if seeks {
            base.learn_opening(alloc, &first, truck)?;
        }
    }
    Ok(())
}

// Has the base keep heights, where trips have so many goals that an analyst would make each column.
fn learn_goals(alloc: Global, base: &mut Base, orders: &[Order]) -> Result<(), NoMemory>
    ensures { base.new ≡ base.old }
{
    if changes_of_goal(alloc, orders)? < COLUMNS {
        return Ok(());
    }
    base.learn_heights(alloc)
}

// How many applications without a route have another goal than the one before of the same actor and truck.
fn changes_of_goal(alloc: Global, orders: &[Order]) -> Result<u32, NoMemory> {
    let mut goals = vec![in alloc; None; MOST_ACTORS * MOST_TRUCKS]?;
    let mut changes: u32 = 0;
    'orders: for order in orders {
        let Command::Apply(application) = &order.command else {
            continue;
        };
        let place = order.actor as usize * MOST_TRUCKS + application.truck() as usize;
        if application.asked().is_some() || place >= goals.len() {
            continue;
        }
        let goal = application.to();
        if let Some(before) = goals[place] {
            if before != goal {
                changes = changes.saturating_add(1);
            }
        }
        goals[place] = Some(goal);
    }
    Ok(changes)
}
