// What the next day of an office is made of.

ghost use Rattle.std.specs.Prelude.{◌≡◌, ◌<◌, ◌≤◌, ◌==◌, IfOk, IfSome, length, map, position};
ghost use Rattle.std.specs.List.{list_any};
ghost use Rattle.next_day.specs.NextDay.{order_for, place_among, trucks_kept};
ghost use Rattle.next_day.specs.Next.{IsNext};
ghost use Rattle.reroute_desk.specs.Replacements.{first_from};

use crate::standing::{Standing, find_standing};
use day_text::Order;
use names::NoMemory;
use office_core::Replay;
use office_words::{Command, Entry};
use permit_days::Day;
use std::alloc::Global;
use trip_analysis::Application;

/// What goes on: the permits that stand, the trucks by their numbers, and an application for each of the permits, in which the
/// trucks are counted as they go on.
#[derive(Drop)]
pub struct NextDay {
    pub standing: Vec<Standing>,
    pub trucks: Vec<u32>,
    pub commands: Vec<Order>,
}

/// What goes on behind a history that left this office, of so many trucks: all of them, or only those that hold a permit in force.
/// `NoMemory` where no memory was left.
pub fn next_day(
    alloc: Global,
    only: bool,
    trucks: u32,
    office: &Replay,
    history: &[Entry],
) -> Result<NextDay, NoMemory>
    requires few { trucks ≤ 64 }
    ensures { IfOk result (IsNext only trucks office.now.machine history.now) }
{
    let standing = find_standing(alloc, office, history)?;
    let kept = keep_trucks(alloc, only, trucks, standing.as_slice())?;
    let commands = apply_again(alloc, kept.as_slice(), office.today(), standing.as_slice())?;
    Ok(NextDay {
        standing,
        trucks: kept,
        commands,
    })
}

// The numbers of the trucks that go on.
fn keep_trucks(
    alloc: Global,
    only: bool,
    trucks: u32,
    standing: &[Standing],
) -> Result<Vec<u32>, NoMemory>
    ensures kept { IfOk result (λ kept. kept.items ≡ trucks_kept only trucks standing.now) }
    ensures few { IfOk result (λ kept. length kept.items ≤ trucks) }
{
    let mut kept = Vec::new(alloc);
    'trucks: for truck in 0..trucks {
        if !only || holds_one(standing, truck) {
            kept.push(truck)?;
        }
    }
    Ok(kept)
}

// Whether a truck holds one of these permits.
fn holds_one(standing: &[Standing], truck: u32) -> bool
    ensures { result ≡ list_any (λ p. p.trip.truck == truck) standing.now }
{
    standing.iter().any(|p| p.trip.truck() == truck)
}

// The applications for these permits once more.
fn apply_again(
    alloc: Global,
    kept: &[u32],
    today: Day,
    standing: &[Standing],
) -> Result<Vec<Order>, NoMemory>
    requires { length kept.now ≤ 64 }
    ensures { IfOk result (λ orders. orders.items ≡ map (order_for kept.now today) standing.now) }
{
    let mut orders = Vec::with_capacity(alloc, standing.len())?;
    'permits: for permit in standing {
        orders.push(order_of(kept, today, permit)?)?;
    }
    Ok(orders)
}

// The application for a permit once more.
fn order_of(kept: &[u32], today: Day, permit: &Standing) -> Result<Order, NoMemory>
    requires { length kept.now ≤ 64 }
    ensures { IfOk result (λ order. order ≡ order_for kept.now today permit.now) }
{
    let trip = &permit.trip;
    Ok(Order {
        actor: permit.holder,
        command: Command::Apply(Application::of_fields(
            place_of(kept, trip.truck()),
            trip.from(),
            trip.to(),
            Some(permit.routes.clone()?),
            later(today, trip.first()),
            trip.last(),
        )),
    })
}

// The place of a truck among those that go on.
fn place_of(kept: &[u32], truck: u32) -> u32
    requires { length kept.now ≤ 64 }
    ensures { result ≡ place_among kept.now truck }
{
    match find_place(kept, truck) {
        Some(place) => place as u32,
        None => 0,
    }
}

// The first place of a truck among those that go on, if it is one of them.
fn find_place(kept: &[u32], truck: u32) -> Option<usize>
    ensures place { result ≡ position (λ t. t == truck) kept.now }
    ensures within { IfSome result (λ place. place < length kept.now) }
{
    kept.iter().position(|t| *t == truck)
}

// The later of a first day and today.
fn later(today: Day, first: Day) -> Day
    ensures { result ≡ first_from today first }
{
    if first < today { today } else { first }
}
