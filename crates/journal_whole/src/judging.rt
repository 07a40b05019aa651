// The walk over a history.

ghost use Rattle.std.specs.Prelude.{◌<◌, [], IfOk, length};
ghost use Rattle.journal_whole.specs.Seats.{AreSeats, IsFirstLeft};
ghost use Rattle.journal_whole.specs.Wholes.{IsWholeness};

use crate::seat::Seat;
use crate::wholeness::Wholeness;
use day_text::Order;
use names::NoMemory;
use office_words::Entry;
use std::alloc::Global;

/// Whether a history is one of all these commands of so many actors; else which entry is the first that strays from them, or
/// which command is the first that it lacks. Nothing of the entries is known, nor of the commands. `NoMemory` where no memory
/// was left for the seats of the actors.
///
/// The entries are gone over once, and the commands at most once for each actor.
pub fn judge(
    alloc: Global,
    actors: usize,
    orders: &[Order],
    history: &[Entry],
) -> Result<Wholeness, NoMemory>
    ensures { IfOk result (IsWholeness actors orders.now history.now) }
{
    let mut seats = seats_of(alloc, actors, orders)?;
    Ok(judge_all(&mut seats, orders, history))
}

// The seats of so many actors, who have all their commands left.
fn seats_of(alloc: Global, actors: usize, orders: &[Order]) -> Result<Vec<Seat>, NoMemory>
    ensures { IfOk result (λ seats. AreSeats actors orders.now [] seats.items) }
{
    let mut seats = Vec::new(alloc);
    'actors: for actor in 0..actors {
        seats.push(Seat::from_place(actor, orders, 0))?;
    }
    Ok(seats)
}

// Lays the entries one after another at the seats of their callers, up to the first that is not taken there.
fn judge_all(seats: &mut Vec<Seat>, orders: &[Order], history: &[Entry]) -> Wholeness
    requires { AreSeats (length seats.old.items) orders.now [] seats.old.items }
    ensures { IsWholeness (length seats.old.items) orders.now history.now result }
{
    'entries: for i in 0..history.len() {
        let entry = &history[i];
        let caller = entry.caller as usize;
        if caller >= seats.len() {
            return Wholeness::Strays { entry: i };
        }
        match seats[caller].taken(orders, entry) {
            Some(seat) => seats[caller] = seat,
            None => return Wholeness::Strays { entry: i },
        }
    }
    let order = first_left(seats, orders.len());
    if order < orders.len() {
        Wholeness::Lacks { order }
    } else {
        Wholeness::Whole
    }
}

// The first command that an actor has left, of so many commands; their number where none has one left.
fn first_left(seats: &[Seat], orders: usize) -> usize
    ensures { IsFirstLeft seats.now orders result }
{
    let mut first = orders;
    'seats: for i in 0..seats.len() {
        if seats[i].next < first {
            first = seats[i].next;
        }
    }
    first
}
