// The seat of an actor: what it has left to do.

ghost use Rattle.std.specs.Prelude.{◌≡◌, ◌≤◌, ◌<◌, ◌↔◌, true, drop, length};
ghost use Rattle.day_text.specs.Scripts.{script_of};
ghost use Rattle.journal_whole.specs.Leaving.{IsAttempted, IsNext, IsNextOf, after, ended, fresh};
ghost use Rattle.journal_whole.specs.Seats.{IsSeat, IsTaken, left_of};

use crate::calls::{is_call_of, is_held_last, is_look, is_submit_of, is_told};
use day_text::Order;
use office_words::{Call, Command, Entry, Reply};
use trip_analysis::Application;

/// How many attempts at an application may be out of date, before the office is asked to find itself what is needed.
const MOST_TRIES: u32 = 8;

/// What an actor has left to do: its commands from a place on. Of the first of these, an application, so many attempts were out
/// of date, and a snapshot was taken at a version for the next one.
#[derive(Clone, Copy)]
pub(crate) struct Seat {
    pub(crate) actor: usize,
    pub(crate) next: usize,
    pub(crate) tries: u32,
    pub(crate) looked: Option<u32>,
}

impl Seat {
    /// The seat of an actor who has its commands from this place on left, and has begun none of them.
    pub(crate) fn from_place(actor: usize, orders: &[Order], from: usize) -> Seat
        requires { from ≤ length orders.now }
        ensures actor { result.actor ≡ actor }
        ensures left { left_of orders.now result ≡ fresh (script_of actor (drop from orders.now)) }
        ensures seat { IsSeat orders.now result }
    {
        'orders: for next in from..orders.len() {
            if orders[next].actor as usize == actor {
                return Seat::before(actor, next);
            }
        }
        Seat::before(actor, orders.len())
    }

    // The seat of an actor whose next command stands at this place.
    fn before(actor: usize, next: usize) -> Seat
        ensures { result ≡ record { actor = actor; next = next; tries = 0; looked = None } }
    {
        Seat {
            actor,
            next,
            tries: 0,
            looked: None,
        }
    }

    /// The seat once this entry is laid at it, where it is the next one of the actor's commands.
    pub(crate) fn taken(&self, orders: &[Order], entry: &Entry) -> Option<Seat>
        requires { IsSeat orders.now self.now }
        ensures { IsTaken orders.now self.now entry.now result }
    {
        if self.next >= orders.len() {
            return None;
        }
        if !self.is_next(&orders[self.next].command, entry) {
            return None;
        }
        Some(self.after(orders, entry))
    }

    // Whether the entry comes next in this command, which is the first that is left.
    fn is_next(&self, command: &Command, entry: &Entry) -> bool
        ensures { (result ≡ true) ↔ IsNextOf command.now self.now.tries self.now.looked entry.now }
    {
        match command {
            Command::Apply(application) => self.is_attempted(application, entry),
            other => is_call_of(other, &entry.call) && is_told(&entry.reply),
        }
    }

    // Whether the entry comes next in this application.
    fn is_attempted(&self, application: &Application, entry: &Entry) -> bool
        ensures { (result ≡ true) ↔ IsAttempted application.now self.now.tries self.now.looked entry.now }
    {
        if self.tries >= MOST_TRIES {
            return is_held_last(application, entry);
        }
        match self.looked {
            None => is_look(entry),
            Some(version) => {
                is_submit_of(application, version, &entry.call) && is_told(&entry.reply)
            }
        }
    }

    // The seat behind this entry, which is the next one.
    fn after(&self, orders: &[Order], entry: &Entry) -> Seat
        requires there { self.now.next < length orders.now }
        requires next { IsNext (left_of orders.now self.now) entry.now }
        requires seat { IsSeat orders.now self.now }
        ensures actor { result.actor ≡ self.now.actor }
        ensures left { left_of orders.now result ≡ after (left_of orders.now self.now) entry.now }
        ensures seat { IsSeat orders.now result }
    {
        match &entry.call {
            Call::Snapshot => match &entry.reply {
                Reply::SnapshotAt { version } => Seat {
                    looked: Some(*version),
                    ..*self
                },
                _ => self.behind_command(orders),
            },
            Call::Submit { .. } => match &entry.reply {
                Reply::Outdated { .. } => Seat {
                    tries: self.tries + 1,
                    looked: None,
                    ..*self
                },
                _ => self.behind_command(orders),
            },
            _ => self.behind_command(orders),
        }
    }

    // The seat once the first command that is left is finished.
    fn behind_command(&self, orders: &[Order]) -> Seat
        requires there { self.now.next < length orders.now }
        requires seat { IsSeat orders.now self.now }
        ensures actor { result.actor ≡ self.now.actor }
        ensures left { left_of orders.now result ≡ ended (left_of orders.now self.now) }
        ensures seat { IsSeat orders.now result }
    {
        Seat::from_place(self.actor, orders, self.next + 1)
    }
}
