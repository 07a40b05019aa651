// The calls of one caller, of whatever office they are.

use office_words::{Call, Reply};
use permit_days::Day;
use restriction_log::Change;
use snapshot_store::Snapshot;
use trip_analysis::{Application, Proposal};

/// What a look at the office gives.
#[derive(Drop)]
pub enum Looked {
    /// The current version and its state.
    At(Snapshot),
    /// No memory was left for it.
    NoMemory,
    /// The history holds this many entries, the most that it may.
    Full { entries: u32 },
}

/// The calls of one caller of an office, which others may call too.
///
/// Contracts see what the caller has seen of the office's history and which entries are its own. Each call adds one entry to
/// both, unless the history holds the most that it may: then it answers `Full`, and nothing is added.
///
/// Whoever gives the calls of an office writes two: how a call is asked, and how a snapshot is handed out. Each of the others
/// asks one call.
pub trait OfficeCalls {
    ghost use Rattle.office_core.specs.Calls.{Answered, Calling, Looks, machine_seen};
    ghost use Rattle.office_core.specs.Machine.{MayAsk};
    ghost use Rattle.office_words.specs.declared.entry.Call.TheVariants as call;

    /// What the calls belong to. No value of it is made.
    type Place;

    ghost view: { Self → Calling Self.Place };

    /// The current version and its state. The entry is there also where no memory was left for it.
    fn snapshot(&mut self) -> Looked
        ensures { Looks (view self.old) result (view self.new) };

    /// Asks a call. What is found for an application was found at a version that the caller has seen.
    fn ask(&mut self, asked: Call) -> Reply
        requires { MayAsk (view self.old).who.base (machine_seen (view self.old)) asked }
        ensures { Answered (view self.old) asked result (view self.new) };

    /// Asks for a permit, for what was found for the application at an earlier version, which the caller has seen.
    fn submit(&mut self, application: Application, proposal: Proposal) -> Reply
        requires { MayAsk (view self.old).who.base (machine_seen (view self.old))
            (call.Submit application proposal) }
        ensures { Answered (view self.old) (call.Submit application proposal) result (view self.new) }
    {
        self.ask(Call::Submit {
            application,
            proposal,
        })
    }

    /// Asks for a permit, for what the office itself finds now.
    fn held(&mut self, application: Application) -> Reply
        requires { MayAsk (view self.old).who.base (machine_seen (view self.old)) (call.Held application) }
        ensures { Answered (view self.old) (call.Held application) result (view self.new) }
    {
        self.ask(Call::Held { application })
    }

    /// Asks that a change be posted.
    fn post(&mut self, change: Change) -> Reply
        ensures { Answered (view self.old) (call.Post change) result (view self.new) }
    {
        self.ask(Call::Post { change })
    }

    /// Asks that it be this day from now on.
    fn day(&mut self, day: Day) -> Reply
        ensures { Answered (view self.old) (call.Day day) result (view self.new) }
    {
        self.ask(Call::Day { day })
    }

    /// Asks to give a permit back.
    fn surrender(&mut self, number: u32) -> Reply
        ensures { Answered (view self.old) (call.Surrender number) result (view self.new) }
    {
        self.ask(Call::Surrender { number })
    }

    /// Asks what a permit says.
    fn show(&mut self, number: u32) -> Reply
        ensures { Answered (view self.old) (call.Show number) result (view self.new) }
    {
        self.ask(Call::Show { number })
    }
}
