// Whether an entry is one that a command makes.

ghost use Rattle.std.specs.Prelude.{◌≡◌, ◌↔◌, ℕ, Some, true};
ghost use Rattle.journal_whole.specs.Leaving.{IsCallOf, IsHeldLast, IsSubmitOf, IsTold, version_at};

use crate::sameness::are_same_applications;
use office_words::{Call, Command, Entry, Reply};
use trip_analysis::Application;

/// Whether the call is that of a command, which is no application.
pub(crate) fn is_call_of(command: &Command, call: &Call) -> bool
    ensures { (result ≡ true) ↔ IsCallOf command.now call.now }
{
    match command {
        Command::Apply(_) => false,
        Command::Post(change) => matches!(call, Call::Post { change: c } if c == change),
        Command::Day(day) => matches!(call, Call::Day { day: d } if d == day),
        Command::Surrender(number) => matches!(call, Call::Surrender { number: n } if n == number),
        Command::Show(number) => matches!(call, Call::Show { number: n } if n == number),
    }
}

/// Whether the answer is neither that the history is full nor that memory was wanting.
pub(crate) fn is_told(reply: &Reply) -> bool
    ensures { (result ≡ true) ↔ IsTold reply.now }
{
    !matches!(reply, Reply::Full { .. } | Reply::NoMemory)
}

/// Whether a snapshot was taken.
pub(crate) fn is_look(entry: &Entry) -> bool
    ensures { (result ≡ true) ↔ ((version : ℕ) × (version_at entry.now.call entry.now.reply ≡ Some version)) }
{
    matches!(
        (&entry.call, &entry.reply),
        (Call::Snapshot, Reply::SnapshotAt { .. })
    )
}

/// Whether the call submits this application with what was found at a version.
pub(crate) fn is_submit_of(application: &Application, version: u32, call: &Call) -> bool
    ensures { (result ≡ true) ↔ IsSubmitOf application.now version call.now }
{
    match call {
        Call::Submit {
            application: other,
            proposal,
        } => proposal.seen == version && are_same_applications(application, other),
        _ => false,
    }
}

/// Whether the office found what the application needs, and that was not out of date.
pub(crate) fn is_held_last(application: &Application, entry: &Entry) -> bool
    ensures { (result ≡ true) ↔ IsHeldLast application.now entry.now }
{
    match &entry.call {
        Call::Held { application: other } => {
            !matches!(entry.reply, Reply::Outdated { .. })
                && is_told(&entry.reply)
                && are_same_applications(application, other)
        }
        _ => false,
    }
}
