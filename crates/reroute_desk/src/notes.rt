// What a desk has noted of a history.

ghost use Rattle.std.specs.Prelude.{◌≡◌, ◌++◌, length, ℕ, OnOk, option_map};
ghost use Rattle.std.specs.Option.{option_or};
ghost use Rattle.office_core.specs.Happened.{application_in};
ghost use Rattle.reroute_desk.specs.Issues.{issued_by, recalled_numbers};
ghost use Rattle.reroute_desk.specs.Replacements.{unasked};
ghost use Rattle.reroute_desk.specs.Notes.{AreNotes, no_notes, noted_trip_of};

use names::NoMemory;
use office_words::{Call, Entry, Reply};
use std::alloc::Global;
use std::collections::BTreeMap;
use std::marker::Model;
use trip_analysis::Application;

/// What a desk has noted of a history: how many entries it has read, the trips of the permits that these issued, and the numbers
/// that they recalled, in order.
#[derive(Drop)]
pub(crate) struct Notes {
    alloc: Global,
    read: usize,
    // without the asked routes, since none is asked for again
    trips: BTreeMap<u32, Application>,
    recalled: Vec<u32>,
}

impl Model for Notes {
    ghost use Rattle.reroute_desk.specs.Notes.{Noted, noted_in};

    ghost Value = { Noted };

    ghost view = { noted_in };
}

impl Notes {
    /// Notes of nothing. Takes no memory.
    pub(crate) fn new(alloc: Global) -> Notes
        ensures { result ≡ no_notes }
    {
        Notes {
            alloc,
            read: 0,
            trips: BTreeMap::new(alloc),
            recalled: Vec::new(alloc),
        }
    }

    /// The numbers that were recalled, in order. Takes no memory.
    pub(crate) fn recalled(&self) -> &[u32]
        ensures { result.now ≡ self.now.recalled }
    {
        self.recalled.as_slice()
    }

    /// The trip of a permit, if one was issued with that number. Takes no memory.
    pub(crate) fn trip(&self, number: u32) -> Option<&Application>
        ensures { option_map (λ a. a.now) result ≡ noted_trip_of self.now number }
    {
        self.trips.get(&number)
    }

    /// Reads on to the end of the history. Where memory was wanting, nothing is noted any more, and the next time all is read
    /// again.
    pub(crate) fn read_on(&mut self, history: &[Entry]) -> Result<(), NoMemory>
        requires { AreNotes self.old history.now }
        ensures notes { AreNotes self.new history.now }
        ensures whole { OnOk result (self.new.read ≡ length history.now) }
    {
        let read = self.read_rest(history);
        if read.is_err() {
            *self = Notes::new(self.alloc);
        }
        read
    }

    // Reads on to the end of the history, where memory suffices.
    fn read_rest(&mut self, history: &[Entry]) -> Result<(), NoMemory>
        requires { AreNotes self.old history.now }
        ensures notes { OnOk result (AreNotes self.new history.now) }
        ensures whole { OnOk result (self.new.read ≡ length history.now) }
    {
        'entries: for at in self.read..history.len() {
            self.note(&history[at])?;
            self.read = at + 1;
        }
        Ok(())
    }

    // Notes what an entry issued and what it recalled.
    fn note(&mut self, entry: &Entry) -> Result<(), NoMemory>
        ensures read { self.new.read ≡ self.old.read }
        ensures recalled { OnOk result
            (self.new.recalled ≡ self.old.recalled ++ recalled_numbers entry.now.reply) }
        ensures trips { OnOk result ((n : ℕ) → noted_trip_of self.new n
            ≡ option_or (issued_by unasked n entry.now.call entry.now.reply) (noted_trip_of self.old n)) }
    {
        match &entry.reply {
            Reply::Issued { number, .. } => {
                let Some(application) = application_of(&entry.call) else {
                    return Ok(());
                };
                self.trips.insert(*number, unasked(application))?;
                Ok(())
            }
            Reply::Posted { recalled, .. } => {
                self.recalled.extend_from_slice(recalled.as_slice())?;
                Ok(())
            }
            _ => Ok(()),
        }
    }
}

// The application that a call is about.
fn application_of(call: &Call) -> Option<&Application>
    ensures { option_map (λ a. a.now) result ≡ application_in call.now }
{
    match call {
        Call::Submit { application, .. } | Call::Held { application } => Some(application),
        _ => None,
    }
}

// The same application without its asked routes.
fn unasked(application: &Application) -> Application
    ensures { result ≡ unasked application.now }
{
    Application::of_fields(
        application.truck(),
        application.from(),
        application.to(),
        None,
        application.first(),
        application.last(),
    )
}
