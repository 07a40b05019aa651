// The formats of journals: which entries each has words for.

ghost use Rattle.std.specs.Prelude.{◌≡◌};
ghost use Rattle.journal_text.specs.Formats.{are_several, asks_several, is_said_in, seeks_several, tells_several, tells_tridem};
ghost use Rattle.journal_text.specs.Journals.{first_line};

use clearance_rules::Limit;
use office_words::{Call, Cause, Entry, Reply};
use restriction_log::Change;
use trip_analysis::{Application, What};
use trip_routes::SharedRoutes;

/// A format of journals, by its number. A line has one text in all of them, and they differ in what may stand in them.
#[derive(Clone, Copy, PartialEq, Eq)]
pub enum Format {
    /// No limit on tridem groups is posted or named, and wherever routes stand there is one.
    One,
    /// Wherever routes stand there is one.
    Two,
    /// All that an office answers.
    Three,
}

impl Format {
    /// The first line of a journal in this format, without its line feed. Takes no memory.
    pub fn first_line(self) -> &'static str
        ensures { result.now ≡ first_line self }
    {
        match self {
            Format::One => "permit-journal 1",
            Format::Two => "permit-journal 2",
            Format::Three => "permit-journal 3",
        }
    }

    /// Whether a journal of this format has words for the entry. Takes no memory.
    pub fn has_words_for(self, entry: &Entry) -> bool
        ensures { result ≡ is_said_in self entry.now }
    {
        match self {
            Format::One => !tells_several(entry) && !tells_tridem(entry),
            Format::Two => !tells_several(entry),
            Format::Three => true,
        }
    }
}

// Whether more than one route is asked for, is found or is issued.
fn tells_several(entry: &Entry) -> bool
    ensures { result ≡ tells_several entry.now }
{
    asks_several(&entry.call)
        || matches!(&entry.reply, Reply::Issued { routes, .. } if are_several(routes))
}

fn asks_several(call: &Call) -> bool
    ensures { result ≡ asks_several call.now }
{
    match call {
        Call::Submit {
            application,
            proposal,
        } => {
            seeks_several(application)
                || matches!(&proposal.what, What::Route(routes) if are_several(routes))
        }
        Call::Held { application } => seeks_several(application),
        _ => false,
    }
}

fn seeks_several(application: &Application) -> bool
    ensures { result ≡ seeks_several application.now.asked }
{
    match application.asked() {
        Some(routes) => are_several(routes),
        None => false,
    }
}

fn are_several(routes: &SharedRoutes) -> bool
    ensures { result ≡ are_several routes.now }
{
    routes.len() > 1
}

// Whether a limit on tridem groups is posted, or is the one that fails.
fn tells_tridem(entry: &Entry) -> bool
    ensures { result ≡ tells_tridem entry.now }
{
    matches!(
        &entry.call,
        Call::Post {
            change: Change::Tridem { .. }
        }
    ) || matches!(
        &entry.reply,
        Reply::Refused {
            limit: Limit::Tridem { .. },
            ..
        } | Reply::Outdated {
            cause: Cause::NowFails {
                limit: Limit::Tridem { .. }
            },
            ..
        }
    )
}
