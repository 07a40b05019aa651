// The permits that stand at the end of a history.

ghost use Rattle.std.specs.Prelude.{◌≡◌, IfOk, option_map};
ghost use Rattle.office_core.specs.Happened.{application_in};
ghost use Rattle.next_day.specs.Standing.{is_standing, standing_in, standing_of};

use names::NoMemory;
use office_core::Replay;
use office_words::{Call, Entry, Reply};
use std::alloc::Global;
use trip_analysis::Application;
use trip_routes::SharedRoutes;

/// A permit that stands: its number, the number of its holder, the application for which it was issued, and its routes.
#[derive(Drop)]
pub struct Standing {
    pub number: u32,
    pub holder: u32,
    pub trip: Application,
    pub routes: SharedRoutes,
}

/// The permits of a history that are in force, in the order of their numbers. What the office keeps behind the history says which.
pub(crate) fn find_standing(
    alloc: Global,
    office: &Replay,
    history: &[Entry],
) -> Result<Vec<Standing>, NoMemory>
    ensures { IfOk result (λ found. found.items ≡ standing_in office.now.machine history.now) }
{
    let mut found = Vec::new(alloc);
    'entries: for entry in history {
        if let Some(permit) = permit_of_entry(office, entry)? {
            found.push(permit)?;
        }
    }
    Ok(found)
}

// The permit that an entry issued, where it is in force.
fn permit_of_entry(office: &Replay, entry: &Entry) -> Result<Option<Standing>, NoMemory>
    ensures { IfOk result (λ permit.
        permit ≡ standing_of office.now.machine entry.now.caller (application_in entry.now.call) entry.now.reply) }
{
    let Some(trip) = application_of(&entry.call) else {
        return Ok(None);
    };
    let Reply::Issued { number, routes, .. } = &entry.reply else {
        return Ok(None);
    };
    if !is_in_force(office, *number) {
        return Ok(None);
    }
    Ok(Some(Standing {
        number: *number,
        holder: entry.caller,
        trip: trip.try_clone()?,
        routes: routes.clone()?,
    }))
}

// The application that a call is about.
fn application_of(call: &Call) -> Option<&Application>
    ensures { option_map (λ a. a.now) result ≡ application_in call.now }
{
    match call {
        Call::Submit { application, .. } => Some(application),
        Call::Held { application } => Some(application),
        _ => None,
    }
}

// Whether the permit of a number is in force.
fn is_in_force(office: &Replay, number: u32) -> bool
    ensures { result ≡ is_standing office.now.machine number }
{
    match office.permits().get((number as usize).saturating_sub(1)) {
        Some(permit) => permit.status(office.today()).is_in_force(),
        None => false,
    }
}
