// The records of commands.

ghost use Rattle.std.specs.Prelude.{◌≡◌};
ghost use Rattle.csv.specs.Records.{fields_of};
ghost use Rattle.day_text.specs.Causes.{Judges};
ghost use Rattle.day_text.specs.Commands.{apply_fields_of, apply_of, cause_of, asked_permit_of, post_of, posting_of, resolved_of, set_day_of};

use crate::asked::find_asked;
use crate::day_so_far::DaySoFar;
use crate::demands::{day_in, demand, has_only, name_in, number_in, or_bad};
use crate::fields::field;
use crate::orders::Order;
use crate::posted::{Posted, parse_posted};
use crate::referred::known;
use crate::refusal::{Cause, RecordCause, RecordRefusal};
use crate::route::{RouteField, parse_routes};
use csv::StringRecord;
use names::Name;
use office_words::Command;
use permit_days::Day;
use restriction_log::Change;
use road_graph::{Network, Span};
use std::alloc::Global;
use trip_analysis::{Application, ApplicationRefusal};

/// The fields of an application's record, each in its form. A day that the calendar lacks is none.
#[derive(Drop)]
pub(crate) struct ApplyFields<'a> {
    pub actor: Name,
    pub truck: Name,
    pub from: Name,
    pub to: Name,
    pub routes: RouteField<'a>,
    pub first: Option<Day>,
    pub last: Option<Day>,
}

/// The application of a record, for its actor: the fields in their forms first, and then what they refer to.
pub(crate) fn parse_apply(
    alloc: Global,
    so_far: &DaySoFar,
    row: &StringRecord,
) -> Result<Order, RecordRefusal>
    ensures { Judges result (apply_of so_far.now (fields_of row.now)) }
{
    let fields = parse_apply_fields(row)?;
    resolve(alloc, so_far, &fields)
}

// The application of some fields: what each of them refers to.
#[tactic(auto, unfolding(crate::specs::Commands::resolved_of))]
fn resolve(
    alloc: Global,
    so_far: &DaySoFar,
    fields: &ApplyFields<'_>,
) -> Result<Order, RecordRefusal>
    ensures { Judges result (resolved_of so_far.now fields.now) }
{
    let actor = known(so_far.actors.number(&fields.actor), 2)?;
    let truck = known(so_far.fleet.number(&fields.truck), 3)?;
    let from = known(so_far.network.node_named(&fields.from), 4)?;
    let to = known(so_far.network.node_named(&fields.to), 5)?;
    let asked = find_asked(alloc, &so_far.network, &fields.routes)?;
    let first = or_bad(fields.first, RecordCause::Range(7))?;
    let last = or_bad(fields.last, RecordCause::Range(8))?;
    let application = Application::of_fields(truck, from, to, asked, first, last);
    match application.checked_on(&so_far.network) {
        Ok(application) => Ok(Order {
            actor,
            command: Command::Apply(application),
        }),
        Err(refusal) => Err(RecordRefusal::bad(cause_of(refusal))),
    }
}

/// The posting of a record, for its actor.
#[tactic(auto, unfolding(crate::specs::Commands::post_of))]
pub(crate) fn parse_post(so_far: &DaySoFar, row: &StringRecord) -> Result<Order, RecordRefusal>
    ensures { Judges result (post_of so_far.now (fields_of row.now)) }
{
    has_only(row, 5)?;
    let actor = name_in(row, 2)?;
    let item = name_in(row, 3)?;
    let what = or_bad(parse_posted(field(row, 3)), RecordCause::Field(4))?;
    let value = number_in(row, 5)?;
    let actor = known(so_far.actors.number(&actor), 2)?;
    let change = posting(&so_far.network, what, &item, value)?;
    Ok(Order {
        actor,
        command: Command::Post(change),
    })
}

/// The setting of the day of a record, for its actor.
#[tactic(auto, unfolding(crate::specs::Commands::set_day_of))]
pub(crate) fn parse_set_day(so_far: &DaySoFar, row: &StringRecord) -> Result<Order, RecordRefusal>
    ensures { Judges result (set_day_of so_far.now (fields_of row.now)) }
{
    has_only(row, 3)?;
    let actor = name_in(row, 2)?;
    let day = day_in(row, 3)?;
    let actor = known(so_far.actors.number(&actor), 2)?;
    let day = or_bad(day, RecordCause::Range(3))?;
    Ok(Order {
        actor,
        command: Command::Day(day),
    })
}

// The fields of an application's record.
#[tactic(auto, unfolding(crate::specs::Commands::apply_fields_of))]
fn parse_apply_fields(row: &StringRecord) -> Result<ApplyFields<'_>, Cause>
    ensures { result ≡ apply_fields_of (fields_of row.now) }
{
    has_only(row, 8)?;
    let actor = name_in(row, 2)?;
    let truck = name_in(row, 3)?;
    let from = name_in(row, 4)?;
    let to = name_in(row, 5)?;
    let routes = or_bad(parse_routes(field(row, 5)), RecordCause::Field(6))?;
    let first = day_in(row, 7)?;
    let last = day_in(row, 8)?;
    Ok(ApplyFields {
        actor,
        truck,
        from,
        to,
        routes,
        first,
        last,
    })
}

// The cause of a record whose application is refused.
fn cause_of(refusal: ApplicationRefusal) -> RecordCause
    ensures { result ≡ cause_of refusal }
{
    match refusal {
        ApplicationRefusal::SamePlace => RecordCause::SamePlace,
        ApplicationRefusal::BrokenRoute { .. } => RecordCause::BrokenRoute,
        ApplicationRefusal::DayOrder => RecordCause::DayOrder,
        ApplicationRefusal::AnnualDays { .. } => RecordCause::AnnualDays,
    }
}

// The change that a posting makes.
#[tactic(auto, unfolding(crate::specs::Commands::posting_of))]
fn posting(network: &Network, what: Posted, item: &Name, value: u32) -> Result<Change, Cause>
    ensures { result ≡ posting_of network.now what item.now value }
{
    match what {
        Posted::Limit(what) => {
            let segment = known(network.segment_named(item), 3)?;
            demand(what.takes(value), RecordCause::Range(5))?;
            Ok(Change::of(segment, what, value))
        }
        Posted::Rating => {
            let span = known(network.span_named(item), 3)?;
            demand(Span::takes_rating(value), RecordCause::Range(5))?;
            Ok(Change::Rating {
                span,
                permille: value,
            })
        }
    }
}

/// The actor and the permit's number of a record.
#[tactic(auto, unfolding(crate::specs::Commands::asked_permit_of))]
pub(crate) fn parse_permit(so_far: &DaySoFar, row: &StringRecord) -> Result<(u32, u32), Cause>
    ensures { result ≡ asked_permit_of so_far.now (fields_of row.now) }
{
    has_only(row, 3)?;
    let actor = name_in(row, 2)?;
    let number = number_in(row, 3)?;
    let actor = known(so_far.actors.number(&actor), 2)?;
    Ok((actor, number))
}
