// What a record adds to what was said so far.

ghost use Rattle.std.specs.Prelude.{◌≡◌, ◌≢◌};
ghost use Rattle.csv.specs.Records.{fields_of};
ghost use Rattle.day_text.specs.Causes.{Grows};
ghost use Rattle.day_text.specs.Days.{added};

use crate::commands::{parse_apply, parse_permit, parse_post, parse_set_day};
use crate::day_so_far::DaySoFar;
use crate::demands::has_only;
use crate::kind::RecordKind;
use crate::members::{add_actor, add_truck};
use crate::orders::Order;
use crate::refusal::RecordRefusal;
use crate::roads::{add_node, add_segment, add_span, set_limit};
use csv::StringRecord;
use office_words::Command;
use std::alloc::Global;

/// Adds what a record of this kind says, which stands behind the day.
pub(crate) fn add(
    alloc: Global,
    so_far: &mut DaySoFar,
    kind: RecordKind,
    row: &StringRecord,
) -> Result<(), RecordRefusal>
    requires { kind ≢ RecordKind.Day }
    ensures { Grows result so_far.new (added so_far.old kind (fields_of row.now)) }
{
    match kind {
        RecordKind::Node => add_node(&mut so_far.network, row),
        RecordKind::Segment => add_segment(&mut so_far.network, row),
        RecordKind::Limit => set_limit(&mut so_far.network, row),
        RecordKind::Span => add_span(&mut so_far.network, row),
        RecordKind::Truck => add_truck(alloc, &mut so_far.fleet, row),
        RecordKind::Actor => add_actor(&mut so_far.actors, row),
        RecordKind::Apply => {
            let order = parse_apply(alloc, so_far, row)?;
            so_far.orders.push(order)
        }
        RecordKind::Post => {
            let order = parse_post(so_far, row)?;
            so_far.orders.push(order)
        }
        RecordKind::SetDay => {
            let order = parse_set_day(so_far, row)?;
            so_far.orders.push(order)
        }
        RecordKind::Surrender => {
            let (actor, number) = parse_permit(so_far, row)?;
            let command = Command::Surrender(number);
            so_far.orders.push(Order { actor, command })
        }
        RecordKind::Show => {
            let (actor, number) = parse_permit(so_far, row)?;
            let command = Command::Show(number);
            so_far.orders.push(Order { actor, command })
        }
        RecordKind::End => Ok(has_only(row, 1)?),
        RecordKind::Day => unreachable!(),
    }
}
