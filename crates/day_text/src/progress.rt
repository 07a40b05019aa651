// Where each record of a day file leads.
//
// What was said so far is let go by a call of `drop`: where a scope lets it go, the proof of the whole function goes through
// its parts.

ghost use Rattle.std.specs.Prelude.{◌≡◌, Ok, Err, OnOk, IfErr};
ghost use Rattle.csv.specs.Records.{fields_of};
ghost use Rattle.day_text.specs.Causes.{Judges};
ghost use Rattle.day_text.specs.Days.{come_to, judge_day, judge_kind};

use crate::actors::Actors;
use crate::adding::add;
use crate::day_so_far::{DaySoFar, Growing};
use crate::demands::{day_in, has_only, or_bad};
use crate::fields::field;
use crate::kind::{RecordKind, parse_kind};
use crate::orders::Orders;
use crate::records::Progress;
use crate::refusal::{RecordCause, RecordRefusal};
use crate::trucks::Fleet;
use csv::StringRecord;
use road_graph::Network;
use std::alloc::Global;

/// How far the records have come.
#[derive(Drop)]
pub(crate) enum DayProgress {
    Start,
    Open(Growing),
    Ended(Growing),
}

impl Progress for DayProgress {
    ghost judge = { judge_day };

    fn take(self, alloc: Global, row: &StringRecord) -> Result<DayProgress, RecordRefusal> {
        match parse_kind(field(row, 0)) {
            Some(kind) => take_kind(self, alloc, kind, row),
            None => {
                drop(self);
                Err(RecordRefusal::bad(RecordCause::Kind))
            }
        }
    }
}

// Where a record of a known kind leads.
fn take_kind(
    progress: DayProgress,
    alloc: Global,
    kind: RecordKind,
    row: &StringRecord,
) -> Result<DayProgress, RecordRefusal>
    ensures { Judges result (judge_kind progress kind (fields_of row.now)) }
{
    match progress {
        DayProgress::Start => take_opening(alloc, kind, row),
        DayProgress::Open(growing) => take_later(alloc, growing, kind, row),
        DayProgress::Ended(growing) => {
            drop(growing);
            Err(RecordRefusal::bad(RecordCause::Order))
        }
    }
}

// Where the first record leads: it is a day.
#[tactic(auto, unfolding(crate::specs::Days::opening_of))]
fn take_opening(
    alloc: Global,
    kind: RecordKind,
    row: &StringRecord,
) -> Result<DayProgress, RecordRefusal>
    ensures { Judges result (judge_kind DayProgress.Start kind (fields_of row.now)) }
{
    match kind {
        RecordKind::Day => {
            has_only(row, 2)?;
            let day = or_bad(day_in(row, 2)?, RecordCause::Range(2))?;
            let so_far = DaySoFar {
                network: Network::new(alloc),
                day,
                fleet: Fleet::new(alloc),
                actors: Actors::new(alloc),
                orders: Orders::new(alloc),
            };
            Ok(DayProgress::Open(Growing::new(alloc, so_far)?))
        }
        _ => Err(RecordRefusal::bad(RecordCause::Order)),
    }
}

// Where a record behind the day leads.
fn take_later(
    alloc: Global,
    growing: Growing,
    kind: RecordKind,
    row: &StringRecord,
) -> Result<DayProgress, RecordRefusal>
    ensures { Judges result (judge_kind (DayProgress.Open growing) kind (fields_of row.now)) }
{
    let mut growing = growing;
    match kind {
        RecordKind::Day => {
            drop(growing);
            Err(RecordRefusal::bad(RecordCause::Order))
        }
        kind => {
            let taken = add(alloc, &mut growing.so_far, kind, row);
            come_to(kind, growing, taken)
        }
    }
}

// Where a record leads that was taken; where it was refused, what was said so far is let go.
fn come_to(
    kind: RecordKind,
    growing: Growing,
    taken: Result<(), RecordRefusal>,
) -> Result<DayProgress, RecordRefusal>
    ensures taken { OnOk taken (result ≡ Ok (come_to kind growing)) }
    ensures refused { IfErr taken (λ why. result ≡ Err why) }
{
    match (taken, kind) {
        (Ok(()), RecordKind::End) => Ok(DayProgress::Ended(growing)),
        (Ok(()), _) => Ok(DayProgress::Open(growing)),
        (Err(refusal), _) => {
            drop(growing);
            Err(refusal)
        }
    }
}
