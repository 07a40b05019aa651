// The check file: a truck to be judged, and spans to try it on.

ghost use Rattle.std.specs.Prelude.{◌≡◌, ◌+◌, ◌++◌, ◌∷◌, [], Ok, IfOk, IfErr, OnOk};
ghost use Rattle.csv.specs.Records.{fields_of};
ghost use Rattle.day_text.specs.Refusals.{IsRefusedAs};
ghost use Rattle.day_text.specs.Spans.{AreSpans, IsProbeSpan};
ghost use Rattle.day_text.specs.Causes.{Grows, Judges, Tells};
ghost use Rattle.day_text.specs.Checks.{check_of, ended_check, is_check_kind, judge_check, judge_check_kind, judge_later, judge_truck, probes_of};

use crate::demands::{demand, has_only, limit, number_in};
use crate::fields::field;
use crate::records::{Progress, is_blank_from, read_records};
use crate::refusal::{FileRefusal, Kind, RecordCause, RecordRefusal};
use crate::truck::{load_of, parse_truck};
use csv::StringRecord;
use std::alloc::Global;
use std::marker::Model;
use trip_analysis::Truck;

/// A span to try the truck on: its inches (1 to 6,000), and its rating per mille of HS20-44 (at most 100,000).
#[derive(Clone, Copy, Drop, PartialEq, Eq)]
pub struct Probe {
    pub inches: u32,
    pub rating: u32,
}

/// The probes of a check file, in order.
#[derive(Drop)]
pub struct Probes {
    list: Vec<Probe>,
}

impl Model for Probes {
    ghost use Rattle.std.specs.Prelude.{List};
    ghost use Rattle.day_text.specs.declared.check_file.Probe.{Probe};
    ghost use Rattle.day_text.specs.Spans.{AreSpans};

    ghost Value = { List Probe };

    ghost view = { λ a. a.list.items };

    ghost invariant = { λ a. AreSpans a.list.items };
}

impl Probes {
    /// No probes.
    fn new(alloc: Global) -> Probes
        ensures { result ≡ [] }
    {
        Probes {
            list: Vec::new(alloc),
        }
    }

    /// The probes as a slice.
    pub fn as_slice(&self) -> &[Probe]
        ensures value { result.now ≡ self.now }
        ensures spans { AreSpans self.now }
    {
        self.list.as_slice()
    }

    /// Adds a probe at the end.
    fn push(&mut self, probe: Probe) -> Result<(), RecordRefusal>
        requires { IsProbeSpan probe }
        ensures ok { OnOk result (self.new ≡ self.old ++ probe ∷ []) }
        ensures memory { IfErr result (λ refusal. refusal ≡ RecordRefusal.NoMemory) }
    {
        self.list.push(probe)?;
        Ok(())
    }
}

/// A check file: the truck, and the probes in the order of their records.
#[derive(Drop)]
pub struct CheckFile {
    pub truck: Truck,
    pub probes: Probes,
}

/// How far the records have come.
#[derive(Drop)]
pub(crate) enum CheckProgress {
    Start,
    Open(CheckFile),
    Ended(CheckFile),
}

/// The check file that the bytes are. `Refused` comes exactly where they are none, with the first record that is refused and
/// the first cause that holds for it.
pub fn read_check(alloc: Global, bytes: &[u8]) -> Result<CheckFile, FileRefusal>
    ensures ok { IfOk result (λ file. check_of bytes.now ≡ Ok file) }
    ensures refused { IfErr result (λ refusal. IsRefusedAs (check_of bytes.now) refusal) }
{
    let (row, progress) = read_records(alloc, CheckProgress::Start, bytes)?;
    progress.finish(row)
}

impl CheckProgress {
    // The file, where its end was told. The row is that after the last.
    fn finish(self, row: u64) -> Result<CheckFile, FileRefusal>
        ensures { Tells result (ended_check (row, self)) }
    {
        match self {
            CheckProgress::Ended(file) => Ok(file),
            unended => {
                drop(unended);
                Err(RecordRefusal::bad(RecordCause::End).at(row))
            }
        }
    }
}

impl Progress for CheckProgress {
    ghost judge = { judge_check };

    fn take(self, alloc: Global, row: &StringRecord) -> Result<CheckProgress, RecordRefusal> {
        if is_check_kind(row) {
            take_kind(self, alloc, row)
        } else {
            drop(self);
            Err(RecordRefusal::bad(RecordCause::Kind))
        }
    }
}

// Whether the record is of a kind of this file.
fn is_check_kind(row: &StringRecord) -> bool
    ensures { result ≡ is_check_kind (fields_of row.now) }
{
    matches!(field(row, 0), "truck" | "probe" | "end")
}

// Where a record of a known kind leads.
fn take_kind(
    progress: CheckProgress,
    alloc: Global,
    row: &StringRecord,
) -> Result<CheckProgress, RecordRefusal>
    ensures { Judges result (judge_check_kind progress (fields_of row.now)) }
{
    match progress {
        CheckProgress::Start => take_truck(alloc, row),
        CheckProgress::Open(file) => take_later(file, row),
        CheckProgress::Ended(file) => {
            drop(file);
            Err(RecordRefusal::bad(RecordCause::Order))
        }
    }
}

// Where the first record leads: it is a truck.
#[tactic(auto, unfolding(crate::specs::Checks::judge_truck, crate::specs::Checks::checked_truck_of))]
fn take_truck(alloc: Global, row: &StringRecord) -> Result<CheckProgress, RecordRefusal>
    ensures { Judges result (judge_truck (fields_of row.now)) }
{
    if field(row, 0) != "truck" {
        return Err(RecordRefusal::bad(RecordCause::Order));
    }
    let truck = parse_truck(alloc, row)?;
    let load = load_of(&truck)?;
    Ok(CheckProgress::Open(CheckFile {
        truck: Truck {
            name: truck.name,
            carrier: truck.carrier,
            load,
        },
        probes: Probes::new(alloc),
    }))
}

// Where a record behind the truck leads: it is a probe or the end.
#[tactic(auto, unfolding(crate::specs::Checks::judge_later, crate::specs::Checks::judge_probe, crate::specs::Checks::judge_end))]
fn take_later(file: CheckFile, row: &StringRecord) -> Result<CheckProgress, RecordRefusal>
    ensures { Judges result (judge_later file (fields_of row.now)) }
{
    match field(row, 0) {
        "truck" => {
            drop(file);
            Err(RecordRefusal::bad(RecordCause::Order))
        }
        "probe" => {
            let mut file = file;
            match add_probe(&mut file.probes, row) {
                Ok(()) => Ok(CheckProgress::Open(file)),
                Err(refusal) => {
                    drop(file);
                    Err(refusal)
                }
            }
        }
        _ if is_blank_from(row, 1) => Ok(CheckProgress::Ended(file)),
        _ => {
            drop(file);
            Err(RecordRefusal::bad(RecordCause::Extra))
        }
    }
}

// Adds the probe of a record, behind those that are there.
#[tactic(auto, unfolding(crate::specs::Checks::probe_of))]
fn add_probe(probes: &mut Probes, row: &StringRecord) -> Result<(), RecordRefusal>
    ensures { Grows result probes.new (probes_of probes.old (fields_of row.now)) }
{
    has_only(row, 3)?;
    let inches = number_in(row, 2)?;
    let rating = number_in(row, 3)?;
    demand(1 <= inches && inches <= 6000, RecordCause::Range(2))?;
    demand(rating <= 100_000, RecordCause::Range(3))?;
    limit(probes.as_slice().len() < 64, Kind::Probes)?;
    probes.push(Probe { inches, rating })
}
