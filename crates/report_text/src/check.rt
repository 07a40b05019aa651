// The text that `check` writes.

ghost use Rattle.std.specs.Prelude.{◌≡◌, IfOk, OnOk};
ghost use Rattle.std.specs.List.{flat_map};
ghost use Rattle.std.specs.String.{string_bytes};
ghost use Rattle.day_text.specs.Spans.{IsProbeSpan};
ghost use Rattle.report_text.specs.Probes.{AddsOne, TextGrew};
ghost use Rattle.report_text.specs.Checks.{IsOnlyReport, IsProbeText, IsReport, ReportIsOne, design_line, moment_peak_line, over_line, rule_name, shear_peak_line, truck_text};

use crate::probes::{add_rating, add_span};
use axle_limits::{Finding, LEGAL_HEIGHT, LEGAL_WIDTH, Rule, findings};
use axle_train::Train;
use day_text::{CheckFile, Probe};
use hs20_truck::effects;
use influence_line::{End, Place};
use moment_peak::MomentPeak;
use names::NoMemory;
use shear_peak::ShearPeak;
use span_rating::{Effects, fits};
use std::alloc::{AllocError, Global};
use trip_analysis::Truck;

/// The report on a check file: its truck, and then its truck on each of its probes. There is no other.
pub fn report(alloc: Global, file: &CheckFile) -> Result<String, NoMemory>
    ensures report { IfOk result (λ text. IsReport file.now (string_bytes text)) }
    ensures only { IfOk result (λ text. IsOnlyReport file.now (string_bytes text)) }
{
    let train = file.truck.load.train();
    let probes = file.probes.as_slice();
    report_is_one();
    let mut text = truck_report(alloc, &file.truck)?;
    for probe in probes {
        add_probe(&mut text, train, probe)?;
    }
    Ok(text)
}

/// A law, and no code: a check file has one report.
pub fn report_is_one()
    ensures { ReportIsOne }
{}

// The report on a truck alone.
fn truck_report(alloc: Global, truck: &Truck) -> Result<String, NoMemory>
    ensures { IfOk result (λ text. string_bytes text ≡ truck_text truck.now) }
{
    let name = truck.name;
    let load = &truck.load;
    let train = load.train();
    let axles = train.len();
    let gross = train.gross();
    let found = findings(alloc, train)?;
    let mut text = String::new(alloc);
    write!(text, "truck {name} axles {axles} gross {gross}\n")?;
    add_findings(&mut text, found.as_slice())?;
    let height = load.height();
    if height > LEGAL_HEIGHT {
        write!(text, "high {height} {LEGAL_HEIGHT}\n")?;
    }
    let width = load.width();
    if width > LEGAL_WIDTH {
        write!(text, "wide {width} {LEGAL_WIDTH}\n")?;
    }
    let legal = if load.legal() { "yes" } else { "no" };
    write!(text, "legal {legal}\n")?;
    Ok(text)
}

// Each group over its limit, and the gross weight where it is over its own, with axles counted from 1.
fn add_findings(text: &mut String, found: &[Finding]) -> Result<(), AllocError>
    ensures { OnOk result (TextGrew text.old text.new (flat_map over_line found.now)) }
{
    for finding in found {
        let first = finding.i as u128 + 1;
        let last = finding.j as u128 + 1;
        let weight = finding.weight;
        let limit = finding.limit;
        let rule = rule_name(finding.rule);
        write!(text, "over {first}-{last} {weight} {limit} {rule}\n")?;
    }
    Ok(())
}

// The name of a rule.
fn rule_name(rule: Rule) -> &'static str
    ensures { result.now ≡ rule_name rule }
{
    match rule {
        Rule::Single => "single",
        Rule::Tandem => "tandem",
        Rule::Formula => "formula",
        Rule::TwoTandem => "two-tandem",
        Rule::Gross => "gross",
    }
}

// The truck on one probe: the span and the truck's peaks on it, those of the HS20-44 truck, and the judgement by the rating.
fn add_probe(text: &mut String, train: &Train, probe: &Probe) -> Result<(), AllocError>
    requires { IsProbeSpan probe.now }
    ensures { OnOk result (AddsOne (IsProbeText train.now probe.now) (string_bytes text.old)
        (string_bytes text.new)) }
{
    let moment = moment_peak::peak(train, probe.inches);
    let shear = shear_peak::peak(train, probe.inches);
    let truck = Effects {
        moment: moment.value,
        shear: shear.value,
    };
    let design = effects(probe.inches);
    add_span(text, probe)?;
    add_moment(text, &moment)?;
    add_shear(text, &shear)?;
    add_design(text, &design)?;
    add_rating(text, probe.rating, fits(&truck, &design, probe.rating))
}

// A peak moment, with axles counted from 1.
fn add_moment(text: &mut String, peak: &MomentPeak) -> Result<(), AllocError>
    ensures { OnOk result (TextGrew text.old text.new (moment_peak_line peak.now)) }
{
    let value = peak.value;
    let Place { q, lead, section } = peak.place;
    let axle = peak.axle as u128 + 1;
    let first = peak.first as u128 + 1;
    let last = peak.last as u128 + 1;
    write!(
        text,
        "moment {value} at {q} {lead} {section} axle {axle} run {first}-{last}\n"
    )
}

// A peak end shear.
fn add_shear(text: &mut String, peak: &ShearPeak) -> Result<(), AllocError>
    ensures { OnOk result (TextGrew text.old text.new (shear_peak_line peak.now)) }
{
    let value = peak.value;
    let lead = peak.lead;
    let end = match peak.end {
        End::Left => "left",
        End::Right => "right",
    };
    write!(text, "shear {value} at {lead} {end}\n")
}

// The peaks of the HS20-44 truck.
fn add_design(text: &mut String, design: &Effects) -> Result<(), AllocError>
    ensures { OnOk result (TextGrew text.old text.new (design_line design.now)) }
{
    let moment = design.moment;
    let shear = design.shear;
    write!(text, "hs20 {moment} {shear}\n")
}
