// The text that `design` writes.

ghost use Rattle.std.specs.Prelude.{◌≡◌, IfOk, OnOk};
ghost use Rattle.std.specs.String.{string_bytes};
ghost use Rattle.day_text.specs.Spans.{IsProbeSpan};
ghost use Rattle.report_text.specs.Probes.{AddsOne};
ghost use Rattle.report_text.specs.Designs.{IsDesignReport, IsDesignText, IsOnlyDesignReport, load_name};

use crate::probes::{add_rating, add_span};
use axle_train::Train;
use day_text::{CheckFile, Probe};
use design_loads::{By, fits_greatest, greatest};
use hs20_truck::effects_of;
use names::NoMemory;
use std::alloc::{AllocError, Global};

/// The report of `design` on a check file: its truck on each of its probes, beside the greatest moment and the greatest
/// end shear of the three design loads, each with the first load that reaches it. There is no other.
pub fn design_report(alloc: Global, file: &CheckFile) -> Result<String, NoMemory>
    ensures report { IfOk result (λ text. IsDesignReport file.now (string_bytes text)) }
    ensures only { IfOk result (λ text. IsOnlyDesignReport file.now (string_bytes text)) }
{
    let train = file.truck.load.train();
    let probes = file.probes.as_slice();
    let mut text = String::new(alloc);
    for probe in probes {
        add_probe(&mut text, train, probe)?;
    }
    Ok(text)
}

// The truck on one probe: the span, the greatest effects of the design loads on it, each with the load that it is of, and the
// judgement by the rating.
fn add_probe(text: &mut String, train: &Train, probe: &Probe) -> Result<(), AllocError>
    requires { IsProbeSpan probe.now }
    ensures { OnOk result (AddsOne (IsDesignText train.now probe.now) (string_bytes text.old)
        (string_bytes text.new)) }
{
    let truck = effects_of(train, probe.inches);
    let design = greatest(probe.inches);
    let moment = design.moment;
    let moment_by = load_name(design.moment_by);
    let shear = design.shear;
    let shear_by = load_name(design.shear_by);
    add_span(text, probe)?;
    write!(text, "moment {moment} {moment_by}\n")?;
    write!(text, "shear {shear} {shear_by}\n")?;
    add_rating(
        text,
        probe.rating,
        fits_greatest(&truck, &design, probe.rating),
    )
}

// The name of a design load.
fn load_name(by: By) -> &'static str
    ensures { result.now ≡ load_name by }
{
    match by {
        By::Truck => "truck",
        By::Lane => "lane",
        By::Military => "military",
    }
}
