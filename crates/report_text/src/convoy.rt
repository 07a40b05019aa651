// The text that `convoy` writes, and the line for trucks that are no convoy.

ghost use Rattle.std.specs.Prelude.{◌≡◌, IfOk, OnOk};
ghost use Rattle.std.specs.String.{string_bytes};
ghost use Rattle.day_text.specs.Spans.{IsProbeSpan};
ghost use Rattle.report_text.specs.Probes.{AddsOne};
ghost use Rattle.report_text.specs.Convoys.{IsConvoyReport, IsConvoyText, IsOnlyConvoyReport, convoy_refusal_line};

use crate::probes::{add_rating, add_span};
use convoy_moves::{Convoy, ConvoyRefusal};
use day_text::{Probe, Probes};
use hs20_truck::effects;
use names::NoMemory;
use span_rating::{Effects, fits};
use std::alloc::{AllocError, Global};

/// The report of `convoy`: what the convoy is, and the convoy on each of the probes. There is no other.
pub fn convoy_report(alloc: Global, convoy: &Convoy, probes: &Probes) -> Result<String, NoMemory>
    ensures report { IfOk result (λ text. IsConvoyReport convoy.now probes.now (string_bytes text)) }
    ensures only { IfOk result (λ text. IsOnlyConvoyReport convoy.now probes.now (string_bytes text)) }
{
    let probes = probes.as_slice();
    let trucks = convoy.trucks();
    let gap = convoy.gap();
    let axles = convoy.axles();
    let gross = convoy.gross();
    let mut text = String::new(alloc);
    write!(
        text,
        "convoy {trucks} gap {gap} axles {axles} gross {gross}\n"
    )?;
    for probe in probes {
        add_probe(&mut text, convoy, probe)?;
    }
    Ok(text)
}

/// The line for trucks that are no convoy: `refused: convoy C`, ended by one line feed, with the number of the refusal.
pub fn convoy_refusal_line(alloc: Global, refusal: ConvoyRefusal) -> Result<String, NoMemory>
    ensures { IfOk result (λ text. string_bytes text ≡ convoy_refusal_line refusal) }
{
    let number = refusal.number();
    let mut text = String::new(alloc);
    write!(text, "refused: convoy {number}\n")?;
    Ok(text)
}

// The convoy on one probe: the span, the convoy's peaks on it, and the judgement by the rating.
fn add_probe(text: &mut String, convoy: &Convoy, probe: &Probe) -> Result<(), AllocError>
    requires { IsProbeSpan probe.now }
    ensures { OnOk result (AddsOne (IsConvoyText convoy.now probe.now) (string_bytes text.old)
        (string_bytes text.new)) }
{
    let moment = convoy.moment(probe.inches);
    let shear = convoy.shear(probe.inches);
    let peaks = Effects { moment, shear };
    let design = effects(probe.inches);
    add_span(text, probe)?;
    write!(text, "moment {moment}\n")?;
    write!(text, "shear {shear}\n")?;
    add_rating(text, probe.rating, fits(&peaks, &design, probe.rating))
}
