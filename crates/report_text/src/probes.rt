// The two lines that the reports on probes have in common.

ghost use Rattle.std.specs.Prelude.{OnOk};
ghost use Rattle.report_text.specs.Probes.{TextGrew, rating_line, span_line};

use day_text::Probe;
use span_rating::Fit;
use std::alloc::AllocError;

/// Adds the line of a span.
pub fn add_span(text: &mut String, probe: &Probe) -> Result<(), AllocError>
    ensures { OnOk result (TextGrew text.old text.new (span_line probe.now)) }
{
    let inches = probe.inches;
    write!(text, "span {inches}\n")
}

/// Adds the line of a rating, and of the judgement by it.
pub fn add_rating(text: &mut String, rating: u32, fit: Fit) -> Result<(), AllocError>
    ensures { OnOk result (TextGrew text.old text.new (rating_line rating fit)) }
{
    let name = match fit {
        Fit::Fits => "fits",
        Fit::Moment => "moment",
        Fit::Shear => "shear",
    };
    write!(text, "rating {rating} {name}\n")
}
