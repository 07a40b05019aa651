// What `check` and `design` make: reports on one truck.

ghost use Rattle.std.specs.Prelude.{◌≡◌, IfErr, IfOk, Ok};
ghost use Rattle.day_text.specs.Checks.{check_of};
ghost use Rattle.permit_program.specs.Command.{IsRefusalBy, IsRefusalOf, Makes, refusal_in};
ghost use Rattle.permit_program.specs.Reports.{check, design};

use crate::refusal::Refusal;
use day_text::{CheckFile, read_check};
use report_text::{design_report, report};
use std::alloc::Global;

/// The report of `check` on the check file that the bytes are. There is no other. `Refused` has the status and the line
/// of the first refused record, by its row and its cause.
pub(crate) fn make_report(alloc: Global, bytes: &[u8]) -> Result<Vec<u8>, Refusal>
    ensures made { IfOk result (λ text. Makes check bytes.now text.items) }
    ensures refused { IfErr result (IsRefusalOf check bytes.now) }
{
    let file = check_file(alloc, bytes)?;
    let text = report(alloc, &file)?;
    Ok(text.into_bytes())
}

/// The same of `design`.
pub(crate) fn make_design_report(alloc: Global, bytes: &[u8]) -> Result<Vec<u8>, Refusal>
    ensures made { IfOk result (λ text. Makes design bytes.now text.items) }
    ensures refused { IfErr result (IsRefusalOf design bytes.now) }
{
    let file = check_file(alloc, bytes)?;
    let text = design_report(alloc, &file)?;
    Ok(text.into_bytes())
}

// The check file that the bytes are, or how they are refused.
fn check_file(alloc: Global, bytes: &[u8]) -> Result<CheckFile, Refusal>
    ensures read { IfOk result (λ file. check_of bytes.now ≡ Ok file) }
    ensures refused { IfErr result (IsRefusalBy (refusal_in (check_of bytes.now))) }
{
    match read_check(alloc, bytes) {
        Ok(file) => Ok(file),
        Err(refused) => Err(Refusal::of_file(alloc, refused)),
    }
}
