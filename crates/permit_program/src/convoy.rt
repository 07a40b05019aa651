// What `convoy` makes: the report on trucks that follow each other.

ghost use Rattle.std.specs.Prelude.{IfErr, IfOk};
ghost use Rattle.command_line.specs.Asking.{NumbersAreInRange};
ghost use Rattle.permit_program.specs.Command.{IsRefusalOf, Makes};
ghost use Rattle.permit_program.specs.Convoy.{convoy};

use crate::refusal::Refusal;
use command_line::Options;
use convoy_moves::Convoy;
use day_text::read_check;
use report_text::convoy_report;
use std::alloc::Global;

/// The report of `convoy` on the check file that the bytes are, with as many trucks and as small a gap as the options say.
/// There is no other.
///
/// `Refused` has the status and the line of the first refused record, by its row and its cause; or, where no record is
/// refused, status 5 and the line of the first limit that the trucks pass.
pub(crate) fn make_convoy_report(
    alloc: Global,
    options: Options,
    bytes: &[u8],
) -> Result<Vec<u8>, Refusal>
    requires { NumbersAreInRange options }
    ensures made { IfOk result (λ text. Makes (convoy options.trucks options.gap) bytes.now text.items) }
    ensures refused { IfErr result (IsRefusalOf (convoy options.trucks options.gap) bytes.now) }
{
    let file = match read_check(alloc, bytes) {
        Ok(file) => file,
        Err(refused) => return Err(Refusal::of_file(alloc, refused)),
    };
    let convoy = match Convoy::new(file.truck.load.train(), options.trucks, options.gap) {
        Ok(convoy) => convoy,
        Err(refused) => return Err(Refusal::of_convoy(alloc, refused)),
    };
    let text = convoy_report(alloc, &convoy, &file.probes)?;
    Ok(text.into_bytes())
}
