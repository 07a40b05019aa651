// What `reroute` makes: a line for each permit that the day recalls.

ghost use Rattle.std.specs.Prelude.{IfErr, IfOk};
ghost use Rattle.permit_program.specs.Command.{IsRefusalOf, Makes};
ghost use Rattle.permit_program.specs.Reroute.{reroute};

use crate::refusal::Refusal;
use day_text::read_day;
use day_trial::{ServingRefusal, rerouted_histories_are_one, serve_rerouted};
use report_text::reroute_report;
use std::alloc::Global;

/// A line for each permit that is recalled where the commands of the day file that the bytes are, are carried out one after another
/// on one thread, and each recalled permit is applied for again: the permit that replaces it, or the limit that its trip fails
/// then. There is no other text.
///
/// `Refused` has the status and the line of the first refused record, by its row and its cause; or, where no record is refused,
/// status 10 where this makes more than 1,000,000 entries.
pub(crate) fn make_reroute_report(alloc: Global, bytes: &[u8]) -> Result<Vec<u8>, Refusal>
    ensures made { IfOk result (λ text. Makes reroute bytes.now text.items) }
    ensures refused { IfErr result (IsRefusalOf reroute bytes.now) }
{
    let file = match read_day(alloc, bytes) {
        Ok(file) => file,
        Err(refused) => return Err(Refusal::of_file(alloc, refused)),
    };
    // the number that no actor has
    let caller = file.actors().len() as u32;
    let office = match serve_rerouted(alloc, file) {
        Ok(office) => office,
        Err(ServingRefusal::TooMany) => return Err(Refusal::of_entries(alloc)),
        Err(ServingRefusal::NoMemory) => return Err(Refusal::NoMemory),
    };
    // the law by which a day file has one such history
    rerouted_histories_are_one();
    let text = reroute_report(alloc, caller, office.history());
    // an office has many parts, so it is let go in one place
    drop(office);
    Ok(text?)
}
