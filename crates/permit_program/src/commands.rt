// The list of the commands: which read the source, and what each makes of its bytes.

ghost use Rattle.std.specs.Prelude.{◌≡◌, ◌≢◌, ◌≤◌, IfErr, IfOk, length};
ghost use Rattle.command_line.specs.Asking.{NumbersAreInRange};
ghost use Rattle.command_line.specs.declared.asked.Task.TheVariants as task;
ghost use Rattle.permit_program.specs.Command.{IsRefusalOf, Makes};
ghost use Rattle.permit_program.specs.Commands.{command_of};
ghost use Rattle.permit_program.specs.Runs.{most_bytes};

use crate::audit::make_audit;
use crate::convoy::make_convoy_report;
use crate::made::{make_day_file, make_summary};
use crate::refusal::Refusal;
use crate::reports::{make_design_report, make_report};
use crate::reroute::make_reroute_report;
use command_line::{Asked, Task};
use std::alloc::Global;

/// Whether the command reads what the source has left.
pub(crate) fn reads(asked: Asked) -> bool
    ensures { result ≡ (command_of asked).reads }
{
    match asked.task {
        Task::Check | Task::Day | Task::Audit | Task::Design | Task::Convoy | Task::Reroute => true,
        Task::Make | Task::Trial => false,
    }
}

/// The text that a command makes of bytes, where it needs no threads.
pub(crate) fn make_text(alloc: Global, asked: Asked, bytes: &[u8]) -> Result<Vec<u8>, Refusal>
    requires alone { asked.task ≢ task.Day }
    requires range { NumbersAreInRange asked.options }
    requires few { length bytes.now ≤ most_bytes }
    ensures made { IfOk result (λ text. Makes (command_of asked) bytes.now text.items) }
    ensures refused { IfErr result (IsRefusalOf (command_of asked) bytes.now) }
{
    let options = asked.options;
    match asked.task {
        Task::Check => make_report(alloc, bytes),
        Task::Make => Ok(make_day_file(alloc, options.seed, options.size)?),
        Task::Trial => Ok(make_summary(alloc, options.seed, options.size)?),
        Task::Audit => make_audit(alloc, bytes),
        Task::Design => make_design_report(alloc, bytes),
        Task::Convoy => make_convoy_report(alloc, options, bytes),
        Task::Reroute => make_reroute_report(alloc, bytes),
        Task::Day => unreachable!(),
    }
}
