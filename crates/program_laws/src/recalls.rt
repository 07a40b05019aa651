// What the text of `reroute` tells.

ghost use Rattle.program_laws.specs.EachLine.{EachRecallHasItsLine};

use analyst_pool::runs_are_one;

/// A law, and no code: the text that `reroute` writes for a day file is one line for each permit that its history recalls, in the
/// order of the recalls, and each line is that of the answer to the application for this permit once more.
pub fn each_recall_has_its_line()
    ensures { EachRecallHasItsLine }
{
    runs_are_one();
}
