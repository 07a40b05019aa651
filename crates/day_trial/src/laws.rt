// Laws of the histories of a day on one thread.

ghost use Rattle.day_trial.specs.Serial.{SerialHistoriesAreOne};
ghost use Rattle.day_trial.specs.Rerouted.{FewCommandsAreNotTooLong, ReroutedHistoriesAreOne, ReroutedHistoriesAreShort};

use analyst_pool::runs_are_one;
use office_core::answers_are_one;

/// A law, and no code: over roads within their bounds, a day file has one history in which its commands are carried out one
/// after another in the order of the file.
pub fn serial_histories_are_one()
    ensures { SerialHistoriesAreOne }
{
    runs_are_one();
}

/// A law, and no code: over roads within their bounds, a day file has one history in which its commands are carried out one
/// after another in the order of the file, and after each of them its recalled permits are applied for again.
pub fn rerouted_histories_are_one()
    ensures { ReroutedHistoriesAreOne }
{
    runs_are_one();
    answers_are_one();
}

/// A law, and no code: over roads within their bounds, a day file of n commands has no such history of more than n times n and 2
/// times n entries, and one of up to 999 commands is not too long for an office.
pub fn rerouted_histories_are_short()
    ensures all { ReroutedHistoriesAreShort }
    ensures few { FewCommandsAreNotTooLong }
{
    runs_are_one();
}
