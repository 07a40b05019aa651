// What a field of a record refers to.

ghost use Rattle.std.specs.Prelude.{◌≡◌, IfOk, Some};
ghost use Rattle.day_text.specs.Causes.{or_bad};
ghost use Rattle.day_text.specs.declared.refusal.RecordCause.{RecordCause};

use crate::demands::or_bad;
use crate::refusal::{Cause, RecordCause};

/// The number of what a field, counted from 1, refers to by its name, or else that name is unknown.
pub(crate) fn known(found: Option<u32>, field: u32) -> Result<u32, Cause>
    ensures number { result ≡ or_bad (RecordCause.Unknown field) found }
    ensures found { IfOk result (λ number. found ≡ Some number) }
{
    or_bad(found, RecordCause::Unknown(field))
}
