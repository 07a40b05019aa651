// Parts of a line, each as a text of its own.

ghost use Rattle.std.specs.Prelude.{◌≡◌, ◌∷◌, IfOk};
ghost use Rattle.journal_text.specs.Parts.{BeginsWithSpace, limit_text};
ghost use Rattle.journal_text.specs.Words.{routes_text};

use crate::limits::limit;
use crate::lists::LastList;
use crate::words::route_lists;
use clearance_rules::Limit;
use names::NoMemory;
use std::alloc::Global;
use trip_routes::SharedRoutes;

/// A limit that fails, as it stands in a line: its words with one space between them. `NoMemory` where no memory was left.
pub fn limit_text(alloc: Global, failing: &Limit) -> Result<Vec<u8>, NoMemory>
    ensures { IfOk result (λ text. text.items ≡ limit_text failing.now) }
{
    let mut text = Vec::new(alloc);
    limit(&mut text, failing)?;
    drop_space(&mut text);
    Ok(text)
}

/// Routes, as they stand in a line: their lists with slashes between them. `NoMemory` where no memory was left.
pub fn routes_text(alloc: Global, routes: &SharedRoutes) -> Result<Vec<u8>, NoMemory>
    ensures { IfOk result (λ text. text.items ≡ routes_text routes.now) }
{
    let mut text = Vec::new(alloc);
    let mut last = LastList::none(alloc);
    route_lists(&mut text, &mut last, routes)?;
    drop_space(&mut text);
    Ok(text)
}

// Takes away the space in front of the first word.
fn drop_space(text: &mut Vec<u8>)
    requires { BeginsWithSpace text.old.items }
    ensures { text.old.items ≡ 32 ∷ text.new.items }
{
    text.remove(0);
}
