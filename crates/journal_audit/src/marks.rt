// Marks of the versions that the submits of a history name.

ghost use Rattle.std.specs.Prelude.{◌≡◌, ◌+◌, ◌≤◌, All, IfOk, length};
ghost use Rattle.journal_audit.specs.Versions.{IsNamed, StayMarked};

use office_words::{Call, Entry};
use std::alloc::{AllocError, Global};

/// For each version that a history of these entries can reach, whether one of its submits names it.
pub(crate) fn marks_of(alloc: Global, history: &[Entry]) -> Result<Vec<bool>, AllocError>
    requires { length history.now ≤ 1000000 }
    ensures named { IfOk result (λ marks. All (λ e. IsNamed marks.items e.call) history.now) }
    ensures count { IfOk result (λ marks. length marks.items ≡ length history.now + 1) }
{
    let mut marks = vec![in alloc; false; history.len() + 1]?;
    'entries: for i in 0..history.len() {
        mark(&mut marks, &history[i].call);
    }
    Ok(marks)
}

// Marks the version that a submit names, if there is a mark for it.
fn mark(marks: &mut Vec<bool>, call: &Call)
    ensures named { IsNamed marks.new.items call.now }
    ensures stay { StayMarked marks.old.items marks.new.items }
    ensures count { length marks.new.items ≡ length marks.old.items }
{
    if let Call::Submit { proposal, .. } = call {
        let seen = proposal.seen as usize;
        if seen < marks.len() {
            marks[seen] = true;
        }
    }
}
