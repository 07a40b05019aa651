// Whether two applications are the same.

ghost use Rattle.std.specs.Prelude.{◌≡◌, ◌↔◌, true, option_map};

use journal_audit::are_same_routes;
use permit_days::Day;
use trip_analysis::Application;
use trip_routes::SharedRoutes;

/// Whether the applications are the same. Takes no memory.
pub(crate) fn are_same_applications(one: &Application, other: &Application) -> bool
    ensures { (result ≡ true) ↔ (one.now ≡ other.now) }
{
    if one.truck() != other.truck() || one.from() != other.from() || one.to() != other.to() {
        return false;
    }
    if !are_same_days(one.first(), other.first()) {
        return false;
    }
    if !are_same_days(one.last(), other.last()) {
        return false;
    }
    are_same_asked(one.asked(), other.asked())
}

// Whether the days are the same.
fn are_same_days(one: Day, other: Day) -> bool
    ensures { (result ≡ true) ↔ (one ≡ other) }
{
    one == other
}

// Whether the same routes are asked for, if any are.
fn are_same_asked(one: Option<&SharedRoutes>, other: Option<&SharedRoutes>) -> bool
    ensures { (result ≡ true) ↔ (option_map (λ n. n.now) one.entry ≡ option_map (λ n. n.now) other.entry) }
{
    match (one, other) {
        (Some(a), Some(b)) => are_same_routes(a, b),
        (None, None) => true,
        _ => false,
    }
}
