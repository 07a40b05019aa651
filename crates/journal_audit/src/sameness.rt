// Whether two replies are the same, and whether two findings are.

ghost use Rattle.std.specs.Prelude.{◌≡◌, ◌↔◌, true};
ghost use Rattle.journal_audit.specs.Replies.{IsShown};

use office_words::Reply;
use trip_analysis::What;
use trip_routes::SharedRoutes;

/// Whether the same was found. Takes no memory.
pub(crate) fn are_same_findings(one: &What, other: &What) -> bool
    ensures { (result ≡ true) ↔ (one.now ≡ other.now) }
{
    match (one, other) {
        (What::NotNeeded, What::NotNeeded) => true,
        (What::Route(a), What::Route(b)) => are_same_routes(a, b),
        (What::Fails { segment: a }, What::Fails { segment: b }) => a == b,
        (What::Cut(a), What::Cut(b)) => a.as_slice() == b.as_slice(),
        _ => false,
    }
}

/// Whether the replies are the same. Takes no memory.
pub(crate) fn are_same_replies(one: &Reply, other: &Reply) -> bool
    ensures { (result ≡ true) ↔ (one.now ≡ other.now) }
{
    match one {
        Reply::SnapshotAt { version } =>
            matches!(other, Reply::SnapshotAt { version: v } if v == version),
        Reply::Issued {
            number,
            version,
            routes,
        } => {
            matches!(other, Reply::Issued { number: n, version: v, routes: r }
                if n == number && v == version && are_same_routes(routes, r))
        }
        Reply::Refused { version, limit } => {
            matches!(other, Reply::Refused { version: v, limit: l } if v == version && l == limit)
        }
        Reply::Outdated { version, cause } => {
            matches!(other, Reply::Outdated { version: v, cause: c } if v == version && c == cause)
        }
        Reply::NotNeeded => matches!(other, Reply::NotNeeded),
        Reply::NoRoad => matches!(other, Reply::NoRoad),
        Reply::Late { day } => matches!(other, Reply::Late { day: d } if d == day),
        Reply::Posted { version, recalled } => {
            matches!(other, Reply::Posted { version: v, recalled: r }
                if v == version && recalled.as_slice() == r.as_slice())
        }
        Reply::OutOfRange => matches!(other, Reply::OutOfRange),
        Reply::DayIs { day } => matches!(other, Reply::DayIs { day: d } if d == day),
        Reply::DayBack { day } => matches!(other, Reply::DayBack { day: d } if d == day),
        Reply::Surrendered => matches!(other, Reply::Surrendered),
        Reply::NotYours => matches!(other, Reply::NotYours),
        Reply::Unknown => matches!(other, Reply::Unknown),
        Reply::NotInForce { status } =>
            matches!(other, Reply::NotInForce { status: s } if s == status),
        Reply::Shown { .. } => are_same_permits(one, other),
        Reply::Full { entries } => matches!(other, Reply::Full { entries: e } if e == entries),
        Reply::NoMemory => matches!(other, Reply::NoMemory),
    }
}

// Whether the replies are the same, of which the first says what a permit says.
fn are_same_permits(one: &Reply, other: &Reply) -> bool
    requires { IsShown one.now }
    ensures { (result ≡ true) ↔ (one.now ≡ other.now) }
{
    let Reply::Shown {
        number: n,
        caller: c,
        truck: t,
        first: f,
        last: l,
        version: v,
        seen: s,
        status: st,
    } = one
    else {
        return false;
    };
    let Reply::Shown {
        number,
        caller,
        truck,
        first,
        last,
        version,
        seen,
        status,
    } = other
    else {
        return false;
    };
    n == number
        && c == caller
        && t == truck
        && f == first
        && l == last
        && v == version
        && s == seen
        && st == status
}

/// Whether the routes are the same. Takes no memory.
pub fn are_same_routes(one: &SharedRoutes, other: &SharedRoutes) -> bool
    ensures { (result ≡ true) ↔ (one.now ≡ other.now) }
{
    if one.len() != other.len() {
        return false;
    }
    'routes: for i in 0..one.len() {
        if one.route(i) != other.route(i) {
            return false;
        }
    }
    true
}
