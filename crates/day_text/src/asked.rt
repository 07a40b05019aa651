// The routes that an application's record asks for.

ghost use Rattle.std.specs.Prelude.{◌≡◌, ◌<◌, ◌≤◌, ◌==◌, ◌++◌, ◌∷◌, [], length, IfOk, option_and_then, unwrap_or};
ghost use Rattle.std.specs.List.{slice_split};
ghost use Rattle.road_graph.specs.Roads.{number_of, segment_names};
ghost use Rattle.trip_analysis.specs.Applications.{AreAskedThere};
ghost use Rattle.day_text.specs.Causes.{Judges, or_bad};
ghost use Rattle.day_text.specs.Fields.{name_field, of_each, route_of};
ghost use Rattle.day_text.specs.declared.refusal.RecordCause.{RecordCause};
ghost use Rattle.day_text.specs.Commands.{asked_routes_of, numbers_of};

use crate::fields::parse_name;
use crate::refusal::{RecordCause, RecordRefusal};
use crate::route::RouteField;
use road_graph::{Network, Numbers};
use std::alloc::{AllocError, Global};
use trip_routes::{Routes, RoutesRefusal, SharedRoutes};

/// The routes that a field asks for, by the numbers of their segments; an empty field asks for none.
pub(crate) fn find_asked(
    alloc: Global,
    network: &Network,
    field: &RouteField<'_>,
) -> Result<Option<SharedRoutes>, RecordRefusal>
    ensures asked { Judges result
        (or_bad (RecordCause.Unknown 6) (asked_routes_of (segment_names network.now.segments) field.now)) }
    ensures there { IfOk result (AreAskedThere network.now) }
{
    let text = field.as_str();
    if text.is_empty() {
        return Ok(None);
    }
    match find_routes(alloc, network, text)? {
        Some(routes) => Ok(Some(SharedRoutes::of(alloc, routes)?)),
        None => Err(RecordRefusal::bad(RecordCause::Unknown(6))),
    }
}

// The routes around each bar of a text, where each of their names is a segment's.
fn find_routes(alloc: Global, network: &Network, text: &str) -> Result<Option<Routes>, AllocError>
    requires { length (slice_split (λ b. b == 124) text.now) ≤ 8 }
    ensures { IfOk result (λ routes. routes ≡ of_each
        (λ part. option_and_then (numbers_of (segment_names network.now.segments)) (route_of part))
        (slice_split (λ b. b == 124) text.now)) }
{
    let mut found = None;
    for part in text.split('|') {
        let Some(route) = find_route(alloc, network, part)? else {
            return Ok(None);
        };
        found = Some(with_route(found, route)?);
    }
    Ok(found)
}

// These routes, if there are any, and one more behind them.
fn with_route(routes: Option<Routes>, route: Numbers) -> Result<Routes, AllocError>
    requires { length (unwrap_or routes []) < 8 }
    ensures { IfOk result (λ more. more ≡ unwrap_or routes [] ++ route ∷ []) }
{
    let Some(mut routes) = routes else {
        return Ok(Routes::one(route));
    };
    match routes.push(&route) {
        Ok(()) => Ok(routes),
        Err(RoutesRefusal::NoMemory) => Err(AllocError),
        Err(RoutesRefusal::Full) => unreachable!(),
    }
}

// The route around each space of a text, where each of its names is a segment's.
fn find_route(alloc: Global, network: &Network, text: &str) -> Result<Option<Numbers>, AllocError>
    ensures { IfOk result
        (λ route. route ≡ option_and_then (numbers_of (segment_names network.now.segments)) (route_of text.now)) }
{
    let mut route = Vec::new(alloc);
    for part in text.split(' ') {
        let Some(number) = segment_of(network, part) else {
            return Ok(None);
        };
        route.push(number)?;
    }
    Ok(Some(Numbers::of(route)))
}

// The segment whose name a text is, if there is one.
fn segment_of(network: &Network, text: &str) -> Option<u32>
    ensures { result ≡ option_and_then (λ name. number_of name (segment_names network.now.segments))
        (name_field text.now) }
{
    let name = parse_name(text)?;
    network.segment_named(&name)
}
