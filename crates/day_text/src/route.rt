// The field of routes.

ghost use Rattle.std.specs.Prelude.{◌≡◌, ◌==◌, is_some, Some};
ghost use Rattle.std.specs.List.{slice_split};
ghost use Rattle.day_text.specs.Fields.{few_routes, route_of, routes_field};

use crate::fields::parse_name;
use std::marker::Model;

/// The most routes of a field.
const MOST_ROUTES: usize = 8;

/// A field that has the form of a route field: nothing, or one to eight routes with one bar between them, each of which is
/// one name and more with one space between them.
///
/// Contracts see the names of each route. The field keeps the text alone, so that a reader goes over it without a list of
/// these names.
#[derive(Drop)]
pub struct RouteField<'a> {
    text: &'a str,
}

impl<'a> Model for RouteField<'a> {
    ghost use Rattle.std.specs.Prelude.{List, [], ℕ, IsSome, unwrap_or};
    ghost use Rattle.day_text.specs.Fields.{routes_field};

    ghost Value = { List (List (List ℕ)) };

    ghost view = { λ f. unwrap_or (routes_field f.text.now) [] };

    ghost invariant = { λ f. IsSome (routes_field f.text.now) };
}

impl<'a> RouteField<'a> {
    /// The text of the field. Takes no memory.
    pub fn as_str(&self) -> &'a str
        ensures { routes_field result.now ≡ Some self.now }
    {
        self.text
    }
}

/// The routes of a field, where it has their form. Takes no memory.
pub fn parse_routes(text: &str) -> Option<RouteField<'_>>
    ensures { result ≡ routes_field text.now }
{
    if text.is_empty() || are_few_routes(text) {
        Some(RouteField { text })
    } else {
        None
    }
}

// Whether a text is one to eight routes, with one bar between them.
fn are_few_routes(text: &str) -> bool
    ensures { result ≡ is_some (few_routes (slice_split (λ b. b == 124) text.now)) }
{
    text.split('|').count() <= MOST_ROUTES && text.split('|').all(is_route)
}

// Whether a text is a route.
fn is_route(text: &str) -> bool
    ensures { result ≡ is_some (route_of text.now) }
{
    text.split(' ').all(|name| parse_name(name).is_some())
}
