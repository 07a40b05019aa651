// The text of routes.

ghost use Rattle.std.specs.Prelude.{◌≡◌, ◌<◌, ◌++◌, length, option_map, All, OnOk};
ghost use Rattle.std.specs.List.{concat};
ghost use Rattle.road_graph.specs.Roads.{segment_at};
ghost use Rattle.trip_analysis.specs.Applications.{AreAskedThere};
ghost use Rattle.day_writer.specs.Orders.{route_text, routes_text};
ghost use Rattle.day_writer.specs.Texts.{joined};

use road_graph::Network;
use std::alloc::AllocError;
use trip_routes::SharedRoutes;

/// Adds the routes that are asked for, with one bar between two of them.
pub(crate) fn write_asked(
    out: &mut Vec<u8>,
    network: &Network,
    asked: Option<&SharedRoutes>,
) -> Result<(), AllocError>
    requires { AreAskedThere network.now (option_map (λ n. n.now) asked) }
    ensures { let routes = option_map (λ n. n.now) asked.entry in
        OnOk result (out.new.items ≡ out.old.items ++ routes_text network.now routes) }
{
    match asked {
        Some(routes) => write_routes(out, network, routes),
        None => Ok(()),
    }
}

// Routes, with one bar between two of them.
fn write_routes(
    out: &mut Vec<u8>,
    network: &Network,
    routes: &SharedRoutes,
) -> Result<(), AllocError>
    requires { All (λ s. s < length network.now.segments) (concat routes.now) }
    ensures { OnOk result (out.new.items ≡ out.old.items ++ joined 124 (route_text network.now) routes.now) }
{
    let count = routes.len();
    write_route(out, network, routes.route(0))?;
    'more: for i in 1..count {
        out.push(b'|')?;
        write_route(out, network, routes.route(i))?;
    }
    Ok(())
}

// The names of the segments of a route, with one space between two of them.
fn write_route(out: &mut Vec<u8>, network: &Network, route: &[u32]) -> Result<(), AllocError>
    requires { All (λ s. s < length network.now.segments) route.now }
    ensures { OnOk result (out.new.items ≡ out.old.items ++ route_text network.now route.now) }
{
    if route.is_empty() {
        return Ok(());
    }
    write_name(out, network, route[0])?;
    'more: for i in 1..route.len() {
        out.push(b' ')?;
        write_name(out, network, route[i])?;
    }
    Ok(())
}

// The name of a segment.
fn write_name(out: &mut Vec<u8>, network: &Network, segment: u32) -> Result<(), AllocError>
    requires { segment < length network.now.segments }
    ensures { OnOk result (out.new.items ≡ out.old.items ++ (segment_at network.now.segments segment).name) }
{
    let segment = network.segment(segment);
    out.extend_from_slice(segment.name.as_bytes())
}
