use road_graph::Numbers;
use std::alloc::Global;
use std::process::Abort;
use trip_routes::{Routes, RoutesRefusal, SharedRoutes};

// The route along one segment.
fn along(rt: &impl Abort, alloc: Global, segment: u32) -> Numbers {
    Numbers::of(Vec::from_slice(alloc, &[segment]).expect(rt, "memory"))
}

// So many routes, the first along segment 7, and the others along segment 5.
fn listed(rt: &impl Abort, alloc: Global, count: usize) -> Routes {
    let mut routes = Routes::one(along(rt, alloc, 7));
    let next = along(rt, alloc, 5);
    for _ in 1..count {
        routes.push(&next).expect(rt, "a route");
    }
    routes
}

#[test]
fn takes_eight_routes_and_no_ninth(rt: HostRuntime) {
    let mut routes = listed(&rt, rt.alloc(), 8);
    let ninth = along(&rt, rt.alloc(), 3);
    let answer = routes.push(&ninth);
    drop(ninth);
    let is_kept = routes.len() == 8 && routes.all() == [7, 5, 5, 5, 5, 5, 5, 5].as_slice();
    drop(routes);
    assert!(rt; answer == Err(RoutesRefusal::Full) && is_kept);
}

// Whether there are two routes, along segment 7 and along segment 5.
fn are_two(routes: &SharedRoutes) -> bool {
    if routes.len() != 2 {
        return false;
    }
    routes.route(0) == [7].as_slice() && routes.route(1) == [5].as_slice()
}

#[test]
fn copies_routes_and_shares_them_with_a_further_owner(rt: HostRuntime) {
    let routes = listed(&rt, rt.alloc(), 2);
    let copy = routes.try_clone(rt.alloc()).expect(&rt, "memory");
    drop(routes);
    let owner = SharedRoutes::of(rt.alloc(), copy).expect(&rt, "memory");
    let other = owner.clone().expect(&rt, "memory");
    drop(owner);
    let are_two = are_two(&other);
    drop(other);
    assert!(rt; are_two);
}
