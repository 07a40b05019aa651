// The lists with which the state of a network begins.

ghost use Rattle.std.specs.Prelude.{◌≡◌, map, IfOk};

use crate::pages::Pages;
use road_graph::{Network, Values};
use std::alloc::{AllocError, Global};

/// The base limits of each segment.
pub(crate) fn base_values(alloc: Global, network: &Network) -> Result<Pages<Values>, AllocError>
    ensures { IfOk result (λ values. values ≡ map (λ s. s.base) network.now.segments) }
{
    let count = network.segments();
    let mut values = Vec::with_capacity(alloc, count as usize)?;
    'segments: for i in 0..count {
        values.push(network.segment(i).base)?;
    }
    Pages::of(alloc, &values)
}

/// The base rating of each span.
pub(crate) fn base_ratings(alloc: Global, network: &Network) -> Result<Pages<u32>, AllocError>
    ensures { IfOk result (λ ratings. ratings ≡ map (λ t. t.rating) network.now.spans) }
{
    let count = network.spans();
    let mut ratings = Vec::with_capacity(alloc, count as usize)?;
    'spans: for i in 0..count {
        ratings.push(network.span(i).rating)?;
    }
    Pages::of(alloc, &ratings)
}
