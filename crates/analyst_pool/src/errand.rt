// A command of an actor on its way.

use crate::gate::Gate;
use trip_analysis::Base;

/// A command of an actor on its way: what the office is about, who is told how far it is, the number of the
/// actor, and that of the command among the actor's own, both from 0.
#[derive(Drop)]
pub struct Errand<'a, G: Gate> {
    pub base: &'a Base,
    pub gate: &'a G,
    pub actor: u32,
    pub command: u32,
}
