// Which segments trucks may pass before anything is posted.

ghost use Rattle.std.specs.Prelude.{◌≡◌, ◌<◌, length, All, IfOk, IfSome};
ghost use Rattle.restriction_log.specs.States.{base_of};
ghost use Rattle.trip_analysis.specs.Bases.{BaseLists};
ghost use Rattle.trip_analysis.specs.Openings.{AreOpenings, IsOpening, flags_at_first};

use crate::base::Base;
use clearance_rules::meets_at_first;
use names::NoMemory;
use restriction_log::State;
use std::alloc::Global;

/// Which segments a truck may pass before anything is posted.
#[derive(Drop)]
pub(crate) struct Opening {
    pub truck: u32,
    pub flags: Vec<bool>,
}

// For each segment whether the truck may pass it before anything is posted. Nothing is counted.
#[tactic(auto, using(crate::proofs::Flagged::flags_more))]
pub(crate) fn opening_flags(
    alloc: Global,
    base: &Base,
    first: &State,
    truck: u32,
) -> Result<Vec<bool>, NoMemory>
    requires truck { truck < length base.now.fleet }
    requires first { first.now ≡ base_of base.now.roads }
    ensures { IfOk result (λ flags. flags.items ≡ flags_at_first base.now truck) }
{
    let network = base.network();
    let load = &base.fleet()[truck as usize].load;
    let study = base.study(truck);
    let mut flags = Vec::new(alloc);
    for segment in 0..network.segments() {
        flags.push(meets_at_first(network, first, load, study, segment))?;
    }
    Ok(flags)
}

// Keeps what is found of one truck more.
pub(crate) fn keep(
    alloc: Global,
    openings: &mut Option<Vec<Opening>>,
    opening: Opening,
) -> Result<(), NoMemory>
    ensures { (base : BaseLists) → AreOpenings base openings.old → IsOpening base opening
        → AreOpenings base openings.new }
{
    match openings {
        Some(openings) => openings.push(opening)?,
        None => {
            let mut list = Vec::new(alloc);
            list.push(opening)?;
            *openings = Some(list);
        }
    }
    Ok(())
}

// What is kept of a truck, if anything is.
pub(crate) fn flags_in(openings: &[Opening], truck: u32) -> Option<&[bool]>
    ensures { (base : BaseLists) → All (IsOpening base) openings.now
        → IfSome result (λ flags. flags.now ≡ flags_at_first base truck) }
{
    for i in 0..openings.len() {
        let opening = &openings[i];
        if opening.truck == truck {
            return Some(opening.flags.as_slice());
        }
    }
    None
}
