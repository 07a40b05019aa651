// What an office is about: roads and trucks.

ghost use Rattle.std.specs.Prelude.{◌≡◌};

use crate::opening::{Opening, flags_in, keep, opening_flags};
use clearance_rules::{Kept, Load};
use names::{Name, NoMemory};
use restriction_log::State;
use road_graph::Network;
use route_search::Heights;
use std::alloc::{AllocError, Global};
use std::marker::Model;
use std::thread;
use std::thread::Threads;

/// How many threads at once find what trucks ask of spans.
const THREADS: usize = 4;

/// A truck: its name, its carrier and its load.
#[derive(Drop)]
pub struct Truck {
    pub name: Name,
    pub carrier: Name,
    pub load: Load,
}

/// A road network and the trucks that may ask for permits on it. Nothing of it changes; postings change the state of its
/// roads. What a truck asks of a span of one length never changes either, nor which segments it may pass before anything is
/// posted, nor the heights of the nodes. So these are kept here, once for all who read them.
#[derive(Drop)]
pub struct Base {
    network: Network,
    fleet: Vec<Truck>,
    openings: Option<Vec<Opening>>,
    heights: Option<Heights>,
}

impl Model for Base {
    ghost use Rattle.trip_analysis.specs.Bases.{BaseLists};
    ghost use Rattle.trip_analysis.specs.Openings.{IsBaseKept, lists_in};

    ghost Value = { BaseLists };

    ghost view = { lists_in };

    ghost invariant = { IsBaseKept };
}

impl Base {
    ghost use Rattle.std.specs.Prelude.{◌≡◌, ◌<◌, ◌≤◌, length, IfOk, IfSome};
    ghost use Rattle.road_graph.specs.Roads.{IsRoads};
    ghost use Rattle.restriction_log.specs.States.{base_of};
    ghost use Rattle.route_search.specs.Heights.{AreHeights};
    ghost use Rattle.trip_analysis.specs.Bases.{AreTrains, train_of};
    ghost use Rattle.trip_analysis.specs.Openings.{flags_at_first};

    /// These roads and trucks. Takes no memory.
    pub fn new(network: Network, fleet: Vec<Truck>) -> Base
        requires few { length fleet.items ≤ 64 }
        ensures { result ≡ record { roads = network; fleet = fleet.items } }
    {
        // nothing is done here: each load tells that its axles are within the bounds of trains
        'trucks: for i in 0..fleet.len() {
            let _train = fleet[i].load.train();
        }
        Base {
            network,
            fleet,
            openings: None,
            heights: None,
        }
    }

    /// The roads. Takes no memory.
    pub fn network(&self) -> &Network
        ensures { result.now ≡ self.now.roads }
    {
        &self.network
    }

    /// A fact, and no work: the lists of the roads are in order, and each truck is a train of axles within bounds.
    pub fn lists_are_in_order(&self)
        ensures roads { IsRoads self.now.roads }
        ensures trains { AreTrains self.now }
    {
        self.network().lists_are_in_order();
        let _trucks = self.fleet().len();
    }

    /// The trucks, at most 64, in order. Takes no memory.
    pub fn fleet(&self) -> &[Truck]
        ensures value { result.now ≡ self.now.fleet }
        ensures few { length self.now.fleet ≤ 64 }
        ensures trains { AreTrains self.now }
    {
        self.fleet.as_slice()
    }

    /// The study of a truck: what its axles ask of spans. Takes no memory.
    pub fn study(&self, truck: u32) -> &Kept
        requires { truck < length self.now.fleet }
        ensures { result.now ≡ train_of self.now truck }
    {
        self.fleet()[truck as usize].load.study()
    }

    /// Has the study of a truck keep what it asks of spans of each length on these roads. Who asks about them then looks it up,
    /// and else computes it at each test; nothing that contracts see changes. A legal truck needs no permit, so nothing is kept
    /// for it. `NoMemory` where no memory was left.
    pub fn learn(&mut self, alloc: Global, truck: u32) -> Result<(), NoMemory>
        requires { truck < length self.old.fleet }
        ensures { self.new ≡ self.old }
    {
        Ok(keep_lengths(alloc, &self.network, &mut self.fleet[truck as usize].load)?)
    }

    /// The same for each of these trucks, of which four threads have a part each. Where no memory was left for a truck it keeps
    /// what it kept.
    pub fn learn_at_once<R: Threads + Sync>(&mut self, rt: &R, alloc: Global, chosen: &[bool])
        ensures { self.new ≡ self.old }
    {
        let network = &self.network;
        let keep = |i: usize, truck: &mut Truck|
            ensures { truck.exit.now ≡ truck.entry.now }
        {
            if i < chosen.len() && chosen[i] {
                let _kept = keep_lengths(alloc, network, &mut truck.load);
            }
        };
        thread::for_each_mut(rt, self.fleet.as_mut_slice(), THREADS, &keep);
    }

    /// Keeps which segments a truck may pass before anything is posted. Analysts then copy this, and test only what was posted
    /// since, and else they test all segments; nothing that contracts see changes. `NoMemory` where no memory was left.
    pub fn learn_opening(
        &mut self,
        alloc: Global,
        first: &State,
        truck: u32,
    ) -> Result<(), NoMemory>
        requires truck { truck < length self.old.fleet }
        requires first { first.now ≡ base_of self.old.roads }
        ensures { self.new ≡ self.old }
    {
        let flags = opening_flags(alloc, self, first, truck)?;
        keep(alloc, &mut self.openings, Opening { truck, flags })
    }

    /// Which segments a truck may pass before anything is posted, where that is kept. Takes no memory.
    pub(crate) fn opening(&self, truck: u32) -> Option<&[bool]>
        ensures { IfSome result (λ flags. flags.now ≡ flags_at_first self.now truck) }
    {
        match &self.openings {
            Some(openings) => flags_in(openings.as_slice(), truck),
            None => None,
        }
    }

    /// Keeps heights of the nodes in all columns. Analysts then copy these, and else each makes columns of its own; nothing
    /// that contracts see changes. `NoMemory` where no memory was left.
    pub fn learn_heights(&mut self, alloc: Global) -> Result<(), NoMemory>
        ensures { self.new ≡ self.old }
    {
        self.heights = Some(Heights::all(alloc, &self.network)?);
        Ok(())
    }

    /// A copy of the heights that are kept, or none. Either bounds the lengths of walks on these roads. `NoMemory` where no
    /// memory was left.
    pub fn own_heights(&self, alloc: Global) -> Result<Heights, NoMemory>
        ensures { IfOk result (AreHeights self.now.roads.segments) }
    {
        match &self.heights {
            Some(heights) => heights.try_clone(alloc),
            None => Ok(Heights::none(alloc)),
        }
    }
}

// Has a load keep what it asks of spans of each length on these roads, where it is not legal.
fn keep_lengths(alloc: Global, network: &Network, load: &mut Load) -> Result<(), AllocError>
    ensures { load.new ≡ load.old }
{
    if load.legal() {
        return Ok(());
    }
    'spans: for span in 0..network.spans() {
        load.keep(alloc, network.span(span).inches)?;
    }
    Ok(())
}
