// A load: a truck as the road sees it.

ghost use Rattle.std.specs.Prelude.{◌≡◌, ◌≤◌, ◌&&◌, IfOk, IfSome, OnOk, OnErr, IsTrue, ◌↔◌, true, false};
ghost use Rattle.axle_train.specs.Bounds.{IsTrain};
ghost use Rattle.axle_limits.specs.Findings.{is_legal_by_weight};
ghost use Rattle.axle_limits.specs.Worst.{IsWorst, IsGroupInRange, worst_of};
ghost use Rattle.axle_limits.specs.Tridems.{IsHeaviestTridem, heaviest_tridem_of};
ghost use Rattle.clearance_rules.specs.Loads.{is_cross_section, is_length, is_load, parts_of, is_legal, IsLegalLoad, is_legal_size};

use axle_limits::{
    GROSS_LIMIT, Heaviest, LEGAL_HEIGHT, LEGAL_WIDTH, WorstGroup, heaviest_tridem, worst,
};
use axle_train::Train;
use hs20_truck::Kept;
use std::alloc::{AllocError, Global};
use std::marker::Model;
use thiserror::Error;

/// A number is out of its range.
#[derive(Clone, Copy, Debug, Drop, PartialEq, Eq, Error)]
#[error("a number is out of its range")]
pub struct Range;

/// Height and width (1 to 999 in), length (1 to 9,999 in) and the axles of a truck.
///
/// The worst group of the axles, their heaviest tridem group and whether the load is legal are found once, when the load is
/// made. What the
/// truck asks of spans is kept with it, for the lengths that it is told to keep, so that whoever judges it
/// finds it there.
#[derive(Drop)]
pub struct Load {
    height: u32,
    width: u32,
    length: u32,
    study: Kept,
    worst: WorstGroup,
    tridem: Option<Heaviest>,
    legal: bool,
}

impl Model for Load {
    ghost use Rattle.clearance_rules.specs.Loads.{LoadParts, IsLoadKept, parts_of};

    ghost Value = { LoadParts };

    ghost view = { λ a. parts_of a.height a.width a.length a.study };

    ghost invariant = { λ a. IsLoadKept (parts_of a.height a.width a.length a.study) a.worst a.tridem a.legal };
}

impl Load {
    /// The load of these numbers of inches and this train. Takes no memory.
    pub fn new(height: u32, width: u32, length: u32, train: Train) -> Result<Load, Range>
        ensures ok { IfOk result (λ load. load ≡ parts_of height width length train) }
        ensures taken { OnOk result (is_load height width length ≡ true) }
        ensures range { OnErr result (is_load height width length ≡ false) }
    {
        if !is_cross_section(height) || !is_cross_section(width) || !is_length(length) {
            return Err(Range);
        }
        bounds(&train);
        let worst = worst(&train);
        let tridem = heaviest_tridem(&train);
        let by_weight = is_legal_by_weight(&train, &worst);
        let by_size = is_legal_size(height, width);
        Ok(Load {
            height,
            width,
            length,
            study: Kept::new(train),
            worst,
            tridem,
            legal: by_weight && by_size,
        })
    }

    /// The height in inches.
    pub fn height(&self) -> u32
        ensures { result ≡ self.now.height }
    {
        self.height
    }

    /// The width in inches.
    pub fn width(&self) -> u32
        ensures { result ≡ self.now.width }
    {
        self.width
    }

    /// The length in inches.
    pub fn length(&self) -> u32
        ensures { result ≡ self.now.length }
    {
        self.length
    }

    /// The axles.
    pub fn train(&self) -> &Train
        ensures value { result.now ≡ self.now.train }
        ensures bounds { IsTrain self.now.train }
    {
        self.study.train()
    }

    /// The study of the axles, which keeps what the load was told to keep.
    pub fn study(&self) -> &Kept
        ensures { result.now ≡ self.now.train }
    {
        &self.study
    }

    /// Keeps what the truck asks of spans of so many inches. Where no memory is found it keeps what it kept.
    pub fn keep(&mut self, alloc: Global, inches: u32) -> Result<(), AllocError>
        requires some { 1 ≤ inches }
        requires long { inches ≤ 6000 }
        ensures { self.new ≡ self.old }
    {
        self.study.keep(alloc, inches)
    }

    /// The worst group of the axles: of all groups, single axles among them, the one whose weight is the greatest part of
    /// its limit, and of groups that are equally bad the first.
    pub fn worst(&self) -> WorstGroup
        ensures value { result ≡ worst_of self.now.train }
        ensures meaning { IsWorst self.now.train result }
        ensures range { IsGroupInRange result }
    {
        self.worst
    }

    /// The heaviest tridem group of the axles, or none where they have no tridem group. Of groups that weigh the same it is
    /// the first.
    pub fn heaviest_tridem(&self) -> Option<Heaviest>
        ensures value { result ≡ heaviest_tridem_of self.now.train }
        ensures meaning { IfSome result (IsHeaviestTridem self.now.train) }
    {
        self.tridem
    }

    /// Whether the load is legal: no group of axles is over its limit and neither is the gross weight
    /// (23 CFR 658.17), nor the width (23 CFR 658.15), nor the height.
    pub fn legal(&self) -> bool
        ensures value { result ≡ is_legal self.now }
        ensures meaning { IsTrue result ↔ IsLegalLoad self.now }
    {
        self.legal
    }
}

/// Whether a height or a width is 1 to 999 in.
pub fn is_cross_section(inches: u32) -> bool
    ensures { result ≡ is_cross_section inches }
{
    1 <= inches && inches <= 999
}

/// Whether a length is 1 to 9,999 in.
pub fn is_length(inches: u32) -> bool
    ensures { result ≡ is_length inches }
{
    1 <= inches && inches <= 9999
}

/// That a train is within its bounds, which no value of a train shows by itself. A fact for the proof, and no code.
fn bounds(train: &Train)
    ensures { IsTrain train.now }
{
    let _ = train.len();
}

/// Whether a truck is legal by its size.
fn is_legal_size(height: u32, width: u32) -> bool
    ensures { result ≡ is_legal_size height width }
{
    height <= LEGAL_HEIGHT && width <= LEGAL_WIDTH
}

/// Whether a truck is legal by its weights. No group is over its limit exactly where the worst one is not.
fn is_legal_by_weight(train: &Train, worst: &WorstGroup) -> bool
    requires { IsWorst train.now worst.now }
    ensures { result ≡ is_legal_by_weight train.now }
{
    worst.weight <= worst.limit && train.gross() <= GROSS_LIMIT
}
