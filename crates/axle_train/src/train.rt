// Two to 32 axles in their order.

ghost use Rattle.std.specs.Prelude.{◌≡◌, ◌<◌, ◌≤◌, ◌-◌, ◌+◌, ◌↔◌, length, sum_by, take, false, ⊤, None, Some, IfOk, IfErr, IsOk};
ghost use Rattle.axle_train.specs.Bounds.{IsTrain};
ghost use Rattle.axle_train.specs.Trains.{group_weight, spread, axle_at, AreWeightsBefore};
ghost use Rattle.axle_train.specs.Refusals.{refusal_of, IsRefused};

use crate::axle::Axle;
use crate::refusal::{TrainRefusal, refusal};
use std::alloc::AllocError;
use std::fmt;
use std::marker::Model;

/// Two to 32 axles, front first.
///
/// The first place is 0, places rise strictly, and the last is at most 3,000 in. Each weight is 1 to 200,000 lb, and the
/// gross weight is at most 2,000,000 lb.
#[derive(Drop)]
pub struct Train {
    axles: [Axle; 32],
    // `before[i]` is the weight of the axles in front of axle `i`, so the weight of a group is a difference
    before: [u32; 33],
    len: usize,
}

impl Model for Train {
    ghost use Rattle.std.specs.Prelude.{List, take};
    ghost use Rattle.axle_train.specs.declared.axle.Axle.{Axle};

    ghost Value = { List Axle };

    ghost use Rattle.axle_train.specs.Bounds.{IsTrain};
    ghost use Rattle.axle_train.specs.Trains.{AreWeightsBefore};
    ghost use Rattle.std.specs.Prelude.{◌≡◌, ◌≤◌, length};

    ghost view = { λ t. take t.len t.axles };

    ghost invariant = { λ t. (length (take t.len t.axles) ≡ t.len) × IsTrain (take t.len t.axles)
        × AreWeightsBefore (take t.len t.axles) t.before };
}

impl Train {
    /// A train of these axles, or the first rule that they break.
    ///
    /// The rules are tested in the order of [`TrainRefusal`], each over the whole list. Takes no memory.
    pub fn new(axles: &[Axle]) -> Result<Train, TrainRefusal>
        ensures ok { IfOk result (λ train. train ≡ axles.now) }
        ensures accepted { IsOk result ↔ IsTrain axles.now }
        ensures taken { IfOk result (λ _. refusal_of axles.now ≡ None) }
        ensures refused { IfErr result (λ refusal. refusal_of axles.now ≡ Some refusal) }
        ensures cause { IfErr result (λ refusal. IsRefused axles.now refusal) }
    {
        if let Some(refusal) = refusal(axles) {
            return Err(refusal);
        }
        let len = axles.len();
        Ok(Train {
            axles: copied(axles),
            before: weights_before(axles),
            len,
        })
    }

    /// The number of axles, 2 to 32.
    pub fn len(&self) -> usize
        ensures count { result ≡ length self.now }
        ensures bounds { IsTrain self.now }
    {
        self.len
    }

    /// Never: a train has at least two axles.
    pub fn is_empty(&self) -> bool
        ensures { result ≡ false }
    {
        false
    }

    /// The axle of index `i`, counted from 0.
    pub fn axle(&self, i: usize) -> Axle
        requires { i < length self.now }
        ensures value { result ≡ axle_at self.now i }
        ensures near { result.place ≤ 3000 }
        ensures heavy { 1 ≤ result.weight }
        ensures light { result.weight ≤ 200000 }
    {
        let axles = &self.axles;
        axles[i]
    }

    /// The gross weight in pounds.
    pub fn gross(&self) -> u32
        ensures sum { result ≡ sum_by (λ a. a.weight) self.now }
        ensures few { result ≤ 2000000 }
    {
        let before = &self.before;
        before[self.len]
    }

    /// The weight in pounds of the axles from `i` to `j`, both among them.
    pub fn group_weight(&self, i: usize, j: usize) -> u32
        requires ordered { i ≤ j }
        requires within { j < length self.now }
        ensures value { result ≡ group_weight self.now i j }
        ensures few { result ≤ 2000000 }
    {
        let before = &self.before;
        before[j + 1] - before[i]
    }

    /// How many inches axle `j` stands behind axle `i`.
    pub fn spread(&self, i: usize, j: usize) -> u32
        requires ordered { i ≤ j }
        requires within { j < length self.now }
        ensures value { result ≡ spread self.now i j }
        ensures short { result ≤ 3000 }
    {
        let len = self.len();
        prove!(j < len);
        self.axle(j).place - self.axle(i).place
    }
}

/// A copy takes no memory, and so is never refused.
impl Clone for Train {
    ghost is_clone = { λ train copy. copy ≡ train };

    ghost is_infallible = { λ _. ⊤ };

    fn clone(&self) -> Result<Train, AllocError> {
        let axles = &self.axles;
        Ok(Train {
            axles: *axles,
            before: self.before,
            len: self.len,
        })
    }
}

/// A train is shown as the list of its axles.
impl fmt::Debug for Train {
    fn fmt<W: fmt::Write>(&self, f: &mut fmt::Formatter<W>) -> fmt::Result {
        let axles = &self.axles;
        f.debug_list().entries(&axles[..self.len]).finish()
    }
}

/// The list in the front of an array.
fn copied(list: &[Axle]) -> [Axle; 32]
    requires { length list.now ≤ 32 }
    ensures front { take (length list.now) result ≡ list.now }
{
    let mut axles = [Axle {
        place: 0,
        weight: 0,
    }; 32];
    for i in 0..list.len() {
        axles[i] = list[i];
    }
    axles
}

/// The running weights of a list: at each index the weight of the axles before it, and then the whole.
fn weights_before(list: &[Axle]) -> [u32; 33]
    requires few { length list.now ≤ 32 }
    requires light { sum_by (λ a. a.weight) list.now ≤ 2000000 }
    ensures { AreWeightsBefore list.now result }
{
    let mut before = [0; 33];
    let mut total: u32 = 0;
    for i in 0..list.len() {
        total += list[i].weight;
        before[i + 1] = total;
    }
    before
}
