// Why a list of axles is no train.

ghost use Rattle.std.specs.Prelude.{◌≡◌, ◌<◌, ◌≤◌, length, None};
ghost use Rattle.axle_train.specs.Refusals.{place_fault, weight_fault, total_fault, refusal_of};

use crate::axle::Axle;
use thiserror::Error;

/// Why a list of axles is no train: the first of these rules that it breaks, in this order.
///
/// `at` is the least index, counted from 0, of an axle that breaks the rule.
#[derive(Clone, Copy, Debug, PartialEq, Eq, Error)]
pub enum TrainRefusal {
    /// There are fewer than two axles.
    #[error("a train has at least 2 axles")]
    TooFew,
    /// There are more than 32 axles.
    #[error("a train has at most 32 axles")]
    TooMany,
    /// The first axle is not at 0, or a later one is not behind the axle before it.
    #[error("the axle of index {at} is out of order")]
    PlaceOrder { at: usize },
    /// An axle weighs less than 1 lb or more than 200,000 lb.
    #[error("the axle of index {at} weighs less than 1 lb or more than 200000 lb")]
    Weight { at: usize },
    /// The axles together weigh more than 2,000,000 lb.
    #[error("a train weighs at most 2000000 lb")]
    Gross,
    /// The last axle is more than 3,000 in behind the first.
    #[error("a train is at most 3000 in long")]
    TooLong,
}

/// The first rule that a list breaks.
///
/// The weights are summed only once each is known to be in range, so the sum of any list fits.
pub(crate) fn refusal(axles: &[Axle]) -> Option<TrainRefusal>
    ensures { result ≡ refusal_of axles.now }
{
    if axles.len() < 2 {
        return Some(TrainRefusal::TooFew);
    }
    if axles.len() > 32 {
        return Some(TrainRefusal::TooMany);
    }
    if let Some(at) = place_fault(axles) {
        return Some(TrainRefusal::PlaceOrder { at });
    }
    if let Some(at) = weight_fault(axles) {
        return Some(TrainRefusal::Weight { at });
    }
    total_fault(axles)
}

/// The first axle whose place breaks the order.
fn place_fault(axles: &[Axle]) -> Option<usize>
    requires { 0 < length axles.now }
    ensures { result ≡ place_fault axles.now }
{
    if axles[0].place != 0 {
        return Some(0);
    }
    let mut least: u64 = 1;
    for i in 1..axles.len() {
        let place = u64::from(axles[i].place);
        if place < least {
            return Some(i);
        }
        least = place + 1;
    }
    None
}

/// The first axle whose weight is out of range.
fn weight_fault(axles: &[Axle]) -> Option<usize>
    ensures { result ≡ weight_fault 0 axles.now }
{
    for (i, axle) in axles.iter().enumerate() {
        if axle.weight < 1 || axle.weight > 200000 {
            return Some(i);
        }
    }
    None
}

/// What is wrong with the gross weight or the length, of axles whose weights are in range.
fn total_fault(axles: &[Axle]) -> Option<TrainRefusal>
    requires some { 0 < length axles.now }
    requires few { length axles.now ≤ 32 }
    requires weights { weight_fault 0 axles.now ≡ None }
    ensures { result ≡ total_fault axles.now }
{
    let mut gross: u32 = 0;
    for i in 0..axles.len() {
        gross += axles[i].weight;
    }
    if gross > 2000000 {
        return Some(TrainRefusal::Gross);
    }
    if axles[axles.len() - 1].place > 3000 {
        return Some(TrainRefusal::TooLong);
    }
    None
}
