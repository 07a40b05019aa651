// The groups over their limits.

ghost use Rattle.std.specs.Prelude.{◌≡◌, ◌<◌, ◌≤◌, ◌++◌, ◌↔◌, ◌∷◌, [], length, IfOk, OnOk};
ghost use Rattle.axle_limits.specs.Groups.{group_at};
ghost use Rattle.axle_limits.specs.Findings.{findings_of, AddsFindings, gross_finding, AreFindings, IsLegalByWeight};

use crate::group::{Rule, group_limit};
use crate::legal::GROSS_LIMIT;
use axle_train::Train;
use names::NoMemory;
use std::alloc::Global;

/// A group of axles over its limit, from axle `i` to axle `j`, or the gross weight over its limit; both in pounds.
#[derive(Clone, Copy, Debug, PartialEq, Eq)]
pub struct Finding {
    pub i: usize,
    pub j: usize,
    pub weight: u32,
    pub limit: u32,
    pub rule: Rule,
}

/// All groups over their limits, by their first axle and then by their last, and then the gross weight if it is over its own.
/// Each has its weight, its limit and its rule. The list is empty exactly where the truck is legal by weight.
///
/// `NoMemory` is its only refusal: there is no memory for the list.
pub fn findings(alloc: Global, train: &Train) -> Result<Vec<Finding>, NoMemory>
    ensures listed { IfOk result (λ list. AreFindings train.now list.items) }
    ensures legal { IfOk result (λ list. (list.items ≡ []) ↔ IsLegalByWeight train.now) }
    ensures computed { IfOk result (λ list. list.items ≡ findings_of train.now) }
{
    let mut list = Vec::new(alloc);
    for i in 0..train.len() {
        for j in i..train.len() {
            add_group(train, i, j, &mut list)?;
        }
    }
    add_gross(train, &mut list)?;
    Ok(list)
}

/// Adds the group from `i` to `j`, where it is over its limit.
fn add_group(train: &Train, i: usize, j: usize, list: &mut Vec<Finding>) -> Result<(), NoMemory>
    requires ordered { i ≤ j }
    requires within { j < length train.now }
    ensures { OnOk result (AddsFindings train.now
        (group_at train.now i j ∷ []) list.old.items list.new.items) }
{
    let weight = train.group_weight(i, j);
    let limit = group_limit(train, i, j);
    if weight > limit.limit {
        list.push(Finding {
            i,
            j,
            weight,
            limit: limit.limit,
            rule: limit.rule,
        })?;
    }
    Ok(())
}

/// Adds the gross weight, where it is over its limit.
fn add_gross(train: &Train, list: &mut Vec<Finding>) -> Result<(), NoMemory>
    ensures { OnOk result (list.new.items ≡ list.old.items ++ gross_finding train.now) }
{
    let len = train.len();
    let gross = train.gross();
    if gross > GROSS_LIMIT {
        list.push(Finding {
            i: 0,
            j: len - 1,
            weight: gross,
            limit: GROSS_LIMIT,
            rule: Rule::Gross,
        })?;
    }
    Ok(())
}
