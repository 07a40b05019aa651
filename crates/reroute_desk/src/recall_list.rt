// The recalls of a history, for those who are told of them.

ghost use Rattle.std.specs.Prelude.{◌≡◌, ◌++◌, ℕ, IfOk, OnOk};
ghost use Rattle.std.specs.BTreeMap.{get};
ghost use Rattle.std.specs.Option.{option_or};
ghost use Rattle.std.specs.Ordering.{nat_cmp};
ghost use Rattle.office_core.specs.Recalled.{RecalledWereIssued};
ghost use Rattle.reroute_desk.specs.RecallLists.{HasTrucks, HasTruck, recall_of, recalls_by, recalls_in, truck_by, truck_in};

use names::NoMemory;
use notice_desk::Recall;
use office_words::{Call, Entry, Reply};
use std::alloc::Global;
use std::collections::BTreeMap;
use trip_analysis::Base;

/// Every number that a posting of the history recalled, in order, with the version of that posting and the carrier of the
/// permit's truck.
pub fn recalls(alloc: Global, base: &Base, history: &[Entry]) -> Result<Vec<Recall>, NoMemory>
    requires { RecalledWereIssued base.now history.now }
    ensures { IfOk result (λ recalls. recalls.items ≡ recalls_in base.now history.now) }
{
    let trucks = issued_trucks(alloc, history)?;
    let mut recalls = Vec::new(alloc);
    for entry in history {
        push_recalls(&mut recalls, base, &trucks, &entry.reply)?;
    }
    Ok(recalls)
}

// The truck of each permit that was issued, by its number.
fn issued_trucks(alloc: Global, history: &[Entry]) -> Result<BTreeMap<u32, u32>, NoMemory>
    ensures { IfOk result (λ trucks. (n : ℕ) → get nat_cmp trucks n ≡ truck_in history.now n) }
{
    let mut trucks = BTreeMap::new(alloc);
    for entry in history {
        keep_truck(&mut trucks, entry)?;
    }
    Ok(trucks)
}

// Keeps the truck of the permit, if the entry issued one.
fn keep_truck(trucks: &mut BTreeMap<u32, u32>, entry: &Entry) -> Result<(), NoMemory>
    ensures { OnOk result ((n : ℕ) → get nat_cmp trucks.new n
        ≡ option_or (truck_by n entry.now.call entry.now.reply) (get nat_cmp trucks.old n)) }
{
    let Reply::Issued { number, .. } = &entry.reply else {
        return Ok(());
    };
    match &entry.call {
        Call::Submit { application, .. } | Call::Held { application } => {
            trucks.insert(*number, application.truck())?;
            Ok(())
        }
        _ => Ok(()),
    }
}

// Adds the recalls of an answer, if it is that of a posting.
fn push_recalls(
    recalls: &mut Vec<Recall>,
    base: &Base,
    trucks: &BTreeMap<u32, u32>,
    reply: &Reply,
) -> Result<(), NoMemory>
    requires { HasTrucks base.now (get nat_cmp trucks.now) reply.now }
    ensures { OnOk result (recalls.new.items
        ≡ recalls.old.items ++ recalls_by base.now (get nat_cmp trucks.now) reply.now) }
{
    let Reply::Posted { version, recalled } = reply else {
        return Ok(());
    };
    for number in recalled.as_slice() {
        recalls.push(recall_of(base, trucks, *version, *number))?;
    }
    Ok(())
}

// The recall of a permit of which the truck is known.
fn recall_of(base: &Base, trucks: &BTreeMap<u32, u32>, version: u32, permit: u32) -> Recall
    requires { HasTruck base.now (get nat_cmp trucks.now permit) }
    ensures { result ≡ recall_of base.now (get nat_cmp trucks.now) version permit }
{
    match trucks.get(&permit) {
        Some(truck) => Recall {
            permit,
            version,
            carrier: base.fleet()[*truck as usize].carrier,
        },
        None => unreachable!(),
    }
}
