// Taking rising numbers out of rising ones.

ghost use Rattle.std.specs.Prelude.{◌≡◌, ◌≤◌, ◌<◌, ◌+◌, length, take, All, slice_index, true, if◌then◌else◌};
ghost use Rattle.std.specs.List.Sorted.{IsStrictlyIncreasing};
ghost use Rattle.recall_index.specs.Uses.{AreAllOrNone, IsBlock, without_each};

/// The place in rising numbers up to which all are below the first of these. Looks first where these would be the last ones.
pub(crate) fn place_of(all: &[u32], these: &[u32]) -> usize
    requires rising { IsStrictlyIncreasing all.now }
    requires some { 0 < length these.now }
    ensures within { result ≤ length all.now }
    ensures below { All (λ n. n < slice_index these.now 0) (take result all.now) }
{
    if these.len() <= all.len() {
        let end = all.len() - these.len();
        if all[end] == these[0] {
            return end;
        }
    }
    match all.binary_search(&these[0]) {
        Ok(at) => at,
        Err(at) => at,
    }
}

/// Whether rising numbers, of which all are among rising ones or none is, stand there as one block from a place on. They do
/// where as many lie from the first of them to the last.
pub(crate) fn is_block(all: &[u32], at: usize, these: &[u32]) -> bool
    requires rising { IsStrictlyIncreasing all.now }
    requires these { IsStrictlyIncreasing these.now }
    requires some { 0 < length these.now }
    requires among { AreAllOrNone these.now all.now }
    requires within { at ≤ length all.now }
    ensures { result ≡ true → IsBlock these.now all.now at }
{
    if all.len() - at < these.len() {
        return false;
    }
    let last = these.len() - 1;
    all[at] == these[0] && all[at + last] == these[last]
}

/// Takes rising numbers out of rising ones, of which those before a place are below the first of them.
pub(crate) fn sift(all: &mut Vec<u32>, from: usize, these: &[u32])
    requires rising { IsStrictlyIncreasing all.old.items }
    requires these { IsStrictlyIncreasing these.now }
    requires within { from ≤ length all.old.items }
    requires below { All (λ n. n < slice_index these.now 0) (take from all.old.items) }
    ensures { all.new.items ≡ without_each these.now all.old.items }
{
    let mut kept = from;
    let mut next = 0;
    for i in from..all.len() {
        let number = all[i];
        next = place_from(these, next, number);
        if next == these.len() || these[next] != number {
            all[kept] = number;
            kept += 1;
        }
    }
    all.truncate(kept);
}

// The place of the first of rising numbers that is not below a number, where those before a place are below it.
fn place_from(these: &[u32], from: usize, number: u32) -> usize
    requires within { from ≤ length these.now }
    requires below { All (λ n. n < number) (take from these.now) }
    ensures within { result ≤ length these.now }
    ensures below { All (λ n. n < number) (take result these.now) }
    ensures next { result < length these.now → number ≤ slice_index these.now result }
{
    for place in from..these.len() {
        if number <= these[place] {
            return place;
        }
    }
    these.len()
}
