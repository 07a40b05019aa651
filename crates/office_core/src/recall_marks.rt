// Recalls of permits, in a book and its index.

ghost use Rattle.std.specs.Prelude.{◌≡◌, ◌≤◌, length, All, true};
ghost use Rattle.std.specs.List.{AllWithin};
ghost use Rattle.std.specs.List.Sorted.{IsStrictlyIncreasing};
ghost use Rattle.permit_book.specs.Permits.{AreNumbered, is_issued};
ghost use Rattle.permit_book.specs.declared.permit.Mark.TheVariants as mark;
ghost use Rattle.recall_index.specs.Uses.{AreRemoved};
ghost use Rattle.office_core.specs.Recalls.{AreLive, IsLiveIn, marked_all, segments_of};
ghost use Rattle.office_core.specs.Users.{IsIndexed};

use permit_book::{Book, Permit};
use recall_index::Index;

/// Recalls these permits, which are live, and takes them out of the index.
pub(crate) fn recall_each(book: &mut Book, index: &mut Index, numbers: &[u32], version: u32)
    requires live { AreLive (mark.Recalled version) book.old numbers.now }
    requires rising { IsStrictlyIncreasing numbers.now }
    requires index { IsIndexed (length index.old) book.old index.old }
    ensures marked { book.new ≡ marked_all (mark.Recalled version) book.old numbers.now }
    ensures index { IsIndexed (length index.old) book.new index.new }
{
    take_out(book.permits(), index, numbers);
    for i in 0..numbers.len() {
        book.recall(numbers[i], version);
    }
}

// Takes these permits out of the index, those of one route at once, and the last first: numbers rise, so they stand at the
// end of its lists.
fn take_out(permits: &[Permit], index: &mut Index, numbers: &[u32])
    requires numbered { AreNumbered 0 permits.now }
    requires live { All (IsLiveIn permits.now) numbers.now }
    requires rising { IsStrictlyIncreasing numbers.now }
    requires index { IsIndexed (length index.old) permits.now index.old }
    ensures { AreRemoved index.old numbers.now index.new }
{
    let mut end = numbers.len();
    while 0 < end {
        let route = segments_of(permits, numbers[end - 1]);
        let start = begin_of_run(permits, numbers, end - 1, route);
        index.remove_each(&numbers[start..end], route);
        end = start;
    }
}

// From where on up to an end the permits have this route.
fn begin_of_run(permits: &[Permit], numbers: &[u32], end: usize, route: &[u32]) -> usize
    requires live { All (IsLiveIn permits.now) numbers.now }
    requires within { end ≤ length numbers.now }
    ensures within { result ≤ end }
    ensures alike { AllWithin (λ n. segments_of permits.now n ≡ route.now) numbers.now result end }
{
    for i in (0..end).rev() {
        if !are_same(segments_of(permits, numbers[i]), route) {
            return i + 1;
        }
    }
    0
}

// Whether two lists of numbers are equal. It reads them whole, since a loop without an early way out takes several numbers at a
// time, and the routes of neighbours are mostly equal. It is not said where they are not.
fn are_same(one: &[u32], other: &[u32]) -> bool
    ensures { result ≡ true → one.now ≡ other.now }
{
    if one.len() != other.len() {
        return false;
    }
    let mut same = true;
    for i in 0..one.len() {
        same &= one[i] == other[i];
    }
    same
}

// The segments of the routes of a permit.
fn segments_of(permits: &[Permit], number: u32) -> &[u32]
    requires { is_issued permits.now number ≡ true }
    ensures { result.now ≡ segments_of permits.now number }
{
    permits[number as usize - 1].trip.routes.all()
}
