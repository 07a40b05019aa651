// What an index is, in words of the uses that were added and not taken out.

ghost use Rattle.recall_index.specs.Uses.{UsingIsAFilter};

/// An index has at each segment the numbers of those uses whose route holds the segment: of no uses when it is new, of one
/// more where a use is added, and of all others where one is removed, or many are.
pub fn using_is_a_filter()
    ensures { UsingIsAFilter }
{}
