// Lists that stand side by side, one for each number.

ghost use Rattle.std.specs.Prelude.{◌≡◌, ◌<◌, length, OnOk};
ghost use Rattle.road_graph.specs.Lists.{lists_of, with_appended, HasRoomForOne};

use std::alloc::AllocError;

/// Takes room for one more element in the list of a number. The lists stay as they are.
pub(crate) fn reserve_at<T: Drop>(lists: &mut Vec<Vec<T>>, at: usize) -> Result<(), AllocError>
    requires { at < length lists.old.items }
    ensures many { length lists.new.items ≡ length lists.old.items }
    ensures same { lists_of lists.new.items ≡ lists_of lists.old.items }
    ensures room { OnOk result (HasRoomForOne lists.new.items at) }
{
    lists[at].reserve(1)
}

/// Adds an element to the list of a number, in which there is room.
pub(crate) fn push_at<T: Drop>(lists: &mut Vec<Vec<T>>, at: usize, element: T)
    requires within { at < length lists.old.items }
    requires room { HasRoomForOne lists.old.items at }
    ensures { lists_of lists.new.items ≡ with_appended (lists_of lists.old.items) at element }
{
    lists[at].push_reserved(element);
}
