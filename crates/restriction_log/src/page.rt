// Pages of a list, and groups of pages.

ghost use Rattle.std.specs.Prelude.{◌≡◌, ◌<◌, length, map, slice_set, IfOk};
ghost use Rattle.std.specs.Arc.{arc_slice_items};
ghost use Rattle.restriction_log.specs.Pages.{AreParts, as_groups, as_pages, items_in_parts};

use std::alloc::{AllocError, Global};
use std::sync::ArcSlice;

/// How many items a page has. The last page of a list may have fewer.
pub(crate) const PAGE: usize = 64;

/// How many pages a group has. The last group of a list may have fewer.
pub(crate) const GROUP: usize = 16;

/// Items in a row. A page has owners in many groups, and is never written.
pub(crate) type Page<T> = ArcSlice<T, Global>;

/// Pages in a row. A group has owners in many lists, and is never written.
pub(crate) type Group<T> = ArcSlice<Page<T>, Global>;

/// The pages of these items.
pub(crate) fn pages_of<T: Copy + Drop>(
    alloc: Global,
    items: &[T],
) -> Result<Vec<Page<T>>, AllocError>
    ensures items { IfOk result (λ pages. items_in_parts (as_pages pages.items) ≡ items.now) }
    ensures parts { IfOk result (λ pages. AreParts 64 (as_pages pages.items)) }
{
    let mut pages = Vec::new(alloc);
    'pages: for chunk in items.chunks(PAGE) {
        pages.push(ArcSlice::from_slice(alloc, chunk)?)?;
    }
    Ok(pages)
}

/// The groups of these pages, each of which gets one more owner.
pub(crate) fn groups_of<T: Drop>(
    alloc: Global,
    pages: &[Page<T>],
) -> Result<Vec<Group<T>>, AllocError>
    ensures pages { IfOk result (λ groups. items_in_parts (as_groups groups.items) ≡ as_pages pages.now) }
    ensures parts { IfOk result (λ groups. AreParts 16 (as_groups groups.items)) }
{
    let mut groups = Vec::new(alloc);
    'groups: for chunk in pages.chunks(GROUP) {
        groups.push(ArcSlice::from_clones(alloc, chunk)?)?;
    }
    Ok(groups)
}

/// A copy of the items with one of them replaced.
pub(crate) fn page_with<T: Copy + Drop>(
    alloc: Global,
    items: &[T],
    at: usize,
    item: T,
) -> Result<Page<T>, AllocError>
    requires { at < length items.now }
    ensures { IfOk result (λ page. arc_slice_items page ≡ slice_set items.now at item) }
{
    let mut copy = Vec::from_slice(alloc, items)?;
    copy[at] = item;
    ArcSlice::from_vec(copy)
}

/// These pages with one of them replaced, or these groups: each other one gets one more owner.
pub(crate) fn parts_with<T: Drop>(
    alloc: Global,
    parts: &[ArcSlice<T, Global>],
    at: usize,
    part: ArcSlice<T, Global>,
) -> Result<ArcSlice<ArcSlice<T, Global>, Global>, AllocError>
    requires { at < length parts.now }
    ensures { IfOk result (λ copy. map arc_slice_items (arc_slice_items copy)
        ≡ slice_set (map arc_slice_items parts.now) at (arc_slice_items part)) }
{
    let mut copy = Vec::from_clones(alloc, parts)?;
    copy[at] = part;
    Ok(ArcSlice::from_vec(copy)?)
}
