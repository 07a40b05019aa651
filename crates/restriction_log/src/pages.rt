// Lists in pages, which lists that differ in one item have in common.

ghost use Rattle.std.specs.Prelude.{◌≡◌, IfOk};

use crate::page::{GROUP, Group, PAGE, groups_of, page_with, pages_of, parts_with};
use std::alloc::{AllocError, Global};
use std::marker::Model;
use std::sync::ArcSlice;

/// A list in pages, which stand in groups. Contracts see the list.
#[derive(Drop)]
pub(crate) struct Pages<T> {
    groups: ArcSlice<Group<T>, Global>,
    count: usize,
}

impl<T> Model for Pages<T> {
    ghost use Rattle.std.specs.Prelude.{List};
    ghost use Rattle.std.specs.Arc.{arc_slice_items};
    ghost use Rattle.restriction_log.specs.Pages.{ArePaged, as_groups, items_in};

    ghost Value = { List T };

    ghost view = { λ p. items_in (arc_slice_items p.groups) };

    ghost invariant = { λ p. ArePaged (as_groups (arc_slice_items p.groups)) p.count };
}

impl<T: Copy + Drop> Pages<T> {
    ghost use Rattle.std.specs.Prelude.{◌≡◌, ◌<◌, length, slice_index_or, slice_set, IfOk};

    /// These items.
    pub(crate) fn of(alloc: Global, items: &[T]) -> Result<Pages<T>, AllocError>
        ensures { IfOk result (λ pages. pages ≡ items.now) }
    {
        let pages = pages_of(alloc, items)?;
        let groups = groups_of(alloc, &pages)?;
        Ok(Pages {
            groups: ArcSlice::from_vec(groups)?,
            count: items.len(),
        })
    }

    /// How many items there are. Takes no memory.
    pub(crate) fn len(&self) -> usize
        ensures { result ≡ length self.now }
    {
        self.count
    }

    /// The item at a place. Takes no memory.
    pub(crate) fn get(&self, i: usize) -> T
        requires { i < length self.now }
        ensures { (d : T) → result ≡ slice_index_or self.now i d }
    {
        let at = i / PAGE;
        let group = &self.groups[at / GROUP];
        let page = &group[at % GROUP];
        page[i % PAGE]
    }

    /// This list with one item replaced. Its page is copied; the other pages of its group and the other groups get one more
    /// owner.
    pub(crate) fn with(&self, alloc: Global, i: usize, item: T) -> Result<Pages<T>, AllocError>
        requires { i < length self.now }
        ensures { IfOk result (λ pages. pages ≡ slice_set self.now i item) }
    {
        let at = i / PAGE;
        let group = &self.groups[at / GROUP];
        let page = page_with(alloc, &group[at % GROUP], i % PAGE, item)?;
        let group = parts_with(alloc, group, at % GROUP, page)?;
        Ok(Pages {
            groups: parts_with(alloc, &self.groups, at / GROUP, group)?,
            count: self.count,
        })
    }

    /// This list once more, with one more owner.
    pub(crate) fn again(&self) -> Result<Pages<T>, AllocError>
        ensures { IfOk result (λ pages. pages ≡ self.now) }
    {
        Ok(Pages {
            groups: self.groups.clone()?,
            count: self.count,
        })
    }
}
