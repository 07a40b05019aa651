//! What a seat at the table knows. These types are for clauses alone: no value of them is made.
use std::collections::LinkedList;

/// What is kept of a pass that was joined: its number, its own entries, and whether it was ever answered `Worn`.
pub struct Receipt<E> {
    pub number: u32,
    pub own: LinkedList<E>,
    pub worn: bool,
}

/// The view of one seat. A pass has a number, a ticket while it waits or holds, and its own entries. The root has the
/// count of passes admitted and the receipts of those that were joined.
pub struct View<E, T> {
    pub is_root: bool,
    // A pass that was joined: its seat stays among the views, and tells nothing.
    pub is_spent: bool,
    pub number: u32,
    pub ticket: Option<u64>,
    // The seat has found its ticket served, and holds the slot.
    pub looked: bool,
    pub worn: bool,
    pub seen: LinkedList<E>,
    pub own: LinkedList<E>,
    pub admitted: u32,
    pub receipts: LinkedList<Receipt<E>>,
    // Of the two lists that the last join compared, the one that it did not keep as seen.
    pub passed_over: LinkedList<E>,
    pub most: u32,
    // Always there, but in a spent view.
    pub terms: Option<T>,
}
