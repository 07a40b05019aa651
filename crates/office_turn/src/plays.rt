//! What each kind of step on the table tells the seat that makes it.
ghost use Rattle.office_turn.specs.Steps.{drew, marked_worn, looked, passed, stayed, tallied, after_admitting, newcomer, after_receiving, spent};

use crate::story::Storied;
use crate::view::View;
use atomic_table::{Join, Play, Split};

// A look at the next ticket: whether all tickets have been drawn.
pub struct Count;

impl<S, E, T> Play<S, View<E, T>> for Count {
    ghost then = { marked_worn };
}

// A compare and exchange on the next ticket.
pub struct Draw;

impl<S, E, T> Play<S, View<E, T>> for Draw {
    ghost then = { drew };
}

// A look at the ticket now served, which takes the slot where that is the seat's own.
pub struct Look;

impl<V: Storied> Play<Option<V>, View<V::Entry, V::Terms>> for Look {
    ghost then = { looked V.caller V.story V.terms };
}

// The next ticket is served, and the slot is given back.
pub struct PassOn;

impl<V: Storied> Play<Option<V>, View<V::Entry, V::Terms>> for PassOn {
    ghost then = { passed V.caller V.story };
}

// One who sleeps is counted, or the bell is rung.
pub struct Ring;

impl<S, E, T> Play<S, View<E, T>> for Ring {
    ghost then = { stayed };
}

// The root's seat is cut in two: the root, and a pass with the next number.
pub struct Admit;

impl<E, T> Split<View<E, T>> for Admit {
    ghost left = { after_admitting };

    ghost right = { newcomer };
}

// The root takes in the seat of a pass, and adds a receipt of it.
pub struct Receive;

impl<E, T> Join<View<E, T>> for Receive {
    ghost both = { after_receiving };

    ghost spent = { spent };
}

// A look of the root after a join, which tells what the join alone cannot: that there are no more receipts than passes
// admitted, and that what the root has seen goes on from both lists.
pub struct Tally;

impl<S, E, T> Play<S, View<E, T>> for Tally {
    ghost then = { tallied };
}
