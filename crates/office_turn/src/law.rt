//! The rule of the table. Word 0 is the next ticket and word 1 the ticket now served. The words behind them are for those who
//! sleep, and the rule says nothing of them. The one slot has the value, or nothing while a turn is held.
ghost use Rattle.office_turn.specs.Rule.{Turned, opening_view};

use crate::story::Storied;
use crate::view::View;
use atomic_table::TableRule;
use std::snapshot::Snapshot;

// The next ticket, the ticket now served, and words for those who sleep.
pub const WORDS: usize = 10;

// What the table is told when it is made: the value at the start, which takes no bytes, and the most turns.
#[derive(Drop)]
pub struct Opening<V> {
    pub value: Snapshot<V>,
    pub most: u32,
}

pub struct Law;

impl<V: Storied> TableRule<Option<V>, View<V::Entry, V::Terms>, Opening<V>> for Law {
    ghost holds = { λ key. Turned V.caller V.story V.terms (V.terms key.value.value) key.most };

    ghost first = { λ key. opening_view (V.terms key.value.value) key.most };
}
