//! The steps of a turn, on the table. A seat is plain here: a view, and the slots that it holds.
ghost use Rattle.std.specs.Prelude.{◌≡◌, ◌+◌, ◌^◌, ◌<◌, ◌≤◌, true, false, [], ◌∷◌, ◌++◌, None, Some, length, IfOk, IfErr, OnOk};
ghost use Rattle.office_turn.specs.Story.{HasOneMore, StartsWith, StartsWithBoth, entries_of};
ghost use Rattle.office_turn.specs.Steps.{with_ticket, with_worn, with_story, after_passing, after_receiving};

use crate::law::{Law, Opening};
use crate::plays::{Count, Draw, Look, PassOn, Receive, Ring, Tally};
use crate::story::Storied;
use crate::turn::Worn;
use crate::view::View;
use atomic_table::{Seat, Shared};
use std::hint;
use std::sync::Wait;

// How often one looks whether a turn can be had before it sleeps. Most turns are short.
const LOOKS: u32 = 200;

// The word that tells how many sleep or are about to, and the word on which they sleep. They are not in the line of the cache of
// the first two words.
const SLEEPERS: usize = 8;

const BELL: usize = 9;

// Draws the next ticket once it is served, or finds that all have been drawn. A ticket is drawn only where no turn is held, so
// whoever runs need not wait for one that sleeps.
//
// No wake is missed. Whoever wants to sleep is counted first, then reads the bell, and then looks whether a turn is held. Whoever
// passes a turn on counts up word 1 first, then looks whether anybody is counted, rings the bell and wakes one. So either that
// look finds the sleeper counted, or the sleeper finds that the turn was passed on. One who is counted and not asleep yet does not
// fall asleep once the bell was rung, since the kernel compares the bell with what was read. Who is woken draws a ticket, and wakes
// another when it passes its turn on; or it finds that no ticket is left, and wakes all.
pub fn draw<V: Storied, R: Wait>(
    rt: &R,
    shared: &Shared<Option<V>, View<V::Entry, V::Terms>, Opening<V>, Law>,
    seat: &mut Seat<Option<V>, View<V::Entry, V::Terms>>,
    most: u32,
) -> Result<u64, Worn>
    requires lock { (seat.old.table_id ≡ shared.now.table_id)
        × (shared.now.table_id.words ≡ 10) × (most ≡ seat.old.me.0.most) }
    requires view { (seat.old.me.0.ticket ≡ None)
        × (seat.old.me.0.is_spent ≡ false) × (seat.old.me.0.is_root ≡ false) }
    ensures drawn { IfOk result (λ ticket.
        (ticket < most) × (seat.new.me ≡ (with_ticket seat.old.me.0 ticket, seat.old.me.1))) }
    ensures not_worn { OnOk result (seat.old.me.0.worn ≡ false) }
    ensures worn { IfErr result (λ worn.
        (worn.turns ≡ most) × (seat.new.me ≡ (with_worn seat.old.me.0, seat.old.me.1))) }
    ensures same { (seat.new.table_id ≡ seat.old.table_id) × (seat.new.id ≡ seat.old.id) }
{
    let mut looks = 0;
    for _ in rt.forever() {
        let next = shared.load::<Count>(seat, 0);
        if next == u64::from(most) {
            shared.wake_all(BELL);
            return Err(Worn { turns: most });
        }
        if shared.peek(1) == next {
            let found = shared.compare_exchange::<Draw>(seat, 0, next, next + 1);
            if found == next {
                return Ok(next);
            }
        } else if looks < LOOKS {
            looks += 1;
            hint::spin_loop();
        } else {
            sleep(rt, shared, seat);
            looks = 0;
        }
    }
    unreachable!()
}

// Sleeps until a turn was passed on, where one is held. It may return before.
fn sleep<V: Storied, R: Wait>(
    rt: &R,
    shared: &Shared<Option<V>, View<V::Entry, V::Terms>, Opening<V>, Law>,
    seat: &mut Seat<Option<V>, View<V::Entry, V::Terms>>,
)
    requires lock { (seat.old.table_id ≡ shared.now.table_id) × (shared.now.table_id.words ≡ 10) }
    ensures same { (seat.new.table_id ≡ seat.old.table_id) × (seat.new.id ≡ seat.old.id)
        × (seat.new.me ≡ seat.old.me) }
{
    shared.fetch_add::<Ring>(seat, SLEEPERS, 1);
    // Of a word the kernel compares the low half.
    let rung = (shared.peek(BELL) % (1 << 32)) as u32;
    if shared.peek(0) > shared.peek(1) {
        shared.park(rt, BELL, rung);
    }
    shared.fetch_sub::<Ring>(seat, SLEEPERS, 1);
}

// Takes the value once the ticket is served, as it is where it was drawn while no turn was held.
pub fn take<V: Storied, R: Wait>(
    rt: &R,
    shared: &Shared<Option<V>, View<V::Entry, V::Terms>, Opening<V>, Law>,
    seat: &mut Seat<Option<V>, View<V::Entry, V::Terms>>,
    ticket: u64,
) -> V
    requires lock { (seat.old.table_id ≡ shared.now.table_id) × (shared.now.table_id.words ≡ 10) }
    requires view { (seat.old.me.0.ticket ≡ Some ticket) × (seat.old.me.0.looked ≡ false)
        × (seat.old.me.0.is_spent ≡ false) × (seat.old.me.0.is_root ≡ false) × (seat.old.me.1 ≡ []) }
    ensures view { seat.new.me ≡ (with_story seat.old.me.0 (V.story result), (0, None) ∷ []) }
    ensures extends { StartsWith (V.story result) seat.old.me.0.seen }
    ensures room { length (V.story result) < seat.old.me.0.most }
    ensures own { entries_of V.caller seat.old.me.0.number (V.story result) ≡ seat.old.me.0.own }
    ensures terms { Some (V.terms result) ≡ seat.old.me.0.terms }
    ensures same { (seat.new.table_id ≡ seat.old.table_id) × (seat.new.id ≡ seat.old.id) }
{
    for _ in rt.forever() {
        let serving = shared.load::<Look>(seat, 1);
        if serving == ticket {
            return shared.exchange(seat, 0, None).unwrap();
        }
        hint::spin_loop();
    }
    unreachable!()
}

// Puts the value back, and serves the next ticket. Where somebody sleeps, one is woken.
pub fn put_back<V: Storied>(
    shared: &Shared<Option<V>, View<V::Entry, V::Terms>, Opening<V>, Law>,
    seat: &mut Seat<Option<V>, View<V::Entry, V::Terms>>,
    value: V,
)
    requires lock { (seat.old.table_id ≡ shared.now.table_id)
        × (shared.now.table_id.words ≡ 10) × (seat.old.me.0.most < 2 ^ 32) }
    requires view { (seat.old.me.0.looked ≡ true) × (seat.old.me.0.is_spent ≡ false)
        × (seat.old.me.0.is_root ≡ false) × (seat.old.me.1 ≡ (0, None) ∷ []) }
    requires story { HasOneMore V.caller seat.old.me.0.number seat.old.me.0.seen (V.story value) }
    requires terms { Some (V.terms value) ≡ seat.old.me.0.terms }
    ensures view { seat.new.me ≡ (after_passing seat.old.me.0 (V.story value), []) }
    ensures own { entries_of V.caller seat.old.me.0.number (V.story value) ≡ seat.new.me.0.own }
    ensures same { (seat.new.table_id ≡ seat.old.table_id) × (seat.new.id ≡ seat.old.id) }
{
    let left = shared.exchange(seat, 0, Some(value));
    let None = left else { unreachable!() };
    let _served = shared.fetch_add::<PassOn>(seat, 1, 1);
    if shared.peek(SLEEPERS) > 0 {
        shared.fetch_add::<Ring>(seat, BELL, 1);
        shared.wake_one(BELL);
    }
}

// Takes the seat of a pass into the root's.
pub fn take_in<V: Storied>(
    shared: &Shared<Option<V>, View<V::Entry, V::Terms>, Opening<V>, Law>,
    root: &mut Seat<Option<V>, View<V::Entry, V::Terms>>,
    pass: Seat<Option<V>, View<V::Entry, V::Terms>>,
)
    requires lock { (root.old.table_id ≡ shared.now.table_id)
        × (pass.table_id ≡ shared.now.table_id) × (shared.now.table_id.words ≡ 10) }
    requires root { (root.old.me.0.is_root ≡ true) × (root.old.me.0.is_spent ≡ false) }
    requires pass { (pass.me.0.is_root ≡ false) × (pass.me.0.is_spent ≡ false)
        × (pass.me.0.looked ≡ false) × (pass.me.0.ticket ≡ None) × (pass.me.1 ≡ []) }
    ensures view { root.new.me ≡ (after_receiving root.old.me.0 pass.me.0, root.old.me.1) }
    ensures seen { StartsWithBoth root.new.me.0.seen root.old.me.0.seen pass.me.0.seen }
    ensures tally { length root.new.me.0.receipts ≤ root.new.me.0.admitted }
    ensures same { (root.new.table_id ≡ root.old.table_id) × (root.new.id ≡ root.old.id) }
{
    shared.join_seat::<Receive>(root, pass);
    shared.load::<Tally>(root, 0);
}
