// What a permit office keeps, and what may be done with it.

ghost use Rattle.std.specs.Prelude.{◌≡◌, ◌+◌, ◌<◌, ◌≤◌, length, All, IfErr, IfNone, IfOk, IfSome, None, OnErr, OnOk, false, is_some, true};
ghost use Rattle.std.specs.Arc.{arc_value};
ghost use Rattle.std.specs.List.{concat};
ghost use Rattle.road_graph.specs.Roads.{IsRoads};
ghost use Rattle.restriction_log.specs.Changes.{touched};
ghost use Rattle.restriction_log.specs.Logs.{IsPostCause, post_refusal};
ghost use Rattle.restriction_log.specs.States.{AreOf};
ghost use Rattle.permit_days.specs.Days.{is_before};
ghost use Rattle.trip_analysis.specs.Applications.{Sound};
ghost use Rattle.trip_analysis.specs.Passing.{first_on as first_in, limit_for};
ghost use Rattle.trip_analysis.specs.Findings.{InRange};
ghost use Rattle.permit_book.specs.Permits.{AreNumbered, in_force, is_issued, permit_of};
ghost use Rattle.office_words.specs.declared.entry.Reply.TheVariants as reply;
ghost use Rattle.office_core.specs.Recalls.{IsRanged};
ghost use Rattle.office_core.specs.Users.{IsUser, users_of};
ghost use Rattle.office_core.specs.Costs.{tests_held};
ghost use Rattle.office_core.specs.Machine.{HasRoom, opened, version_of, with_day, with_surrender};
ghost use Rattle.office_core.specs.Registers.{AreUnchanged, Enters, HeldAt, IsFoundNow, IsNextState, MeetElsewhere, Posts, has_changed, posting_reply, recalls_of, register_state_now, stored_now};

use crate::recall_marks::recall_each;
use clearance_rules::{Limit, Steps};
use names::NoMemory;
use permit_book::{Book, BookRefusal, Permit, Trip};
use permit_days::Day;
use recall_index::Index;
use restriction_log::{Change, PostRefusal, State};
use snapshot_store::{Next, Snapshot, Store};
use std::alloc::Global;
use std::marker::Model;
use std::sync::Arc;
use std::sync::ledger::Ledger;
use trip_analysis::{Application, Base, Follower, Proposal, TruckOn};

/// What a permit office keeps: what it is about, what is posted and in force on the roads, the permits, the day, and what is
/// known of each truck.
///
/// Contracts see what it is about, and the machine: the postings, the permits and the day. The rest follows from these. Its
/// fields are written here alone, each by a method that says what it leaves.
#[derive(Drop)]
pub(crate) struct Register {
    alloc: Global,
    base: Arc<Base, Global>,
    day: Day,
    store: Store,
    book: Book,
    // the live permits by segment
    index: Index,
    // finds what is asked for without a proposal, and goes on to the current version only then
    follower: Follower,
}

impl Model for Register {
    ghost use Rattle.office_core.specs.Registers.{IsRegister, RegisterParts, register_parts_of};

    ghost Value = { RegisterParts };

    ghost view = { register_parts_of };

    ghost invariant = { IsRegister };
}

impl Register {
    /// The register of an office about this base that opens on this day.
    pub(crate) fn open(
        alloc: Global,
        base: Arc<Base, Global>,
        day: Day,
    ) -> Result<Register, NoMemory>
        ensures base { IfOk result (λ register. register.base ≡ arc_value base) }
        ensures machine { IfOk result (λ register. register.machine ≡ opened day) }
    {
        base.lists_are_in_order();
        let follower = Follower::new(alloc, &base)?;
        let store = Store::start(alloc, base.network())?;
        let index = Index::new(alloc, base.network().segments())?;
        Ok(Register {
            alloc,
            base,
            day,
            store,
            book: Book::new(alloc),
            index,
            follower,
        })
    }

    /// What the office is about. Takes no memory.
    pub(crate) fn base(&self) -> &Base
        ensures value { result.now ≡ self.now.base }
        ensures roads { IsRoads self.now.base.roads }
    {
        &self.base
    }

    /// What the office is about, with one more owner. `NoMemory` where no further owner can be had.
    pub(crate) fn share_base(&self) -> Result<Arc<Base, Global>, NoMemory>
        ensures { IfOk result (λ base. arc_value base ≡ self.now.base) }
    {
        Ok(Arc::try_clone(&self.base)?)
    }

    /// What is in force on the roads. Takes no memory.
    pub(crate) fn state(&self) -> &State
        ensures value { result.now ≡ register_state_now self.now }
        ensures of_base { AreOf self.now.base.roads result.now }
    {
        self.store.now()
    }

    /// The current version, as one more owner of its state. `NoMemory` where no further owner can be had.
    #[tactic(auto, using(crate::proofs::Registers::stored_is))]
    pub(crate) fn snapshot(&self) -> Result<Snapshot, NoMemory>
        ensures { IfOk result (λ snapshot. snapshot ≡ stored_now self.now) }
    {
        self.store.snapshot()
    }

    /// The number of the last posting. Takes no memory.
    pub(crate) fn version(&self) -> u32
        ensures { result ≡ version_of self.now.machine }
    {
        self.store.version()
    }

    /// The day that it is. Takes no memory.
    pub(crate) fn today(&self) -> Day
        ensures { result ≡ self.now.machine.day }
    {
        self.day
    }

    /// The permit of this number, or none where no such permit was issued. Takes no memory.
    pub(crate) fn permit(&self, number: u32) -> Option<&Permit>
        ensures issued { is_some result ≡ is_issued self.now.machine.permits number }
        ensures permit { IfSome result (λ permit. permit.now ≡ permit_of self.now.machine.permits number) }
    {
        self.book.get(number)
    }

    /// All permits, in the order of their numbers. Takes no memory.
    pub(crate) fn permits(&self) -> &[Permit]
        ensures permits { result.now ≡ self.now.machine.permits }
        ensures ranged { All (IsRanged self.now.base) self.now.machine.permits }
    {
        self.book.permits()
    }

    /// The numbers of the permits that use a segment, rising. Takes no memory.
    pub(crate) fn users(&self, segment: u32) -> &[u32]
        requires { segment < length self.now.base.roads.segments }
        ensures value { result.now ≡ users_of segment self.now.machine.permits }
        ensures each { All (IsUser self.now.machine.permits segment) result.now }
        ensures numbered { AreNumbered 0 self.now.machine.permits }
    {
        self.index.using(segment)
    }

    /// The first limit of the segment that fails the truck now. Takes no memory.
    pub(crate) fn failing_limit<L: Ledger>(
        &self,
        truck: u32,
        segment: u32,
        steps: &mut Steps<L>,
    ) -> Option<Limit>
        requires truck { truck < length self.now.base.fleet }
        requires segment { segment < length self.now.base.roads.segments }
        ensures value { result ≡ limit_for self.now.base (register_state_now self.now) truck segment }
        ensures steps { steps.new ≡ steps.old + 1 }
    {
        let (base, state) = (self.base(), self.state());
        let on = TruckOn { base, state, truck };
        on.failing_limit(segment, steps)
    }

    /// The number of the next permit. Takes no memory.
    pub(crate) fn next_number(&self) -> u32
        ensures { result ≡ length self.now.machine.permits + 1 }
    {
        self.book.len() + 1
    }

    /// The allocator of what it makes, which has no value in contracts.
    pub(crate) fn alloc(&self) -> Global {
        self.alloc
    }

    /// The first segment from a number on that a posting above the version seen names, it or one of its spans. Takes no memory.
    #[tactic(auto, using(crate::proofs::Registers::stored_is))]
    pub(crate) fn next_changed(&self, seen: u32, from: u32) -> Option<u32>
        ensures changed { IfSome result (λ s. has_changed self.now seen s ≡ true) }
        ensures within { IfSome result (λ s. (from ≤ s) × (s < length self.now.base.roads.segments)) }
        ensures few { IfSome result (λ s. s < 16384) }
        ensures first { IfSome result (λ s. AreUnchanged self.now seen from s) }
        ensures none { IfNone result (AreUnchanged self.now seen from (length self.now.base.roads.segments)) }
    {
        self.store.next_changed(seen, from)
    }

    /// Whether a posting above the version seen names the segment or one of its spans. Takes no memory.
    #[tactic(auto, using(crate::proofs::Registers::stored_is))]
    pub(crate) fn changed(&self, segment: u32, seen: u32) -> bool
        requires { segment < length self.now.base.roads.segments }
        ensures { result ≡ has_changed self.now seen segment }
    {
        self.store.changed(self.base.network(), segment, seen)
    }

    /// What the posting of a change would make of the roads. Refusals, in this order: `Range`, `Full`, `NoMemory`.
    #[tactic(auto, using(crate::proofs::Registers::stored_is))]
    pub(crate) fn next(&self, change: &Change) -> Result<Next, PostRefusal>
        ensures change { IfOk result (λ next. next.change ≡ change.now) }
        ensures next { IfOk result (IsNextState self.now) }
        ensures of_roads { IfOk result (λ next. AreOf self.now.base.roads next.state) }
        ensures elsewhere { IfOk result
            (λ next. MeetElsewhere self.now next.state (touched self.now.base.roads change.now)) }
        ensures refused { IfErr result
            (IsPostCause (post_refusal self.now.base.roads self.now.machine.postings change.now)) }
    {
        self.store.next(self.base.network(), *change)
    }

    /// What the office finds itself, at the current version.
    pub(crate) fn find<L: Ledger>(
        &mut self,
        application: &Application,
        steps: &mut Steps<L>,
    ) -> Result<Proposal, NoMemory>
        requires { Sound self.old.base application.now }
        ensures same { self.new ≡ self.old }
        ensures seen { IfOk result (λ proposal. proposal.seen ≡ version_of self.old.machine) }
        ensures found { IfOk result (λ proposal. IsFoundNow self.old application.now proposal.what) }
        ensures within { IfOk result (λ proposal. InRange self.old.base proposal.what) }
        ensures held { IfOk result (λ found. HeldAt self.old found.seen application.now.truck found.what) }
        ensures cost { steps.new + 1 ≤ steps.old + tests_held self.old.base application.now }
    {
        let snapshot = self.store.snapshot()?;
        self.follower
            .analyse(self.alloc, &self.base, snapshot, application, steps)
    }

    /// Enters the next permit into the book and the index, for a trip that meets now and whose routes were found at the version
    /// seen.
    pub(crate) fn enter_permit(&mut self, trip: Trip, seen: u32) -> Result<(), NoMemory>
        requires truck { trip.truck < length self.old.base.fleet }
        requires segments { All (λ s. s < length self.old.base.roads.segments) (concat trip.routes) }
        requires meets { first_in self.old.base (register_state_now self.old) trip.truck (concat trip.routes)
            ≡ None }
        requires room { HasRoom self.old.machine }
        ensures base { self.new.base ≡ self.old.base }
        ensures after { OnOk result (Enters self.old trip seen self.new) }
        ensures unchanged { OnErr result (self.new ≡ self.old) }
    {
        let number = self.book.len() + 1;
        let version = self.store.version();
        let routes = trip.routes.clone()?;
        let segments = routes.all();
        self.index.add(number, segments)?;
        match self.book.issue(trip, version, seen) {
            Ok(_number) => Ok(()),
            Err(BookRefusal::NoMemory) => {
                self.index.remove(number, segments);
                Err(NoMemory)
            }
            Err(BookRefusal::Full) => unreachable!(),
        }
    }

    /// Goes on to the state that a change makes, and recalls these permits.
    pub(crate) fn enter(&mut self, next: Next, recalled: &[u32]) -> Result<(), NoMemory>
        requires next { IsNextState self.old next }
        requires recalled { recalled.now ≡ recalls_of self.old next.state }
        ensures base { self.new.base ≡ self.old.base }
        ensures after { OnOk result (Posts self.old next.change self.new
            (posting_reply self.old next.change)) }
        ensures unchanged { OnErr result (self.new ≡ self.old) }
    {
        let version = self.store.commit(self.base.network(), next)?;
        recall_each(&mut self.book, &mut self.index, recalled, version);
        Ok(())
    }

    /// Keeps a day that is not before the kept one. Takes no memory.
    pub(crate) fn keep_day(&mut self, day: Day)
        requires { is_before day self.old.machine.day ≡ false }
        ensures base { self.new.base ≡ self.old.base }
        ensures after { self.new.machine ≡ with_day self.old.machine (reply.DayIs day) }
    {
        self.day = day;
    }

    /// Takes back a permit in force. Takes no memory.
    #[tactic(auto, using(crate::proofs::Forces::live_in_force))]
    pub(crate) fn take_back(&mut self, number: u32)
        requires issued { is_issued self.old.machine.permits number ≡ true }
        requires in_force { in_force self.old.machine.day (permit_of self.old.machine.permits number) ≡ true }
        ensures base { self.new.base ≡ self.old.base }
        ensures after { self.new.machine ≡ with_surrender self.old.machine number reply.Surrendered }
    {
        let permit = &self.book.permits()[number as usize - 1];
        self.index.remove(number, permit.trip.routes.all());
        self.book.surrender(number);
    }
}
