// The answer to a posting.

ghost use Rattle.std.specs.Prelude.{◌≡◌, ◌+◌, ◌<◌, ◌≤◌, length, IfOk, OnErr, true};
ghost use Rattle.restriction_log.specs.Changes.{takes};
ghost use Rattle.restriction_log.specs.States.{AreOf};
ghost use Rattle.trip_analysis.specs.Passing.{is_passable};
ghost use Rattle.office_words.specs.declared.entry.Call.TheVariants as call;
ghost use Rattle.office_core.specs.Recalls.{AreVerdicts};
ghost use Rattle.office_core.specs.Users.{IsUser, users_of};
ghost use Rattle.office_core.specs.Machine.{HasRoom};
ghost use Rattle.office_core.specs.Registers.{Costs, MeetElsewhere, Posts, is_recalled_in, posting_reply, recalls_of};

use crate::answer::Answer;
use crate::register::Register;
use clearance_rules::Steps;
use names::NoMemory;
use office_words::Reply;
use restriction_log::{Change, PostRefusal, State, touched};
use road_graph::Numbers;
use std::alloc::AllocError;
use std::sync::ledger::Ledger;
use trip_analysis::TruckOn;

impl Register {
    /// Posts a change that the network takes, and recalls the permits in force that then fail. What can fail comes first.
    pub(crate) fn post<L: Ledger>(
        &mut self,
        change: &Change,
        steps: &mut Steps<L>,
    ) -> Result<Answer, NoMemory>
        requires { HasRoom self.old.machine }
        ensures base { self.new.base ≡ self.old.base }
        ensures given { IfOk result (λ given. given ≡ posting_reply self.old change.now) }
        ensures after { IfOk result (Posts self.old change.now self.new) }
        ensures unchanged { OnErr result (self.new ≡ self.old) }
        ensures lack { OnErr result (takes self.old.base.roads change.now ≡ true) }
        ensures cost { Costs self.old (call.Post change.now) steps.old steps.new }
    {
        let next = match self.next(change) {
            Ok(next) => next,
            Err(PostRefusal::Range) => return Ok(Answer::plain(Reply::OutOfRange)),
            Err(PostRefusal::NoMemory) => return Err(NoMemory),
            Err(PostRefusal::Full) => unreachable!(),
        };
        let segment = touched(self.base().network(), change);
        let recalled = Numbers::of(self.recalled_by(next.state(), segment, steps)?);
        let version = self.version() + 1;
        let answer = Answer::new(Reply::Posted { version, recalled })?;
        self.enter(next, answer.numbers())?;
        Ok(answer)
    }

    // The numbers of the permits that a state recalls, where each in force is known to meet it but at one segment: those
    // that use that segment are tested there, and no other.
    fn recalled_by<L: Ledger>(
        &self,
        state: &State,
        segment: u32,
        steps: &mut Steps<L>,
    ) -> Result<Vec<u32>, AllocError>
        requires of_base { AreOf self.now.base.roads state.now }
        requires there { segment < length self.now.base.roads.segments }
        requires elsewhere { MeetElsewhere self.now state.now segment }
        ensures numbers { IfOk result (λ numbers. numbers.items ≡ recalls_of self.now state.now) }
        ensures steps { steps.new ≤ steps.old + length (users_of segment self.now.machine.permits) }
    {
        let mut numbers = Vec::new(self.alloc());
        let users = self.users(segment);
        if users.is_empty() {
            return Ok(numbers);
        }
        let trucks = self.base().fleet().len();
        let mut verdicts = vec![in self.alloc(); None; trucks]?;
        for i in 0..users.len() {
            if self.is_recalled(state, segment, users[i], &mut verdicts, steps) {
                numbers.push(users[i])?;
            }
        }
        Ok(numbers)
    }

    // Whether the state recalls the permit of this number, which uses the segment.
    fn is_recalled<L: Ledger>(
        &self,
        state: &State,
        segment: u32,
        number: u32,
        verdicts: &mut Vec<Option<bool>>,
        steps: &mut Steps<L>,
    ) -> bool
        requires user { IsUser self.now.machine.permits segment number }
        requires of_base { AreOf self.now.base.roads state.now }
        requires there { segment < length self.now.base.roads.segments }
        requires elsewhere { MeetElsewhere self.now state.now segment }
        requires verdicts { AreVerdicts self.now.base state.now segment verdicts.old.items }
        ensures value { result ≡ is_recalled_in self.now state.now number }
        ensures verdicts { AreVerdicts self.now.base state.now segment verdicts.new.items }
        ensures steps { steps.new ≤ steps.old + 1 }
    {
        let permit = &self.permits()[number as usize - 1];
        permit.status(self.today()).is_in_force()
            && !self.meets(state, segment, permit.trip.truck, verdicts, steps)
    }

    // Whether a truck may pass a segment in a state. A truck is judged but once, however many permits it has there.
    fn meets<L: Ledger>(
        &self,
        state: &State,
        segment: u32,
        truck: u32,
        verdicts: &mut Vec<Option<bool>>,
        steps: &mut Steps<L>,
    ) -> bool
        requires truck { truck < length self.now.base.fleet }
        requires of_base { AreOf self.now.base.roads state.now }
        requires there { segment < length self.now.base.roads.segments }
        requires verdicts { AreVerdicts self.now.base state.now segment verdicts.old.items }
        ensures value { result ≡ is_passable self.now.base state.now truck segment }
        ensures verdicts { AreVerdicts self.now.base state.now segment verdicts.new.items }
        ensures steps { steps.new ≤ steps.old + 1 }
    {
        if let Some(meets) = verdicts[truck as usize] {
            return meets;
        }
        let base = self.base();
        let on = TruckOn { base, state, truck };
        let meets = on.is_passable(segment, steps);
        verdicts[truck as usize] = Some(meets);
        meets
    }
}
