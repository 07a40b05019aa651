// Answers to an application: by what was proposed for it, or by what the office finds itself.

ghost use Rattle.std.specs.Prelude.{◌≡◌, ◌+◌, ◌<◌, ◌≤◌, ◌&&◌, length, All, IfOk, OnErr, None, if◌then◌else◌};
ghost use Rattle.std.specs.List.{concat};
ghost use Rattle.road_graph.specs.Roads.{IsRoads};
ghost use Rattle.trip_analysis.specs.declared.finding.What.TheVariants as what;
ghost use Rattle.trip_analysis.specs.Applications.{Sound};
ghost use Rattle.trip_analysis.specs.Passing.{first_on as first_in, is_passable, limit_for};
ghost use Rattle.trip_analysis.specs.Findings.{InRange, leaves};
ghost use Rattle.office_words.specs.declared.entry.Call.TheVariants.{Held, Submit};
ghost use Rattle.office_words.specs.declared.entry.Reply.TheVariants as reply;
ghost use Rattle.office_core.specs.Replies.{early_reply};
ghost use Rattle.office_core.specs.Costs.{EarlyTestsNone, tests_held};
ghost use Rattle.office_core.specs.Machine.{HasRoom, IsFound, version_of};
ghost use Rattle.office_core.specs.Registers.{Gives, HeldAt, IsReplyTo, IsRetested, Issues, LeavesParts, MayLack, Permits, changed_among, changed_out, found_reply, has_changed, least_out, next_issue, register_state_now, state_then};

use crate::answer::Answer;
use crate::register::Register;
use clearance_rules::{Limit, Steps};
use names::NoMemory;
use office_words::{Cause, Reply};
use permit_book::Trip;
use road_graph::SharedNumbers;
use std::sync::ledger::Ledger;
use trip_analysis::{Application, Failing, NodeSet, Proposal, TruckOn, What};
use trip_routes::SharedRoutes;

impl Register {
    /// Answers a proposal, which is what was found at its version.
    #[tactic(auto, using(crate::proofs::Founds::found_in_range, crate::proofs::Founds::found_holds))]
    pub(crate) fn submit<L: Ledger>(
        &mut self,
        caller: u32,
        application: &Application,
        proposal: &Proposal,
        steps: &mut Steps<L>,
    ) -> Result<Answer, NoMemory>
        requires found { IsFound self.old.base self.old.machine application.now proposal.now }
        requires room { HasRoom self.old.machine }
        ensures base { self.new.base ≡ self.old.base }
        ensures given { IfOk result (Gives self.old caller (Submit application.now proposal.now)) }
        ensures after { IfOk result (LeavesParts self.old caller
            (Submit application.now proposal.now) self.new) }
        ensures unchanged { OnErr result (self.new ≡ self.old) }
        ensures lack { OnErr result (MayLack self.old (Submit application.now proposal.now)) }
        ensures early { EarlyTestsNone self.old.base self.old.machine.day application.now
            steps.old steps.new }
        ensures cost { IsRetested self.old proposal.now.seen proposal.now.what steps.old steps.new }
    {
        match self.early_answer(application) {
            Some(answer) => Ok(answer),
            None => self.answer_found(caller, application, proposal, steps),
        }
    }

    /// Answers an application by what the office finds itself.
    pub(crate) fn held<L: Ledger>(
        &mut self,
        caller: u32,
        application: &Application,
        steps: &mut Steps<L>,
    ) -> Result<Answer, NoMemory>
        requires sound { Sound self.old.base application.now }
        requires room { HasRoom self.old.machine }
        ensures base { self.new.base ≡ self.old.base }
        ensures given { IfOk result (Gives self.old caller (Held application.now)) }
        ensures after { IfOk result (LeavesParts self.old caller (Held application.now) self.new) }
        ensures unchanged { OnErr result (self.new ≡ self.old) }
        ensures lack { OnErr result (MayLack self.old (Held application.now)) }
        ensures early { EarlyTestsNone self.old.base self.old.machine.day application.now
            steps.old steps.new }
        ensures cost { steps.new ≤ steps.old + tests_held self.old.base application.now }
    {
        match self.early_answer(application) {
            Some(answer) => Ok(answer),
            None => {
                let proposal = self.find(application, steps)?;
                self.answer_found(caller, application, &proposal, steps)
            }
        }
    }

    /// What is answered before the roads are looked at. Takes no memory.
    pub(crate) fn early_answer(&self, application: &Application) -> Option<Answer>
        requires { application.now.truck < length self.now.base.fleet }
        ensures answer { result ≡ early_reply self.now.base self.now.machine.day application.now }
        ensures roads { IsRoads self.now.base.roads }
    {
        let (base, day) = (self.base(), self.today());
        if application.first() < day {
            return Some(Answer::plain(Reply::Late { day }));
        }
        if base.fleet()[application.truck() as usize].load.legal() {
            return Some(Answer::plain(Reply::NotNeeded));
        }
        None
    }

    // Answers what was found for an application.
    fn answer_found<L: Ledger>(
        &mut self,
        caller: u32,
        application: &Application,
        proposal: &Proposal,
        steps: &mut Steps<L>,
    ) -> Result<Answer, NoMemory>
        requires truck { application.now.truck < length self.old.base.fleet }
        requires within { InRange self.old.base proposal.now.what }
        requires held { HeldAt self.old proposal.now.seen application.now.truck proposal.now.what }
        requires room { HasRoom self.old.machine }
        ensures base { self.new.base ≡ self.old.base }
        ensures given { IfOk result (IsReplyTo self.old application.now.truck proposal.now.what) }
        ensures after { IfOk result (Permits self.old caller application.now proposal.now.seen self.new) }
        ensures unchanged { OnErr result (self.new ≡ self.old) }
        ensures lack { OnErr result (Issues self.old application.now.truck proposal.now.what) }
        ensures cost { IsRetested self.old proposal.now.seen proposal.now.what steps.old steps.new }
    {
        let (truck, seen, version) = (application.truck(), proposal.seen, self.version());
        match &proposal.what {
            What::NotNeeded => Ok(Answer::plain(Reply::NotNeeded)),
            What::Route(routes) => match self.first_failing(truck, seen, routes.all(), steps) {
                Some(failing) => Ok(self.outdated(Cause::NowFails {
                    limit: failing.limit,
                })),
                None => self.issue(caller, application, seen, routes),
            },
            What::Fails { segment } => match self.failing_limit(truck, *segment, steps) {
                Some(limit) => Ok(Answer::plain(Reply::Refused { version, limit })),
                None => Ok(self.outdated(Cause::NowMeets { segment: *segment })),
            },
            What::Cut(nodes) => Ok(self.answer_cut(truck, seen, nodes, steps)),
        }
    }

    // The first of these segments that fails the truck, where none did at the version seen: only what changed since is
    // tested. Takes no memory.
    fn first_failing<L: Ledger>(
        &self,
        truck: u32,
        seen: u32,
        segments: &[u32],
        steps: &mut Steps<L>,
    ) -> Option<Failing>
        requires truck { truck < length self.now.base.fleet }
        requires there { All (λ s. s < length self.now.base.roads.segments) segments.now }
        requires met { first_in self.now.base (state_then self.now seen) truck segments.now ≡ None }
        ensures value { result ≡ first_in self.now.base (register_state_now self.now) truck segments.now }
        ensures steps { steps.new ≤ steps.old + changed_among self.now seen segments.now }
    {
        if seen == self.version() {
            return None;
        }
        'places: for i in 0..segments.len() {
            let segment = segments[i];
            if let Some(limit) = self.limit_if_changed(truck, seen, segment, steps) {
                return Some(Failing { segment, limit });
            }
        }
        None
    }

    // The first limit of a segment that fails the truck, where the segment changed after the version seen. Takes no memory.
    fn limit_if_changed<L: Ledger>(
        &self,
        truck: u32,
        seen: u32,
        segment: u32,
        steps: &mut Steps<L>,
    ) -> Option<Limit>
        requires truck { truck < length self.now.base.fleet }
        requires segment { segment < length self.now.base.roads.segments }
        ensures value { result ≡ (if has_changed self.now seen segment
            then limit_for self.now.base (register_state_now self.now) truck segment else None) }
        ensures steps { steps.new ≡ steps.old + (if has_changed self.now seen segment then 1 else 0) }
    {
        if self.changed(segment, seen) {
            return self.failing_limit(truck, segment, steps);
        }
        None
    }

    // The least segment out of these nodes that the truck may pass, where it could pass none at the version seen: only what
    // changed since is looked at, and only what leaves the nodes is tested. Takes no memory.
    fn first_meeting<L: Ledger>(
        &self,
        truck: u32,
        seen: u32,
        nodes: &NodeSet,
        steps: &mut Steps<L>,
    ) -> Option<u32>
        requires truck { truck < length self.now.base.fleet }
        requires met { least_out self.now.base (state_then self.now seen) truck nodes.now ≡ None }
        ensures value { result ≡ least_out self.now.base (register_state_now self.now) truck nodes.now }
        ensures steps { steps.new ≤ steps.old + changed_out self.now seen nodes.now }
    {
        let mut from = 0;
        'out: while let Some(segment) = self.next_changed(seen, from) {
            if self.meets_if_leaving(truck, nodes, segment, steps) {
                return Some(segment);
            }
            from = segment + 1;
        }
        None
    }

    // Whether the segment leaves these nodes, and the truck may pass it now. Takes no memory.
    fn meets_if_leaving<L: Ledger>(
        &self,
        truck: u32,
        nodes: &NodeSet,
        segment: u32,
        steps: &mut Steps<L>,
    ) -> bool
        requires truck { truck < length self.now.base.fleet }
        requires segment { segment < length self.now.base.roads.segments }
        ensures value { result ≡ (leaves self.now.base.roads nodes.now segment
            && is_passable self.now.base (register_state_now self.now) truck segment) }
        ensures steps { steps.new ≡ steps.old +
            (if leaves self.now.base.roads nodes.now segment then 1 else 0) }
    {
        let (base, state) = (self.base(), self.state());
        let on = TruckOn { base, state, truck };
        nodes.is_left_by(base.network(), segment) && on.is_passable(segment, steps)
    }

    // Answers a cut out of which no segment met at the version seen. Takes no memory.
    fn answer_cut<L: Ledger>(
        &self,
        truck: u32,
        seen: u32,
        nodes: &SharedNumbers,
        steps: &mut Steps<L>,
    ) -> Answer
        requires truck { truck < length self.now.base.fleet }
        requires met { least_out self.now.base (state_then self.now seen) truck nodes.now ≡ None }
        ensures reply { result ≡ found_reply self.now truck (what.Cut nodes.now) }
        ensures steps { IsRetested self.now seen (what.Cut nodes.now) steps.old steps.new }
    {
        let nodes = NodeSet::of(nodes);
        let Some(first) = nodes.first_leaving(self.base().network()) else {
            return Answer::plain(Reply::NoRoad);
        };
        if let Some(segment) = self.first_meeting(truck, seen, &nodes, steps) {
            return self.outdated(Cause::NowMeets { segment });
        }
        let version = self.version();
        match self.failing_limit(truck, first, steps) {
            Some(limit) => Answer::plain(Reply::Refused { version, limit }),
            None => Answer::plain(Reply::NoRoad),
        }
    }

    // Answers that a proposal is out of date. Takes no memory.
    fn outdated(&self, cause: Cause) -> Answer
        ensures { result ≡ reply.Outdated (version_of self.now.machine) cause }
    {
        let version = self.version();
        Answer::plain(Reply::Outdated { version, cause })
    }

    // Issues the next permit, for routes that meet now and were found at the version seen.
    fn issue(
        &mut self,
        caller: u32,
        application: &Application,
        seen: u32,
        routes: &SharedRoutes,
    ) -> Result<Answer, NoMemory>
        requires truck { application.now.truck < length self.old.base.fleet }
        requires segments { All (λ s. s < length self.old.base.roads.segments) (concat routes.now) }
        requires meets { first_in self.old.base (register_state_now self.old) application.now.truck
            (concat routes.now) ≡ None }
        requires room { HasRoom self.old.machine }
        ensures base { self.new.base ≡ self.old.base }
        ensures given { IfOk result (λ given. given ≡ next_issue self.old routes.now) }
        ensures after { IfOk result (Permits self.old caller application.now seen self.new) }
        ensures unchanged { OnErr result (self.new ≡ self.old) }
    {
        let trip = Trip {
            caller,
            truck: application.truck(),
            routes: routes.clone()?,
            first: application.first(),
            last: application.last(),
        };
        let (number, version) = (self.next_number(), self.version());
        let answer = Answer::new(Reply::Issued {
            number,
            version,
            routes: routes.clone()?,
        })?;
        self.enter_permit(trip, seen)?;
        Ok(answer)
    }
}
