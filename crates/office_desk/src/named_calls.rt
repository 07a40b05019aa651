// The calls of a desk by name, each of which asks one call.

ghost use Rattle.office_turn.specs.Told.{IsReady};
ghost use Rattle.office_words.specs.declared.entry.Call.TheVariants as call;
ghost use Rattle.office_desk.specs.Desks.{AnswersWith, MayAskWith};

use crate::desk::{Desk, Pass};
use office_words::{Call, Reply};
use permit_days::Day;
use restriction_log::Change;
use std::sync::Wait;
use std::sync::ledger::Ledger;
use trip_analysis::{Application, Proposal};

impl<L: Ledger> Desk<L> {
    /// Asks for a permit, for what was found for the application at an earlier version, which the pass has seen. The pass is left
    /// as by `ask`, and it may wait.
    pub fn submit<R: Wait>(
        &self,
        rt: &R,
        pass: &mut Pass<L>,
        application: Application,
        proposal: Proposal,
    ) -> Reply
        requires ready { IsReady self.now pass.old }
        requires asked { MayAskWith pass.old (call.Submit application proposal) }
        ensures answered { AnswersWith pass.old (call.Submit application proposal) result pass.new }
        ensures ready { IsReady self.now pass.new }
    {
        self.ask(
            rt,
            pass,
            Call::Submit {
                application,
                proposal,
            },
        )
    }

    /// Asks for a permit, for what the office itself finds now. The pass is left as by `ask`, and it may wait.
    pub fn held<R: Wait>(&self, rt: &R, pass: &mut Pass<L>, application: Application) -> Reply
        requires ready { IsReady self.now pass.old }
        requires asked { MayAskWith pass.old (call.Held application) }
        ensures answered { AnswersWith pass.old (call.Held application) result pass.new }
        ensures ready { IsReady self.now pass.new }
    {
        self.ask(rt, pass, Call::Held { application })
    }

    /// Asks that a change be posted. The pass is left as by `ask`, and it may wait.
    pub fn post<R: Wait>(&self, rt: &R, pass: &mut Pass<L>, change: Change) -> Reply
        requires ready { IsReady self.now pass.old }
        ensures answered { AnswersWith pass.old (call.Post change) result pass.new }
        ensures ready { IsReady self.now pass.new }
    {
        self.ask(rt, pass, Call::Post { change })
    }

    /// Asks that it be this day from now on. The pass is left as by `ask`, and it may wait.
    pub fn day<R: Wait>(&self, rt: &R, pass: &mut Pass<L>, day: Day) -> Reply
        requires ready { IsReady self.now pass.old }
        ensures answered { AnswersWith pass.old (call.Day day) result pass.new }
        ensures ready { IsReady self.now pass.new }
    {
        self.ask(rt, pass, Call::Day { day })
    }

    /// Asks to give a permit back. The pass is left as by `ask`, and it may wait.
    pub fn surrender<R: Wait>(&self, rt: &R, pass: &mut Pass<L>, number: u32) -> Reply
        requires ready { IsReady self.now pass.old }
        ensures answered { AnswersWith pass.old (call.Surrender number) result pass.new }
        ensures ready { IsReady self.now pass.new }
    {
        self.ask(rt, pass, Call::Surrender { number })
    }

    /// Asks what a permit says. The pass is left as by `ask`, and it may wait.
    pub fn show<R: Wait>(&self, rt: &R, pass: &mut Pass<L>, number: u32) -> Reply
        requires ready { IsReady self.now pass.old }
        ensures answered { AnswersWith pass.old (call.Show number) result pass.new }
        ensures ready { IsReady self.now pass.new }
    {
        self.ask(rt, pass, Call::Show { number })
    }
}
