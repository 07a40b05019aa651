// A list of recalls in memory, of which chosen calls fail.

ghost use Rattle.std.specs.Prelude.{◌≡◌, ◌++◌, ◌∷◌, ◌↔◌, [], Some, OnOk, OnErr, IfOk, IsErr, IsTrue, option_map};
ghost use Rattle.office_io.specs.Causes.{HasCause, counted};
ghost use Rattle.notice_desk.specs.Memory.{new_notice, tell_fails};
ghost use Rattle.std.specs.Io.KnownBytes.{Appends};
ghost use Rattle.notice_desk.specs.Lines.{AppendsFront, recall_line, recall_lines};
ghost use Rattle.notice_desk.specs.Notices.{told_more};

use crate::notice::{Notice, Recall};
use names::NoMemory;
use office_io::{Failed, is_failing};
use std::alloc::Global;
use std::marker::Model;

/// Room for recalls in memory, of which some calls fail.
#[derive(Drop)]
pub struct MemoryNotice {
    recalls: Vec<Recall>,
    room: usize,
    failing: Vec<u32>,
    calls: u64,
    faults: u64,
}

impl Model for MemoryNotice {
    ghost use Rattle.std.specs.Prelude.{◌≤◌, vec_len, vec_capacity};
    ghost use Rattle.notice_desk.specs.Memory.{NoticeState};

    ghost Value = { NoticeState };

    ghost view = { λ s. record { told = s.recalls.items; room = s.room; failing = s.failing.items; calls = s.calls; faults = s.faults } };

    ghost invariant = { λ s. (vec_len s.recalls ≤ s.room) × (s.room ≤ vec_capacity s.recalls) };
}

impl MemoryNotice {
    /// An empty list with room for so many recalls, which is taken here. The calls of `tell` of these numbers, counted from
    /// 1, fail, and so does one that finds no room left.
    pub fn new(alloc: Global, room: usize, failing: Vec<u32>) -> Result<MemoryNotice, NoMemory>
        ensures { IfOk result (λ notice. notice ≡ new_notice room failing.items) }
    {
        let Ok(recalls) = Vec::with_capacity(alloc, room) else {
            return Err(NoMemory);
        };
        Ok(MemoryNotice {
            recalls,
            room,
            failing,
            calls: 0,
            faults: 0,
        })
    }
}

impl Notice for MemoryNotice {
    ghost list = { λ s. Some s.told };

    ghost faults = { λ s. s.faults };

    ghost text = { λ s. Some (recall_lines s.told) };

    fn tell(&mut self, recall: &Recall) -> Result<(), Failed>
        ensures ok { OnOk result (Some self.new.told ≡ told_more (Some self.old.told) (recall.now ∷ [])) }
        ensures err { OnErr result (Some self.new.told ≡ Some self.old.told) }
        ensures wrote { OnOk result
            (Appends (Some (recall_lines self.old.told)) (Some (recall_lines self.new.told)) (recall_line recall.now)) }
        ensures part { OnErr result
            (AppendsFront (Some (recall_lines self.old.told)) (Some (recall_lines self.new.told)) (recall_line recall.now)) }
        ensures cause { HasCause self.old.faults self.new.faults result }
        ensures fails { IsErr result ↔ IsTrue (tell_fails self.old) }
        ensures calls { self.new.calls ≡ counted self.old.calls }
        ensures room { self.new.room ≡ self.old.room }
        ensures failing { self.new.failing ≡ self.old.failing }
    {
        self.calls = self.calls.saturating_add(1);
        let room = self.room - self.recalls.len();
        if is_failing(&self.failing, self.calls) || room == 0 {
            self.faults = self.faults.saturating_add(1);
            return Err(Failed);
        }
        self.recalls.push_reserved(*recall);
        Ok(())
    }

    fn told(&self) -> Option<&[Recall]> {
        Some(self.recalls.as_slice())
    }
}
