// Recalls, and the objects that are told of them.

ghost use Rattle.std.specs.Prelude.{◌≡◌, ◌∷◌, [], ℕ, List, Option, OnOk, OnErr, option_map};
ghost use Rattle.office_io.specs.Causes.{HasCause};
ghost use Rattle.notice_desk.specs.declared.notice.Recall.{Recall};
ghost use Rattle.std.specs.Io.KnownBytes.{Appends};
ghost use Rattle.notice_desk.specs.Notices.{is_for, told_more};
ghost use Rattle.notice_desk.specs.Lines.{AppendsFront, recall_line};

use names::Name;
use office_io::Failed;

/// A permit that a posting recalled: its number, the version of that posting, and the carrier of its truck.
#[derive(Clone, Copy, Debug, PartialEq, Eq)]
pub struct Recall {
    pub permit: u32,
    pub version: u32,
    pub carrier: Name,
}

/// Whose recalls an object is told.
#[derive(Clone, Copy, PartialEq, Eq)]
pub enum Whom {
    All,
    Carrier(Name),
}

impl Whom {
    /// Whether the recall is one of these.
    pub fn is_for(&self, recall: &Recall) -> bool
        ensures { result ≡ is_for self.now recall.now }
    {
        match self {
            Whom::All => true,
            Whom::Carrier(name) => *name == recall.carrier,
        }
    }
}

/// An object that is told of recalls.
pub trait Notice: Drop {
    /// The list told, where the object tells it.
    ghost list: { Self → Option (List Recall) };

    /// How often it has failed.
    ghost faults: { Self → ℕ };

    /// What it has written for those who read it, where the object tells that.
    ghost text: { Self → Option (List ℕ) };

    /// Tells it one recall. `Ok` has appended the recall to the list told, and just its line to what the object wrote, where
    /// the object tells these. After `Failed` the count of faults rose, the list told is as it was, and a front of the line
    /// may have been written.
    fn tell(&mut self, recall: &Recall) -> Result<(), Failed>
        ensures ok { OnOk result (list self.new ≡ told_more (list self.old) (recall.now ∷ [])) }
        ensures err { OnErr result (list self.new ≡ list self.old) }
        ensures wrote { OnOk result (Appends (text self.old) (text self.new) (recall_line recall.now)) }
        ensures part { OnErr result (AppendsFront (text self.old) (text self.new) (recall_line recall.now)) }
        ensures cause { HasCause (faults self.old) (faults self.new) result };

    /// The list told, or `None` exactly where the object tells none. Takes no memory.
    fn told(&self) -> Option<&[Recall]>
        ensures { option_map (λ s. s.now) result ≡ list self.now };
}
