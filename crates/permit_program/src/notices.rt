// Who hears of a recall where nobody else is named: whoever reads standard error.

ghost use Rattle.std.specs.Prelude.{◌≡◌, ◌++◌, ◌∷◌, []};
ghost use Rattle.std.specs.Bool.{OnTrue, OnFalse};
ghost use Rattle.notice_desk.specs.Lines.{recall_line};
ghost use Rattle.notice_desk.specs.Standings.{AreNew, fault_counts, new_standing, standings, texts};
ghost use Rattle.notice_desk.specs.declared.notice.Whom.TheVariants as whom;

use arrayvec::ArrayString;
use itoa::Buffer;
use notice_desk::{Notice, Recall, Subscribers, Whom};
use office_io::{Failed, Sink, write_all};

// The longest line has 29 bytes: both numbers of ten digits.
const LINE: usize = 32;

/// Tells each recall as a line `recall PERMIT VERSION` to a sink, by one write where the sink takes it whole, and tells no list.
/// Its text is what the sink holds, and its faults are the sink's.
#[derive(Drop)]
pub struct LineNotice<K> {
    sink: K,
}

impl<K: Sink + Drop> LineNotice<K> {
    /// An object that writes to the sink.
    pub fn new(sink: K) -> LineNotice<K>
        ensures { result ≡ record { sink = sink } }
    {
        LineNotice { sink }
    }

    /// The sink that it writes to.
    pub fn sink(&self) -> &K
        ensures { result.now ≡ self.now.sink }
    {
        &self.sink
    }
}

impl<K: Sink + Drop> Notice for LineNotice<K> {
    ghost use Rattle.std.specs.Prelude.{None};

    ghost list = { λ _. None };

    ghost faults = { λ n. K.faults n.sink };

    ghost text = { λ n. K.held n.sink };

    fn tell(&mut self, recall: &Recall) -> Result<(), Failed> {
        let line = line_of(recall);
        match write_all(&mut self.sink, line.as_str().as_bytes()) {
            Ok(()) => Ok(()),
            Err(_) => Err(Failed),
        }
    }

    fn told(&self) -> Option<&[Recall]> {
        None
    }
}

/// Adds an object that is told of all recalls, last, to those who are through with none. `false` says that there was no memory
/// for it, and then all is as it was.
#[tactic(auto, using(notice_desk::proofs::Ready::added_new))]
pub fn add_listener(notices: &mut Subscribers, notice: Box<dyn Notice>) -> bool
    requires { AreNew (standings list notices.old) }
    ensures new { AreNew (standings list notices.new) }
    ensures added { OnTrue result (standings list notices.new ≡ standings list notices.old
        ++ new_standing whom.All (list notice) ∷ []) }
    ensures count { OnTrue result (fault_counts faults notices.new ≡ fault_counts faults notices.old
        ++ faults notice ∷ []) }
    ensures text { OnTrue result (texts text notices.new ≡ texts text notices.old ++ text notice ∷ []) }
    ensures same { OnFalse result (standings list notices.new ≡ standings list notices.old) }
    ensures counts { OnFalse result (fault_counts faults notices.new ≡ fault_counts faults notices.old) }
    ensures texts { OnFalse result (texts text notices.new ≡ texts text notices.old) }
{
    notices.add(Whom::All, notice).is_ok()
}

// The line of a recall.
#[tactic(auto, using(report_text::proofs::SummaryLines::line_adds), unfolding(notice_desk::specs::Lines::recall_line))]
fn line_of(recall: &Recall) -> ArrayString<LINE>
    ensures { result.bytes ≡ recall_line recall.now }
{
    let mut number = Buffer::new();
    let mut line = ArrayString::new();
    line.push_str("recall ");
    line.push_str(number.format(recall.permit));
    line.push_str(" ");
    line.push_str(number.format(recall.version));
    line.push_str("\n");
    line
}
