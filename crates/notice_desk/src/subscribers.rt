// Those who are told of recalls.

ghost use Rattle.std.specs.Prelude.{true, ◌≡◌, ◌≤◌, ◌<◌, ◌++◌, ◌∷◌, [], length, OnOk, OnErr, IfErr, option_map};
ghost use Rattle.std.specs.List.{remove};
ghost use Rattle.office_io.specs.Causes.{HasCause};
ghost use Rattle.notice_desk.specs.Notices.{is_for, recalls_for, told_more};
ghost use Rattle.std.specs.Io.KnownBytes.{Appends};
ghost use Rattle.notice_desk.specs.Standings.{AreWithinRecalls, At, fault_counts, new_standing, standing_of, standings, texts};
ghost use Rattle.notice_desk.specs.Lines.{AppendsFront, EachWrote, WroteUntil, WroteUntilAt, lines_for, recall_line, recall_lines};
ghost use Rattle.notice_desk.specs.Deliveries.{Delivered, RoseAt, Stopped, StoppedAt, through};

use crate::notice::{Notice, Recall, Whom};
use office_io::Failed;
use std::alloc::Global;
use thiserror::Error;

/// The object of the subscriber at this place failed, and its count of faults rose.
#[derive(Clone, Copy, Debug, Drop, PartialEq, Eq, Error)]
#[error("the notice object of subscriber {at} failed")]
pub struct NoticeFault {
    pub at: usize,
}

/// The object of a subscriber for whom there was no memory.
#[derive(Drop)]
pub struct Returned {
    pub notice: Box<dyn Notice>,
}

// Whose recalls an object is told, and how many recalls of the list it is through with.
#[derive(Drop)]
struct Subscriber {
    whom: Whom,
    notice: Box<dyn Notice>,
    passed: usize,
}

/// Those who are told of recalls, in the order in which they were added.
#[derive(Drop)]
pub struct Subscribers {
    list: Vec<Subscriber>,
}

impl Subscribers {
    /// No subscribers. Takes no memory; later calls take theirs from the allocator.
    pub fn new(alloc: Global) -> Subscribers
        ensures nobody { standings list result ≡ [] }
        ensures counts { fault_counts faults result ≡ [] }
        ensures texts { texts text result ≡ [] }
    {
        Subscribers {
            list: Vec::new(alloc),
        }
    }

    /// How many there are.
    pub fn len(&self) -> usize
        ensures { result ≡ length (standings list self.now) }
    {
        self.list.len()
    }

    /// Adds a subscriber, last, who is through with nothing. For want of memory its object is handed back, and all is as it
    /// was.
    pub fn add(&mut self, whom: Whom, notice: Box<dyn Notice>) -> Result<(), Returned>
        ensures added { OnOk result
            (standings list self.new ≡ standings list self.old ++ new_standing whom (list notice) ∷ []) }
        ensures count { OnOk result
            (fault_counts faults self.new ≡ fault_counts faults self.old ++ faults notice ∷ []) }
        ensures text { OnOk result (texts text self.new ≡ texts text self.old ++ text notice ∷ []) }
        ensures returned { IfErr result (λ returned. returned.notice ≡ notice) }
        ensures same { OnErr result (standings list self.new ≡ standings list self.old) }
        ensures counts { OnErr result (fault_counts faults self.new ≡ fault_counts faults self.old) }
        ensures texts { OnErr result (texts text self.new ≡ texts text self.old) }
    {
        let subscriber = Subscriber {
            whom,
            notice,
            passed: 0,
        };
        match self.list.push(subscriber) {
            Ok(()) => Ok(()),
            Err(refused) => {
                let Subscriber {
                    whom: _,
                    notice,
                    passed: _,
                } = refused.value;
                Err(Returned { notice })
            }
        }
    }

    /// How many recalls of the list the subscriber is through with.
    pub fn passed(&self, at: usize) -> usize
        requires { at < length (standings list self.now) }
        ensures { At (standings list self.now) at (λ s. result ≡ s.passed) }
    {
        self.list[at].passed
    }

    /// The list that the subscriber's object was told, or `None` exactly where it tells none. Takes no memory.
    pub fn told(&self, at: usize) -> Option<&[Recall]>
        requires { at < length (standings list self.now) }
        ensures { At (standings list self.now) at (λ s. option_map (λ recalls. recalls.now) result ≡ s.told) }
    {
        told_by(&self.list[at].notice)
    }

    /// Tells each subscriber in turn the recalls of the list that are its own, in order, from the first that it is not through
    /// with. A fault stops the delivery; a later one goes on there. Takes no memory.
    ///
    /// After `Ok` each was told just these, once each, and is through with the list, and no count of faults changed. After a
    /// fault the count of the object at the place named rose, and no other. Those before it are through with the list, and
    /// those after it are as they were. The one there is through with what came before a recall of its own.
    ///
    /// Where an object tells what it wrote, this grew by the lines of just the recalls that it was told, in order. Of the
    /// object that failed it grew by a front of the next line too.
    pub fn deliver(&mut self, recalls: &[Recall]) -> Result<(), NoticeFault>
        requires { AreWithinRecalls recalls.now (standings list self.old) }
        ensures done { OnOk result (Delivered (standings list self.old) recalls.now
            (standings list self.new)) }
        ensures stands { OnOk result (fault_counts faults self.new ≡ fault_counts faults self.old) }
        ensures stopped { IfErr result
            (λ e. StoppedAt e.at (standings list self.old) recalls.now (standings list self.new)) }
        ensures fault { IfErr result
            (λ e. RoseAt e.at (fault_counts faults self.old) (fault_counts faults self.new)) }
        ensures wrote { OnOk result
            (EachWrote (standings list self.old) recalls.now (texts text self.old) (texts text self.new)) }
        ensures part { IfErr result
            (λ e. WroteUntilAt e.at (standings list self.old) recalls.now (standings list self.new)
            (texts text self.old) (texts text self.new)) }
    {
        for at in 0..self.list.len() {
            if let Err(Failed) = serve(&mut self.list[at], recalls) {
                return Err(NoticeFault { at });
            }
        }
        Ok(())
    }

    /// Drops the subscriber at this place, and its object. Those after it move one place down. Takes no memory.
    pub fn unsubscribe(&mut self, at: usize)
        requires { at < length (standings list self.old) }
        ensures gone { standings list self.new ≡ remove (standings list self.old) at }
        ensures counts { fault_counts faults self.new ≡ remove (fault_counts faults self.old) at }
        ensures texts { texts text self.new ≡ remove (texts text self.old) at }
    {
        drop(self.list.remove(at));
    }

    /// Drops every object.
    pub fn close(self) {
        drop(self);
    }
}

// The list that an object was told, where it tells it.
fn told_by(notice: &Box<dyn Notice>) -> Option<&[Recall]>
    ensures { option_map (λ recalls. recalls.now) result ≡ list notice.now }
{
    notice.told()
}

// Tells a subscriber what is its own from its old place on, and stops at the first recall at which its object fails.
fn serve(subscriber: &mut Subscriber, recalls: &[Recall]) -> Result<(), Failed>
    requires { subscriber.old.passed ≤ length recalls.now }
    ensures through { OnOk result
        (standing_of list subscriber.new ≡ through recalls.now (standing_of list subscriber.old)) }
    ensures stopped { OnErr result
        (Stopped recalls.now (standing_of list subscriber.old) (standing_of list subscriber.new)) }
    ensures cause { HasCause (faults subscriber.old.notice) (faults subscriber.new.notice) result }
    ensures wrote { OnOk result (Appends (text subscriber.old.notice) (text subscriber.new.notice)
        (lines_for recalls.now (standing_of list subscriber.old))) }
    ensures part { OnErr result (WroteUntil recalls.now (standing_of list subscriber.old)
        (standing_of list subscriber.new)
        (text subscriber.old.notice) (text subscriber.new.notice)) }
{
    let rest = &recalls[subscriber.passed..];
    for recall in rest {
        tell_own(&mut subscriber.notice, &subscriber.whom, recall)?;
        subscriber.passed += 1;
    }
    Ok(())
}

// Tells an object a recall, if it is one of its own.
fn tell_own(notice: &mut Box<dyn Notice>, whom: &Whom, recall: &Recall) -> Result<(), Failed>
    ensures told { OnOk result
        (list notice.new ≡ told_more (list notice.old) (recalls_for whom.now (recall.now ∷ []))) }
    ensures same { OnErr result (list notice.new ≡ list notice.old) }
    ensures own { OnErr result (is_for whom.now recall.now ≡ true) }
    ensures cause { HasCause (faults notice.old) (faults notice.new) result }
    ensures wrote { OnOk result
        (Appends (text notice.old) (text notice.new) (recall_lines (recalls_for whom.now (recall.now ∷ [])))) }
    ensures part { OnErr result (AppendsFront (text notice.old) (text notice.new) (recall_line recall.now)) }
{
    if !whom.is_for(recall) {
        return Ok(());
    }
    notice.tell(recall)
}
