// A reply in two copies.

ghost use Rattle.std.specs.Prelude.{◌≡◌, true, false, IfOk, OnErr};
ghost use Rattle.office_core.specs.Replies.{has_list, numbers_in_reply};

use names::NoMemory;
use office_words::Reply;
use std::marker::Model;

/// A reply in two copies, one for the history and one for the caller. A reply may hold a list, and its copy must not fail
/// once what the office keeps has changed: so both are made together, before anything changes.
///
/// Contracts see the reply.
#[derive(Drop)]
pub(crate) struct Answer {
    kept: Reply,
    told: Reply,
}

impl Model for Answer {
    ghost use Rattle.std.specs.Prelude.{◌≡◌};
    ghost use Rattle.office_words.specs.declared.entry.Reply.{Reply};

    ghost Value = { Reply };

    ghost view = { λ a. a.kept };

    ghost invariant = { λ a. a.told ≡ a.kept };
}

impl Answer {
    /// This reply, twice. Only a list takes memory.
    pub(crate) fn new(reply: Reply) -> Result<Answer, NoMemory>
        ensures reply { IfOk result (λ answer. answer ≡ reply) }
        ensures lack { OnErr result (has_list reply ≡ true) }
    {
        let told = reply.clone()?;
        Ok(Answer { kept: reply, told })
    }

    /// This reply without a list, twice. Takes no memory.
    pub(crate) fn plain(reply: Reply) -> Answer
        requires { has_list reply ≡ false }
        ensures { result ≡ reply }
    {
        match Answer::new(reply) {
            Ok(answer) => answer,
            Err(NoMemory) => unreachable!(),
        }
    }

    /// The numbers that it lists, the segments of its routes one route after another: none where it holds no list.
    pub(crate) fn numbers(&self) -> &[u32]
        ensures { result.now ≡ numbers_in_reply self.now }
    {
        match &self.kept {
            Reply::Issued { routes, .. } => routes.all(),
            Reply::Posted { recalled, .. } => recalled.as_slice(),
            _ => &[],
        }
    }

    /// The reply for the history, and the one for the caller.
    pub(crate) fn into_replies(self) -> (Reply, Reply)
        ensures kept { result.0 ≡ self }
        ensures told { result.1 ≡ self }
    {
        (self.kept, self.told)
    }
}
