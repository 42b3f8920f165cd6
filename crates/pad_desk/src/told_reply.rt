//! A reply that was told.
ghost use Rattle.std.specs.Prelude.{◌≡◌};
ghost use Rattle.pad_desk.specs.Replies.{TellsReply, reply_in};

use crate::outcome::StepOuts;
use pad_steps::{Out, Reply, Told};
use std::marker::Model;

/// The reply of a request that ended.
#[derive(Drop)]
pub struct ToldReply {
    outs: StepOuts,
}

impl Model for ToldReply {
    ghost use Rattle.pad_desk.specs.Replies.{TellsReply, reply_in};
    ghost use Rattle.pad_steps.specs.declared.answers.Reply.{Reply};

    ghost Value = { Reply };

    ghost view = { λ r. reply_in r.outs.items };

    ghost invariant = { λ r. TellsReply r.outs.items };
}

impl ToldReply {
    /// The reply that is told here.
    pub(crate) fn of(outs: StepOuts) -> ToldReply
        requires { TellsReply outs.items }
        ensures { result ≡ reply_in outs.items }
    {
        ToldReply { outs }
    }

    /// The reply.
    pub fn reply(&self) -> &Reply
        ensures { result.now ≡ self.now }
    {
        match self.outs.items().first() {
            Some(Out::Told(_, Told::Reply(_, reply))) => reply,
            _ => unreachable!(),
        }
    }
}
