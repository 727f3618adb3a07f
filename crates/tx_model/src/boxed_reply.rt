//! Replies in blocks of their own.
ghost use Rattle.std.specs.Prelude.{◌≡◌, IfOk};

use crate::reply::Reply;
use std::alloc::Global;
use std::marker::Model;
use tx_events::Memory;

/// A reply in a block of its own, as what is rarely answered has it. A contract sees the `Reply`.
#[derive(Drop)]
pub struct BoxedReply {
    reply: Box<Reply>,
}

impl Model for BoxedReply {
    ghost use Rattle.tx_model.specs.declared.reply.Reply.{Reply};

    ghost Value = { Reply };

    ghost view = { λ b. b.reply.value };
}

impl BoxedReply {
    /// This reply.
    pub fn of(alloc: Global, reply: Reply) -> Result<BoxedReply, Memory>
        ensures { IfOk result (λ b. b ≡ reply) }
    {
        Ok(BoxedReply {
            reply: Box::new(alloc, reply)?,
        })
    }

    /// The reply.
    pub fn reply(&self) -> &Reply
        ensures { result.now ≡ self.now }
    {
        &self.reply
    }
}
