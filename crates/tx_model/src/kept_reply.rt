//! Replies as a report keeps them.
ghost use Rattle.std.specs.Prelude.{◌≡◌, IfOk, IfSome};
ghost use Rattle.tx_model.specs.declared.reply.Reply.TheVariants as replies;
ghost use Rattle.tx_model.specs.Kept.{reply_in};

use crate::brief::WordRefusal;
use crate::given_ids::GivenIds;
use crate::reply::Reply;
use std::alloc::Global;
use std::marker::Model;
use tx_events::{Copied, FullXid, Memory, Refusal};

/// The reply to a command of one word, in 16 bytes.
#[derive(Drop)]
pub(crate) enum KeptReply {
    Done,
    /// No id was given.
    WroteNothing { warn: bool },
    /// One id was given.
    Wrote { warn: bool, id: FullXid },
    Horizon { oldest_xmin: FullXid },
    /// A refusal of one word.
    Refused { refusal: WordRefusal },
    /// Any other one.
    RefusedLong { refusal: Box<Refusal> },
    /// Any other.
    Long { reply: Box<Reply> },
}

const _: () = prove!(size_of::<KeptReply>() == 16);

#[derive(Drop)]
enum Looked<'a> {
    Made { reply: Reply },
    Lent { reply: &'a Reply },
}

/// A reply that is looked at. A contract sees the `Reply`.
#[derive(Drop)]
pub struct ReplyLook<'a> {
    looked: Looked<'a>,
}

impl<'a> Model for ReplyLook<'a> {
    ghost use Rattle.tx_model.specs.declared.reply.Reply.{Reply};
    ghost use Rattle.tx_model.specs.Looks.{reply_seen};

    ghost Value = { Reply };

    ghost view = { λ l. reply_seen l.looked };
}

impl<'a> ReplyLook<'a> {
    /// A reply made for this look.
    pub(crate) fn made(reply: Reply) -> ReplyLook<'a>
        ensures { result ≡ reply }
    {
        ReplyLook {
            looked: Looked::Made { reply },
        }
    }

    /// A reply that is kept.
    pub(crate) fn lent(reply: &'a Reply) -> ReplyLook<'a>
        ensures { result ≡ reply.now }
    {
        ReplyLook {
            looked: Looked::Lent { reply },
        }
    }

    /// The reply.
    pub fn reply(&self) -> &Reply
        ensures { result.now ≡ self.now }
    {
        match &self.looked {
            Looked::Made { reply } => reply,
            Looked::Lent { reply } => reply,
        }
    }

    /// The reply, copied where it is lent.
    pub fn owned(self) -> Result<Reply, Memory>
        ensures { IfOk result (λ r. r ≡ self.entry) }
    {
        match self.looked {
            Looked::Made { reply } => Ok(reply),
            Looked::Lent { reply } => reply.copy(),
        }
    }
}

fn short_wrote(warn: bool, ids: &GivenIds) -> Option<KeptReply>
    ensures { IfSome result (λ r. reply_in r ≡ replies.Wrote warn ids.now) }
{
    match ids.items() {
        [] => Some(KeptReply::WroteNothing { warn }),
        [id] => Some(KeptReply::Wrote { warn, id: *id }),
        _ => None,
    }
}

/// The reply in place, if it has room.
fn short(reply: &Reply) -> Option<KeptReply>
    ensures { IfSome result (λ r. reply_in r ≡ reply.now) }
{
    match reply {
        Reply::Done => Some(KeptReply::Done),
        Reply::Wrote { warn, ids } => short_wrote(*warn, ids),
        Reply::Horizon { oldest_xmin } => Some(KeptReply::Horizon {
            oldest_xmin: *oldest_xmin,
        }),
        Reply::Refused { refusal } => match WordRefusal::of(*refusal) {
            Some(refusal) => Some(KeptReply::Refused { refusal }),
            None => None,
        },
        _ => None,
    }
}

/// The reply in a block.
fn long(alloc: Global, reply: Reply) -> Result<KeptReply, Memory>
    ensures { IfOk result (λ r. reply_in r ≡ reply) }
{
    if let Reply::Refused { refusal } = &reply {
        return Ok(KeptReply::RefusedLong {
            refusal: Box::new(alloc, *refusal)?,
        });
    }
    Ok(KeptReply::Long {
        reply: Box::new(alloc, reply)?,
    })
}

impl KeptReply {
    /// This reply. Takes memory where it has no room in place.
    pub(crate) fn of(alloc: Global, reply: Reply) -> Result<KeptReply, Memory>
        ensures { IfOk result (λ r. reply_in r ≡ reply) }
    {
        match short(&reply) {
            Some(kept) => Ok(kept),
            None => long(alloc, reply),
        }
    }

    /// The reply, to be looked at.
    pub(crate) fn look(&self) -> ReplyLook<'_>
        ensures { result ≡ reply_in self.now }
    {
        let reply = match self {
            KeptReply::Done => Reply::Done,
            KeptReply::WroteNothing { warn } => Reply::Wrote {
                warn: *warn,
                ids: GivenIds::none(),
            },
            KeptReply::Wrote { warn, id } => Reply::Wrote {
                warn: *warn,
                ids: GivenIds::one(*id),
            },
            KeptReply::Horizon { oldest_xmin } => Reply::Horizon {
                oldest_xmin: *oldest_xmin,
            },
            KeptReply::Refused { refusal } => Reply::Refused {
                refusal: refusal.refusal(),
            },
            KeptReply::RefusedLong { refusal } => Reply::Refused { refusal: **refusal },
            KeptReply::Long { reply } => return ReplyLook::lent(reply),
        };
        ReplyLook::made(reply)
    }
}
