//! Commands with their replies, as a report keeps them.
ghost use Rattle.std.specs.Prelude.{◌≡◌, ◌↔◌, IfOk, IfSome, IsTrue};
ghost use Rattle.tx_model.specs.declared.command.Command.TheVariants as commands;
ghost use Rattle.tx_model.specs.declared.reply.Reply.TheVariants as replies;
ghost use Rattle.tx_model.specs.Brief.{command_of};
ghost use Rattle.tx_model.specs.Exchanged.{command_said, reply_said, Says};

use crate::brief::{Brief, Word};
use crate::command::Command;
use crate::given_ids::GivenIds;
use crate::kept_command::{CommandLook, KeptCommand, is_abort, is_commit};
use crate::kept_reply::{KeptReply, ReplyLook};
use crate::reply::Reply;
use crate::short_name::ShortName;
use std::alloc::Global;
use tx_events::{FullMulti, FullXid, Memory, MultiId, Refusal, SharedSnap, Xid};

/// A command and what it was answered.
#[derive(Drop)]
pub(crate) struct Said {
    command: Command,
    reply: Reply,
}

/// A command with its reply, in 24 bytes.
#[derive(Drop)]
pub(crate) enum Exchange {
    /// A command of one word.
    Word {
        word: Word,
        reply: KeptReply,
    },
    /// The first write in a savepoint, mostly.
    WroteTwo {
        warn: bool,
        ids: [FullXid; 2],
    },
    /// A command with a reply of one word.
    Brief {
        reply: Brief,
        command: KeptCommand,
    },
    /// A snapshot was taken where nothing ran, and this is its xmin and its xmax.
    SnappedIdle {
        name: ShortName,
        limit: FullXid,
    },
    /// Any other answer to a snapshot's taking.
    Snapped {
        name: ShortName,
        reply: Box<Reply>,
    },
    /// A snapshot wasn't asked for an id.
    NotSeen {
        name: ShortName,
        x: Xid,
        refusal: Box<Refusal>,
    },
    /// What a snapshot says of a multixact.
    SawMulti {
        name: ShortName,
        multi: MultiId,
        reply: Box<Reply>,
    },
    /// A multixact was made.
    Multi {
        warn: bool,
        offset: u32,
        multi: FullMulti,
        command: Box<Command>,
    },
    /// Any other.
    Other {
        said: Box<Said>,
    },
}

const _: () = prove!(size_of::<Exchange>() == 24);

/// A write that was given two ids.
fn wrote_two(word: Word, reply: &Reply) -> Option<Exchange>
    ensures { IfSome result (λ e. Says e (command_of word) reply.now) }
{
    let Word::Write = word else {
        return None;
    };
    let Reply::Wrote { warn, ids } = reply else {
        return None;
    };
    match ids.items() {
        [first, second] => Some(Exchange::WroteTwo {
            warn: *warn,
            ids: [*first, *second],
        }),
        _ => None,
    }
}

fn of_word(alloc: Global, word: Word, reply: Reply) -> Result<Exchange, Memory>
    ensures { IfOk result (λ e. Says e (command_of word) reply) }
{
    match wrote_two(word, &reply) {
        Some(exchange) => Ok(exchange),
        None => Ok(Exchange::Word {
            word,
            reply: KeptReply::of(alloc, reply)?,
        }),
    }
}

fn snapped(alloc: Global, name: ShortName, reply: Reply) -> Result<Exchange, Memory>
    ensures { IfOk result (λ e. Says e (commands.Snap name) reply) }
{
    if let Reply::Snapped { lists } = &reply {
        if lists.is_idle() && lists.xmin() == lists.xmax() {
            return Ok(Exchange::SnappedIdle {
                name,
                limit: lists.xmax(),
            });
        }
    }
    Ok(Exchange::Snapped {
        name,
        reply: Box::new(alloc, reply)?,
    })
}

fn multi_given(reply: &Reply) -> Option<(bool, u32, FullMulti)>
    ensures { IfSome result (λ t. reply.now ≡ replies.Multi t.2 t.1 t.0) }
{
    let Reply::Multi {
        multi,
        offset,
        warn,
    } = reply
    else {
        return None;
    };
    match u32::try_from(*offset) {
        Ok(offset) => Some((*warn, offset, *multi)),
        Err(_e) => None,
    }
}

fn of_many(alloc: Global, command: Command, reply: Reply) -> Result<Exchange, Memory>
    ensures { IfOk result (λ e. Says e command reply) }
{
    match &command {
        Command::Snap { name } => {
            if let Some(name) = ShortName::of(name) {
                return snapped(alloc, name, reply);
            }
        }
        Command::See { name, x } => {
            if let (Some(name), Reply::Refused { refusal }) = (ShortName::of(name), &reply) {
                return Ok(Exchange::NotSeen {
                    name,
                    x: *x,
                    refusal: Box::new(alloc, *refusal)?,
                });
            }
        }
        Command::SeeMulti { name, multi } => {
            if let Some(name) = ShortName::of(name) {
                return Ok(Exchange::SawMulti {
                    name,
                    multi: *multi,
                    reply: Box::new(alloc, reply)?,
                });
            }
        }
        Command::Multi { .. } => {
            if let Some((warn, offset, multi)) = multi_given(&reply) {
                return Ok(Exchange::Multi {
                    warn,
                    offset,
                    multi,
                    command: Box::new(alloc, command)?,
                });
            }
        }
        _ => {}
    }
    Ok(Exchange::Other {
        said: Box::new(alloc, Said { command, reply })?,
    })
}

impl Exchange {
    /// This command with this reply. Takes memory where they have no room in place.
    pub(crate) fn of(alloc: Global, command: Command, reply: Reply) -> Result<Exchange, Memory>
        ensures { IfOk result (λ e. Says e command reply) }
    {
        if let Some(word) = Word::of(&command) {
            return of_word(alloc, word, reply);
        }
        match Brief::of(&reply) {
            Some(reply) => Ok(Exchange::Brief {
                reply,
                command: KeptCommand::of(alloc, command)?,
            }),
            None => of_many(alloc, command, reply),
        }
    }

    /// Whether the command commits.
    pub(crate) fn is_commit(&self) -> bool
        ensures { IsTrue result ↔ (command_said self.now ≡ commands.Commit) }
    {
        match self {
            Exchange::Word { word, .. } => word.is_commit(),
            Exchange::Brief { command, .. } => command.is_commit(),
            Exchange::Multi { command, .. } => is_commit(command),
            Exchange::Other { said } => is_commit(&said.command),
            _ => false,
        }
    }

    /// Whether it aborts.
    pub(crate) fn is_abort(&self) -> bool
        ensures { IsTrue result ↔ (command_said self.now ≡ commands.Abort) }
    {
        match self {
            Exchange::Word { word, .. } => word.is_abort(),
            Exchange::Brief { command, .. } => command.is_abort(),
            Exchange::Multi { command, .. } => is_abort(command),
            Exchange::Other { said } => is_abort(&said.command),
            _ => false,
        }
    }

    /// The command, to be looked at.
    pub(crate) fn command(&self) -> CommandLook<'_>
        ensures { result ≡ command_said self.now }
    {
        let command = match self {
            Exchange::Word { word, .. } => word.command(),
            Exchange::WroteTwo { .. } => Command::Write,
            Exchange::Brief { command, .. } => return command.look(),
            Exchange::SnappedIdle { name, .. } => Command::Snap { name: name.name() },
            Exchange::Snapped { name, .. } => Command::Snap { name: name.name() },
            Exchange::NotSeen { name, x, .. } => Command::See {
                name: name.name(),
                x: *x,
            },
            Exchange::SawMulti { name, multi, .. } => Command::SeeMulti {
                name: name.name(),
                multi: *multi,
            },
            Exchange::Multi { command, .. } => return CommandLook::lent(command),
            Exchange::Other { said } => return CommandLook::lent(&said.command),
        };
        CommandLook::made(command)
    }

    /// The reply, to be looked at.
    pub(crate) fn reply(&self) -> ReplyLook<'_>
        ensures { result ≡ reply_said self.now }
    {
        let reply = match self {
            Exchange::Word { reply, .. } => return reply.look(),
            Exchange::WroteTwo { warn, ids } => Reply::Wrote {
                warn: *warn,
                ids: GivenIds::two(*ids),
            },
            Exchange::Brief { reply, .. } => reply.reply(),
            Exchange::SnappedIdle { limit, .. } => Reply::Snapped {
                lists: SharedSnap::idle(*limit, *limit),
            },
            Exchange::Snapped { reply, .. } => return ReplyLook::lent(reply),
            Exchange::NotSeen { refusal, .. } => Reply::Refused { refusal: **refusal },
            Exchange::SawMulti { reply, .. } => return ReplyLook::lent(reply),
            Exchange::Multi {
                warn,
                offset,
                multi,
                ..
            } => Reply::Multi {
                multi: *multi,
                offset: u64::from(*offset),
                warn: *warn,
            },
            Exchange::Other { said } => return ReplyLook::lent(&said.reply),
        };
        ReplyLook::made(reply)
    }
}
