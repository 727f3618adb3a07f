//! Transactions and savepoints begin: the session alone, under no lock.
ghost use Rattle.std.specs.Prelude.{◌≡◌};
ghost use Rattle.hall.specs.Calls.{start_of};
ghost use Rattle.tx_model.specs.declared.command.Command.TheVariants as commands;
ghost use Rattle.tx_model.specs.declared.reply.Reply.TheVariants as replies;
ghost use Rattle.engine_parts.specs.Answers.{reply_of};
ghost use Rattle.engine_parts.specs.Calls.{MayRun, Ran, next_command};
ghost use Rattle.xact_engine.specs.Levels.{IsDoneOrNot};

use disk_core::{LogDisk, PageDisk};
use engine_parts::{Caller, EngineLaw, count};
use hall::Hall;
use tx_events::Refusal;
use tx_model::Reply;

/// The result that a reply tells of a command that is done or refused.
pub(crate) fn result_of(reply: Reply) -> Result<(), Refusal>
    requires { IsDoneOrNot reply }
    ensures { reply_of (λ _. replies.Done) result ≡ reply }
{
    match reply {
        Reply::Done => Ok(()),
        Reply::Refused { refusal } => Err(refusal),
        _ => unreachable!(),
    }
}

/// Begins a transaction, which has no id yet (`StartTransaction` of `src/backend/access/transam/xact.c`): the session
/// alone, under no lock. Takes no memory.
///
/// Refused with `AlreadyOpen` where the session has one. The session has run fewer than 2^48 commands.
pub fn begin<L: LogDisk, P: PageDisk>(
    _hall: &Hall<EngineLaw<L, P>>,
    caller: &mut Caller<L, P>,
) -> Result<(), Refusal>
    requires { MayRun _hall.now (start_of _hall.now).banks caller.old }
    ensures { Ran _hall.now (next_command caller.old) commands.Begin (reply_of (λ _. replies.Done) result)
        caller.old caller.new }
{
    count(caller);
    let reply = session_levels::begin(&mut caller.session.levels);
    result_of(reply)
}
