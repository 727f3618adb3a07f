//! Savepoints are opened and released: the session alone, under no lock.
ghost use Rattle.hall.specs.Calls.{start_of};
ghost use Rattle.tx_model.specs.declared.command.Command.TheVariants as commands;
ghost use Rattle.tx_model.specs.declared.reply.Reply.TheVariants as replies;
ghost use Rattle.engine_parts.specs.Answers.{reply_of};
ghost use Rattle.engine_parts.specs.Calls.{MayRun, Ran, next_command};

use crate::levels::result_of;
use disk_core::{LogDisk, PageDisk};
use engine_parts::{Caller, EngineLaw, count};
use hall::Hall;
use session_levels::depth;
use tx_events::Refusal;

/// Opens a savepoint, which has no id yet (`DefineSavepoint` and `StartSubTransaction` of
/// `src/backend/access/transam/xact.c`): the session alone, under no lock. Takes no memory.
///
/// Refused, in this order, with `NoTransaction` where no transaction is open, with `CommitPending`, `AbortPending` or
/// `UndoPending` where an end was begun, and with `DepthLimit` where 1,000 savepoints are open. The session has run
/// fewer than 2^48 commands.
pub fn save<L: LogDisk, P: PageDisk>(
    _hall: &Hall<EngineLaw<L, P>>,
    caller: &mut Caller<L, P>,
) -> Result<(), Refusal>
    requires { MayRun _hall.now (start_of _hall.now).banks caller.old }
    ensures { Ran _hall.now (next_command caller.old) commands.Save (reply_of (λ _. replies.Done) result)
        caller.old caller.new }
{
    count(caller);
    if depth(&caller.session.levels) == 0 {
        return Err(Refusal::NoTransaction);
    }
    if let Some(refusal) = caller.session.stage.pending() {
        return Err(refusal);
    }
    let reply = session_levels::save(&mut caller.session.levels);
    result_of(reply)
}

/// Joins the innermost savepoint to its parent, which keeps what was done in it (`CommitSubTransaction` of
/// `src/backend/access/transam/xact.c`): the session alone, under no lock. Takes no memory.
///
/// Refused, in this order, with `NoSavepoint` where no savepoint is open, and with `CommitPending`, `AbortPending` or
/// `UndoPending` where an end was begun. The session has run fewer than 2^48 commands.
pub fn release<L: LogDisk, P: PageDisk>(
    _hall: &Hall<EngineLaw<L, P>>,
    caller: &mut Caller<L, P>,
) -> Result<(), Refusal>
    requires { MayRun _hall.now (start_of _hall.now).banks caller.old }
    ensures { Ran _hall.now (next_command caller.old) commands.Release (reply_of (λ _. replies.Done) result)
        caller.old caller.new }
{
    count(caller);
    if depth(&caller.session.levels) < 2 {
        return Err(Refusal::NoSavepoint);
    }
    if let Some(refusal) = caller.session.stage.pending() {
        return Err(refusal);
    }
    let reply = session_levels::release(&mut caller.session.levels);
    result_of(reply)
}
