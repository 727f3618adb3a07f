//! The call that aborts.
ghost use Rattle.std.specs.Prelude.{◌≡◌, ◌≤◌, false, length};
ghost use Rattle.tx_model.specs.declared.command.Command.TheVariants as commands;
ghost use Rattle.tx_model.specs.declared.reply.Reply.TheVariants as replies;
ghost use Rattle.engine_parts.specs.Answers.{reply_of};
ghost use Rattle.engine_parts.specs.Calls.{MayRun, MayStep, Ran, next_command};
ghost use Rattle.engine_parts.specs.Sessions.{stance_of};
ghost use Rattle.engine_parts.specs.Stages.{may_be_recorded};

use crate::aborting::abort_named;
use crate::idless::close_idless;
use disk_core::{LogDisk, PageDisk};
use engine_parts::{Caller, EngineLaw, Passing, Stage, count};
use hall::Hall;
use session_levels::depth;
use std::alloc::Global;
use tx_events::Refusal;

/// Whether the commit record of what is open may stand in the log.
fn is_recorded(stage: Stage) -> bool
    ensures { result ≡ may_be_recorded stage }
{
    match stage {
        Stage::Logged { .. } | Stage::Settling { .. } => true,
        Stage::Clear | Stage::Aborting | Stage::Undoing => false,
    }
}

/// Aborts a transaction of which no commit is pending. One without an id has no event.
fn abort_open<R: Passing, L: LogDisk, P: PageDisk>(
    rt: &R,
    hall: &Hall<EngineLaw<L, P>>,
    caller: &mut Caller<L, P>,
    banks: u32,
    alloc: Global,
) -> Result<(), Refusal>
    requires step { MayStep hall.now banks caller.old }
    requires stage { may_be_recorded caller.old.session.stage ≡ false }
    requires levels { 1 ≤ length (stance_of caller.old.session).levels }
    ensures { Ran hall.now caller.old.session.levels.commands commands.Abort (reply_of (λ _. replies.Done) result)
        caller.old caller.new }
{
    if caller.session.levels.open_ids.is_empty() {
        close_idless(caller);
        return Ok(());
    }
    abort_named(rt, hall, caller, banks, alloc)
}

/// Aborts the session's transaction (`AbortTransaction` of `src/backend/access/transam/xact.c`): its record is
/// appended, unflushed, where there is memory for it and the log takes it; the states of all open ids are set aborted,
/// page by page; and then the transaction counts as ended. An abort that a fault stopped sets all states anew and
/// appends no second record, an undo that was begun ends with it, and one without an id ends at once. `banks` is the
/// number of banks of each store, 1 to 16; the record's list is of `alloc`.
///
/// Refused, in this order, with `NoTransaction` where no transaction is open, and with `CommitPending` where its commit
/// record may stand. Or with `DiskFault` of a bank of pg_xact: then the abort is pending. The session has run fewer
/// than 2^48 commands.
pub fn abort<R: Passing, L: LogDisk, P: PageDisk>(
    rt: &R,
    hall: &Hall<EngineLaw<L, P>>,
    caller: &mut Caller<L, P>,
    banks: u32,
    alloc: Global,
) -> Result<(), Refusal>
    requires { MayRun hall.now banks caller.old }
    ensures { Ran hall.now (next_command caller.old) commands.Abort (reply_of (λ _. replies.Done) result)
        caller.old caller.new }
{
    count(caller);
    if depth(&caller.session.levels) == 0 {
        return Err(Refusal::NoTransaction);
    }
    if is_recorded(caller.session.stage) {
        return Err(Refusal::CommitPending);
    }
    abort_open(rt, hall, caller, banks, alloc)
}
