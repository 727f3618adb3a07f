//! The call that commits.
ghost use Rattle.std.specs.Prelude.{◌≡◌, ◌≤◌, IfErr, length};
ghost use Rattle.hall.specs.Calls.{view, start_of};
ghost use Rattle.tx_model.specs.declared.command.Command.TheVariants as commands;
ghost use Rattle.tx_model.specs.declared.reply.Reply.TheVariants as replies;
ghost use Rattle.engine_parts.specs.declared.session.Stage.TheVariants as stages;
ghost use Rattle.engine_parts.specs.Adding.{IsCommitOf};
ghost use Rattle.engine_parts.specs.Answers.{reply_of};
ghost use Rattle.engine_parts.specs.Calls.{MayRun, MayStep, Ran, next_command};
ghost use Rattle.engine_parts.specs.Sessions.{by_at, stance_of};
ghost use Rattle.log_sections.specs.Rooms.{MetFullFor};

use crate::committing::{finish, flush_and_finish, start_commit};
use crate::idless::close_idless;
use disk_core::{LogDisk, PageDisk};
use engine_parts::{Caller, EngineLaw, Passing, Stage, count};
use hall::Hall;
use session_levels::depth;
use std::alloc::Global;
use tx_events::Refusal;

/// Commits a transaction of which no end was begun. One without an id has no record and no event.
fn commit_anew<R: Passing, L: LogDisk, P: PageDisk>(
    rt: &R,
    hall: &Hall<EngineLaw<L, P>>,
    caller: &mut Caller<L, P>,
    banks: u32,
    alloc: Global,
) -> Result<(), Refusal>
    requires step { MayStep hall.now banks caller.old }
    requires stage { caller.old.session.stage ≡ stages.Clear }
    requires levels { 1 ≤ length (stance_of caller.old.session).levels }
    ensures ran { Ran hall.now caller.old.session.levels.commands commands.Commit (reply_of (λ _. replies.Done) result)
        caller.old caller.new }
    ensures full { IfErr result (MetFullFor (start_of hall.now) (view caller.new.pass).seen
        (by_at caller.old.number caller.old.session.levels.commands)
        (IsCommitOf caller.old.session.levels.open_ids.items)) }
{
    if caller.session.levels.open_ids.is_empty() {
        close_idless(caller);
        return Ok(());
    }
    start_commit(rt, hall, caller, banks, alloc)
}

/// Commits the session's transaction (`CommitTransaction` of `src/backend/access/transam/xact.c`): the parent that is
/// missing is recorded, the commit record of all open ids is appended and put on disk, their states are set by the tree
/// rule, and then the transaction counts as ended. A commit that a fault stopped goes on behind what is done, and one
/// without an id ends at once. `banks` is the number of banks of each store, 1 to 16; the record's list is of `alloc`.
///
/// Refused, in this order, with `NoTransaction` where no transaction is open, and with `AbortPending` or `UndoPending`
/// where another end was begun. Or, before the record is appended, with `DiskFault` of a bank of pg_subtrans, `Memory`,
/// `Full` or `LogDown`; before it is on disk with `LogFault` or `LogDown`; and behind that with `DiskFault` of a bank
/// of pg_xact. Where its record stands, the commit is pending. The session has run fewer than 2^48 commands.
pub fn commit<R: Passing, L: LogDisk, P: PageDisk>(
    rt: &R,
    hall: &Hall<EngineLaw<L, P>>,
    caller: &mut Caller<L, P>,
    banks: u32,
    alloc: Global,
) -> Result<(), Refusal>
    requires { MayRun hall.now banks caller.old }
    ensures ran { Ran hall.now (next_command caller.old) commands.Commit (reply_of (λ _. replies.Done) result)
        caller.old caller.new }
    ensures full { IfErr result (MetFullFor (start_of hall.now) (view caller.new.pass).seen
        (by_at caller.old.number (next_command caller.old))
        (IsCommitOf caller.old.session.levels.open_ids.items)) }
{
    count(caller);
    if depth(&caller.session.levels) == 0 {
        return Err(Refusal::NoTransaction);
    }
    match caller.session.stage {
        Stage::Clear => commit_anew(rt, hall, caller, banks, alloc),
        Stage::Logged { number } => flush_and_finish(rt, hall, caller, banks, number),
        Stage::Settling { steps } => finish(rt, hall, caller, banks, steps),
        Stage::Aborting => Err(Refusal::AbortPending),
        Stage::Undoing => Err(Refusal::UndoPending),
    }
}
