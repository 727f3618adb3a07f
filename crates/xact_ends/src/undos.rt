//! The call that rolls a savepoint back.
ghost use Rattle.std.specs.Prelude.{◌≡◌, ◌⊎◌, ℕ, ◌+◌, ◌*◌, ◌≤◌, Some, length};
ghost use Rattle.hall.specs.Calls.{view, IsOf, start_of};
ghost use Rattle.tx_model.specs.declared.command.Command.TheVariants as commands;
ghost use Rattle.tx_model.specs.declared.reply.Reply.TheVariants as replies;
ghost use Rattle.session_levels.specs.Stands.{last_of};
ghost use Rattle.engine_parts.specs.declared.session.Stage.TheVariants as stages;
ghost use Rattle.engine_parts.specs.Answers.{reply_of};
ghost use Rattle.engine_parts.specs.Calls.{MayRun, Ran, next_command};
ghost use Rattle.engine_parts.specs.Sessions.{MayCall, stance_of};
ghost use Rattle.xact_ends.specs.Undos.{IsUnwound};

use crate::undoing::undo_named;
use disk_core::{LogDisk, PageDisk};
use engine_parts::{Caller, EngineLaw, Passing, Stage, count};
use hall::Hall;
use session_levels::depth;
use tx_events::{FullXid, Refusal};

/// Closes the innermost savepoint, which has no id: the session alone, under no lock.
fn close_unnamed<L: LogDisk, P: PageDisk>(caller: &mut Caller<L, P>)
    requires { 1 ≤ caller.old.session.levels.unnamed }
    ensures { IsUnwound caller.old caller.new }
{
    caller.session.levels.unnamed -= 1;
}

fn last_id(ids: &[FullXid]) -> FullXid
    requires { 1 ≤ length ids.now }
    ensures { last_of ids.now ≡ Some result }
{
    ids[ids.len() - 1]
}

/// Undoes the innermost savepoint where no other end was begun.
fn undo_open<R: Passing, L: LogDisk, P: PageDisk>(
    rt: &R,
    hall: &Hall<EngineLaw<L, P>>,
    caller: &mut Caller<L, P>,
    banks: u32,
) -> Result<(), Refusal>
    requires own { IsOf hall.now caller.old.pass }
    requires laid { hall.now.cells ≡ 3 + 4 * (start_of hall.now).banks }
    requires banks { (banks ≡ (start_of hall.now).banks) × (1 ≤ banks) × (banks ≤ 16) }
    requires may { MayCall (start_of hall.now) (view caller.old.pass) caller.old.number caller.old.session }
    requires stage { (caller.old.session.stage ≡ stages.Clear) ⊎ (caller.old.session.stage ≡ stages.Undoing) }
    requires levels { 2 ≤ length (stance_of caller.old.session).levels }
    ensures { Ran hall.now caller.old.session.levels.commands commands.Undo (reply_of (λ _. replies.Done) result)
        caller.old caller.new }
{
    if caller.session.levels.unnamed > 0 {
        close_unnamed(caller);
        return Ok(());
    }
    let id = last_id(&caller.session.levels.level_ids);
    undo_named(rt, hall, caller, banks, id)
}

/// Rolls the innermost savepoint back and closes it (`RollbackToSavepoint` and `AbortSubTransaction` of
/// `src/backend/access/transam/xact.c`): the states of all ids that were given in it are set aborted, page by page, and
/// then it counts as undone. An undo that a fault stopped sets all states anew. A savepoint without an id is closed at
/// once. No abort record is appended.
///
/// Refused, in this order, with `NoSavepoint` where no savepoint is open, with `CommitPending` or `AbortPending` where
/// another end was begun, and with `DiskFault` of pg_xact. The session has run fewer than 2^48 commands.
pub fn undo<R: Passing, L: LogDisk, P: PageDisk>(
    rt: &R,
    hall: &Hall<EngineLaw<L, P>>,
    caller: &mut Caller<L, P>,
    banks: u32,
) -> Result<(), Refusal>
    requires { MayRun hall.now banks caller.old }
    ensures { Ran hall.now (next_command caller.old) commands.Undo (reply_of (λ _. replies.Done) result)
        caller.old caller.new }
{
    count(caller);
    if depth(&caller.session.levels) < 2 {
        return Err(Refusal::NoSavepoint);
    }
    match caller.session.stage {
        Stage::Clear => undo_open(rt, hall, caller, banks),
        Stage::Logged { .. } => Err(Refusal::CommitPending),
        Stage::Settling { .. } => Err(Refusal::CommitPending),
        Stage::Aborting => Err(Refusal::AbortPending),
        Stage::Undoing => undo_open(rt, hall, caller, banks),
    }
}
