//! Each level of a transaction gets its id.
ghost use Rattle.std.specs.Prelude.{◌≡◌, ◌≤◌, None, IfErr, OnOk, length};
ghost use Rattle.hall.specs.Calls.{view};
ghost use Rattle.tx_model.specs.declared.command.Command.TheVariants as commands;
ghost use Rattle.session_levels.specs.Stands.{levels_of};
ghost use Rattle.engine_parts.specs.declared.session.Stage.TheVariants as stages;
ghost use Rattle.engine_parts.specs.Answers.{reply_of};
ghost use Rattle.engine_parts.specs.Calls.{MayRun, MayStep, Ran, next_command};
ghost use Rattle.xact_writes.specs.Writes.{IsFiledBehind, IsFresh, reply_to};

use crate::levels::name_level;
use bank_sections::record_parent;
use disk_core::{LogDisk, PageDisk};
use engine_parts::{Caller, EngineLaw, Passing, count};
use hall::Hall;
use session_levels::depth;
use std::alloc::Global;
use tx_events::{IdList, Refusal};

/// What a write gave.
#[derive(Drop)]
pub struct Wrote {
    /// The ids given by it, from the outermost level that lacked one on.
    pub ids: IdList,
    /// Whether one of them is at or past the limit for a warning.
    pub warn: bool,
}

/// Gives an id to each level that lacks one, from the transaction down, behind the parent that is still to be recorded.
/// The reply's room is taken first.
fn name_levels<R: Passing, L: LogDisk, P: PageDisk>(
    rt: &R,
    hall: &Hall<EngineLaw<L, P>>,
    caller: &mut Caller<L, P>,
    banks: u32,
    alloc: Global,
) -> Result<Wrote, Refusal>
    requires step { MayStep hall.now banks caller.old }
    requires clear { caller.old.session.stage ≡ stages.Clear }
    requires fresh { IsFresh (view caller.old.pass).seen caller.old.number caller.old.session.levels.commands }
    requires some { 1 ≤ length
        (levels_of caller.old.session.levels.level_ids.items caller.old.session.levels.unnamed) }
    ensures ran { Ran hall.now caller.old.session.levels.commands commands.Write (reply_of reply_to result)
        caller.old caller.new }
    ensures linked { OnOk result (caller.new.session.unlinked ≡ None) }
    ensures filed { IfErr result (IsFiledBehind caller.old.session.unlinked caller.new.session.unlinked) }
{
    let Ok(mut ids) = Vec::with_capacity(alloc, caller.session.levels.unnamed) else {
        return Err(Refusal::Memory);
    };
    match record_parent(rt, hall, caller, banks) {
        Ok(()) => {}
        Err(refusal) => return Err(refusal),
    }
    let mut warn = false;
    while caller.session.levels.unnamed > 0 {
        let given = match name_level(rt, hall, caller, banks) {
            Ok(given) => given,
            Err(refusal) => return Err(refusal),
        };
        ids.push_reserved(given.0);
        warn |= given.1;
        match record_parent(rt, hall, caller, banks) {
            Ok(()) => {}
            Err(refusal) => return Err(refusal),
        }
    }
    Ok(Wrote {
        ids: IdList::of(ids),
        warn,
    })
}

/// Gives an id to each level that lacks one, from the transaction down (`AssignTransactionId` of
/// `src/backend/access/transam/xact.c`, which gives a parent its id before its child). A parent that an earlier command
/// couldn't record is recorded first, and behind a write that is done all parents are. `banks` is the number of banks
/// of each store, 1 to 16; the reply's list is of `alloc`.
///
/// Refused, in this order, with `NoTransaction` where no transaction is open, and with `CommitPending`, `AbortPending`
/// or `UndoPending` where an end was begun. Or with `DiskFault` of a bank of pg_xact or pg_subtrans, with `Stop` at the
/// stop limit, or with `Memory`: then the ids that were given stay. The session has run fewer than 2^48 commands.
pub fn write<R: Passing, L: LogDisk, P: PageDisk>(
    rt: &R,
    hall: &Hall<EngineLaw<L, P>>,
    caller: &mut Caller<L, P>,
    banks: u32,
    alloc: Global,
) -> Result<Wrote, Refusal>
    requires { MayRun hall.now banks caller.old }
    ensures ran { Ran hall.now (next_command caller.old) commands.Write (reply_of reply_to result)
        caller.old caller.new }
    ensures linked { OnOk result (caller.new.session.unlinked ≡ None) }
    ensures filed { IfErr result (IsFiledBehind caller.old.session.unlinked caller.new.session.unlinked) }
{
    count(caller);
    if depth(&caller.session.levels) == 0 {
        return Err(Refusal::NoTransaction);
    }
    if let Some(refusal) = caller.session.stage.pending() {
        return Err(refusal);
    }
    name_levels(rt, hall, caller, banks, alloc)
}
