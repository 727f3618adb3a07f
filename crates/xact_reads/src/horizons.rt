//! The oldest xmin.
ghost use Rattle.hall.specs.Calls.{start_of};
ghost use Rattle.tx_model.specs.declared.command.Command.TheVariants as commands;
ghost use Rattle.tx_model.specs.declared.reply.Reply.TheVariants as replies;
ghost use Rattle.engine_parts.specs.Calls.{MayRun, Ran, next_command};

use disk_core::{LogDisk, PageDisk};
use engine_parts::{Caller, EngineLaw, Passing, count};
use hall::Hall;
use proc_sections::read_horizons;
use tx_events::FullXid;

/// The oldest xmin (`GetOldestNonRemovableTransactionId` of `src/backend/storage/ipc/procarray.c`): the least of the
/// next snapshot's xmax, the running transactions' ids and the xmins of the live snapshots, the session's own among
/// them. No id below it is still asked for. One critical section of the ProcArray.
///
/// Never refused, and takes no memory. The session has run fewer than 2^48 commands.
pub fn horizon<R: Passing, L: LogDisk, P: PageDisk>(
    rt: &R,
    hall: &Hall<EngineLaw<L, P>>,
    caller: &mut Caller<L, P>,
) -> FullXid
    requires { MayRun hall.now (start_of hall.now).banks caller.old }
    ensures { Ran hall.now (next_command caller.old) commands.Horizon (replies.Horizon result) caller.old caller.new }
{
    count(caller);
    read_horizons(rt, hall, caller).oldest_xmin
}
