//! The oldest id is announced.
ghost use Rattle.std.specs.Prelude.{IfErr, IfOk};
ghost use Rattle.hall.specs.Calls.{start_of, view};
ghost use Rattle.tx_model.specs.declared.command.Command.TheVariants as commands;
ghost use Rattle.tx_model.specs.declared.reply.Reply.TheVariants as replies;
ghost use Rattle.tx_core.specs.Entries.{history};
ghost use Rattle.tx_core.specs.PostsFollow.{WasShown};
ghost use Rattle.engine_parts.specs.Answers.{reply_of};
ghost use Rattle.engine_parts.specs.Calls.{MayRun, Ran, next_command};
ghost use Rattle.proc_sections.specs.Announcements.{IsNotAnnounced};

use disk_core::{LogDisk, PageDisk};
use engine_parts::{Caller, EngineLaw, Passing, count};
use hall::Hall;
use proc_sections::{announce_oldest, publish_oldest};
use tx_events::{FullXid, Refusal};

/// Announces the oldest id that is still asked for (`SetTransactionIdLimit` of `src/backend/access/transam/varsup.c`, as
/// `vac_truncate_clog` calls it): the limits on ids go by it from then on, and who asks for one before it is told
/// `TooOld`. Two critical sections of the ProcArray: the second publishes it. The log has no record of it yet.
///
/// Refused with `Backward` where the id is before the announced one, else with `TooNew` where it is past the oldest xmin,
/// else with `Memory`; then nothing was announced. The session has run fewer than 2^48 commands.
pub fn freeze<R: Passing, L: LogDisk, P: PageDisk>(
    rt: &R,
    hall: &Hall<EngineLaw<L, P>>,
    caller: &mut Caller<L, P>,
    oldest: FullXid,
) -> Result<(), Refusal>
    requires { MayRun hall.now (start_of hall.now).banks caller.old }
    ensures ran { Ran hall.now (next_command caller.old) (commands.Freeze oldest) (reply_of (λ _. replies.Done) result)
        caller.old caller.new }
    ensures published { IfOk result (λ _. WasShown (start_of hall.now) (view caller.new.pass).seen oldest) }
    ensures refused { IfErr result (IsNotAnnounced (start_of hall.now).base (history (view caller.new.pass).seen) oldest) }
{
    count(caller);
    match announce_oldest(rt, hall, caller, oldest) {
        Ok(()) => {
            publish_oldest(rt, hall, caller);
            Ok(())
        }
        Err(refusal) => Err(refusal),
    }
}
