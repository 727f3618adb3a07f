//! How an id stands.
ghost use Rattle.std.specs.Prelude.{◌≡◌, ◌+◌, ◌*◌, ◌<◌, ◌≤◌, [], List, None, cond, length, true};
ghost use Rattle.hall.specs.Calls.{view, IsOf, start_of};
ghost use Rattle.tx_events.specs.Ids.{IsFullId};
ghost use Rattle.tx_events.specs.declared.event.Event.{Event};
ghost use Rattle.tx_model.specs.declared.command.Command.TheVariants as commands;
ghost use Rattle.tx_model.specs.declared.reply.Reply.TheVariants as replies;
ghost use Rattle.tx_model.specs.declared.reply.Status.TheVariants as statuses;
ghost use Rattle.tx_model.specs.CommandEvents.{was_asked};
ghost use Rattle.tx_model.specs.Replies.{alone, special_status};
ghost use Rattle.tx_core.specs.Entries.{history};
ghost use Rattle.life_law.specs.Refused.{by_standing};
ghost use Rattle.engine_parts.specs.Adding.{Adds, MayFault};
ghost use Rattle.engine_parts.specs.Answers.{MayAnswer, reply_of};
ghost use Rattle.engine_parts.specs.Calls.{MayRun, Ran, next_command};
ghost use Rattle.engine_parts.specs.Sessions.{IsReady, by_at, stance_of};
ghost use Rattle.engine_parts.specs.Steps.{WentOn};
ghost use Rattle.proc_sections.specs.Askings.{IsAnswered, question};

use crate::states::is_committed;
use disk_core::{LogDisk, PageDisk};
use engine_parts::{Caller, EngineLaw, Passing, count};
use hall::Hall;
use proc_sections::ask_status;
use proc_table::Asked;
use tx_events::{FullXid, Memory, Refusal};
use tx_model::Status;

/// The status of a special id, which is fixed.
fn fixed(x: FullXid) -> Status
    ensures { result ≡ special_status x }
{
    if x.number() == 0 {
        Status::Aborted
    } else {
        Status::Committed
    }
}

/// The status of an id that doesn't run.
fn ended(committed: bool) -> Status
    ensures { result ≡ cond committed statuses.Committed statuses.Aborted }
{
    if committed {
        Status::Committed
    } else {
        Status::Aborted
    }
}

/// How an id stood at the question that was answered so: what doesn't run has committed where its state says so, and
/// else it has aborted (`TransactionIdDidCommit` and `TransactionIdDidAbort` of
/// `src/backend/access/transam/transam.c`).
fn settle<R: Passing, L: LogDisk, P: PageDisk>(
    rt: &R,
    hall: &Hall<EngineLaw<L, P>>,
    caller: &mut Caller<L, P>,
    banks: u32,
    x: FullXid,
    asked: Asked,
) -> Result<Status, Refusal>
    requires own { IsOf hall.now caller.old.pass }
    requires laid { hall.now.cells ≡ 3 + 4 * (start_of hall.now).banks }
    requires banks { (banks ≡ (start_of hall.now).banks) × (1 ≤ banks) × (banks ≤ 16) }
    requires ready { IsReady (start_of hall.now) (view caller.old.pass) caller.old.number caller.old.session }
    requires full { IsFullId x }
    requires asked { IsAnswered (start_of hall.now) (question caller.old.number caller.old.session x) x asked
        (view caller.old.pass).seen }
    ensures own { IsOf hall.now caller.new.pass }
    ensures ready { IsReady (start_of hall.now) (view caller.new.pass) caller.new.number caller.new.session }
    ensures went { WentOn caller.old.number [] (view caller.old.pass).seen (view caller.new.pass).seen }
    ensures adds { Adds (by_at caller.old.number caller.old.session.levels.commands) (MayFault result)
        (view caller.old.pass).seen (view caller.new.pass).seen }
    ensures allowed { (h : List Event) → length h < length (history (view caller.old.pass).seen)
        → MayAnswer P.tells (start_of hall.now) (view caller.new.pass).seen
        (alone h (history (view caller.new.pass).seen))
        (by_at caller.old.number caller.old.session.levels.commands) (stance_of caller.old.session)
        caller.old.session.stage (commands.Status x) (reply_of replies.Known result) }
    ensures standing { by_standing (reply_of replies.Known result) ≡ None }
    ensures behind { was_asked (reply_of replies.Known result) ≡ true }
    ensures same { (caller.new.session ≡ caller.old.session) × (caller.new.number ≡ caller.old.number) }
{
    if x < asked.oldest {
        return Err(Refusal::TooOld {
            oldest: asked.oldest,
        });
    }
    if x >= asked.next {
        return Err(Refusal::Future { next: asked.next });
    }
    if asked.running {
        return Ok(Status::InProgress);
    }
    match is_committed(rt, hall, caller, banks, x) {
        Ok(committed) => Ok(ended(committed)),
        Err(refusal) => Err(refusal),
    }
}

/// How the transaction of an id stands (`TransactionIdIsInProgress` of `src/backend/storage/ipc/procarray.c`, then
/// `TransactionIdDidCommit` of `src/backend/access/transam/transam.c`): one critical section of the ProcArray, in which
/// it is asked for, and of an id that doesn't run one of a bank of pg_xact. A special id has its fixed answer, and
/// takes neither. `banks` is the number of banks of each store, 1 to 16.
///
/// Refused, in this order, with `Memory`, then nothing was asked; with `TooOld` where the id is before the announced
/// oldest id; with `Future` where it wasn't given yet; and with `DiskFault` of a bank of pg_xact. The session has run
/// fewer than 2^48 commands.
pub fn status<R: Passing, L: LogDisk, P: PageDisk>(
    rt: &R,
    hall: &Hall<EngineLaw<L, P>>,
    caller: &mut Caller<L, P>,
    banks: u32,
    x: FullXid,
) -> Result<Status, Refusal>
    requires { MayRun hall.now banks caller.old }
    ensures { Ran hall.now (next_command caller.old) (commands.Status x) (reply_of replies.Known result)
        caller.old caller.new }
{
    count(caller);
    if x.number() < 3 {
        return Ok(fixed(x));
    }
    let asked = match ask_status(rt, hall, caller, x) {
        Ok(asked) => asked,
        Err(Memory) => return Err(Refusal::Memory),
    };
    match settle(rt, hall, caller, banks, x, asked) {
        Ok(status) => Ok(status),
        Err(refusal) => Err(refusal),
    }
}
