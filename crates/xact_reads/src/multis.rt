//! Whether a session's snapshot sees the members of a multixact.
ghost use Rattle.std.specs.Prelude.{◌≡◌, ◌+◌, ◌*◌, ◌≤◌, [], IsTrue, length, vec_capacity};
ghost use Rattle.hall.specs.Calls.{view, IsOf, start_of};
ghost use Rattle.tx_model.specs.declared.command.Command.TheVariants as commands;
ghost use Rattle.tx_model.specs.declared.reply.Reply.TheVariants as replies;
ghost use Rattle.engine_parts.specs.Adding.{Adds, MayFault};
ghost use Rattle.engine_parts.specs.Answers.{reply_of};
ghost use Rattle.engine_parts.specs.Calls.{MayRun, Ran, next_command};
ghost use Rattle.engine_parts.specs.Sessions.{IsReady, by_at};
ghost use Rattle.xact_reads.specs.Apart.{ApartOrMet, StaysApart};
ghost use Rattle.xact_reads.specs.Multis.{IsAskedMember, ReadsMulti};

use crate::gathers::gather;
use crate::judges::{MOST_MEMBERS, judge_all};
use bank_stores::Slot;
use disk_core::{LogDisk, PageDisk};
use engine_parts::{Caller, EngineLaw, Passing, count};
use hall::Hall;
use multi_sections::{pin_multi, unpin_multi};
use session_levels::registered_as;
use std::alloc::Global;
use tx_events::{MultiId, Name, Refusal};
use tx_model::VerdictList;

/// The most slots of a multixact: 64 members, and one that is skipped.
const SLOTS: usize = 65;

/// Pins the multixact, reads the slots of its members, and lets it go.
fn read_pinned<R: Passing, L: LogDisk, P: PageDisk>(
    rt: &R,
    hall: &Hall<EngineLaw<L, P>>,
    caller: &mut Caller<L, P>,
    banks: u32,
    m: MultiId,
    into: &mut Vec<Slot>,
) -> Result<(), Refusal>
    requires own { IsOf hall.now caller.old.pass }
    requires laid { hall.now.cells ≡ 3 + 4 * (start_of hall.now).banks }
    requires banks { (banks ≡ (start_of hall.now).banks) × (1 ≤ banks) × (banks ≤ 16) }
    requires ready { IsReady (start_of hall.now) (view caller.old.pass) caller.old.number caller.old.session }
    requires some { 1 ≤ m.number }
    requires none { into.old.items ≡ [] }
    requires room { 65 ≤ vec_capacity into.old }
    ensures own { IsOf hall.now caller.new.pass }
    ensures apart { StaysApart caller.old.number (view caller.old.pass).seen (view caller.new.pass).seen }
    ensures ready { IsReady (start_of hall.now) (view caller.new.pass) caller.new.number caller.new.session }
    ensures adds { Adds (by_at caller.old.number caller.old.session.levels.commands) (MayFault result)
        (view caller.old.pass).seen (view caller.new.pass).seen }
    ensures reads { ReadsMulti (start_of hall.now) (IsTrue P.tells) caller.old.number caller.old.session m.number
        (view caller.old.pass).seen (view caller.new.pass).seen into.new.items result }
    ensures long { length into.new.items ≤ 65 }
    ensures same { (caller.new.session ≡ caller.old.session) × (caller.new.number ≡ caller.old.number) }
{
    let held = match pin_multi(rt, hall, caller, m) {
        Ok(held) => held,
        Err(refusal) => return Err(refusal),
    };
    let gathered = gather(rt, hall, caller, banks, &held, into);
    unpin_multi(rt, hall, caller, held.multi);
    match gathered {
        Ok(()) => Ok(()),
        Err(refusal) => Err(refusal),
    }
}

/// What the session's snapshot of this name says of each member of the multixact that `m` means near the next one, in
/// the members' order (`GetMultiXactIdMembers` of `src/backend/access/transam/multixact.c`, and for each member
/// `XidInMVCCSnapshot` of `src/backend/utils/time/snapmgr.c`). The multixact is pinned while its members are read. A
/// member means the full id nearest to the snapshot's xmax; it is `TooOld` where that is before the published oldest
/// id, or there is none. `banks` is the number of banks of each store, 1 to 16; the lists are of `alloc`.
///
/// Refused, in this order, with `NoSnapshot` where the session has none of this name, with `Memory`, with `MultiTooOld`
/// where the number means none or one below the oldest, with `MultiFuture` where it means one that wasn't given yet,
/// with `NotYet` where the offset of the multixact, or of the one behind it, doesn't stand yet, and with `DiskFault` of
/// a bank of offsets, members, pg_xact or pg_subtrans. Enters the ProcArray only where the page with a member's state
/// is cut. The session has run fewer than 2^48 commands.
pub fn see_multi<R: Passing, L: LogDisk, P: PageDisk>(
    rt: &R,
    hall: &Hall<EngineLaw<L, P>>,
    caller: &mut Caller<L, P>,
    banks: u32,
    name: &Name,
    m: MultiId,
    alloc: Global,
) -> Result<VerdictList, Refusal>
    requires may { MayRun hall.now banks caller.old }
    requires some { 1 ≤ m.number }
    ensures ran { Ran hall.now (next_command caller.old) (commands.SeeMulti name.now m) (reply_of replies.Verdicts result)
        caller.old caller.new }
    ensures apart { ApartOrMet (start_of hall.now) (by_at caller.old.number (next_command caller.old))
        caller.old.session.levels name.now (IsAskedMember (start_of hall.now) (IsTrue P.tells)
        (by_at caller.old.number (next_command caller.old)) m.number (view caller.new.pass).seen)
        (view caller.old.pass).seen (view caller.new.pass).seen }
{
    count(caller);
    match registered_as(&caller.session.levels, name) {
        Some(_) => {}
        None => return Err(Refusal::NoSnapshot),
    }
    let Ok(mut slots) = Vec::with_capacity(alloc, SLOTS) else {
        return Err(Refusal::Memory);
    };
    let Ok(mut verdicts) = Vec::with_capacity(alloc, MOST_MEMBERS) else {
        return Err(Refusal::Memory);
    };
    match read_pinned(rt, hall, caller, banks, m, &mut slots) {
        Ok(()) => {}
        Err(refusal) => return Err(refusal),
    }
    match judge_all(rt, hall, caller, banks, name, &slots, &mut verdicts) {
        Ok(()) => Ok(VerdictList::of(verdicts)),
        Err(refusal) => Err(refusal),
    }
}
