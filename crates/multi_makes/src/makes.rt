//! The call that makes a multixact.
ghost use Rattle.std.specs.Prelude.{◌≡◌, ℕ, ◌<◌, Contains, IfErr, IfOk, None};
ghost use Rattle.hall.specs.Calls.{start_of, view};
ghost use Rattle.tx_events.specs.After.{ids_of};
ghost use Rattle.tx_events.specs.History.{next_given};
ghost use Rattle.tx_events.specs.Ids.{IsFullId};
ghost use Rattle.tx_events.specs.Multis.{AreMembers};
ghost use Rattle.tx_model.specs.declared.command.Command.TheVariants as commands;
ghost use Rattle.tx_core.specs.Entries.{history};
ghost use Rattle.life_law.specs.Refused.{by_members, refused_by_members};
ghost use Rattle.engine_parts.specs.Adding.{Adds, IsOfMulti, IsToldBy, MayAdd};
ghost use Rattle.engine_parts.specs.Answers.{reply_of};
ghost use Rattle.engine_parts.specs.Calls.{MayRun, MayStep, Ran, next_command};
ghost use Rattle.engine_parts.specs.Sessions.{by_at};
ghost use Rattle.log_sections.specs.Rooms.{MetFullFor};
ghost use Rattle.multi_makes.specs.Makes.{IsMade, LeavesMaking, MakesNew, MakesNext, MakesOf, given_reply};
ghost use Rattle.multi_makes.specs.Pending.{IsPending};

use crate::finishing::finish;
use crate::full::full_members;
use crate::words::refused_pairs;
use disk_core::{LogDisk, PageDisk};
use engine_parts::{Caller, EngineLaw, Passing, count};
use hall::Hall;
use multi_sections::take_multi;
use multi_store::MultiGiven;
use proc_sections::read_horizons;
use std::alloc::Global;
use tx_events::{MemberList, Refusal};
use tx_model::{Pair, PairList};

/// Takes a multixact of these members, and makes it whole.
fn make_of<R: Passing, L: LogDisk, P: PageDisk>(
    rt: &R,
    hall: &Hall<EngineLaw<L, P>>,
    caller: &mut Caller<L, P>,
    banks: u32,
    members: MemberList,
) -> Result<MultiGiven, Refusal>
    requires step { MayStep hall.now banks caller.old }
    requires free { caller.old.session.making ≡ None }
    requires members { AreMembers members }
    requires full { (id : ℕ) → Contains (ids_of members) id → IsFullId id }
    requires before { (id : ℕ) → Contains (ids_of members) id → id < next_given (start_of hall.now).base.next
        (history (view caller.old.pass).seen) }
    ensures step { MayStep hall.now banks caller.new }
    ensures adds { Adds (by_at caller.old.number caller.old.session.levels.commands)
        (MayAdd IsOfMulti ⊥ (IsToldBy result)) (view caller.old.pass).seen (view caller.new.pass).seen }
    ensures makes { MakesOf (start_of hall.now) caller.old.number caller.old.session caller.new.session
        members (view caller.old.pass).seen (view caller.new.pass).seen result }
    ensures left { LeavesMaking caller.old caller.new }
    ensures full { IfErr result (MetFullFor (start_of hall.now) (view caller.new.pass).seen
        (by_at caller.old.number caller.old.session.levels.commands) (IsPending caller.new.session.making)) }
{
    match take_multi(rt, hall, caller, members) {
        Ok(given) => match finish(rt, hall, caller, banks) {
            Ok(()) => Ok(given),
            Err(refusal) => Err(refusal),
        },
        Err(refusal) => Err(refusal),
    }
}

/// Makes a multixact of what a script wrote. The session makes none.
fn make_new<R: Passing, L: LogDisk, P: PageDisk>(
    rt: &R,
    hall: &Hall<EngineLaw<L, P>>,
    caller: &mut Caller<L, P>,
    banks: u32,
    pairs: &[Pair],
    alloc: Global,
) -> Result<MultiGiven, Refusal>
    requires step { MayStep hall.now banks caller.old }
    requires free { caller.old.session.making ≡ None }
    requires words { refused_by_members (commands.Multi pairs.now) ≡ None }
    ensures step { MayStep hall.now banks caller.new }
    ensures adds { Adds (by_at caller.old.number caller.old.session.levels.commands)
        (MayAdd IsOfMulti ⊥ (IsToldBy result)) (view caller.old.pass).seen (view caller.new.pass).seen }
    ensures makes { MakesNew (start_of hall.now) caller.old.number caller.old.session caller.new.session
        pairs.now (view caller.old.pass).seen (view caller.new.pass).seen result }
    ensures left { LeavesMaking caller.old caller.new }
    ensures full { IfErr result (MetFullFor (start_of hall.now) (view caller.new.pass).seen
        (by_at caller.old.number caller.old.session.levels.commands) (IsPending caller.new.session.making)) }
{
    let found = read_horizons(rt, hall, caller);
    match full_members(alloc, &found, pairs) {
        Ok(members) => make_of(rt, hall, caller, banks, members),
        Err(refusal) => Err(refusal),
    }
}

/// Makes a multixact of these members whole, behind the one that the session makes, if it makes one.
fn make_next<R: Passing, L: LogDisk, P: PageDisk>(
    rt: &R,
    hall: &Hall<EngineLaw<L, P>>,
    caller: &mut Caller<L, P>,
    banks: u32,
    pairs: &[Pair],
    alloc: Global,
) -> Result<MultiGiven, Refusal>
    requires step { MayStep hall.now banks caller.old }
    requires words { refused_by_members (commands.Multi pairs.now) ≡ None }
    ensures step { MayStep hall.now banks caller.new }
    ensures adds { Adds (by_at caller.old.number caller.old.session.levels.commands)
        (MayAdd IsOfMulti ⊥ (IsToldBy result)) (view caller.old.pass).seen (view caller.new.pass).seen }
    ensures makes { MakesNext (start_of hall.now) caller.old.number caller.old.session caller.new.session
        pairs.now (view caller.old.pass).seen (view caller.new.pass).seen result }
    ensures left { LeavesMaking caller.old caller.new }
    ensures full { IfErr result (MetFullFor (start_of hall.now) (view caller.new.pass).seen
        (by_at caller.old.number caller.old.session.levels.commands) (IsPending caller.new.session.making)) }
{
    match finish(rt, hall, caller, banks) {
        Ok(()) => make_new(rt, hall, caller, banks, pairs, alloc),
        Err(refusal) => Err(refusal),
    }
}

/// Makes a multixact of these members (`MultiXactIdCreateFromMembers` of `src/backend/access/transam/multixact.c`): it
/// is given, its record comes to the log, unflushed, its members are set, page by page, and then its offset. Members
/// are the full ids near the next one. A multixact of the session that a fault stopped is made whole before. `banks` is
/// the number of banks of each store, 1 to 16; the lists are of `alloc`.
///
/// Refused, in this order, with `MemberCount` where there are none or more than 64 members, with `TwoUpdaters` where
/// two of them update, and with what stops the pending one; then with `NotGiven` or `TooOld`, by the first member that
/// is refused, with `MultiStop` or `MemberStop`, or with `Memory`; then none was given. And with `LogDown`, `Full`,
/// `DiskFault` of a bank of offsets or of members, or `Memory`; then the multixact that was given is pending. The
/// session has run fewer than 2^48 commands.
pub fn multi<R: Passing, L: LogDisk, P: PageDisk>(
    rt: &R,
    hall: &Hall<EngineLaw<L, P>>,
    caller: &mut Caller<L, P>,
    banks: u32,
    members: &PairList,
    alloc: Global,
) -> Result<MultiGiven, Refusal>
    requires { MayRun hall.now banks caller.old }
    ensures ran { Ran hall.now (next_command caller.old) (commands.Multi members.now) (reply_of given_reply result)
        caller.old caller.new }
    ensures done { IfOk result (IsMade (start_of hall.now) (view caller.new.pass).seen caller.old.number) }
    ensures words { by_members (reply_of given_reply result) ≡ refused_by_members (commands.Multi members.now) }
    ensures full { IfErr result (MetFullFor (start_of hall.now) (view caller.new.pass).seen
        (by_at caller.old.number (next_command caller.old)) (IsPending caller.new.session.making)) }
{
    count(caller);
    match refused_pairs(members.items()) {
        Some(refusal) => Err(refusal),
        None => make_next(rt, hall, caller, banks, members.items(), alloc),
    }
}
