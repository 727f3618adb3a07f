//! Whether an id has committed, by the stores alone.
ghost use Rattle.std.specs.Prelude.{◌≡◌, ℕ, ◌+◌, ◌*◌, ◌^◌, ◌<◌, ◌≤◌, [], IfErr, IfOk, IsTrue, List, None};
ghost use Rattle.hall.specs.Calls.{view, IsOf, start_of};
ghost use Rattle.tx_events.specs.Ids.{IsFullId};
ghost use Rattle.tx_model.specs.declared.command.Command.TheVariants as commands;
ghost use Rattle.tx_model.specs.declared.reply.Reply.TheVariants as replies;
ghost use Rattle.tx_model.specs.Replies.{alone};
ghost use Rattle.tx_core.specs.Entries.{history};
ghost use Rattle.life_law.specs.Refused.{by_standing};
ghost use Rattle.engine_parts.specs.Adding.{Adds, MayFault};
ghost use Rattle.engine_parts.specs.Answers.{MayAnswer, reply_of};
ghost use Rattle.engine_parts.specs.Calls.{MayRun, Ran, next_command};
ghost use Rattle.engine_parts.specs.Sessions.{IsReady, by_at, stance_of};
ghost use Rattle.engine_parts.specs.Steps.{WentOn};
ghost use Rattle.xact_reads.specs.Ancestors.{AncestorSays, AncestorsSay, IsStep, ParentSays, StoresSay, StoresTell};
ghost use Rattle.xact_reads.specs.Readings.{IsStateUnread, IsUnread};
ghost use Rattle.xact_reads.specs.Stores.{IsBelow, IsDidIn};

use crate::climbs::below;
use crate::states::state_of;
use bank_sections::{read_parent, read_state};
use disk_core::{LogDisk, PageDisk};
use engine_parts::{Caller, EngineLaw, Passing, count};
use hall::Hall;
use proc_sections::{read_horizons, read_oldest};
use slru_bank::BankRefusal;
use store_pages::{bank_of, subtrans_page, xact_page};
use tx_core::State;
use tx_events::{FullXid, Lock, Refusal, Xid, near};

/// What the stores say of an ancestor of the id that is asked for.
#[derive(Clone, Copy)]
pub(crate) enum Step {
    /// They decide.
    Ends { committed: bool },
    /// It is sub-committed, and its own parent has to be asked.
    Further { parent: FullXid },
}

/// What an ancestor's state says.
fn step_of(state: Option<State>, parent: FullXid) -> Step
    ensures further { IsBelow (parent + 1) result }
    ensures said { IsStep state parent result }
{
    match state {
        Some(State::SubCommitted) => Step::Further { parent },
        Some(State::Committed) => Step::Ends { committed: true },
        _ => Step::Ends { committed: false },
    }
}

/// What an ancestor's state says, where its page isn't cut. Where it is, the transaction ended long ago, and the id
/// that is asked for didn't commit before this command began; unless that id is too old by now.
fn ancestor_state<R: Passing, L: LogDisk, P: PageDisk>(
    rt: &R,
    hall: &Hall<EngineLaw<L, P>>,
    caller: &mut Caller<L, P>,
    banks: u32,
    asked: FullXid,
    parent: FullXid,
) -> Result<Step, Refusal>
    requires own { IsOf hall.now caller.old.pass }
    requires laid { hall.now.cells ≡ 3 + 4 * (start_of hall.now).banks }
    requires banks { (banks ≡ (start_of hall.now).banks) × (1 ≤ banks) × (banks ≤ 16) }
    requires ready { IsReady (start_of hall.now) (view caller.old.pass) caller.old.number caller.old.session }
    ensures own { IsOf hall.now caller.new.pass }
    ensures ready { IsReady (start_of hall.now) (view caller.new.pass) caller.new.number caller.new.session }
    ensures went { WentOn caller.old.number [] (view caller.old.pass).seen (view caller.new.pass).seen }
    ensures adds { Adds (by_at caller.old.number caller.old.session.levels.commands) (MayFault result)
        (view caller.old.pass).seen (view caller.new.pass).seen }
    ensures further { IfOk result (IsBelow (parent + 1)) }
    ensures said { IsTrue P.tells → IfOk result
        (AncestorSays (start_of hall.now) (view caller.old.pass).seen (view caller.new.pass).seen parent) }
    ensures unread { IfErr result (λ refusal. IsStateUnread (start_of hall.now) (view caller.new.pass).seen
        (by_at caller.old.number caller.old.session.levels.commands) asked refusal) }
    ensures same { (caller.new.session ≡ caller.old.session) × (caller.new.number ≡ caller.old.number) }
{
    let bank = bank_of(xact_page(parent.low()), banks);
    match read_state(rt, hall, caller, bank, parent) {
        Ok(state) => Ok(step_of(state, parent)),
        Err(BankRefusal::DiskFault) => Err(Refusal::DiskFault {
            lock: Lock::Xact(bank),
        }),
        Err(BankRefusal::Cut { .. }) => {
            let oldest = read_oldest(rt, hall, caller);
            if asked < oldest {
                return Err(Refusal::TooOld { oldest });
            }
            Ok(Step::Ends { committed: false })
        }
    }
}

/// One step up from a sub-committed id. A page of parents that is cut counts as one without a parent.
fn step_up<R: Passing, L: LogDisk, P: PageDisk>(
    rt: &R,
    hall: &Hall<EngineLaw<L, P>>,
    caller: &mut Caller<L, P>,
    banks: u32,
    asked: FullXid,
    x: FullXid,
) -> Result<Step, Refusal>
    requires own { IsOf hall.now caller.old.pass }
    requires laid { hall.now.cells ≡ 3 + 4 * (start_of hall.now).banks }
    requires banks { (banks ≡ (start_of hall.now).banks) × (1 ≤ banks) × (banks ≤ 16) }
    requires ready { IsReady (start_of hall.now) (view caller.old.pass) caller.old.number caller.old.session }
    requires from { 3 ≤ x }
    requires to { x < 2 ^ 63 }
    ensures own { IsOf hall.now caller.new.pass }
    ensures ready { IsReady (start_of hall.now) (view caller.new.pass) caller.new.number caller.new.session }
    ensures went { WentOn caller.old.number [] (view caller.old.pass).seen (view caller.new.pass).seen }
    ensures adds { Adds (by_at caller.old.number caller.old.session.levels.commands) (MayFault result)
        (view caller.old.pass).seen (view caller.new.pass).seen }
    ensures further { IfOk result (IsBelow x) }
    ensures said { IsTrue P.tells → IfOk result
        (ParentSays (start_of hall.now) (view caller.old.pass).seen (view caller.new.pass).seen x) }
    ensures unread { IfErr result (λ refusal. IsUnread (start_of hall.now) (view caller.new.pass).seen
        (by_at caller.old.number caller.old.session.levels.commands) asked refusal) }
    ensures same { (caller.new.session ≡ caller.old.session) × (caller.new.number ≡ caller.old.number) }
{
    let bank = bank_of(subtrans_page(x.low()), banks);
    match read_parent(rt, hall, caller, bank, x) {
        Ok(found) => match below(x, found) {
            Some(parent) => match ancestor_state(rt, hall, caller, banks, asked, parent) {
                Ok(step) => Ok(step),
                Err(refusal) => Err(refusal),
            },
            None => Ok(Step::Ends { committed: false }),
        },
        Err(BankRefusal::DiskFault) => Err(Refusal::DiskFault {
            lock: Lock::Subtrans(bank),
        }),
        Err(BankRefusal::Cut { .. }) => Ok(Step::Ends { committed: false }),
    }
}

/// Whether an ancestor of a sub-committed id has committed, before one that is before the oldest xmin.
fn ancestors_did<R: Passing, L: LogDisk, P: PageDisk>(
    rt: &R,
    hall: &Hall<EngineLaw<L, P>>,
    caller: &mut Caller<L, P>,
    banks: u32,
    xmin: FullXid,
    asked: FullXid,
) -> Result<bool, Refusal>
    requires own { IsOf hall.now caller.old.pass }
    requires laid { hall.now.cells ≡ 3 + 4 * (start_of hall.now).banks }
    requires banks { (banks ≡ (start_of hall.now).banks) × (1 ≤ banks) × (banks ≤ 16) }
    requires ready { IsReady (start_of hall.now) (view caller.old.pass) caller.old.number caller.old.session }
    requires from { 3 ≤ xmin }
    requires to { asked < 2 ^ 63 }
    ensures own { IsOf hall.now caller.new.pass }
    ensures ready { IsReady (start_of hall.now) (view caller.new.pass) caller.new.number caller.new.session }
    ensures went { WentOn caller.old.number [] (view caller.old.pass).seen (view caller.new.pass).seen }
    ensures adds { Adds (by_at caller.old.number caller.old.session.levels.commands) (MayFault result)
        (view caller.old.pass).seen (view caller.new.pass).seen }
    ensures said { IsTrue P.tells → IfOk result (λ answer. (above : List ℕ) × AncestorsSay (start_of hall.now)
        (view caller.old.pass).seen (view caller.new.pass).seen xmin asked above answer) }
    ensures unread { IfErr result (λ refusal. IsUnread (start_of hall.now) (view caller.new.pass).seen
        (by_at caller.old.number caller.old.session.levels.commands) asked refusal) }
    ensures same { (caller.new.session ≡ caller.old.session) × (caller.new.number ≡ caller.old.number) }
{
    let mut x = asked;
    while x >= xmin {
        let step = match step_up(rt, hall, caller, banks, asked, x) {
            Ok(step) => step,
            Err(refusal) => return Err(refusal),
        };
        match step {
            Step::Ends { committed } => return Ok(committed),
            Step::Further { parent } => x = parent,
        }
    }
    Ok(false)
}

/// Whether an id has committed by the stores (`TransactionIdDidCommit` of `src/backend/access/transam/transam.c`): its
/// state says so, or it is sub-committed and an ancestor's does.
fn stores_say<R: Passing, L: LogDisk, P: PageDisk>(
    rt: &R,
    hall: &Hall<EngineLaw<L, P>>,
    caller: &mut Caller<L, P>,
    banks: u32,
    xmin: FullXid,
    x: FullXid,
) -> Result<bool, Refusal>
    requires own { IsOf hall.now caller.old.pass }
    requires laid { hall.now.cells ≡ 3 + 4 * (start_of hall.now).banks }
    requires banks { (banks ≡ (start_of hall.now).banks) × (1 ≤ banks) × (banks ≤ 16) }
    requires ready { IsReady (start_of hall.now) (view caller.old.pass) caller.old.number caller.old.session }
    requires from { 3 ≤ xmin }
    requires full { IsFullId x }
    requires to { x < 2 ^ 63 }
    ensures own { IsOf hall.now caller.new.pass }
    ensures ready { IsReady (start_of hall.now) (view caller.new.pass) caller.new.number caller.new.session }
    ensures went { WentOn caller.old.number [] (view caller.old.pass).seen (view caller.new.pass).seen }
    ensures adds { Adds (by_at caller.old.number caller.old.session.levels.commands) (MayFault result)
        (view caller.old.pass).seen (view caller.new.pass).seen }
    ensures did { IsTrue P.tells → IfOk result (λ answer. IsDidIn (start_of hall.now)
        (view caller.old.pass).seen (view caller.new.pass).seen x answer) }
    ensures said { IsTrue P.tells → IfOk result (StoresSay (start_of hall.now)
        (view caller.old.pass).seen (view caller.new.pass).seen xmin x) }
    ensures unread { IfErr result (λ refusal. IsUnread (start_of hall.now) (view caller.new.pass).seen
        (by_at caller.old.number caller.old.session.levels.commands) x refusal) }
    ensures same { (caller.new.session ≡ caller.old.session) × (caller.new.number ≡ caller.old.number) }
{
    let state = match state_of(rt, hall, caller, banks, x) {
        Ok(state) => state,
        Err(refusal) => return Err(refusal),
    };
    match step_of(state, x) {
        Step::Ends { committed } => Ok(committed),
        Step::Further { .. } => match ancestors_did(rt, hall, caller, banks, xmin, x) {
            Ok(committed) => Ok(committed),
            Err(refusal) => Err(refusal),
        },
    }
}

/// What the stores tell of the full id nearest to the next one that the stored id `x` means: `TooOld` where it is
/// before the oldest one, or there is none. One that wasn't given hasn't committed.
fn did_near<R: Passing, L: LogDisk, P: PageDisk>(
    rt: &R,
    hall: &Hall<EngineLaw<L, P>>,
    caller: &mut Caller<L, P>,
    banks: u32,
    x: Xid,
) -> Result<bool, Refusal>
    requires own { IsOf hall.now caller.old.pass }
    requires laid { hall.now.cells ≡ 3 + 4 * (start_of hall.now).banks }
    requires banks { (banks ≡ (start_of hall.now).banks) × (1 ≤ banks) × (banks ≤ 16) }
    requires ready { IsReady (start_of hall.now) (view caller.old.pass) caller.old.number caller.old.session }
    requires normal { 3 ≤ x.number }
    ensures own { IsOf hall.now caller.new.pass }
    ensures ready { IsReady (start_of hall.now) (view caller.new.pass) caller.new.number caller.new.session }
    ensures went { WentOn caller.old.number [] (view caller.old.pass).seen (view caller.new.pass).seen }
    ensures adds { Adds (by_at caller.old.number caller.old.session.levels.commands) (MayFault result)
        (view caller.old.pass).seen (view caller.new.pass).seen }
    ensures allowed { MayAnswer P.tells (start_of hall.now) (view caller.new.pass).seen
        (alone (history (view caller.old.pass).seen) (history (view caller.new.pass).seen))
        (by_at caller.old.number caller.old.session.levels.commands) (stance_of caller.old.session)
        caller.old.session.stage (commands.Did x) (reply_of replies.Did result) }
    ensures said { IsTrue P.tells → IfOk result (StoresTell (start_of hall.now)
        (view caller.old.pass).seen (view caller.new.pass).seen x.number) }
    ensures standing { by_standing (reply_of replies.Did result) ≡ None }
    ensures same { (caller.new.session ≡ caller.old.session) × (caller.new.number ≡ caller.old.number) }
{
    let found = read_horizons(rt, hall, caller);
    let id = match near(found.next, x) {
        Some(id) => id,
        None => {
            return Err(Refusal::TooOld {
                oldest: found.oldest,
            });
        }
    };
    if id < found.oldest {
        return Err(Refusal::TooOld {
            oldest: found.oldest,
        });
    }
    if id >= found.next {
        return Ok(false);
    }
    match stores_say(rt, hall, caller, banks, found.oldest_xmin, id) {
        Ok(did) => Ok(did),
        Err(refusal) => Err(refusal),
    }
}

/// Whether the transaction of the stored id `x` has committed, by the stores alone (`TransactionIdDidCommit` of
/// `src/backend/access/transam/transam.c`): its record may stand before its commit counts. A special id has its fixed
/// answer; each other one means the full id nearest to the next one. `banks` is the number of banks of each store, 1 to
/// 16.
///
/// Refused with `TooOld` where the id is before the announced oldest id, or there is none, and with `DiskFault` of a
/// bank of pg_xact or pg_subtrans. Takes no memory. The session has run fewer than 2^48 commands.
pub fn did<R: Passing, L: LogDisk, P: PageDisk>(
    rt: &R,
    hall: &Hall<EngineLaw<L, P>>,
    caller: &mut Caller<L, P>,
    banks: u32,
    x: Xid,
) -> Result<bool, Refusal>
    requires { MayRun hall.now banks caller.old }
    ensures ran { Ran hall.now (next_command caller.old) (commands.Did x) (reply_of replies.Did result)
        caller.old caller.new }
    ensures said { 3 ≤ x.number → IsTrue P.tells → IfOk result (StoresTell (start_of hall.now)
        (view caller.old.pass).seen (view caller.new.pass).seen x.number) }
{
    count(caller);
    if x.number < 3 {
        return Ok(x.number != 0);
    }
    match did_near(rt, hall, caller, banks, x) {
        Ok(did) => Ok(did),
        Err(refusal) => Err(refusal),
    }
}
