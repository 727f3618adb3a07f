//! The verdicts on a multixact's members.
ghost use Rattle.std.specs.Prelude.{◌≡◌, ◌+◌, ◌*◌, ◌^◌, ◌<◌, ◌≤◌, [], ◌∷◌, ◌++◌, IfErr, IfOk, IsTrue, OnOk, Some, cond, length, vec_capacity};
ghost use Rattle.std.specs.List.{AllByRecursion, filter_map};
ghost use Rattle.hall.specs.Calls.{view, IsOf, start_of};
ghost use Rattle.tx_events.specs.Ids.{IsXidNumber};
ghost use Rattle.tx_model.specs.declared.reply.Verdict.TheVariants as verdicts;
ghost use Rattle.life_law.specs.MultiReplies.{IsOfId};
ghost use Rattle.tx_core.specs.Entries.{AreFewIds};
ghost use Rattle.session_levels.specs.declared.session.RegisteredSnapshot.{RegisteredSnapshot};
ghost use Rattle.bank_sections.specs.Faults.{IsBankFault};
ghost use Rattle.engine_parts.specs.Adding.{Adds, MayFault};
ghost use Rattle.engine_parts.specs.Sessions.{IsReady, by_at};
ghost use Rattle.engine_parts.specs.Steps.{WentOn};
ghost use Rattle.xact_reads.specs.Apart.{ApartOrMet};
ghost use Rattle.xact_reads.specs.Glances.{HasGlanced, IsNamed};
ghost use Rattle.xact_reads.specs.Multis.{AreJudged, IsCarried, IsJudgedNormal, IsStoredIn, IsVerdictOn, JudgesSlot, judged_refusal, pair_in};

use crate::glances::{Glance, glance_at};
use crate::shows::show;
use bank_stores::Slot;
use disk_core::{LogDisk, PageDisk};
use engine_parts::{Caller, EngineLaw, Passing, read_oldest_word};
use hall::Hall;
use session_levels::registered_as;
use tx_events::{FullXid, Mode, Name, Refusal, Xid};
use tx_model::{MemberVerdict, Verdict};

/// The most members of a multixact.
pub(crate) const MOST_MEMBERS: usize = 64;

/// The id of the first epoch.
fn lone(x: Xid) -> FullXid
    ensures value { result ≡ x.number }
    ensures number { (result < 2 ^ 64) × IsXidNumber result }
{
    match FullXid::new(u64::from(x.number)) {
        Some(id) => id,
        None => unreachable!(),
    }
}

/// The number of an id has 64 bits and is an id's.
fn known(id: FullXid)
    ensures { (id < 2 ^ 64) × IsXidNumber id }
{
    let _number = id.number();
}

fn verdict_on(shown: bool) -> Verdict
    ensures { result ≡ cond shown verdicts.Visible verdicts.Hidden }
{
    if shown {
        Verdict::Visible
    } else {
        Verdict::Hidden
    }
}

/// An id whose state is cut is too old; any other refusal is one of the command.
fn refused_on(refusal: Refusal) -> Result<Verdict, Refusal>
    ensures { result ≡ judged_refusal refusal }
{
    match refusal {
        Refusal::TooOld { .. } => Ok(Verdict::TooOld),
        other => Err(other),
    }
}

/// The verdict on the full id that the stored member `_x` means to the snapshot of this name: too old where it is
/// before this oldest id, or its state is cut by now (`HeapTupleSatisfiesMVCC` of
/// `src/backend/access/heap/heapam_visibility.c`).
fn judge_glance<R: Passing, L: LogDisk, P: PageDisk>(
    rt: &R,
    hall: &Hall<EngineLaw<L, P>>,
    caller: &mut Caller<L, P>,
    banks: u32,
    name: &Name,
    _x: Xid,
    glance: Glance,
    oldest: u64,
) -> Result<Verdict, Refusal>
    requires own { IsOf hall.now caller.old.pass }
    requires laid { hall.now.cells ≡ 3 + 4 * (start_of hall.now).banks }
    requires banks { (banks ≡ (start_of hall.now).banks) × (1 ≤ banks) × (banks ≤ 16) }
    requires ready { IsReady (start_of hall.now) (view caller.old.pass) caller.old.number caller.old.session }
    requires glanced { HasGlanced caller.old.session.levels name.now _x.number (Some glance) }
    requires oldest { IsCarried (start_of hall.now) (view caller.old.pass).seen oldest }
    requires from { (start_of hall.now).base.oldest ≤ oldest }
    ensures own { IsOf hall.now caller.new.pass }
    ensures ready { IsReady (start_of hall.now) (view caller.new.pass) caller.new.number caller.new.session }
    ensures went { WentOn caller.old.number [] (view caller.old.pass).seen (view caller.new.pass).seen }
    ensures apart { ApartOrMet (start_of hall.now) (by_at caller.old.number caller.old.session.levels.commands)
        caller.old.session.levels name.now (λ x. x ≡ _x.number) (view caller.old.pass).seen (view caller.new.pass).seen }
    ensures adds { Adds (by_at caller.old.number caller.old.session.levels.commands) (MayFault result)
        (view caller.old.pass).seen (view caller.new.pass).seen }
    ensures said { IsTrue P.tells → AreFewIds (view caller.new.pass).seen → (k : RegisteredSnapshot)
        → IsNamed caller.old.session.levels name.now k → IfOk result
        (IsVerdictOn (start_of hall.now) (view caller.new.pass).seen k.place (Some glance.id)) }
    ensures fault { IfErr result (IsBankFault (view caller.new.pass).seen
        (by_at caller.old.number caller.old.session.levels.commands)) }
    ensures same { (caller.new.session ≡ caller.old.session) × (caller.new.number ≡ caller.old.number) }
{
    if glance.id.number() < oldest {
        return Ok(Verdict::TooOld);
    }
    match show(rt, hall, caller, banks, name, glance) {
        Ok(shown) => Ok(verdict_on(shown)),
        Err(refusal) => refused_on(refusal),
    }
}

/// The verdict on a stored member by the session's snapshot of this name.
fn judge<R: Passing, L: LogDisk, P: PageDisk>(
    rt: &R,
    hall: &Hall<EngineLaw<L, P>>,
    caller: &mut Caller<L, P>,
    banks: u32,
    name: &Name,
    x: Xid,
    mode: Mode,
    oldest: u64,
) -> Result<MemberVerdict, Refusal>
    requires own { IsOf hall.now caller.old.pass }
    requires laid { hall.now.cells ≡ 3 + 4 * (start_of hall.now).banks }
    requires banks { (banks ≡ (start_of hall.now).banks) × (1 ≤ banks) × (banks ≤ 16) }
    requires ready { IsReady (start_of hall.now) (view caller.old.pass) caller.old.number caller.old.session }
    requires named { (k : RegisteredSnapshot) × IsNamed caller.old.session.levels name.now k }
    requires oldest { IsCarried (start_of hall.now) (view caller.old.pass).seen oldest }
    requires from { (start_of hall.now).base.oldest ≤ oldest }
    ensures own { IsOf hall.now caller.new.pass }
    ensures ready { IsReady (start_of hall.now) (view caller.new.pass) caller.new.number caller.new.session }
    ensures went { WentOn caller.old.number [] (view caller.old.pass).seen (view caller.new.pass).seen }
    ensures apart { ApartOrMet (start_of hall.now) (by_at caller.old.number caller.old.session.levels.commands)
        caller.old.session.levels name.now (λ z. z ≡ x.number) (view caller.old.pass).seen (view caller.new.pass).seen }
    ensures adds { Adds (by_at caller.old.number caller.old.session.levels.commands) (MayFault result)
        (view caller.old.pass).seen (view caller.new.pass).seen }
    ensures said { IsTrue P.tells → AreFewIds (view caller.new.pass).seen → (k : RegisteredSnapshot)
        → IsNamed caller.old.session.levels name.now k → IfOk result
        (IsJudgedNormal (start_of hall.now) (view caller.new.pass).seen k (record { x = x; mode = mode })) }
    ensures fault { IfErr result (IsBankFault (view caller.new.pass).seen
        (by_at caller.old.number caller.old.session.levels.commands)) }
    ensures ranges { IfOk result IsOfId }
    ensures same { (caller.new.session ≡ caller.old.session) × (caller.new.number ≡ caller.old.number) }
{
    if x.number < 3 {
        let verdict = verdict_on(x.number != 0);
        let id = lone(x);
        return Ok(MemberVerdict { id, mode, verdict });
    }
    let found = match registered_as(&caller.session.levels, name) {
        Some(registered) => glance_at(&registered.snapshot, x),
        None => unreachable!(),
    };
    match found {
        None => {
            let id = lone(x);
            let verdict = Verdict::TooOld;
            Ok(MemberVerdict { id, mode, verdict })
        }
        Some(glance) => {
            let id = glance.id;
            known(id);
            match judge_glance(rt, hall, caller, banks, name, x, glance, oldest) {
                Ok(verdict) => Ok(MemberVerdict { id, mode, verdict }),
                Err(refusal) => Err(refusal),
            }
        }
    }
}

/// Adds a verdict. Behind those on as many members as a multixact has at most, which can be met over a store that tells
/// nothing alone, it is dropped.
fn add_verdict(into: &mut Vec<MemberVerdict>, verdict: MemberVerdict)
    requires { 64 ≤ vec_capacity into.old }
    ensures pushed { length into.old.items < 64 → into.new.items ≡ into.old.items ++ verdict ∷ [] }
    ensures ranges { AllByRecursion IsOfId into.old.items → IsOfId verdict → AllByRecursion IsOfId into.new.items }
    ensures room { vec_capacity into.new ≡ vec_capacity into.old }
{
    if into.len() < MOST_MEMBERS {
        into.push_reserved(verdict);
    }
}

/// The verdict on the member in a slot, behind those on the slots before it. A slot whose mode no member has counts as
/// unused; it can be met over a store that tells nothing alone.
fn judge_slot<R: Passing, L: LogDisk, P: PageDisk>(
    rt: &R,
    hall: &Hall<EngineLaw<L, P>>,
    caller: &mut Caller<L, P>,
    banks: u32,
    name: &Name,
    slot: Slot,
    oldest: u64,
    into: &mut Vec<MemberVerdict>,
) -> Result<(), Refusal>
    requires own { IsOf hall.now caller.old.pass }
    requires laid { hall.now.cells ≡ 3 + 4 * (start_of hall.now).banks }
    requires banks { (banks ≡ (start_of hall.now).banks) × (1 ≤ banks) × (banks ≤ 16) }
    requires ready { IsReady (start_of hall.now) (view caller.old.pass) caller.old.number caller.old.session }
    requires named { (k : RegisteredSnapshot) × IsNamed caller.old.session.levels name.now k }
    requires oldest { IsCarried (start_of hall.now) (view caller.old.pass).seen oldest }
    requires from { (start_of hall.now).base.oldest ≤ oldest }
    requires room { 64 ≤ vec_capacity into.old }
    ensures own { IsOf hall.now caller.new.pass }
    ensures ready { IsReady (start_of hall.now) (view caller.new.pass) caller.new.number caller.new.session }
    ensures went { WentOn caller.old.number [] (view caller.old.pass).seen (view caller.new.pass).seen }
    ensures apart { ApartOrMet (start_of hall.now) (by_at caller.old.number caller.old.session.levels.commands)
        caller.old.session.levels name.now (IsStoredIn (slot ∷ [])) (view caller.old.pass).seen (view caller.new.pass).seen }
    ensures adds { Adds (by_at caller.old.number caller.old.session.levels.commands) (MayFault result)
        (view caller.old.pass).seen (view caller.new.pass).seen }
    ensures said { IsTrue P.tells → AreFewIds (view caller.new.pass).seen
        → length into.old.items + length (filter_map pair_in (slot ∷ [])) ≤ 64 → (k : RegisteredSnapshot)
        → IsNamed caller.old.session.levels name.now k → OnOk result
        (JudgesSlot (start_of hall.now) (view caller.new.pass).seen k (pair_in slot) into.old.items into.new.items) }
    ensures ranges { AllByRecursion IsOfId into.old.items → AllByRecursion IsOfId into.new.items }
    ensures room { vec_capacity into.new ≡ vec_capacity into.old }
    ensures fault { IfErr result (IsBankFault (view caller.new.pass).seen
        (by_at caller.old.number caller.old.session.levels.commands)) }
    ensures same { (caller.new.session ≡ caller.old.session) × (caller.new.number ≡ caller.old.number) }
{
    match slot {
        Slot::Is { x, mode } => match judge(rt, hall, caller, banks, name, x, mode, oldest) {
            Ok(verdict) => {
                add_verdict(into, verdict);
                Ok(())
            }
            Err(refusal) => Err(refusal),
        },
        Slot::Unused => Ok(()),
        Slot::Odd { .. } => Ok(()),
    }
}

/// The verdicts on the members in these slots, in order: the published oldest id is read once, and then each member is
/// judged.
pub(crate) fn judge_all<R: Passing, L: LogDisk, P: PageDisk>(
    rt: &R,
    hall: &Hall<EngineLaw<L, P>>,
    caller: &mut Caller<L, P>,
    banks: u32,
    name: &Name,
    slots: &[Slot],
    into: &mut Vec<MemberVerdict>,
) -> Result<(), Refusal>
    requires own { IsOf hall.now caller.old.pass }
    requires laid { hall.now.cells ≡ 3 + 4 * (start_of hall.now).banks }
    requires banks { (banks ≡ (start_of hall.now).banks) × (1 ≤ banks) × (banks ≤ 16) }
    requires ready { IsReady (start_of hall.now) (view caller.old.pass) caller.old.number caller.old.session }
    requires named { (k : RegisteredSnapshot) × IsNamed caller.old.session.levels name.now k }
    requires none { into.old.items ≡ [] }
    requires room { 64 ≤ vec_capacity into.old }
    ensures own { IsOf hall.now caller.new.pass }
    ensures ready { IsReady (start_of hall.now) (view caller.new.pass) caller.new.number caller.new.session }
    ensures went { WentOn caller.old.number [] (view caller.old.pass).seen (view caller.new.pass).seen }
    ensures apart { ApartOrMet (start_of hall.now) (by_at caller.old.number caller.old.session.levels.commands)
        caller.old.session.levels name.now (IsStoredIn slots.now) (view caller.old.pass).seen (view caller.new.pass).seen }
    ensures adds { Adds (by_at caller.old.number caller.old.session.levels.commands) (MayFault result)
        (view caller.old.pass).seen (view caller.new.pass).seen }
    ensures said { IsTrue P.tells → AreFewIds (view caller.new.pass).seen
        → length (filter_map pair_in slots.now) ≤ 64 → (k : RegisteredSnapshot)
        → IsNamed caller.old.session.levels name.now k → OnOk result
        (AreJudged (start_of hall.now) (view caller.new.pass).seen k (filter_map pair_in slots.now) into.new.items) }
    ensures fault { IfErr result (IsBankFault (view caller.new.pass).seen
        (by_at caller.old.number caller.old.session.levels.commands)) }
    ensures ranges { AllByRecursion IsOfId into.new.items }
    ensures same { (caller.new.session ≡ caller.old.session) × (caller.new.number ≡ caller.old.number) }
{
    let oldest = read_oldest_word(hall, caller).number();
    let mut place = 0;
    while place < slots.len() {
        let slot = slots[place];
        match judge_slot(rt, hall, caller, banks, name, slot, oldest, into) {
            Ok(()) => {}
            Err(refusal) => return Err(refusal),
        }
        place += 1;
    }
    Ok(())
}
