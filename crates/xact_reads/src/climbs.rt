//! The climb from an id over the parents in pg_subtrans.
ghost use Rattle.std.specs.Prelude.{◌≡◌, ◌+◌, ◌*◌, ◌^◌, ◌<◌, ◌≤◌, [], IfErr, IfOk, IfSome, IsTrue};
ghost use Rattle.hall.specs.Calls.{view, IsOf, start_of};
ghost use Rattle.engine_parts.specs.Adding.{Adds, MayFault};
ghost use Rattle.engine_parts.specs.Sessions.{IsReady, by_at};
ghost use Rattle.engine_parts.specs.Steps.{WentOn};
ghost use Rattle.bank_sections.specs.Reads.{IsParentRead};
ghost use Rattle.bank_sections.specs.Faults.{IsSubtransFault};
ghost use Rattle.xact_reads.specs.Apart.{StaysApart};
ghost use Rattle.xact_reads.specs.Readings.{IsTopOf};

use bank_sections::{read_parent, stall};
use disk_core::{LogDisk, PageDisk};
use engine_parts::{Caller, EngineLaw, Passing};
use hall::Hall;
use slru_bank::BankRefusal;
use store_pages::{bank_of, subtrans_page};
use tx_events::{FullXid, Lock, Refusal};

/// The parent where it is below its child, as each that was set is.
pub(crate) fn below(x: FullXid, parent: Option<FullXid>) -> Option<FullXid>
    ensures below { IfSome result (λ y. y < x) }
    ensures kept { IfSome parent (λ y. y < x) → result ≡ parent }
{
    if let Some(found) = parent {
        if found < x {
            return Some(found);
        }
    }
    None
}

/// The parent of an id, as pg_subtrans has it: one critical section of a bank. None where none was set. Waits for ever
/// where the page is cut, which can't be in a life of few ids where the id isn't before the xmin of a live snapshot.
fn parent_of<R: Passing, L: LogDisk, P: PageDisk>(
    rt: &R,
    hall: &Hall<EngineLaw<L, P>>,
    caller: &mut Caller<L, P>,
    banks: u32,
    x: FullXid,
) -> Result<Option<FullXid>, Refusal>
    requires own { IsOf hall.now caller.old.pass }
    requires laid { hall.now.cells ≡ 3 + 4 * (start_of hall.now).banks }
    requires banks { (banks ≡ (start_of hall.now).banks) × (1 ≤ banks) × (banks ≤ 16) }
    requires ready { IsReady (start_of hall.now) (view caller.old.pass) caller.old.number caller.old.session }
    requires from { 3 ≤ x }
    requires to { x < 2 ^ 63 }
    ensures own { IsOf hall.now caller.new.pass }
    ensures ready { IsReady (start_of hall.now) (view caller.new.pass) caller.new.number caller.new.session }
    ensures went { WentOn caller.old.number [] (view caller.old.pass).seen (view caller.new.pass).seen }
    ensures apart { StaysApart caller.old.number (view caller.old.pass).seen (view caller.new.pass).seen }
    ensures adds { Adds (by_at caller.old.number caller.old.session.levels.commands) (MayFault result)
        (view caller.old.pass).seen (view caller.new.pass).seen }
    ensures below { IfOk result (λ parent. IfSome parent (λ y. y < x)) }
    ensures parent { IsTrue P.tells
        → IfOk result (λ parent. IsParentRead (start_of hall.now) (view caller.new.pass).seen x parent) }
    ensures fault { IfErr result (λ refusal. IsSubtransFault (view caller.new.pass).seen
        (by_at caller.old.number caller.old.session.levels.commands) refusal) }
    ensures same { (caller.new.session ≡ caller.old.session) × (caller.new.number ≡ caller.old.number) }
{
    let bank = bank_of(subtrans_page(x.low()), banks);
    match read_parent(rt, hall, caller, bank, x) {
        Ok(parent) => Ok(below(x, parent)),
        Err(BankRefusal::DiskFault) => Err(Refusal::DiskFault {
            lock: Lock::Subtrans(bank),
        }),
        Err(BankRefusal::Cut { .. }) => {
            stall(rt);
            unreachable!()
        }
    }
}

/// The topmost parent of an id, or its first ancestor before the xmin (`SubTransGetTopmostTransaction` of
/// `src/backend/access/transam/subtrans.c`).
pub(crate) fn climb<R: Passing, L: LogDisk, P: PageDisk>(
    rt: &R,
    hall: &Hall<EngineLaw<L, P>>,
    caller: &mut Caller<L, P>,
    banks: u32,
    xmin: FullXid,
    x: FullXid,
) -> Result<FullXid, Refusal>
    requires own { IsOf hall.now caller.old.pass }
    requires laid { hall.now.cells ≡ 3 + 4 * (start_of hall.now).banks }
    requires banks { (banks ≡ (start_of hall.now).banks) × (1 ≤ banks) × (banks ≤ 16) }
    requires ready { IsReady (start_of hall.now) (view caller.old.pass) caller.old.number caller.old.session }
    requires from { 3 ≤ xmin }
    requires to { x < 2 ^ 63 }
    ensures own { IsOf hall.now caller.new.pass }
    ensures ready { IsReady (start_of hall.now) (view caller.new.pass) caller.new.number caller.new.session }
    ensures went { WentOn caller.old.number [] (view caller.old.pass).seen (view caller.new.pass).seen }
    ensures apart { StaysApart caller.old.number (view caller.old.pass).seen (view caller.new.pass).seen }
    ensures adds { Adds (by_at caller.old.number caller.old.session.levels.commands) (MayFault result)
        (view caller.old.pass).seen (view caller.new.pass).seen }
    ensures top { IsTrue P.tells → IfOk result (λ topmost.
        IsTopOf (start_of hall.now) (view caller.old.pass).seen (view caller.new.pass).seen xmin x topmost) }
    ensures fault { IfErr result (λ refusal. IsSubtransFault (view caller.new.pass).seen
        (by_at caller.old.number caller.old.session.levels.commands) refusal) }
    ensures same { (caller.new.session ≡ caller.old.session) × (caller.new.number ≡ caller.old.number) }
{
    let mut top = x;
    while top >= xmin {
        let found = match parent_of(rt, hall, caller, banks, top) {
            Ok(found) => found,
            Err(refusal) => return Err(refusal),
        };
        match found {
            Some(parent) => top = parent,
            None => return Ok(top),
        }
    }
    Ok(top)
}
