//! The slots of a pinned multixact's members.
ghost use Rattle.std.specs.Prelude.{◌≡◌, ◌+◌, ◌-◌, ◌*◌, ◌^◌, ◌<◌, ◌≤◌, [], IfErr, IsTrue, OnOk, length, vec_capacity};
ghost use Rattle.hall.specs.Calls.{view, IsOf, start_of};
ghost use Rattle.tx_events.specs.Multis.{free_offset, oldest_offset};
ghost use Rattle.tx_core.specs.MultiEntries.{AreFewMultis, multi_history};
ghost use Rattle.engine_parts.specs.Adding.{Adds, MayFault};
ghost use Rattle.engine_parts.specs.Sessions.{IsReady, by_at};
ghost use Rattle.engine_parts.specs.Steps.{WentMulti};
ghost use Rattle.multi_banks.specs.Members.{SharePage};
ghost use Rattle.multi_sections.specs.Pinnings.{Pins};
ghost use Rattle.xact_reads.specs.Apart.{StaysApart};
ghost use Rattle.xact_reads.specs.Multis.{AreItsSlots, AreReadFrom, IsMultiFault, IsNotRead, WasPinned};

use crate::spans::{ends_of, offset_in_full, slots_in};
use bank_stores::Slot;
use disk_core::{LogDisk, PageDisk};
use engine_parts::{Caller, EngineLaw, Passing};
use hall::Hall;
use multi_banks::read_members;
use multi_store::Held;
use slru_bank::BankRefusal;
use store_pages::{bank_of, member_page};
use tx_events::{Lock, Refusal};

/// How many of these slots lie on the page of the first one; behind them the rest lies on one page, as a page has at
/// least 1,036 slots, on the last page of a lap.
fn on_page(offset: u64, count: u32) -> u32
    requires some { (1 ≤ count) × (count ≤ 65) }
    ensures some { (1 ≤ result) × (result ≤ count) }
    ensures here { SharePage offset result }
    ensures behind { result < count → SharePage (offset + result) (count - result) }
{
    let low = offset & 0xffff_ffff;
    let page = 1636 - low % 1636;
    let lap = 0x1_0000_0000 - low;
    let left = if page < lap { page } else { lap };
    if left < u64::from(count) {
        left as u32
    } else {
        count
    }
}

/// Reads slots that share a page, behind those that were read: one critical section of a bank of members. A page that
/// is cut, which can be over a store that tells nothing alone, has none.
fn read_page<R: Passing, L: LogDisk, P: PageDisk>(
    rt: &R,
    hall: &Hall<EngineLaw<L, P>>,
    caller: &mut Caller<L, P>,
    banks: u32,
    offset: u64,
    count: u32,
    into: &mut Vec<Slot>,
) -> Result<(), Refusal>
    requires own { IsOf hall.now caller.old.pass }
    requires laid { hall.now.cells ≡ 3 + 4 * (start_of hall.now).banks }
    requires banks { (banks ≡ (start_of hall.now).banks) × (1 ≤ banks) × (banks ≤ 16) }
    requires ready { IsReady (start_of hall.now) (view caller.old.pass) caller.old.number caller.old.session }
    requires some { 1 ≤ count }
    requires share { SharePage offset count }
    requires room { length into.old.items + count ≤ vec_capacity into.old }
    ensures own { IsOf hall.now caller.new.pass }
    ensures ready { IsReady (start_of hall.now) (view caller.new.pass) caller.new.number caller.new.session }
    ensures went { WentMulti caller.old.number [] (view caller.old.pass).seen (view caller.new.pass).seen }
    ensures apart { StaysApart caller.old.number (view caller.old.pass).seen (view caller.new.pass).seen }
    ensures adds { Adds (by_at caller.old.number caller.old.session.levels.commands) (MayFault result)
        (view caller.old.pass).seen (view caller.new.pass).seen }
    ensures slots { IsTrue P.tells → AreFewMultis (view caller.new.pass).seen
        → oldest_offset (start_of hall.now).base.oldest_offset (multi_history (view caller.new.pass).seen) ≤ offset
        → offset ≤ free_offset (start_of hall.now).base.offset (multi_history (view caller.old.pass).seen)
        → OnOk result (AreReadFrom (start_of hall.now) (view caller.old.pass).seen offset count
        into.old.items into.new.items) }
    ensures long { length into.new.items ≤ length into.old.items + count }
    ensures room { vec_capacity into.new ≡ vec_capacity into.old }
    ensures fault { IfErr result (IsMultiFault (view caller.new.pass).seen
        (by_at caller.old.number caller.old.session.levels.commands)) }
    ensures same { (caller.new.session ≡ caller.old.session) × (caller.new.number ≡ caller.old.number) }
{
    let bank = bank_of(member_page((offset & 0xffff_ffff) as u32), banks);
    match read_members(rt, hall, caller, bank, offset, count, into) {
        Ok(()) => Ok(()),
        Err(BankRefusal::DiskFault) => Err(Refusal::DiskFault {
            lock: Lock::Members(bank),
        }),
        Err(BankRefusal::Cut { .. }) => Ok(()),
    }
}

/// Reads so many slots from an offset on, page by page.
fn read_slots<R: Passing, L: LogDisk, P: PageDisk>(
    rt: &R,
    hall: &Hall<EngineLaw<L, P>>,
    caller: &mut Caller<L, P>,
    banks: u32,
    offset: u64,
    count: u32,
    into: &mut Vec<Slot>,
) -> Result<(), Refusal>
    requires own { IsOf hall.now caller.old.pass }
    requires laid { hall.now.cells ≡ 3 + 4 * (start_of hall.now).banks }
    requires banks { (banks ≡ (start_of hall.now).banks) × (1 ≤ banks) × (banks ≤ 16) }
    requires ready { IsReady (start_of hall.now) (view caller.old.pass) caller.old.number caller.old.session }
    requires some { (1 ≤ count) × (count ≤ 65) }
    requires small { offset + 65 < 2 ^ 64 }
    requires room { length into.old.items + count ≤ vec_capacity into.old }
    ensures own { IsOf hall.now caller.new.pass }
    ensures ready { IsReady (start_of hall.now) (view caller.new.pass) caller.new.number caller.new.session }
    ensures went { WentMulti caller.old.number [] (view caller.old.pass).seen (view caller.new.pass).seen }
    ensures apart { StaysApart caller.old.number (view caller.old.pass).seen (view caller.new.pass).seen }
    ensures adds { Adds (by_at caller.old.number caller.old.session.levels.commands) (MayFault result)
        (view caller.old.pass).seen (view caller.new.pass).seen }
    ensures slots { IsTrue P.tells → AreFewMultis (view caller.new.pass).seen
        → oldest_offset (start_of hall.now).base.oldest_offset (multi_history (view caller.new.pass).seen) ≤ offset
        → offset + count ≤ free_offset (start_of hall.now).base.offset (multi_history (view caller.old.pass).seen)
        → OnOk result (AreReadFrom (start_of hall.now) (view caller.old.pass).seen offset count
        into.old.items into.new.items) }
    ensures long { length into.new.items ≤ length into.old.items + count }
    ensures fault { IfErr result (IsMultiFault (view caller.new.pass).seen
        (by_at caller.old.number caller.old.session.levels.commands)) }
    ensures same { (caller.new.session ≡ caller.old.session) × (caller.new.number ≡ caller.old.number) }
{
    let here = on_page(offset, count);
    match read_page(rt, hall, caller, banks, offset, here, into) {
        Ok(()) => {}
        Err(refusal) => return Err(refusal),
    }
    if here == count {
        return Ok(());
    }
    let behind = offset + u64::from(here);
    match read_page(rt, hall, caller, banks, behind, count - here, into) {
        Ok(()) => Ok(()),
        Err(refusal) => Err(refusal),
    }
}

/// Reads the slots of a pinned multixact's members.
pub(crate) fn gather<R: Passing, L: LogDisk, P: PageDisk>(
    rt: &R,
    hall: &Hall<EngineLaw<L, P>>,
    caller: &mut Caller<L, P>,
    banks: u32,
    held: &Held,
    into: &mut Vec<Slot>,
) -> Result<(), Refusal>
    requires own { IsOf hall.now caller.old.pass }
    requires laid { hall.now.cells ≡ 3 + 4 * (start_of hall.now).banks }
    requires banks { (banks ≡ (start_of hall.now).banks) × (1 ≤ banks) × (banks ≤ 16) }
    requires ready { IsReady (start_of hall.now) (view caller.old.pass) caller.old.number caller.old.session }
    requires pinned { WasPinned (start_of hall.now) (view caller.old.pass).seen held.now }
    requires pins { Pins caller.old.number held.now.multi (view caller.old.pass).seen }
    requires none { into.old.items ≡ [] }
    requires room { 65 ≤ vec_capacity into.old }
    ensures own { IsOf hall.now caller.new.pass }
    ensures ready { IsReady (start_of hall.now) (view caller.new.pass) caller.new.number caller.new.session }
    ensures went { WentMulti caller.old.number [] (view caller.old.pass).seen (view caller.new.pass).seen }
    ensures apart { StaysApart caller.old.number (view caller.old.pass).seen (view caller.new.pass).seen }
    ensures adds { Adds (by_at caller.old.number caller.old.session.levels.commands) (MayFault result)
        (view caller.old.pass).seen (view caller.new.pass).seen }
    ensures slots { IsTrue P.tells → AreFewMultis (view caller.new.pass).seen → OnOk result
        (AreItsSlots (start_of hall.now) (view caller.new.pass).seen held.now.multi into.new.items) }
    ensures long { length into.new.items ≤ 65 }
    ensures unread { IfErr result (IsNotRead (start_of hall.now) (IsTrue P.tells) (view caller.new.pass).seen
        (by_at caller.old.number caller.old.session.levels.commands) held.now) }
    ensures same { (caller.new.session ≡ caller.old.session) × (caller.new.number ≡ caller.old.number) }
{
    let ends = match ends_of(rt, hall, caller, banks, held) {
        Ok(ends) => ends,
        Err(refusal) => return Err(refusal),
    };
    let count = slots_in(ends);
    if count == 0 {
        return Ok(());
    }
    let offset = offset_in_full(held.end, ends.begin);
    match read_slots(rt, hall, caller, banks, offset, count, into) {
        Ok(()) => Ok(()),
        Err(refusal) => Err(refusal),
    }
}
