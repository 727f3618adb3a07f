//! Where the members of a pinned multixact lie.
ghost use Rattle.std.specs.Prelude.{◌≡◌, ◌+◌, ◌*◌, ◌^◌, ◌≤◌, [], IfErr, IfOk, IsTrue, OnOk};
ghost use Rattle.hall.specs.Calls.{view, IsOf, start_of};
ghost use Rattle.tx_events.specs.Multis.{oldest_multi};
ghost use Rattle.tx_core.specs.MultiEntries.{AreFewMultis, multi_history};
ghost use Rattle.engine_parts.specs.Adding.{Adds, MayFault};
ghost use Rattle.engine_parts.specs.Sessions.{IsReady, by_at};
ghost use Rattle.engine_parts.specs.Steps.{WentMulti};
ghost use Rattle.multi_banks.specs.Offsets.{IsOffsetRead, WasTold};
ghost use Rattle.multi_sections.specs.Pinnings.{Pins};
ghost use Rattle.xact_reads.specs.Apart.{StaysApart};
ghost use Rattle.xact_reads.specs.Multis.{AreEnds, IsMultiFault, IsNotRead, WasPinned, full_upto, slots_between};

use bank_sections::stall;
use disk_core::{LogDisk, PageDisk};
use engine_parts::{Caller, EngineLaw, Passing};
use hall::Hall;
use multi_banks::read_offset;
use multi_store::Held;
use slru_bank::BankRefusal;
use store_pages::{bank_of, offset_page};
use tx_events::{FullMulti, Lock, Refusal};

/// The low halves of the offsets at which the members of a multixact begin and end.
#[derive(Clone, Copy)]
pub(crate) struct Ends {
    pub begin: u32,
    pub end: u32,
}

/// The low half of the offset of a multixact, as the pages of offsets have it: one critical section of a bank. None
/// where none stands. Waits for ever where the page is cut, which can't be of a pinned one or the one behind it in a
/// life of few multixacts.
fn offset_of<R: Passing, L: LogDisk, P: PageDisk>(
    rt: &R,
    hall: &Hall<EngineLaw<L, P>>,
    caller: &mut Caller<L, P>,
    banks: u32,
    multi: FullMulti,
) -> Result<Option<u32>, Refusal>
    requires own { IsOf hall.now caller.old.pass }
    requires laid { hall.now.cells ≡ 3 + 4 * (start_of hall.now).banks }
    requires banks { (banks ≡ (start_of hall.now).banks) × (1 ≤ banks) × (banks ≤ 16) }
    requires ready { IsReady (start_of hall.now) (view caller.old.pass) caller.old.number caller.old.session }
    ensures own { IsOf hall.now caller.new.pass }
    ensures ready { IsReady (start_of hall.now) (view caller.new.pass) caller.new.number caller.new.session }
    ensures went { WentMulti caller.old.number [] (view caller.old.pass).seen (view caller.new.pass).seen }
    ensures apart { StaysApart caller.old.number (view caller.old.pass).seen (view caller.new.pass).seen }
    ensures adds { Adds (by_at caller.old.number caller.old.session.levels.commands) (MayFault result)
        (view caller.old.pass).seen (view caller.new.pass).seen }
    ensures offset { IsTrue P.tells → oldest_multi (start_of hall.now).base.oldest_multi (multi_history
        (view caller.new.pass).seen) ≤ multi
        → IfOk result (IsOffsetRead (start_of hall.now) (view caller.new.pass).seen multi) }
    ensures begun { IsTrue P.tells → AreFewMultis (view caller.new.pass).seen → OnOk result (WasTold (start_of hall.now)) }
    ensures fault { IfErr result (λ refusal. IsMultiFault (view caller.new.pass).seen
        (by_at caller.old.number caller.old.session.levels.commands) refusal) }
    ensures same { (caller.new.session ≡ caller.old.session) × (caller.new.number ≡ caller.old.number) }
{
    let bank = bank_of(offset_page(multi.low()), banks);
    match read_offset(rt, hall, caller, bank, multi) {
        Ok(found) => Ok(found),
        Err(BankRefusal::DiskFault) => Err(Refusal::DiskFault {
            lock: Lock::Offsets(bank),
        }),
        Err(BankRefusal::Cut { .. }) => {
            stall(rt);
            unreachable!()
        }
    }
}

/// Where the members of a pinned multixact begin and end: at its offset and at that of the one behind it, or at the
/// free offset of the pin where it is the last one (`GetMultiXactIdMembers` of
/// `src/backend/access/transam/multixact.c`, which waits where this answers `NotYet`).
pub(crate) fn ends_of<R: Passing, L: LogDisk, P: PageDisk>(
    rt: &R,
    hall: &Hall<EngineLaw<L, P>>,
    caller: &mut Caller<L, P>,
    banks: u32,
    held: &Held,
) -> Result<Ends, Refusal>
    requires own { IsOf hall.now caller.old.pass }
    requires laid { hall.now.cells ≡ 3 + 4 * (start_of hall.now).banks }
    requires banks { (banks ≡ (start_of hall.now).banks) × (1 ≤ banks) × (banks ≤ 16) }
    requires ready { IsReady (start_of hall.now) (view caller.old.pass) caller.old.number caller.old.session }
    requires pinned { WasPinned (start_of hall.now) (view caller.old.pass).seen held.now }
    requires pins { Pins caller.old.number held.now.multi (view caller.old.pass).seen }
    ensures own { IsOf hall.now caller.new.pass }
    ensures ready { IsReady (start_of hall.now) (view caller.new.pass) caller.new.number caller.new.session }
    ensures went { WentMulti caller.old.number [] (view caller.old.pass).seen (view caller.new.pass).seen }
    ensures apart { StaysApart caller.old.number (view caller.old.pass).seen (view caller.new.pass).seen }
    ensures adds { Adds (by_at caller.old.number caller.old.session.levels.commands) (MayFault result)
        (view caller.old.pass).seen (view caller.new.pass).seen }
    ensures ends { IsTrue P.tells → AreFewMultis (view caller.new.pass).seen
        → IfOk result (AreEnds (start_of hall.now) (view caller.new.pass).seen held.now) }
    ensures unread { IfErr result (IsNotRead (start_of hall.now) (IsTrue P.tells) (view caller.new.pass).seen
        (by_at caller.old.number caller.old.session.levels.commands) held.now) }
    ensures same { (caller.new.session ≡ caller.old.session) × (caller.new.number ≡ caller.old.number) }
{
    let begin = match offset_of(rt, hall, caller, banks, held.multi) {
        Ok(Some(low)) => low,
        Ok(None) => return Err(Refusal::NotYet { multi: held.multi }),
        Err(refusal) => return Err(refusal),
    };
    if held.last {
        let end = (held.end % 0x1_0000_0000) as u32;
        return Ok(Ends { begin, end });
    }
    let next = held.multi.advance();
    match offset_of(rt, hall, caller, banks, next) {
        Ok(Some(end)) => Ok(Ends { begin, end }),
        Ok(None) => Err(Refusal::NotYet { multi: next }),
        Err(refusal) => Err(refusal),
    }
}

/// The greatest offset of this low half that isn't past the end. Over a store that tells nothing there may be none:
/// then the half itself.
pub(crate) fn offset_in_full(end: u64, low: u32) -> u64
    ensures value { result ≡ full_upto end low }
    ensures upto { result ≤ end + 2 ^ 32 }
{
    let half = end & 0xffff_ffff;
    let back = (half + 0x1_0000_0000 - u64::from(low)) & 0xffff_ffff;
    if back <= end {
        end - back
    } else {
        u64::from(low)
    }
}

/// How many slots lie between these ends, at most 65.
pub(crate) fn slots_in(ends: Ends) -> u32
    ensures { result ≡ slots_between ends }
{
    let between = (u64::from(ends.end) + 0x1_0000_0000 - u64::from(ends.begin)) & 0xffff_ffff;
    if between < 65 { between as u32 } else { 65 }
}
