//! The offset of a multixact is set.
ghost use Rattle.std.specs.Prelude.{◌≡◌, ◌%◌, ◌<◌, ◌≤◌, IfErr, OnOk};
ghost use Rattle.hall.specs.Calls.{view, start_of};
ghost use Rattle.tx_events.specs.Ids.{low_half};
ghost use Rattle.tx_events.specs.Pages.{offset_page};
ghost use Rattle.engine_parts.specs.Adding.{MayFault};
ghost use Rattle.engine_parts.specs.Calls.{MayStep};
ghost use Rattle.engine_parts.specs.Sessions.{by_at};
ghost use Rattle.multi_makes.specs.Pending.{IsMultiFault};
ghost use Rattle.multi_makes.specs.Slots.{HasBegun, IsOffsetPageMade, MayBegin};
ghost use Rattle.multi_makes.specs.Visits.{Visited};

use crate::cuts::pass_cut;
use disk_core::{LogDisk, PageDisk};
use engine_parts::{Caller, EngineLaw, Passing};
use hall::Hall;
use multi_banks::{make_offset_page, record_offset};
use slru_bank::BankRefusal;
use store_pages::{bank_of, offset_page};
use tx_events::{FullMulti, Lock, Refusal};

/// The bank of a multixact's offset.
fn offsets_bank(multi: FullMulti, banks: u32) -> u32
    requires { 1 ≤ banks }
    ensures bank { result ≡ offset_page (low_half multi) % banks }
    ensures within { result < banks }
{
    bank_of(offset_page(multi.low()), banks)
}

/// Sets the offset on its page, which was made (`RecordNewMultiXact` of `src/backend/access/transam/multixact.c`).
fn set_begin<R: Passing, L: LogDisk, P: PageDisk>(
    rt: &R,
    hall: &Hall<EngineLaw<L, P>>,
    caller: &mut Caller<L, P>,
    banks: u32,
    multi: FullMulti,
    offset: u64,
) -> Result<(), Refusal>
    requires step { MayStep hall.now banks caller.old }
    requires made { IsOffsetPageMade (start_of hall.now) (view caller.old.pass).seen multi }
    requires may { MayBegin (start_of hall.now) (view caller.old.pass).seen caller.old.number multi offset }
    ensures visited { Visited hall.now banks (MayFault result) caller.old caller.new }
    ensures session { caller.new.session ≡ caller.old.session }
    ensures begins { OnOk result (HasBegun (start_of hall.now) (view caller.new.pass).seen multi offset) }
    ensures fault { IfErr result (IsMultiFault (view caller.new.pass).seen
        (by_at caller.old.number caller.old.session.levels.commands)) }
{
    let bank = offsets_bank(multi, banks);
    match record_offset(rt, hall, caller, bank, multi, offset) {
        Ok(()) => Ok(()),
        Err(BankRefusal::DiskFault) => Err(Refusal::DiskFault {
            lock: Lock::Offsets(bank),
        }),
        Err(BankRefusal::Cut { .. }) => {
            pass_cut(rt, hall, caller, banks);
            Ok(())
        }
    }
}

/// Makes the page of the offset of a multixact that the session recorded, all of whose members stand, and sets it. The
/// page is made as one past the last made one (`ExtendMultiXactOffset`); where it was made before, nothing is wiped.
pub(crate) fn make_begin<R: Passing, L: LogDisk, P: PageDisk>(
    rt: &R,
    hall: &Hall<EngineLaw<L, P>>,
    caller: &mut Caller<L, P>,
    banks: u32,
    multi: FullMulti,
    offset: u64,
) -> Result<(), Refusal>
    requires step { MayStep hall.now banks caller.old }
    requires may { MayBegin (start_of hall.now) (view caller.old.pass).seen caller.old.number multi offset }
    ensures visited { Visited hall.now banks (MayFault result) caller.old caller.new }
    ensures session { caller.new.session ≡ caller.old.session }
    ensures begins { OnOk result (HasBegun (start_of hall.now) (view caller.new.pass).seen multi offset) }
    ensures fault { IfErr result (IsMultiFault (view caller.new.pass).seen
        (by_at caller.old.number caller.old.session.levels.commands)) }
{
    let bank = offsets_bank(multi, banks);
    match make_offset_page(rt, hall, caller, bank, multi) {
        Ok(()) => set_begin(rt, hall, caller, banks, multi, offset),
        Err(BankRefusal::DiskFault) => Err(Refusal::DiskFault {
            lock: Lock::Offsets(bank),
        }),
        Err(BankRefusal::Cut { .. }) => {
            pass_cut(rt, hall, caller, banks);
            Ok(())
        }
    }
}
