//! The members of a multixact are set, page by page.
ghost use Rattle.std.specs.Prelude.{◌≡◌, ◌+◌, ◌%◌, ◌^◌, ◌<◌, ◌≤◌, IfErr, OnOk, length};
ghost use Rattle.hall.specs.Calls.{view, start_of};
ghost use Rattle.tx_events.specs.Ids.{low_half};
ghost use Rattle.tx_events.specs.Pages.{member_page};
ghost use Rattle.engine_parts.specs.Adding.{MayFault};
ghost use Rattle.engine_parts.specs.Calls.{MayStep};
ghost use Rattle.engine_parts.specs.Sessions.{by_at};
ghost use Rattle.multi_banks.specs.Members.{SharePage};
ghost use Rattle.multi_makes.specs.Pending.{AreSlotsDone, IsMultiFault};
ghost use Rattle.multi_makes.specs.Slots.{AreRecordedAt, IsPageMade};
ghost use Rattle.multi_makes.specs.Visits.{Visited};

use crate::cuts::pass_cut;
use disk_core::{LogDisk, PageDisk};
use engine_parts::{Caller, EngineLaw, Passing};
use hall::Hall;
use multi_banks::{make_member_page, record_members};
use slru_bank::BankRefusal;
use store_pages::{bank_of, member_page, member_page_in_full};
use tx_events::{Lock, Member, Refusal};

/// The bank of the member at an offset.
fn members_bank(offset: u64, banks: u32) -> u32
    requires { 1 ≤ banks }
    ensures bank { result ≡ member_page (low_half offset) % banks }
    ensures within { result < banks }
{
    bank_of(member_page((offset & 0xffff_ffff) as u32), banks)
}

/// How many of so many members from an offset on share its page.
fn run_on_page(offset: u64, count: usize) -> usize
    requires some { 1 ≤ count }
    requires small { offset + count < 2 ^ 64 }
    ensures some { 1 ≤ result }
    ensures within { result ≤ count }
    ensures share { SharePage offset result }
{
    let page = member_page_in_full(offset);
    let mut run = 1;
    while run < count {
        if member_page_in_full(offset + run as u64) != page {
            return run;
        }
        run += 1;
    }
    run
}

/// Sets members that share a page which was made (`RecordNewMultiXact` of `src/backend/access/transam/multixact.c`).
fn set_run<R: Passing, L: LogDisk, P: PageDisk>(
    rt: &R,
    hall: &Hall<EngineLaw<L, P>>,
    caller: &mut Caller<L, P>,
    banks: u32,
    offset: u64,
    members: &[Member],
) -> Result<(), Refusal>
    requires step { MayStep hall.now banks caller.old }
    requires some { 1 ≤ length members.now }
    requires share { SharePage offset (length members.now) }
    requires made { IsPageMade (start_of hall.now) (view caller.old.pass).seen offset }
    requires recorded { AreRecordedAt (view caller.old.pass).seen caller.old.number offset members.now }
    ensures visited { Visited hall.now banks (MayFault result) caller.old caller.new }
    ensures session { caller.new.session ≡ caller.old.session }
    ensures slots { OnOk result (AreSlotsDone (start_of hall.now) (view caller.new.pass).seen offset members.now) }
    ensures fault { IfErr result (IsMultiFault (view caller.new.pass).seen
        (by_at caller.old.number caller.old.session.levels.commands)) }
{
    let bank = members_bank(offset, banks);
    match record_members(rt, hall, caller, bank, offset, members) {
        Ok(()) => Ok(()),
        Err(BankRefusal::DiskFault) => Err(Refusal::DiskFault {
            lock: Lock::Members(bank),
        }),
        Err(BankRefusal::Cut { .. }) => {
            pass_cut(rt, hall, caller, banks);
            Ok(())
        }
    }
}

/// Makes the page of members that share it, and sets them. The page is made as one past the last made one
/// (`ExtendMultiXactMember`); where it was made before, nothing is wiped.
fn make_run<R: Passing, L: LogDisk, P: PageDisk>(
    rt: &R,
    hall: &Hall<EngineLaw<L, P>>,
    caller: &mut Caller<L, P>,
    banks: u32,
    offset: u64,
    members: &[Member],
) -> Result<(), Refusal>
    requires step { MayStep hall.now banks caller.old }
    requires some { 1 ≤ length members.now }
    requires share { SharePage offset (length members.now) }
    requires recorded { AreRecordedAt (view caller.old.pass).seen caller.old.number offset members.now }
    ensures visited { Visited hall.now banks (MayFault result) caller.old caller.new }
    ensures session { caller.new.session ≡ caller.old.session }
    ensures slots { OnOk result (AreSlotsDone (start_of hall.now) (view caller.new.pass).seen offset members.now) }
    ensures fault { IfErr result (IsMultiFault (view caller.new.pass).seen
        (by_at caller.old.number caller.old.session.levels.commands)) }
{
    let bank = members_bank(offset, banks);
    match make_member_page(rt, hall, caller, bank, offset) {
        Ok(()) => set_run(rt, hall, caller, banks, offset, members),
        Err(BankRefusal::DiskFault) => Err(Refusal::DiskFault {
            lock: Lock::Members(bank),
        }),
        Err(BankRefusal::Cut { .. }) => {
            pass_cut(rt, hall, caller, banks);
            Ok(())
        }
    }
}

/// Sets all members of a multixact that the session recorded, those of a page at once.
pub(crate) fn set_members<R: Passing, L: LogDisk, P: PageDisk>(
    rt: &R,
    hall: &Hall<EngineLaw<L, P>>,
    caller: &mut Caller<L, P>,
    banks: u32,
    offset: u64,
    members: &[Member],
) -> Result<(), Refusal>
    requires step { MayStep hall.now banks caller.old }
    requires small { offset + length members.now < 2 ^ 64 }
    requires recorded { AreRecordedAt (view caller.old.pass).seen caller.old.number offset members.now }
    ensures visited { Visited hall.now banks (MayFault result) caller.old caller.new }
    ensures session { caller.new.session ≡ caller.old.session }
    ensures slots { OnOk result (AreSlotsDone (start_of hall.now) (view caller.new.pass).seen offset members.now) }
    ensures fault { IfErr result (IsMultiFault (view caller.new.pass).seen
        (by_at caller.old.number caller.old.session.levels.commands)) }
{
    let mut done = 0;
    while done < members.len() {
        let first = offset + done as u64;
        let run = run_on_page(first, members.len() - done);
        match make_run(rt, hall, caller, banks, first, &members[done..done + run]) {
            Ok(()) => done += run,
            Err(refusal) => return Err(refusal),
        }
    }
    Ok(())
}
