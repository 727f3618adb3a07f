// The volume of a bank of members shows what a log gives.
ghost use Rattle.std.specs.Prelude.{◌≡◌, ◌+◌, ◌<◌, ◌≤◌, ◌^◌, Err, IsTrue, OnOk};
ghost use Rattle.disk_core.specs.Faults.{HasRisen};
ghost use Rattle.slru_bank.specs.Calls.{TrimsBank, cutoff_of, pages_of};
ghost use Rattle.slru_bank.specs.Crash.{CrashLeaves};
ghost use Rattle.slru_bank.specs.Removal.{ClearsAfter};
ghost use Rattle.store_pages.specs.Layouts.{member_page_of, member_place_of};
ghost use Rattle.tx_events.specs.PageOrder.{Offsets, page_precedes};
ghost use Rattle.tx_events.specs.Pages.{members_per_page};
ghost use Rattle.replay_multis.specs.Named.{AreMembersBelow, IsMemberByte};
ghost use Rattle.replay_multis.specs.Restore.{HasBytesOnDisk, IsPastOffset, MayBecome, RestoresAll, RestoresBank, bytes_on};
ghost use Rattle.replay_multis.specs.Steps.{MayLeave};
ghost use Rattle.replay_multis.specs.declared.refusal.RestoreRefusal.TheVariants.{DiskFault};

use crate::empty::rests_empty;
use crate::redo_members::{MemberSpan, redo_members};
use crate::redo_offsets::low_offset;
use crate::refusal::RestoreRefusal;
use crate::share::Share;
use disk_core::PageDisk;
use slru_bank::{BankRefusal, BankRooms, SlruBank};
use store_pages::{MemberPages, id_position, member_page};
use tx_events::Rec;

// Clears the members from an offset on, and each later page (`TrimMultiXact`). The modes in front of the first cleared id
// stay.
fn clear_members<P: PageDisk>(
    bank: &mut SlruBank<P, MemberPages>,
    from: u64,
) -> Result<(), BankRefusal>
    ensures ok { IsTrue P.tells → OnOk result (ClearsAfter Offsets members_per_page (member_page_of from) (member_place_of from) (pages_of bank.old) (pages_of bank.new)) }
    ensures bank { TrimsBank (page_precedes Offsets members_per_page (member_page_of from)) bank.old bank.new result }
{
    let low = low_offset(from);
    bank.clear_after(member_page(low), id_position(low))
}

// A bank's pages show that, and all pages are on the disk.
fn restore_bank<P: PageDisk>(
    bank: &mut SlruBank<P, MemberPages>,
    recs: &[Rec],
    span: &MemberSpan,
    share: &Share,
) -> Result<(), BankRefusal>
    requires share { 1 ≤ share.now.banks }
    requires below { AreMembersBelow span.now.next recs.now }
    requires window { span.now.next + 2 ^ 15 ≤ span.now.oldest_offset + 2 ^ 31 }
    requires small { span.now.next < 2 ^ 63 }
    requires kept { cutoff_of bank.old ≡ member_page_of span.now.oldest_offset }
    ensures { RestoresBank (IsMemberByte share.now span.now.oldest span.now.oldest_offset recs.now) (IsPastOffset span.now.from) (IsPastOffset span.now.next) bank.old bank.new result }
{
    clear_members(bank, span.from)?;
    redo_members(bank, recs, span, share)?;
    clear_members(bank, span.next)?;
    bank.flush_all()
}

// The same as below, of a volume that has pages or that records name.
fn restore_present<P: PageDisk + Drop>(
    rooms: &mut BankRooms,
    disk: P,
    recs: &[Rec],
    span: &MemberSpan,
    share: &Share,
) -> (P, Result<(), RestoreRefusal>)
    requires share { 1 ≤ share.now.banks }
    requires below { AreMembersBelow span.now.next recs.now }
    requires window { span.now.next + 2 ^ 15 ≤ span.now.oldest_offset + 2 ^ 31 }
    requires small { span.now.next < 2 ^ 63 }
    ensures shows { IsTrue P.tells → OnOk result.1 (RestoresAll (IsMemberByte share.now span.now.oldest span.now.oldest_offset recs.now) (IsPastOffset span.now.from) (IsPastOffset span.now.next)
        (bytes_on P.PageDisk disk) (bytes_on P.PageDisk result.0)) }
    ensures durable { IsTrue P.tells → OnOk result.1 (HasBytesOnDisk P.PageDisk result.0) }
    ensures moments { IsTrue P.tells → CrashLeaves (MayLeave (MayBecome (IsMemberByte share.now span.now.oldest span.now.oldest_offset recs.now) (IsPastOffset span.now.from) (IsPastOffset span.now.next))
        (bytes_on P.PageDisk disk)) P.images P.moment P.left_at disk result.0 }
    ensures count { P.faults disk ≤ P.faults result.0 }
    ensures fault { result.1 ≡ Err DiskFault → HasRisen (P.faults disk) (P.faults result.0) }
{
    let cutoff = member_page(low_offset(span.oldest_offset));
    let mut bank = match rooms.bank(disk, cutoff, cutoff) {
        Ok(bank) => bank,
        Err((disk, _)) => return (disk, Err(RestoreRefusal::Memory)),
    };
    match restore_bank(&mut bank, recs, span, share) {
        Ok(()) => (rooms.keep(bank), Ok(())),
        Err(_) => (rooms.keep(bank), Err(RestoreRefusal::DiskFault)),
    }
}

/// The volume of a bank of members shows those of the multixacts of these records from the oldest one on, from the offset
/// `from` on nothing else, and nothing from the next free one on; what it has before `from` else is left. All of that is on
/// the disk. A mode may stay in front of the first cleared id in its group of four. The volume comes back with the outcome;
/// after an error it is restored in part, and the same may be done again. A volume without pages, of which no record
/// names one, is synced alone.
pub fn restore_members<P: PageDisk + Drop>(
    rooms: &mut BankRooms,
    disk: P,
    recs: &[Rec],
    span: &MemberSpan,
    share: &Share,
) -> (P, Result<(), RestoreRefusal>)
    requires share { 1 ≤ share.now.banks }
    requires below { AreMembersBelow span.now.next recs.now }
    requires window { span.now.next + 2 ^ 15 ≤ span.now.oldest_offset + 2 ^ 31 }
    requires small { span.now.next < 2 ^ 63 }
    ensures shows { IsTrue P.tells → OnOk result.1 (RestoresAll (IsMemberByte share.now span.now.oldest span.now.oldest_offset recs.now) (IsPastOffset span.now.from) (IsPastOffset span.now.next)
        (bytes_on P.PageDisk disk) (bytes_on P.PageDisk result.0)) }
    ensures durable { IsTrue P.tells → OnOk result.1 (HasBytesOnDisk P.PageDisk result.0) }
    // A crash at any moment of the call, and one after it, leaves of each byte what was there, or what is to be.
    ensures moments { IsTrue P.tells → CrashLeaves (MayLeave (MayBecome (IsMemberByte share.now span.now.oldest span.now.oldest_offset recs.now) (IsPastOffset span.now.from) (IsPastOffset span.now.next))
        (bytes_on P.PageDisk disk)) P.images P.moment P.left_at disk result.0 }
    ensures count { P.faults disk ≤ P.faults result.0 }
    ensures fault { result.1 ≡ Err DiskFault → HasRisen (P.faults disk) (P.faults result.0) }
{
    let mut disk = disk;
    match rests_empty(&mut disk, recs) {
        Ok(true) => (disk, Ok(())),
        Ok(false) => restore_present(rooms, disk, recs, span, share),
        Err(_) => (disk, Err(RestoreRefusal::DiskFault)),
    }
}
