// The volume of a bank of offsets shows what a log gives.
ghost use Rattle.std.specs.Prelude.{◌≡◌, ◌≤◌, Err, IsTrue, OnOk};
ghost use Rattle.disk_core.specs.Faults.{HasRisen};
ghost use Rattle.slru_bank.specs.Calls.{TrimsBank, cutoff_of, pages_of};
ghost use Rattle.slru_bank.specs.Crash.{CrashLeaves};
ghost use Rattle.slru_bank.specs.Removal.{ClearsAfter};
ghost use Rattle.store_pages.specs.Layouts.{word_page_of, word_place_of};
ghost use Rattle.tx_events.specs.PageOrder.{Multis, page_precedes};
ghost use Rattle.tx_events.specs.Pages.{offsets_per_page};
ghost use Rattle.replay_multis.specs.Named.{AreMultisNear, IsOffsetByte};
ghost use Rattle.replay_multis.specs.Restore.{HasBytesOnDisk, IsPastMulti, MayBecome, RestoresAll, RestoresBank, bytes_on};
ghost use Rattle.replay_multis.specs.Steps.{MayLeave};
ghost use Rattle.replay_multis.specs.declared.refusal.RestoreRefusal.TheVariants.{DiskFault};

use crate::empty::rests_empty;
use crate::redo_offsets::redo_offsets;
use crate::refusal::RestoreRefusal;
use crate::share::Share;
use disk_core::PageDisk;
use slru_bank::{BankRefusal, BankRooms, SlruBank};
use store_pages::{OffsetPages, offset_page, offset_place};
use tx_events::{FullMulti, Rec};

/// Which multixacts a recovery puts on the pages again, and which it clears.
#[derive(Clone, Copy)]
pub struct OffsetSpan {
    /// The oldest multixact: older ones are passed over.
    pub oldest: FullMulti,
    /// The one from which on offsets are cleared first: what comes there is known from the records alone.
    pub from: FullMulti,
    /// The next one, from which on offsets are cleared last.
    pub next: FullMulti,
}

// Clears the offsets from a multixact on, and each later page (`TrimMultiXact`).
fn clear_offsets<P: PageDisk>(
    bank: &mut SlruBank<P, OffsetPages>,
    from: FullMulti,
) -> Result<(), BankRefusal>
    ensures ok { IsTrue P.tells → OnOk result (ClearsAfter Multis offsets_per_page (word_page_of from) (word_place_of from) (pages_of bank.old) (pages_of bank.new)) }
    ensures bank { TrimsBank (page_precedes Multis offsets_per_page (word_page_of from)) bank.old bank.new result }
{
    let m = from.low();
    bank.clear_after(offset_page(m), 4 * offset_place(m))
}

// A bank's pages show that, and all pages are on the disk.
fn restore_bank<P: PageDisk>(
    bank: &mut SlruBank<P, OffsetPages>,
    recs: &[Rec],
    span: &OffsetSpan,
    share: &Share,
) -> Result<(), BankRefusal>
    requires share { 1 ≤ share.now.banks }
    requires near { AreMultisNear span.now.oldest recs.now }
    requires kept { cutoff_of bank.old ≡ word_page_of span.now.oldest }
    ensures { RestoresBank (IsOffsetByte share.now span.now.oldest recs.now) (IsPastMulti span.now.from) (IsPastMulti span.now.next) bank.old bank.new result }
{
    clear_offsets(bank, span.from)?;
    redo_offsets(bank, recs, share, span.oldest)?;
    clear_offsets(bank, span.next)?;
    bank.flush_all()
}

// The same as below, of a volume that has pages or that records name.
fn restore_present<P: PageDisk + Drop>(
    rooms: &mut BankRooms,
    disk: P,
    recs: &[Rec],
    span: &OffsetSpan,
    share: &Share,
) -> (P, Result<(), RestoreRefusal>)
    requires share { 1 ≤ share.now.banks }
    requires near { AreMultisNear span.now.oldest recs.now }
    ensures shows { IsTrue P.tells → OnOk result.1 (RestoresAll (IsOffsetByte share.now span.now.oldest recs.now) (IsPastMulti span.now.from) (IsPastMulti span.now.next)
        (bytes_on P.PageDisk disk) (bytes_on P.PageDisk result.0)) }
    ensures durable { IsTrue P.tells → OnOk result.1 (HasBytesOnDisk P.PageDisk result.0) }
    ensures moments { IsTrue P.tells → CrashLeaves (MayLeave (MayBecome (IsOffsetByte share.now span.now.oldest recs.now) (IsPastMulti span.now.from) (IsPastMulti span.now.next))
        (bytes_on P.PageDisk disk)) P.images P.moment P.left_at disk result.0 }
    ensures count { P.faults disk ≤ P.faults result.0 }
    ensures fault { result.1 ≡ Err DiskFault → HasRisen (P.faults disk) (P.faults result.0) }
{
    let cutoff = offset_page(span.oldest.low());
    let mut bank = match rooms.bank(disk, cutoff, cutoff) {
        Ok(bank) => bank,
        Err((disk, _)) => return (disk, Err(RestoreRefusal::Memory)),
    };
    match restore_bank(&mut bank, recs, span, share) {
        Ok(()) => (rooms.keep(bank), Ok(())),
        Err(_) => (rooms.keep(bank), Err(RestoreRefusal::DiskFault)),
    }
}

/// The volume of a bank of offsets shows the multixacts of these records from the oldest one on, from `from` on nothing else,
/// and nothing from the next one on; what it has before `from` else is left. All of that is on the disk. The volume comes
/// back with the outcome; after an error it is restored in part, and the same may be done again. A volume without pages, of
/// which no record names one, is synced alone.
pub fn restore_offsets<P: PageDisk + Drop>(
    rooms: &mut BankRooms,
    disk: P,
    recs: &[Rec],
    span: &OffsetSpan,
    share: &Share,
) -> (P, Result<(), RestoreRefusal>)
    requires share { 1 ≤ share.now.banks }
    requires near { AreMultisNear span.now.oldest recs.now }
    ensures shows { IsTrue P.tells → OnOk result.1 (RestoresAll (IsOffsetByte share.now span.now.oldest recs.now) (IsPastMulti span.now.from) (IsPastMulti span.now.next)
        (bytes_on P.PageDisk disk) (bytes_on P.PageDisk result.0)) }
    ensures durable { IsTrue P.tells → OnOk result.1 (HasBytesOnDisk P.PageDisk result.0) }
    // A crash at any moment of the call, and one after it, leaves of each byte what was there, or what is to be.
    ensures moments { IsTrue P.tells → CrashLeaves (MayLeave (MayBecome (IsOffsetByte share.now span.now.oldest recs.now) (IsPastMulti span.now.from) (IsPastMulti span.now.next))
        (bytes_on P.PageDisk disk)) P.images P.moment P.left_at disk result.0 }
    ensures count { P.faults disk ≤ P.faults result.0 }
    ensures fault { result.1 ≡ Err DiskFault → HasRisen (P.faults disk) (P.faults result.0) }
{
    let mut disk = disk;
    match rests_empty(&mut disk, recs) {
        Ok(true) => (disk, Ok(())),
        Ok(false) => restore_present(rooms, disk, recs, span, share),
        Err(_) => (disk, Err(RestoreRefusal::DiskFault)),
    }
}
