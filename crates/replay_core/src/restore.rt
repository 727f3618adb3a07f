// The volume of a bank shows what a log gives.
ghost use Rattle.std.specs.Prelude.{◌≡◌, ◌≤◌, Err, IsTrue, OnOk};
ghost use Rattle.disk_core.specs.Faults.{HasRisen};
ghost use Rattle.slru_bank.specs.Crash.{CrashLeaves};
ghost use Rattle.tx_events.specs.LifeBase.{committed_in};
ghost use Rattle.replay_core.specs.Redo.{AreNear, IsNamed};
ghost use Rattle.replay_core.specs.Restore.{HasBytesOnDisk, IsWindow, MayRestore, RestoresAll, bytes_on};
ghost use Rattle.replay_multis.specs.declared.refusal.RestoreRefusal.TheVariants.{DiskFault};

use crate::empty::rests_empty;
use crate::restore_bank::restore_bank;
use disk_core::PageDisk;
use replay_multis::{RestoreRefusal, Share};
use slru_bank::BankRooms;
use store_pages::xact_page;
use tx_events::{Counters, Rec};

// The same as below, of a volume that has pages or that records name.
fn restore_present<P: PageDisk + Drop>(
    rooms: &mut BankRooms,
    disk: P,
    recs: &[Rec],
    base: &Counters,
    share: &Share,
) -> (P, Result<(), RestoreRefusal>)
    requires share { 1 ≤ share.now.banks }
    requires near { AreNear base.now.oldest (committed_in recs.now) }
    requires window { IsWindow base.now.oldest base.now.next }
    ensures shows { IsTrue P.tells → OnOk result.1 (RestoresAll (IsNamed share.now base.now.oldest (committed_in recs.now)) base.now.next (bytes_on P.PageDisk disk) (bytes_on P.PageDisk result.0)) }
    ensures durable { IsTrue P.tells → OnOk result.1 (HasBytesOnDisk P.PageDisk result.0) }
    ensures moments { IsTrue P.tells → CrashLeaves (MayRestore (IsNamed share.now base.now.oldest (committed_in recs.now)) base.now.next (bytes_on P.PageDisk disk)) P.images P.moment P.left_at disk result.0 }
    ensures count { P.faults disk ≤ P.faults result.0 }
    ensures fault { result.1 ≡ Err DiskFault → HasRisen (P.faults disk) (P.faults result.0) }
{
    let last = xact_page(base.next.low());
    let cutoff = xact_page(base.oldest.low());
    let mut bank = match rooms.bank(disk, last, cutoff) {
        Ok(bank) => bank,
        Err((disk, _)) => return (disk, Err(RestoreRefusal::Memory)),
    };
    match restore_bank(&mut bank, recs, share, base.oldest, base.next) {
        Ok(()) => (rooms.keep(bank), Ok(())),
        Err(_) => (rooms.keep(bank), Err(RestoreRefusal::DiskFault)),
    }
}

/// The volume of a bank of pg_xact shows the commits of these records and nothing past the next id, and all of that is on
/// the disk. `base` has the counters behind the records. Ids before the oldest one are passed over, and so are aborts. The
/// volume comes back with the outcome; after an error it is restored in part, and the same may be done again. A volume
/// without pages, of which no record names one, is synced alone.
pub fn restore_states<P: PageDisk + Drop>(
    rooms: &mut BankRooms,
    disk: P,
    recs: &[Rec],
    base: &Counters,
    share: &Share,
) -> (P, Result<(), RestoreRefusal>)
    requires share { 1 ≤ share.now.banks }
    requires near { AreNear base.now.oldest (committed_in recs.now) }
    requires window { IsWindow base.now.oldest base.now.next }
    ensures shows { IsTrue P.tells → OnOk result.1 (RestoresAll (IsNamed share.now base.now.oldest (committed_in recs.now)) base.now.next (bytes_on P.PageDisk disk) (bytes_on P.PageDisk result.0)) }
    ensures durable { IsTrue P.tells → OnOk result.1 (HasBytesOnDisk P.PageDisk result.0) }
    // A crash at any moment of the call, and one after it, leaves of each id what was there, or what is to be.
    ensures moments { IsTrue P.tells → CrashLeaves (MayRestore (IsNamed share.now base.now.oldest (committed_in recs.now)) base.now.next (bytes_on P.PageDisk disk)) P.images P.moment P.left_at disk result.0 }
    ensures count { P.faults disk ≤ P.faults result.0 }
    ensures fault { result.1 ≡ Err DiskFault → HasRisen (P.faults disk) (P.faults result.0) }
{
    let mut disk = disk;
    match rests_empty(&mut disk, recs, share, base.oldest) {
        Ok(true) => (disk, Ok(())),
        Ok(false) => restore_present(rooms, disk, recs, base, share),
        Err(_) => (disk, Err(RestoreRefusal::DiskFault)),
    }
}
