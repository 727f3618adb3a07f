// The volumes of the banks, one after another, each in its place.
ghost use Rattle.std.specs.Prelude.{◌≡◌, ◌+◌, ◌<◌, ◌≤◌, ◌^◌, ◌++◌, ◌∷◌, [], length, vec_capacity};
ghost use Rattle.std.specs.List.{SwappedAt};
ghost use Rattle.tx_events.specs.declared.refusal.Lock.TheVariants as locks;
ghost use Rattle.tx_events.specs.LifeBase.{committed_in};
ghost use Rattle.replay_multis.specs.Named.{AreMembersBelow, AreMultisNear};
ghost use Rattle.replay_core.specs.Redo.{AreNear};
ghost use Rattle.replay_core.specs.Restore.{IsWindow};
ghost use Rattle.replay_core.specs.Banks.{ChangesAt, EmptiesBanks, Emptying, IsRefusalAt, RestoresBanks, Restoring, members_become, members_leave, offsets_become, offsets_leave, states_become, states_leave};

use crate::refusal::RecoverRefusal;
use crate::restore::restore_states;
use disk_core::PageDisk;
use replay_multis::{
    MemberSpan, OffsetSpan, RestoreRefusal, Share, restore_members, restore_offsets, sync_if_empty,
};
use slru_bank::BankRooms;
use store_pages::{SubtransPages, subtrans_page};
use tx_events::{Counters, Lock, Rec};

// Puts a volume back in its place, which the last one took meanwhile.
fn put_back<P: PageDisk + Drop>(volumes: &mut Vec<P>, at: usize, disk: P)
    requires within { at ≤ length volumes.old.items }
    requires room { length volumes.old.items < vec_capacity volumes.old }
    ensures count { length volumes.new.items ≡ length volumes.old.items + 1 }
    ensures swapped { SwappedAt (volumes.old.items ++ disk ∷ []) volumes.new.items at (length volumes.old.items) }
{
    let last = volumes.len();
    volumes.push_reserved(disk);
    volumes.swap(at, last);
}

// What a refusal of the bank behind a lock means.
fn refusal_at(lock: Lock, refusal: RestoreRefusal) -> RecoverRefusal
    ensures { IsRefusalAt lock refusal result }
{
    match refusal {
        RestoreRefusal::DiskFault => RecoverRefusal::DiskFault { lock },
        RestoreRefusal::Memory => RecoverRefusal::Memory,
    }
}

// One volume of pg_xact is restored.
fn restore_states_at<P: PageDisk + Drop>(
    rooms: &mut BankRooms,
    volumes: &mut Vec<P>,
    recs: &[Rec],
    base: &Counters,
    share: &Share,
) -> Result<(), RecoverRefusal>
    requires share { 1 ≤ share.now.banks }
    requires inside { share.now.bank < length volumes.old.items }
    requires near { AreNear base.now.oldest (committed_in recs.now) }
    requires window { IsWindow base.now.oldest base.now.next }
    ensures { ChangesAt (Restoring P.PageDisk (locks.Xact share.now.bank) (states_leave share.now.banks recs.now base.now share.now.bank) (states_become share.now.banks recs.now base.now share.now.bank) result)
        share.now.bank volumes.old.items volumes.new.items }
{
    let at = share.bank as usize;
    let disk = volumes.swap_remove(at);
    let (disk, outcome) = restore_states(rooms, disk, recs, base, share);
    put_back(volumes, at, disk);
    match outcome {
        Ok(()) => Ok(()),
        Err(refusal) => Err(refusal_at(Lock::Xact(share.bank), refusal)),
    }
}

/// All volumes of pg_xact are restored, one after another.
pub(crate) fn restore_all_states<P: PageDisk + Drop>(
    rooms: &mut BankRooms,
    volumes: &mut Vec<P>,
    recs: &[Rec],
    base: &Counters,
) -> Result<(), RecoverRefusal>
    requires few { length volumes.old.items ≤ 16 }
    requires near { AreNear base.now.oldest (committed_in recs.now) }
    requires window { IsWindow base.now.oldest base.now.next }
    ensures { RestoresBanks P.PageDisk (λ bank. locks.Xact bank) (states_leave (length volumes.old.items) recs.now base.now) (states_become (length volumes.old.items) recs.now base.now) volumes.old.items volumes.new.items result }
{
    let banks = volumes.len() as u32;
    for bank in 0..banks {
        restore_states_at(rooms, volumes, recs, base, &Share { banks, bank })?;
    }
    Ok(())
}

// One volume of the offsets is restored.
fn restore_offsets_at<P: PageDisk + Drop>(
    rooms: &mut BankRooms,
    volumes: &mut Vec<P>,
    recs: &[Rec],
    span: &OffsetSpan,
    share: &Share,
) -> Result<(), RecoverRefusal>
    requires share { 1 ≤ share.now.banks }
    requires inside { share.now.bank < length volumes.old.items }
    requires near { AreMultisNear span.now.oldest recs.now }
    ensures { ChangesAt (Restoring P.PageDisk (locks.Offsets share.now.bank) (offsets_leave share.now.banks recs.now span.now share.now.bank) (offsets_become share.now.banks recs.now span.now share.now.bank) result)
        share.now.bank volumes.old.items volumes.new.items }
{
    let at = share.bank as usize;
    let disk = volumes.swap_remove(at);
    let (disk, outcome) = restore_offsets(rooms, disk, recs, span, share);
    put_back(volumes, at, disk);
    match outcome {
        Ok(()) => Ok(()),
        Err(refusal) => Err(refusal_at(Lock::Offsets(share.bank), refusal)),
    }
}

/// All volumes of the offsets are restored, one after another.
pub(crate) fn restore_all_offsets<P: PageDisk + Drop>(
    rooms: &mut BankRooms,
    volumes: &mut Vec<P>,
    recs: &[Rec],
    span: &OffsetSpan,
) -> Result<(), RecoverRefusal>
    requires few { length volumes.old.items ≤ 16 }
    requires near { AreMultisNear span.now.oldest recs.now }
    ensures { RestoresBanks P.PageDisk (λ bank. locks.Offsets bank) (offsets_leave (length volumes.old.items) recs.now span.now) (offsets_become (length volumes.old.items) recs.now span.now) volumes.old.items volumes.new.items result }
{
    let banks = volumes.len() as u32;
    for bank in 0..banks {
        restore_offsets_at(rooms, volumes, recs, span, &Share { banks, bank })?;
    }
    Ok(())
}

// One volume of the members is restored.
fn restore_members_at<P: PageDisk + Drop>(
    rooms: &mut BankRooms,
    volumes: &mut Vec<P>,
    recs: &[Rec],
    span: &MemberSpan,
    share: &Share,
) -> Result<(), RecoverRefusal>
    requires share { 1 ≤ share.now.banks }
    requires inside { share.now.bank < length volumes.old.items }
    requires below { AreMembersBelow span.now.next recs.now }
    requires window { span.now.next + 2 ^ 15 ≤ span.now.oldest_offset + 2 ^ 31 }
    requires small { span.now.next < 2 ^ 63 }
    ensures { ChangesAt (Restoring P.PageDisk (locks.Members share.now.bank) (members_leave share.now.banks recs.now span.now share.now.bank) (members_become share.now.banks recs.now span.now share.now.bank) result)
        share.now.bank volumes.old.items volumes.new.items }
{
    let at = share.bank as usize;
    let disk = volumes.swap_remove(at);
    let (disk, outcome) = restore_members(rooms, disk, recs, span, share);
    put_back(volumes, at, disk);
    match outcome {
        Ok(()) => Ok(()),
        Err(refusal) => Err(refusal_at(Lock::Members(share.bank), refusal)),
    }
}

/// All volumes of the members are restored, one after another.
pub(crate) fn restore_all_members<P: PageDisk + Drop>(
    rooms: &mut BankRooms,
    volumes: &mut Vec<P>,
    recs: &[Rec],
    span: &MemberSpan,
) -> Result<(), RecoverRefusal>
    requires few { length volumes.old.items ≤ 16 }
    requires below { AreMembersBelow span.now.next recs.now }
    requires window { span.now.next + 2 ^ 15 ≤ span.now.oldest_offset + 2 ^ 31 }
    requires small { span.now.next < 2 ^ 63 }
    ensures { RestoresBanks P.PageDisk (λ bank. locks.Members bank) (members_leave (length volumes.old.items) recs.now span.now) (members_become (length volumes.old.items) recs.now span.now) volumes.old.items volumes.new.items result }
{
    let banks = volumes.len() as u32;
    for bank in 0..banks {
        restore_members_at(rooms, volumes, recs, span, &Share { banks, bank })?;
    }
    Ok(())
}

// Removes all pages of a volume of pg_subtrans, and syncs.
fn empty_present<P: PageDisk + Drop>(
    rooms: &mut BankRooms,
    disk: P,
    base: &Counters,
    lock: Lock,
) -> (P, Result<(), RecoverRefusal>)
    ensures { Emptying P.PageDisk lock result.1 disk result.0 }
{
    let page = subtrans_page(base.next.low());
    let mut store = match rooms.bank::<P, SubtransPages>(disk, page, page) {
        Ok(store) => store,
        Err((disk, _)) => return (disk, Err(RecoverRefusal::Memory)),
    };
    let fault = RecoverRefusal::DiskFault { lock };
    if let Err(_) = store.clear_all() {
        return (rooms.keep(store), Err(fault));
    }
    match store.flush_all() {
        Ok(()) => (rooms.keep(store), Ok(())),
        Err(_) => (rooms.keep(store), Err(fault)),
    }
}

// The same of a volume that may have none.
fn empty<P: PageDisk + Drop>(
    rooms: &mut BankRooms,
    disk: P,
    base: &Counters,
    lock: Lock,
) -> (P, Result<(), RecoverRefusal>)
    ensures { Emptying P.PageDisk lock result.1 disk result.0 }
{
    let mut disk = disk;
    match sync_if_empty(&mut disk) {
        Ok(true) => (disk, Ok(())),
        Ok(false) => empty_present(rooms, disk, base, lock),
        Err(_) => (disk, Err(RecoverRefusal::DiskFault { lock })),
    }
}

fn empty_at<P: PageDisk + Drop>(
    rooms: &mut BankRooms,
    volumes: &mut Vec<P>,
    base: &Counters,
    bank: u32,
) -> Result<(), RecoverRefusal>
    requires inside { bank < length volumes.old.items }
    ensures { ChangesAt (Emptying P.PageDisk (locks.Subtrans bank) result) bank volumes.old.items volumes.new.items }
{
    let at = bank as usize;
    let disk = volumes.swap_remove(at);
    let (disk, outcome) = empty(rooms, disk, base, Lock::Subtrans(bank));
    put_back(volumes, at, disk);
    outcome
}

/// All volumes of pg_subtrans are emptied, one after another: nothing is read of them that an earlier life left
/// (`StartupSUBTRANS` of `subtrans.c`).
pub(crate) fn empty_all<P: PageDisk + Drop>(
    rooms: &mut BankRooms,
    volumes: &mut Vec<P>,
    base: &Counters,
) -> Result<(), RecoverRefusal>
    requires few { length volumes.old.items ≤ 16 }
    ensures { EmptiesBanks P.PageDisk (λ bank. locks.Subtrans bank) volumes.old.items volumes.new.items result }
{
    let banks = volumes.len() as u32;
    for bank in 0..banks {
        empty_at(rooms, volumes, base, bank)?;
    }
    Ok(())
}
