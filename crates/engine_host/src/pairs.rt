// Two banks of one number at a time.
ghost use Rattle.std.specs.Prelude.{◌≡◌, ◌⊎◌, ◌<◌, false, IfErr, IfOk, IsTrue, OnErr, length, vec_capacity};
ghost use Rattle.tx_events.specs.Base.{IsBase};
ghost use Rattle.tx_events.specs.declared.refusal.Lock.TheVariants as locks;
ghost use Rattle.engine_host.specs.Opening.{AllOnDisk, AllShow, AllShowNothing, Beginning, IsNewMembers, IsNewOffsets, IsNewSubtrans, IsNewXact, ShowMembers, ShowOffsets, ShowStates};
ghost use Rattle.engine_host.specs.Refused.{IsBack, IsFailed, OpensFirst};

use crate::banks::{open_members, open_offsets, open_subtrans, open_xact};
use crate::cluster::Cluster;
use crate::refusal::OpenRefusal;
use crate::volumes::put_back;
use disk_core::PageDisk;
use engine_parts::InPlace;
use slru_bank::{BankRooms, SlruBank};
use store_pages::{MemberPages, OffsetPages, SubtransPages, XactPages};

// Those of pg_xact and of pg_subtrans, over the first volumes that are left. After an error these are back in their
// place.
pub(crate) fn open_states<P: PageDisk + Drop>(
    rooms: &mut BankRooms,
    xact: &mut Vec<P>,
    subtrans: &mut Vec<P>,
    cluster: &Cluster,
    bank: u32,
    removes: bool,
) -> Result<
    (
        InPlace<SlruBank<P, XactPages>>,
        InPlace<SlruBank<P, SubtransPages>>,
    ),
    OpenRefusal,
>
    ghost begins: { Beginning }
    requires base { IsBase cluster.now.base }
    requires inside { bank < cluster.now.banks }
    requires volumes { (0 < length xact.old.items) × (0 < length subtrans.old.items) }
    requires states { IsTrue P.tells → AllShow P.PageDisk (ShowStates cluster.now begins) removes bank xact.old.items }
    requires parents { IsTrue P.tells → AllShowNothing P.PageDisk removes subtrans.old.items }
    requires durable { IsTrue P.tells → removes ≡ false → AllOnDisk P.PageDisk xact.old.items × AllOnDisk P.PageDisk subtrans.old.items }
    ensures new { IfOk result (λ banks. IsNewXact cluster.now begins bank banks.0.value × IsNewSubtrans cluster.now begins bank banks.1.value) }
    ensures opened { IfOk result (λ banks. OpensFirst removes xact.old.items xact.new.items banks.0.value
        × OpensFirst removes subtrans.old.items subtrans.new.items banks.1.value) }
    ensures room { IfOk result (λ banks. (length xact.new.items < vec_capacity xact.new) × (length subtrans.new.items < vec_capacity subtrans.new)) }
    ensures back { OnErr result (IsBack removes xact.old.items xact.new.items × IsBack removes subtrans.old.items subtrans.new.items) }
    ensures capacity { (vec_capacity xact.new ≡ vec_capacity xact.old) × (vec_capacity subtrans.new ≡ vec_capacity subtrans.old) }
    ensures refused { IfErr result (λ refusal. IsFailed P.PageDisk (locks.Xact bank) xact.old.items xact.new.items refusal
        ⊎ IsFailed P.PageDisk (locks.Subtrans bank) subtrans.old.items subtrans.new.items refusal) }
{
    let states = match open_xact(rooms, xact.remove(0), cluster, bank, removes) {
        Ok(store) => store,
        Err((disk, refusal)) => {
            put_back(xact, disk);
            return Err(refusal);
        }
    };
    match open_subtrans(rooms, subtrans.remove(0), cluster, bank, removes) {
        Ok(parents) => Ok((states, parents)),
        Err((disk, refusal)) => {
            put_back(subtrans, disk);
            put_back(xact, states.into_inner().into_disk());
            Err(refusal)
        }
    }
}

// And those of the offsets and of the members.
pub(crate) fn open_multis<P: PageDisk + Drop>(
    rooms: &mut BankRooms,
    offsets: &mut Vec<P>,
    members: &mut Vec<P>,
    cluster: &Cluster,
    bank: u32,
    removes: bool,
) -> Result<
    (
        InPlace<SlruBank<P, OffsetPages>>,
        InPlace<SlruBank<P, MemberPages>>,
    ),
    OpenRefusal,
>
    ghost begins: { Beginning }
    requires inside { bank < cluster.now.banks }
    requires volumes { (0 < length offsets.old.items) × (0 < length members.old.items) }
    requires shown { IsTrue P.tells → AllShow P.PageDisk (ShowOffsets cluster.now begins) removes bank offsets.old.items
        × AllShow P.PageDisk (ShowMembers cluster.now begins) removes bank members.old.items }
    requires durable { IsTrue P.tells → removes ≡ false → AllOnDisk P.PageDisk offsets.old.items × AllOnDisk P.PageDisk members.old.items }
    ensures new { IfOk result (λ banks. IsNewOffsets cluster.now begins bank banks.0.value × IsNewMembers cluster.now begins bank banks.1.value) }
    ensures opened { IfOk result (λ banks. OpensFirst removes offsets.old.items offsets.new.items banks.0.value
        × OpensFirst removes members.old.items members.new.items banks.1.value) }
    ensures room { IfOk result (λ banks. (length offsets.new.items < vec_capacity offsets.new) × (length members.new.items < vec_capacity members.new)) }
    ensures back { OnErr result (IsBack removes offsets.old.items offsets.new.items × IsBack removes members.old.items members.new.items) }
    ensures capacity { (vec_capacity offsets.new ≡ vec_capacity offsets.old) × (vec_capacity members.new ≡ vec_capacity members.old) }
    ensures refused { IfErr result (λ refusal. IsFailed P.PageDisk (locks.Offsets bank) offsets.old.items offsets.new.items refusal
        ⊎ IsFailed P.PageDisk (locks.Members bank) members.old.items members.new.items refusal) }
{
    let first = match open_offsets(rooms, offsets.remove(0), cluster, bank, removes) {
        Ok(store) => store,
        Err((disk, refusal)) => {
            put_back(offsets, disk);
            return Err(refusal);
        }
    };
    match open_members(rooms, members.remove(0), cluster, bank, removes) {
        Ok(second) => Ok((first, second)),
        Err((disk, refusal)) => {
            put_back(members, disk);
            put_back(offsets, first.into_inner().into_disk());
            Err(refusal)
        }
    }
}
