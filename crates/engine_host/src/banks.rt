//! The banks of a life that begins (`BootStrapCLOG` and `StartupCLOG` of `clog.c`, `BootStrapSUBTRANS` and
//! `StartupSUBTRANS` of `subtrans.c`, `BootStrapMultiXact` and `StartupMultiXact` of `multixact.c`).
ghost use Rattle.std.specs.Prelude.{◌≡◌, ◌⊎◌, ◌%◌, ◌^◌, ◌<◌, ◌≤◌, ℕ, IfErr, IfOk, IsOk, IsTrue, OnErr, OnOk, cond, false};
ghost use Rattle.disk_core.specs.Faults.{HasRisen};
ghost use Rattle.disk_core.specs.Pages.{zero_page};
ghost use Rattle.slru_bank.specs.Calls.{IsDurable, cutoff_of, faults_of, last_page, pages_of, volume_of};
ghost use Rattle.store_pages.specs.Layouts.{multi_before};
ghost use Rattle.tx_events.specs.Pages.{offset_page};
ghost use Rattle.tx_events.specs.Base.{IsBase};
ghost use Rattle.tx_events.specs.declared.refusal.Lock.TheVariants as locks;
ghost use Rattle.engine_host.specs.declared.refusal.OpenRefusal.TheVariants as refusals;
ghost use Rattle.engine_host.specs.Opening.{Beginning, IsNewMembers, IsNewOffsets, IsNewSubtrans, IsNewXact, IsOnDisk, ShowMembers, ShowNothing, ShowOffsets, ShowStates, bytes_left};

use crate::cluster::Cluster;
use crate::refusal::OpenRefusal;
use disk_core::PageDisk;
use engine_parts::InPlace;
use slru_bank::{BankRefusal, BankRooms, SlruBank};
use store_pages::{
    MemberPages, OFFSETS_PER_PAGE, OffsetPages, PageRule, SubtransPages, XactPages,
    member_page_in_full, offset_page_in_full, subtrans_page, xact_page,
};
use tx_events::{FullMulti, Lock};

// How many pages of offsets are stored, and of members.
const OFFSET_PAGES: u64 = 2_097_152;

const MEMBER_PAGES: u64 = 2_625_286;

// In a new cluster all pages are removed, and that is synced, so that no crash brings them back.
fn empty<P: PageDisk, O: PageRule>(
    store: &mut SlruBank<P, O>,
    removes: bool,
) -> Result<(), BankRefusal>
    ensures left { IsTrue P.tells → OnOk result ((q : ℕ) → q < 2 ^ 32 → pages_of store.new q ≡ cond removes zero_page (pages_of store.old q)) }
    ensures durable { IsTrue P.tells → (removes ≡ false → IsDurable store.old) → OnOk result (IsDurable store.new) }
    ensures last { last_page store.new ≡ last_page store.old }
    ensures cutoff { cutoff_of store.new ≡ cutoff_of store.old }
    ensures count { faults_of store.old ≤ faults_of store.new }
    ensures fault { OnErr result (HasRisen (faults_of store.old) (faults_of store.new)) }
    ensures same { removes ≡ false → (store.new ≡ store.old) × IsOk result }
{
    if !removes {
        return Ok(());
    }
    store.clear_all()?;
    store.flush_all()?;
    Ok(())
}

// A bank over a volume, with this last page and this cutoff. In a new cluster the pages that the volume has are removed
// first.
fn open_bank<P: PageDisk + Drop, O: PageRule>(
    rooms: &mut BankRooms,
    disk: P,
    last: u32,
    cutoff: u32,
    lock: Lock,
    removes: bool,
) -> Result<InPlace<SlruBank<P, O>>, (P, OpenRefusal)>
    ensures pages { IsTrue P.tells → IfOk result (λ store. (q : ℕ) → q < 2 ^ 32 → pages_of store.value q ≡ bytes_left P.PageDisk removes disk q) }
    ensures durable { IsTrue P.tells → (removes ≡ false → IsOnDisk P.PageDisk disk) → IfOk result (λ store. IsDurable store.value) }
    ensures last { IfOk result (λ store. last_page store.value ≡ last) }
    ensures cutoff { IfOk result (λ store. cutoff_of store.value ≡ cutoff) }
    ensures count { IfOk result (λ store. P.faults disk ≤ faults_of store.value) }
    ensures same { removes ≡ false → IfOk result (λ store. volume_of store.value ≡ disk) }
    ensures same_err { removes ≡ false → IfErr result (λ e. e.0 ≡ disk) }
    ensures refused { IfErr result (λ e. (e.1 ≡ refusals.Memory) ⊎ ((e.1 ≡ refusals.DiskFault lock) × HasRisen (P.faults disk) (P.faults e.0))) }
{
    let mut store = match rooms.bank::<P, O>(disk, last, cutoff) {
        Ok(store) => store,
        Err((disk, _)) => return Err((disk, OpenRefusal::Memory)),
    };
    match empty(&mut store, removes) {
        Ok(()) => Ok(InPlace { value: store }),
        Err(_) => Err((store.into_disk(), OpenRefusal::DiskFault { lock })),
    }
}

// A bank of pg_xact. The page of the next id counts as made.
pub(crate) fn open_xact<P: PageDisk + Drop>(
    rooms: &mut BankRooms,
    disk: P,
    cluster: &Cluster,
    bank: u32,
    removes: bool,
) -> Result<InPlace<SlruBank<P, XactPages>>, (P, OpenRefusal)>
    ghost begins: { Beginning }
    requires base { IsBase cluster.now.base }
    requires inside { bank < cluster.now.banks }
    requires shows { IsTrue P.tells → ShowStates cluster.now begins bank (bytes_left P.PageDisk removes disk) }
    requires durable { IsTrue P.tells → removes ≡ false → IsOnDisk P.PageDisk disk }
    ensures new { IfOk result (λ store. IsNewXact cluster.now begins bank store.value) }
    ensures count { IfOk result (λ store. P.faults disk ≤ faults_of store.value) }
    ensures same { removes ≡ false → IfOk result (λ store. volume_of store.value ≡ disk) }
    ensures same_err { removes ≡ false → IfErr result (λ e. e.0 ≡ disk) }
    ensures refused { IfErr result (λ e. (e.1 ≡ refusals.Memory)
        ⊎ ((e.1 ≡ refusals.DiskFault (locks.Xact bank)) × HasRisen (P.faults disk) (P.faults e.0))) }
{
    let last = xact_page(cluster.base.next.low());
    let cutoff = xact_page(cluster.base.oldest.low());
    open_bank(rooms, disk, last, cutoff, Lock::Xact(bank), removes)
}

// So a bank of pg_subtrans.
pub(crate) fn open_subtrans<P: PageDisk + Drop>(
    rooms: &mut BankRooms,
    disk: P,
    cluster: &Cluster,
    bank: u32,
    removes: bool,
) -> Result<InPlace<SlruBank<P, SubtransPages>>, (P, OpenRefusal)>
    ghost begins: { Beginning }
    requires base { IsBase cluster.now.base }
    requires inside { bank < cluster.now.banks }
    requires shows { IsTrue P.tells → ShowNothing (bytes_left P.PageDisk removes disk) }
    requires durable { IsTrue P.tells → removes ≡ false → IsOnDisk P.PageDisk disk }
    ensures new { IfOk result (λ store. IsNewSubtrans cluster.now begins bank store.value) }
    ensures count { IfOk result (λ store. P.faults disk ≤ faults_of store.value) }
    ensures same { removes ≡ false → IfOk result (λ store. volume_of store.value ≡ disk) }
    ensures same_err { removes ≡ false → IfErr result (λ e. e.0 ≡ disk) }
    ensures refused { IfErr result (λ e. (e.1 ≡ refusals.Memory)
        ⊎ ((e.1 ≡ refusals.DiskFault (locks.Subtrans bank)) × HasRisen (P.faults disk) (P.faults e.0))) }
{
    let last = subtrans_page(cluster.base.next.low());
    let cutoff = subtrans_page(cluster.base.next.retreat().low());
    open_bank(rooms, disk, last, cutoff, Lock::Subtrans(bank), removes)
}

// The page as it is stored from which on offsets are kept: that of the multixact before the oldest one.
fn first_offset_page(oldest: FullMulti) -> u32
    ensures { result ≡ offset_page (multi_before oldest) % 2 ^ 21 }
{
    let before = oldest.number().saturating_sub(1);
    let last = if before % 4_294_967_296 == 0 {
        before.saturating_sub(1)
    } else {
        before
    };
    (last / u64::from(OFFSETS_PER_PAGE) % OFFSET_PAGES) as u32
}

// A bank of the offsets of multixacts. The page of the next one counts as made.
pub(crate) fn open_offsets<P: PageDisk + Drop>(
    rooms: &mut BankRooms,
    disk: P,
    cluster: &Cluster,
    bank: u32,
    removes: bool,
) -> Result<InPlace<SlruBank<P, OffsetPages>>, (P, OpenRefusal)>
    ghost begins: { Beginning }
    requires inside { bank < cluster.now.banks }
    requires shows { IsTrue P.tells → ShowOffsets cluster.now begins bank (bytes_left P.PageDisk removes disk) }
    requires durable { IsTrue P.tells → removes ≡ false → IsOnDisk P.PageDisk disk }
    ensures new { IfOk result (λ store. IsNewOffsets cluster.now begins bank store.value) }
    ensures count { IfOk result (λ store. P.faults disk ≤ faults_of store.value) }
    ensures same { removes ≡ false → IfOk result (λ store. volume_of store.value ≡ disk) }
    ensures same_err { removes ≡ false → IfErr result (λ e. e.0 ≡ disk) }
    ensures refused { IfErr result (λ e. (e.1 ≡ refusals.Memory)
        ⊎ ((e.1 ≡ refusals.DiskFault (locks.Offsets bank)) × HasRisen (P.faults disk) (P.faults e.0))) }
{
    let last = (offset_page_in_full(cluster.base.multi) % OFFSET_PAGES) as u32;
    let cutoff = first_offset_page(cluster.base.oldest_multi);
    open_bank(rooms, disk, last, cutoff, Lock::Offsets(bank), removes)
}

// And one of their members.
pub(crate) fn open_members<P: PageDisk + Drop>(
    rooms: &mut BankRooms,
    disk: P,
    cluster: &Cluster,
    bank: u32,
    removes: bool,
) -> Result<InPlace<SlruBank<P, MemberPages>>, (P, OpenRefusal)>
    ghost begins: { Beginning }
    requires inside { bank < cluster.now.banks }
    requires shows { IsTrue P.tells → ShowMembers cluster.now begins bank (bytes_left P.PageDisk removes disk) }
    requires durable { IsTrue P.tells → removes ≡ false → IsOnDisk P.PageDisk disk }
    ensures new { IfOk result (λ store. IsNewMembers cluster.now begins bank store.value) }
    ensures count { IfOk result (λ store. P.faults disk ≤ faults_of store.value) }
    ensures same { removes ≡ false → IfOk result (λ store. volume_of store.value ≡ disk) }
    ensures same_err { removes ≡ false → IfErr result (λ e. e.0 ≡ disk) }
    ensures refused { IfErr result (λ e. (e.1 ≡ refusals.Memory)
        ⊎ ((e.1 ≡ refusals.DiskFault (locks.Members bank)) × HasRisen (P.faults disk) (P.faults e.0))) }
{
    let last = (member_page_in_full(cluster.base.offset) % MEMBER_PAGES) as u32;
    let cutoff = (member_page_in_full(cluster.base.oldest_offset) % MEMBER_PAGES) as u32;
    open_bank(rooms, disk, last, cutoff, Lock::Members(bank), removes)
}
