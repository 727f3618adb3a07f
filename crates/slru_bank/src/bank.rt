// A bank: up to 16 buffers over a volume of pages. Each call first brings its page to the front; what it changes stands in a
// buffer until the buffer is taken for another page, or all are flushed.
ghost use Rattle.std.specs.Prelude.{◌≡◌, ◌≢◌, ◌⊎◌, ℕ, ◌+◌, ◌-◌, ◌<◌, ◌≤◌, ◌^◌, Bool, true, false, List, ◌∷◌, length, take, drop, slice_index, slice_set, bit_and, bit_or, OnOk, OnErr, IsOk, IsTrue, Some, None, IfOk, IfErr, IfSome, Ok, Err, cond, ◌&&◌, is_ok, IsErr, MatchBool};
ghost use Rattle.std.proofs.Props.{props};
ghost use Rattle.disk_core.specs.Faults.{CountsFault, HasRisen};
ghost use Rattle.disk_core.specs.Images.{Only};
ghost use Rattle.disk_core.specs.Pages.{Pages, page_bytes, zero_page};
ghost use Rattle.tx_events.specs.PageOrder.{is_cut, page_precedes};
ghost use Rattle.slru_bank.specs.Bank.{buffered, map_of, AllEmpty, Distinct, AllAgree, FirstHolds, PutsPage, OthersStay, masked, placed, IsPage, StaysAPage, Distinct-prop, AllAgree-prop};
ghost use Rattle.slru_bank.specs.Crash.{SameMap, CrashLeaves, IsMixture, IsMixtureOrGone};
ghost use Rattle.slru_bank.specs.Removal.{removes, later_cutoff, MayDrop, Drops, ClearsAfter, AllAbsent};
ghost use Rattle.slru_bank.specs.declared.refusal.BankRefusal.TheVariants.{Cut, DiskFault};

use crate::BankRefusal;
use crate::buffer::Buffer;
use crate::buffers::{
    blank_first, clear_first, first_buffer, make_page, put_first, read_first_bytes, set_first,
    touch, write_pages,
};
use crate::removal::{Removal, blank_removed, empty_removed, later_of, lies_before, remove_pages};
use crate::rows::PageSpan;
use disk_core::{Failed, Memory, PageDisk};
use std::alloc::{AllocError, Global};
use std::marker::PhantomData;
use store_pages::PageRule;

/// What a bank has besides its volume. It lies behind a box, which goes on from bank to bank (`BankRooms`).
#[derive(Drop)]
pub(crate) struct Room {
    /// The last page that was made (`latest_page_number`).
    pub(crate) last: u32,
    /// Segments wholly before it are cut.
    pub(crate) cutoff: u32,
    /// The one used last first. There are up to 16, each made when a page first needs it.
    pub(crate) buffers: Vec<Buffer>,
}

/// Page buffers over a volume, one bank of a store (of `SlruSharedData`). It is seen as a map from pages to bytes, with
/// the last made page and a cutoff.
#[derive(Drop)]
pub struct SlruBank<P: PageDisk, O: PageRule> {
    disk: P,
    rule: PhantomData<O>,
    room: Box<Room>,
    ghost some: { 1 ≤ length room.value.buffers.items },
    ghost distinct: { Distinct room.value.buffers.items } by { Distinct-prop room.value.buffers.items },
    ghost agree: { IsTrue P.tells → AllAgree (P.pages disk) room.value.buffers.items } by { Prim.hlevel (props, AllAgree-prop) },
}

impl<P: PageDisk, O: PageRule> SlruBank<P, O> {
    ghost use Rattle.slru_bank.specs.Calls.{CallsBank, CallsPage, CrashKeeps, CrashMayLack, IsAtHand, IsDurable, RemovesPages, SamePages, SweepsBank, TrimsBank, cutoff_of, faults_of, last_page, pages_of, volume_of};

    // Brings a page to the front.
    fn load(&mut self, page: u32) -> Result<(), Failed>
        ensures at_hand { OnOk result (IsAtHand page self.new) }
        ensures no_fault { IsAtHand page self.old → IsOk result }
        ensures not_asked { IsAtHand page self.old → volume_of self.new ≡ volume_of self.old }
        ensures last { last_page self.new ≡ last_page self.old }
        ensures cutoff { cutoff_of self.new ≡ cutoff_of self.old }
        ensures cause { CountsFault result (faults_of self.old) (faults_of self.new) }
        ensures same { IsTrue P.tells → SamePages self.old self.new }
        ensures others { IsTrue P.tells → (q : ℕ) → buffered self.old.room.value.buffers.items q ≡ false → P.pages (volume_of self.new) q ≡ P.pages (volume_of self.old) q }
        ensures crash { CrashKeeps self.old self.new }
    {
        touch(&mut self.disk, &mut self.room.buffers, page)
    }

    // Brings a page that isn't cut to the front (`SimpleLruReadPage`).
    fn open(&mut self, page: u32) -> Result<(), BankRefusal>
        ensures bank { CallsBank page self.old self.new result }
        ensures same { IsTrue P.tells → SamePages self.old self.new }
    {
        let is_cut = lies_before::<O>(self.room.cutoff, page);
        if is_cut {
            return Err(BankRefusal::Cut {
                cutoff: self.room.cutoff,
            });
        }
        self.load(page)?;
        Ok(())
    }

    /// The page's bytes from a place on, where the volume lacks it zeros. `Cut` exactly where the page is cut.
    pub fn read(&mut self, page: u32, at: u32, into: &mut [u8]) -> Result<(), BankRefusal>
        requires { at + length into.old ≤ 8192 }
        ensures bytes { IsTrue P.tells → OnOk result (into.new ≡ take (length into.old) (drop at (pages_of self.old page))) }
        ensures page { IsTrue P.tells → OnOk result (IsPage (pages_of self.old page)) }
        ensures err { OnErr result (into.new ≡ into.old) }
        ensures bank { CallsBank page self.old self.new result }
        ensures same { IsTrue P.tells → SamePages self.old self.new }
    {
        self.open(page)?;
        read_first_bytes(&self.room.buffers, page, at as usize, into);
        Ok(())
    }

    /// Changes the bits of a mask in one byte. After an `Err` nothing is changed.
    pub fn set(&mut self, page: u32, at: u32, mask: u8, bits: u8) -> Result<(), BankRefusal>
        requires { at < 8192 }
        ensures ok { IsTrue P.tells → OnOk result (PutsPage page
            (slice_set (pages_of self.old page) at (masked (slice_index (pages_of self.old page) at) mask bits))
            (pages_of self.old) (pages_of self.new)) }
        ensures page { IsTrue P.tells → OnOk result (StaysAPage page (pages_of self.old) (pages_of self.new)) }
        ensures err { IsTrue P.tells → OnErr result (SamePages self.old self.new) }
        ensures bank { CallsBank page self.old self.new result }
    {
        self.open(page)?;
        set_first(&mut self.room.buffers, page, at as usize, mask, bits);
        Ok(())
    }

    /// Changes the page's bytes from a place on. After an `Err` nothing is changed.
    pub fn put(&mut self, page: u32, at: u32, from: &[u8]) -> Result<(), BankRefusal>
        requires { at + length from.now ≤ 8192 }
        ensures ok { IsTrue P.tells → OnOk result (PutsPage page (placed (pages_of self.old page) at from.now)
            (pages_of self.old) (pages_of self.new)) }
        ensures page { IsTrue P.tells → OnOk result (StaysAPage page (pages_of self.old) (pages_of self.new)) }
        ensures err { IsTrue P.tells → OnErr result (SamePages self.old self.new) }
        ensures bank { CallsBank page self.old self.new result }
    {
        self.open(page)?;
        put_first(&mut self.room.buffers, page, at as usize, from);
        Ok(())
    }

    /// Makes a page of zeros the last one, where it is past the last (`SimpleLruZeroPage`). A page that was made stays, so
    /// whoever comes second wipes nothing, and asks the volume for nothing.
    pub fn zero(&mut self, page: u32) -> Result<(), BankRefusal>
        ensures ok { IsTrue P.tells → OnOk result (MatchBool (page_precedes O.shape O.per_page (last_page self.old) page)
            (PutsPage page zero_page (pages_of self.old) (pages_of self.new))
            (SamePages self.old self.new)) }
        ensures err { IsTrue P.tells → OnErr result (SamePages self.old self.new) }
        ensures last { last_page self.new ≡ cond (is_ok result && page_precedes O.shape O.per_page (last_page self.old) page) page (last_page self.old) }
        ensures calls { CallsPage page self.old self.new result }
        ensures made_asks_nothing { page_precedes O.shape O.per_page (last_page self.old) page ≡ false
            → (volume_of self.new ≡ volume_of self.old) × (result ≢ Err DiskFault) }
        ensures at_hand { OnOk result (page_precedes O.shape O.per_page (last_page self.old) page ≡ true → IsAtHand page self.new) }
    {
        if lies_before::<O>(self.room.cutoff, page) {
            return Err(BankRefusal::Cut {
                cutoff: self.room.cutoff,
            });
        }
        if !O::precedes(self.room.last, page) {
            return Ok(());
        }
        let room = &mut *self.room;
        make_page(&mut self.disk, &mut room.buffers, page)?;
        blank_first(&mut room.buffers, page);
        room.last = page;
        Ok(())
    }

    /// Writes the changed pages, and syncs (`SimpleLruWriteAll`).
    pub fn flush_all(&mut self) -> Result<(), BankRefusal>
        ensures durable { IsTrue P.tells → OnOk result (IsDurable self.new) }
        ensures same { IsTrue P.tells → SamePages self.old self.new }
        ensures cutoff { cutoff_of self.new ≡ cutoff_of self.old }
        ensures bank { SweepsBank self.old self.new result }
        ensures crash { CrashKeeps self.old self.new }
    {
        write_pages(&mut self.disk, &mut self.room.buffers)?;
        sync(&mut self.disk)?;
        Ok(())
    }

    // Removes the volume's pages, and their bytes from the map. It may be told how many numbers a page holds.
    fn remove(&mut self, removal: Removal, per_page: Option<u32>) -> Result<(), Failed>
        requires span { IfSome per_page (λ n. n ≡ O.per_page) }
        ensures ok { IsTrue P.tells → OnOk result (Drops (removes O.shape O.per_page removal) (pages_of self.old) (pages_of self.new)) }
        ensures any { IsTrue P.tells → MayDrop (removes O.shape O.per_page removal) (pages_of self.old) (pages_of self.new) }
        ensures absent { IsTrue P.tells → OnOk result (AllAbsent (removes O.shape O.per_page removal) (P.pages (volume_of self.new))) }
        ensures unbuffered { OnOk result ((q : ℕ) → q < 2 ^ 32 → removes O.shape O.per_page removal q ≡ true → buffered self.new.room.value.buffers.items q ≡ false) }
        ensures last { last_page self.new ≡ last_page self.old }
        ensures cutoff { cutoff_of self.new ≡ cutoff_of self.old }
        ensures cause { CountsFault result (faults_of self.old) (faults_of self.new) }
        ensures crash { CrashMayLack (removes O.shape O.per_page removal) self.old self.new }
    {
        let room = &mut *self.room;
        blank_removed::<O>(&mut room.buffers, removal);
        remove_pages::<P, O>(&mut self.disk, removal, per_page)?;
        empty_removed::<O>(&mut room.buffers, removal);
        Ok(())
    }

    /// Removes every page, as a start does with the parents (`StartupSUBTRANS`). After an `Err` some are removed, and no
    /// other one changed.
    pub fn clear_all(&mut self) -> Result<(), BankRefusal>
        ensures cutoff { cutoff_of self.new ≡ cutoff_of self.old }
        ensures bank { RemovesPages (λ q. true) self.old self.new result }
    {
        self.remove(Removal::All, None)?;
        Ok(())
    }

    /// The volume. Changed pages are not written first.
    pub fn into_disk(self) -> P
        ensures { result ≡ volume_of self }
    {
        self.disk
    }
}

impl<P: PageDisk, O: PageSpan> SlruBank<P, O> {
    ghost use Rattle.slru_bank.specs.Calls.{IsAtHand, RemovesPages, TrimsBank, cutoff_of, pages_of, volume_of};

    /// Keeps the later of the two cutoffs, and removes each segment of 32 pages that lies wholly before it
    /// (`SimpleLruTruncate`). After an `Err` the cutoff is kept and some of these pages are removed.
    pub fn truncate(&mut self, cutoff: u32) -> Result<(), BankRefusal>
        ensures cutoff { cutoff_of self.new ≡ later_cutoff O.shape O.per_page (cutoff_of self.old) cutoff }
        ensures bank { RemovesPages (is_cut O.shape O.per_page (cutoff_of self.new)) self.old self.new result }
    {
        self.room.cutoff = later_of::<O>(self.room.cutoff, cutoff);
        let removal = Removal::Before {
            cutoff: self.room.cutoff,
        };
        self.remove(removal, Some(O::per_page()))?;
        Ok(())
    }

    /// Removes each page that comes after this one, and then fills this one with zeros from a byte on. After an `Err`
    /// some of these pages are removed, and no other one changed.
    pub fn clear_after(&mut self, page: u32, at: u32) -> Result<(), BankRefusal>
        requires { at ≤ 8192 }
        ensures ok { IsTrue P.tells → OnOk result (ClearsAfter O.shape O.per_page page at (pages_of self.old) (pages_of self.new)) }
        ensures absent { IsTrue P.tells → OnOk result (AllAbsent (page_precedes O.shape O.per_page page) (P.pages (volume_of self.new))) }
        ensures at_hand { OnOk result (IsAtHand page self.new) }
        ensures bank { TrimsBank (page_precedes O.shape O.per_page page) self.old self.new result }
    {
        self.remove(Removal::After { page }, Some(O::per_page()))?;
        self.load(page)?;
        clear_first(&mut self.room.buffers, page, at as usize);
        Ok(())
    }
}

// Syncs the disk.
fn sync<P: PageDisk>(disk: &mut P) -> Result<(), Failed>
    ensures durable { IsTrue P.tells → OnOk result (Only (P.pages disk.old) (P.images disk.new)) }
    ensures same { IsTrue P.tells → P.pages disk.new ≡ P.pages disk.old }
    ensures crash { IsTrue P.tells → (m new : ℕ → List ℕ) → CrashLeaves (IsMixture m new) P.images P.moment P.left_at disk.old disk.new }
    ensures cause { CountsFault result (P.faults disk.old) (P.faults disk.new) }
{
    disk.sync()
}

impl<P: PageDisk + Drop, O: PageRule> SlruBank<P, O> {
    ghost use Rattle.slru_bank.specs.Calls.{cutoff_of, last_page, pages_of, volume_of};

    /// A bank over a volume. After an `Err` the volume is handed back.
    pub fn new(
        alloc: Global,
        disk: P,
        last: u32,
        cutoff: u32,
    ) -> Result<SlruBank<P, O>, (P, Memory)>
        ensures disk { IfOk result (λ b. volume_of b ≡ disk) }
        ensures last { IfOk result (λ b. last_page b ≡ last) }
        ensures cutoff { IfOk result (λ b. cutoff_of b ≡ cutoff) }
        ensures map { IfOk result (λ b. SameMap (λ q. page_bytes (P.pages disk q)) (pages_of b)) }
        ensures err { IfErr result (λ e. e.0 ≡ disk) }
    {
        match first_room(alloc) {
            Ok(room) => Ok(SlruBank::over(disk, last, cutoff, room)),
            Err(_) => Err((disk, Memory)),
        }
    }
}

// Room for a bank, with a first buffer.
pub(crate) fn first_room(alloc: Global) -> Result<Box<Room>, AllocError>
    ensures some { IfOk result (λ room. 1 ≤ length room.value.buffers.items) }
    ensures empty { IfOk result (λ room. AllEmpty room.value.buffers.items) }
{
    let buffers = first_buffer(alloc)?;
    let room = Room {
        last: 0,
        cutoff: 0,
        buffers,
    };
    Ok(Box::new(alloc, room)?)
}

impl<P: PageDisk, O: PageRule> SlruBank<P, O> {
    ghost use Rattle.slru_bank.specs.Calls.{cutoff_of, last_page, pages_of, volume_of};

    // A bank over a volume, in room whose buffers have no page.
    pub(crate) fn over(disk: P, last: u32, cutoff: u32, room: Box<Room>) -> SlruBank<P, O>
        requires some { 1 ≤ length room.value.buffers.items }
        requires empty { AllEmpty room.value.buffers.items }
        ensures disk { volume_of result ≡ disk }
        ensures last { last_page result ≡ last }
        ensures cutoff { cutoff_of result ≡ cutoff }
        ensures map { SameMap (λ q. page_bytes (P.pages disk q)) (pages_of result) }
    {
        let mut room = room;
        let begun = &mut *room;
        begun.last = last;
        begun.cutoff = cutoff;
        SlruBank {
            disk,
            rule: PhantomData,
            room,
        }
    }

    // The volume, and the room, whatever it has. Changed pages are not written first.
    pub(crate) fn into_parts(self) -> (P, Box<Room>)
        ensures { result.0 ≡ volume_of self }
    {
        (self.disk, self.room)
    }
}
