//! The room of banks that are over, for the next ones.
ghost use Rattle.std.specs.Prelude.{◌≡◌, ◌≤◌, IfErr, IfOk, length};
ghost use Rattle.disk_core.specs.Pages.{page_bytes};
ghost use Rattle.slru_bank.specs.Bank.{AllEmpty, AllEmpty-prop};
ghost use Rattle.slru_bank.specs.Crash.{SameMap};

use crate::SlruBank;
use crate::bank::{Room, first_room};
use disk_core::{Memory, PageDisk};
use std::alloc::{AllocError, Global};
use store_pages::PageRule;

// As many banks as an engine has at most: 16 of each of four stores.
const MOST_BANKS: usize = 64;

/// Room that goes on from bank to bank, with one buffer of each bank that is over. A bank that is made in it takes no
/// memory, and fills no buffer with zeros.
#[derive(Drop)]
pub struct BankRooms {
    alloc: Global,
    rooms: Vec<EmptyRoom>,
}

// Room with one buffer at least, and no page in any.
#[derive(Drop)]
struct EmptyRoom {
    room: Box<Room>,
    ghost some: { 1 ≤ length room.value.buffers.items },
    ghost empty: { AllEmpty room.value.buffers.items } by { AllEmpty-prop room.value.buffers.items },
}

// The room, if it has a buffer: that one, without its page.
fn emptied(room: Box<Room>) -> Option<EmptyRoom> {
    let mut room = room;
    room.buffers.truncate(1);
    let buffer = room.buffers.first_mut()?;
    buffer.page = None;
    buffer.changed = false;
    Some(EmptyRoom { room })
}

impl BankRooms {
    ghost use Rattle.slru_bank.specs.Calls.{cutoff_of, last_page, pages_of, volume_of};

    /// None yet.
    pub fn new(alloc: Global) -> BankRooms {
        BankRooms {
            alloc,
            rooms: Vec::new(alloc),
        }
    }

    // Room for a bank: that of one that is over, or a new one.
    fn take(&mut self) -> Result<Box<Room>, AllocError>
        ensures some { IfOk result (λ room. 1 ≤ length room.value.buffers.items) }
        ensures empty { IfOk result (λ room. AllEmpty room.value.buffers.items) }
    {
        if let Some(kept) = self.rooms.pop() {
            return Ok(kept.room);
        }
        // So that `keep` takes no memory. Where there is none, no room is kept.
        let _ = self.rooms.reserve(MOST_BANKS);
        first_room(self.alloc)
    }

    /// A bank over a volume, as `SlruBank::new` makes it. After an `Err` the volume is handed back.
    pub fn bank<P: PageDisk + Drop, O: PageRule>(
        &mut self,
        disk: P,
        last: u32,
        cutoff: u32,
    ) -> Result<SlruBank<P, O>, (P, Memory)>
        ensures disk { IfOk result (λ b. volume_of b ≡ disk) }
        ensures last { IfOk result (λ b. last_page b ≡ last) }
        ensures cutoff { IfOk result (λ b. cutoff_of b ≡ cutoff) }
        ensures map { IfOk result (λ b. SameMap (λ q. page_bytes (P.pages disk q)) (pages_of b)) }
        ensures err { IfErr result (λ e. e.0 ≡ disk) }
    {
        match self.take() {
            Ok(room) => Ok(SlruBank::over(disk, last, cutoff, room)),
            Err(_) => Err((disk, Memory)),
        }
    }

    /// The volume of a bank that is over. Its room is kept, where there is a place for it. Changed pages are not
    /// written first. Takes no memory.
    pub fn keep<P: PageDisk, O: PageRule>(&mut self, bank: SlruBank<P, O>) -> P
        ensures { result ≡ volume_of bank }
    {
        let (disk, room) = bank.into_parts();
        if self.rooms.len() < self.rooms.capacity()
            && let Some(kept) = emptied(room)
        {
            self.rooms.push_reserved(kept);
        }
        disk
    }
}
