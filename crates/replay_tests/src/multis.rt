// The multixacts of a cluster of two banks.
use crate::cluster::{bank_over, id, put_back, take_out};
use bank_stores::{Slot, offset, read_member, set_offset, write_member};
use disk_core::PageDisk;
use std::alloc::AllocGlobal;
use std::process::Abort;
use store_pages::{MemberPages, OffsetPages};
use tx_events::{FullMulti, Member, MemberList, Mode, MultiId, Rec, Sequence};

/// A multixact of two members, which hold the row.
pub fn multi(
    rt: &(impl Abort + AllocGlobal),
    number: u64,
    offset: u64,
    first: u64,
    second: u64,
) -> Rec {
    let mut members = Sequence::new(rt.alloc());
    let first = Member {
        id: id(rt, first),
        mode: Mode::Sh,
    };
    assert!(rt; members.push(first).is_ok());
    let second = Member {
        id: id(rt, second),
        mode: Mode::KeySh,
    };
    assert!(rt; members.push(second).is_ok());
    Rec::Multi {
        multi: FullMulti::new(number).expect(rt, "a multixact"),
        offset,
        members: MemberList::of(rt.alloc(), members).expect(rt, "memory"),
    }
}

/// Puts an offset on the page of its bank's volume.
pub fn put_offset<P: PageDisk + Drop>(
    rt: &(impl Abort + AllocGlobal),
    offsets: &mut Vec<P>,
    number: u32,
    to: u32,
) {
    let at = (number / 2048 % 2) as usize;
    let mut bank = take_out::<P, OffsetPages>(rt, offsets, at);
    assert!(rt; set_offset(&mut bank, MultiId { number }, to).is_ok());
    put_back(rt, offsets, at, bank);
}

/// Puts a member on the page of its bank's volume.
pub fn put_member<P: PageDisk + Drop>(
    rt: &(impl Abort + AllocGlobal),
    members: &mut Vec<P>,
    place: u32,
    number: u64,
) {
    let at = (place / 1636 % 2) as usize;
    let mut bank = take_out::<P, MemberPages>(rt, members, at);
    let written = write_member(&mut bank, place, id(rt, number).low(), Mode::Sh);
    assert!(rt; written.is_ok());
    put_back(rt, members, at, bank);
}

/// The offsets of multixacts in their banks, of which there are two; 0 for none.
pub fn offsets_of<P: PageDisk + Drop>(
    rt: &(impl Abort + AllocGlobal),
    offsets: Vec<P>,
    numbers: [u32; 3],
) -> [u32; 3] {
    let mut found = [0; 3];
    let mut bank = 0;
    for disk in offsets {
        let mut pages = bank_over::<P, OffsetPages>(rt, disk);
        for at in 0..3 {
            let number = numbers[at];
            if number / 2048 % 2 == bank {
                let read = offset(&mut pages, MultiId { number }).ok();
                found[at] = read.expect(rt, "an offset").unwrap_or(0);
            }
        }
        bank = 1;
    }
    found
}

/// The ids at these member offsets in their banks, of which there are two; 0 where the slot is unused.
pub fn members_of<P: PageDisk + Drop>(
    rt: &(impl Abort + AllocGlobal),
    members: Vec<P>,
    places: [u32; 4],
) -> [u32; 4] {
    let mut found = [0; 4];
    let mut bank = 0;
    for disk in members {
        let mut pages = bank_over::<P, MemberPages>(rt, disk);
        for at in 0..4 {
            let place = places[at];
            if place / 1636 % 2 == bank {
                let read = read_member(&mut pages, place).ok();
                if let Slot::Is { x, .. } = read.expect(rt, "a slot") {
                    found[at] = x.number;
                }
            }
        }
        bank = 1;
    }
    found
}
