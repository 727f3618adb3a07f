//! What the four stores answer, and the very bytes of their pages.
use crate::banks::memory_bank;
use bank_stores::{
    Slot, climb_ends, offset, parent, read_member, set_offset, set_parent, trim_members,
    trim_offsets, write_member,
};
use disk_core::MemPages;
use slru_bank::{PlanStep, SlruBank, State, plan_step, set_states, state, trim_after};
use std::process::Abort;
use store_pages::{MemberPages, PageRule, XactPages};
use tx_events::{FullMulti, FullXid, Mode, MultiId, Xid};

/// The first sixteen bytes of a page.
fn front<O: PageRule>(bank: &mut SlruBank<MemPages, O>, page: u32) -> Option<[u8; 16]> {
    let mut bytes = [0; 16];
    bank.read(page, 0, &mut bytes).ok()?;
    Some(bytes)
}

/// Ids 3 and 5 committed, and 4 aborted.
fn set_three(rt: &impl Abort, bank: &mut SlruBank<MemPages, XactPages>) {
    let three = FullXid::new(3).expect(rt, "an id");
    let four = FullXid::new(4).expect(rt, "an id");
    let five = FullXid::new(5).expect(rt, "an id");
    assert!(rt; set_states(bank, &[three, five], State::Committed).is_ok());
    assert!(rt; set_states(bank, &[four], State::Aborted).is_ok());
}

fn check_states(
    rt: &impl Abort,
    bank: &mut SlruBank<MemPages, XactPages>,
    when: &str,
    wanted: &[(u32, State)],
) {
    for (number, wanted) in wanted {
        let came = state(bank, Xid { number: *number });
        assert!(rt; came == Ok(*wanted), "{when}: of {number}: {came:?} came");
    }
}

pub fn status_bits_on_page(rt: &(impl Abort + AllocGlobal)) {
    let mut bank = memory_bank(rt);
    set_three(rt, &mut bank);
    assert!(rt; front(&mut bank, 0) == Some([64, 6, 0, 0, 0, 0, 0, 0, 0, 0, 0, 0, 0, 0, 0, 0]));
    check_states(
        rt,
        &mut bank,
        "set",
        &[
            (4, State::Aborted),
            (5, State::Committed),
            (6, State::InProgress),
        ],
    );
    let five = FullXid::new(5).expect(rt, "an id");
    assert!(rt; trim_after(&mut bank, five).is_ok());
    check_states(
        rt,
        &mut bank,
        "trimmed",
        &[(4, State::Aborted), (5, State::InProgress)],
    );
}

const STEPS: [Option<PlanStep>; 4] = [
    Some(PlanStep {
        page: 1,
        state: State::SubCommitted,
        with_top: false,
        first: 0,
        past: 1,
    }),
    Some(PlanStep {
        page: 0,
        state: State::Committed,
        with_top: true,
        first: 0,
        past: 0,
    }),
    Some(PlanStep {
        page: 1,
        state: State::Committed,
        with_top: false,
        first: 0,
        past: 1,
    }),
    None,
];

/// 32768 is the first id of the next page.
pub fn commit_over_two_pages(rt: &impl Abort) {
    let top = FullXid::new(32767).expect(rt, "an id");
    let subs = [FullXid::new(32768).expect(rt, "an id")];
    for (place, wanted) in STEPS.iter().enumerate() {
        assert!(rt;
            plan_step(top, &subs, place as u64) == *wanted,
            "step {place}"
        );
    }
}

pub fn parent_bytes_on_page(rt: &(impl Abort + AllocGlobal)) {
    let mut bank = memory_bank(rt);
    let below = Xid { number: 32767 };
    let above = Xid { number: 32768 };
    assert!(rt; set_parent(&mut bank, above, below).is_ok());
    assert!(rt; front(&mut bank, 16) == Some([255, 127, 0, 0, 0, 0, 0, 0, 0, 0, 0, 0, 0, 0, 0, 0]));
    assert!(rt; parent(&mut bank, above) == Ok(Some(below)));
    assert!(rt; parent(&mut bank, below) == Ok(None));
    // a climb ends above no parent, and above one that precedes the xmin
    assert!(rt; climb_ends(None, below));
    assert!(rt; !climb_ends(Some(below), below));
    assert!(rt; climb_ends(Some(below), above));
}

pub fn offset_bytes_on_page(rt: &(impl Abort + AllocGlobal)) {
    let mut bank = memory_bank(rt);
    let one = MultiId { number: 1 };
    assert!(rt; set_offset(&mut bank, one, 1).is_ok());
    assert!(rt; front(&mut bank, 0) == Some([0, 0, 0, 0, 1, 0, 0, 0, 0, 0, 0, 0, 0, 0, 0, 0]));
    assert!(rt; offset(&mut bank, one) == Ok(Some(1)));
    assert!(rt; offset(&mut bank, MultiId { number: 2 }) == Ok(None));
    let next = FullMulti::new(1).expect(rt, "a multixact");
    assert!(rt; trim_offsets(&mut bank, next).is_ok());
    assert!(rt; offset(&mut bank, one) == Ok(None));
}

fn check_slot(
    rt: &impl Abort,
    bank: &mut SlruBank<MemPages, MemberPages>,
    when: &str,
    place: u32,
    wanted: Slot,
) {
    let came = read_member(bank, place);
    assert!(rt;
        came == Ok(wanted),
        "{when}: the member at {place}: {came:?} came"
    );
}

pub fn member_bytes_on_page(rt: &(impl Abort + AllocGlobal)) {
    let mut bank = memory_bank(rt);
    let three = Xid { number: 3 };
    let four = Xid { number: 4 };
    assert!(rt; write_member(&mut bank, 1, three, Mode::KeySh).is_ok());
    assert!(rt; write_member(&mut bank, 2, four, Mode::Upd).is_ok());
    assert!(rt; front(&mut bank, 0) == Some([0, 0, 5, 0, 0, 0, 0, 0, 3, 0, 0, 0, 4, 0, 0, 0]));
    check_slot(rt, &mut bank, "set", 0, Slot::Unused);
    check_slot(
        rt,
        &mut bank,
        "set",
        2,
        Slot::Is {
            x: four,
            mode: Mode::Upd,
        },
    );
    assert!(rt; bank.set(0, 2, 255, 6).is_ok());
    check_slot(rt, &mut bank, "odd", 2, Slot::Odd { byte: 6 });
    assert!(rt; trim_members(&mut bank, 2).is_ok());
    check_slot(
        rt,
        &mut bank,
        "trimmed",
        1,
        Slot::Is {
            x: three,
            mode: Mode::KeySh,
        },
    );
    check_slot(rt, &mut bank, "trimmed", 2, Slot::Unused);
}
