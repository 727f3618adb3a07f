// Pages at the ends of the ring, after the definitions in PostgreSQL's headers.
use std::process::Abort;
use store_pages::{
    MemberPages, OffsetPages, PageRule, SubtransPages, XactPages, bank_of, id_position,
    member_page, member_page_in_full, mode_position, offset_page, offset_place, subtrans_page,
    subtrans_place, xact_page, xact_page_in_full, xact_place,
};
use tx_events::{FullXid, MultiId, Xid};

#[test]
fn last_numbers_stand_on_the_last_pages(rt: HostRuntime) {
    let number = 0xffff_ffff;
    let id = Xid { number };
    assert!(rt; xact_page(id) == 0x1_ffff && xact_place(id) == 32767);
    assert!(rt; subtrans_page(id) == 0x1f_ffff && subtrans_place(id) == 2047);
    let multi = MultiId { number };
    assert!(rt; offset_page(multi) == 0x1f_ffff && offset_place(multi) == 2047);
    // MaxMultiXactOffset / MULTIXACT_MEMBERS_PER_PAGE
    assert!(rt; member_page(number) == 2_625_285);
}

#[test]
fn full_pages_go_on_past_the_wraparound(rt: HostRuntime) {
    let id = FullXid::new(0x1_0000_8003).expect(&rt, "an id");
    assert!(rt; xact_page_in_full(id) == 0x2_0001 && xact_page(id.low()) == 1);
    assert!(rt; member_page_in_full(0xffff_ffff) == 2_625_285);
    assert!(rt; member_page_in_full(0x1_0000_0000) == 2_625_286);
}

// Where a member's mode and its id stand on their page.
fn check_positions<R: Abort>(rt: &R, offset: u32, mode: u32, id: u32) {
    let holds = mode_position(offset) == mode && id_position(offset) == id;
    assert!(rt; holds, "at {offset}");
}

#[test]
fn members_stand_in_groups_of_twenty_bytes(rt: HostRuntime) {
    check_positions(&rt, 3, 3, 16);
    check_positions(&rt, 4, 20, 24);
    check_positions(&rt, 1635, 8163, 8176);
    check_positions(&rt, 1636, 0, 4);
}

fn comes_first<O: PageRule>(p: u32, q: u32) -> bool {
    O::precedes(p, q)
}

#[test]
fn page_orders_wrap_around(rt: HostRuntime) {
    assert!(rt; comes_first::<XactPages>(131071, 0));
    assert!(rt; !comes_first::<XactPages>(0, 131071));
    assert!(rt; comes_first::<SubtransPages>(0x1f_ffff, 0));
    assert!(rt; comes_first::<OffsetPages>(0x1f_ffff, 0));
    assert!(rt; comes_first::<MemberPages>(2_625_284, 0));
    // Half the ring apart neither comes first.
    assert!(rt; !comes_first::<XactPages>(0, 65536));
    assert!(rt; !comes_first::<XactPages>(65536, 0));
    assert!(rt; bank_of(17, 16) == 1);
}
