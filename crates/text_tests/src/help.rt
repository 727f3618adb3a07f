//! Ids, lists and joined texts by their parts, and the check of a row.
use std::alloc::AllocGlobal;
use std::process::Abort;
use tx_events::{FullMulti, FullXid, Sequence};

pub fn id(rt: &impl Abort, number: u64) -> FullXid {
    FullXid::new(number).expect(rt, "a full id")
}

pub fn multi(rt: &impl Abort, number: u64) -> FullMulti {
    FullMulti::new(number).expect(rt, "a full multixact")
}

pub fn list<T: Drop, const N: usize>(
    rt: &(impl Abort + AllocGlobal),
    items: [T; N],
) -> Sequence<T> {
    Sequence::of(Vec::from_array(rt.alloc(), items).expect(rt, "memory"))
}

/// The pieces of a text, one behind the other.
pub fn joined(rt: &(impl Abort + AllocGlobal), pieces: &[&str]) -> String {
    pieces.concat(rt.alloc()).expect(rt, "memory")
}

/// What the row says holds.
pub fn check_row(rt: &impl Abort, holds: bool, row: &str) {
    assert!(rt; holds, "{row}");
}
