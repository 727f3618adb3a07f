//! Records as tables say them, and their bytes.
use std::process::Abort;
use tx_events::{
    Counters, FullMulti, FullXid, IdList, Member, MemberList, Mode, Rec, Sequence, SharedCounters,
};
use wal_records::{is_lawful, read_rec, rec_length, write_rec};

#[derive(Clone, Copy)]
pub enum Record<'a> {
    /// Its number and its next id; the other counters are those of a new log.
    Checkpoint(u64, u64),
    /// The top and the subtransactions.
    Commit(u64, &'a [u64]),
    Abort(u64, &'a [u64]),
    /// The number and the first offset, and of an id so many members of this mode.
    Multi(u64, u64, &'a [(Mode, u64, usize)]),
    /// The oldest id, multixact and offset.
    Truncate(u64, u64, u64),
}

fn id_of(rt: &impl Abort, number: u64) -> FullXid {
    FullXid::new(number).expect(rt, "an id")
}

fn multi_of(rt: &impl Abort, number: u64) -> FullMulti {
    FullMulti::new(number).expect(rt, "a multixact")
}

fn ids_of(rt: &(impl Abort + AllocGlobal), numbers: &[u64]) -> IdList {
    let mut list = IdList::new(rt.alloc());
    for number in numbers {
        assert!(rt; list.push(id_of(rt, *number)).is_ok());
    }
    list
}

fn members_of(rt: &(impl Abort + AllocGlobal), groups: &[(Mode, u64, usize)]) -> MemberList {
    let mut list = Sequence::new(rt.alloc());
    for (mode, number, count) in groups {
        let id = id_of(rt, *number);
        for _ in 0..*count {
            assert!(rt; list.push(Member { id, mode: *mode }).is_ok());
        }
    }
    MemberList::of(rt.alloc(), list).expect(rt, "memory")
}

pub fn rec_of(rt: &(impl Abort + AllocGlobal), record: Record<'_>) -> Rec {
    match record {
        Record::Checkpoint(number, next) => {
            let counters = Counters {
                next: id_of(rt, next),
                ..Counters::of_new_log()
            };
            Rec::Checkpoint {
                number,
                counters: SharedCounters::of(rt.alloc(), counters).expect(rt, "memory"),
            }
        }
        Record::Commit(top, subs) => Rec::Commit {
            top: id_of(rt, top),
            subs: ids_of(rt, subs),
        },
        Record::Abort(top, subs) => Rec::Abort {
            top: id_of(rt, top),
            subs: ids_of(rt, subs),
        },
        Record::Multi(number, offset, groups) => Rec::Multi {
            multi: multi_of(rt, number),
            offset,
            members: members_of(rt, groups),
        },
        Record::Truncate(oldest, number, offset) => Rec::Truncate {
            oldest: id_of(rt, oldest),
            multi: multi_of(rt, number),
            offset,
        },
    }
}

/// Whether the record is lawful, and has these bytes where it is added behind others.
fn adds(rt: &(impl Abort + AllocGlobal), rec: &Rec, front: &[u8], bytes: &[u8]) -> bool {
    if !is_lawful(rec) || rec_length(rec) != bytes.len() as u64 {
        return false;
    }
    let mut written = Vec::from_slice(rt.alloc(), front).expect(rt, "memory");
    assert!(rt; write_rec(rec, &mut written).is_ok());
    written.as_slice().strip_prefix(front) == Some(bytes)
}

/// Whether the record has these bytes, is read from them whatever follows, and from no fewer of them.
pub fn is_spelled(rt: &(impl Abort + AllocGlobal), rec: &Rec, bytes: &[u8]) -> bool {
    let alloc = rt.alloc();
    if !adds(rt, rec, &[], bytes) || !adds(rt, rec, &[8, 9], bytes) {
        return false;
    }
    let mut followed = Vec::from_slice(alloc, bytes).expect(rt, "memory");
    assert!(rt; followed.push(77).is_ok());
    let found = read_rec(alloc, followed.as_slice()).expect(rt, "memory");
    let Some(again) = found else {
        return false;
    };
    if again.length != bytes.len() as u64 || !adds(rt, &again.rec, &[], bytes) {
        return false;
    }
    for count in 0..bytes.len() {
        let found = read_rec(alloc, &bytes[..count]).expect(rt, "memory");
        if found.is_some() {
            return false;
        }
    }
    true
}

/// Whether a record is read from the bytes, of which the one at this place becomes another.
pub fn is_read(rt: &(impl Abort + AllocGlobal), bytes: &[u8], at: usize, byte: u8) -> bool {
    let mut changed = Vec::from_slice(rt.alloc(), bytes).expect(rt, "memory");
    *changed.get_mut(at).expect(rt, "a byte") = byte;
    let found = read_rec(rt.alloc(), changed.as_slice());
    found.expect(rt, "memory").is_some()
}
