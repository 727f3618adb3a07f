// What a log is found to be that is cut off anywhere.
use disk_core::MemLog;
use replay_core::{FoundLog, RecoverRefusal, find_log};
use std::alloc::AllocGlobal;
use std::process::Abort;

// Four batches of a record each, byte by byte: a checkpoint of a new log, the commit of 3, the multixact 1 of 3 and 4 from
// member offset 1 on, and a checkpoint of what these come to. The last byte is the closed gate behind them.
const LOG: [u8; 187] = [
    1, 57, 0, 0, 0, 4, 0, 0, 0, 0, 0, 0, 0, 0, 3, 0, 0, 0, 0, 0, 0, 0, 3, 0, 0, 0, 0, 0, 0, 0, 1,
    0, 0, 0, 0, 0, 0, 0, 1, 0, 0, 0, 0, 0, 0, 0, 1, 0, 0, 0, 0, 0, 0, 0, 1, 0, 0, 0, 0, 0, 0, 0, 1,
    13, 0, 0, 0, 1, 3, 0, 0, 0, 0, 0, 0, 0, 0, 0, 0, 0, 1, 39, 0, 0, 0, 3, 1, 0, 0, 0, 0, 0, 0, 0,
    1, 0, 0, 0, 0, 0, 0, 0, 2, 0, 0, 0, 0, 3, 0, 0, 0, 0, 0, 0, 0, 1, 4, 0, 0, 0, 0, 0, 0, 0, 1,
    57, 0, 0, 0, 4, 3, 0, 0, 0, 0, 0, 0, 0, 5, 0, 0, 0, 0, 0, 0, 0, 3, 0, 0, 0, 0, 0, 0, 0, 2, 0,
    0, 0, 0, 0, 0, 0, 3, 0, 0, 0, 0, 0, 0, 0, 1, 0, 0, 0, 0, 0, 0, 0, 1, 0, 0, 0, 0, 0, 0, 0, 0,
];

// Where each of its gates stands, with the record behind it of 57, 13, 39 and 57 bytes, and the last one.
const GATES: [u64; 5] = [0, 62, 80, 124, 186];

// The next id, multixact and member offset behind none of the records, one, two ..
const COUNTERS: [(u64, u64, u64); 5] = [(0, 0, 0), (3, 1, 1), (4, 1, 1), (5, 2, 3), (5, 2, 3)];

// What is found of a log.
#[derive(Clone, Copy, PartialEq)]
enum Told {
    New,
    // So many records, and the next id, multixact and member offset.
    Old(u64, (u64, u64, u64)),
    Damaged(u64),
}

// What the format says of the first so many bytes: a log of at most one byte is new; else its batches count up to the first
// closed gate, and the end of the volume is one. A batch that is cut is damage at its gate, unless not even the gate is there.
fn wanted(length: u64) -> Told {
    if length <= 1 {
        return Told::New;
    }
    let mut told = Told::Damaged(0);
    for count in 1..5 {
        if length >= GATES[count] {
            told = Told::Old(count as u64, COUNTERS[count]);
        }
        if length > GATES[count] && count < 4 {
            told = Told::Damaged(GATES[count]);
        }
    }
    told
}

// What is found of these bytes.
fn found(rt: &(impl Abort + AllocGlobal), bytes: &[u8]) -> Told {
    let copy = Vec::from_slice(rt.alloc(), bytes).expect(rt, "memory");
    match find_log(rt.alloc(), MemLog::of(rt.alloc(), copy)) {
        Ok(FoundLog::New(_)) => Told::New,
        Ok(FoundLog::Old(found)) => {
            let base = found.base;
            let counters = (base.next.number(), base.multi.number(), base.offset);
            Told::Old(found.recs.items().len() as u64, counters)
        }
        Err((_, RecoverRefusal::Damaged { at })) => Told::Damaged(at),
        Err(_) => panic!(rt; "a fault"),
    }
}

#[test]
fn a_log_that_is_cut_anywhere_is_new_or_has_its_whole_batches_or_is_damaged_at_the_cut_one(
    rt: HostRuntime,
) {
    for length in 0..188 {
        let told = found(&rt, &LOG[..length]);
        assert!(rt; told == wanted(length as u64), "{length}");
    }
}
