// What volumes open to, and what a log writes.
use crate::test_log::Answer::{self, Done, Given, Is, Refused};
use crate::test_log::Call::{self, *};
use crate::test_log::{Row, check_rows, log_bytes, numbers, read};
use crate::test_rec::Record::{Abort, Checkpoint, Commit, Multi};
use std::process;
use tx_events::Mode::Sh;
use wal_core::LogRefusal::{self, Full};

const CUTS: [(u64, u64, Result<usize, LogRefusal>); 5] = [
    // a_cut_log_is_damaged_at_the_batch_that_is_cut
    (0, 1, Ok(0)),
    (2, 61, Err(LogRefusal::Damaged { at: 0 })),
    (62, 62, Ok(1)),
    (63, 79, Err(LogRefusal::Damaged { at: 62 })),
    (80, 81, Ok(2)),
];

const CHANGES: [(usize, usize, u8, Result<usize, LogRefusal>); 24] = [
    // a_changed_byte_is_found_by_its_batch
    (0, 0, 0, Ok(0)),
    (1, 1, 58, Err(LogRefusal::Damaged { at: 0 })),
    (5, 5, 5, Err(LogRefusal::Damaged { at: 0 })),
    (6, 6, 1, Err(LogRefusal::Damaged { at: 0 })),
    (14, 14, 2, Err(LogRefusal::Damaged { at: 0 })),
    (30, 30, 0, Err(LogRefusal::Damaged { at: 0 })),
    (62, 62, 2, Ok(1)),
    (63, 63, 14, Err(LogRefusal::Damaged { at: 62 })),
    (67, 67, 6, Err(LogRefusal::Damaged { at: 62 })),
    (68, 68, 2, Err(LogRefusal::Damaged { at: 62 })),
    (68, 68, 9, Ok(2)),
    (76, 76, 1, Err(LogRefusal::Damaged { at: 62 })),
    (80, 80, 1, Err(LogRefusal::Damaged { at: 80 })),
    // each_byte_that_becomes_255: the first gate is closed
    (0, 0, 255, Ok(0)),
    // each_byte_that_becomes_255: the next id or multixact of the checkpoint, and the id of the commit, are in range
    (14, 16, 255, Ok(2)),
    (30, 32, 255, Ok(2)),
    (68, 70, 255, Ok(2)),
    // each_byte_that_becomes_255
    (1, 13, 255, Err(LogRefusal::Damaged { at: 0 })),
    (17, 29, 255, Err(LogRefusal::Damaged { at: 0 })),
    (33, 61, 255, Err(LogRefusal::Damaged { at: 0 })),
    (62, 62, 255, Ok(1)),
    (63, 67, 255, Err(LogRefusal::Damaged { at: 62 })),
    (71, 79, 255, Err(LogRefusal::Damaged { at: 62 })),
    (80, 80, 255, Ok(2)),
];

const ROWS: [Row<'static>; 8] = [
    Row {
        name: "a_log_that_ends_with_its_volume_gets_a_closed_gate",
        calls: &[
            (Open(0), Done),
            (Call::Found, Answer::Found(2, 0)),
            (Call::Ends, Answer::Ends(2, 2, 80)),
        ],
        last: IsLog,
        cases: &[(80, 81, None, Is(true))],
    },
    Row {
        name: "a_new_log_has_its_bytes",
        calls: &[
            (New, Done),
            (Append(Checkpoint(0, 3)), Given(0)),
            (Flush, Done),
            (Append(Commit(3, &[])), Given(1)),
            (Flush, Done),
            (Call::Ends, Answer::Ends(2, 2, 80)),
        ],
        last: IsLog,
        cases: &[(100, 100, None, Is(true))],
    },
    Row {
        name: "a_log_begins_with_the_checkpoint_of_number_0",
        calls: &[
            (New, Done),
            (MayAppend(Commit(3, &[])), Is(false)),
            (MayAppend(Checkpoint(0, 3)), Is(true)),
            (MayAppend(Checkpoint(1, 3)), Is(false)),
            (MayAppend(Checkpoint(2, 3)), Is(false)),
            (Append(Checkpoint(0, 3)), Given(0)),
            (MayAppend(Checkpoint(0, 3)), Is(false)),
            (MayAppend(Checkpoint(1, 3)), Is(true)),
        ],
        last: MayAppend(Checkpoint(2, 3)),
        cases: &[(100, 100, None, Is(false))],
    },
    Row {
        name: "an_id_is_at_least_3_and_below_the_stop, which the last one is past for this oldest id",
        calls: &[
            (New, Done),
            (Append(Checkpoint(0, 3)), Given(0)),
            (MayAppend(Commit(2, &[])), Is(false)),
            (MayAppend(Commit(3, &[])), Is(true)),
        ],
        last: MayAppend(Commit(2_147_483_648, &[])),
        cases: &[(100, 100, None, Is(false))],
    },
    Row {
        name: "subtransactions_ascend_above_the_top",
        calls: &[
            (New, Done),
            (Append(Checkpoint(0, 3)), Given(0)),
            (MayAppend(Abort(3, &[4, 5])), Is(true)),
            (MayAppend(Abort(3, &[5, 4])), Is(false)),
        ],
        last: MayAppend(Abort(3, &[3, 4])),
        cases: &[(100, 100, None, Is(false))],
    },
    Row {
        name: "a_multixact_has_1_to_64_members",
        calls: &[
            (New, Done),
            (Append(Checkpoint(0, 3)), Given(0)),
            (MayAppend(Multi(1, 1, &[(Sh, 3, 0)])), Is(false)),
            (MayAppend(Multi(1, 1, &[(Sh, 3, 1)])), Is(true)),
            (MayAppend(Multi(1, 1, &[(Sh, 3, 64)])), Is(true)),
        ],
        last: MayAppend(Multi(1, 1, &[(Sh, 3, 65)])),
        cases: &[(100, 100, None, Is(false))],
    },
    Row {
        name: "a_log_is_full_at_the_byte_that_passes_2_to_the_40: a commit alone, with a gate, a length and the next gate, has 19 bytes",
        calls: &[
            (Open(1_099_511_627_695), Done),
            (Append(Commit(3, &[])), Given(1)),
            (Append(Commit(4, &[])), Refused(Full)),
        ],
        last: Call::Ends,
        cases: &[(62, 62, None, Answer::Ends(2, 1, 1_099_511_627_757))],
    },
    Row {
        name: "a_log_is_full_at_the_byte_that_passes_2_to_the_40: one byte on",
        calls: &[
            (Open(1_099_511_627_696), Done),
            (Append(Commit(3, &[])), Refused(Full)),
            (Append(Commit(4, &[])), Refused(Full)),
        ],
        last: Call::Ends,
        cases: &[(62, 62, None, Answer::Ends(1, 1, 1_099_511_627_758))],
    },
];

/// How many records a log of these bytes has.
fn count_of(rt: &(impl process::Abort + AllocGlobal), bytes: Vec<u8>) -> Result<usize, LogRefusal> {
    Ok(read(rt, bytes)?.recs.items().len())
}

/// So many bytes of LOG.
fn check_cuts(rt: &(impl process::Abort + AllocGlobal)) {
    for (first, last, wanted) in &CUTS {
        for count in *first..=*last {
            let came = count_of(rt, log_bytes(rt, count));
            assert!(rt; came == *wanted, "{count} bytes: {came:?} came");
        }
    }
}

/// All of LOG, with the byte at a place changed.
fn check_changes(rt: &(impl process::Abort + AllocGlobal)) {
    for (first, last, byte, wanted) in &CHANGES {
        for at in *first..=*last {
            let mut bytes = log_bytes(rt, 81);
            *bytes.get_mut(at).expect(rt, "a byte of the log") = *byte;
            let came = count_of(rt, bytes);
            assert!(rt; came == *wanted, "{byte} at {at}: {came:?} came");
        }
    }
}

#[test]
fn what_volumes_open_to_and_a_log_writes(rt: HostRuntime) {
    check_cuts(&rt);
    check_changes(&rt);
    // what_is_read_of_a_log
    let found = read(&rt, log_bytes(&rt, 81)).ok().expect(&rt, "a log");
    assert!(rt; found.first == 0 && found.gate == 80);
    let counters = found.counters.expect(&rt, "a checkpoint");
    assert!(rt; numbers(&counters) == [4, 3, 1, 1, 1, 1]);
    check_rows(&rt, &ROWS);
}
