// Bytes that were worked out by hand from the format.
use crate::test_rec::Record::{self, Abort, Checkpoint, Commit, Multi, Truncate};
use crate::test_rec::{is_read, is_spelled, rec_of};
use tx_events::Mode;

// each_record_has_its_bytes_and_is_read_again
#[rattlefmt::skip]
const RECORDS: [(Record<'static>, &[u8]); 5] = [
    (
        Checkpoint(0, 3),
        &[4, 0, 0, 0, 0, 0, 0, 0, 0, 3, 0, 0, 0, 0, 0, 0, 0, 3, 0, 0, 0, 0, 0, 0, 0, 1, 0, 0, 0, 0, 0, 0, 0,
            1, 0, 0, 0, 0, 0, 0, 0, 1, 0, 0, 0, 0, 0, 0, 0, 1, 0, 0, 0, 0, 0, 0, 0],
    ),
    (Commit(3, &[]), &[1, 3, 0, 0, 0, 0, 0, 0, 0, 0, 0, 0, 0]),
    (
        Abort(260, &[261, 4_294_967_299]),
        &[2, 4, 1, 0, 0, 0, 0, 0, 0, 2, 0, 0, 0, 5, 1, 0, 0, 0, 0, 0, 0, 3, 0, 0, 0, 1, 0, 0, 0],
    ),
    (
        Multi(7, 4_294_967_295, &[(Mode::KeySh, 3, 1), (Mode::Upd, 4, 1)]),
        &[3, 7, 0, 0, 0, 0, 0, 0, 0, 255, 255, 255, 255, 0, 0, 0, 0, 2, 0, 0, 0, 0, 3, 0, 0, 0, 0, 0, 0, 0,
            5, 4, 0, 0, 0, 0, 0, 0, 0],
    ),
    (
        Truncate(4_294_967_299, 2, 9),
        &[5, 3, 0, 0, 0, 1, 0, 0, 0, 2, 0, 0, 0, 0, 0, 0, 0, 9, 0, 0, 0, 0, 0, 0, 0],
    ),
];

/// What becomes of a record's bytes, of which one at a place becomes another, and whether they are read as a record.
type Change = (&'static str, usize, u8, bool);

// an_unlawful_record_is_not_read: an abort of 260 with two subtransactions
#[rattlefmt::skip]
const ABORT: [u8; 29] =
    [2, 4, 1, 0, 0, 0, 0, 0, 0, 2, 0, 0, 0, 5, 1, 0, 0, 0, 0, 0, 0, 3, 0, 0, 0, 1, 0, 0, 0];

const ABORTS: [Change; 6] = [
    ("a tag of no record, 0", 0, 0, false),
    ("a tag of no record, 6", 0, 6, false),
    ("another tag with the same fields, a commit's", 0, 1, true),
    ("a top of 4", 2, 0, true),
    ("a subtransaction that isn't above its top", 13, 4, false),
    (
        "a subtransaction that isn't above the one before",
        25,
        0,
        false,
    ),
];

#[rattlefmt::skip]
const TRUNCATION: [u8; 25] =
    [5, 3, 0, 0, 0, 1, 0, 0, 0, 2, 0, 0, 0, 0, 0, 0, 0, 9, 0, 0, 0, 0, 0, 0, 0];

const TRUNCATIONS: [Change; 1] = [("an oldest id of 2 behind an epoch", 1, 2, false)];

#[rattlefmt::skip]
const MULTI: [u8; 39] =
    [3, 7, 0, 0, 0, 0, 0, 0, 0, 255, 255, 255, 255, 0, 0, 0, 0, 2, 0, 0, 0, 0, 3, 0, 0, 0, 0, 0, 0, 0,
        5, 4, 0, 0, 0, 0, 0, 0, 0];

const MULTIS: [Change; 6] = [
    ("a multixact of 0", 1, 0, false),
    ("no members", 17, 0, false),
    ("one member", 17, 1, true),
    ("65 members", 17, 65, false),
    ("a mode past the last", 30, 6, false),
    ("a member that is no full id", 31, 1, false),
];

#[rattlefmt::skip]
const CHECKPOINT: [u8; 57] =
    [4, 0, 0, 0, 0, 0, 0, 0, 0, 3, 0, 0, 0, 0, 0, 0, 0, 3, 0, 0, 0, 0, 0, 0, 0, 1, 0, 0, 0, 0, 0, 0, 0,
        1, 0, 0, 0, 0, 0, 0, 0, 1, 0, 0, 0, 0, 0, 0, 0, 1, 0, 0, 0, 0, 0, 0, 0];

const CHECKPOINTS: [Change; 1] = [("a checkpoint whose oldest id is none", 17, 0, false)];

const UNLAWFUL: [(&[u8], &[Change]); 4] = [
    (&ABORT, &ABORTS),
    (&TRUNCATION, &TRUNCATIONS),
    (&MULTI, &MULTIS),
    (&CHECKPOINT, &CHECKPOINTS),
];

#[test]
fn records_have_the_bytes_of_the_format(rt: HostRuntime) {
    for (place, (record, bytes)) in RECORDS.iter().enumerate() {
        let rec = rec_of(&rt, *record);
        assert!(rt; is_spelled(&rt, &rec, bytes), "record {place}");
    }
    for (bytes, changes) in &UNLAWFUL {
        for (name, at, byte, wanted) in *changes {
            let came = is_read(&rt, bytes, *at, *byte);
            assert!(rt;
                came == *wanted,
                "an_unlawful_record_is_not_read: {name}: {came} came"
            );
        }
    }
}
