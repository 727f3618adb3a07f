// What a log leaves at each of its device calls: four to open a new log, four for each flush, one to forget.
use crate::test_log::Answer::{self, Any, Done, Given, Is, Refused};
use crate::test_log::Call::{self, *};
use crate::test_log::{Row, check_rows};
use crate::test_rec::Record::{Checkpoint, Commit};
use disk_core::Crash::{Kept, Lost, Torn};
use wal_core::LogRefusal::{LogDown, LogFault};

const ROWS: [Row<'static>; 10] = [
    Row {
        name: "a_new_log_is_opened_by_four_calls",
        calls: &[],
        last: New,
        cases: &[(0, 3, None, Refused(LogFault)), (4, 5, None, Done)],
    },
    Row {
        name: "a_commit_is_found_from_its_last_sync_on",
        calls: &[
            (New, Done),
            (Append(Checkpoint(0, 3)), Given(0)),
            (Flush, Done),
            (Append(Commit(3, &[])), Given(1)),
            (Flush, Any),
            (Call::Crash, Done),
        ],
        last: Call::Found,
        cases: &[
            (8, 10, Some(Lost), Answer::Found(1, 0)),
            (8, 10, Some(Kept), Answer::Found(1, 0)),
            (8, 10, Some(Torn), Answer::Found(1, 0)),
            (11, 11, Some(Lost), Answer::Found(1, 0)),
            (11, 11, Some(Kept), Answer::Found(2, 0)),
            (11, 11, Some(Torn), Answer::Found(1, 0)),
            (12, 12, Some(Lost), Answer::Found(2, 0)),
            (12, 12, Some(Kept), Answer::Found(2, 0)),
            (12, 12, Some(Torn), Answer::Found(2, 0)),
        ],
    },
    Row {
        name: "a_log_that_was_forgotten_begins_with_its_checkpoint: forgetting fails",
        calls: &[
            (New, Done),
            (Append(Checkpoint(0, 3)), Given(0)),
            (Flush, Done),
            (Append(Commit(3, &[])), Given(1)),
            (Flush, Any),
            (Append(Checkpoint(2, 4)), Given(2)),
            (Flush, Done),
            (Forget, Refused(LogFault)),
            (Call::Crash, Done),
        ],
        last: Call::Found,
        cases: &[
            (16, 16, Some(Lost), Answer::Found(3, 0)),
            (16, 16, Some(Kept), Answer::Found(3, 0)),
            (16, 16, Some(Torn), Answer::Found(3, 0)),
        ],
    },
    Row {
        name: "a_log_that_was_forgotten_begins_with_its_checkpoint, and is forgotten again without a call",
        calls: &[
            (New, Done),
            (Append(Checkpoint(0, 3)), Given(0)),
            (Flush, Done),
            (Append(Commit(3, &[])), Given(1)),
            (Flush, Any),
            (Append(Checkpoint(2, 4)), Given(2)),
            (Flush, Done),
            (Forget, Done),
            (Forget, Done),
            (Call::Crash, Done),
        ],
        last: Call::Found,
        cases: &[
            (17, 19, Some(Lost), Answer::Found(3, 0)),
            (17, 19, Some(Kept), Answer::Found(1, 2)),
            (17, 19, Some(Torn), Answer::Found(1, 2)),
        ],
    },
    Row {
        name: "each_flush_makes_four_calls_and_a_fault_puts_the_log_down: the first flush",
        calls: &[
            (New, Done),
            (Flush, Done),
            (Append(Checkpoint(0, 3)), Given(0)),
            (Flush, Refused(LogFault)),
            (Append(Commit(3, &[])), Refused(LogDown { at: 0 })),
            (Flush, Refused(LogDown { at: 0 })),
            (Call::Ends, Answer::Ends(1, 0, 0)),
        ],
        last: Flush,
        cases: &[(4, 7, None, Refused(LogDown { at: 0 }))],
    },
    Row {
        name: "each_flush_makes_four_calls_and_a_fault_puts_the_log_down: the second flush",
        calls: &[
            (New, Done),
            (Flush, Done),
            (Append(Checkpoint(0, 3)), Given(0)),
            (Flush, Done),
            (Append(Commit(3, &[])), Given(1)),
            (Flush, Refused(LogFault)),
            (Call::Ends, Answer::Ends(2, 1, 62)),
        ],
        last: Flush,
        cases: &[(8, 11, None, Refused(LogDown { at: 1 }))],
    },
    Row {
        name: "each_flush_makes_four_calls_and_a_fault_puts_the_log_down: none",
        calls: &[
            (New, Done),
            (Flush, Done),
            (Append(Checkpoint(0, 3)), Given(0)),
            (Flush, Done),
            (Append(Commit(3, &[])), Given(1)),
            (Flush, Done),
            (Call::Ends, Answer::Ends(2, 2, 80)),
        ],
        last: Flush,
        cases: &[(12, 13, None, Done)],
    },
    Row {
        name: "a_checkpoint_that_is_not_alone_or_lower_may_not_stand_first",
        calls: &[
            (New, Done),
            (Append(Checkpoint(0, 3)), Given(0)),
            (Append(Commit(3, &[])), Given(1)),
            (Flush, Done),
            (MayForget, Is(false)),
            (Append(Checkpoint(2, 3)), Given(2)),
            (Flush, Done),
        ],
        last: MayForget,
        cases: &[(100, 100, None, Is(false))],
    },
    Row {
        name: "a_log_that_ends_with_a_checkpoint_alone_is_forgotten_after_a_start",
        calls: &[
            (Open(0), Done),
            (Call::Found, Answer::Found(1, 0)),
            (MayForget, Is(true)),
            (Append(Commit(3, &[])), Given(1)),
            (Flush, Done),
            (Reopen, Done),
            (Call::Found, Answer::Found(2, 0)),
            (MayForget, Is(false)),
            (Append(Checkpoint(2, 4)), Given(2)),
            (Flush, Done),
            (Reopen, Done),
            (Call::Found, Answer::Found(3, 0)),
            (MayForget, Is(true)),
            (Forget, Done),
            (Reopen, Done),
            (Call::Found, Answer::Found(1, 2)),
        ],
        last: MayForget,
        cases: &[(62, 62, None, Is(true))],
    },
    Row {
        name: "a_forgotten_log_is_its_checkpoint",
        calls: &[
            (Open(0), Done),
            (Append(Commit(3, &[])), Given(1)),
            (Flush, Done),
            (Reopen, Done),
            (Append(Checkpoint(2, 4)), Given(2)),
            (Flush, Done),
            (Reopen, Done),
            (Forget, Done),
            (Reopen, Done),
        ],
        last: FoundCheckpoint,
        cases: &[(62, 62, None, Answer::Checkpoint(2, [4, 3, 1, 1, 1, 1]))],
    },
];

#[test]
fn what_a_log_leaves_at_each_call(rt: HostRuntime) {
    check_rows(&rt, &ROWS);
}
