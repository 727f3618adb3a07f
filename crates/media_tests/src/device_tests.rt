//! Runs over devices that fail: one volume passes so many calls, and then fails each. Opening a life makes eight calls on
//! the log's volume, and each flush four.
use crate::rows::check_rows;
use crate::runs::{run_words, text_from};
use disk_core::Which::Log;
use disk_fuse::Fails;
use script_rounds::RoundThreads;
use std::alloc::AllocGlobal;
use std::process::Abort;
use std::sync::Wait;
use std::thread::Threads;

const ROWS: &str = "=== a_life_is_not_opened_over_a_log_that_fails
a begin
--- from log 0 0 7 -
+++ device
=== a_life_is_not_opened_over_a_bank_that_fails
# A new cluster asks each bank of the four stores for its pages.
a begin
--- from xact 0 0 0 -
+++ device
--- from subtrans 0 0 0 -
+++ device
--- from offsets 0 0 0 -
+++ device
--- from members 0 0 0 -
+++ device
--- from xact 1 0 0 -
+++ device
--- from subtrans 1 0 0 -
+++ device
--- from offsets 1 0 0 -
+++ device
--- from members 1 0 0 -
+++ device
--- from xact 2 0 0 -
+++ device
--- from subtrans 2 0 0 -
+++ device
--- from offsets 2 0 0 -
+++ device
--- from members 2 0 0 -
+++ device
--- from xact 3 0 0 -
+++ device
--- from subtrans 3 0 0 -
+++ device
--- from offsets 3 0 0 -
+++ device
--- from members 3 0 0 -
+++ device
=== a_fault_of_the_log_leaves_the_commit_pending
# Whichever of the four calls of its flush fails, the commit is pending, and the log is down for all others.
a begin
a write
a commit
a begin
a save
a write
a release
a commit
a abort
.round
b begin
b write
b commit
b abort
c snap s
c see s 3
--- from log 0 8 11 -
+++ report
txid report 1
life 1 from 0 next 3 oldest 3 multi 1 offset 1 oldest-multi 1 oldest-offset 1
round 1
a 1 begin -> ok
a 2 write -> ok 3
a 3 commit -> log-fault
a 4 begin -> already-open
a 5 save -> commit-pending
a 6 write -> commit-pending
a 7 release -> no-savepoint
a 8 commit -> log-down 1
a 9 abort -> commit-pending
round 2
b 1 begin -> ok
b 2 write -> ok 4
b 3 commit -> log-down 1
b 4 abort -> ok
c 1 snap s -> ok xmin 3 xmax 5 xip 3 sub - overflow no
c 2 see s 3 -> hidden
history
id a 2 3
id b 2 4
abort b 4 4
snap c 1 s
multis
log flushed 1 end 62
0 checkpoint next 3 oldest 3 multi 1 offset 1 oldest-multi 1 oldest-offset 1
1 commit 3
end
=== a_commit_before_the_fault_is_visible_behind_it
# The commit before the fault stays, in the log and for all who look.
a begin
a write
a commit
.round
a begin
a write
a commit
.round
b snap s
b see s 3
b see s 4
--- from log 0 12 15 -
+++ report
txid report 1
life 1 from 0 next 3 oldest 3 multi 1 offset 1 oldest-multi 1 oldest-offset 1
round 1
a 1 begin -> ok
a 2 write -> ok 3
a 3 commit -> ok
round 2
a 4 begin -> ok
a 5 write -> ok 4
a 6 commit -> log-fault
round 3
b 1 snap s -> ok xmin 4 xmax 4 xip - sub - overflow no
b 2 see s 3 -> visible
b 3 see s 4 -> hidden
history
id a 2 3
commit a 3 3
id a 5 4
snap b 1 s
multis
log flushed 2 end 80
0 checkpoint next 3 oldest 3 multi 1 offset 1 oldest-multi 1 oldest-offset 1
1 commit 3
2 commit 4
end
=== an_abort_is_done_while_the_log_is_down
# An abort needs no flush, so no fault of the log meets it; of a transaction with an id it leaves its record out
# where the log is down.
a begin
a write
b begin
b write
c begin
c write
c abort
a commit
b save
b write
b undo
b abort
--- from log 0 8 8 -
+++ report
txid report 1
life 1 from 0 next 3 oldest 3 multi 1 offset 1 oldest-multi 1 oldest-offset 1
round 1
a 1 begin -> ok
a 2 write -> ok 3
a 3 commit -> log-fault
b 1 begin -> ok
b 2 write -> ok 4
b 3 save -> ok
b 4 write -> ok 5
b 5 undo -> ok
b 6 abort -> ok
c 1 begin -> ok
c 2 write -> ok 6
c 3 abort -> ok
history
id a 2 3
id b 2 4
sub b 4 4 5
undo b 5 5
abort b 6 4
id c 2 6
abort c 3 6
multis
log flushed 1 end 62
0 checkpoint next 3 oldest 3 multi 1 offset 1 oldest-multi 1 oldest-offset 1
1 commit 3
end
=== a_multixact_is_pending_while_the_log_is_down
# The first command takes a number and can't append the record; the second goes on with it, and no second number is
# taken. Its offset doesn't stand, and a commit is pending.
a begin
a write
a commit
a commit
a abort
.round
b multi 3:sh
b multi 3:sh
.round
c snap s
c seemulti s 1
.checkpoint
--- from log 0 8 11 -
+++ report
txid report 1
life 1 from 0 next 3 oldest 3 multi 1 offset 1 oldest-multi 1 oldest-offset 1
round 1
a 1 begin -> ok
a 2 write -> ok 3
a 3 commit -> log-fault
a 4 commit -> log-down 1
a 5 abort -> commit-pending
round 2
b 1 multi 3:sh -> log-down 1
b 2 multi 3:sh -> log-down 1
round 3
c 1 snap s -> ok xmin 3 xmax 3 xip - sub - overflow no
c 2 seemulti s 1 -> not-yet 1
checkpoint -> commit-pending a
history
id a 2 3
snap c 1 s
multis
gen b 1 1 1 3:sh
hold c 2 1
unhold c 2 1
log flushed 1 end 62
0 checkpoint next 3 oldest 3 multi 1 offset 1 oldest-multi 1 oldest-offset 1
1 commit 3
end
=== a_dump_over_a_log_that_fails
# A dump that met a fault doesn't put the log down: the commit behind it is told of a fault, and not that the
# log is down.
a begin
a write
.dump log 0 1
a commit
.dump log 0 1
--- from log 0 8 8 -
+++ report
txid report 1
life 1 from 0 next 3 oldest 3 multi 1 offset 1 oldest-multi 1 oldest-offset 1
round 1
a 1 begin -> ok
a 2 write -> ok 3
dump log 0 1 -> log-fault
round 2
a 3 commit -> log-fault
dump log 0 1 -> log-fault
history
id a 2 3
multis
log flushed 1 end 62
0 checkpoint next 3 oldest 3 multi 1 offset 1 oldest-multi 1 oldest-offset 1
1 commit 3
end
--- from log 0 9 9 -
+++ report
txid report 1
life 1 from 0 next 3 oldest 3 multi 1 offset 1 oldest-multi 1 oldest-offset 1
round 1
a 1 begin -> ok
a 2 write -> ok 3
dump log 0 1 -> 01
round 2
a 3 commit -> log-fault
dump log 0 1 -> log-fault
history
id a 2 3
multis
log flushed 1 end 62
0 checkpoint next 3 oldest 3 multi 1 offset 1 oldest-multi 1 oldest-offset 1
1 commit 3
end
";

/// a_generated_script_over_a_log_that_fails: what runs by the words `gen 1 1` write where the log's volume passes so many calls,
/// from the first number to the last.
const GENERATED: [(u64, u64, u8, &str); 3] = [
    (0, 7, 5, "device\n"),
    (
        8,
        11,
        0,
        "commands 15 ids 4 undone 2 commits 0 aborts 0 snaps 1 sees 1\n",
    ),
    (
        12,
        13,
        0,
        "commands 15 ids 4 undone 2 commits 1 aborts 0 snaps 1 sees 1\n",
    ),
];

fn check_generated(
    rt: &(impl Abort + AllocGlobal + Threads + Wait + Sync),
    passes: u64,
    status: u8,
    text: &str,
) {
    let words = [text_from(rt, "gen"), text_from(rt, "1"), text_from(rt, "1")];
    let run = run_words(
        rt,
        &words,
        "",
        Log,
        Fails::Behind(passes),
        RoundThreads::AtMost(1),
    );
    let is_well = run.status == status && run.written.as_str() == text;
    assert!(rt; is_well, "{passes}: {} {}", run.status, run.written);
}

#[test]
fn devices_that_fail(rt: HostRuntime) {
    check_rows(&rt, ROWS);
    for (first, last, status, text) in &GENERATED {
        for passes in *first..=*last {
            check_generated(&rt, passes, *status, text);
        }
    }
}
