//! Lives over a log that fails and crashes: what was answered `ok` stays, and what was in doubt stays or doesn't.
use crate::rows::check_rows;

const ROWS: &str = "=== a_commit_whose_gate_is_not_written_is_lost
# A flush is a write, a sync, the write of the gate, and a sync. Where one of the first three fails the commit
# doesn't stand in the next life, whatever the crash leaves.
a begin
a write
a commit
.round
a begin
a write
a commit
.crash HOW
b snap s
b see s 3
b see s 4
--- from log 0 12 14 lost kept torn
+++ has
a 6 commit -> log-fault
...
log flushed 2 end 80
...
life 2 from 2 next 4 oldest 3 multi 1 offset 1 oldest-multi 1 oldest-offset 1
...
b 2 see s 3 -> visible
b 3 see s 4 -> hidden
...
log flushed 3 end 142
2 checkpoint next 4 oldest 3 multi 1 offset 1 oldest-multi 1 oldest-offset 1
=== a_commit_whose_gate_is_not_synced_is_in_doubt
# Where the last sync fails the gate is on disk or isn't. It stands at an even place, of which a torn crash
# keeps nothing.
a begin
a write
a commit
.round
a begin
a write
a commit
.crash HOW
b snap s
b see s 3
b see s 4
--- from log 0 15 15 lost torn
+++ has
a 6 commit -> log-fault
...
life 2 from 2 next 4 oldest 3 multi 1 offset 1 oldest-multi 1 oldest-offset 1
...
b 2 see s 3 -> visible
b 3 see s 4 -> hidden
--- from log 0 15 15 kept
+++ has
a 6 commit -> log-fault
...
log flushed 2 end 80
...
life 2 from 3 next 5 oldest 3 multi 1 offset 1 oldest-multi 1 oldest-offset 1
...
b 2 see s 3 -> visible
b 3 see s 4 -> visible
=== a_commit_that_was_answered_ok_stays
a begin
a write
a commit
.round
a begin
a write
a commit
.crash HOW
b snap s
b see s 3
b see s 4
--- from log 0 16 16 lost kept torn
+++ has
a 6 commit -> ok
...
log flushed 3 end 98
...
life 2 from 3 next 5 oldest 3 multi 1 offset 1 oldest-multi 1 oldest-offset 1
...
b 2 see s 3 -> visible
b 3 see s 4 -> visible
";

#[test]
fn crashes_behind_a_log_that_fails(rt: HostRuntime) {
    check_rows(&rt, ROWS);
}
