//! Checkpoints over devices that fail, and the lives behind them.
use crate::rows::check_rows;

const ROWS: &str = "=== a_checkpoint_whose_gate_is_not_written_is_lost
# The opening makes eight calls, the commit four, and the checkpoint five: a write, a sync, the write of the
# gate, and a sync; and then the forget. Where one of the first three fails its record doesn't stand in the next
# life.
a begin
a write
a commit
.checkpoint
.checkpoint
.crash HOW
b snap s
b see s 3
--- from log 0 12 14 lost kept torn
+++ has
checkpoint -> log-fault
checkpoint -> log-down 2
...
log flushed 2 end 80
0 checkpoint next 3 oldest 3 multi 1 offset 1 oldest-multi 1 oldest-offset 1
1 commit 3
2 checkpoint next 4 oldest 3 multi 1 offset 1 oldest-multi 1 oldest-offset 1
...
life 2 from 2 next 4 oldest 3 multi 1 offset 1 oldest-multi 1 oldest-offset 1
...
log flushed 3 end 142
2 checkpoint next 4 oldest 3 multi 1 offset 1 oldest-multi 1 oldest-offset 1
...
b 2 see s 3 -> visible
=== a_checkpoint_whose_gate_is_not_synced_is_in_doubt
# Where the last sync fails the gate is on disk or isn't. It stands at an even place, of which a torn crash
# keeps nothing.
a begin
a write
a commit
.checkpoint
.checkpoint
.crash HOW
b snap s
b see s 3
--- from log 0 15 15 lost torn
+++ has
checkpoint -> log-fault
checkpoint -> log-down 2
...
log flushed 2 end 80
0 checkpoint next 3 oldest 3 multi 1 offset 1 oldest-multi 1 oldest-offset 1
...
life 2 from 2 next 4 oldest 3 multi 1 offset 1 oldest-multi 1 oldest-offset 1
...
b 2 see s 3 -> visible
--- from log 0 15 15 kept
+++ has
checkpoint -> log-fault
checkpoint -> log-down 2
...
log flushed 2 end 80
0 checkpoint next 3 oldest 3 multi 1 offset 1 oldest-multi 1 oldest-offset 1
...
life 2 from 3 next 4 oldest 3 multi 1 offset 1 oldest-multi 1 oldest-offset 1
...
b 2 see s 3 -> visible
=== a_checkpoint_whose_forget_fails_stays
# Where the forget fails the record is on disk. The log is down, too.
a begin
a write
a commit
.checkpoint
.checkpoint
.crash HOW
b snap s
b see s 3
--- from log 0 16 16 lost kept torn
+++ has
checkpoint -> log-fault
checkpoint -> log-down 3
...
log flushed 3 end 142
0 checkpoint next 3 oldest 3 multi 1 offset 1 oldest-multi 1 oldest-offset 1
...
2 checkpoint next 4 oldest 3 multi 1 offset 1 oldest-multi 1 oldest-offset 1
...
life 2 from 3 next 4 oldest 3 multi 1 offset 1 oldest-multi 1 oldest-offset 1
...
log flushed 4 end 204
3 checkpoint next 4 oldest 3 multi 1 offset 1 oldest-multi 1 oldest-offset 1
...
b 2 see s 3 -> visible
=== a_checkpoint_that_was_answered_ok_stays
# Once it was answered `ok` it stays, whatever becomes of the next one.
a begin
a write
a commit
.checkpoint
.checkpoint
.crash HOW
b snap s
b see s 3
--- from log 0 17 19 lost kept torn
+++ has
checkpoint -> ok
checkpoint -> log-fault
...
log flushed 3 end 142
0 checkpoint next 3 oldest 3 multi 1 offset 1 oldest-multi 1 oldest-offset 1
...
3 checkpoint next 4 oldest 3 multi 1 offset 1 oldest-multi 1 oldest-offset 1
...
life 2 from 3 next 4 oldest 3 multi 1 offset 1 oldest-multi 1 oldest-offset 1
...
b 2 see s 3 -> visible
--- from log 0 22 22 lost kept torn
+++ has
checkpoint -> ok
checkpoint -> ok
...
log flushed 4 end 204
0 checkpoint next 3 oldest 3 multi 1 offset 1 oldest-multi 1 oldest-offset 1
...
life 2 from 4 next 4 oldest 3 multi 1 offset 1 oldest-multi 1 oldest-offset 1
...
b 2 see s 3 -> visible
=== a_checkpoint_over_records_that_cannot_be_flushed
# What isn't flushed yet is flushed first. Where that fails no checkpoint is appended.
a begin
a write
a abort
.checkpoint
.crash kept
--- from log 0 8 10 -
+++ has
a 3 abort -> ok
checkpoint -> log-fault
history
id a 2 3
abort a 3 3
multis
log flushed 1 end 62
0 checkpoint next 3 oldest 3 multi 1 offset 1 oldest-multi 1 oldest-offset 1
1 abort 3
crash kept
life 2 from 1 next 3 oldest 3 multi 1 offset 1 oldest-multi 1 oldest-offset 1
=== a_checkpoint_over_a_bank_that_fails
# A session whose commit has its record and not its states holds a checkpoint up. Of two the one is named that
# appears first in the script, though the other one committed first. A fault of the bank is told where no
# session is in the midst of a commit, and leaves the log alone.
b begin
a begin
a write
b write
.round
a commit
b commit
.checkpoint
.checkpoint
--- from xact 0 0 8 -
+++ device
+++ has
a 3 commit -> disk-fault xact 0
b 3 commit -> disk-fault xact 0
checkpoint -> commit-pending b
checkpoint -> commit-pending b
history
+++ has
a 3 commit -> ok
b 3 commit -> ok
checkpoint -> disk-fault xact 0
checkpoint -> disk-fault xact 0
history
id b 2 3
id a 2 4
commit a 3 4
commit b 3 3
multis
log flushed 3 end 98
0 checkpoint next 3 oldest 3 multi 1 offset 1 oldest-multi 1 oldest-offset 1
1 commit 4
2 commit 3
end
+++ has
a 3 commit -> ok
b 3 commit -> ok
checkpoint -> ok
=== a_checkpoint_syncs_each_bank
# Each bank of the four stores is synced, also one that has no page.
.checkpoint
--- from xact 0 0 5 -
+++ device
+++ has
checkpoint -> disk-fault xact 0
history
multis
log flushed 1 end 62
+++ has
checkpoint -> ok
history
--- from subtrans 0 0 5 -
+++ device
+++ has
checkpoint -> disk-fault subtrans 0
history
multis
log flushed 1 end 62
+++ has
checkpoint -> ok
history
--- from offsets 0 0 5 -
+++ device
+++ has
checkpoint -> disk-fault offsets 0
history
multis
log flushed 1 end 62
+++ has
checkpoint -> ok
history
--- from members 0 0 5 -
+++ device
+++ has
checkpoint -> disk-fault members 0
history
multis
log flushed 1 end 62
+++ has
checkpoint -> ok
history
--- from xact 1 0 5 -
+++ device
+++ has
checkpoint -> disk-fault xact 1
history
multis
log flushed 1 end 62
+++ has
checkpoint -> ok
history
--- from subtrans 1 0 5 -
+++ device
+++ has
checkpoint -> disk-fault subtrans 1
history
multis
log flushed 1 end 62
+++ has
checkpoint -> ok
history
--- from offsets 1 0 5 -
+++ device
+++ has
checkpoint -> disk-fault offsets 1
history
multis
log flushed 1 end 62
+++ has
checkpoint -> ok
history
--- from members 1 0 5 -
+++ device
+++ has
checkpoint -> disk-fault members 1
history
multis
log flushed 1 end 62
+++ has
checkpoint -> ok
history
--- from xact 2 0 5 -
+++ device
+++ has
checkpoint -> disk-fault xact 2
history
multis
log flushed 1 end 62
+++ has
checkpoint -> ok
history
--- from subtrans 2 0 5 -
+++ device
+++ has
checkpoint -> disk-fault subtrans 2
history
multis
log flushed 1 end 62
+++ has
checkpoint -> ok
history
--- from offsets 2 0 5 -
+++ device
+++ has
checkpoint -> disk-fault offsets 2
history
multis
log flushed 1 end 62
+++ has
checkpoint -> ok
history
--- from members 2 0 5 -
+++ device
+++ has
checkpoint -> disk-fault members 2
history
multis
log flushed 1 end 62
+++ has
checkpoint -> ok
history
--- from xact 3 0 5 -
+++ device
+++ has
checkpoint -> disk-fault xact 3
history
multis
log flushed 1 end 62
+++ has
checkpoint -> ok
history
--- from subtrans 3 0 5 -
+++ device
+++ has
checkpoint -> disk-fault subtrans 3
history
multis
log flushed 1 end 62
+++ has
checkpoint -> ok
history
--- from offsets 3 0 5 -
+++ device
+++ has
checkpoint -> disk-fault offsets 3
history
multis
log flushed 1 end 62
+++ has
checkpoint -> ok
history
--- from members 3 0 5 -
+++ device
+++ has
checkpoint -> disk-fault members 3
history
multis
log flushed 1 end 62
+++ has
checkpoint -> ok
history
=== a_checkpoint_over_a_bank_of_parents_that_fails
# A parent that is recorded stays so, and its transaction goes on.
a begin
a save
a write
.checkpoint
a commit
b snap s
b see s 4
--- from subtrans 0 0 8 -
+++ device
+++ has
a 3 write -> disk-fault subtrans 0
checkpoint -> disk-fault subtrans 0
round 2
a 4 commit -> disk-fault subtrans 0
+++ has
a 3 write -> ok 3 4
checkpoint -> disk-fault subtrans 0
round 2
a 4 commit -> ok
b 1 snap s -> ok xmin 5 xmax 5 xip - sub - overflow no
b 2 see s 4 -> visible
+++ has
a 3 write -> ok 3 4
checkpoint -> ok
round 2
a 4 commit -> ok
b 1 snap s -> ok xmin 5 xmax 5 xip - sub - overflow no
b 2 see s 4 -> visible
";

#[test]
fn checkpoints_over_devices_that_fail(rt: HostRuntime) {
    check_rows(&rt, ROWS);
}
