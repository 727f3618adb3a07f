//! Checkpoints between two rounds.
use crate::test_help::check_rows;

const ROWS: &str = "=== a_crash_behind_a_checkpoint
# The next life goes on from the checkpoint's counters, and has what was committed before it.
a begin
a write
a commit
.checkpoint
.crash lost
a snap s
a see s 3
--- report
txid report 1
life 1 from 0 next 3 oldest 3 multi 1 offset 1 oldest-multi 1 oldest-offset 1
round 1
a 1 begin -> ok
a 2 write -> ok 3
a 3 commit -> ok
checkpoint -> ok
history
id a 2 3
commit a 3 3
multis
log flushed 3 end 142
0 checkpoint next 3 oldest 3 multi 1 offset 1 oldest-multi 1 oldest-offset 1
1 commit 3
2 checkpoint next 4 oldest 3 multi 1 offset 1 oldest-multi 1 oldest-offset 1
crash lost
life 2 from 3 next 4 oldest 3 multi 1 offset 1 oldest-multi 1 oldest-offset 1
round 1
a 1 snap s -> ok xmin 4 xmax 4 xip - sub - overflow no
a 2 see s 3 -> visible
history
snap a 1 s
multis
log flushed 4 end 204
3 checkpoint next 4 oldest 3 multi 1 offset 1 oldest-multi 1 oldest-offset 1
end
=== checkpoints_before_between_and_behind_rounds
# Each has the counters behind the rounds before it, and stands alone in its batch: so the abort between two of
# them too. A transaction may go on over one.
.checkpoint
a begin
a write
.checkpoint
a abort
.checkpoint
.crash torn
--- report
txid report 1
life 1 from 0 next 3 oldest 3 multi 1 offset 1 oldest-multi 1 oldest-offset 1
checkpoint -> ok
round 1
a 1 begin -> ok
a 2 write -> ok 3
checkpoint -> ok
round 2
a 3 abort -> ok
checkpoint -> ok
history
id a 2 3
abort a 3 3
multis
log flushed 5 end 266
0 checkpoint next 3 oldest 3 multi 1 offset 1 oldest-multi 1 oldest-offset 1
1 checkpoint next 3 oldest 3 multi 1 offset 1 oldest-multi 1 oldest-offset 1
2 checkpoint next 4 oldest 3 multi 1 offset 1 oldest-multi 1 oldest-offset 1
3 abort 3
4 checkpoint next 4 oldest 3 multi 1 offset 1 oldest-multi 1 oldest-offset 1
crash torn
life 2 from 5 next 4 oldest 3 multi 1 offset 1 oldest-multi 1 oldest-offset 1
history
multis
log flushed 6 end 328
5 checkpoint next 4 oldest 3 multi 1 offset 1 oldest-multi 1 oldest-offset 1
end
=== an_id_given_before_a_checkpoint_is_not_given_again
# So an id that no other record tells of isn't given again: that of a transaction that ran on over the
# checkpoint.
a begin
a write
.checkpoint
.crash lost
b begin
b write
b snap s
b see s 3
--- part
log flushed 2 end 124
--- part
1 checkpoint next 4 oldest 3 multi 1 offset 1 oldest-multi 1 oldest-offset 1
--- part
life 2 from 2 next 4 oldest 3 multi 1 offset 1 oldest-multi 1 oldest-offset 1
--- part
b 2 write -> ok 4
--- part
b 4 see s 3 -> hidden
=== a_checkpoint_has_the_oldest_id
# It has the oldest id that was announced, which no other record has, whatever banks the stores have.
.start 2144483649
a begin
a write
a commit
a freeze 2144483650
.checkpoint
.crash kept
b status 2144483649
--- part
a 4 freeze 2144483650 -> ok
checkpoint -> ok
history
--- part
2 checkpoint next 2144483650 oldest 2144483650 multi 1 offset 1 oldest-multi 1 oldest-offset 1
--- part
life 2 from 3 next 2144483650 oldest 2144483650 multi 1 offset 1 oldest-multi 1 oldest-offset 1
--- part
b 1 status 2144483649 -> too-old 2144483650
=== bytes_of_a_log_that_was_forgotten
# What was forgotten goes, and places stay: the bytes of the checkpoint stand where they were written.
a begin
a write
a commit
.checkpoint
.dump log 80 6
.dump log 141 4
.dump xact 0 0 1
--- part
checkpoint -> ok
dump log 80 6 -> 01 39 00 00 00 04
dump log 141 4 -> 00 00
dump xact 0 0 1 -> 40
history
";

#[test]
fn checkpoints(rt: HostRuntime) {
    check_rows(&rt, ROWS);
}
