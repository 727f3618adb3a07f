//! Commands and checkpoints that one call stops, and that are gone on with. What runs write is worked out by hand from the rules.
use crate::rows::check_rows;

const ROWS: &str = "=== a_log_that_failed_once_is_down
# Opening a life makes eight calls on the log, and a flush four. Whichever of these fails, the log stays down, though its
# volume does all other calls.
a begin
a write
a commit
a commit
a abort
.round
b multi 3:sh
b multi 3:sh
.round
c snap s
c seemulti s 1
.checkpoint
--- report
txid report 1
life 1 from 0 next 3 oldest 3 multi 1 offset 1 oldest-multi 1 oldest-offset 1
round 1
a 1 begin -> ok
a 2 write -> ok 3
a 3 commit -> ok
a 4 commit -> no-transaction
a 5 abort -> no-transaction
round 2
b 1 multi 3:sh -> ok 1 1
b 2 multi 3:sh -> ok 2 2
round 3
c 1 snap s -> ok xmin 4 xmax 4 xip - sub - overflow no
c 2 seemulti s 1 -> ok 3:sh:visible
checkpoint -> ok
history
id a 2 3
commit a 3 3
snap c 1 s
multis
gen b 1 1 1 3:sh
gen b 2 2 2 3:sh
hold c 2 1
unhold c 2 1
log flushed 5 end 207
0 checkpoint next 3 oldest 3 multi 1 offset 1 oldest-multi 1 oldest-offset 1
1 commit 3
2 multi 1 1 3:sh
3 multi 2 2 3:sh
4 checkpoint next 4 oldest 3 multi 3 offset 3 oldest-multi 1 oldest-offset 1
end
--- once log 0 1 8 -
+++ device
--- once log 0 9 12 -
+++ report
txid report 1
life 1 from 0 next 3 oldest 3 multi 1 offset 1 oldest-multi 1 oldest-offset 1
round 1
a 1 begin -> ok
a 2 write -> ok 3
a 3 commit -> log-fault
a 4 commit -> log-down 1
a 5 abort -> commit-pending
round 2
b 1 multi 3:sh -> log-down 1
b 2 multi 3:sh -> log-down 1
round 3
c 1 snap s -> ok xmin 3 xmax 3 xip - sub - overflow no
c 2 seemulti s 1 -> not-yet 1
checkpoint -> commit-pending a
history
id a 2 3
snap c 1 s
multis
gen b 1 1 1 3:sh
hold c 2 1
unhold c 2 1
log flushed 1 end 62
0 checkpoint next 3 oldest 3 multi 1 offset 1 oldest-multi 1 oldest-offset 1
1 commit 3
end
=== an_undo_is_gone_on_with
a begin
a write
a save
a write
a undo
a undo
a write
a commit
b snap s
b see s 3
b see s 4
--- report
txid report 1
life 1 from 0 next 3 oldest 3 multi 1 offset 1 oldest-multi 1 oldest-offset 1
round 1
a 1 begin -> ok
a 2 write -> ok 3
a 3 save -> ok
a 4 write -> ok 4
a 5 undo -> ok
a 6 undo -> no-savepoint
a 7 write -> ok -
a 8 commit -> ok
b 1 snap s -> ok xmin 5 xmax 5 xip - sub - overflow no
b 2 see s 3 -> visible
b 3 see s 4 -> hidden
history
id a 2 3
sub a 4 3 4
undo a 5 4
commit a 8 3
snap b 1 s
multis
log flushed 2 end 80
0 checkpoint next 3 oldest 3 multi 1 offset 1 oldest-multi 1 oldest-offset 1
1 commit 3
end
--- once xact 0 1 8 -
+++ device
+++ but
a 5 undo -> disk-fault xact 0
a 6 undo -> ok
undo a 6 4
+++ but
=== an_abort_is_gone_on_with
a begin
a write
a abort
a abort
b snap s
b see s 3
--- report
txid report 1
life 1 from 0 next 3 oldest 3 multi 1 offset 1 oldest-multi 1 oldest-offset 1
round 1
a 1 begin -> ok
a 2 write -> ok 3
a 3 abort -> ok
a 4 abort -> no-transaction
b 1 snap s -> ok xmin 4 xmax 4 xip - sub - overflow no
b 2 see s 3 -> hidden
history
id a 2 3
abort a 3 3
snap b 1 s
multis
log flushed 1 end 62
0 checkpoint next 3 oldest 3 multi 1 offset 1 oldest-multi 1 oldest-offset 1
1 abort 3
end
--- once xact 0 1 8 -
+++ device
+++ but
a 3 abort -> disk-fault xact 0
a 4 abort -> ok
abort a 4 3
+++ but
=== a_write_is_gone_on_with
# Its ids are given, and the second write records the parent.
a begin
a save
a write
a write
a commit
b snap s
b see s 4
--- report
txid report 1
life 1 from 0 next 3 oldest 3 multi 1 offset 1 oldest-multi 1 oldest-offset 1
round 1
a 1 begin -> ok
a 2 save -> ok
a 3 write -> ok 3 4
a 4 write -> ok -
a 5 commit -> ok
b 1 snap s -> ok xmin 5 xmax 5 xip - sub - overflow no
b 2 see s 4 -> visible
history
id a 3 3
sub a 3 3 4
commit a 5 3
snap b 1 s
multis
log flushed 2 end 88
0 checkpoint next 3 oldest 3 multi 1 offset 1 oldest-multi 1 oldest-offset 1
1 commit 3 4
end
--- once subtrans 0 1 8 -
+++ device
+++ but
a 3 write -> disk-fault subtrans 0
+++ but
=== a_multixact_is_finished_by_the_next_one
# It has its number and its record; the next command sets its members and its offset, and then makes its own.
a begin
a write
a multi 3:sh
a multi 3:sh
a snap s
a seemulti s 1
a seemulti s 2
.checkpoint
--- report
txid report 1
life 1 from 0 next 3 oldest 3 multi 1 offset 1 oldest-multi 1 oldest-offset 1
round 1
a 1 begin -> ok
a 2 write -> ok 3
a 3 multi 3:sh -> ok 1 1
a 4 multi 3:sh -> ok 2 2
a 5 snap s -> ok xmin 3 xmax 3 xip - sub - overflow no
a 6 seemulti s 1 -> ok 3:sh:hidden
a 7 seemulti s 2 -> ok 3:sh:hidden
checkpoint -> ok
history
id a 2 3
snap a 5 s
multis
gen a 3 1 1 3:sh
gen a 4 2 2 3:sh
hold a 6 1
unhold a 6 1
hold a 7 2
unhold a 7 2
log flushed 4 end 189
0 checkpoint next 3 oldest 3 multi 1 offset 1 oldest-multi 1 oldest-offset 1
1 multi 1 1 3:sh
2 multi 2 2 3:sh
3 checkpoint next 4 oldest 3 multi 3 offset 3 oldest-multi 1 oldest-offset 1
end
--- once offsets 0 1 10 -
+++ device
+++ but
a 3 multi 3:sh -> disk-fault offsets 0
+++ with
a 3 multi 3:sh -> ok 1 1
a 4 multi 3:sh -> ok 2 2
checkpoint -> disk-fault offsets 0
log flushed 3 end 127
2 multi 2 2 3:sh
end
+++ but
--- once members 0 1 10 -
+++ device
+++ but
a 3 multi 3:sh -> disk-fault members 0
+++ with
a 3 multi 3:sh -> ok 1 1
a 4 multi 3:sh -> ok 2 2
checkpoint -> disk-fault members 0
log flushed 3 end 127
2 multi 2 2 3:sh
end
+++ but
=== a_checkpoint_is_made_again
# Behind a fault of a bank the same life makes the next one, behind a fault of the log the next life does.
a begin
a write
a commit
.checkpoint
.checkpoint
.crash lost
b snap s
b see s 3
.checkpoint
--- report
txid report 1
life 1 from 0 next 3 oldest 3 multi 1 offset 1 oldest-multi 1 oldest-offset 1
round 1
a 1 begin -> ok
a 2 write -> ok 3
a 3 commit -> ok
checkpoint -> ok
checkpoint -> ok
history
id a 2 3
commit a 3 3
multis
log flushed 4 end 204
0 checkpoint next 3 oldest 3 multi 1 offset 1 oldest-multi 1 oldest-offset 1
1 commit 3
2 checkpoint next 4 oldest 3 multi 1 offset 1 oldest-multi 1 oldest-offset 1
3 checkpoint next 4 oldest 3 multi 1 offset 1 oldest-multi 1 oldest-offset 1
crash lost
life 2 from 4 next 4 oldest 3 multi 1 offset 1 oldest-multi 1 oldest-offset 1
round 1
b 1 snap s -> ok xmin 4 xmax 4 xip - sub - overflow no
b 2 see s 3 -> visible
checkpoint -> ok
history
snap b 1 s
multis
log flushed 6 end 328
4 checkpoint next 4 oldest 3 multi 1 offset 1 oldest-multi 1 oldest-offset 1
5 checkpoint next 4 oldest 3 multi 1 offset 1 oldest-multi 1 oldest-offset 1
end
--- once xact 0 1 20 -
+++ device
+++ with
a 3 commit -> disk-fault xact 0
checkpoint -> commit-pending a
checkpoint -> commit-pending a
log flushed 2 end 80
life 2 from 2 next 4 oldest 3 multi 1 offset 1 oldest-multi 1 oldest-offset 1
b 2 see s 3 -> visible
checkpoint -> ok
log flushed 4 end 204
+++ with
checkpoint -> disk-fault xact 0
checkpoint -> ok
log flushed 3 end 142
2 checkpoint next 4 oldest 3 multi 1 offset 1 oldest-multi 1 oldest-offset 1
life 2 from 3 next 4 oldest 3 multi 1 offset 1 oldest-multi 1 oldest-offset 1
b 2 see s 3 -> visible
checkpoint -> ok
log flushed 5 end 266
+++ with
checkpoint -> ok
checkpoint -> disk-fault xact 0
log flushed 3 end 142
life 2 from 3 next 4 oldest 3 multi 1 offset 1 oldest-multi 1 oldest-offset 1
b 2 see s 3 -> visible
checkpoint -> ok
log flushed 5 end 266
+++ device
+++ but
b 2 see s 3 -> disk-fault xact 0
+++ with
checkpoint -> ok
checkpoint -> ok
log flushed 4 end 204
life 2 from 4 next 4 oldest 3 multi 1 offset 1 oldest-multi 1 oldest-offset 1
b 2 see s 3 -> visible
checkpoint -> disk-fault xact 0
log flushed 5 end 266
+++ but
--- once log 0 1 50 -
+++ device
+++ with
a 3 commit -> log-fault
checkpoint -> commit-pending a
checkpoint -> commit-pending a
log flushed 1 end 62
life 2 from 1 next 3 oldest 3 multi 1 offset 1 oldest-multi 1 oldest-offset 1
b 2 see s 3 -> hidden
checkpoint -> ok
log flushed 3 end 186
+++ with
checkpoint -> log-fault
checkpoint -> log-down 2
log flushed 2 end 80
life 2 from 2 next 4 oldest 3 multi 1 offset 1 oldest-multi 1 oldest-offset 1
b 2 see s 3 -> visible
checkpoint -> ok
log flushed 4 end 204
+++ with
checkpoint -> log-fault
checkpoint -> log-down 3
log flushed 3 end 142
life 2 from 3 next 4 oldest 3 multi 1 offset 1 oldest-multi 1 oldest-offset 1
b 2 see s 3 -> visible
checkpoint -> ok
log flushed 5 end 266
+++ with
checkpoint -> ok
checkpoint -> log-fault
log flushed 3 end 142
life 2 from 3 next 4 oldest 3 multi 1 offset 1 oldest-multi 1 oldest-offset 1
b 2 see s 3 -> visible
checkpoint -> ok
log flushed 5 end 266
+++ with
checkpoint -> ok
checkpoint -> log-fault
log flushed 4 end 204
life 2 from 4 next 4 oldest 3 multi 1 offset 1 oldest-multi 1 oldest-offset 1
b 2 see s 3 -> visible
checkpoint -> ok
log flushed 6 end 328
+++ device
+++ with
life 2 from 4 next 4 oldest 3 multi 1 offset 1 oldest-multi 1 oldest-offset 1
b 2 see s 3 -> visible
checkpoint -> log-fault
log flushed 5 end 266
+++ with
life 2 from 4 next 4 oldest 3 multi 1 offset 1 oldest-multi 1 oldest-offset 1
b 2 see s 3 -> visible
checkpoint -> log-fault
log flushed 6 end 328
+++ but
";

#[test]
fn commands_that_are_stopped_once(rt: HostRuntime) {
    check_rows(&rt, ROWS);
}
