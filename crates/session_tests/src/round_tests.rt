//! Rounds, limits, and commands many times over.
use crate::test_help::check_rows;

const ROWS: &str = "=== undone_savepoint_is_hidden
a begin
a write
a save
a write
a undo
a save
a write
a commit
a snap s
a see s 4
a see s 5
--- report
txid report 1
life 1 from 0 next 3 oldest 3 multi 1 offset 1 oldest-multi 1 oldest-offset 1
round 1
a 1 begin -> ok
a 2 write -> ok 3
a 3 save -> ok
a 4 write -> ok 4
a 5 undo -> ok
a 6 save -> ok
a 7 write -> ok 5
a 8 commit -> ok
a 9 snap s -> ok xmin 6 xmax 6 xip - sub - overflow no
a 10 see s 4 -> hidden
a 11 see s 5 -> visible
history
id a 2 3
sub a 4 3 4
undo a 5 4
sub a 7 3 5
commit a 8 3
snap a 9 s
multis
log flushed 2 end 88
0 checkpoint next 3 oldest 3 multi 1 offset 1 oldest-multi 1 oldest-offset 1
1 commit 3 5
end
=== xmax_past_running_top
a begin
a write
.round
c begin
c write
c commit
.round
a snap s
a commit
a see s 3
--- report
txid report 1
life 1 from 0 next 3 oldest 3 multi 1 offset 1 oldest-multi 1 oldest-offset 1
round 1
a 1 begin -> ok
a 2 write -> ok 3
round 2
c 1 begin -> ok
c 2 write -> ok 4
c 3 commit -> ok
round 3
a 3 snap s -> ok xmin 3 xmax 5 xip 3 sub - overflow no
a 4 commit -> ok
a 5 see s 3 -> hidden
history
id a 2 3
id c 2 4
commit c 3 4
snap a 3 s
commit a 4 3
multis
log flushed 3 end 98
0 checkpoint next 3 oldest 3 multi 1 offset 1 oldest-multi 1 oldest-offset 1
1 commit 4
2 commit 3
end
=== every_session_refusal
a commit
a undo
a begin
a begin
a release
a see s 3
a drop s
a snap s
a snap s
a drop s
a drop s
a undo
a save
a undo
a undo
a abort
a abort
--- report
txid report 1
life 1 from 0 next 3 oldest 3 multi 1 offset 1 oldest-multi 1 oldest-offset 1
round 1
a 1 commit -> no-transaction
a 2 undo -> no-savepoint
a 3 begin -> ok
a 4 begin -> already-open
a 5 release -> no-savepoint
a 6 see s 3 -> no-snapshot
a 7 drop s -> no-snapshot
a 8 snap s -> ok xmin 3 xmax 3 xip - sub - overflow no
a 9 snap s -> name-taken
a 10 drop s -> ok
a 11 drop s -> no-snapshot
a 12 undo -> no-savepoint
a 13 save -> ok
a 14 undo -> ok
a 15 undo -> no-savepoint
a 16 abort -> ok
a 17 abort -> no-transaction
history
snap a 8 s
drop a 10 s
multis
log flushed 1 end 62
0 checkpoint next 3 oldest 3 multi 1 offset 1 oldest-multi 1 oldest-offset 1
end
=== rounds_have_orders_of_their_own
# A round takes its sessions in the order in which they first appear there, and an empty one isn't told.
.round
a begin
b begin
.round
.round
b write
a write
b commit
.round
--- part
round 1
a 1 begin -> ok
b 1 begin -> ok
round 2
b 2 write -> ok 3
b 3 commit -> ok
a 2 write -> ok 4
history
=== ids_wrap_around
.start 4294967294
.oldest 4294967290
a begin
a write
a commit
a begin
a write
a commit
a begin
a write
a commit
a snap s
a see s 3
a see s 4294967295
--- part
life 1 from 0 next 4294967294 oldest 4294967290 multi 1 offset 1 oldest-multi 1 oldest-offset 1
round 1
a 1 begin -> ok
a 2 write -> ok 4294967294
a 3 commit -> ok
a 4 begin -> ok
a 5 write -> ok 4294967295
a 6 commit -> ok
a 7 begin -> ok
a 8 write -> ok 4294967299
a 9 commit -> ok
a 10 snap s -> ok xmin 4294967300 xmax 4294967300 xip - sub - overflow no
a 11 see s 3 -> visible
a 12 see s 4294967295 -> visible
=== id_warn_limit
.start 2107483649
a begin
a write
a commit
a begin
a write
--- part
a 2 write -> ok 2107483649
a 3 commit -> ok
a 4 begin -> ok
a 5 write -> ok 2107483650 warn
=== id_stop_limit
.start 2144483649
a begin
a write
a commit
a begin
a write
--- part
a 2 write -> ok 2144483649 warn
a 3 commit -> ok
a 4 begin -> ok
a 5 write -> stop 2144483650 2144483650
=== savepoint_1001_is_refused
a begin
1001 times a save
--- part
a 1001 save -> ok
a 1002 save -> depth-limit
=== snapshot_65_is_refused
a snap s0
a snap s1
a snap s2
a snap s3
a snap s4
a snap s5
a snap s6
a snap s7
a snap ss0
a snap ss1
a snap ss2
a snap ss3
a snap ss4
a snap ss5
a snap ss6
a snap ss7
a snap sss0
a snap sss1
a snap sss2
a snap sss3
a snap sss4
a snap sss5
a snap sss6
a snap sss7
a snap t0
a snap t1
a snap t2
a snap t3
a snap t4
a snap t5
a snap t6
a snap t7
a snap tt0
a snap tt1
a snap tt2
a snap tt3
a snap tt4
a snap tt5
a snap tt6
a snap tt7
a snap ttt0
a snap ttt1
a snap ttt2
a snap ttt3
a snap ttt4
a snap ttt5
a snap ttt6
a snap ttt7
a snap u0
a snap u1
a snap u2
a snap u3
a snap u4
a snap u5
a snap u6
a snap u7
a snap uu0
a snap uu1
a snap uu2
a snap uu3
a snap uu4
a snap uu5
a snap uu6
a snap uu7
a snap t
a drop sss7
a snap t
--- part
a 65 snap t -> snap-limit
a 66 drop sss7 -> ok
a 67 snap t -> ok xmin 3 xmax 3 xip - sub - overflow no
=== snapshot_overflows_at_65_subids
# With 64 running subtransactions a snapshot still lists all, three times in the same words; the 65th takes them out,
# and parents are asked.
a begin
64 times a save
a write
.round
c begin
c write
c commit
.round
b snap s
d snap s
d snap t
.round
a save
a write
.round
c begin
c write
c commit
.round
b snap t
b see s 67
b see t 67
b see t 69
b see s 68
b see t 68
.round
a commit
.round
b see t 67
b snap u
b see u 67
--- part
b 1 snap s -> ok xmin 3 xmax 69 xip 3 sub 4 5 6 7 8 9 10 11 12 13 14 15 16 17 18 19 20 21 22 23 24 25 26 27 28 29 30 31 32 33 34 35 36 37 38 39 40 41 42 43 44 45 46 47 48 49 50 51 52 53 54 55 56 57 58 59 60 61 62 63 64 65 66 67 overflow no
d 1 snap s -> ok xmin 3 xmax 69 xip 3 sub 4 5 6 7 8 9 10 11 12 13 14 15 16 17 18 19 20 21 22 23 24 25 26 27 28 29 30 31 32 33 34 35 36 37 38 39 40 41 42 43 44 45 46 47 48 49 50 51 52 53 54 55 56 57 58 59 60 61 62 63 64 65 66 67 overflow no
d 2 snap t -> ok xmin 3 xmax 69 xip 3 sub 4 5 6 7 8 9 10 11 12 13 14 15 16 17 18 19 20 21 22 23 24 25 26 27 28 29 30 31 32 33 34 35 36 37 38 39 40 41 42 43 44 45 46 47 48 49 50 51 52 53 54 55 56 57 58 59 60 61 62 63 64 65 66 67 overflow no
round 4
--- part
b 2 snap t -> ok xmin 3 xmax 71 xip 3 sub - overflow yes
b 3 see s 67 -> hidden
b 4 see t 67 -> hidden
b 5 see t 69 -> hidden
b 6 see s 68 -> visible
b 7 see t 68 -> visible
round 7
a 69 commit -> ok
round 8
b 8 see t 67 -> hidden
b 9 snap u -> ok xmin 71 xmax 71 xip - sub - overflow no
b 10 see u 67 -> visible
";

#[test]
fn rounds(rt: HostRuntime) {
    check_rows(&rt, ROWS);
}
