//! Savepoints, snapshots and verdicts, command by command.
use crate::test_help::check_rows;

const ROWS: &str = "=== undo_of_many_levels
a begin
a write
a save
a save
a write
a save
a write
a release
a undo
a write
a undo
a write
a commit
b snap s
b see s 3
b see s 4
b see s 5
b see s 6
--- report
txid report 1
life 1 from 0 next 3 oldest 3 multi 1 offset 1 oldest-multi 1 oldest-offset 1
round 1
a 1 begin -> ok
a 2 write -> ok 3
a 3 save -> ok
a 4 save -> ok
a 5 write -> ok 4 5
a 6 save -> ok
a 7 write -> ok 6
a 8 release -> ok
a 9 undo -> ok
a 10 write -> ok -
a 11 undo -> ok
a 12 write -> ok -
a 13 commit -> ok
b 1 snap s -> ok xmin 7 xmax 7 xip - sub - overflow no
b 2 see s 3 -> visible
b 3 see s 4 -> hidden
b 4 see s 5 -> hidden
b 5 see s 6 -> hidden
history
id a 2 3
sub a 5 3 4
sub a 5 4 5
sub a 7 5 6
undo a 9 5
undo a 11 4
commit a 13 3
snap b 1 s
multis
log flushed 2 end 80
0 checkpoint next 3 oldest 3 multi 1 offset 1 oldest-multi 1 oldest-offset 1
1 commit 3
end
=== snapshot_outlives_its_transaction
a begin
a write
a snap s
a save
a write
a snap t
a commit
a see s 3
a see t 4
a snap u
a see u 3
a see u 4
a drop s
a see s 3
a snap s
a see s 4
--- report
txid report 1
life 1 from 0 next 3 oldest 3 multi 1 offset 1 oldest-multi 1 oldest-offset 1
round 1
a 1 begin -> ok
a 2 write -> ok 3
a 3 snap s -> ok xmin 3 xmax 3 xip - sub - overflow no
a 4 save -> ok
a 5 write -> ok 4
a 6 snap t -> ok xmin 3 xmax 3 xip - sub - overflow no
a 7 commit -> ok
a 8 see s 3 -> hidden
a 9 see t 4 -> hidden
a 10 snap u -> ok xmin 5 xmax 5 xip - sub - overflow no
a 11 see u 3 -> visible
a 12 see u 4 -> visible
a 13 drop s -> ok
a 14 see s 3 -> no-snapshot
a 15 snap s -> ok xmin 5 xmax 5 xip - sub - overflow no
a 16 see s 4 -> visible
history
id a 2 3
snap a 3 s
sub a 5 3 4
snap a 6 t
commit a 7 3
snap a 10 u
drop a 13 s
snap a 15 s
multis
log flushed 2 end 88
0 checkpoint next 3 oldest 3 multi 1 offset 1 oldest-multi 1 oldest-offset 1
1 commit 3 4
end
=== aborted_savepoint_is_hidden
a begin
a save
a write
a abort
b snap s
b see s 4
--- report
txid report 1
life 1 from 0 next 3 oldest 3 multi 1 offset 1 oldest-multi 1 oldest-offset 1
round 1
a 1 begin -> ok
a 2 save -> ok
a 3 write -> ok 3 4
a 4 abort -> ok
b 1 snap s -> ok xmin 5 xmax 5 xip - sub - overflow no
b 2 see s 4 -> hidden
history
id a 3 3
sub a 3 3 4
abort a 4 3
snap b 1 s
multis
log flushed 1 end 62
0 checkpoint next 3 oldest 3 multi 1 offset 1 oldest-multi 1 oldest-offset 1
1 abort 3 4
end
=== id_below_zero_is_too_old
# The full id near the xmax that ends so would be below 0.
.start 10
a snap s
a see s 4294967295
--- part
a 1 snap s -> ok xmin 10 xmax 10 xip - sub - overflow no
a 2 see s 4294967295 -> too-old 3
history
=== id_below_the_oldest_is_too_old
.start 10
.oldest 10
a snap s
a see s 4
--- part
a 1 snap s -> ok xmin 10 xmax 10 xip - sub - overflow no
a 2 see s 4 -> too-old 10
history
";

#[test]
fn commands(rt: HostRuntime) {
    check_rows(&rt, ROWS);
}
