//! Multixacts, and what is let go of them and of ids.
use crate::test_help::check_rows;

const ROWS: &str = "=== members_are_read_back
# The members of a multixact are read back by their stored halves, and stand on its pages.
a begin
a save
a write
a multi 3:keysh 4:upd
a snap s
a seemulti s 1
.dump members 0 0 16
.dump offsets 0 0 8
--- report
txid report 1
life 1 from 0 next 3 oldest 3 multi 1 offset 1 oldest-multi 1 oldest-offset 1
round 1
a 1 begin -> ok
a 2 save -> ok
a 3 write -> ok 3 4
a 4 multi 3:keysh 4:upd -> ok 1 1
a 5 snap s -> ok xmin 3 xmax 3 xip - sub - overflow no
a 6 seemulti s 1 -> ok 3:keysh:hidden 4:upd:hidden
dump members 0 0 16 -> 00 00 05 00 00 00 00 00 03 00 00 00 04 00 00 00
dump offsets 0 0 8 -> 00 00 00 00 01 00 00 00
history
id a 3 3
sub a 3 3 4
snap a 5 s
multis
gen a 4 1 1 3:keysh 4:upd
hold a 6 1
unhold a 6 1
log flushed 1 end 62
0 checkpoint next 3 oldest 3 multi 1 offset 1 oldest-multi 1 oldest-offset 1
1 multi 1 1 3:keysh 4:upd
end
=== a_frozen_multixact_is_too_old
# The oldest multixact is raised, and the one before it is too old then.
a begin
a save
a write
a multi 3:keysh 4:upd
a snap s
a seemulti s 1
a multifreeze 2
a seemulti s 1
--- report
txid report 1
life 1 from 0 next 3 oldest 3 multi 1 offset 1 oldest-multi 1 oldest-offset 1
round 1
a 1 begin -> ok
a 2 save -> ok
a 3 write -> ok 3 4
a 4 multi 3:keysh 4:upd -> ok 1 1
a 5 snap s -> ok xmin 3 xmax 3 xip - sub - overflow no
a 6 seemulti s 1 -> ok 3:keysh:hidden 4:upd:hidden
a 7 multifreeze 2 -> ok
a 8 seemulti s 1 -> multi-too-old 2
history
id a 3 3
sub a 3 3 4
snap a 5 s
multis
gen a 4 1 1 3:keysh 4:upd
hold a 6 1
unhold a 6 1
raise a 7 2 3
log flushed 1 end 62
0 checkpoint next 3 oldest 3 multi 1 offset 1 oldest-multi 1 oldest-offset 1
1 multi 1 1 3:keysh 4:upd
end
=== two_updaters_are_refused
# Of the members one may be an updater.
a begin
a save
a write
a multi 3:upd 4:nokeyupd
a multi 3:upd 4:keysh
--- part
a 3 write -> ok 3 4
a 4 multi 3:upd 4:nokeyupd -> two-updaters
a 5 multi 3:upd 4:keysh -> ok 1 1
=== a_truncation_cuts_what_is_frozen
# Pages before the oldest id are cut by a truncation, and ids before it are too old.
.start 1048570
a begin
a save
a save
a save
a save
a save
a save
a write
a commit
a snap s
a freeze 1048576
a trim
a see s 1048570
a see s 1048576
a freeze 1048578
a freeze 1048570
.dump xact 31 8191 1
--- report
txid report 1
life 1 from 0 next 1048570 oldest 3 multi 1 offset 1 oldest-multi 1 oldest-offset 1
round 1
a 1 begin -> ok
a 2 save -> ok
a 3 save -> ok
a 4 save -> ok
a 5 save -> ok
a 6 save -> ok
a 7 save -> ok
a 8 write -> ok 1048570 1048571 1048572 1048573 1048574 1048575 1048576
a 9 commit -> ok
a 10 snap s -> ok xmin 1048577 xmax 1048577 xip - sub - overflow no
a 11 freeze 1048576 -> ok
a 12 trim -> ok
a 13 see s 1048570 -> too-old 1048576
a 14 see s 1048576 -> visible
a 15 freeze 1048578 -> too-new 1048577
a 16 freeze 1048570 -> backward 1048576
dump xact 31 8191 1 -> cut 32
history
id a 8 1048570
sub a 8 1048570 1048571
sub a 8 1048571 1048572
sub a 8 1048572 1048573
sub a 8 1048573 1048574
sub a 8 1048574 1048575
sub a 8 1048575 1048576
commit a 9 1048570
snap a 10 s
oldest a 11 1048576
multis
log flushed 3 end 158
0 checkpoint next 1048570 oldest 3 multi 1 offset 1 oldest-multi 1 oldest-offset 1
1 commit 1048570 1048571 1048572 1048573 1048574 1048575 1048576
2 truncate 1048576 1 1
end
=== members_stop_before_the_oldest_offset
# No multixact is given whose members would reach the oldest offset.
.multi 2
.oldest-multi 1
.offset 1073689470
.oldest-offset 1
a begin
a write
a multi 3:sh
a multi 3:sh
--- report
txid report 1
life 1 from 0 next 3 oldest 3 multi 2 offset 1073689470 oldest-multi 1 oldest-offset 1
round 1
a 1 begin -> ok
a 2 write -> ok 3
a 3 multi 3:sh -> ok 2 1073689470
a 4 multi 3:sh -> member-stop 1073689471 1073689472
history
id a 2 3
multis
gen a 3 2 1073689470 3:sh
log flushed 1 end 62
0 checkpoint next 3 oldest 3 multi 2 offset 1073689470 oldest-multi 1 oldest-offset 1
1 multi 2 1073689470 3:sh
end
=== multixacts_stop_before_the_oldest_one
# Nor one that would reach the oldest multixact.
.multi 2144483648
.oldest-multi 1
.offset 5
.oldest-offset 1
a begin
a write
a multi 3:sh
--- report
txid report 1
life 1 from 0 next 3 oldest 3 multi 2144483648 offset 5 oldest-multi 1 oldest-offset 1
round 1
a 1 begin -> ok
a 2 write -> ok 3
a 3 multi 3:sh -> multi-stop 2144483648 2144483648
history
id a 2 3
multis
log flushed 1 end 62
0 checkpoint next 3 oldest 3 multi 2144483648 offset 5 oldest-multi 1 oldest-offset 1
end
=== no_members_begin_at_offset_zero
# A stored offset of 0 means none, so no multixact begins there.
.offset 4294967296
a begin
a write
a multi 3:sh
.dump offsets 0 4 4
--- report
txid report 1
life 1 from 0 next 3 oldest 3 multi 1 offset 4294967296 oldest-multi 1 oldest-offset 4294967296
round 1
a 1 begin -> ok
a 2 write -> ok 3
a 3 multi 3:sh -> ok 1 4294967297
dump offsets 0 4 4 -> 01 00 00 00
history
id a 2 3
multis
gen a 3 1 4294967297 3:sh
log flushed 1 end 62
0 checkpoint next 3 oldest 3 multi 1 offset 4294967296 oldest-multi 1 oldest-offset 4294967296
1 multi 1 4294967297 3:sh
end
=== a_session_is_refused_by_its_own_state
# Each refusal that goes by the session, its snapshots or the words, in its order.
a commit
a undo
a begin
a begin
a release
a see s 3
a drop s
a snap s
a snap s
a multi
a multi 3:sh
a seemulti s 1
a multifreeze 2
a multifreeze 1
a status 3
--- report
txid report 1
life 1 from 0 next 3 oldest 3 multi 1 offset 1 oldest-multi 1 oldest-offset 1
round 1
a 1 commit -> no-transaction
a 2 undo -> no-savepoint
a 3 begin -> ok
a 4 begin -> already-open
a 5 release -> no-savepoint
a 6 see s 3 -> no-snapshot
a 7 drop s -> no-snapshot
a 8 snap s -> ok xmin 3 xmax 3 xip - sub - overflow no
a 9 snap s -> name-taken
a 10 multi -> member-count
a 11 multi 3:sh -> not-given 3
a 12 seemulti s 1 -> multi-future 1
a 13 multifreeze 2 -> held 1
a 14 multifreeze 1 -> ok
a 15 status 3 -> future 3
history
snap a 8 s
ask a 15 3
multis
raise a 14 1 1
log flushed 1 end 62
0 checkpoint next 3 oldest 3 multi 1 offset 1 oldest-multi 1 oldest-offset 1
end
=== a_truncation_cuts_the_pages_of_multixacts
# The multixact before the next one is 131072, the first of page 64; the oldest offset is 104704, the first of page 64.
.multi 131073
.oldest-multi 1
.offset 104704
.oldest-offset 1
a multifreeze 131073
a trim
.dump offsets 63 0 4
.dump offsets 64 0 4
.dump members 63 0 4
.dump members 64 0 4
--- part
a 1 multifreeze 131073 -> ok
a 2 trim -> ok
dump offsets 63 0 4 -> cut 64
dump offsets 64 0 4 -> 00 00 00 00
dump members 63 0 4 -> cut 64
dump members 64 0 4 -> 00 00 00 00
--- part
raise a 1 131073 104704
--- part
1 truncate 3 131073 104704
=== a_truncation_cuts_the_parents_before_the_oldest_xmin
# The oldest xmin is 65537 behind the commit; the one before it is the first of page 32 of pg_subtrans.
.start 65535
a begin
a save
a write
a commit
a trim
.dump subtrans 31 8188 4
.dump subtrans 32 0 4
--- part
a 3 write -> ok 65535 65536
--- part
a 5 trim -> ok
dump subtrans 31 8188 4 -> cut 32
dump subtrans 32 0 4 -> ff ff 00 00
=== a_multixact_of_the_base_without_a_record_is_not_yet_there
.multi 5
.oldest-multi 1
.offset 5
.oldest-offset 1
a snap s
a seemulti s 3
a multifreeze 3
--- part
a 2 seemulti s 3 -> not-yet 3
a 3 multifreeze 3 -> not-yet 3
--- part
hold a 2 3
unhold a 2 3
hold a 3 3
unhold a 3 3
";

#[test]
fn multixacts(rt: HostRuntime) {
    check_rows(&rt, ROWS);
}
