//! Lives, one behind a crash of the other.
use crate::test_help::check_rows;

const ROWS: &str = "=== a_crash_begins_a_life
# A crash is followed by an opening also where it is the script's last line.
.crash torn
--- report
txid report 1
life 1 from 0 next 3 oldest 3 multi 1 offset 1 oldest-multi 1 oldest-offset 1
history
multis
log flushed 1 end 62
0 checkpoint next 3 oldest 3 multi 1 offset 1 oldest-multi 1 oldest-offset 1
crash torn
life 2 from 1 next 3 oldest 3 multi 1 offset 1 oldest-multi 1 oldest-offset 1
history
multis
log flushed 2 end 124
1 checkpoint next 3 oldest 3 multi 1 offset 1 oldest-multi 1 oldest-offset 1
end
=== an_id_that_was_not_logged_is_given_again
# An id that no record tells of is given again. Sessions, commands and rounds count anew.
a begin
a write
a commit
.round
a begin
a write
.crash lost
b begin
b write
--- report
txid report 1
life 1 from 0 next 3 oldest 3 multi 1 offset 1 oldest-multi 1 oldest-offset 1
round 1
a 1 begin -> ok
a 2 write -> ok 3
a 3 commit -> ok
round 2
a 4 begin -> ok
a 5 write -> ok 4
history
id a 2 3
commit a 3 3
id a 5 4
multis
log flushed 2 end 80
0 checkpoint next 3 oldest 3 multi 1 offset 1 oldest-multi 1 oldest-offset 1
1 commit 3
crash lost
life 2 from 2 next 4 oldest 3 multi 1 offset 1 oldest-multi 1 oldest-offset 1
round 1
b 1 begin -> ok
b 2 write -> ok 4
history
id b 2 4
multis
log flushed 3 end 142
2 checkpoint next 4 oldest 3 multi 1 offset 1 oldest-multi 1 oldest-offset 1
end
=== lives_go_on_from_what_is_on_disk
# What a life's commits and truncations left on disk is there in each later one.
.start 2144483649
a begin
a write
a commit
a freeze 2144483650
a begin
a write
a commit
.crash lost
b begin
b write
b commit
.crash torn
.crash kept
c snap s
c see s 2144483650
c see s 2144483651
--- part
2 truncate 2144483650 1 1
--- part
life 2 from 4 next 2144483651 oldest 2144483650 multi 1 offset 1 oldest-multi 1 oldest-offset 1
--- part
b 2 write -> ok 2144483651
--- part
life 3 from 6 next 2144483652 oldest 2144483650 multi 1 offset 1 oldest-multi 1 oldest-offset 1
--- part
life 4 from 7 next 2144483652 oldest 2144483650 multi 1 offset 1 oldest-multi 1 oldest-offset 1
--- part
c 1 snap s -> ok xmin 2144483652 xmax 2144483652 xip - sub - overflow no
c 2 see s 2144483650 -> visible
c 3 see s 2144483651 -> visible
--- part
log flushed 8 end 327
7 checkpoint next 2144483652 oldest 2144483650 multi 1 offset 1 oldest-multi 1 oldest-offset 1
";

#[test]
fn lives(rt: HostRuntime) {
    check_rows(&rt, ROWS);
}
