//! The oldest id is announced, by the rules of docs/SCRIPT-AND-REPORT.md.
use crate::test_help::check_rows;

const ROWS: &str = "=== freeze_lets_old_ids_go
# What lies before the announced id isn't told any more, and the id itself is.
a begin
a write
a commit
b begin
b write
b commit
a snap s
.round
a freeze 4
a see s 3
a see s 4
a status 3
a did 4
--- report
txid report 1
life 1 from 0 next 3 oldest 3 multi 1 offset 1 oldest-multi 1 oldest-offset 1
round 1
a 1 begin -> ok
a 2 write -> ok 3
a 3 commit -> ok
a 4 snap s -> ok xmin 4 xmax 4 xip - sub - overflow no
b 1 begin -> ok
b 2 write -> ok 4
b 3 commit -> ok
round 2
a 5 freeze 4 -> ok
a 6 see s 3 -> too-old 4
a 7 see s 4 -> hidden
a 8 status 3 -> too-old 4
a 9 did 4 -> yes
history
id a 2 3
commit a 3 3
snap a 4 s
id b 2 4
commit b 3 4
oldest a 5 4
ask a 8 3
multis
log flushed 3 end 98
0 checkpoint next 3 oldest 3 multi 1 offset 1 oldest-multi 1 oldest-offset 1
1 commit 3
2 commit 4
end
=== freeze_is_refused
# The oldest id never falls, and doesn't pass the oldest xmin: neither a live snapshot's nor a running
# transaction's.
.start 9
.oldest 5
a freeze 4
a freeze 10
a snap s
a begin
a write
a commit
a freeze 10
a drop s
a begin
a write
a freeze 11
a freeze 10
a freeze 9
--- part
a 1 freeze 4 -> backward 5
a 2 freeze 10 -> too-new 9
--- part
a 7 freeze 10 -> too-new 9
a 8 drop s -> ok
--- part
a 11 freeze 11 -> too-new 10
a 12 freeze 10 -> ok
a 13 freeze 9 -> backward 10
history
=== truncation_is_logged_before_a_commit
# The limits on ids go by the announced id. A commit whose record would leave the log without a base has the
# record of a truncation before its own.
.start 2144483649
a begin
a write
a commit
a freeze 2144483650
a begin
a write
a commit
.round
b snap s
b see s 2144483650
b see s 2144483649
--- report
txid report 1
life 1 from 0 next 2144483649 oldest 3 multi 1 offset 1 oldest-multi 1 oldest-offset 1
round 1
a 1 begin -> ok
a 2 write -> ok 2144483649 warn
a 3 commit -> ok
a 4 freeze 2144483650 -> ok
a 5 begin -> ok
a 6 write -> ok 2144483650
a 7 commit -> ok
round 2
b 1 snap s -> ok xmin 2144483651 xmax 2144483651 xip - sub - overflow no
b 2 see s 2144483650 -> visible
b 3 see s 2144483649 -> too-old 2144483650
history
id a 2 2144483649
commit a 3 2144483649
oldest a 4 2144483650
id a 6 2144483650
commit a 7 2144483650
snap b 1 s
multis
log flushed 4 end 123
0 checkpoint next 2144483649 oldest 3 multi 1 offset 1 oldest-multi 1 oldest-offset 1
1 commit 2144483649
2 truncate 2144483650 1 1
3 commit 2144483650
end
";

#[test]
fn freezes(rt: HostRuntime) {
    check_rows(&rt, ROWS);
}
