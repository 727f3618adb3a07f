// Reports of runs, as the tests of runs have them (`session_tests`, `media_tests`): each is lawful.
use crate::judge_tests::check_text;

/// A commit that a fault of the log met.
const RUN_1: &str = "txid report 1
life 1 from 0 next 3 oldest 3 multi 1 offset 1 oldest-multi 1 oldest-offset 1
round 1
a 1 begin -> ok
a 2 write -> ok 3
a 3 commit -> log-fault
a 4 begin -> already-open
a 5 save -> commit-pending
a 6 write -> commit-pending
a 7 release -> no-savepoint
a 8 commit -> log-down 1
a 9 abort -> commit-pending
round 2
b 1 begin -> ok
b 2 write -> ok 4
b 3 commit -> log-down 1
b 4 abort -> ok
c 1 snap s -> ok xmin 3 xmax 5 xip 3 sub - overflow no
c 2 see s 3 -> hidden
history
id a 2 3
id b 2 4
abort b 4 4
snap c 1 s
multis
log flushed 1 end 62
0 checkpoint next 3 oldest 3 multi 1 offset 1 oldest-multi 1 oldest-offset 1
1 commit 3
end
";

/// Two lives, and checkpoints of the same counters.
const RUN_2: &str = "txid report 1
life 1 from 0 next 3 oldest 3 multi 1 offset 1 oldest-multi 1 oldest-offset 1
checkpoint -> ok
round 1
a 1 begin -> ok
a 2 write -> ok 3
checkpoint -> ok
round 2
a 3 abort -> ok
checkpoint -> ok
history
id a 2 3
abort a 3 3
multis
log flushed 5 end 266
0 checkpoint next 3 oldest 3 multi 1 offset 1 oldest-multi 1 oldest-offset 1
1 checkpoint next 3 oldest 3 multi 1 offset 1 oldest-multi 1 oldest-offset 1
2 checkpoint next 4 oldest 3 multi 1 offset 1 oldest-multi 1 oldest-offset 1
3 abort 3
4 checkpoint next 4 oldest 3 multi 1 offset 1 oldest-multi 1 oldest-offset 1
crash torn
life 2 from 5 next 4 oldest 3 multi 1 offset 1 oldest-multi 1 oldest-offset 1
history
multis
log flushed 6 end 328
5 checkpoint next 4 oldest 3 multi 1 offset 1 oldest-multi 1 oldest-offset 1
end
";

/// Snapshots by name.
const RUN_3: &str = "txid report 1
life 1 from 0 next 3 oldest 3 multi 1 offset 1 oldest-multi 1 oldest-offset 1
round 1
a 1 begin -> ok
a 2 write -> ok 3
a 3 snap s -> ok xmin 3 xmax 3 xip - sub - overflow no
a 4 save -> ok
a 5 write -> ok 4
a 6 snap t -> ok xmin 3 xmax 3 xip - sub - overflow no
a 7 commit -> ok
a 8 see s 3 -> hidden
a 9 see t 4 -> hidden
a 10 snap u -> ok xmin 5 xmax 5 xip - sub - overflow no
a 11 see u 3 -> visible
a 12 see u 4 -> visible
a 13 drop s -> ok
a 14 see s 3 -> no-snapshot
a 15 snap s -> ok xmin 5 xmax 5 xip - sub - overflow no
a 16 see s 4 -> visible
history
id a 2 3
snap a 3 s
sub a 5 3 4
snap a 6 t
commit a 7 3
snap a 10 u
drop a 13 s
snap a 15 s
multis
log flushed 2 end 88
0 checkpoint next 3 oldest 3 multi 1 offset 1 oldest-multi 1 oldest-offset 1
1 commit 3 4
end
";

/// Whether ids committed.
const RUN_4: &str = "txid report 1
life 1 from 0 next 3 oldest 3 multi 1 offset 1 oldest-multi 1 oldest-offset 1
round 1
a 1 begin -> ok
a 2 write -> ok 3
a 3 status 3 -> in-progress
a 4 commit -> ok
a 5 status 3 -> committed
a 6 did 3 -> yes
a 7 horizon -> ok 4
a 8 drop s -> no-snapshot
history
id a 2 3
ask a 3 3
commit a 4 3
ask a 5 3
multis
log flushed 2 end 80
0 checkpoint next 3 oldest 3 multi 1 offset 1 oldest-multi 1 oldest-offset 1
1 commit 3
end
";

/// A dump of the log.
const RUN_5: &str = "txid report 1
life 1 from 0 next 3 oldest 3 multi 1 offset 1 oldest-multi 1 oldest-offset 1
round 1
a 1 begin -> ok
a 2 write -> ok 3
a 3 commit -> ok
a 4 snap s -> ok xmin 4 xmax 4 xip - sub - overflow no
a 5 see s 3 -> visible
dump log 62 19 -> 01 0d 00 00 00 01 03 00 00 00 00 00 00 00 00 00 00 00 00
history
id a 2 3
commit a 3 3
snap a 4 s
multis
log flushed 2 end 80
0 checkpoint next 3 oldest 3 multi 1 offset 1 oldest-multi 1 oldest-offset 1
1 commit 3
end
";

/// Frozen ids.
const RUN_6: &str = "txid report 1
life 1 from 0 next 3 oldest 3 multi 1 offset 1 oldest-multi 1 oldest-offset 1
round 1
a 1 begin -> ok
a 2 write -> ok 3
a 3 commit -> ok
a 4 snap s -> ok xmin 4 xmax 4 xip - sub - overflow no
b 1 begin -> ok
b 2 write -> ok 4
b 3 commit -> ok
round 2
a 5 freeze 4 -> ok
a 6 see s 3 -> too-old 4
a 7 see s 4 -> hidden
a 8 status 3 -> too-old 4
a 9 did 4 -> yes
history
id a 2 3
commit a 3 3
snap a 4 s
id b 2 4
commit b 3 4
oldest a 5 4
ask a 8 3
multis
log flushed 3 end 98
0 checkpoint next 3 oldest 3 multi 1 offset 1 oldest-multi 1 oldest-offset 1
1 commit 3
2 commit 4
end
";

/// An id that is too old for a snapshot.
const RUN_7: &str = "txid report 1
life 1 from 0 next 2144483649 oldest 3 multi 1 offset 1 oldest-multi 1 oldest-offset 1
round 1
a 1 begin -> ok
a 2 write -> ok 2144483649 warn
a 3 commit -> ok
a 4 freeze 2144483650 -> ok
a 5 begin -> ok
a 6 write -> ok 2144483650
a 7 commit -> ok
round 2
b 1 snap s -> ok xmin 2144483651 xmax 2144483651 xip - sub - overflow no
b 2 see s 2144483650 -> visible
b 3 see s 2144483649 -> too-old 2144483650
history
id a 2 2144483649
commit a 3 2144483649
oldest a 4 2144483650
id a 6 2144483650
commit a 7 2144483650
snap b 1 s
multis
log flushed 4 end 123
0 checkpoint next 2144483649 oldest 3 multi 1 offset 1 oldest-multi 1 oldest-offset 1
1 commit 2144483649
2 truncate 2144483650 1 1
3 commit 2144483650
end
";

/// Horizons.
const RUN_8: &str = "txid report 1
life 1 from 0 next 3 oldest 3 multi 1 offset 1 oldest-multi 1 oldest-offset 1
round 1
a 1 snap s -> ok xmin 3 xmax 3 xip - sub - overflow no
a 2 horizon -> ok 3
round 2
b 1 begin -> ok
b 2 write -> ok 3
b 3 commit -> ok
b 4 horizon -> ok 3
history
snap a 1 s
id b 2 3
commit b 3 3
multis
log flushed 2 end 80
0 checkpoint next 3 oldest 3 multi 1 offset 1 oldest-multi 1 oldest-offset 1
1 commit 3
end
";

/// An id that was not logged is given again.
const RUN_9: &str = "txid report 1
life 1 from 0 next 3 oldest 3 multi 1 offset 1 oldest-multi 1 oldest-offset 1
round 1
a 1 begin -> ok
a 2 write -> ok 3
a 3 commit -> ok
round 2
a 4 begin -> ok
a 5 write -> ok 4
history
id a 2 3
commit a 3 3
id a 5 4
multis
log flushed 2 end 80
0 checkpoint next 3 oldest 3 multi 1 offset 1 oldest-multi 1 oldest-offset 1
1 commit 3
crash lost
life 2 from 2 next 4 oldest 3 multi 1 offset 1 oldest-multi 1 oldest-offset 1
round 1
b 1 begin -> ok
b 2 write -> ok 4
history
id b 2 4
multis
log flushed 3 end 142
2 checkpoint next 4 oldest 3 multi 1 offset 1 oldest-multi 1 oldest-offset 1
end
";

/// Special ids.
const RUN_11: &str = "txid report 1
life 1 from 0 next 3 oldest 3 multi 1 offset 1 oldest-multi 1 oldest-offset 1
round 1
a 1 snap s -> ok xmin 3 xmax 3 xip - sub - overflow no
a 2 see s 0 -> hidden
a 3 see s 1 -> visible
a 4 see s 2 -> visible
history
snap a 1 s
multis
log flushed 1 end 62
0 checkpoint next 3 oldest 3 multi 1 offset 1 oldest-multi 1 oldest-offset 1
end
";

/// How a special id stands.
const RUN_12: &str = "txid report 1
life 1 from 0 next 3 oldest 3 multi 1 offset 1 oldest-multi 1 oldest-offset 1
round 1
a 1 status 0 -> aborted
a 2 status 1 -> committed
a 3 status 2 -> committed
a 4 status 3 -> future 3
history
ask a 4 3
multis
log flushed 1 end 62
0 checkpoint next 3 oldest 3 multi 1 offset 1 oldest-multi 1 oldest-offset 1
end
";

/// Rounds of two sessions.
const RUN_10: &str = "txid report 1
life 1 from 0 next 3 oldest 3 multi 1 offset 1 oldest-multi 1 oldest-offset 1
round 1
a 1 begin -> ok
a 2 write -> ok 3
round 2
c 1 begin -> ok
c 2 write -> ok 4
c 3 commit -> ok
round 3
a 3 snap s -> ok xmin 3 xmax 5 xip 3 sub - overflow no
a 4 commit -> ok
a 5 see s 3 -> hidden
history
id a 2 3
id c 2 4
commit c 3 4
snap a 3 s
commit a 4 3
multis
log flushed 3 end 98
0 checkpoint next 3 oldest 3 multi 1 offset 1 oldest-multi 1 oldest-offset 1
1 commit 4
2 commit 3
end
";

#[test]
fn reports_of_runs_are_lawful(rt: HostRuntime) {
    for text in [
        RUN_1, RUN_2, RUN_3, RUN_4, RUN_5, RUN_6, RUN_7, RUN_8, RUN_9, RUN_11, RUN_12, RUN_10,
    ] {
        check_text(&rt, text, 0, "lawful\n");
    }
}
