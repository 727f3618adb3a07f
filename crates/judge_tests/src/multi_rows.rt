// A report of two lives with multixacts, judged through the tool, and what is wrong in each wrong one.
use crate::judge_tests::{check_refused, check_text};

/// A multixact is given, recorded and seen; behind a crash it is seen by its record, and given up.
const GIVEN: &str = "txid report 1
life 1 from 0 next 3 oldest 3 multi 1 offset 1 oldest-multi 1 oldest-offset 1
round 1
a 1 begin -> ok
a 2 write -> ok 3
a 3 multi 3:keysh 3:upd -> ok 1 1
a 4 commit -> ok
a 5 snap s -> ok xmin 4 xmax 4 xip - sub - overflow no
a 6 seemulti s 1 -> ok 3:keysh:visible 3:upd:visible
b 1 multi 3:sh -> not-given 3
history
id a 2 3
commit a 4 3
snap a 5 s
multis
gen a 3 1 1 3:keysh 3:upd
hold a 6 1
unhold a 6 1
log flushed 3 end 128
0 checkpoint next 3 oldest 3 multi 1 offset 1 oldest-multi 1 oldest-offset 1
1 multi 1 1 3:keysh 3:upd
2 commit 3
crash kept
life 2 from 3 next 4 oldest 3 multi 2 offset 3 oldest-multi 1 oldest-offset 1
round 1
a 1 snap s -> ok xmin 4 xmax 4 xip - sub - overflow no
a 2 seemulti s 1 -> ok 3:keysh:visible 3:upd:visible
a 3 multifreeze 1 -> ok
a 4 multifreeze 2 -> ok
a 5 multifreeze 1 -> backward 2
a 6 multifreeze 3 -> held 2
a 7 seemulti s 1 -> multi-too-old 2
a 8 seemulti s 2 -> multi-future 2
a 9 trim -> ok
a 10 multi -> member-count
a 11 multi 3:upd 3:nokeyupd -> two-updaters
a 12 multi 9:sh -> not-given 9
history
snap a 1 s
multis
hold a 2 1
unhold a 2 1
hold a 3 1
raise a 3 1 1
unhold a 3 1
raise a 4 2 3
log flushed 5 end 220
3 checkpoint next 4 oldest 3 multi 2 offset 3 oldest-multi 1 oldest-offset 1
4 truncate 3 2 3
end
";

#[test]
fn a_lawful_report_with_multixacts_is_lawful(rt: HostRuntime) {
    check_text(&rt, GIVEN, 0, "lawful\n");
}

#[test]
fn each_wrong_line_on_multixacts_is_told(rt: HostRuntime) {
    for (old, new, line) in [
        // Another offset than that of its event.
        ("3:upd -> ok 1 1\n", "3:upd -> ok 1 2\n", "unlawful 6\n"),
        // A member that committed isn't hidden.
        (
            "a 6 seemulti s 1 -> ok 3:keysh:visible",
            "a 6 seemulti s 1 -> ok 3:keysh:hidden",
            "unlawful 9\n",
        ),
        // A pin that isn't taken back.
        ("unhold a 6 1\n", "", "unlawful 9\n"),
        // An id that no member has.
        ("not-given 3", "not-given 4", "unlawful 10\n"),
        // A record with another mode than the event's.
        ("1 multi 1 1 3:keysh", "1 multi 1 1 3:sh", "unlawful 21\n"),
        // The next multixact of the records before is 2.
        (
            "oldest 3 multi 2 offset 3 oldest-multi 1 oldest-offset 1\nround",
            "oldest 3 multi 3 offset 3 oldest-multi 1 oldest-offset 1\nround",
            "unlawful 24\n",
        ),
        // Numbers that weren't so anywhere in the round.
        ("backward 2", "backward 1", "unlawful 30\n"),
        ("held 2", "held 3", "unlawful 31\n"),
        ("multi-too-old 2", "multi-too-old 3", "unlawful 32\n"),
        ("multi-future 2", "multi-future 1", "unlawful 33\n"),
        // A truncation that was answered ok and isn't in the log.
        ("4 truncate 3 2 3\n", "", "unlawful 34\n"),
        // Members are refused by themselves exactly where they are so.
        ("-> member-count", "-> two-updaters", "unlawful 35\n"),
        ("-> two-updaters", "-> member-count", "unlawful 36\n"),
        // An id past the next one isn't too old.
        ("-> not-given 9", "-> too-old 3", "unlawful 37\n"),
        // The multixact begins elsewhere. What goes by the histories isn't judged then, the event is.
        ("raise a 3 1 1", "raise a 3 1 2", "unlawful 44\n"),
        // A record of an offset that wasn't announced.
        ("truncate 3 2 3", "truncate 3 2 4", "unlawful 49\n"),
    ] {
        check_refused(&rt, GIVEN, old, new, line);
    }
}
