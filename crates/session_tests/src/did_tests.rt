//! Whether ids have committed by the stores alone, by the rules of docs/SCRIPT-AND-REPORT.md.
use crate::test_help::check_rows;

const ROWS: &str = "=== did_follows_the_transaction
a begin
a write
a status 3
a commit
a status 3
a did 3
a horizon
a drop s
--- report
txid report 1
life 1 from 0 next 3 oldest 3 multi 1 offset 1 oldest-multi 1 oldest-offset 1
round 1
a 1 begin -> ok
a 2 write -> ok 3
a 3 status 3 -> in-progress
a 4 commit -> ok
a 5 status 3 -> committed
a 6 did 3 -> yes
a 7 horizon -> ok 4
a 8 drop s -> no-snapshot
history
id a 2 3
ask a 3 3
commit a 4 3
ask a 5 3
multis
log flushed 2 end 80
0 checkpoint next 3 oldest 3 multi 1 offset 1 oldest-multi 1 oldest-offset 1
1 commit 3
end
=== ids_that_no_one_was_given
# Ids 0 to 2 have fixed answers, and no id that wasn't given has committed.
a did 0
a did 1
a did 2
a did 3
a did 4
--- part
a 1 did 0 -> no
a 2 did 1 -> yes
a 3 did 2 -> yes
a 4 did 3 -> no
a 5 did 4 -> no
history
multis
=== savepoints_have_committed_with_their_transaction
# What was rolled back hasn't committed, and what was released has with its transaction.
a begin
a save
a write
a undo
a save
a write
a release
a did 3
a did 4
a did 5
a commit
a did 3
a did 4
a did 5
b begin
b write
b abort
b did 6
--- part
a 8 did 3 -> no
a 9 did 4 -> no
a 10 did 5 -> no
a 11 commit -> ok
a 12 did 3 -> yes
a 13 did 4 -> no
a 14 did 5 -> yes
b 1 begin -> ok
b 2 write -> ok 6
b 3 abort -> ok
b 4 did 6 -> no
=== commit_over_two_pages_has_committed
# Their states lie on two pages.
.start 32767
a begin
a save
a write
a did 32767
a did 32768
a commit
a did 32767
a did 32768
--- part
a 3 write -> ok 32767 32768
a 4 did 32767 -> no
a 5 did 32768 -> no
a 6 commit -> ok
a 7 did 32767 -> yes
a 8 did 32768 -> yes
=== did_below_the_oldest_is_too_old
.start 9
.oldest 5
a did 2
a did 4
a did 5
a did 8
a did 4294967295
--- part
a 1 did 2 -> yes
a 2 did 4 -> too-old 5
a 3 did 5 -> no
a 4 did 8 -> no
a 5 did 4294967295 -> too-old 5
=== did_is_asked_near_the_next_id
# A stored id means the full id that is nearest to the next one.
.start 4294967294
.oldest 4294967290
a begin
a write
a commit
a begin
a write
a abort
a begin
a write
a commit
a did 4294967294
a did 4294967295
a did 3
a did 4
a did 4294967289
--- part
a 8 write -> ok 4294967299
a 9 commit -> ok
a 10 did 4294967294 -> yes
a 11 did 4294967295 -> no
a 12 did 3 -> yes
a 13 did 4 -> no
a 14 did 4294967289 -> too-old 4294967290
";

#[test]
fn questions(rt: HostRuntime) {
    check_rows(&rt, ROWS);
}
