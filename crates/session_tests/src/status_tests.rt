//! How ids stand: the status of an id at its question, by the rules of docs/SCRIPT-AND-REPORT.md.
use crate::test_help::check_rows;

const ROWS: &str = "=== status_follows_the_transaction
a begin
a write
a status 3
a commit
a status 3
b begin
b write
b abort
b status 4
--- report
txid report 1
life 1 from 0 next 3 oldest 3 multi 1 offset 1 oldest-multi 1 oldest-offset 1
round 1
a 1 begin -> ok
a 2 write -> ok 3
a 3 status 3 -> in-progress
a 4 commit -> ok
a 5 status 3 -> committed
b 1 begin -> ok
b 2 write -> ok 4
b 3 abort -> ok
b 4 status 4 -> aborted
history
id a 2 3
ask a 3 3
commit a 4 3
ask a 5 3
id b 2 4
abort b 3 4
ask b 4 4
multis
log flushed 2 end 80
0 checkpoint next 3 oldest 3 multi 1 offset 1 oldest-multi 1 oldest-offset 1
1 commit 3
2 abort 4
end
=== undone_savepoint_is_aborted_while_its_transaction_runs
a begin
a save
a write
a status 4
a undo
a status 4
a status 3
a commit
a status 4
a status 3
--- report
txid report 1
life 1 from 0 next 3 oldest 3 multi 1 offset 1 oldest-multi 1 oldest-offset 1
round 1
a 1 begin -> ok
a 2 save -> ok
a 3 write -> ok 3 4
a 4 status 4 -> in-progress
a 5 undo -> ok
a 6 status 4 -> aborted
a 7 status 3 -> in-progress
a 8 commit -> ok
a 9 status 4 -> aborted
a 10 status 3 -> committed
history
id a 3 3
sub a 3 3 4
ask a 4 4
undo a 5 4
ask a 6 4
ask a 7 3
commit a 8 3
ask a 9 4
ask a 10 3
multis
log flushed 2 end 80
0 checkpoint next 3 oldest 3 multi 1 offset 1 oldest-multi 1 oldest-offset 1
1 commit 3
end
=== special_ids_are_asked_for_by_no_event
a status 0
a status 1
a status 2
a status 3
--- report
txid report 1
life 1 from 0 next 3 oldest 3 multi 1 offset 1 oldest-multi 1 oldest-offset 1
round 1
a 1 status 0 -> aborted
a 2 status 1 -> committed
a 3 status 2 -> committed
a 4 status 3 -> future 3
history
ask a 4 3
multis
log flushed 1 end 62
0 checkpoint next 3 oldest 3 multi 1 offset 1 oldest-multi 1 oldest-offset 1
end
=== status_below_the_oldest_is_too_old
.start 9
.oldest 5
a status 4
a status 5
a status 8
--- report
txid report 1
life 1 from 0 next 9 oldest 5 multi 1 offset 1 oldest-multi 1 oldest-offset 1
round 1
a 1 status 4 -> too-old 5
a 2 status 5 -> aborted
a 3 status 8 -> aborted
history
ask a 1 4
ask a 2 5
ask a 3 8
multis
log flushed 1 end 62
0 checkpoint next 9 oldest 5 multi 1 offset 1 oldest-multi 1 oldest-offset 1
end
";

#[test]
fn statuses(rt: HostRuntime) {
    check_rows(&rt, ROWS);
}
