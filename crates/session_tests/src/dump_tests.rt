//! Dumps between two rounds, by the rules of docs/SCRIPT-AND-REPORT.md.
use crate::test_help::check_rows;

const ROWS: &str = "=== bytes_of_the_log
# The batch of a commit record: the open gate, the length, and the record.
a begin
a write
a commit
a snap s
a see s 3
.dump log 62 19
--- report
txid report 1
life 1 from 0 next 3 oldest 3 multi 1 offset 1 oldest-multi 1 oldest-offset 1
round 1
a 1 begin -> ok
a 2 write -> ok 3
a 3 commit -> ok
a 4 snap s -> ok xmin 4 xmax 4 xip - sub - overflow no
a 5 see s 3 -> visible
dump log 62 19 -> 01 0d 00 00 00 01 03 00 00 00 00 00 00 00 00 00 00 00 00
history
id a 2 3
commit a 3 3
snap a 4 s
multis
log flushed 2 end 80
0 checkpoint next 3 oldest 3 multi 1 offset 1 oldest-multi 1 oldest-offset 1
1 commit 3
end
=== the_end_of_the_log
# Behind its end the log has no bytes.
.dump log 61 4
.dump log 1099511627776 64
a begin
.dump log 0 6
--- part
life 1 from 0 next 3 oldest 3 multi 1 offset 1 oldest-multi 1 oldest-offset 1
dump log 61 4 -> 00 00
dump log 1099511627776 64 -> -
round 1
a 1 begin -> ok
dump log 0 6 -> 01 39 00 00 00 04
history
=== states_of_three_ids
# A commit, an abort and a commit: the states 1, 2 and 1.
a begin
a write
a commit
a begin
a write
a abort
a begin
a write
a commit
.dump xact 0 0 4
--- part
a 9 commit -> ok
dump xact 0 0 4 -> 40 06 00 00
history
=== a_commit_over_two_pages
# The states and the parent of ids on two pages, whatever banks the stores have.
.start 32767
a begin
a save
a write
a commit
.dump xact 0 8191 1
.dump xact 1 0 1
.dump subtrans 16 0 4
--- part
a 4 commit -> ok
dump xact 0 8191 1 -> 40
dump xact 1 0 1 -> 01
dump subtrans 16 0 4 -> ff 7f 00 00
history
id a 3 32767
sub a 3 32767 32768
commit a 4 32767
=== states_of_running_ids
# A running id has the state 0, and a page that was never made reads as zeros.
a begin
a write
.dump xact 0 0 1
.dump subtrans 0 12 4
.dump xact 5 8190 2
a abort
--- part
a 2 write -> ok 3
dump xact 0 0 1 -> 00
dump subtrans 0 12 4 -> 00 00 00 00
dump xact 5 8190 2 -> 00 00
round 2
a 3 abort -> ok
=== a_page_that_is_cut
# A page whose segment lies wholly before that of the oldest id is cut.
.start 1048576
.oldest 1048576
.dump xact 31 8191 1
.dump xact 32 0 1
--- part
dump xact 31 8191 1 -> cut 32
dump xact 32 0 1 -> 00
=== a_page_of_parents_that_is_cut
# So is one of pg_subtrans whose segment lies wholly before that of the page of the id before the next one.
.start 1048576
.dump subtrans 479 0 4
.dump subtrans 480 0 4
.dump subtrans 511 8188 4
--- part
dump subtrans 479 0 4 -> cut 511
dump subtrans 480 0 4 -> 00 00 00 00
dump subtrans 511 8188 4 -> 00 00 00 00
";

#[test]
fn dumps(rt: HostRuntime) {
    check_rows(&rt, ROWS);
}
