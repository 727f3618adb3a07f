//! Runs over a bank's volume that passes so many calls, and then fails each.
use crate::rows::check_rows;
use crate::runs::run_over;
use disk_core::Which::Subtrans;
use disk_fuse::Fails;
use script_rounds::RoundThreads;
use std::alloc::AllocGlobal;
use std::process::Abort;

const ROWS: &str = "=== a_fault_of_pg_xact_leaves_the_commit_pending
# The record is on disk then.
a begin
a write
a commit
a save
a commit
a abort
.round
b snap t
b see t 3
--- from xact 0 0 7 -
+++ device
+++ has
a 3 commit -> disk-fault xact 0
a 4 save -> commit-pending
a 5 commit -> disk-fault xact 0
a 6 abort -> commit-pending
round 2
b 1 snap t -> ok xmin 3 xmax 3 xip - sub - overflow no
b 2 see t 3 -> hidden
history
id a 2 3
snap b 1 t
multis
log flushed 2 end 80
0 checkpoint next 3 oldest 3 multi 1 offset 1 oldest-multi 1 oldest-offset 1
1 commit 3
end
+++ has
a 3 commit -> ok
a 4 save -> no-transaction
a 5 commit -> no-transaction
a 6 abort -> no-transaction
round 2
b 1 snap t -> ok xmin 4 xmax 4 xip - sub - overflow no
b 2 see t 3 -> visible
history
id a 2 3
commit a 3 3
snap b 1 t
multis
log flushed 2 end 80
0 checkpoint next 3 oldest 3 multi 1 offset 1 oldest-multi 1 oldest-offset 1
1 commit 3
end
=== a_fault_of_pg_xact_leaves_an_undo_and_an_abort_pending
# An abort takes the place of an undo that is pending; an abort that is pending has its record.
a begin
a write
a save
a write
a undo
a write
a commit
a undo
a abort
a undo
a commit
a abort
--- from xact 0 0 7 -
+++ device
+++ has
a 5 undo -> disk-fault xact 0
a 6 write -> undo-pending
a 7 commit -> undo-pending
a 8 undo -> disk-fault xact 0
a 9 abort -> disk-fault xact 0
a 10 undo -> abort-pending
a 11 commit -> abort-pending
a 12 abort -> disk-fault xact 0
history
id a 2 3
sub a 4 3 4
multis
log flushed 1 end 62
0 checkpoint next 3 oldest 3 multi 1 offset 1 oldest-multi 1 oldest-offset 1
1 abort 3 4
end
+++ has
a 5 undo -> ok
a 6 write -> ok -
a 7 commit -> ok
a 8 undo -> no-savepoint
a 9 abort -> no-transaction
a 10 undo -> no-savepoint
a 11 commit -> no-transaction
a 12 abort -> no-transaction
history
id a 2 3
sub a 4 3 4
undo a 5 4
commit a 7 3
multis
log flushed 2 end 80
0 checkpoint next 3 oldest 3 multi 1 offset 1 oldest-multi 1 oldest-offset 1
1 commit 3
end
=== a_sub_committed_id_is_asked_of_its_parent
# Of two ids on two pages the lower one's state can't be set, and the other one is sub-committed by then:
# whether it has committed is asked of its parent, whose page can't be read either.
.banks 2
.start 32767
a begin
a save
a write
a did 32768
a commit
a did 32768
a did 32767
--- from xact 0 0 7 -
+++ device
+++ has
a 3 write -> ok 32767 32768
a 4 did 32768 -> no
a 5 commit -> disk-fault xact 0
a 6 did 32768 -> disk-fault xact 0
a 7 did 32767 -> disk-fault xact 0
+++ has
a 3 write -> ok 32767 32768
a 4 did 32768 -> no
a 5 commit -> ok
a 6 did 32768 -> yes
a 7 did 32767 -> yes
=== a_fault_of_pg_subtrans_leaves_no_end_pending
# An id whose parent isn't recorded was given, and stays so; a commit records it first. An abort needs no
# parent.
a begin
a save
a write
a write
a commit
a save
a abort
--- from subtrans 0 0 8 -
+++ device
+++ has
a 3 write -> disk-fault subtrans 0
a 4 write -> disk-fault subtrans 0
a 5 commit -> disk-fault subtrans 0
a 6 save -> ok
a 7 abort -> ok
history
id a 3 3
sub a 3 3 4
abort a 7 3
multis
log flushed 1 end 62
0 checkpoint next 3 oldest 3 multi 1 offset 1 oldest-multi 1 oldest-offset 1
1 abort 3 4
end
+++ has
a 3 write -> ok 3 4
a 4 write -> ok -
a 5 commit -> ok
a 6 save -> no-transaction
a 7 abort -> no-transaction
history
id a 3 3
sub a 3 3 4
commit a 5 3
multis
log flushed 2 end 88
0 checkpoint next 3 oldest 3 multi 1 offset 1 oldest-multi 1 oldest-offset 1
1 commit 3 4
end
=== a_state_that_left_its_buffer_is_read_again_or_refused
# A commit, looks at one id of each of seventeen other pages, and then one at the id that committed. A bank has
# sixteen buffers, so the state is written to the volume for a page that is looked at, and is read again. It is
# found, or the look is refused. With few calls the other looks are refused, and the state is in its buffer.
.banks 1
.start 1048570
a begin
a write
a commit
a snap s
a see s 3
a see s 32771
a see s 65539
a see s 98307
a see s 131075
a see s 163843
a see s 196611
a see s 229379
a see s 262147
a see s 294915
a see s 327683
a see s 360451
a see s 393219
a see s 425987
a see s 458755
a see s 491523
a see s 524291
a see s 1048570
--- from xact 0 0 63 -
+++ device
+++ has
a 3 commit -> disk-fault xact 0
a 4 snap s -> ok xmin 1048570 xmax 1048570 xip - sub - overflow no
+++ has
a 22 see s 1048570 -> visible
history
+++ has
a 22 see s 1048570 -> disk-fault xact 0
history
+++ has
a 22 see s 1048570 -> visible
history
=== a_dump_over_a_bank_that_fails
# A dump of a page that can't be read tells the fault. A commit without subtransactions asks no page of parents.
a begin
.dump subtrans 0 0 4
a write
a commit
--- from subtrans 0 0 4 -
+++ device
+++ has
dump subtrans 0 0 4 -> disk-fault subtrans 0
round 2
a 2 write -> ok 3
a 3 commit -> ok
history
+++ has
dump subtrans 0 0 4 -> 00 00 00 00
round 2
a 2 write -> ok 3
a 3 commit -> ok
history
=== a_dump_over_a_bank_of_states_that_fails
.dump xact 4 0 1
--- from xact 0 0 7 -
+++ device
+++ has
dump xact 4 0 1 -> disk-fault xact 0
history
+++ has
dump xact 4 0 1 -> 00
history
";

#[test]
fn banks_that_fail(rt: HostRuntime) {
    check_rows(&rt, ROWS);
}

/// Thirty-three transactions of 1,000 savepoints each, all but the last committed; then a write and a commit more.
fn many_subtransactions(rt: &(impl Abort + AllocGlobal)) -> String {
    let alloc = rt.alloc();
    let saves = "a save\n".repeat(alloc, 1000).expect(rt, "memory");
    let one = format!(in alloc; "a begin\n{saves}a write\n").expect(rt, "memory");
    let committed = format!(in alloc; "{one}a commit\n").expect(rt, "memory");
    let before = committed.repeat(alloc, 32).expect(rt, "memory");
    format!(in alloc; ".banks 1\n{before}{one}a write\na commit\n").expect(rt, "memory")
}

/// A page of pg_subtrans has the parents of 2,048 ids, so that of 32,768 is the seventeenth, and one that was changed must
/// be written for it. Two calls pass at the opening, and one reads the first page. The write keeps the ids that it gave,
/// and the commit names them.
#[test]
fn a_fault_of_pg_subtrans_stops_a_write_halfway(rt: HostRuntime) {
    let script = many_subtransactions(&rt);
    let run = run_over(
        &rt,
        script.as_str(),
        Subtrans(0),
        Fails::Behind(3),
        RoundThreads::AtMost(1),
    );
    assert!(rt; run.status == 0);
    assert!(rt;
        run.written.contains(
            "
a 33098 write -> disk-fault subtrans 0
a 33099 write -> disk-fault subtrans 0
a 33100 commit -> ok
history
"
        )
    );
    assert!(rt;
        run.written.contains(
            "
sub a 33098 32765 32766
sub a 33098 32766 32767
commit a 33100 32035
multis
log flushed 34 end "
        )
    );
}
