//! Commits that are stopped at any call of any volume and gone on with, also over pages that left their buffers.
use crate::rows::check_rows;
use crate::whole_help::check_whole;

const ROWS: &str = "=== a_commit_whose_page_left_its_buffer_is_gone_on_with
# A bank has sixteen buffers, so the seventeen looks push the page of both ids out. Each call of each volume is failed once.
.banks 1
.start 1048570
a begin
a save
a write
a multi 1048570:sh
a snap s
a see s 3
a see s 32771
a see s 65539
a see s 98307
a see s 131075
a see s 163843
a see s 196611
a see s 229379
a see s 262147
a see s 294915
a see s 327683
a see s 360451
a see s 393219
a see s 425987
a see s 458755
a see s 491523
a see s 524291
a commit
a commit
.checkpoint
.crash torn
b snap t
b see t 1048570
b see t 1048571
--- report
txid report 1
life 1 from 0 next 1048570 oldest 3 multi 1 offset 1 oldest-multi 1 oldest-offset 1
round 1
a 1 begin -> ok
a 2 save -> ok
a 3 write -> ok 1048570 1048571
a 4 multi 1048570:sh -> ok 1 1
a 5 snap s -> ok xmin 1048570 xmax 1048570 xip - sub - overflow no
a 6 see s 3 -> hidden
a 7 see s 32771 -> hidden
a 8 see s 65539 -> hidden
a 9 see s 98307 -> hidden
a 10 see s 131075 -> hidden
a 11 see s 163843 -> hidden
a 12 see s 196611 -> hidden
a 13 see s 229379 -> hidden
a 14 see s 262147 -> hidden
a 15 see s 294915 -> hidden
a 16 see s 327683 -> hidden
a 17 see s 360451 -> hidden
a 18 see s 393219 -> hidden
a 19 see s 425987 -> hidden
a 20 see s 458755 -> hidden
a 21 see s 491523 -> hidden
a 22 see s 524291 -> hidden
a 23 commit -> ok
a 24 commit -> no-transaction
checkpoint -> ok
history
id a 3 1048570
sub a 3 1048570 1048571
snap a 5 s
commit a 23 1048570
multis
gen a 4 1 1 1048570:sh
log flushed 4 end 180
0 checkpoint next 1048570 oldest 3 multi 1 offset 1 oldest-multi 1 oldest-offset 1
1 multi 1 1 1048570:sh
2 commit 1048570 1048571
3 checkpoint next 1048572 oldest 3 multi 2 offset 2 oldest-multi 1 oldest-offset 1
crash torn
life 2 from 4 next 1048572 oldest 3 multi 2 offset 2 oldest-multi 1 oldest-offset 1
round 1
b 1 snap t -> ok xmin 1048572 xmax 1048572 xip - sub - overflow no
b 2 see t 1048570 -> visible
b 3 see t 1048571 -> visible
history
snap b 1 t
multis
log flushed 5 end 242
4 checkpoint next 1048572 oldest 3 multi 2 offset 2 oldest-multi 1 oldest-offset 1
end
--- once xact 0 1 40 -
+++ device
+++ one
 -> disk-fault xact 0
+++ but
a 23 commit -> disk-fault xact 0
a 24 commit -> ok
commit a 24 1048570
+++ with
a 23 commit -> ok
a 24 commit -> no-transaction
checkpoint -> disk-fault xact 0
commit a 23 1048570
log flushed 3 end 118
1 multi 1 1 1048570:sh
2 commit 1048570 1048571
crash torn
life 2 from 3 next 1048572 oldest 3 multi 2 offset 2 oldest-multi 1 oldest-offset 1
b 2 see t 1048570 -> visible
b 3 see t 1048571 -> visible
log flushed 4 end 180
3 checkpoint next 1048572 oldest 3 multi 2 offset 2 oldest-multi 1 oldest-offset 1
+++ device
+++ but
b 2 see t 1048570 -> disk-fault xact 0
+++ but
--- once subtrans 0 1 20 -
+++ device
+++ but
a 3 write -> disk-fault subtrans 0
+++ with
a 23 commit -> ok
a 24 commit -> no-transaction
checkpoint -> disk-fault subtrans 0
commit a 23 1048570
log flushed 3 end 118
1 multi 1 1 1048570:sh
2 commit 1048570 1048571
crash torn
life 2 from 3 next 1048572 oldest 3 multi 2 offset 2 oldest-multi 1 oldest-offset 1
b 2 see t 1048570 -> visible
b 3 see t 1048571 -> visible
log flushed 4 end 180
3 checkpoint next 1048572 oldest 3 multi 2 offset 2 oldest-multi 1 oldest-offset 1
+++ device
+++ but
--- once offsets 0 1 20 -
+++ device
+++ with
a 4 multi 1048570:sh -> disk-fault offsets 0
a 23 commit -> ok
checkpoint -> multi-pending a
gen a 4 1 1 1048570:sh
log flushed 3 end 118
life 2 from 3 next 1048572 oldest 3 multi 2 offset 2 oldest-multi 1 oldest-offset 1
b 2 see t 1048570 -> visible
b 3 see t 1048571 -> visible
+++ with
a 23 commit -> ok
a 24 commit -> no-transaction
checkpoint -> disk-fault offsets 0
commit a 23 1048570
log flushed 3 end 118
1 multi 1 1 1048570:sh
2 commit 1048570 1048571
crash torn
life 2 from 3 next 1048572 oldest 3 multi 2 offset 2 oldest-multi 1 oldest-offset 1
b 2 see t 1048570 -> visible
b 3 see t 1048571 -> visible
log flushed 4 end 180
3 checkpoint next 1048572 oldest 3 multi 2 offset 2 oldest-multi 1 oldest-offset 1
+++ device
+++ but
--- once members 0 1 20 -
+++ device
+++ with
a 4 multi 1048570:sh -> disk-fault members 0
a 23 commit -> ok
checkpoint -> multi-pending a
gen a 4 1 1 1048570:sh
log flushed 3 end 118
life 2 from 3 next 1048572 oldest 3 multi 2 offset 2 oldest-multi 1 oldest-offset 1
b 2 see t 1048570 -> visible
b 3 see t 1048571 -> visible
+++ with
a 23 commit -> ok
a 24 commit -> no-transaction
checkpoint -> disk-fault members 0
commit a 23 1048570
log flushed 3 end 118
1 multi 1 1 1048570:sh
2 commit 1048570 1048571
crash torn
life 2 from 3 next 1048572 oldest 3 multi 2 offset 2 oldest-multi 1 oldest-offset 1
b 2 see t 1048570 -> visible
b 3 see t 1048571 -> visible
log flushed 4 end 180
3 checkpoint next 1048572 oldest 3 multi 2 offset 2 oldest-multi 1 oldest-offset 1
+++ device
+++ but
--- once log 0 1 8 -
+++ device
--- once log 0 9 12 -
+++ with
a 22 see s 524291 -> hidden
a 23 commit -> log-fault
a 24 commit -> log-down 1
checkpoint -> commit-pending a
log flushed 1 end 62
1 multi 1 1 1048570:sh
2 commit 1048570 1048571
crash torn
life 2 from 1 next 1048570 oldest 3 multi 1 offset 1 oldest-multi 1 oldest-offset 1
b 1 snap t -> ok xmin 1048570 xmax 1048570 xip - sub - overflow no
b 2 see t 1048570 -> hidden
b 3 see t 1048571 -> hidden
log flushed 2 end 124
1 checkpoint next 1048570 oldest 3 multi 1 offset 1 oldest-multi 1 oldest-offset 1
--- once log 0 13 16 -
+++ with
a 23 commit -> ok
a 24 commit -> no-transaction
checkpoint -> log-fault
log flushed 3 end 118
crash torn
life 2 from 3 next 1048572 oldest 3 multi 2 offset 2 oldest-multi 1 oldest-offset 1
b 2 see t 1048570 -> visible
b 3 see t 1048571 -> visible
--- once log 0 17 17 -
+++ with
a 23 commit -> ok
a 24 commit -> no-transaction
checkpoint -> log-fault
log flushed 4 end 180
crash torn
life 2 from 4 next 1048572 oldest 3 multi 2 offset 2 oldest-multi 1 oldest-offset 1
b 2 see t 1048570 -> visible
b 3 see t 1048571 -> visible
--- once log 0 18 40 -
+++ device
+++ but
=== a_commit_over_two_pages_is_gone_on_with
# The subtransaction's state is on the next page, and is set to sub-committed first.
.banks 1
.start 1048575
a begin
a save
a write
a multi 1048575:sh
a snap s
a see s 3
a see s 32771
a see s 65539
a see s 98307
a see s 131075
a see s 163843
a see s 196611
a see s 229379
a see s 262147
a see s 294915
a see s 327683
a see s 360451
a see s 393219
a see s 425987
a see s 458755
a see s 491523
a see s 524291
a commit
a commit
.checkpoint
.crash torn
b snap t
b see t 1048575
b see t 1048576
--- report
txid report 1
life 1 from 0 next 1048575 oldest 3 multi 1 offset 1 oldest-multi 1 oldest-offset 1
round 1
a 1 begin -> ok
a 2 save -> ok
a 3 write -> ok 1048575 1048576
a 4 multi 1048575:sh -> ok 1 1
a 5 snap s -> ok xmin 1048575 xmax 1048575 xip - sub - overflow no
a 6 see s 3 -> hidden
a 7 see s 32771 -> hidden
a 8 see s 65539 -> hidden
a 9 see s 98307 -> hidden
a 10 see s 131075 -> hidden
a 11 see s 163843 -> hidden
a 12 see s 196611 -> hidden
a 13 see s 229379 -> hidden
a 14 see s 262147 -> hidden
a 15 see s 294915 -> hidden
a 16 see s 327683 -> hidden
a 17 see s 360451 -> hidden
a 18 see s 393219 -> hidden
a 19 see s 425987 -> hidden
a 20 see s 458755 -> hidden
a 21 see s 491523 -> hidden
a 22 see s 524291 -> hidden
a 23 commit -> ok
a 24 commit -> no-transaction
checkpoint -> ok
history
id a 3 1048575
sub a 3 1048575 1048576
snap a 5 s
commit a 23 1048575
multis
gen a 4 1 1 1048575:sh
log flushed 4 end 180
0 checkpoint next 1048575 oldest 3 multi 1 offset 1 oldest-multi 1 oldest-offset 1
1 multi 1 1 1048575:sh
2 commit 1048575 1048576
3 checkpoint next 1048577 oldest 3 multi 2 offset 2 oldest-multi 1 oldest-offset 1
crash torn
life 2 from 4 next 1048577 oldest 3 multi 2 offset 2 oldest-multi 1 oldest-offset 1
round 1
b 1 snap t -> ok xmin 1048577 xmax 1048577 xip - sub - overflow no
b 2 see t 1048575 -> visible
b 3 see t 1048576 -> visible
history
snap b 1 t
multis
log flushed 5 end 242
4 checkpoint next 1048577 oldest 3 multi 2 offset 2 oldest-multi 1 oldest-offset 1
end
--- once xact 0 1 40 -
+++ device
+++ one
 -> disk-fault xact 0
+++ but
a 23 commit -> disk-fault xact 0
a 24 commit -> ok
commit a 24 1048575
+++ with
a 23 commit -> ok
a 24 commit -> no-transaction
checkpoint -> disk-fault xact 0
commit a 23 1048575
log flushed 3 end 118
1 multi 1 1 1048575:sh
2 commit 1048575 1048576
crash torn
life 2 from 3 next 1048577 oldest 3 multi 2 offset 2 oldest-multi 1 oldest-offset 1
b 2 see t 1048575 -> visible
b 3 see t 1048576 -> visible
log flushed 4 end 180
3 checkpoint next 1048577 oldest 3 multi 2 offset 2 oldest-multi 1 oldest-offset 1
+++ device
+++ but
b 2 see t 1048575 -> disk-fault xact 0
+++ but
b 3 see t 1048576 -> disk-fault xact 0
+++ but
";

#[test]
fn commits_that_are_stopped_at_each_call(rt: HostRuntime) {
    check_rows(&rt, ROWS);
}

/// Behind a fault of any volume at any call, once or from there on, either both ids have committed or none, and both where the
/// commit was answered `ok`.
#[test]
fn a_transaction_is_whole_behind_any_fault(rt: HostRuntime) {
    let (front, _) = ROWS.split_once("--- report\n").expect(&rt, "a report");
    let (_, script) = front.split_once("\n").expect(&rt, "a script");
    let asked = ["b 2 see t 1048570 -> ", "b 3 see t 1048571 -> "];
    check_whole(&rt, script, asked, 40);
}
