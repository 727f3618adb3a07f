//! The oldest xmin, and commits over two pages, which lie in one bank or in two.
use crate::test_help::check_rows;

const ROWS: &str = "=== snapshot_holds_the_horizon_back
# No id from a live snapshot's xmin on is let go, whoever asks.
a snap s
a horizon
.round
b begin
b write
b commit
b horizon
--- report
txid report 1
life 1 from 0 next 3 oldest 3 multi 1 offset 1 oldest-multi 1 oldest-offset 1
round 1
a 1 snap s -> ok xmin 3 xmax 3 xip - sub - overflow no
a 2 horizon -> ok 3
round 2
b 1 begin -> ok
b 2 write -> ok 3
b 3 commit -> ok
b 4 horizon -> ok 3
history
snap a 1 s
id b 2 3
commit b 3 3
multis
log flushed 2 end 80
0 checkpoint next 3 oldest 3 multi 1 offset 1 oldest-multi 1 oldest-offset 1
1 commit 3
end
=== running_transaction_holds_the_horizon_back
# A running transaction holds it back too, and a savepoint in it doesn't; later ones that have ended don't let
# it go.
a begin
a write
a save
a write
.round
b begin
b write
b commit
b horizon
.round
a commit
.round
b horizon
--- part
b 3 commit -> ok
b 4 horizon -> ok 3
round 3
--- part
b 5 horizon -> ok 6
history
=== dropped_snapshot_lets_the_horizon_go
# A dropped snapshot lets it go on, to the next snapshot's xmax.
a snap s
.round
b begin
b write
b abort
.round
a horizon
a drop s
a horizon
--- part
a 2 horizon -> ok 3
a 3 drop s -> ok
a 4 horizon -> ok 4
history
=== banks_change_no_report
# A commit over two pages, which lie in one bank or in two.
.start 32767
a begin
a save
a write
a commit
b snap s
b see s 32767
b see s 32768
--- report
txid report 1
life 1 from 0 next 32767 oldest 3 multi 1 offset 1 oldest-multi 1 oldest-offset 1
round 1
a 1 begin -> ok
a 2 save -> ok
a 3 write -> ok 32767 32768
a 4 commit -> ok
b 1 snap s -> ok xmin 32769 xmax 32769 xip - sub - overflow no
b 2 see s 32767 -> visible
b 3 see s 32768 -> visible
history
id a 3 32767
sub a 3 32767 32768
commit a 4 32767
snap b 1 s
multis
log flushed 2 end 88
0 checkpoint next 32767 oldest 3 multi 1 offset 1 oldest-multi 1 oldest-offset 1
1 commit 32767 32768
end
=== any_number_of_banks_gives_one_report
# Two ids on neighbouring pages, whose states lie in one bank or in two.
.start 32767
a begin
a save
a write
a save
a write
a undo
a commit
b begin
b write
b abort
.round
c snap s
c see s 32767
c see s 32768
c see s 32769
c see s 32770
--- report
txid report 1
life 1 from 0 next 32767 oldest 3 multi 1 offset 1 oldest-multi 1 oldest-offset 1
round 1
a 1 begin -> ok
a 2 save -> ok
a 3 write -> ok 32767 32768
a 4 save -> ok
a 5 write -> ok 32769
a 6 undo -> ok
a 7 commit -> ok
b 1 begin -> ok
b 2 write -> ok 32770
b 3 abort -> ok
round 2
c 1 snap s -> ok xmin 32771 xmax 32771 xip - sub - overflow no
c 2 see s 32767 -> visible
c 3 see s 32768 -> visible
c 4 see s 32769 -> hidden
c 5 see s 32770 -> hidden
history
id a 3 32767
sub a 3 32767 32768
sub a 5 32768 32769
undo a 6 32769
commit a 7 32767
id b 2 32770
abort b 3 32770
snap c 1 s
multis
log flushed 2 end 88
0 checkpoint next 32767 oldest 3 multi 1 offset 1 oldest-multi 1 oldest-offset 1
1 commit 32767 32768
2 abort 32770
end
";

#[test]
fn horizons(rt: HostRuntime) {
    check_rows(&rt, ROWS);
}
