//! Rows of sessions that wait for each other.
use crate::turns::{A, B, C, Row, check_turns};
use script_rounds::RoundThreads;

const ROWS: [Row; 6] = [
    Row {
        name: "a_child_gets_its_parent_while_an_overflowed_snapshot_looks",
        script: "# The child 68 has no parent yet at the first look, which is over, or held before a second section, until a has committed;
# the second look comes to its state behind that commit, and asks for its parents then.
a begin
64 times a save
a write
.round
a save
a write
a commit
a horizon
b snap t
b see t 68
b see t 68
b horizon
c begin
c write
c commit
c horizon
.round
b snap u
b see u 68
",
        turns: &[
            (C, (2, 1), A, (68, 2)),
            (B, (1, 1), C, (4, 1)),
            (A, (68, 2), B, (2, 2)),
            (B, (2, 2), A, (70, 1)),
            (B, (3, 1), A, (70, 1)),
        ],
        texts: "part
b 1 snap t -> ok xmin 3 xmax 70 xip 3 sub - overflow yes
b 2 see t 68 -> hidden
b 3 see t 68 -> hidden
--- part
b 5 snap u -> ok xmin 70 xmax 70 xip - sub - overflow no
b 6 see u 68 -> visible
history
--- part
sub a 68 67 68
id c 2 69
commit c 3 69
snap b 1 t
commit a 69 3
snap b 5 u
",
    },
    Row {
        name: "page_of_a_parent_is_cut_below_a_question",
        script: "# 1048576 is read as sub-committed, and its parent's state when that is cut: the first commit has not been seen when the
# question was begun.
.start 1048575
a begin
a save
a write
.round
a commit
a horizon
b did 1048576
b did 1048576
c freeze 1048576
c trim
c horizon
.dump xact 31 8191 1
",
        turns: &[
            (B, (1, 2), A, (4, 4)),
            (A, (4, 4), B, (1, 4)),
            (C, (1, 1), A, (5, 1)),
            (B, (1, 4), C, (3, 1)),
        ],
        texts: "part
a 4 commit -> ok
a 5 horizon -> ok 1048577
b 1 did 1048576 -> no
b 2 did 1048576 -> yes
c 1 freeze 1048576 -> ok
c 2 trim -> ok
c 3 horizon -> ok 1048577
dump xact 31 8191 1 -> cut 32
",
    },
    Row {
        name: "page_of_a_parent_is_cut_and_the_child_is_too_old",
        script: ".start 1048575
a begin
a save
a write
.round
a commit
a horizon
b did 1048576
c freeze 1048577
c trim
c horizon
",
        turns: &[
            (B, (1, 2), A, (4, 4)),
            (A, (4, 4), B, (1, 4)),
            (C, (1, 1), A, (5, 1)),
            (B, (1, 4), C, (3, 1)),
        ],
        texts: "part
b 1 did 1048576 -> too-old 1048577
c 1 freeze 1048577 -> ok
c 2 trim -> ok
",
    },
    Row {
        name: "a_multixact_is_looked_at_while_it_is_made",
        script: "# At the first look it has its number alone, at the second its members too, at the third its offset.
a begin
a write
b snap s
.round
a multi 3:sh
a horizon
b seemulti s 1
b seemulti s 1
b seemulti s 1
",
        turns: &[
            (B, (2, 1), A, (3, 3)),
            (A, (3, 3), B, (3, 1)),
            (B, (3, 1), A, (3, 7)),
            (A, (3, 7), B, (4, 1)),
            (B, (4, 1), A, (4, 1)),
        ],
        texts: "part
a 3 multi 3:sh -> ok 1 1
a 4 horizon -> ok 3
b 2 seemulti s 1 -> not-yet 1
b 3 seemulti s 1 -> not-yet 1
b 4 seemulti s 1 -> ok 3:sh:hidden
--- part
gen a 3 1 1 3:sh
hold b 2 1
unhold b 2 1
hold b 3 1
unhold b 3 1
hold b 4 1
unhold b 4 1
",
    },
    Row {
        name: "a_multixact_gets_its_offset_behind_a_pin",
        script: "a begin
a write
b snap s
.round
a multi 3:sh
a horizon
b seemulti s 1
",
        turns: &[
            (B, (2, 1), A, (3, 3)),
            (A, (3, 3), B, (2, 2)),
            (B, (2, 2), A, (4, 1)),
        ],
        texts: "part
b 2 seemulti s 1 -> ok 3:sh:hidden
--- part
gen a 3 1 1 3:sh
hold b 2 1
unhold b 2 1
",
    },
    Row {
        name: "members_end_where_the_next_multixact_begins",
        script: "# The next one has its number and no offset at the first look.
a begin
a write
a multi 3:sh
b snap s
.round
a multi 3:keysh
a horizon
b seemulti s 1
b seemulti s 1
",
        turns: &[
            (B, (2, 1), A, (4, 7)),
            (A, (4, 7), B, (3, 1)),
            (B, (3, 1), A, (5, 1)),
        ],
        texts: "part
a 4 multi 3:keysh -> ok 2 2
a 5 horizon -> ok 3
b 2 seemulti s 1 -> not-yet 2
b 3 seemulti s 1 -> ok 3:sh:hidden
",
    },
];

/// Each session runs on a thread of its own.
#[test]
fn sessions_that_wait_for_each_other(rt: HostRuntime) {
    for row in &ROWS {
        check_turns(&rt, row, RoundThreads::OneEach, false);
    }
}
