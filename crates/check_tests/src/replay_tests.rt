// Which events may come, and what was visible where.
use crate::events::Act::{Abort, Ask, Commit, Drop, Id, Oldest, Snap, Sub, Undo};
use crate::lives::check;

#[test]
fn commit_is_visible_behind_its_place(rt: HostRuntime) {
    check(
        &rt,
        &[
            (0, 1, Id(3), true),
            (1, 2, Id(4), true),
            (0, 3, Commit(3), true),
            (1, 4, Abort(4), true),
        ],
        &[
            (2, 3, false),
            (3, 3, true),
            (4, 3, true),
            (4, 4, false),
            (4, 5, false),
        ],
    );
}

#[test]
fn special_ids_and_the_base_are_visible_at_once(rt: HostRuntime) {
    check(
        &rt,
        &[],
        &[
            (0, 0, false),
            (0, 1, true),
            (0, 2, true),
            (0, 1000, true),
            (0, 3, false),
        ],
    );
}

#[test]
fn undone_savepoint_is_hidden(rt: HostRuntime) {
    check(
        &rt,
        &[
            (0, 1, Id(3), true),
            (0, 2, Sub(3, 4), true),
            (0, 3, Sub(4, 5), true),
            (0, 4, Sub(3, 6), true),
            (0, 5, Undo(4), true),
            (0, 6, Undo(5), false),
            (0, 7, Sub(5, 7), false),
            (0, 8, Sub(6, 7), true),
            (0, 9, Commit(3), true),
        ],
        &[
            (7, 3, true),
            (7, 4, false),
            (7, 5, false),
            (7, 6, true),
            (7, 7, true),
            (6, 7, false),
        ],
    );
}

#[test]
fn an_early_undo_leaves_later_ids_open(rt: HostRuntime) {
    check(
        &rt,
        &[
            (0, 1, Id(3), true),
            (0, 2, Sub(3, 4), true),
            (0, 3, Sub(4, 5), true),
            (0, 4, Sub(3, 6), true),
            (0, 5, Sub(5, 7), true),
            (0, 6, Sub(3, 8), true),
            (0, 7, Sub(6, 9), true),
            (0, 8, Sub(4, 10), true),
            (0, 9, Undo(4), true),
            (0, 10, Undo(10), false),
            (0, 11, Sub(7, 11), false),
            (0, 12, Sub(9, 11), true),
            (0, 13, Undo(6), true),
            (0, 14, Undo(11), false),
            (0, 15, Sub(3, 12), true),
            (0, 16, Commit(3), true),
        ],
        &[
            (13, 3, true),
            (13, 4, false),
            (13, 5, false),
            (13, 6, false),
            (13, 7, false),
            (13, 8, true),
            (13, 9, false),
            (13, 10, false),
            (13, 11, false),
            (13, 12, true),
            (12, 8, false),
        ],
    );
}

#[test]
fn ids_come_one_after_another(rt: HostRuntime) {
    check(
        &rt,
        &[
            (0, 1, Id(4), false),
            (0, 2, Id(3), true),
            (0, 3, Id(4), false),
            (1, 4, Sub(3, 4), false),
            (0, 5, Sub(3, 5), false),
            (0, 6, Sub(4, 4), false),
            (1, 7, Id(4), true),
        ],
        &[],
    );
}

#[test]
fn ends_are_of_the_own_open_top(rt: HostRuntime) {
    check(
        &rt,
        &[
            (0, 1, Id(3), true),
            (0, 2, Sub(3, 4), true),
            (1, 3, Commit(3), false),
            (0, 4, Commit(4), false),
            (0, 5, Abort(4), false),
            (0, 6, Undo(3), false),
            (0, 7, Commit(3), true),
            (0, 8, Commit(3), false),
            (0, 9, Undo(4), false),
            (0, 10, Id(5), true),
        ],
        &[],
    );
}

#[test]
fn snapshots_hold_back_the_oldest_id(rt: HostRuntime) {
    check(
        &rt,
        &[
            (0, 1, Snap(b's'), true),
            (0, 2, Snap(b's'), false),
            (1, 3, Snap(b's'), true),
            (1, 4, Drop(b's'), true),
            (1, 5, Drop(b's'), false),
            (1, 6, Id(3), true),
            (1, 7, Commit(3), true),
            (1, 8, Oldest(4), false),
            (0, 9, Drop(b's'), true),
            (1, 10, Oldest(4), true),
            (1, 11, Oldest(3), false),
            (1, 12, Oldest(5), false),
        ],
        &[],
    );
}

#[test]
fn numbers_never_fall_and_special_ids_are_not_asked_for(rt: HostRuntime) {
    check(
        &rt,
        &[
            (0, 7, Ask(3), true),
            (0, 7, Ask(3), true),
            (0, 6, Ask(3), false),
            (1, 6, Ask(3), true),
            (1, 7, Ask(2), false),
        ],
        &[],
    );
}
