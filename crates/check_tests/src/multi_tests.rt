// Which events of multixacts may come.
use crate::events::MultiAct::{Gen, Hold, Raise, Unhold};
use crate::events::{NEW_LOG, Start};
use crate::multi_lives::{check, check_first};
use tx_events::Mode::{NoKeyUpd, Sh, Upd};

#[test]
fn multixacts_come_one_after_another_with_their_members(rt: HostRuntime) {
    check(
        &rt,
        NEW_LOG,
        &[
            (0, Gen(2, 1, Sh, 1), false),
            (0, Gen(1, 2, Sh, 1), false),
            (0, Gen(1, 1, Sh, 2), true),
            (0, Gen(1, 1, Sh, 2), false),
            (0, Gen(2, 2, Sh, 1), false),
            (1, Gen(2, 3, Sh, 1), true),
            (1, Gen(3, 4, Sh, 64), true),
        ],
    );
}

#[test]
fn a_multixact_has_1_to_64_members_and_at_most_one_updater(rt: HostRuntime) {
    check(
        &rt,
        NEW_LOG,
        &[
            (0, Gen(1, 1, Sh, 0), false),
            (0, Gen(1, 1, Sh, 65), false),
            (0, Gen(1, 1, Upd, 2), false),
            (0, Gen(1, 1, NoKeyUpd, 2), false),
            (0, Gen(1, 1, Upd, 1), true),
        ],
    );
}

#[test]
fn no_members_begin_where_the_stored_offset_would_be_zero(rt: HostRuntime) {
    let start = Start {
        multi: 1,
        oldest_multi: 1,
        offset: 4_294_967_296,
        oldest_offset: 4_294_967_296,
    };
    check(
        &rt,
        start,
        &[
            (0, Gen(1, 4_294_967_296, Sh, 1), false),
            (0, Gen(1, 4_294_967_297, Sh, 1), true),
        ],
    );
}

#[test]
fn multixacts_and_members_stop_at_their_limits(rt: HostRuntime) {
    let last = Start {
        multi: 2_144_483_647,
        oldest_multi: 1,
        offset: 1,
        oldest_offset: 1,
    };
    check(
        &rt,
        last,
        &[
            (0, Gen(2_144_483_647, 1, Sh, 1), true),
            (0, Gen(2_144_483_648, 2, Sh, 1), false),
        ],
    );
    let full = Start {
        multi: 2,
        oldest_multi: 1,
        offset: 1_073_689_470,
        oldest_offset: 1,
    };
    check(
        &rt,
        full,
        &[
            (0, Gen(2, 1_073_689_470, Sh, 2), false),
            (0, Gen(2, 1_073_689_470, Sh, 1), true),
            (0, Gen(3, 1_073_689_471, Sh, 1), false),
        ],
    );
}

#[test]
fn multixacts_from_the_oldest_to_the_last_are_pinned(rt: HostRuntime) {
    let start = Start {
        multi: 10,
        oldest_multi: 5,
        offset: 100,
        oldest_offset: 50,
    };
    check(
        &rt,
        start,
        &[
            (0, Hold(4), false),
            (0, Hold(10), false),
            (0, Hold(5), true),
            (0, Hold(9), true),
            (1, Unhold(5), false),
            (0, Unhold(6), false),
            (0, Unhold(5), true),
            (0, Unhold(5), false),
            (0, Unhold(9), true),
        ],
    );
}

#[test]
fn pins_hold_back_the_oldest_multixact(rt: HostRuntime) {
    check(
        &rt,
        NEW_LOG,
        &[
            (0, Gen(1, 1, Sh, 2), true),
            (0, Gen(2, 3, Sh, 1), true),
            (1, Hold(2), true),
            (0, Raise(3, 4), false),
            (0, Raise(2, 2), false),
            (0, Raise(2, 3), true),
            (0, Raise(1, 1), false),
            (1, Unhold(2), true),
            (0, Raise(3, 3), false),
            (0, Raise(4, 4), false),
            (0, Raise(3, 4), true),
        ],
    );
}

#[test]
fn first_event_that_may_not_come_is_told(rt: HostRuntime) {
    check_first(&rt, &[], None);
    check_first(
        &rt,
        &[Gen(1, 1, Sh, 2), Hold(1), Unhold(1), Raise(2, 3)],
        None,
    );
    check_first(
        &rt,
        &[Gen(1, 1, Sh, 2), Raise(2, 3), Hold(1), Hold(3)],
        Some(2),
    );
    check_first(&rt, &[Hold(1)], Some(0));
}
