// What held the oldest multixact back, and where multixacts were given.
use crate::events::MultiAct::{self, Gen, Hold, Unhold};
use crate::events::multi;
use crate::multi_lives::places_of;
use multi_rules::{LimitAt, gen_place, held_limits};
use std::process::Abort;
use tx_events::Mode::Sh;

fn at(limit: u64, place: u64) -> LimitAt {
    LimitAt { limit, place }
}

/// After these events of sessions these are the limits of raises.
fn check_limits<R: Abort + AllocGlobal>(rt: &R, acts: &[(u32, MultiAct)], wanted: &[LimitAt]) {
    let life = places_of(rt, acts);
    let limits = held_limits(rt.alloc(), &life).expect(rt, "memory");
    assert!(rt; limits.as_slice() == wanted);
}

#[test]
fn nothing_may_be_raised_past_the_next_one_of_a_new_log(rt: HostRuntime) {
    check_limits(&rt, &[], &[at(1, 0)]);
}

#[test]
fn a_pin_holds_back_until_it_is_let_go(rt: HostRuntime) {
    // multixacts 1 and 2 are given; another session pins 1, and lets it go
    check_limits(
        &rt,
        &[
            (0, Gen(1, 1, Sh, 1)),
            (0, Gen(2, 2, Sh, 1)),
            (1, Hold(1)),
            (1, Unhold(1)),
        ],
        &[at(1, 0), at(1, 3), at(2, 1), at(3, 2), at(3, 4)],
    );
}

#[test]
fn the_least_of_several_pins_holds_back(rt: HostRuntime) {
    // 2 is pinned twice and 1 once; 1 is let go first, then one of the pins of 2
    check_limits(
        &rt,
        &[
            (0, Gen(1, 1, Sh, 1)),
            (0, Gen(2, 2, Sh, 1)),
            (1, Hold(2)),
            (2, Hold(1)),
            (1, Hold(2)),
            (2, Unhold(1)),
            (1, Unhold(2)),
        ],
        &[
            at(1, 0),
            at(1, 4),
            at(1, 5),
            at(2, 1),
            at(2, 3),
            at(2, 6),
            at(2, 7),
            at(3, 2),
        ],
    );
}

#[test]
fn a_multixact_is_given_by_one_event(rt: HostRuntime) {
    let life = places_of(
        &rt,
        &[
            (0, Gen(1, 1, Sh, 1)),
            (1, Hold(1)),
            (0, Gen(2, 2, Sh, 1)),
            (1, Unhold(1)),
        ],
    );
    // the next one wasn't given, and one far behind it neither
    for (number, place) in [(1, Some(0)), (2, Some(2)), (3, None), (4_294_967_297, None)] {
        assert!(rt;
            gen_place(&life, multi(&rt, number)) == place,
            "of {number}"
        );
    }
}
