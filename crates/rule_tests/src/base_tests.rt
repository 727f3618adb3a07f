// Which counters a life may start from, by the limits worked out by hand.
use std::process::Abort;
use tx_events::{Counters, FullMulti, FullXid, is_base};

fn id<R: Abort>(rt: &R, number: u64) -> FullXid {
    FullXid::new(number).expect(rt, "an id")
}

fn multi<R: Abort>(rt: &R, number: u64) -> FullMulti {
    FullMulti::new(number).expect(rt, "a multixact")
}

// Whether a life may start from these: the next and the oldest id, the next multixact and offset, the oldest of both.
fn check<R: Abort>(rt: &R, numbers: [u64; 6], may_start: bool) {
    let [next, oldest, first, offset, oldest_multi, oldest_offset] = numbers;
    let base = Counters {
        next: id(rt, next),
        oldest: id(rt, oldest),
        multi: multi(rt, first),
        offset,
        oldest_multi: multi(rt, oldest_multi),
        oldest_offset,
    };
    assert!(rt; is_base(&base) == may_start, "{numbers:?}");
}

#[test]
fn bases_of_a_life(rt: HostRuntime) {
    for (numbers, may_start) in [
        ([3, 3, 1, 1, 1, 1], true),
        ([3, 3, 1, 0, 1, 0], true),
        ([2, 2, 1, 1, 1, 1], false),
        ([4, 5, 1, 1, 1, 1], false),
        ([2_144_483_650, 3, 1, 1, 1, 1], true),
        ([2_144_483_651, 3, 1, 1, 1, 1], false),
        ([3, 3, 2_144_483_648, 1, 1, 1], true),
        ([3, 3, 2_144_483_649, 1, 1, 1], false),
        ([3, 3, 2, 1_073_689_472, 1, 1], true),
        ([3, 3, 2, 1_073_689_473, 1, 1], false),
        ([3, 3, 1, 2, 1, 1], false),
        ([3, 3, 2, 1, 1, 2], false),
        (
            [0xffff_ffff_ffff_ffff, 0xffff_ffff_ffff_ffff, 1, 1, 1, 1],
            false,
        ),
    ] {
        check(&rt, numbers, may_start);
    }
}
