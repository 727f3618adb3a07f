// Where ids and multixacts warn and stop, from numbers worked out by hand from the formulas.
use std::process::Abort;
use tx_events::{FullMulti, FullXid, Refusal, check_id, check_multi};

// Whether an id may be given, with a warning or without, while the oldest one is 3.
fn id_answer<R: Abort>(rt: &R, next: u64) -> Result<bool, Refusal> {
    let oldest = FullXid::new(3).expect(rt, "an id");
    check_id(oldest, FullXid::new(next).expect(rt, "an id"))
}

#[test]
fn ids_warn_and_stop(rt: HostRuntime) {
    for (number, warns) in [
        (3, false),
        (2_107_483_649, false),
        (2_107_483_650, true),
        (2_144_483_649, true),
    ] {
        assert!(rt; id_answer(&rt, number) == Ok(warns), "at {number}");
    }
    let next = FullXid::new(2_144_483_650).expect(&rt, "an id");
    assert!(rt; id_answer(&rt, next.number()) == Err(Refusal::Stop { next, stop: next }));
}

// The same of a multixact, while the oldest one is 1.
fn multi_answer<R: Abort>(rt: &R, next: u64) -> Result<bool, Refusal> {
    let oldest = FullMulti::new(1).expect(rt, "a multixact");
    check_multi(oldest, FullMulti::new(next).expect(rt, "a multixact"))
}

#[test]
fn multixacts_warn_and_stop(rt: HostRuntime) {
    for (number, warns) in [
        (1, false),
        (2_107_483_647, false),
        (2_107_483_648, true),
        (2_144_483_647, true),
    ] {
        assert!(rt; multi_answer(&rt, number) == Ok(warns), "at {number}");
    }
    let next = FullMulti::new(2_144_483_648).expect(&rt, "a multixact");
    assert!(rt; multi_answer(&rt, next.number()) == Err(Refusal::MultiStop { next, stop: next }));
}
