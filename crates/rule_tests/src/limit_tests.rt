// Limits of ids, multixacts and members at the wrap, worked out by hand from their formulas.
use std::process::Abort;
use tx_events::{FullMulti, FullXid, Limits, MultiLimits, member_stop};

// Where ids end, stop and warn under this oldest one.
fn check_ids<R: Abort>(rt: &R, oldest: u64, wrap: u64, stop: u64, warn: u64) {
    let id = FullXid::new(oldest).expect(rt, "an id");
    assert!(rt; oldest < 1 << 63);
    let limits = Limits::of(id);
    let holds = limits.wrap.number() == wrap
        && limits.stop.number() == stop
        && limits.warn.number() == warn;
    assert!(rt; holds, "at {oldest}");
}

#[test]
fn limits_on_ids(rt: HostRuntime) {
    for (oldest, wrap, stop, warn) in [
        (3, 2_147_483_650, 2_144_483_650, 2_107_483_650),
        (2_147_483_649, 4_294_967_299, 4_291_967_299, 4_254_967_299),
        (2_150_483_650, 4_297_967_297, 4_294_967_295, 4_257_967_297),
        (2_187_483_651, 4_334_967_298, 4_331_967_298, 4_294_967_295),
        (
            9_223_372_036_854_775_807,
            9_223_372_039_002_259_454,
            9_223_372_036_854_775_807,
            9_223_372_038_962_259_454,
        ),
    ] {
        check_ids(&rt, oldest, wrap, stop, warn);
    }
}

// Where multixacts end, stop and warn under this oldest one.
fn check_multis<R: Abort>(rt: &R, oldest: u64, wrap: u64, stop: u64, warn: u64) {
    let multi = FullMulti::new(oldest).expect(rt, "a multixact");
    assert!(rt; oldest < 1 << 63);
    let limits = MultiLimits::of(multi);
    let holds = limits.wrap.number() == wrap
        && limits.stop.number() == stop
        && limits.warn.number() == warn;
    assert!(rt; holds, "at {oldest}");
}

#[test]
fn limits_on_multixacts(rt: HostRuntime) {
    for (oldest, wrap, stop, warn) in [
        (1, 2_147_483_648, 2_144_483_648, 2_107_483_648),
        (2_147_483_649, 4_294_967_297, 4_291_967_297, 4_254_967_297),
        (2_150_483_649, 4_297_967_296, 4_294_967_295, 4_257_967_296),
    ] {
        check_multis(&rt, oldest, wrap, stop, warn);
    }
}

fn check_members<R: Abort>(rt: &R, oldest: u64, stop: u64) {
    assert!(rt; oldest < 1 << 63);
    assert!(rt; member_stop(oldest) == stop, "at {oldest}");
}

#[test]
fn members_stop_a_quarter_round(rt: HostRuntime) {
    check_members(&rt, 1, 1_073_689_472);
    check_members(&rt, 52_352, 1_073_741_824);
    check_members(&rt, 4_294_967_297, 5_368_656_768);
}
