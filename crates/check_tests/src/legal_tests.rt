// The first event that may not come, and what a snapshot holds.
ghost use Rattle.std.specs.Prelude.{◌≡◌, ◌<◌, All};
ghost use Rattle.tx_events.specs.Events.{by_of};

use crate::events::{Act, NEW_LOG, counters, event_of};
use crate::lives::life_of;
use history_check::first_illegal;
use std::process::Abort;
use tx_events::{By, Event, is_base};

fn own<R: Abort>(rt: &R, command: u64, act: Act) -> Event
    ensures { (by_of result).session ≡ 0 }
{
    event_of(
        rt,
        By {
            session: 0,
            command,
        },
        act,
    )
}

/// The place of the first event that may not come in a new log's life.
fn first_of<R: Abort + AllocGlobal>(rt: &R, events: &[Event]) -> Option<usize>
    requires { All (λ e. (by_of e).session < 1) events.now }
{
    let base = counters(rt, NEW_LOG);
    assert!(rt; is_base(&base));
    first_illegal(rt.alloc(), base, 1, events).expect(rt, "memory")
}

#[test]
fn the_first_illegal_event_has_its_place(rt: HostRuntime) {
    let legal = [own(&rt, 1, Act::Id(3)), own(&rt, 2, Act::Commit(3))];
    assert!(rt; first_of(&rt, &legal).is_none());
    let other = [own(&rt, 1, Act::Id(3)), own(&rt, 2, Act::Commit(4))];
    assert!(rt; first_of(&rt, &other) == Some(1));
    let early = [own(&rt, 1, Act::Commit(3))];
    assert!(rt; first_of(&rt, &early) == Some(0));
}

#[test]
fn a_snapshot_holds_what_runs(rt: HostRuntime) {
    let mut life = life_of(
        &rt,
        &[
            (0, 1, Act::Id(3), true),
            (1, 2, Act::Id(4), true),
            (1, 3, Act::Commit(4), true),
        ],
    );
    let held = life.replay.snapshot_data().expect(&rt, "memory");
    assert!(rt; held.xmin().number() == 3 && held.xmax().number() == 5);
    assert!(rt; held.xip().len() == 1 && !held.overflowed());
}
