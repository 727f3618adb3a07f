// How a session stands after its lines, and the events that a line tells.
use crate::events::{Act, event_of, id};
use command_events::told_events;
use line_stances::Standing;
use std::process::Abort;
use tx_events::{By, Event, Lock, Name, Refusal};
use tx_model::{Command, GivenIds, Line, Reply};

fn own(command: u64) -> By {
    By {
        session: 0,
        command,
    }
}

fn count_of(told: &Option<Vec<Event>>) -> usize {
    match told {
        Some(events) => events.as_slice().len(),
        None => 0,
    }
}

/// The session after its lines `begin`, a write that was given id 3, and `save`.
fn with_savepoint<R: Abort + AllocGlobal>(rt: &R) -> Standing {
    let three = id(rt, 3);
    let mut standing = Standing::new(rt.alloc());
    let begin = Line {
        by: own(1),
        command: Command::Begin,
        reply: Reply::Done,
    };
    assert!(rt; standing.add(&begin, &[]).is_ok());
    let write = Line {
        by: own(2),
        command: Command::Write,
        reply: Reply::Wrote {
            warn: false,
            ids: GivenIds::one(three),
        },
    };
    let events = [event_of(rt, own(2), Act::Id(3))];
    let told = told_events(rt.alloc(), &standing, &write, &events).expect(rt, "memory");
    assert!(rt; count_of(&told) == 1);
    assert!(rt; standing.add(&write, &[three]).is_ok());
    let save = Line {
        by: own(3),
        command: Command::Save,
        reply: Reply::Done,
    };
    assert!(rt; standing.add(&save, &[]).is_ok());
    standing
}

#[test]
fn a_savepoint_lacks_an_id_below_the_top(rt: HostRuntime) {
    let standing = with_savepoint(&rt);
    assert!(rt; standing.levels.top() == Some(id(&rt, 3)));
    assert!(rt; standing.levels.depth() == 2 && standing.levels.lacking() == 1);
    let events = standing
        .levels
        .events_giving(rt.alloc(), own(4), &[id(&rt, 4)]);
    let events = events.expect(&rt, "memory");
    let [Event::Sub { id, .. }] = events.as_slice() else {
        panic!(rt; "one id is given below the top")
    };
    assert!(rt; id.number() == 4);
}

#[test]
fn a_refused_write_may_have_given_ids(rt: HostRuntime) {
    let standing = with_savepoint(&rt);
    let refused = Line {
        by: own(4),
        command: Command::Write,
        reply: Reply::Refused {
            refusal: Refusal::DiskFault {
                lock: Lock::Subtrans(0),
            },
        },
    };
    let events = [event_of(&rt, own(4), Act::Sub(3, 4))];
    let told = told_events(rt.alloc(), &standing, &refused, &events).expect(&rt, "memory");
    assert!(rt; count_of(&told) == 1);
}

#[test]
fn a_snapshot_is_found_by_its_name(rt: HostRuntime) {
    let mut standing = Standing::new(rt.alloc());
    assert!(rt; standing.snaps.take(&Name::of(b"s"), 7).is_ok());
    assert!(rt; standing.snaps.command_of(b"s") == Some(7));
    assert!(rt; standing.snaps.command_of(b"t").is_none());
}
