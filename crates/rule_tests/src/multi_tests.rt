// Worked runs of the generator, with numbers and offsets from the rules.
ghost use Rattle.std.specs.Prelude.{◌≡◌};

use crate::numbers::{Why, id, multi, raised, refusal};
use Step::{Counts, Events, Hold, Holds, Next, Raise, Unhold};
use multi_store::{Held, MultiGen, MultiGiven, check_members};
use std::process::Abort;
use tx_events::Mode::{ForNoKeyUpd, ForUpd, KeySh, NoKeyUpd, Sh, Upd};
use tx_events::{By, Counters, Member, MemberList, Mode, MultiId, Refusal, Sequence, is_base};

/// What is done next, and what comes of it.
#[derive(Clone, Copy)]
enum Step<'a> {
    /// A multixact is asked for, with so many members of each mode: its number and offset, and whether it comes with a warning.
    Next(&'a [(Mode, usize)], Result<(u64, u64, bool), Why>),
    /// A session pins the multixact of this number.
    Hold(u32, u32, Result<Pin, Why>),
    /// A session lets the multixact go; whether it holds it.
    Unhold(u32, u64),
    Holds(u32, u64, bool),
    /// An oldest multixact is announced, with its offset.
    Raise(u64, u64, Result<(), Why>),
    /// The next multixact and offset, and the oldest ones.
    Counts([u64; 4]),
    Events(usize),
}

#[derive(Clone, Copy)]
struct Pin {
    multi: u64,
    last: bool,
    end: u64,
    start: Option<u64>,
    most: u64,
}

/// A life that starts with a next multixact, an oldest one, and their offsets; and its steps.
#[derive(Clone, Copy)]
struct Row<'a> {
    name: &'a str,
    start: [u64; 4],
    steps: &'a [Step<'a>],
}

const ROWS: [Row<'static>; 8] = [
    Row {
        name: "members_stop_at_the_limit_of_their_offsets",
        start: [2, 1, 1_073_689_470, 1],
        steps: &[
            Next(&[(Sh, 1)], Ok((2, 1_073_689_470, false))),
            Next(
                &[(Sh, 1)],
                Err(Why::MemberStop(1_073_689_471, 1_073_689_472)),
            ),
            Events(1),
        ],
    },
    Row {
        name: "multixacts_stop_at_their_limit",
        start: [2_144_483_648, 1, 1, 1],
        steps: &[
            Next(
                &[(Sh, 1)],
                Err(Why::MultiStop(2_144_483_648, 2_144_483_648)),
            ),
            Events(0),
        ],
    },
    Row {
        name: "multixacts_warn_before_they_stop",
        start: [2_107_483_647, 1, 1, 1],
        steps: &[
            Next(&[(Sh, 1)], Ok((2_107_483_647, 1, false))),
            Next(&[(Sh, 1)], Ok((2_107_483_648, 2, true))),
        ],
    },
    Row {
        name: "no_members_begin_where_the_stored_offset_would_be_zero",
        start: [1, 1, 4_294_967_296, 4_294_967_296],
        steps: &[
            Next(&[(KeySh, 1), (Upd, 1)], Ok((1, 4_294_967_297, false))),
            Next(&[(KeySh, 1)], Ok((2, 4_294_967_299, false))),
        ],
    },
    Row {
        name: "multixacts_wrap_around",
        start: [4_294_967_295, 2_200_000_000, 7, 5],
        steps: &[
            Next(&[(Sh, 1)], Ok((4_294_967_295, 7, false))),
            Next(&[(Sh, 1)], Ok((4_294_967_297, 8, false))),
            Hold(
                1,
                1,
                Ok(Pin {
                    multi: 4_294_967_297,
                    last: true,
                    end: 9,
                    start: Some(8),
                    most: 7,
                }),
            ),
            Hold(
                1,
                4_294_967_295,
                Ok(Pin {
                    multi: 4_294_967_295,
                    last: false,
                    end: 9,
                    start: Some(7),
                    most: 7,
                }),
            ),
        ],
    },
    Row {
        name: "pins_of_two_sessions_hold_back_the_oldest",
        start: [1, 1, 1, 1],
        steps: &[
            Next(&[(Sh, 2)], Ok((1, 1, false))),
            Next(&[(Sh, 1)], Ok((2, 3, false))),
            Next(&[(Sh, 1)], Ok((3, 4, false))),
            Hold(
                1,
                2,
                Ok(Pin {
                    multi: 2,
                    last: false,
                    end: 5,
                    start: Some(3),
                    most: 1,
                }),
            ),
            Hold(
                2,
                2,
                Ok(Pin {
                    multi: 2,
                    last: false,
                    end: 5,
                    start: Some(3),
                    most: 1,
                }),
            ),
            Raise(3, 4, Err(Why::Held(2))),
            Raise(2, 3, Ok(())),
            Raise(1, 1, Err(Why::Backward(2))),
            Unhold(1, 2),
            Holds(1, 2, false),
            Holds(2, 2, true),
            Raise(4, 5, Err(Why::Held(2))),
            Unhold(2, 2),
            Raise(5, 9, Err(Why::Held(4))),
            Raise(4, 5, Ok(())),
            Counts([4, 5, 4, 5]),
            Events(9),
        ],
    },
    Row {
        name: "a_session_may_pin_one_twice",
        start: [10, 5, 100, 50],
        steps: &[
            Hold(
                1,
                5,
                Ok(Pin {
                    multi: 5,
                    last: false,
                    end: 100,
                    start: None,
                    most: 100,
                }),
            ),
            Hold(
                1,
                5,
                Ok(Pin {
                    multi: 5,
                    last: false,
                    end: 100,
                    start: None,
                    most: 100,
                }),
            ),
            Unhold(1, 5),
            Raise(6, 60, Err(Why::Held(5))),
            Unhold(1, 5),
            Raise(6, 60, Ok(())),
        ],
    },
    Row {
        name: "a_pin_tells_where_members_are",
        start: [10, 5, 100, 50],
        steps: &[
            Hold(1, 4, Err(Why::MultiTooOld(5))),
            Hold(1, 4_294_967_295, Err(Why::MultiTooOld(5))),
            Hold(1, 10, Err(Why::MultiFuture(10))),
            Hold(
                1,
                9,
                Ok(Pin {
                    multi: 9,
                    last: true,
                    end: 100,
                    start: None,
                    most: 100,
                }),
            ),
            Next(&[(Sh, 2), (ForUpd, 1)], Ok((10, 100, false))),
            Hold(
                1,
                9,
                Ok(Pin {
                    multi: 9,
                    last: false,
                    end: 103,
                    start: None,
                    most: 100,
                }),
            ),
            Hold(
                1,
                10,
                Ok(Pin {
                    multi: 10,
                    last: true,
                    end: 103,
                    start: Some(100),
                    most: 100,
                }),
            ),
        ],
    },
];

// a_multixact_has_1_to_64_members_and_at_most_one_updater
const CHECKS: [(&[(Mode, usize)], Result<(), Refusal>); 5] = [
    (&[], Err(Refusal::MemberCount)),
    (&[(Sh, 65)], Err(Refusal::MemberCount)),
    (&[(Sh, 64)], Ok(())),
    (&[(ForUpd, 1), (ForNoKeyUpd, 1), (Upd, 1)], Ok(())),
    (&[(Upd, 1), (NoKeyUpd, 1)], Err(Refusal::TwoUpdaters)),
];

fn by(session: u32) -> By
    ensures { result.session ≡ session }
{
    By {
        session,
        command: 1,
    }
}

fn members(rt: &(impl Abort + AllocGlobal), groups: &[(Mode, usize)]) -> MemberList {
    let mut list = Sequence::new(rt.alloc());
    let id = id(rt, 3);
    for (mode, count) in groups {
        for _ in 0..*count {
            assert!(rt; list.push(Member { id, mode: *mode }).is_ok());
        }
    }
    MemberList::of(rt.alloc(), list).expect(rt, "memory")
}

fn generator(rt: &(impl Abort + AllocGlobal), start: [u64; 4]) -> MultiGen {
    let [next, oldest, offset, oldest_offset] = start;
    let id = id(rt, 3);
    let base = Counters {
        next: id,
        oldest: id,
        multi: multi(rt, next),
        offset,
        oldest_multi: multi(rt, oldest),
        oldest_offset,
    };
    assert!(rt; is_base(&base));
    MultiGen::new(rt.alloc(), base)
}

fn given(rt: &impl Abort, wanted: Result<(u64, u64, bool), Why>) -> Result<MultiGiven, Refusal> {
    match wanted {
        Ok((number, offset, warn)) => Ok(MultiGiven {
            multi: multi(rt, number),
            offset,
            warn,
        }),
        Err(why) => Err(refusal(rt, why)),
    }
}

fn held(rt: &impl Abort, wanted: Result<Pin, Why>) -> Result<Held, Refusal> {
    match wanted {
        Ok(pin) => Ok(Held {
            multi: multi(rt, pin.multi),
            last: pin.last,
            end: pin.end,
            start: pin.start,
            most: pin.most,
        }),
        Err(why) => Err(refusal(rt, why)),
    }
}

/// Whether what the step says comes of it. The generator is called only where the conditions hold.
fn goes(rt: &(impl Abort + AllocGlobal), multis: &mut MultiGen, step: Step<'_>) -> bool {
    match step {
        Step::Next(groups, wanted) => {
            let list = members(rt, groups);
            if check_members(&list).is_err() {
                return false;
            }
            multis.next(by(0), &list) == given(rt, wanted)
        }
        Step::Hold(session, number, wanted) => {
            assert!(rt; number > 0);
            multis.hold(by(session), MultiId { number }) == held(rt, wanted)
        }
        Step::Unhold(session, number) => {
            let multi = multi(rt, number);
            if !multis.holds(session, multi) {
                return false;
            }
            multis.unhold(by(session), multi);
            true
        }
        Step::Holds(session, number, wanted) => {
            multis.holds(session, multi(rt, number)) == wanted
        }
        Step::Raise(number, offset, wanted) => {
            let multi = multi(rt, number);
            if !multis.begins_at(multi, offset) {
                return false;
            }
            multis.raise_oldest(by(0), multi, offset) == raised(rt, wanted)
        }
        Step::Counts(wanted) => {
            let now = multis.counters();
            let oldest = now.oldest_multi.number();
            [now.multi.number(), now.offset, oldest, now.oldest_offset] == wanted
        }
        Step::Events(wanted) => multis.events().len() == wanted,
    }
}

#[test]
fn worked_runs_of_the_generator(rt: HostRuntime) {
    for row in &ROWS {
        let mut multis = generator(&rt, row.start);
        for (place, step) in row.steps.iter().enumerate() {
            assert!(rt; goes(&rt, &mut multis, *step), "{}: step {place}", row.name);
        }
    }
    for (groups, wanted) in &CHECKS {
        assert!(rt;
            check_members(&members(&rt, groups)) == *wanted,
            "{groups:?}"
        );
    }
}
