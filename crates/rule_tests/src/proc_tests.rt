// Worked runs of the table, with ids and snapshots from the rules.
use crate::numbers::Why::{self, Backward, Stop, TooNew};
use crate::numbers::{id, raised, refusal};
use crate::proc_driver::Driver;
use Act::{Ask, End, Raise, SnapsAndDrops, Write, Writes};
use Step::{Computed, Events, Made, Of, Oldest, OldestXmin};
use Wrote::{Id, NeedsPage, Warned};
use proc_table::{Asked, Given};
use std::process;
use tx_events::XactEnd::{Abort, Commit};
use tx_events::{FullXid, Name, Refusal, XactEnd};

/// What is done next, and what comes of it.
#[derive(Clone, Copy)]
enum Step<'a> {
    /// A session does this.
    Of(u32, Act<'a>),
    /// The pages of the next id are made.
    Made,
    /// The oldest id, and the oldest xmin.
    Oldest(u64),
    OldestXmin(u64),
    /// How often what a snapshot holds was computed.
    Computed(u64),
    Events(usize),
}

#[derive(Clone, Copy)]
enum Act<'a> {
    /// An id is asked for; where the session has one, it is a subid below it.
    Write(Wrote),
    /// The ids from one number to another are given.
    Writes(u64, u64),
    /// Its transaction ends.
    End(XactEnd),
    /// A snapshot under this letter: its xmin and xmax, tops and subids, and whether it overflowed.
    Snap(u8, (u64, u64), &'a [u64], &'a [u64], bool),
    /// It is dropped.
    Drop(u8),
    /// So many snapshots under this letter, each dropped before the next.
    SnapsAndDrops(u8, u32),
    /// An oldest id is announced.
    Raise(u64, Result<(), Why>),
    /// An id is asked about: whether it is running, and the next and the oldest id.
    Ask(u64, bool, u64, u64),
}

/// What is written: an id, one with a warning, the page of one that must be made before, or none.
#[derive(Clone, Copy)]
enum Wrote {
    Id(u64),
    Warned(u64),
    NeedsPage(u64),
    None(Why),
}

/// A life that starts with a next id and an oldest one, and its steps.
#[derive(Clone, Copy)]
struct Row<'a> {
    name: &'a str,
    next: u64,
    oldest: u64,
    steps: &'a [Step<'a>],
}

const ROWS: [Row<'static>; 8] = [
    Row {
        name: "xmax_past_running_top",
        next: 3,
        oldest: 3,
        steps: &[
            Of(0, Write(Id(3))),
            Of(1, Write(Id(4))),
            Of(1, End(Commit)),
            Of(0, Act::Snap(b's', (3, 5), &[3], &[], false)),
            OldestXmin(3),
            Of(0, End(Commit)),
            OldestXmin(3),
            Of(0, Act::Drop(b's')),
            OldestXmin(5),
            Events(6),
        ],
    },
    Row {
        name: "snapshot_overflows_at_65_subids",
        next: 3,
        oldest: 3,
        steps: &[
            Of(0, Writes(3, 67)),
            Of(2, Write(Id(68))),
            Of(2, End(Commit)),
            Of(
                1,
                Act::Snap(
                    b's',
                    (3, 69),
                    &[3],
                    &[
                        4, 5, 6, 7, 8, 9, 10, 11, 12, 13, 14, 15, 16, 17, 18, 19, 20, 21, 22, 23,
                        24, 25, 26, 27, 28, 29, 30, 31, 32, 33, 34, 35, 36, 37, 38, 39, 40, 41, 42,
                        43, 44, 45, 46, 47, 48, 49, 50, 51, 52, 53, 54, 55, 56, 57, 58, 59, 60, 61,
                        62, 63, 64, 65, 66, 67,
                    ],
                    false,
                ),
            ),
            Of(0, Write(Id(69))),
            Of(2, Write(Id(70))),
            Of(2, End(Commit)),
            Of(1, Act::Snap(b't', (3, 71), &[3], &[], true)),
            Of(1, Ask(3, true, 71, 3)),
            Of(1, Ask(67, true, 71, 3)),
            Of(1, Ask(68, false, 71, 3)),
            Of(1, Ask(69, true, 71, 3)),
            Of(1, Ask(70, false, 71, 3)),
            Of(1, Ask(71, false, 71, 3)),
            Of(0, End(Commit)),
            Of(1, Act::Snap(b'u', (71, 71), &[], &[], false)),
        ],
    },
    Row {
        name: "ids_wrap_around",
        next: 4_294_967_294,
        oldest: 2_200_000_000,
        steps: &[
            Of(0, Write(Id(4_294_967_294))),
            Made,
            Of(0, Write(Id(4_294_967_295))),
            Made,
            Of(0, Write(Id(4_294_967_299))),
            Made,
            Of(0, End(Commit)),
            Of(
                0,
                Act::Snap(b's', (4_294_967_300, 4_294_967_300), &[], &[], false),
            ),
        ],
    },
    Row {
        name: "id_stop_limit",
        next: 2_144_483_649,
        oldest: 3,
        steps: &[
            Of(0, Write(Warned(2_144_483_649))),
            Of(1, Write(Wrote::None(Stop(2_144_483_650, 2_144_483_650)))),
            Events(1),
        ],
    },
    Row {
        name: "id_warn_limit",
        next: 2_107_483_649,
        oldest: 3,
        steps: &[
            Of(0, Write(Id(2_107_483_649))),
            Of(1, Write(Warned(2_107_483_650))),
        ],
    },
    Row {
        name: "a_page_is_needed_before_its_first_id",
        next: 2047,
        oldest: 3,
        steps: &[
            Of(0, Write(Id(2047))),
            Of(1, Write(NeedsPage(2048))),
            Events(1),
            Made,
            Of(1, Write(Id(2048))),
        ],
    },
    Row {
        name: "the_oldest_id_rises_to_the_oldest_xmin",
        next: 10,
        oldest: 5,
        steps: &[
            Of(0, Write(Id(10))),
            Of(1, Raise(4, Err(Backward(5)))),
            Of(1, Raise(11, Err(TooNew(10)))),
            Of(1, Raise(10, Ok(()))),
            Oldest(10),
        ],
    },
    Row {
        name: "snapshots_share_a_computation, which a top, a question and an announcement leave, and a subid and an end change",
        next: 3,
        oldest: 3,
        steps: &[
            Of(0, Write(Id(3))),
            Of(1, SnapsAndDrops(b's', 10)),
            Computed(1),
            Of(2, Write(Id(4))),
            Of(1, Ask(3, true, 5, 3)),
            Of(1, Raise(3, Ok(()))),
            Of(1, SnapsAndDrops(b's', 10)),
            Computed(1),
            Of(0, Write(Id(5))),
            Of(1, SnapsAndDrops(b's', 10)),
            Computed(2),
            Of(2, End(Abort)),
            Of(1, SnapsAndDrops(b's', 10)),
            Computed(3),
            Of(1, Act::Snap(b't', (3, 5), &[3], &[5], false)),
            Of(0, End(Commit)),
            Of(1, Act::Snap(b'u', (6, 6), &[], &[], false)),
            Computed(4),
        ],
    },
];

fn written(rt: &impl process::Abort, wanted: Wrote) -> Result<Given, Refusal> {
    match wanted {
        Wrote::Id(number) => Ok(Given::Id {
            id: id(rt, number),
            warn: false,
        }),
        Wrote::Warned(number) => Ok(Given::Id {
            id: id(rt, number),
            warn: true,
        }),
        Wrote::NeedsPage(number) => Ok(Given::NeedPage { id: id(rt, number) }),
        Wrote::None(why) => Err(refusal(rt, why)),
    }
}

fn are(ids: &[FullXid], numbers: &[u64]) -> bool {
    if ids.len() != numbers.len() {
        return false;
    }
    for (id, number) in ids.iter().zip(numbers) {
        if id.number() != *number {
            return false;
        }
    }
    true
}

/// Whether what the step says comes of what a session does.
fn does(rt: &impl process::Abort, procs: &mut Driver, session: u32, act: Act<'_>) -> bool {
    assert!(rt; session < 3);
    match act {
        Act::Write(wanted) => procs.write(session) == written(rt, wanted),
        Act::Writes(first, last) => {
            for number in first..=last {
                if procs.write(session) != written(rt, Wrote::Id(number)) {
                    return false;
                }
            }
            true
        }
        Act::End(how) => {
            procs.end(session, how);
            true
        }
        Act::Snap(letter, limits, tops, subs, overflowed) => {
            let Some(snap) = procs.snap(rt, session, &Name::of(&[letter])) else {
                return false;
            };
            (snap.xmin().number(), snap.xmax().number()) == limits
                && snap.overflowed() == overflowed
                && are(snap.xip(), tops)
                && are(snap.subxip(), subs)
        }
        Act::Drop(letter) => procs.drop_snap(session, &Name::of(&[letter])),
        Act::SnapsAndDrops(letter, count) => {
            let name = Name::of(&[letter]);
            for _ in 0..count {
                let snap = procs.snap(rt, session, &name);
                if snap.is_none() || !procs.drop_snap(session, &name) {
                    return false;
                }
            }
            true
        }
        Act::Raise(oldest, wanted) => procs.raise(session, id(rt, oldest)) == raised(rt, wanted),
        Act::Ask(number, running, next, oldest) => {
            let wanted = Asked {
                running,
                next: id(rt, next),
                oldest: id(rt, oldest),
            };
            procs.ask(rt, session, id(rt, number)) == wanted
        }
    }
}

/// Whether what the step says comes of it.
fn goes(rt: &impl process::Abort, procs: &mut Driver, step: Step<'_>) -> bool {
    match step {
        Step::Of(session, act) => does(rt, procs, session, act),
        Step::Made => {
            procs.make_page();
            true
        }
        Step::Oldest(wanted) => procs.table.oldest().number() == wanted,
        Step::OldestXmin(wanted) => procs.table.oldest_xmin().number() == wanted,
        Step::Computed(wanted) => procs.table.computations() == wanted,
        Step::Events(wanted) => procs.table.events().len() == wanted,
    }
}

#[test]
fn worked_runs_of_the_table(rt: HostRuntime) {
    for row in &ROWS {
        let mut procs = Driver::new(&rt, row.next, row.oldest);
        for (place, step) in row.steps.iter().enumerate() {
            assert!(rt; goes(&rt, &mut procs, *step), "{}: step {place}", row.name);
        }
    }
}
