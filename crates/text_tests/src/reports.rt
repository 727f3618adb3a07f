//! The reports that are printed, by their values.
use crate::help::{id, list, multi};
use std::alloc::AllocGlobal;
use std::process::Abort;
use tx_events::{
    By, ByWords, Counters, Event, EventList, Member, MemberList, Mode, MultiEvent, MultiEventList,
    Name, Rec, RecList, Refusal, Sequence, SharedCounters, Xid,
};
use tx_model::{
    BoxedReply, Command, DumpOf, How, KeptLine, Life, LifeReport, Line, NameList, Pair, Reply,
    Report, Step, StepList,
};

fn first_counters(rt: &impl Abort) -> Counters {
    Counters {
        next: id(rt, 3),
        oldest: id(rt, 3),
        multi: multi(rt, 1),
        offset: 1,
        oldest_multi: multi(rt, 1),
        oldest_offset: 1,
    }
}

/// A life whose log has one checkpoint, of this number.
fn quiet_life(rt: &(impl Abort + AllocGlobal), number: u64, flushed: u64, end: u64) -> LifeReport {
    let alloc = rt.alloc();
    let counters = SharedCounters::of(alloc, first_counters(rt)).expect(rt, "memory");
    let life = Life {
        from: number,
        base: first_counters(rt),
        committed: Sequence::new(alloc),
        recorded: Sequence::new(alloc),
        events: Sequence::new(alloc),
        multis: Sequence::new(alloc),
        recs: list(rt, [Rec::Checkpoint { number, counters }]),
        flushed,
        end,
    };
    LifeReport {
        life,
        steps: Sequence::new(alloc),
        crash: None,
    }
}

fn members(rt: &(impl Abort + AllocGlobal)) -> MemberList {
    let first = Member {
        id: id(rt, 3),
        mode: Mode::KeySh,
    };
    let second = Member {
        id: id(rt, 4),
        mode: Mode::Upd,
    };
    MemberList::of(rt.alloc(), list(rt, [first, second])).expect(rt, "memory")
}

fn line(
    rt: &(impl Abort + AllocGlobal),
    session: u32,
    number: u64,
    command: Command,
    reply: Reply,
) -> KeptLine {
    let by = By {
        session,
        command: number,
    };
    KeptLine::of(rt.alloc(), Line { by, command, reply }).expect(rt, "memory")
}

fn round(rt: &(impl Abort + AllocGlobal)) -> Step {
    let x = Xid { number: 3 };
    let mode = Mode::KeySh;
    let members = list(rt, [Pair { x, mode }]);
    let see = Command::See {
        name: Name::of(b"s"),
        x,
    };
    let hidden = Reply::Seen { visible: false };
    let lines = list(
        rt,
        [
            line(rt, 0, 1, Command::Begin, Reply::Done),
            line(rt, 0, 2, see, hidden),
            line(rt, 1, 1, Command::Multi { members }, Reply::Done),
        ],
    );
    Step::Round { number: 1, lines }
}

fn boxed(rt: &(impl Abort + AllocGlobal), reply: Reply) -> BoxedReply {
    BoxedReply::of(rt.alloc(), reply).expect(rt, "memory")
}

fn steps(rt: &(impl Abort + AllocGlobal)) -> StepList {
    let pending = Reply::Pending {
        session: 0,
        refusal: Refusal::CommitPending,
    };
    let checkpoint = Step::Checkpoint {
        reply: boxed(rt, pending),
    };
    let bytes = list(rt, [0x40, 0x06, 0x00, 0xaf]);
    let states = Step::Dump {
        what: DumpOf::Xact { page: 0 },
        at: 0,
        length: 4,
        reply: boxed(rt, Reply::Bytes { bytes }),
    };
    let failed = Reply::Refused {
        refusal: Refusal::LogFault,
    };
    let log = Step::Dump {
        what: DumpOf::Log,
        at: 62,
        length: 8,
        reply: boxed(rt, failed),
    };
    list(rt, [round(rt), checkpoint, states, log])
}

const FOURTH: By = By {
    session: 0,
    command: 4,
};

fn events(rt: &(impl Abort + AllocGlobal)) -> EventList {
    let sub = Event::Sub {
        by: ByWords::of(FOURTH),
        parent: id(rt, 3),
        id: id(rt, 4),
    };
    let drop = Event::SnapDrop {
        by: ByWords::of(FOURTH),
        name: Name::of(b"s"),
    };
    list(rt, [sub, drop])
}

fn multi_events(rt: &(impl Abort + AllocGlobal)) -> MultiEventList {
    let generated = MultiEvent::Gen {
        by: ByWords::of(FOURTH),
        multi: multi(rt, 1),
        offset: 1,
        members: members(rt),
    };
    let unhold = MultiEvent::Unhold {
        by: ByWords::of(FOURTH),
        multi: multi(rt, 1),
    };
    let raise = MultiEvent::Raise {
        by: ByWords::of(FOURTH),
        multi: multi(rt, 2),
        offset: 3,
    };
    list(rt, [generated, unhold, raise])
}

fn records(rt: &(impl Abort + AllocGlobal)) -> RecList {
    let commit = Rec::Commit {
        top: id(rt, 3),
        subs: list(rt, [id(rt, 4)]),
    };
    let abort = Rec::Abort {
        top: id(rt, 5),
        subs: Sequence::new(rt.alloc()),
    };
    let made = Rec::Multi {
        multi: multi(rt, 1),
        offset: 1,
        members: members(rt),
    };
    let truncate = Rec::Truncate {
        oldest: id(rt, 3),
        multi: multi(rt, 1),
        offset: 1,
    };
    list(rt, [commit, abort, made, truncate])
}

fn busy_life(rt: &(impl Abort + AllocGlobal)) -> LifeReport {
    let life = Life {
        from: 8,
        base: first_counters(rt),
        committed: Sequence::new(rt.alloc()),
        recorded: Sequence::new(rt.alloc()),
        events: events(rt),
        multis: multi_events(rt),
        recs: records(rt),
        flushed: 9,
        end: 131,
    };
    LifeReport {
        life,
        steps: steps(rt),
        crash: Some(How::Torn),
    }
}

/// The sessions `a` and `b`.
pub fn two_sessions(rt: &(impl Abort + AllocGlobal)) -> NameList {
    list(rt, [Name::of(b"a"), Name::of(b"b")])
}

/// A run of no commands.
pub fn empty_run(rt: &(impl Abort + AllocGlobal)) -> Report {
    Report {
        names: Sequence::new(rt.alloc()),
        lives: list(rt, [quiet_life(rt, 0, 1, 62)]),
    }
}

/// A run whose first life has a line of each kind.
pub fn two_lives(rt: &(impl Abort + AllocGlobal)) -> Report {
    Report {
        names: two_sessions(rt),
        lives: list(rt, [busy_life(rt), quiet_life(rt, 12, 13, 193)]),
    }
}
