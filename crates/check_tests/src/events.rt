// What sessions do next, as tables say it, and the events of it.
ghost use Rattle.std.specs.Prelude.{◌≡◌};
ghost use Rattle.tx_events.specs.Events.{by_of};

use std::process::Abort;
use tx_events::{
    By, ByWords, Counters, Event, FullMulti, FullXid, Member, MemberList, Mode, MultiEvent, Name,
    Sequence,
};

pub fn id<R: Abort>(rt: &R, number: u64) -> FullXid {
    FullXid::new(number).expect(rt, "a full id")
}

pub fn multi<R: Abort>(rt: &R, number: u64) -> FullMulti {
    FullMulti::new(number).expect(rt, "a full multixact")
}

/// What a session does next.
#[derive(Clone, Copy)]
pub enum Act {
    Id(u64),
    Sub(u64, u64),
    Undo(u64),
    Commit(u64),
    Abort(u64),
    Snap(u8),
    Drop(u8),
    Oldest(u64),
    Ask(u64),
}

pub fn event_of<R: Abort>(rt: &R, by: By, act: Act) -> Event
    ensures { by_of result ≡ by }
{
    match act {
        Act::Id(number) => Event::Id {
            by: ByWords::of(by),
            id: id(rt, number),
        },
        Act::Sub(parent, number) => Event::Sub {
            by: ByWords::of(by),
            parent: id(rt, parent),
            id: id(rt, number),
        },
        Act::Undo(number) => Event::Undo {
            by: ByWords::of(by),
            id: id(rt, number),
        },
        Act::Commit(number) => Event::Commit {
            by: ByWords::of(by),
            top: id(rt, number),
        },
        Act::Abort(number) => Event::Abort {
            by: ByWords::of(by),
            top: id(rt, number),
        },
        Act::Snap(letter) => Event::Snap {
            by: ByWords::of(by),
            name: Name::of(&[letter]),
        },
        Act::Drop(letter) => Event::SnapDrop {
            by: ByWords::of(by),
            name: Name::of(&[letter]),
        },
        Act::Oldest(number) => Event::Oldest {
            by: ByWords::of(by),
            oldest: id(rt, number),
        },
        Act::Ask(number) => Event::Ask {
            by: ByWords::of(by),
            id: id(rt, number),
        },
    }
}

/// What happens next to the multixacts.
#[derive(Clone, Copy)]
pub enum MultiAct {
    /// A multixact of this number is given at this offset, with so many members of this mode.
    Gen(u64, u64, Mode, usize),
    Hold(u64),
    Unhold(u64),
    Raise(u64, u64),
}

fn members<R: Abort + AllocGlobal>(rt: &R, mode: Mode, count: usize) -> MemberList {
    let mut list = Sequence::new(rt.alloc());
    let id = id(rt, 3);
    for _n in 0..count {
        assert!(rt; list.push(Member { id, mode }).is_ok());
    }
    MemberList::of(rt.alloc(), list).expect(rt, "memory")
}

/// The session's event, of its first command.
pub fn multi_event_of<R: Abort + AllocGlobal>(rt: &R, session: u32, act: MultiAct) -> MultiEvent {
    let by = By {
        session,
        command: 1,
    };
    match act {
        MultiAct::Gen(number, offset, mode, count) => MultiEvent::Gen {
            by: ByWords::of(by),
            multi: multi(rt, number),
            offset,
            members: members(rt, mode, count),
        },
        MultiAct::Hold(number) => MultiEvent::Hold {
            by: ByWords::of(by),
            multi: multi(rt, number),
        },
        MultiAct::Unhold(number) => MultiEvent::Unhold {
            by: ByWords::of(by),
            multi: multi(rt, number),
        },
        MultiAct::Raise(number, offset) => MultiEvent::Raise {
            by: ByWords::of(by),
            multi: multi(rt, number),
            offset,
        },
    }
}

/// The next and the oldest multixact at the start of a life, and the offsets of their members.
#[derive(Clone, Copy)]
pub struct Start {
    pub multi: u64,
    pub oldest_multi: u64,
    pub offset: u64,
    pub oldest_offset: u64,
}

/// A life that begins a log.
pub const NEW_LOG: Start = Start {
    multi: 1,
    oldest_multi: 1,
    offset: 1,
    oldest_offset: 1,
};

/// The counters of such a start, behind which id 3 comes next.
pub fn counters<R: Abort>(rt: &R, start: Start) -> Counters {
    let id = id(rt, 3);
    Counters {
        next: id,
        oldest: id,
        multi: multi(rt, start.multi),
        offset: start.offset,
        oldest_multi: multi(rt, start.oldest_multi),
        oldest_offset: start.oldest_offset,
    }
}
