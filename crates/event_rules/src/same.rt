//! Whether two events are the same.
ghost use Rattle.std.specs.Prelude.{◌≡◌, ◌↔◌, ◌==◌, IsTrue, List, ℕ};
ghost use Rattle.tx_events.specs.Events.{same_by, same_name};
ghost use Rattle.event_rules.specs.Same.{same_event, same_member, same_members, same_multi};

use place_columns::Owned;
use tx_events::{By, Event, Member, MultiEvent, Name};

/// An event that can be compared with another one.
pub trait Same: Owned {
    /// Whether the two are the same.
    fn is_same(&self, other: &Self) -> bool
        ensures { IsTrue result ↔ (self.now ≡ other.now) };
}

fn same_by(a: By, b: By) -> bool
    ensures { result ≡ same_by a b }
{
    a.session == b.session && a.command == b.command
}

fn same_name(a: &Name, b: &Name) -> bool
    ensures { result ≡ same_name a.now b.now }
{
    a.items().starts_with(b.items()) && b.items().starts_with(a.items())
}

fn same_member(a: Member, b: Member) -> bool
    ensures { result ≡ same_member a b }
{
    a.id == b.id && a.mode.number() == b.mode.number()
}

#[tactic(auto, using(crate::proofs::Comparing::members_next, crate::proofs::Comparing::members_end, crate::proofs::Comparing::members_short))]
fn same_members(a: &[Member], b: &[Member]) -> bool
    ensures { result ≡ same_members a.now b.now }
{
    if a.len() != b.len() {
        return false;
    }
    for (place, m) in a.iter().enumerate() {
        if !same_member(*m, b[place]) {
            return false;
        }
    }
    true
}

fn same_event(a: &Event, b: &Event) -> bool
    ensures { result ≡ same_event a.now b.now }
{
    match a {
        Event::Id { by, id } => match b {
            Event::Id { by: its, id: other } => same_by(by.get(), its.get()) && *id == *other,
            _ => false,
        },
        Event::Sub { by, parent, id } => match b {
            Event::Sub {
                by: its,
                parent: under,
                id: other,
            } => same_by(by.get(), its.get()) && *parent == *under && *id == *other,
            _ => false,
        },
        Event::Undo { by, id } => match b {
            Event::Undo { by: its, id: other } => same_by(by.get(), its.get()) && *id == *other,
            _ => false,
        },
        Event::Commit { by, top } => match b {
            Event::Commit {
                by: its,
                top: other,
            } => same_by(by.get(), its.get()) && *top == *other,
            _ => false,
        },
        Event::Abort { by, top } => match b {
            Event::Abort {
                by: its,
                top: other,
            } => same_by(by.get(), its.get()) && *top == *other,
            _ => false,
        },
        Event::Snap { by, name } => match b {
            Event::Snap {
                by: its,
                name: other,
            } => same_by(by.get(), its.get()) && same_name(name, other),
            _ => false,
        },
        Event::SnapDrop { by, name } => match b {
            Event::SnapDrop {
                by: its,
                name: other,
            } => { same_by(by.get(), its.get()) && same_name(name, other) }
            _ => false,
        },
        Event::Oldest { by, oldest } => match b {
            Event::Oldest {
                by: its,
                oldest: other,
            } => same_by(by.get(), its.get()) && *oldest == *other,
            _ => false,
        },
        Event::Ask { by, id } => match b {
            Event::Ask { by: its, id: other } => same_by(by.get(), its.get()) && *id == *other,
            _ => false,
        },
    }
}

fn same_multi(a: &MultiEvent, b: &MultiEvent) -> bool
    ensures { result ≡ same_multi a.now b.now }
{
    match a {
        MultiEvent::Gen {
            by,
            multi,
            offset,
            members,
        } => match b {
            MultiEvent::Gen {
                by: its,
                multi: given,
                offset: at,
                members: others,
            } => {
                same_by(by.get(), its.get())
                    && *multi == *given
                    && *offset == *at
                    && same_members(members.items(), others.items())
            }
            _ => false,
        },
        MultiEvent::Hold { by, multi } => match b {
            MultiEvent::Hold {
                by: its,
                multi: other,
            } => same_by(by.get(), its.get()) && *multi == *other,
            _ => false,
        },
        MultiEvent::Unhold { by, multi } => match b {
            MultiEvent::Unhold {
                by: its,
                multi: other,
            } => same_by(by.get(), its.get()) && *multi == *other,
            _ => false,
        },
        MultiEvent::Raise { by, multi, offset } => match b {
            MultiEvent::Raise {
                by: its,
                multi: other,
                offset: at,
            } => same_by(by.get(), its.get()) && *multi == *other && *offset == *at,
            _ => false,
        },
    }
}

impl Same for Event {
    fn is_same(&self, other: &Event) -> bool {
        same_event(self, other)
    }
}

impl Same for MultiEvent {
    fn is_same(&self, other: &MultiEvent) -> bool {
        same_multi(self, other)
    }
}
