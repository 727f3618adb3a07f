//! The multixact events that are told, and what records share with them.
ghost use Rattle.std.specs.Prelude.{◌≡◌, [], ◌∷◌, ◌++◌, IfOk, IfSome, OnOk};

use crate::growing::Growing;
use std::alloc::Global;
use std::marker::Model;
use tx_events::{FullMulti, same_members};
use tx_model::{Copied, MemberList, Memory, MultiEvent, MultiEventList, Rec};

/// The multixact events so far, and the place from which the one of the next record is looked for: mostly records
/// stand in the order of the multixacts that they are of. A contract sees the list of the events.
#[derive(Drop)]
pub struct MultiHistory {
    events: Growing<MultiEvent>,
    next: usize,
}

impl Model for MultiHistory {
    ghost use Rattle.std.specs.Prelude.{List};
    ghost use Rattle.tx_events.specs.declared.multi.MultiEvent.{MultiEvent};

    ghost Value = { List MultiEvent };

    ghost view = { λ h. h.events };
}

/// Whether the event makes this multixact or a later one.
fn is_reached(event: &MultiEvent, multi: FullMulti) -> bool {
    match event {
        MultiEvent::Gen { multi: made, .. } => *made >= multi,
        _ => false,
    }
}

/// The first place from this one on whose event makes this multixact or a later one, or else that behind all events.
fn reached(events: &[MultiEvent], from: usize, multi: FullMulti) -> usize {
    for place in from..events.len() {
        if is_reached(&events[place], multi) {
            return place;
        }
    }
    events.len()
}

/// The members of what the event makes, where they are the same. The copy shares their block.
fn same_of(event: &MultiEvent, members: &MemberList) -> Result<Option<MemberList>, Memory>
    ensures { IfOk result (λ found. IfSome found (λ m. m ≡ members.now)) }
{
    match event {
        MultiEvent::Gen { members: held, .. } if same_members(held.items(), members.items()) => {
            Ok(Some(held.copy()?))
        }
        _ => Ok(None),
    }
}

impl MultiHistory {
    /// No events. Takes no memory.
    pub fn new(alloc: Global) -> MultiHistory
        ensures { result ≡ [] }
    {
        MultiHistory {
            events: Growing::new(alloc),
            next: 0,
        }
    }

    /// The events so far.
    pub fn items(&self) -> &[MultiEvent]
        ensures { result.now ≡ self.now }
    {
        self.events.items()
    }

    pub fn push(&mut self, event: MultiEvent) -> Result<(), Memory>
        ensures ok { OnOk result (self.new ≡ self.old ++ event ∷ []) }
    {
        self.events.push(event)
    }

    /// Hands all events on, and begins anew.
    pub fn finish(&mut self, alloc: Global) -> MultiEventList
        ensures items { result ≡ self.old }
        ensures anew { self.new ≡ [] }
    {
        self.next = 0;
        self.events.finish(alloc)
    }

    /// These members of the recorded multixact, shared with the event that makes it, where that has the same.
    fn members_of(&mut self, multi: FullMulti, members: MemberList) -> Result<MemberList, Memory>
        ensures same { IfOk result (λ m. m ≡ members) }
        ensures kept { self.new ≡ self.old }
    {
        self.next = reached(self.events.items(), self.next, multi);
        let found = match self.events.items().get(self.next) {
            Some(event) => same_of(event, &members)?,
            None => None,
        };
        match found {
            Some(same) => Ok(same),
            None => Ok(members),
        }
    }

    /// The same record. That of a multixact shares the members of the event that makes it.
    pub fn shared(&mut self, rec: Rec) -> Result<Rec, Memory>
        ensures same { IfOk result (λ r. r ≡ rec) }
        ensures kept { self.new ≡ self.old }
    {
        match rec {
            Rec::Multi {
                multi,
                offset,
                members,
            } => Ok(Rec::Multi {
                multi,
                offset,
                members: self.members_of(multi, members)?,
            }),
            other => Ok(other),
        }
    }
}
