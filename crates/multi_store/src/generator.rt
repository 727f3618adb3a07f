// `MultiXactState` of `multixact.c`: numbers and offsets are given under one lock, so that a number whose members stand
// nowhere yet is never the oldest one.
ghost use Rattle.std.specs.Prelude.{◌≡◌, ℕ, ◌+◌, ◌^◌, ◌<◌, ◌≤◌, ◌↔◌, IsTrue, [], Contains};
ghost use Rattle.tx_events.specs.declared.multi.MultiEvent.TheVariants as events;
ghost use Rattle.tx_events.specs.Base.{IsBase};
ghost use Rattle.tx_events.specs.Multis.{AreLegalMultis, AreMembers, InBase, made_at, pins};
ghost use Rattle.multi_store.specs.Generator.{Generator, Adds, Gives, Means, Holds, Raises, Begins, BeginsWhereRaised, counters_of};

use crate::answers::{Held, MultiGiven};
use crate::pins::{PinCounts, PinKey, add_pin, drop_pin, has_pin, least_pinned};
use crate::places::{first_member, place_of};
use std::alloc::Global;
use std::marker::Model;
use tx_events::{
    By, ByWords, Copied, Counters, FullMulti, MemberList, MultiEvent, MultiId, Refusal,
    check_multi, make_one_room, make_room, member_stop, near_multi,
};

/// The generator of multixacts, and their history so far. A contract sees the base of the life and the events.
#[derive(Drop)]
pub struct MultiGen {
    base: Counters,
    /// The base's counters, moved on by the events.
    counters: Counters,
    /// How many events may come without memory: an unhold for each pin.
    promised: usize,
    /// Where the multixacts of this life begin, in order.
    offsets: Vec<u64>,
    pins: PinCounts,
    /// With room for the promised ones.
    events: Vec<MultiEvent>,
}

impl Model for MultiGen {
    ghost use Rattle.std.specs.Prelude.{◌+◌, ◌≤◌};
    ghost use Rattle.std.specs.Vec.{vec_len, vec_capacity};
    ghost use Rattle.multi_store.specs.Generator.{Generator};
    ghost use Rattle.multi_store.specs.State.{IsState};

    ghost Value = { Generator };

    ghost view = { λ g. record { base = g.base; events = g.events.items } };

    ghost invariant = { λ g. IsState g.base g.events.items g.counters g.promised g.offsets.items g.pins × (vec_len g.events + g.promised ≤ vec_capacity g.events) };
}

impl MultiGen {
    /// The generator at the start of a life. Takes no memory.
    pub fn new(alloc: Global, base: Counters) -> MultiGen
        requires { IsBase base }
        ensures { result ≡ record { base = base; events = [] } }
    {
        let counters = base.same();
        MultiGen {
            base,
            counters,
            promised: 0,
            offsets: Vec::new(alloc),
            pins: PinCounts::new(alloc),
            events: Vec::new(alloc),
        }
    }

    /// Gives the next multixact and the offset at which its members begin (`GetNewMultiXactId`). Refused with
    /// `MultiStop` exactly where the next one is at or past its stop limit, else with `MemberStop` exactly where the
    /// members would reach the limit of their offsets; after a refusal nothing changed.
    pub fn next(&mut self, by: By, members: &MemberList) -> Result<MultiGiven, Refusal>
        requires { AreMembers members.now }
        ensures { Gives self.old self.new by members.now result }
    {
        let multi = self.counters.multi;
        let warn = check_multi(self.counters.oldest_multi, multi)?;
        let offset = first_member(self.counters.offset);
        let end = offset + members.items().len() as u64;
        let stop = member_stop(self.counters.oldest_offset);
        if stop <= end {
            return Err(Refusal::MemberStop { next: offset, stop });
        }
        let members = members.copy()?;
        make_one_room(&mut self.offsets)?;
        make_room(&mut self.events, self.promised, 1)?;
        self.offsets.push_reserved(offset);
        self.events.push_reserved(MultiEvent::Gen {
            by: ByWords::of(by),
            multi,
            offset,
            members,
        });
        self.counters.multi = multi.advance();
        self.counters.offset = end;
        Ok(MultiGiven {
            multi,
            offset,
            warn,
        })
    }

    /// Pins the multixact that a stored half means near the next one, so that the oldest one isn't raised past it.
    /// `MultiTooOld` exactly where it means none or one below the oldest, `MultiFuture` exactly where it means one at or
    /// past the next; after a refusal nothing changed. The room for the unhold is taken now. A session may pin one more
    /// than once.
    pub fn hold(&mut self, by: By, m: MultiId) -> Result<Held, Refusal>
        requires { 1 ≤ m.number }
        ensures { Holds self.old self.new by m.number result }
    {
        let multi = self.meant_by(m)?;
        let held = Held {
            multi,
            last: multi.advance() == self.counters.multi,
            end: self.counters.offset,
            start: self.start_of(multi),
            most: self.base.offset,
        };
        make_room(&mut self.events, self.promised, 2)?;
        let pin = PinKey {
            multi,
            session: by.session,
        };
        add_pin(&mut self.pins, pin)?;
        self.events.push_reserved(MultiEvent::Hold {
            by: ByWords::of(by),
            multi,
        });
        self.promised += 1;
        Ok(held)
    }

    /// Lets go a multixact that the session pins, once. Takes no memory.
    pub fn unhold(&mut self, by: By, multi: FullMulti)
        requires { Contains (pins self.old.events) (by.session, multi) }
        ensures { Adds self.old self.new (events.Unhold by multi) }
    {
        let pin = PinKey {
            multi,
            session: by.session,
        };
        drop_pin(&mut self.pins, pin);
        self.events.push_reserved(MultiEvent::Unhold {
            by: ByWords::of(by),
            multi,
        });
        self.promised -= 1;
    }

    /// Announces the oldest multixact, and the offset at which its members begin (`SetMultiXactIdLimit`,
    /// `MultiXactAdvanceOldest`). `Backward` exactly where it is below the announced one, else `Held` exactly where it is
    /// past the next one or a pinned one; after a refusal nothing changed. Where it isn't refused it is to begin there.
    pub fn raise_oldest(&mut self, by: By, multi: FullMulti, offset: u64) -> Result<(), Refusal>
        requires { BeginsWhereRaised self.old multi offset }
        ensures { Raises self.old self.new by multi offset result }
    {
        let oldest = self.counters.oldest_multi;
        if multi < oldest {
            return Err(Refusal::Backward {
                now: oldest.number(),
            });
        }
        let limit = least_pinned(self.counters.multi, &self.pins);
        if limit < multi {
            return Err(Refusal::Held { limit });
        }
        make_room(&mut self.events, self.promised, 1)?;
        self.events.push_reserved(MultiEvent::Raise {
            by: ByWords::of(by),
            multi,
            offset,
        });
        self.counters.oldest_multi = multi;
        self.counters.oldest_offset = offset;
        Ok(())
    }

    /// Whether the session pins this multixact.
    pub fn holds(&self, session: u32, multi: FullMulti) -> bool
        ensures { IsTrue result ↔ Contains (pins self.now.events) (session, multi) }
    {
        has_pin(&self.pins, PinKey { multi, session })
    }

    /// Whether the multixact may begin at this offset, as far as the generator knows: one of this life begins where it
    /// was given, the next one at the next free offset, and one of the base from the oldest offset to the base's free
    /// one.
    pub fn begins_at(&self, multi: FullMulti, offset: u64) -> bool
        ensures { IsTrue result ↔ Begins self.now multi offset }
    {
        if multi < self.base.multi {
            return self.counters.oldest_offset <= offset && offset <= self.base.offset;
        }
        if multi < self.counters.multi {
            return self.start_of(multi) == Some(offset);
        }
        multi > self.counters.multi || offset == self.counters.offset
    }

    /// What comes next and what is oldest, of multixacts and offsets, with the base's ids.
    pub fn counters(&self) -> Counters
        ensures value { result ≡ counters_of self.now }
        ensures base { IsBase result }
    {
        self.counters
    }

    /// The history so far, which is legal.
    pub fn events(&self) -> &[MultiEvent]
        ensures value { result.now ≡ self.now.events }
        ensures legal { AreLegalMultis self.now.base (InBase self.now.base) self.now.events }
        ensures base { IsBase self.now.base }
    {
        self.events.as_slice()
    }

    /// The multixact that a stored half means near the next one, where it is one from the oldest to below the next.
    fn meant_by(&self, m: MultiId) -> Result<FullMulti, Refusal>
        requires { 1 ≤ m.number }
        ensures { Means self.now m.number result }
    {
        let next = self.counters.multi;
        let oldest = self.counters.oldest_multi;
        let multi = match near_multi(next, m) {
            Some(multi) => multi,
            None => return Err(Refusal::MultiTooOld { oldest }),
        };
        if multi < oldest {
            return Err(Refusal::MultiTooOld { oldest });
        }
        if next <= multi {
            return Err(Refusal::MultiFuture { next });
        }
        Ok(multi)
    }

    /// Where the members of a multixact of this life begin. None for another one.
    fn start_of(&self, multi: FullMulti) -> Option<u64>
        ensures { result ≡ made_at multi self.now.events }
    {
        if multi < self.base.multi {
            return None;
        }
        let place = place_of(self.base.multi, multi);
        self.offsets.get(place as usize).copied()
    }
}
