//! A history of multixacts with what its places tell.
ghost use Rattle.std.specs.Prelude.{◌≡◌, ◌<◌, ◌≤◌, IfOk, OnErr, length, take, true, false, [], map, ◌^◌};
ghost use Rattle.tx_events.specs.Base.{IsBase};
ghost use Rattle.tx_events.specs.Multis.{AreLegalMultis, MultiMayCome};
ghost use Rattle.place_columns.specs.Columns.{IsWhere};
ghost use Rattle.tx_events.specs.IdLists.{Ascending};
ghost use Rattle.tx_events.specs.Multis.{InBase, first_member};
ghost use Rattle.history_places.specs.declared.start.Start.{Start};
ghost use Rattle.history_places.specs.MultiTold.{IsRow, first_in, member_stop_in, next_in, oldest_in, stop_in, with_event};
ghost use Rattle.history_places.specs.Starts.{BeginsAs, FitsBase, IsAmiss, IsWellBegun};

use crate::start::{Start, is_start};
use history_check::add_multi;
use multi_store::{MultiGen, counters_never_fall};
use notes::Note;
use place_columns::{Span, column_of, span_of};
use std::alloc::Global;
use std::collections::LinkedList;
use std::marker::Model;
use tx_events::laws::limits_rise;
use tx_events::{Counters, FullMulti, Memory, MultiEvent, MultiLimits, make_one_room, member_stop};

/// A legal history of multixacts with five numbers of each of its places, and of the place behind it: the next multixact,
/// where the next members begin, the oldest multixact, the multixact at which they stop, and the offset that members don't
/// reach. A contract sees the life's base, where multixacts of the base begin, and the events. Where a number was true is
/// found in the logarithm of the history's length, since none of them ever falls.
#[derive(Drop)]
pub struct MultiPlaces {
    multis: MultiGen,
    first: FullMulti,
    /// Where multixacts of the base begin, for contracts alone.
    starts: Note<LinkedList<Start>>,
    nexts: Vec<u64>,
    firsts: Vec<u64>,
    oldests: Vec<u64>,
    stops: Vec<u64>,
    member_stops: Vec<u64>,
}

impl Model for MultiPlaces {
    ghost use Rattle.std.specs.Prelude.{◌≡◌};
    ghost use Rattle.history_places.specs.MultiTold.{AreMultiPlaces, MultiReplayed};

    ghost Value = { MultiReplayed };

    ghost view = { λ p. record { base = p.multis.base; starts = p.starts.value; events = p.multis.events } };

    ghost invariant = { λ p. (p.first ≡ p.multis.base.multi) × AreMultiPlaces p.multis.base p.starts.value p.multis.events p.nexts.items p.firsts.items p.oldests.items p.stops.items p.member_stops.items };
}

/// Where members begin: at the next free offset, or one later where the stored half of that is 0.
fn first_member(free: u64) -> u64
    requires { free < 2 ^ 63 }
    ensures { result ≡ first_member free }
{
    if free & 0xffff_ffff == 0 {
        free + 1
    } else {
        free
    }
}

/// What a place tells.
#[derive(Clone, Copy)]
struct Row {
    next: u64,
    first: u64,
    oldest: u64,
    stop: u64,
    member_stop: u64,
}

/// What the place behind the history tells.
fn row_of(multis: &MultiGen) -> Row
    ensures row { IsRow multis.now.base multis.now.events result }
    ensures legal { AreLegalMultis multis.now.base (InBase multis.now.base) multis.now.events }
{
    let _legal = multis.events();
    let counters = multis.counters();
    Row {
        next: counters.multi.number(),
        first: first_member(counters.offset),
        oldest: counters.oldest_multi.number(),
        stop: MultiLimits::of(counters.oldest_multi).stop.number(),
        member_stop: member_stop(counters.oldest_offset),
    }
}

/// Whether a raise of the oldest multixact is to one of the base that doesn't begin there.
fn is_amiss(first: FullMulti, starts: &[Start], event: &MultiEvent) -> bool
    requires { Ascending (map (λ (s : Start). s.multi) starts.now) }
    ensures amiss { result ≡ true → IsAmiss first starts.now event.now }
    ensures well { result ≡ false → IsWellBegun first starts.now event.now }
{
    match event {
        MultiEvent::Raise { multi, offset, .. } => {
            *multi < first && !is_start(starts, *multi, *offset)
        }
        _ => false,
    }
}

impl MultiPlaces {
    /// A life of this base at its start, where the multixacts of the base begin so, with room for so many events.
    pub fn new(
        alloc: Global,
        base: Counters,
        starts: &[Start],
        count: usize,
    ) -> Result<MultiPlaces, Memory>
        requires base { IsBase base }
        requires starts { FitsBase base starts.now }
        ensures { IfOk result (λ r. r ≡ record { base = base; starts = starts.now; events = [] }) }
    {
        let first = base.multi;
        let multis = MultiGen::new(alloc, base);
        let row = row_of(&multis);
        let room = count.saturating_add(1);
        let nexts = column_of(alloc, row.next, room)?;
        let firsts = column_of(alloc, row.first, room)?;
        let oldests = column_of(alloc, row.oldest, room)?;
        let stops = column_of(alloc, row.stop, room)?;
        let member_stops = column_of(alloc, row.member_stop, room)?;
        Ok(MultiPlaces {
            multis,
            first,
            starts: Note::by(&starts),
            nexts,
            firsts,
            oldests,
            stops,
            member_stops,
        })
    }

    /// Adds the event if it may come next in a life whose base's multixacts begin so, and tells whether it did. Else
    /// nothing changed.
    pub fn add(&mut self, starts: &[Start], event: &MultiEvent) -> Result<bool, Memory>
        requires { starts.now ≡ self.old.starts }
        ensures added { IfOk result (λ b. b ≡ true → MultiMayCome self.old.base (BeginsAs self.old.starts) self.old.events event.now × (self.new ≡ with_event self.old event.now)) }
        ensures refused { IfOk result (λ b. b ≡ false → (MultiMayCome self.old.base (BeginsAs self.old.starts) self.old.events event.now → ⊥) × (self.new ≡ self.old)) }
        ensures err { OnErr result (self.new ≡ self.old) }
    {
        make_one_room(&mut self.nexts)?;
        make_one_room(&mut self.firsts)?;
        make_one_room(&mut self.oldests)?;
        make_one_room(&mut self.stops)?;
        make_one_room(&mut self.member_stops)?;
        if is_amiss(self.first, starts, event) {
            return Ok(false);
        }
        if !add_multi(&mut self.multis, event)? {
            return Ok(false);
        }
        let row = row_of(&self.multis);
        self.nexts.push_reserved(row.next);
        self.firsts.push_reserved(row.first);
        self.oldests.push_reserved(row.oldest);
        self.stops.push_reserved(row.stop);
        self.member_stops.push_reserved(row.member_stop);
        Ok(true)
    }

    /// The events so far, which are legal.
    pub fn events(&self) -> &[MultiEvent]
        ensures value { result.now ≡ self.now.events }
        ensures legal { AreLegalMultis self.now.base (BeginsAs self.now.starts) self.now.events }
        ensures base { IsBase self.now.base }
    {
        self.multis.events()
    }

    /// The multixact that was given next at this place.
    pub fn next_at(&self, place: u64) -> u64
        requires { place ≤ length self.now.events }
        ensures { result ≡ next_in self.now.base (take place self.now.events) }
    {
        self.nexts[place as usize]
    }

    /// The oldest multixact at this place.
    pub fn oldest_at(&self, place: u64) -> u64
        requires { place ≤ length self.now.events }
        ensures { result ≡ oldest_in self.now.base (take place self.now.events) }
    {
        self.oldests[place as usize]
    }

    /// The places at which this multixact was the next one.
    pub fn where_next(&self, multi: u64) -> Span
        ensures { IsWhere (next_in self.now.base) self.now.events multi result }
    {
        counters_never_fall();
        let _legal = self.multis.events();
        span_of(self.nexts.as_slice(), multi)
    }

    /// The places at which the next members would have begun at this offset.
    pub fn where_first(&self, offset: u64) -> Span
        ensures { IsWhere (first_in self.now.base) self.now.events offset result }
    {
        counters_never_fall();
        let _legal = self.multis.events();
        span_of(self.firsts.as_slice(), offset)
    }

    /// The places at which this multixact was the oldest one.
    pub fn where_oldest(&self, multi: u64) -> Span
        ensures { IsWhere (oldest_in self.now.base) self.now.events multi result }
    {
        counters_never_fall();
        let _legal = self.multis.events();
        span_of(self.oldests.as_slice(), multi)
    }

    /// The places at which multixacts stopped at this one.
    pub fn where_stop(&self, stop: u64) -> Span
        ensures { IsWhere (stop_in self.now.base) self.now.events stop result }
    {
        limits_rise();
        counters_never_fall();
        let _legal = self.multis.events();
        span_of(self.stops.as_slice(), stop)
    }

    /// The places at which members stopped at this offset.
    pub fn where_member_stop(&self, stop: u64) -> Span
        ensures { IsWhere (member_stop_in self.now.base) self.now.events stop result }
    {
        limits_rise();
        counters_never_fall();
        let _legal = self.multis.events();
        span_of(self.member_stops.as_slice(), stop)
    }
}
