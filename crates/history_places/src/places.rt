//! A history with what its places tell.
ghost use Rattle.std.specs.Prelude.{◌≡◌, ◌<◌, ◌≤◌, IfOk, OnErr, length, take, true, false, []};
ghost use Rattle.tx_events.specs.Base.{IsBase};
ghost use Rattle.tx_events.specs.Events.{by_of};
ghost use Rattle.tx_events.specs.Snapshots.{snapshot_data};
ghost use Rattle.history_check.specs.Replays.{IsLawfulNext, Replayed, with_event};
ghost use Rattle.place_columns.specs.Columns.{IsWhere};
ghost use Rattle.history_places.specs.Told.{next_in, oldest_in, stop_in, xmin_in};

use history_check::HistoryReplay;
use place_columns::{Span, column_of, span_of_id};
use std::alloc::Global;
use std::marker::Model;
use tx_events::laws::limits_rise;
use tx_events::{Counters, Event, FullXid, Limits, Memory, SharedSnap, make_one_room};

/// A legal history with four numbers of each of its places, and of the place behind it: the next id, the announced oldest
/// id, the id at which writes stop, and the oldest xmin. A contract sees the replay of the history. Where a number was true
/// is found in the logarithm of the history's length, since none of them ever falls.
#[derive(Drop)]
pub struct HistoryPlaces {
    replay: HistoryReplay,
    nexts: Vec<FullXid>,
    oldests: Vec<FullXid>,
    stops: Vec<FullXid>,
    xmins: Vec<FullXid>,
}

impl Model for HistoryPlaces {
    ghost use Rattle.history_check.specs.Replays.{Replayed};
    ghost use Rattle.history_places.specs.Told.{ArePlaces};

    ghost Value = { Replayed };

    ghost view = { λ p. p.replay };

    ghost invariant = { λ p. ArePlaces p.replay p.nexts.items p.oldests.items p.stops.items p.xmins.items };
}

/// The id at which writes stop now.
fn stop_now(replay: &HistoryReplay) -> FullXid
    ensures { result ≡ stop_in replay.now.base replay.now.events }
{
    let _legal = replay.events();
    Limits::of(replay.oldest()).stop
}

impl HistoryPlaces {
    /// A life of this base at its start, for at most 64 sessions, with room for so many events.
    pub fn new(
        alloc: Global,
        base: Counters,
        sessions: u32,
        count: usize,
    ) -> Result<HistoryPlaces, Memory>
        requires base { IsBase base }
        requires sessions { sessions ≤ 64 }
        ensures { IfOk result (λ r. r ≡ record { base = base; sessions = sessions; events = [] }) }
    {
        let replay = HistoryReplay::new(alloc, base, sessions)?;
        let room = count.saturating_add(1);
        let nexts = column_of(alloc, replay.next(), room)?;
        let oldests = column_of(alloc, replay.oldest(), room)?;
        let stops = column_of(alloc, stop_now(&replay), room)?;
        let xmins = column_of(alloc, replay.oldest_xmin(), room)?;
        Ok(HistoryPlaces {
            replay,
            nexts,
            oldests,
            stops,
            xmins,
        })
    }

    /// Adds the event if it may come next, and tells whether it did. Else nothing changed.
    pub fn add(&mut self, event: &Event) -> Result<bool, Memory>
        requires { (by_of event.now).session < self.old.sessions }
        ensures added { IfOk result (λ b. b ≡ true → IsLawfulNext self.old event.now × (self.new ≡ with_event self.old event.now)) }
        ensures refused { IfOk result (λ b. b ≡ false → (IsLawfulNext self.old event.now → ⊥) × (self.new ≡ self.old)) }
        ensures err { OnErr result (self.new ≡ self.old) }
    {
        make_one_room(&mut self.nexts)?;
        make_one_room(&mut self.oldests)?;
        make_one_room(&mut self.stops)?;
        make_one_room(&mut self.xmins)?;
        if !self.replay.add(event)? {
            return Ok(false);
        }
        self.nexts.push_reserved(self.replay.next());
        self.oldests.push_reserved(self.replay.oldest());
        self.stops.push_reserved(stop_now(&self.replay));
        self.xmins.push_reserved(self.replay.oldest_xmin());
        Ok(true)
    }

    /// The replay of the history, by which what is so now is known.
    pub fn replay(&self) -> &HistoryReplay
        ensures { result.now ≡ self.now }
    {
        &self.replay
    }

    /// What a snapshot holds that is taken now.
    pub fn snapshot_data(&mut self) -> Result<SharedSnap, Memory>
        ensures data { IfOk result (λ s. s ≡ snapshot_data self.old.base.next self.old.events) }
        ensures same { self.new ≡ self.old }
    {
        self.replay.snapshot_data()
    }

    /// The id that was given next at this place.
    pub fn next_at(&self, place: u64) -> FullXid
        requires { place ≤ length self.now.events }
        ensures { result ≡ next_in self.now.base (take place self.now.events) }
    {
        self.nexts[place as usize]
    }

    /// The oldest id that was announced at this place.
    pub fn oldest_at(&self, place: u64) -> FullXid
        requires { place ≤ length self.now.events }
        ensures { result ≡ oldest_in self.now.base (take place self.now.events) }
    {
        self.oldests[place as usize]
    }

    /// The id at which writes stopped at this place.
    pub fn stop_at(&self, place: u64) -> FullXid
        requires { place ≤ length self.now.events }
        ensures { result ≡ stop_in self.now.base (take place self.now.events) }
    {
        self.stops[place as usize]
    }

    /// The oldest xmin at this place.
    pub fn xmin_at(&self, place: u64) -> FullXid
        requires { place ≤ length self.now.events }
        ensures { result ≡ xmin_in self.now.base (take place self.now.events) }
    {
        self.xmins[place as usize]
    }

    /// The places at which this id was the next one.
    pub fn where_next(&self, id: FullXid) -> Span
        ensures { IsWhere (next_in self.now.base) self.now.events id result }
    {
        let _legal = self.replay.events();
        span_of_id(self.nexts.as_slice(), id)
    }

    /// The places at which this id was the announced oldest one.
    pub fn where_oldest(&self, id: FullXid) -> Span
        ensures { IsWhere (oldest_in self.now.base) self.now.events id result }
    {
        let _legal = self.replay.events();
        span_of_id(self.oldests.as_slice(), id)
    }

    /// The places at which writes stopped at this id.
    pub fn where_stop(&self, stop: FullXid) -> Span
        ensures { IsWhere (stop_in self.now.base) self.now.events stop result }
    {
        limits_rise();
        let _legal = self.replay.events();
        span_of_id(self.stops.as_slice(), stop)
    }

    /// The places at which this was the oldest xmin.
    pub fn where_xmin(&self, xmin: FullXid) -> Span
        ensures { IsWhere (xmin_in self.now.base) self.now.events xmin result }
    {
        let _legal = self.replay.events();
        span_of_id(self.xmins.as_slice(), xmin)
    }
}
