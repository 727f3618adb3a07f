//! The replay of a history, event by event.
ghost use Rattle.std.specs.Prelude.{◌≡◌, ◌<◌, ◌≤◌, Contains, IfNone, IfOk, IfSome, OnErr, OnOk, length, take, true, false, List, [], ◌∷◌, ◌++◌, ◌||◌};
ghost use Rattle.tx_events.specs.declared.event.Event.{Event};
ghost use Rattle.tx_events.specs.Base.{IsBase};
ghost use Rattle.tx_events.specs.Events.{by_of};
ghost use Rattle.tx_events.specs.Families.{is_top};
ghost use Rattle.tx_events.specs.History.{IsLegal, MayCome, next_given};
ghost use Rattle.tx_events.specs.Horizon.{oldest_id, oldest_xmin};
ghost use Rattle.tx_events.specs.Running.{open_ids};
ghost use Rattle.tx_events.specs.Snapshots.{snapshot_data};
ghost use Rattle.tx_events.specs.IdLists.{Ascending};
ghost use Rattle.tx_events.specs.Visible.{is_visible};
ghost use Rattle.proc_table.specs.Table.{InTurn};
ghost use Rattle.history_check.specs.GivenIds.{AreKept};
ghost use Rattle.history_check.specs.Opened.{AreAllOpened, AreClosed};
ghost use Rattle.history_check.specs.Replays.{GoesOn, IsLawfulNext, Stays, is_known, with_event};

use crate::given::{GivenId, note_given, was_committed};
use crate::may::may_come;
use crate::opened::{Opened, closed_by, make_room, none_kept, note_opened, push_ids};
use crate::turns::{is_in_turn, no_turns, note};
use proc_table::{Given, ProcTable};
use std::alloc::Global;
use std::marker::Model;
use tx_events::{Counters, Event, FullXid, Memory, SharedSnap, XactEnd, is_listed, make_one_room};

/// A history that is legal, and what its events say of ids. A contract sees the life's base, the number of sessions and
/// the events. An event takes the logarithm of the history's length, and the end of a transaction besides as many steps as
/// it was given ids; an undo takes that logarithm for each id that it closes, and what the table takes.
#[derive(Drop)]
pub struct HistoryReplay {
    table: ProcTable,
    /// The number of each session's last event.
    last: Vec<u64>,
    /// The ids of each session's transaction.
    opened: Vec<Opened>,
    /// All ids that were given, ascending.
    given: Vec<GivenId>,
}

impl Model for HistoryReplay {
    ghost use Rattle.history_check.specs.Replays.{IsReplay, Replayed};

    ghost Value = { Replayed };

    ghost view = { λ r. record { base = r.table.base; sessions = r.table.sessions; events = r.table.events } };

    ghost invariant = { λ r. IsReplay r.table r.last.items r.opened.items r.given.items };
}

/// Adds an event that may come to the table. Ids are given with their page made.
fn go_on(table: &mut ProcTable, event: &Event, closed: &[FullXid]) -> Result<(), Memory>
    requires session { (by_of event.now).session < table.old.sessions }
    requires turn { InTurn (by_of event.now) table.old.events }
    requires rule { MayCome table.old.base table.old.events event.now }
    requires closed { AreClosed event.now table.old.events closed.now }
    ensures ok { OnOk result (GoesOn table.old table.new event.now) }
    ensures err { OnErr result (Stays table.old table.new) }
{
    match event {
        Event::Id { by, id } => {
            table.made(*id);
            match table.assign(by.get()) {
                Ok(Given::Id { .. }) => Ok(()),
                _ => Err(Memory),
            }
        }
        Event::Sub { by, parent, id } => {
            table.made(*id);
            match table.add_sub(by.get(), *parent) {
                Ok(Given::Id { .. }) => Ok(()),
                _ => Err(Memory),
            }
        }
        Event::Undo { by, id } => {
            table.undo(by.get(), *id, closed);
            Ok(())
        }
        Event::Commit { by, top } => {
            table.end(by.get(), *top, XactEnd::Commit);
            Ok(())
        }
        Event::Abort { by, top } => {
            table.end(by.get(), *top, XactEnd::Abort);
            Ok(())
        }
        Event::Snap { by, name } => match table.snapshot(by.get(), name) {
            Ok(_snapshot) => Ok(()),
            Err(Memory) => Err(Memory),
        },
        Event::SnapDrop { by, name } => {
            table.drop_snapshot(by.get(), name);
            Ok(())
        }
        Event::Oldest { by, oldest } => match table.raise_oldest(by.get(), *oldest) {
            Ok(()) => Ok(()),
            Err(_refusal) => Err(Memory),
        },
        Event::Ask { by, id } => match table.ask(by.get(), *id) {
            Ok(_asked) => Ok(()),
            Err(Memory) => Err(Memory),
        },
    }
}

/// No session has an id open.
#[tactic(auto, using(crate::proofs::ReplaySteps::opened_none))]
fn none_opened(alloc: Global, sessions: u32) -> Result<Vec<Opened>, Memory>
    ensures { IfOk result (λ opened. AreAllOpened [] sessions opened.items) }
{
    let mut opened = Vec::with_capacity(alloc, sessions as usize)?;
    for _n in 0..sessions {
        opened.push(none_kept(alloc))?;
    }
    Ok(opened)
}

/// Whether the id is 1 or 2, or one of these, which ascend.
#[tactic(auto, using(crate::proofs::Seeing::same_among))]
fn is_known(committed: &[FullXid], x: FullXid) -> bool
    requires { Ascending committed.now }
    ensures { result ≡ is_known committed.now x }
{
    if x.number() == 1 || x.number() == 2 {
        return true;
    }
    is_listed(committed, x)
}

fn either(one: bool, other: bool) -> bool
    ensures { result ≡ (one || other) }
{
    one || other
}

impl HistoryReplay {
    /// A life of this base at its start, for at most 64 sessions.
    pub fn new(alloc: Global, base: Counters, sessions: u32) -> Result<HistoryReplay, Memory>
        requires base { IsBase base }
        requires sessions { sessions ≤ 64 }
        ensures { IfOk result (λ r. r ≡ record { base = base; sessions = sessions; events = [] }) }
    {
        Ok(HistoryReplay {
            table: ProcTable::new(alloc, base, sessions)?,
            last: no_turns(alloc, sessions)?,
            opened: none_opened(alloc, sessions)?,
            given: Vec::new(alloc),
        })
    }

    /// Adds the event if it may come next, and tells whether it did. Else nothing changed.
    pub fn add(&mut self, event: &Event) -> Result<bool, Memory>
        requires { (by_of event.now).session < self.old.sessions }
        ensures added { IfOk result (λ b. b ≡ true → IsLawfulNext self.old event.now × (self.new ≡ with_event self.old event.now)) }
        ensures refused { IfOk result (λ b. b ≡ false → (IsLawfulNext self.old event.now → ⊥) × (self.new ≡ self.old)) }
        ensures err { OnErr result (self.new ≡ self.old) }
    {
        let by = event.by();
        let session = by.session as usize;
        let place = self.table.events().len() as u64;
        if !is_in_turn(self.last.as_slice(), by) {
            return Ok(false);
        }
        if !may_come(&self.table, &self.opened[session], event) {
            return Ok(false);
        }
        let alloc = *self.given.allocator();
        let closed = closed_by(alloc, &self.table, &self.opened[session], event)?;
        make_one_room(&mut self.given)?;
        make_room(&mut self.opened[session])?;
        go_on(&mut self.table, event, closed.as_slice())?;
        note_given(&mut self.given, &self.opened[session], place, event);
        note_opened(&mut self.opened[session], closed.as_slice(), event);
        note(&mut self.last, by);
        Ok(true)
    }

    /// Whether the id was visible at this place of the history, in a life that began with these ids as committed, which
    /// ascend.
    pub fn was_visible(&self, committed: &[FullXid], place: u64, x: FullXid) -> bool
        requires order { Ascending committed.now }
        requires place { place ≤ length self.now.events }
        ensures { result ≡ is_visible committed.now (take place self.now.events) x }
    {
        let _legal = self.table.events();
        let known = is_known(committed, x);
        let since = was_committed(self.given.as_slice(), place, x);
        either(known, since)
    }

    /// What a snapshot holds that is taken now.
    pub fn snapshot_data(&mut self) -> Result<SharedSnap, Memory>
        ensures data { IfOk result (λ s. s ≡ snapshot_data self.old.base.next self.old.events) }
        ensures same { self.new ≡ self.old }
    {
        self.table.snapshot_data()
    }

    /// The id that is given next.
    pub fn next(&self) -> FullXid
        ensures { result ≡ next_given self.now.base.next self.now.events }
    {
        self.table.next()
    }

    /// The announced oldest id.
    pub fn oldest(&self) -> FullXid
        ensures { result ≡ oldest_id self.now.base.oldest self.now.events }
    {
        self.table.oldest()
    }

    /// The oldest xmin.
    pub fn oldest_xmin(&self) -> FullXid
        ensures { result ≡ oldest_xmin self.now.base.next self.now.events }
    {
        self.table.oldest_xmin()
    }

    /// The top-level id of the session's transaction. None where the session has no id open.
    pub fn open_top(&self, session: u32) -> Option<FullXid>
        ensures some { IfSome result (λ t. Contains (open_ids session self.now.events) t × (is_top self.now.events t ≡ true)) }
        ensures none { IfNone result (open_ids session self.now.events ≡ []) }
    {
        self.table.open_top(session)
    }

    /// How many ids the session has open.
    pub fn count_open(&self, session: u32) -> usize
        requires { session < self.now.sessions }
        ensures { result ≡ length (open_ids session self.now.events) }
    {
        self.opened[session as usize].count
    }

    /// Puts the ids that the session has open behind these, ascending.
    pub fn push_open(&self, session: u32, ids: &mut Vec<FullXid>) -> Result<(), Memory>
        requires { session < self.now.sessions }
        ensures { OnOk result (ids.new.items ≡ ids.old.items ++ open_ids session self.now.events) }
    {
        push_ids(&self.opened[session as usize].slots, ids)
    }

    /// The history so far, which is legal.
    pub fn events(&self) -> &[Event]
        ensures value { result.now ≡ self.now.events }
        ensures legal { IsLegal self.now.base self.now.events }
        ensures base { IsBase self.now.base }
    {
        self.table.events()
    }
}
