//! The table and its calls, each one step under the table's lock. A call that may want memory takes it before anything
//! is changed; the calls that close ids take none, since their events' room was taken when the ids were given.
ghost use Rattle.std.specs.Prelude.{◌≡◌, ℕ, ◌+◌, ◌^◌, ◌<◌, ◌≤◌, List, [], ◌∷◌, ◌++◌, Contains, true, false, length, max, IfOk, OnOk, OnErr, IfSome, IfNone};
ghost use Rattle.std.specs.List.{filter};
ghost use Rattle.std.specs.Vec.{vec_len, vec_capacity};
ghost use Rattle.tx_events.specs.declared.event.Event.TheVariants as events;
ghost use Rattle.tx_events.specs.Base.{IsBase};
ghost use Rattle.tx_events.specs.History.{IsLegal};
ghost use Rattle.tx_events.specs.Running.{open_ids};
ghost use Rattle.tx_events.specs.Families.{is_top};
ghost use Rattle.tx_events.specs.Horizon.{is_live};
ghost use Rattle.tx_events.specs.Savepoints.{is_inside};
ghost use Rattle.tx_events.specs.Snapshots.{snapshot_xmax};
ghost use Rattle.tx_events.specs.XactEnds.{end_event};
ghost use Rattle.tx_events.specs.Ids.{IsFullId, next_id};
ghost use Rattle.proc_table.specs.Table.{Table, InTurn, Gives, Adds, Takes, Raises, Asks, IsOpenTop, data_at, next_of, oldest_of, xmin_of, page_of};

use crate::answers::{Asked, Given};
use crate::entries::{
    add_id, drop_top, has_overflow_below, is_running, last_given, least_top, listed_subs,
    make_sub_room, take_ids, top_of, tops_below,
};
use crate::entry::{Entry, greatest};
use crate::live::LiveSnapshots;
use std::alloc::{AllocError, Global};
use std::marker::Model;
use tx_events::{
    By, ByWords, Counters, Event, EventList, FullXid, Memory, Name, Refusal, SharedSnap, SnapData,
    XactEnd, check_id, make_one_room, make_room, subtrans_page_in_full,
};

/// The running transactions and the live snapshots of all sessions, and the history so far: what PostgreSQL keeps under
/// `ProcArrayLock` and `XidGenLock`, here one lock. A contract sees the base of the life, the number of sessions, the
/// last page of parents that is made, and the events.
#[derive(Drop)]
pub struct ProcTable {
    base: Counters,
    sessions: u32,
    /// The last page of parents that is made, counted in full.
    initialised_up_to: u64,
    /// The id that is given next (`nextXid`).
    next: FullXid,
    /// The announced oldest id (`oldestXid`).
    oldest: FullXid,
    /// The greatest id that was closed (`latestCompletedXid`), at first the one before the base's next one.
    latest_completed: FullXid,
    /// How many events may come without memory: an end for each running id, a drop for each live snapshot.
    owed_events: usize,
    /// One for each running transaction, ascending by top. PostgreSQL's array has one for each backend (`ProcArrayAdd`).
    entries: Vec<Entry>,
    live: LiveSnapshots,
    /// What a snapshot holds that is taken now, where it was computed since the last end, undo or sub event.
    contents: Option<SharedSnap>,
    /// How often that was computed. Only tests read it.
    computations: u64,
    /// With room for the promised ones.
    events: Vec<Event>,
}

impl Model for ProcTable {
    ghost use Rattle.std.specs.Prelude.{◌≡◌, ◌+◌, ◌≤◌, length};
    ghost use Rattle.std.specs.Vec.{vec_len, vec_capacity};
    ghost use Rattle.proc_table.specs.Table.{Table};
    ghost use Rattle.proc_table.specs.State.{IsState, IsOfNow};

    ghost Value = { Table };

    ghost view = { λ t. record { base = t.base; sessions = t.sessions; initialised_up_to = t.initialised_up_to; events = t.events.items } };

    ghost invariant = { λ t. IsState t.base t.events.items t.next t.oldest t.latest_completed t.owed_events t.entries.items t.live × (vec_len t.events + t.owed_events ≤ vec_capacity t.events) × (length t.live.sessions.items ≡ t.sessions) × IsOfNow t.base.next t.events.items t.contents };
}

/// The page on which the id's parent stands.
fn page_of(id: FullXid) -> u64
    ensures { result ≡ page_of id }
{
    subtrans_page_in_full(id)
}

impl ProcTable {
    /// The table at the start of a life, for at most 64 sessions. Of the pages of parents the one of the base's next
    /// id is made.
    pub fn new(alloc: Global, base: Counters, sessions: u32) -> Result<ProcTable, Memory>
        requires base { IsBase base }
        requires sessions { sessions ≤ 64 }
        ensures { IfOk result (λ t. t ≡ record { base = base; sessions = sessions; initialised_up_to = page_of base.next; events = [] }) }
    {
        Ok(ProcTable {
            base,
            sessions,
            initialised_up_to: page_of(base.next),
            next: base.next,
            oldest: base.oldest,
            latest_completed: base.next.retreat(),
            owed_events: 0,
            entries: Vec::with_capacity(alloc, sessions as usize)?,
            live: LiveSnapshots::new(alloc, sessions)?,
            contents: None,
            computations: 0,
            events: Vec::new(alloc),
        })
    }

    /// Gives the next id to a session that has none open (`GetNewTransactionId`). `NeedPage` exactly where the
    /// next id's page isn't made, which is tested before the stop limit; then and after a refusal nothing changed.
    /// The room for the end of the transaction is taken now.
    pub fn assign(&mut self, by: By) -> Result<Given, Refusal>
        requires session { by.session < self.old.sessions }
        requires turn { InTurn by self.old.events }
        requires none { open_ids by.session self.old.events ≡ [] }
        ensures { Gives self.old self.new (λ id. events.Id by id) result }
    {
        let id = self.next;
        if page_of(id) > self.initialised_up_to {
            return Ok(Given::NeedPage { id });
        }
        let warn = check_id(self.oldest, id)?;
        make_one_room(&mut self.entries)?;
        make_room(&mut self.events, self.owed_events, 2)?;
        let alloc = *self.events.allocator();
        self.entries
            .push_reserved(Entry::of_top(alloc, by.session, id));
        self.events.push_reserved(Event::Id {
            by: ByWords::of(by),
            id,
        });
        self.next = id.advance();
        self.owed_events += 1;
        Ok(Given::Id { id, warn })
    }

    /// Gives the next id to a savepoint below an open id of the session. Answers as `assign` does. The room for the
    /// undo is taken now.
    pub fn add_sub(&mut self, by: By, parent: FullXid) -> Result<Given, Refusal>
        requires session { by.session < self.old.sessions }
        requires turn { InTurn by self.old.events }
        requires parent { Contains (open_ids by.session self.old.events) parent }
        ensures { Gives self.old self.new (λ id. events.Sub by parent id) result }
    {
        let id = self.next;
        if page_of(id) > self.initialised_up_to {
            return Ok(Given::NeedPage { id });
        }
        let warn = check_id(self.oldest, id)?;
        make_room(&mut self.events, self.owed_events, 2)?;
        make_sub_room(&mut self.entries, by.session)?;
        self.contents = None;
        add_id(&mut self.entries, by.session, id);
        self.events.push_reserved(Event::Sub {
            by: ByWords::of(by),
            parent,
            id,
        });
        self.next = id.advance();
        self.owed_events += 1;
        Ok(Given::Id { id, warn })
    }

    /// The pages of the id are made. The id isn't past the next one.
    pub fn made(&mut self, id: FullXid)
        requires { id ≤ next_of self.old }
        ensures { self.new ≡ record self.old { initialised_up_to = max self.old.initialised_up_to (page_of id) } }
    {
        self.initialised_up_to = self.initialised_up_to.max(page_of(id));
    }

    /// Closes an open subid and all open ids below it, which are `ids` (`XidCacheRemoveRunningXids`). Takes no
    /// memory.
    pub fn undo(&mut self, by: By, id: FullXid, ids: &[FullXid])
        requires session { by.session < self.old.sessions }
        requires turn { InTurn by self.old.events }
        requires id_open { Contains (open_ids by.session self.old.events) id }
        requires id_sub { is_top self.old.events id ≡ false }
        requires ids { ids.now ≡ filter (is_inside self.old.events id) (open_ids by.session self.old.events) }
        ensures { Adds self.old self.new (events.Undo by id) }
    {
        self.latest_completed = greatest(self.latest_completed, ids);
        self.contents = None;
        take_ids(&mut self.entries, by.session, ids);
        self.events.push_reserved(Event::Undo {
            by: ByWords::of(by),
            id,
        });
        self.owed_events -= 1;
    }

    /// Commits or aborts the transaction of this top, and closes all its open ids (`ProcArrayEndTransaction`). Takes
    /// no memory.
    pub fn end(&mut self, by: By, top: FullXid, how: XactEnd)
        requires session { by.session < self.old.sessions }
        requires turn { InTurn by self.old.events }
        requires top_open { Contains (open_ids by.session self.old.events) top }
        requires top_top { is_top self.old.events top ≡ true }
        ensures { Adds self.old self.new (end_event how by top) }
    {
        let last = match last_given(&self.entries, top) {
            Some(last) => last,
            None => unreachable!(),
        };
        self.latest_completed = greatest(self.latest_completed, &[last]);
        self.contents = None;
        drop_top(&mut self.entries, top);
        self.events.push_reserved(how.event(by, top));
        self.owed_events -= 1;
    }

    /// Takes a snapshot under a name that the session has no live snapshot of, and registers its xmin
    /// (`GetSnapshotData`). The room for its drop is taken now. After want of memory nothing changed.
    pub fn snapshot(&mut self, by: By, name: &Name) -> Result<SharedSnap, Memory>
        requires session { by.session < self.old.sessions }
        requires turn { InTurn by self.old.events }
        requires free { is_live self.old.base.next by.session name.now self.old.events ≡ false }
        ensures { Takes self.old self.new (events.Snap name.now by) result }
    {
        let taken = self.snapshot_data()?;
        self.register(by, name, taken.xmin())?;
        Ok(taken)
    }

    /// Registers under this name the xmin of a snapshot that is taken now. The room for its drop is taken now. After want
    /// of memory nothing changed.
    pub fn register(&mut self, by: By, name: &Name, xmin: FullXid) -> Result<(), Memory>
        requires session { by.session < self.old.sessions }
        requires turn { InTurn by self.old.events }
        requires free { is_live self.old.base.next by.session name.now self.old.events ≡ false }
        requires xmin { xmin ≡ (data_at self.old).xmin }
        ensures ok { OnOk result (Adds self.old self.new (events.Snap name.now by)) }
        ensures err { OnErr result (self.new ≡ self.old) }
    {
        make_room(&mut self.events, self.owed_events, 2)?;
        self.live.insert(by.session, name, xmin)?;
        self.events.push_reserved(Event::Snap {
            by: ByWords::of(by),
            name: name.same(),
        });
        self.owed_events += 1;
        Ok(())
    }

    /// What a snapshot holds that is taken now. It is computed once, and shared until an end, an undo or a sub event
    /// changes it (`GetSnapshotDataReuse`).
    pub fn snapshot_data(&mut self) -> Result<SharedSnap, Memory>
        ensures data { IfOk result (λ s. s ≡ data_at self.old) }
        ensures same { self.new ≡ self.old }
    {
        if let Some(contents) = &self.contents {
            return Ok(contents.clone()?);
        }
        let contents = SharedSnap::of(*self.events.allocator(), self.compute()?)?;
        let copy = contents.clone()?;
        self.contents = Some(contents);
        self.computations = self.computations.wrapping_add(1);
        Ok(copy)
    }

    /// How often what a snapshot holds was computed, for tests: snapshots between which nothing ends share it.
    pub fn computations(&self) -> u64 {
        self.computations
    }

    /// What a snapshot holds that is taken now, from the running transactions.
    fn compute(&self) -> Result<SnapData, Memory>
        ensures { IfOk result (λ s. s ≡ data_at self.now) }
    {
        let alloc = *self.events.allocator();
        let xmax = self.xmax();
        let overflowed = has_overflow_below(&self.entries, xmax);
        Ok(SnapData {
            xmin: least_top(xmax, &self.entries),
            xmax,
            xip: tops_below(alloc, &self.entries, xmax)?,
            subxip: listed_subs(alloc, &self.entries, xmax, overflowed)?,
            overflowed,
        })
    }

    /// Drops the session's live snapshot of this name. Takes no memory.
    pub fn drop_snapshot(&mut self, by: By, name: &Name)
        requires session { by.session < self.old.sessions }
        requires turn { InTurn by self.old.events }
        requires registered { is_live self.old.base.next by.session name.now self.old.events ≡ true }
        ensures { Adds self.old self.new (events.SnapDrop name.now by) }
    {
        if !self.live.take_out(by.session, name) {
            unreachable!()
        }
        self.events.push_reserved(Event::SnapDrop {
            by: ByWords::of(by),
            name: name.same(),
        });
        self.owed_events -= 1;
    }

    /// Announces the oldest id (`SetTransactionIdLimit`). Refused with `Backward` exactly where it is below the
    /// announced one, else with `TooNew` exactly where it is past the oldest xmin; after a refusal nothing changed.
    pub fn raise_oldest(&mut self, by: By, oldest: FullXid) -> Result<(), Refusal>
        requires session { by.session < self.old.sessions }
        requires turn { InTurn by self.old.events }
        ensures { Raises self.old self.new by oldest result }
    {
        if oldest < self.oldest {
            return Err(Refusal::Backward {
                now: self.oldest.number(),
            });
        }
        let limit = self.oldest_xmin();
        if limit < oldest {
            return Err(Refusal::TooNew { limit });
        }
        make_room(&mut self.events, self.owed_events, 1)?;
        self.events.push_reserved(Event::Oldest {
            by: ByWords::of(by),
            oldest,
        });
        self.oldest = oldest;
        Ok(())
    }

    /// Whether the id runs now, and what is next and oldest (`TransactionIdIsInProgress`). Of a special id there is
    /// nothing to ask: none ever runs.
    pub fn ask(&mut self, by: By, x: FullXid) -> Result<Asked, Memory>
        requires session { by.session < self.old.sessions }
        requires turn { InTurn by self.old.events }
        requires full { IsFullId x }
        ensures { Asks self.old self.new by x result }
    {
        make_room(&mut self.events, self.owed_events, 1)?;
        let asked = Asked {
            running: is_running(&self.entries, x),
            next: self.next,
            oldest: self.oldest,
        };
        self.events.push_reserved(Event::Ask {
            by: ByWords::of(by),
            id: x,
        });
        Ok(asked)
    }

    /// The top-level id of the session's transaction. None where the session has no id open.
    pub fn open_top(&self, session: u32) -> Option<FullXid>
        ensures some { IfSome result (λ t. IsOpenTop self.now session t) }
        ensures none { IfNone result (open_ids session self.now.events ≡ []) }
    {
        top_of(&self.entries, session)
    }

    /// Whether the session has a live snapshot of this name.
    pub fn is_live(&self, session: u32, name: &Name) -> bool
        ensures { result ≡ is_live self.now.base.next session name.now self.now.events }
    {
        self.live.xmin_of(session, name).is_some()
    }

    /// The id that is given next.
    pub fn next(&self) -> FullXid
        ensures { result ≡ next_of self.now }
    {
        self.next
    }

    /// The announced oldest id.
    pub fn oldest(&self) -> FullXid
        ensures { result ≡ oldest_of self.now }
    {
        self.oldest
    }

    /// The oldest xmin: no id below it is still asked for by a live snapshot or one that is taken from now on.
    pub fn oldest_xmin(&self) -> FullXid
        ensures { result ≡ xmin_of self.now }
    {
        self.live.least_xmin(least_top(self.xmax(), &self.entries))
    }

    /// The id after the latest closed one: a snapshot's xmax.
    fn xmax(&self) -> FullXid
        ensures is { result ≡ snapshot_xmax self.now.base.next self.now.events }
        ensures to { result < 2 ^ 63 }
    {
        self.latest_completed.advance()
    }

    /// The base of the life.
    pub fn base(&self) -> Counters
        ensures { result ≡ self.now.base }
    {
        self.base.same()
    }

    /// The history so far, which is legal.
    pub fn events(&self) -> &[Event]
        ensures value { result.now ≡ self.now.events }
        ensures legal { IsLegal self.now.base self.now.events }
        ensures base { IsBase self.now.base }
    {
        self.events.as_slice()
    }

    /// The base of the life and its history.
    pub fn into_parts(self) -> (Counters, EventList)
        ensures base { result.0 ≡ self.base }
        ensures events { result.1 ≡ self.events }
    {
        let ProcTable { base, events, .. } = self;
        (base, EventList::of(events))
    }
}
