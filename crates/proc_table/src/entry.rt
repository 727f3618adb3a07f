//! One running transaction and its open subids (`PGPROC`, and its cache of subids in `src/include/storage/proc.h`).
ghost use Rattle.std.specs.Prelude.{◌≡◌, ◌++◌, ◌==◌, ◌^◌, ◌||◌, ◌<◌, ◌≤◌, [], ◌∷◌, IsTrue, not, true, false, drop, length, max, OnOk};
ghost use Rattle.std.specs.List.{filter, fold};
ghost use Rattle.std.specs.Vec.{vec_len, vec_capacity};
ghost use Rattle.tx_events.specs.IdLists.{has, Ascending};
ghost use Rattle.proc_table.specs.Entries.{IsSame, IsAdded, IsTaken, HasRoomFor};

use std::alloc::Global;
use tx_events::{FullXid, Memory, is_listed};

/// How many running subids an entry lists in a snapshot (`PGPROC_MAX_CACHED_SUBXIDS`).
const MOST_LISTED: usize = 64;

/// A running transaction of a session.
#[derive(Drop)]
pub struct Entry {
    pub session: u32,
    /// Its top-level id.
    pub top: FullXid,
    /// The id that it was given last.
    pub last: FullXid,
    /// Its open subids, ascending. PostgreSQL's entry keeps 64 of them and asks `pg_subtrans` of the others; here
    /// they all stay, so that the table alone tells whether an id runs.
    pub subs: Vec<FullXid>,
    /// Whether there were once more than 64 of them.
    pub overflowed: bool,
}

impl Entry {
    /// A transaction that was given its top-level id.
    pub fn of_top(alloc: Global, session: u32, top: FullXid) -> Entry
        ensures session { result.session ≡ session }
        ensures top { result.top ≡ top }
        ensures last { result.last ≡ top }
        ensures subs { result.subs.items ≡ [] }
        ensures overflowed { result.overflowed ≡ false }
    {
        Entry {
            session,
            top,
            last: top,
            subs: Vec::new(alloc),
            overflowed: false,
        }
    }

    /// Makes room for one more subid, if it is the entry of this session.
    pub fn make_room(&mut self, session: u32) -> Result<(), Memory>
        ensures same { IsSame self.old self.new }
        ensures room { OnOk result (HasRoomFor session self.new) }
    {
        if self.session == session {
            self.subs.reserve(1)?;
        }
        Ok(())
    }

    /// Takes one more subid, if it is the entry of this session.
    pub fn add(&mut self, session: u32, id: FullXid)
        requires { HasRoomFor session self.old }
        ensures { IsAdded session id self.old self.new }
    {
        if self.session == session {
            self.last = id;
            self.subs.push_reserved(id);
            if self.subs.len() > MOST_LISTED {
                self.overflowed = true;
            }
        }
    }

    /// Loses these subids, which ascend as its own do, if it is the entry of this session.
    pub fn take(&mut self, session: u32, ids: &[FullXid])
        requires subs { Ascending self.old.subs.items }
        requires ids { Ascending ids.now }
        ensures { IsTaken session ids.now self.old self.new }
    {
        if self.session == session {
            without(&mut self.subs, ids);
        }
    }

    /// Whether the id is the top-level one or among the subids.
    pub fn has(&self, id: FullXid) -> bool
        ensures { Ascending self.now.subs.items → result ≡ (id == self.now.top || has self.now.subs.items id) }
    {
        id == self.top || is_listed(&self.subs, id)
    }
}

fn are_same(some: &[FullXid], others: &[FullXid]) -> bool
    ensures { IsTrue result → some.now ≡ others.now }
{
    some == others
}

/// The items from a place on.
fn items_from(items: &[FullXid], from: usize) -> &[FullXid]
    requires { from ≤ length items.now }
    ensures { result.now ≡ drop from items.now }
{
    &items[from..]
}

/// Loses these. Mostly they are the last ones.
fn without(items: &mut Vec<FullXid>, ids: &[FullXid])
    requires items { Ascending items.old.items }
    requires ids { Ascending ids.now }
    ensures { items.new.items ≡ filter (λ x. not (has ids.now x)) items.old.items }
{
    let from = items.len().saturating_sub(ids.len());
    if are_same(items_from(items, from), ids) {
        items.truncate(from);
    } else {
        items.retain(|x| !is_listed(ids, *x));
    }
}

/// The greatest of an id and these.
pub fn greatest(from: FullXid, ids: &[FullXid]) -> FullXid
    ensures { result ≡ fold max from ids.now }
{
    let mut most = from;
    for x in ids {
        if *x > most {
            most = *x;
        }
    }
    most
}
