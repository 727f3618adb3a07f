//! The live snapshots, which hold back the oldest xmin.
ghost use Rattle.std.specs.Prelude.{◌≡◌, ℕ, ◌+◌, ◌^◌, ◌<◌, List, [], ◌∷◌, ◌++◌, None, length, map, min, false, IsTrue, IfOk, OnOk, OnErr};
ghost use Rattle.std.specs.List.{fold, list_any};
ghost use Rattle.std.specs.Ordering.{nat_cmp};
ghost use Rattle.counted_map.specs.Counts.{counted};
ghost use Rattle.tx_events.specs.Horizon.{LiveSnap, is_snap_of};
ghost use Rattle.proc_table.specs.Lives.{HoldsLive, live_xmin, others};

use crate::named::NamedXmins;
use crate::xmins::{XminCounts, count_less, count_more, least_counted};
use std::alloc::Global;
use tx_events::{FullXid, Memory, Name};

/// The live snapshots of all sessions. To find one, to add or take out one and to tell the least xmin takes the
/// logarithm of how many there are.
#[derive(Drop)]
pub struct LiveSnapshots {
    /// Of each session, by its number.
    sessions: Vec<NamedXmins>,
    xmins: XminCounts,
}

impl LiveSnapshots {
    /// None, for this many sessions.
    pub fn new(alloc: Global, sessions: u32) -> Result<LiveSnapshots, Memory>
        ensures none { IfOk result (HoldsLive []) }
        ensures sessions { IfOk result (λ l. length l.sessions.items ≡ sessions) }
    {
        let mut names = Vec::with_capacity(alloc, sessions as usize)?;
        for _ in 0..sessions {
            names.push(NamedXmins::new(alloc))?;
        }
        Ok(LiveSnapshots {
            sessions: names,
            xmins: XminCounts::new(alloc),
        })
    }

    /// The xmin of the session's snapshot of this name.
    pub fn xmin_of(&self, session: u32, name: &Name) -> Option<FullXid>
        ensures { (snaps : List LiveSnap) → HoldsLive snaps self.now → result ≡ live_xmin session name.now snaps }
    {
        match self.sessions.get(session as usize) {
            Some(names) => names.get(name),
            None => None,
        }
    }

    /// Adds a snapshot under a name that the session has none of. After want of memory it holds what it held.
    pub fn insert(&mut self, session: u32, name: &Name, xmin: FullXid) -> Result<(), Memory>
        requires within { session < length self.old.sessions.items }
        requires fits { counted nat_cmp self.old.xmins xmin + 1 < 2 ^ 64 }
        ensures ok { OnOk result ((snaps : List LiveSnap) → HoldsLive snaps self.old → list_any (is_snap_of session name.now) snaps ≡ false → HoldsLive (snaps ++ record { session = session; name = name.now; xmin = xmin } ∷ []) self.new) }
        ensures err { OnErr result ((snaps : List LiveSnap) → HoldsLive snaps self.old → HoldsLive snaps self.new) }
        ensures sessions { length self.new.sessions.items ≡ length self.old.sessions.items }
    {
        let alloc = *self.sessions.allocator();
        count_more(&mut self.xmins, xmin)?;
        match self.sessions[session as usize].put(alloc, name, xmin) {
            Ok(()) => Ok(()),
            Err(Memory) => {
                count_less(&mut self.xmins, xmin);
                Err(Memory)
            }
        }
    }

    /// Takes out the session's snapshot of this name, if it has one, and tells whether. Takes no memory.
    pub fn take_out(&mut self, session: u32, name: &Name) -> bool
        requires within { session < length self.old.sessions.items }
        ensures left { IsTrue result → (snaps : List LiveSnap) → HoldsLive snaps self.old → HoldsLive (others session name.now snaps) self.new }
        ensures none { result ≡ false → (snaps : List LiveSnap) → HoldsLive snaps self.old → live_xmin session name.now snaps ≡ None }
        ensures sessions { length self.new.sessions.items ≡ length self.old.sessions.items }
    {
        match self.sessions[session as usize].take(name) {
            Some(xmin) => {
                count_less(&mut self.xmins, xmin);
                true
            }
            None => false,
        }
    }

    /// The least of an id and the xmins of all.
    pub fn least_xmin(&self, from: FullXid) -> FullXid
        ensures { (snaps : List LiveSnap) → HoldsLive snaps self.now → result ≡ fold min from (map (λ s. s.xmin) snaps) }
    {
        least_counted(from, &self.xmins)
    }
}
