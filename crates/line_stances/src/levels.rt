//! The levels of a session's transaction.
ghost use Rattle.std.specs.Prelude.{◌≡◌, ◌≢◌, ◌↔◌, IsTrue, [], ◌∷◌, ◌++◌, None, OnOk, OnErr, IfOk, length, min, ◌-◌, ◌^◌};
ghost use Rattle.tx_model.specs.CommandEvents.{giving, innermost, level_events};
ghost use Rattle.session_levels.specs.Stands.{last_of};
ghost use Rattle.line_stances.specs.Giving.{giving_all};
ghost use Rattle.tx_model.specs.Stance.{filled, lacking, top_level, without_last};

use std::alloc::Global;
use std::marker::Model;
use tx_events::{By, ByWords, Event, FullXid, Memory};

/// An id given below this parent.
fn giving(by: By, parent: Option<FullXid>, id: FullXid) -> Event
    ensures { result ≡ giving by parent id }
{
    match parent {
        None => Event::Id {
            by: ByWords::of(by),
            id,
        },
        Some(parent) => Event::Sub {
            by: ByWords::of(by),
            parent,
            id,
        },
    }
}

/// The last of these ids.
fn last_of(ids: &Vec<FullXid>) -> Option<FullXid>
    ensures { result ≡ last_of ids.now.items }
{
    ids.as_slice().last().copied()
}

/// The ids are given, each below the one before it, and the first below this parent.
fn giving_all(
    alloc: Global,
    by: By,
    parent: Option<FullXid>,
    ids: &[FullXid],
) -> Result<Vec<Event>, Memory>
    ensures { IfOk result (λ es. es.items ≡ giving_all by parent ids.now) }
{
    let mut events = Vec::with_capacity(alloc, ids.len())?;
    let mut above = parent;
    for id in ids {
        events.push(giving(by, above, *id))?;
        above = Some(*id);
    }
    Ok(events)
}

/// The levels of a transaction, from the top to the innermost savepoint. A contract sees the id of each, where it has one.
/// Those that have one come first, so that a line costs what it adds or ends.
#[derive(Drop)]
pub struct Levels {
    named: Vec<FullXid>,
    unnamed: u64,
}

impl Model for Levels {
    ghost use Rattle.std.specs.Prelude.{ℕ, List, Option};
    ghost use Rattle.session_levels.specs.Stands.{levels_of};

    ghost Value = { List (Option ℕ) };

    ghost view = { λ l. levels_of l.named.items l.unnamed };
}

impl Levels {
    /// No transaction is open.
    pub fn new(alloc: Global) -> Levels
        ensures { result ≡ [] }
    {
        Levels {
            named: Vec::new(alloc),
            unnamed: 0,
        }
    }

    /// A transaction is opened, without an id.
    pub fn begin(&mut self)
        ensures { self.new ≡ None ∷ [] }
    {
        self.named.clear();
        self.unnamed = 1;
    }

    /// A savepoint is opened. Refused for memory alone; then nothing changed.
    pub fn save(&mut self) -> Result<(), Memory>
        ensures ok { OnOk result (self.new ≡ self.old ++ None ∷ []) }
        ensures err { OnErr result (self.new ≡ self.old) }
    {
        match self.unnamed.checked_add(1) {
            Some(unnamed) => {
                self.unnamed = unnamed;
                Ok(())
            }
            None => Err(Memory),
        }
    }

    /// The ids go to the levels that lack one, from the top. Refused for memory alone; then nothing changed.
    pub fn fill(&mut self, ids: &[FullXid]) -> Result<(), Memory>
        ensures ok { OnOk result (self.new ≡ filled self.old ids.now) }
        ensures err { OnErr result (self.new ≡ self.old) }
    {
        let count = self.unnamed.min(ids.len() as u64);
        self.named.extend_from_slice(&ids[..count as usize])?;
        self.unnamed -= count;
        Ok(())
    }

    /// The innermost level is closed, where there is one.
    pub fn close(&mut self)
        ensures { self.new ≡ without_last self.old }
    {
        if self.unnamed > 0 {
            self.unnamed -= 1;
        } else {
            self.named.pop();
        }
    }

    /// The transaction ends.
    pub fn end(&mut self)
        ensures { self.new ≡ [] }
    {
        self.named.clear();
        self.unnamed = 0;
    }

    /// The id of the transaction, where it has one.
    pub fn top(&self) -> Option<FullXid>
        ensures { result ≡ top_level self.now }
    {
        self.named.as_slice().first().copied()
    }

    /// The id of the innermost level, where it has one.
    pub fn innermost(&self) -> Option<FullXid>
        ensures { result ≡ innermost self.now }
    {
        if self.unnamed > 0 {
            return None;
        }
        let named = self.named.as_slice();
        named.last().copied()
    }

    /// How many levels there are, of more than 2^64 - 1 this number.
    pub fn depth(&self) -> u64
        ensures { result ≡ min (length self.now) (2 ^ 64 - 1) }
    {
        self.unnamed.saturating_add(self.named.len() as u64)
    }

    /// How many levels lack an id.
    pub fn lacking(&self) -> u64
        ensures { result ≡ lacking self.now }
    {
        self.unnamed
    }

    /// Whether a transaction is open.
    pub fn is_open(&self) -> bool
        ensures { IsTrue result ↔ (self.now ≢ []) }
    {
        self.unnamed > 0 || !self.named.is_empty()
    }

    /// The events that give the ids to the levels that lack one, from the top.
    pub fn events_giving(
        &self,
        alloc: Global,
        by: By,
        ids: &[FullXid],
    ) -> Result<Vec<Event>, Memory>
        ensures { IfOk result (λ es. es.items ≡ level_events by None self.now ids.now) }
    {
        let count = self.unnamed.min(ids.len() as u64);
        let events = giving_all(alloc, by, last_of(&self.named), &ids[..count as usize])?;
        Ok(events)
    }
}
