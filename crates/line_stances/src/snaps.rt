//! The snapshots of a session.
ghost use Rattle.std.specs.Prelude.{◌≡◌, [], ◌∷◌, ◌++◌, IfNone, IfSome, None, OnOk, OnErr, Some, length, map};
ghost use Rattle.std.specs.List.{find};
ghost use Rattle.tx_events.specs.Events.{same_name};
ghost use Rattle.tx_model.specs.Stance.{second_of, without_snap};
ghost use Rattle.line_stances.specs.Snapshots.{told_of};

use std::alloc::Global;
use std::marker::Model;
use tx_events::{Memory, Name};

/// A snapshot that a session has, and its command that took it.
#[derive(Drop)]
pub struct Taken {
    name: Name,
    command: u64,
}

/// The snapshots that a session has. A contract sees each name with the command, in the order in which they were taken.
#[derive(Drop)]
pub struct Snaps {
    items: Vec<Taken>,
}

impl Model for Snaps {
    ghost use Rattle.std.specs.Prelude.{ℕ, List, map};
    ghost use Rattle.line_stances.specs.Snapshots.{told_of};

    ghost Value = { List (List ℕ × ℕ) };

    ghost view = { λ s. map told_of s.items.items };
}

fn is_named(taken: &Taken, name: &[u8]) -> bool
    ensures { result ≡ same_name taken.now.name name.now }
{
    taken.name.items() == name
}

/// The command that took the snapshot of this name.
fn find_taken(items: &[Taken], name: &[u8]) -> Option<u64>
    ensures some { IfSome result (λ command. second_of (find (λ p. same_name p.0 name.now) (map told_of items.now)) ≡ Some command) }
    ensures none { IfNone result (second_of (find (λ p. same_name p.0 name.now) (map told_of items.now)) ≡ None) }
{
    for t in items {
        if is_named(t, name) {
            return Some(t.command);
        }
    }
    None
}

impl Snaps {
    /// There is none.
    pub fn new(alloc: Global) -> Snaps
        ensures { result ≡ [] }
    {
        Snaps {
            items: Vec::new(alloc),
        }
    }

    /// One more is taken. Refused for memory alone; then nothing changed.
    pub fn take(&mut self, name: &Name, command: u64) -> Result<(), Memory>
        ensures ok { OnOk result (self.new ≡ self.old ++ (name.now, command) ∷ []) }
        ensures err { OnErr result (self.new ≡ self.old) }
    {
        self.items.push(Taken {
            name: name.same(),
            command,
        })?;
        Ok(())
    }

    /// Those of this name are dropped.
    pub fn let_go(&mut self, name: &[u8])
        ensures { self.new ≡ without_snap name.now self.old }
    {
        self.items.retain(|t| !is_named(t, name));
    }

    /// The command that took the snapshot of this name.
    pub fn command_of(&self, name: &[u8]) -> Option<u64>
        ensures { result ≡ second_of (find (λ p. same_name p.0 name.now) self.now) }
    {
        find_taken(self.items.as_slice(), name)
    }

    /// How many there are.
    pub fn count(&self) -> usize
        ensures { result ≡ length self.now }
    {
        self.items.len()
    }
}
