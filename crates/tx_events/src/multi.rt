//! Multixacts: modes, members, and what happens under their lock.
ghost use Rattle.std.specs.Prelude.{◌≡◌, ◌≤◌, ◌↔◌, IsTrue, Some};
ghost use Rattle.tx_events.specs.declared.multi.Mode.{Mode};
ghost use Rattle.tx_events.specs.Modes.{mode_number, mode_of};
ghost use Rattle.tx_events.specs.Multis.{multi_by};

use crate::by_words::ByWords;
use crate::event::By;
use crate::sequence::{Copied, Memory, Sequence};
use crate::shared::Shared;
use crate::{FullMulti, FullXid};

/// The mode in which a member holds a row (`MultiXactStatus`), numbered 0 to 5 in this order.
#[derive(Clone, Copy, Debug, PartialEq, Eq)]
pub enum Mode {
    KeySh,
    Sh,
    ForNoKeyUpd,
    ForUpd,
    NoKeyUpd,
    Upd,
}

impl Mode {
    /// Its number, as it stands in pages and records.
    pub fn number(self) -> u8
        ensures number { result ≡ mode_number self }
        ensures small { result ≤ 5 }
    {
        match self {
            Mode::KeySh => 0,
            Mode::Sh => 1,
            Mode::ForNoKeyUpd => 2,
            Mode::ForUpd => 3,
            Mode::NoKeyUpd => 4,
            Mode::Upd => 5,
        }
    }

    /// The mode of this number. None above 5.
    #[tactic(auto, using(crate::proofs::ModeNumbers::mode_takes, crate::proofs::ModeNumbers::mode_again))]
    pub fn of_number(number: u8) -> Option<Mode>
        ensures mode { result ≡ mode_of number }
        ensures only { (mode : Mode) → (result ≡ Some mode) ↔ (number ≡ mode_number mode) }
    {
        match number {
            0 => Some(Mode::KeySh),
            1 => Some(Mode::Sh),
            2 => Some(Mode::ForNoKeyUpd),
            3 => Some(Mode::ForUpd),
            4 => Some(Mode::NoKeyUpd),
            5 => Some(Mode::Upd),
            _ => None,
        }
    }
}

/// A member of a multixact.
#[derive(Clone, Copy, Debug, PartialEq, Eq)]
pub struct Member {
    pub id: FullXid,
    pub mode: Mode,
}

fn is_same(a: &Member, b: &Member) -> bool
    ensures { IsTrue result ↔ (a.now ≡ b.now) }
{
    a.id == b.id && a.mode == b.mode
}

/// Whether these are the same members in the same order.
pub fn same_members(a: &[Member], b: &[Member]) -> bool
    ensures { IsTrue result ↔ (a.now ≡ b.now) }
{
    if a.len() != b.len() {
        return false;
    }
    for (place, member) in a.iter().enumerate() {
        if !is_same(member, &b[place]) {
            return false;
        }
    }
    true
}

/// The members of a multixact, in order, which copies share.
pub type MemberList = Shared<Member>;

/// What happened under the lock of the multixacts (`src/backend/access/transam/multixact.c`).
#[derive(Clone, Drop)]
pub enum MultiEvent {
    /// A multixact was given, its members starting at `offset`, counted in full.
    Gen {
        by: ByWords,
        multi: FullMulti,
        offset: u64,
        members: MemberList,
    },
    /// A reader pinned it.
    Hold {
        by: ByWords,
        multi: FullMulti,
    },
    /// The reader let it go.
    Unhold {
        by: ByWords,
        multi: FullMulti,
    },
    /// The oldest multixact was announced, with the offset at which it starts.
    Raise {
        by: ByWords,
        multi: FullMulti,
        offset: u64,
    },
}

const _: () = prove!(size_of::<MultiEvent>() == 40);

impl MultiEvent {
    /// The command that it belongs to.
    pub fn by(&self) -> By
        ensures { result ≡ multi_by self.now }
    {
        match self {
            MultiEvent::Gen { by, .. } => by.get(),
            MultiEvent::Hold { by, .. } => by.get(),
            MultiEvent::Unhold { by, .. } => by.get(),
            MultiEvent::Raise { by, .. } => by.get(),
        }
    }
}

impl Copied for MultiEvent {
    fn copy(&self) -> Result<Self, Memory> {
        Ok(self.clone()?)
    }
}

/// A history of multixacts.
pub type MultiEventList = Sequence<MultiEvent>;
