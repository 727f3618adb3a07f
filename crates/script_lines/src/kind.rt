//! The kinds of fault, in the order in which they are told.
ghost use Rattle.std.specs.Prelude.{◌≡◌};
ghost use Rattle.script_lines.specs.declared.kind.Stop.TheVariants as stops;
ghost use Rattle.script_lines.specs.Kinds.{kind_word};

use std::alloc::{AllocError, AllocFailed};
use tx_model::Memory;

/// What is wrong with a script or a line of it. Of two faults of one line the one told is the one that stands first here.
#[derive(Clone, Copy, Debug, PartialEq, Eq)]
pub enum Kind {
    /// The script is longer than 16,777,216 bytes.
    Size,
    /// A byte is neither printable ASCII nor a tab, nor a CR just before LF.
    Byte,
    /// The first word begins with a dot and is no directive, or is one of the header that comes late or twice.
    Directive,
    /// The first word is no name of a session.
    Session,
    /// There is no second word, or it is no command.
    Command,
    /// There are too few words or too many.
    Arguments,
    /// A snapshot's name, a store or the way of a crash is none.
    Name,
    /// A member has no single colon, or no mode behind it.
    Mode,
    /// A number is none, or out of its range.
    Number,
    /// It is a 65th session's, or a session's 100,001st command in a round.
    Limit,
    /// The header's counters are none that a life may start from.
    Base,
}

impl Kind {
    /// The word by which the tool tells it.
    #[tactic(auto, unfolding(crate::specs::Kinds::kind_word))]
    pub fn word(self) -> &'static [u8]
        ensures { result.now ≡ kind_word self }
    {
        match self {
            Kind::Size => b"size",
            Kind::Byte => b"byte",
            Kind::Directive => b"directive",
            Kind::Session => b"session",
            Kind::Command => b"command",
            Kind::Arguments => b"arguments",
            Kind::Name => b"name",
            Kind::Mode => b"mode",
            Kind::Number => b"number",
            Kind::Limit => b"limit",
            Kind::Base => b"base",
        }
    }
}

/// Why a line isn't read.
#[derive(Clone, Copy, Debug, PartialEq, Eq)]
pub enum Stop {
    /// It has this fault.
    Fault(Kind),
    /// Want of memory.
    Memory,
}

impl From<Kind> for Stop {
    ghost from_gives = { λ kind stop. stop ≡ stops.Fault kind };

    fn from(kind: Kind) -> Stop {
        Stop::Fault(kind)
    }
}

impl From<AllocError> for Stop {
    ghost from_gives = { λ _ stop. stop ≡ stops.Memory };

    fn from(_e: AllocError) -> Stop {
        Stop::Memory
    }
}

impl<T: Drop> From<AllocFailed<T>> for Stop {
    ghost from_gives = { λ _ stop. stop ≡ stops.Memory };

    fn from(_e: AllocFailed<T>) -> Stop {
        Stop::Memory
    }
}

impl From<Memory> for Stop {
    ghost from_gives = { λ _ stop. stop ≡ stops.Memory };

    fn from(_e: Memory) -> Stop {
        Stop::Memory
    }
}
