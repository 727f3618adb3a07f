ghost use Rattle.std.specs.Prelude.{◌≡◌};
ghost use Rattle.report_words.specs.declared.unread.Unread.TheVariants.{Memory};

use std::alloc::{AllocError, AllocFailed};

/// Why reading can't go on.
#[derive(Clone, Copy, Debug, PartialEq, Eq)]
pub enum Unread {
    /// The words say nothing.
    Form,
    /// Want of memory.
    Memory,
}

impl From<AllocError> for Unread {
    ghost from_gives = { λ _ e. e ≡ Memory };

    fn from(_e: AllocError) -> Unread {
        Unread::Memory
    }
}

impl<T: Drop> From<AllocFailed<T>> for Unread {
    ghost from_gives = { λ _ e. e ≡ Memory };

    fn from(_e: AllocFailed<T>) -> Unread {
        Unread::Memory
    }
}

impl From<tx_model::Memory> for Unread {
    ghost from_gives = { λ _ e. e ≡ Memory };

    fn from(_e: tx_model::Memory) -> Unread {
        Unread::Memory
    }
}
