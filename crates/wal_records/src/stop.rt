// Why a reader gave up.
ghost use Rattle.std.specs.Prelude.{◌≡◌};
ghost use Rattle.wal_records.specs.declared.stop.Stop.TheVariants.{Memory as out_of_memory};

use std::alloc::{AllocError, AllocFailed};
use tx_events::Memory;

/// Why a record could not be read.
#[derive(Debug, Drop)]
pub enum Stop {
    Memory,
    /// The bytes begin with no lawful record.
    Unlawful,
}

impl From<AllocError> for Stop {
    ghost from_gives = { λ _ e. e ≡ out_of_memory };

    fn from(_e: AllocError) -> Stop {
        Stop::Memory
    }
}

impl<T: Drop> From<AllocFailed<T>> for Stop {
    ghost from_gives = { λ _ e. e ≡ out_of_memory };

    fn from(_e: AllocFailed<T>) -> Stop {
        Stop::Memory
    }
}

impl From<Memory> for Stop {
    ghost from_gives = { λ _ e. e ≡ out_of_memory };

    fn from(_e: Memory) -> Stop {
        Stop::Memory
    }
}
