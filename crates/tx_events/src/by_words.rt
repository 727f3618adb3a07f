//! The command of an event, in words of 32 bits.
ghost use Rattle.std.specs.Prelude.{◌≡◌};

use crate::event::By;
use std::marker::Model;

/// A `By` in three words, as an event keeps it: with the number of the event's variant it fills 16 bytes, where a
/// `By` would fill 24. A contract sees the `By`.
#[derive(Clone, Copy, Debug, PartialEq, Eq)]
pub struct ByWords {
    session: u32,
    low: u32,
    high: u32,
}

impl Model for ByWords {
    ghost use Rattle.std.specs.Prelude.{◌+◌, ◌*◌, ◌^◌, ◌<◌, ◌%◌, ◌/◌};
    ghost use Rattle.std.proofs.lemmas.Nat.{div-mul-add, mod-mul-add};
    ghost use Rattle.tx_events.specs.declared.event.By.{By};

    ghost Value = { By };

    ghost view = { λ n. record { session = n.session; command = n.high * 2 ^ 32 + n.low } };

    ghost invariant = { λ n. (n.low < 2 ^ 32) × (n.high < 2 ^ 32) };

    ghost inverse = { λ b. record { session = b.session; low = b.command % 2 ^ 32; high = b.command / 2 ^ 32 } };

    ghost inverse_ok = { λ n h i. record {
      session = n.session;
      low = mod-mul-add n.high (2 ^ 32) n.low h.0 i;
      high = div-mul-add n.high (2 ^ 32) n.low h.0 i;
    } };
}

impl ByWords {
    pub fn of(by: By) -> ByWords
        ensures { result ≡ by }
    {
        ByWords {
            session: by.session,
            low: (by.command & 0xffff_ffff) as u32,
            high: (by.command >> 32) as u32,
        }
    }

    pub fn get(self) -> By
        ensures { result ≡ self }
    {
        By {
            session: self.session,
            command: u64::from(self.high) << 32 | u64::from(self.low),
        }
    }
}
