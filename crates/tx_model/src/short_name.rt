//! Names that are short.
ghost use Rattle.std.specs.Prelude.{◌≡◌, IfSome};

use std::marker::Model;
use tx_events::Name;

/// A name of at most ten bytes. A contract sees the list of them.
#[derive(Drop)]
pub(crate) struct ShortName {
    bytes: [u8; 10],
    count: u8,
}

impl Model for ShortName {
    ghost use Rattle.std.specs.Prelude.{◌≡◌, ◌≤◌, ℕ, List, length, take};

    ghost Value = { List ℕ };

    ghost view = { λ n. take n.count n.bytes };

    ghost invariant = { λ n. (n.count ≤ 10) × (length n.bytes ≡ 10) };
}

impl ShortName {
    /// The name, if it is short.
    pub(crate) fn of(name: &Name) -> Option<ShortName>
        ensures { IfSome result (λ n. n ≡ name.now) }
    {
        let count = name.count();
        if count > 10 {
            return None;
        }
        let mut bytes = [0; 10];
        bytes.copy_from_slice(&name.padded()[..10]);
        Some(ShortName { bytes, count })
    }

    /// The name.
    pub(crate) fn name(&self) -> Name
        ensures { result ≡ self.now }
    {
        let mut bytes = [0; 16];
        bytes[..10].copy_from_slice(&self.bytes);
        Name::of_padded(bytes, self.count)
    }
}
