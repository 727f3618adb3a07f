//! How often each session pins a multixact.
ghost use Rattle.std.specs.Prelude.{◌≡◌, ℕ, ◌+◌, ◌^◌, ◌<◌, ◌↔◌, IsTrue, List, [], ◌∷◌, ◌++◌, Contains, OnOk, OnErr, map, min};
ghost use Rattle.std.specs.List.{fold};
ghost use Rattle.counted_map.specs.Counts.{counted};
ghost use Rattle.tx_events.specs.Multis.{Pin, without_pin};
ghost use Rattle.multi_store.specs.Pins.{IsTally, pin_of, pin_cmp};

use counted_map::CountedMap;
use tx_events::{FullMulti, Memory};

/// A pin: the multixact, and the session that holds it. Ordered by multixact first.
#[derive(Clone, Copy, PartialEq, Eq, PartialOrd, Ord, Drop)]
pub struct PinKey {
    pub multi: FullMulti,
    pub session: u32,
}

/// How often each pin is held.
pub type PinCounts = CountedMap<PinKey>;

/// Counts the pin once more. After want of memory nothing changed.
pub fn add_pin(counts: &mut PinCounts, pin: PinKey) -> Result<(), Memory>
    requires fits { counted pin_cmp counts.old pin + 1 < 2 ^ 64 }
    ensures more { OnOk result ((pins : List Pin) → IsTally pins counts.old → IsTally (pins ++ pin_of pin ∷ []) counts.new) }
    ensures same { OnErr result ((pins : List Pin) → IsTally pins counts.old → IsTally pins counts.new) }
{
    counts.add(pin)?;
    Ok(())
}

/// Counts the pin once less. Takes no memory.
pub fn drop_pin(counts: &mut PinCounts, pin: PinKey)
    ensures { (pins : List Pin) → IsTally pins counts.old → Contains pins (pin_of pin) → IsTally (without_pin (pin_of pin) pins) counts.new }
{
    counts.remove(pin);
}

/// Whether the pin is held.
pub fn has_pin(counts: &PinCounts, pin: PinKey) -> bool
    ensures { (pins : List Pin) → IsTally pins counts.now → IsTrue result ↔ Contains pins (pin_of pin) }
{
    counts.contains(pin)
}

/// The least of a multixact and all pinned ones.
pub fn least_pinned(next: FullMulti, counts: &PinCounts) -> FullMulti
    ensures { (pins : List Pin) → IsTally pins counts.now → result ≡ fold min next (map (λ p. p.1) pins) }
{
    match counts.least() {
        Some(pin) => { if pin.multi < next { pin.multi } else { next } }
        None => next,
    }
}
