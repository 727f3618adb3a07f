//! How often each multixact is pinned.
ghost use Rattle.std.specs.Prelude.{◌≡◌, List, OnOk, map, min};
ghost use Rattle.std.specs.List.{fold};
ghost use Rattle.tx_events.specs.Multis.{Pin, pins_after};
ghost use Rattle.multi_rules.specs.Limits.{FitsMore, IsTally, LetsGoHeld};

use counted_map::CountedMap;
use tx_events::{FullMulti, Memory, MultiEvent};

/// How often each multixact is pinned, by whichever session.
pub type PinCounts = CountedMap<FullMulti>;

/// Counts the pin that the event takes or lets go.
pub fn note_event(counts: &mut PinCounts, e: &MultiEvent) -> Result<(), Memory>
    requires { FitsMore counts.old e.now }
    ensures { OnOk result ((held : List Pin) → IsTally held counts.old → LetsGoHeld held e.now → IsTally (pins_after held e.now) counts.new) }
{
    match e {
        MultiEvent::Hold { multi, .. } => {
            counts.add(*multi)?;
            Ok(())
        }
        MultiEvent::Unhold { multi, .. } => {
            counts.remove(*multi);
            Ok(())
        }
        _ => Ok(()),
    }
}

/// The least of a number and all pinned multixacts.
pub fn least_pinned(next: u64, counts: &PinCounts) -> u64
    ensures { (held : List Pin) → IsTally held counts.now → result ≡ fold min next (map (λ p. p.1) held) }
{
    match counts.least() {
        Some(multi) => next.min(multi.number()),
        None => next,
    }
}
