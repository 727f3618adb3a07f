//! The entries that the critical sections of both stores add.
ghost use Rattle.std.specs.Prelude.{◌≡◌};
ghost use Rattle.tx_core.specs.declared.entry.Kind.TheVariants as kinds;

use hall::Note;
use tx_core::Entry;
use tx_events::By;

/// A page was made, by its number in full.
pub(crate) fn zeroed_note(by: By, page: u64) -> Note<Entry>
    ensures { result.value ≡ record { by = by; kind = kinds.Zero page } }
{
    Note::by(&(by, page))
}
