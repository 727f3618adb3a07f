//! The entries that the critical sections of both stores add.
ghost use Rattle.std.specs.Prelude.{◌≡◌};
ghost use Rattle.tx_core.specs.declared.entry.Kind.TheVariants as kinds;
ghost use Rattle.multi_banks.specs.Refusals.{cut_too};

use hall::Note;
use tx_core::Entry;
use tx_events::By;

/// A page was made, by its number in full.
pub(crate) fn zeroed_note(by: By, page: u64) -> Note<Entry>
    ensures { result.value ≡ record { by = by; kind = kinds.Zero page } }
{
    Note::by(&(by, page))
}

/// What lies before a page was removed.
pub(crate) fn cut_note(by: By, page: u64) -> Note<Entry>
    ensures { result.value ≡ record { by = by; kind = kinds.Cut page } }
{
    Note::by(&(by, page))
}

/// The volume failed in a removal. The cut stands all the same.
pub(crate) fn with_cut(fault: Note<Entry>, page: u64) -> Note<Entry>
    ensures { result.value ≡ cut_too page fault.value }
{
    Note::by(&(fault, page))
}
