//! The entries of a removal.
ghost use Rattle.std.specs.Prelude.{◌≡◌};
ghost use Rattle.tx_core.specs.declared.entry.Kind.TheVariants as kinds;
ghost use Rattle.bank_sections.specs.Cuts.{cut_too};

use hall::Note;
use tx_core::Entry;
use tx_events::By;

/// What lies before a page was removed.
pub(crate) fn cut_note(by: By, page: u64) -> Note<Entry>
    ensures { result.value ≡ record { by = by; kind = kinds.Cut page } }
{
    Note::by(&(by, page))
}

/// The volume failed in a removal. The cut stands all the same.
pub(crate) fn with_cut(fault: Note<Entry>, page: u64) -> Note<Entry>
    ensures { result.value ≡ cut_too page fault.value }
{
    Note::by(&(fault, page))
}
