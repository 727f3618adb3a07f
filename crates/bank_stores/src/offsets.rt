// An offset is stored as its low half, 0 where there is none.
ghost use Rattle.std.specs.Prelude.{◌≡◌, ℕ, ◌*◌, ◌^◌, IsTrue, OnOk, OnErr, IfOk};
ghost use Rattle.tx_events.specs.PageOrder.{Multis, page_precedes};
ghost use Rattle.tx_events.specs.Ids.{low_half};
ghost use Rattle.store_pages.specs.Layouts.{number_in};
ghost use Rattle.tx_events.specs.Pages.{offset_page, offset_place, offsets_per_page};
ghost use Rattle.slru_bank.specs.ByteRange.{SetsEntry, TrimsEntries};
ghost use Rattle.slru_bank.specs.Calls.{CallsBank, SamePages, TrimsBank, pages_of};
ghost use Rattle.bank_stores.specs.Offsets.{offset_of};

use disk_core::PageDisk;
use slru_bank::{BankRefusal, SlruBank, put_number, read_number};
use store_pages::{OffsetPages, offset_page, offset_place};
use tx_events::{FullMulti, MultiId};

/// Records where a multixact's members begin (the first half of `RecordNewMultiXact`).
pub fn set_offset<P: PageDisk>(
    bank: &mut SlruBank<P, OffsetPages>,
    m: MultiId,
    offset: u32,
) -> Result<(), BankRefusal>
    ensures ok { IsTrue P.tells → OnOk result (SetsEntry (offset_page m.number) (offset_place m.number) offset (pages_of bank.old) (pages_of bank.new)) }
    ensures err { IsTrue P.tells → OnErr result (SamePages bank.old bank.new) }
    ensures bank { CallsBank (offset_page m.number) bank.old bank.new result }
{
    put_number(bank, offset_page(m), 4 * offset_place(m), offset)
}

/// The offset that is kept of a multixact, None exactly for 0 (as `GetMultiXactIdMembers` reads it).
pub fn offset<P: PageDisk>(
    bank: &mut SlruBank<P, OffsetPages>,
    m: MultiId,
) -> Result<Option<u32>, BankRefusal>
    ensures is { IsTrue P.tells → IfOk result (λ o. o ≡ offset_of (number_in (pages_of bank.old (offset_page m.number)) (4 * offset_place m.number))) }
    ensures same { IsTrue P.tells → SamePages bank.old bank.new }
    ensures bank { CallsBank (offset_page m.number) bank.old bank.new result }
{
    let number = read_number(bank, offset_page(m), 4 * offset_place(m))?;
    Ok(offset_of_number(number))
}

fn offset_of_number(number: u32) -> Option<u32>
    ensures { result ≡ offset_of number }
{
    if number == 0 { None } else { Some(number) }
}

/// Clears the offsets from a multixact on: the rest of its page, and each later page is removed (`TrimMultiXact`).
/// After an `Err` some of these pages are removed, and no other one changed.
pub fn trim_offsets<P: PageDisk>(
    bank: &mut SlruBank<P, OffsetPages>,
    next: FullMulti,
) -> Result<(), BankRefusal>
    ensures ok { IsTrue P.tells → OnOk result (TrimsEntries Multis (offset_page (low_half next)) (offset_place (low_half next)) (pages_of bank.old) (pages_of bank.new)) }
    ensures bank { TrimsBank (page_precedes Multis offsets_per_page (offset_page (low_half next))) bank.old bank.new result }
{
    let m = next.low();
    bank.clear_after(offset_page(m), 4 * offset_place(m))
}
