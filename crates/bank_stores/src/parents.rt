// A parent is stored as its low half, 0 where there is none.
ghost use Rattle.std.specs.Prelude.{◌≡◌, ℕ, ◌*◌, ◌^◌, IsTrue, OnOk, OnErr, IfOk};
ghost use Rattle.store_pages.specs.Layouts.{number_in};
ghost use Rattle.tx_events.specs.Pages.{subtrans_page, subtrans_place};
ghost use Rattle.slru_bank.specs.ByteRange.{SetsEntry};
ghost use Rattle.slru_bank.specs.Calls.{CallsBank, SamePages, pages_of};
ghost use Rattle.bank_stores.specs.Parents.{parent_of, ends_climb};

use disk_core::PageDisk;
use slru_bank::{BankRefusal, SlruBank, put_number, read_number};
use store_pages::{SubtransPages, subtrans_page, subtrans_place};
use tx_events::{Xid, precedes};

/// Records an id's parent (`SubTransSetParent`).
pub fn set_parent<P: PageDisk>(
    bank: &mut SlruBank<P, SubtransPages>,
    x: Xid,
    parent: Xid,
) -> Result<(), BankRefusal>
    ensures ok { IsTrue P.tells → OnOk result (SetsEntry (subtrans_page x.number) (subtrans_place x.number) parent.number (pages_of bank.old) (pages_of bank.new)) }
    ensures err { IsTrue P.tells → OnErr result (SamePages bank.old bank.new) }
    ensures bank { CallsBank (subtrans_page x.number) bank.old bank.new result }
{
    put_number(bank, subtrans_page(x), 4 * subtrans_place(x), parent.number)
}

/// The parent that is kept of an id (`SubTransGetParent`), None exactly for 0.
pub fn parent<P: PageDisk>(
    bank: &mut SlruBank<P, SubtransPages>,
    x: Xid,
) -> Result<Option<Xid>, BankRefusal>
    ensures is { IsTrue P.tells → IfOk result (λ o. o ≡ parent_of (number_in (pages_of bank.old (subtrans_page x.number)) (4 * subtrans_place x.number))) }
    ensures same { IsTrue P.tells → SamePages bank.old bank.new }
    ensures bank { CallsBank (subtrans_page x.number) bank.old bank.new result }
{
    let number = read_number(bank, subtrans_page(x), 4 * subtrans_place(x))?;
    Ok(parent_of_number(number))
}

fn parent_of_number(number: u32) -> Option<Xid>
    ensures { result ≡ parent_of number }
{
    if number == 0 {
        None
    } else {
        Some(Xid { number })
    }
}

/// Whether a climb from child to parent ends above an id with this parent: there is none, or it precedes `xmin`.
pub fn climb_ends(parent: Option<Xid>, xmin: Xid) -> bool
    ensures { result ≡ ends_climb parent xmin.number }
{
    match parent {
        None => true,
        Some(id) => precedes(id, xmin),
    }
}
