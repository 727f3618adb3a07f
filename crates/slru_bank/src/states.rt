// The states of ids: set page by page, and read.
ghost use Rattle.std.specs.Prelude.{◌≡◌, ℕ, ◌*◌, ◌/◌, ◌%◌, ◌^◌, ◌<◌, ◌≤◌, IsTrue, List, length, slice_index, OnOk, OnErr, IfOk};
ghost use Rattle.store_pages.specs.Layouts.{state_in, xact_page_of};
ghost use Rattle.tx_events.specs.Pages.{xact_page, xact_place};
ghost use Rattle.slru_bank.specs.Calls.{CallsBank, SamePages, pages_of};
ghost use Rattle.slru_bank.specs.Changes.{SetsState, SetsStates, ShareAPage};
ghost use Rattle.slru_bank.specs.States.{state_number};

use crate::bits::{number_of_state, placed_bits, state_of};
use crate::{BankRefusal, SlruBank, State};
use disk_core::PageDisk;
use store_pages::{XactPages, xact_page, xact_place};
use tx_events::{FullXid, Xid};

// Sets the state of one id, and of no other (`TransactionIdSetStatusBit`).
fn set_state<P: PageDisk>(
    bank: &mut SlruBank<P, XactPages>,
    x: Xid,
    state: State,
) -> Result<(), BankRefusal>
    ensures ok { IsTrue P.tells → OnOk result (SetsState (xact_page x.number) (xact_place x.number) (state_number state) (pages_of bank.old) (pages_of bank.new)) }
    ensures err { IsTrue P.tells → OnErr result (SamePages bank.old bank.new) }
    ensures bank { CallsBank (xact_page x.number) bank.old bank.new result }
{
    let place = xact_place(x);
    let k = place % 4;
    bank.set(
        xact_page(x),
        place / 4,
        placed_bits(3, k),
        placed_bits(number_of_state(state), k),
    )
}

/// Sets the state of ids that share a page (`TransactionIdSetPageStatus`). After an `Err` none is set: only the first
/// one's byte has to be brought, and the page is at hand for the others.
pub fn set_states<P: PageDisk>(
    bank: &mut SlruBank<P, XactPages>,
    ids: &[FullXid],
    state: State,
) -> Result<(), BankRefusal>
    requires some { 1 ≤ length ids.now }
    requires one_page { ShareAPage ids.now }
    ensures ok { IsTrue P.tells → OnOk result (SetsStates ids.now (length ids.now) (state_number state) (pages_of bank.old) (pages_of bank.new)) }
    ensures err { IsTrue P.tells → OnErr result (SamePages bank.old bank.new) }
    ensures bank { CallsBank (xact_page_of (slice_index ids.now 0)) bank.old bank.new result }
{
    let mut i = 0;
    while i < ids.len() {
        set_state(bank, ids[i].low(), state)?;
        i += 1;
    }
    Ok(())
}

/// The state that is kept of an id (`TransactionIdGetStatus`).
pub fn state<P: PageDisk>(bank: &mut SlruBank<P, XactPages>, x: Xid) -> Result<State, BankRefusal>
    ensures is { IsTrue P.tells → IfOk result (λ s. state_number s ≡ state_in (pages_of bank.old (xact_page x.number)) (xact_place x.number)) }
    ensures same { IsTrue P.tells → SamePages bank.old bank.new }
    ensures bank { CallsBank (xact_page x.number) bank.old bank.new result }
{
    let place = xact_place(x);
    let mut byte = [0; 1];
    bank.read(xact_page(x), place / 4, &mut byte)?;
    Ok(state_of(byte[0], place % 4))
}
