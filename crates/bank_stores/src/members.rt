// A member is a mode byte in front of its group's ids, and an id of four bytes.
ghost use Rattle.std.specs.Prelude.{◌≡◌, ℕ, ◌+◌, ◌*◌, ◌/◌, ◌%◌, ◌^◌, ◌≤◌, IsTrue, length, slice_index, OnOk, OnErr, IfOk};
ghost use Rattle.tx_events.specs.Ids.{low_half};
ghost use Rattle.tx_events.specs.PageOrder.{Offsets, page_precedes};
ghost use Rattle.store_pages.specs.Layouts.{number_in};
ghost use Rattle.tx_events.specs.Pages.{id_at, member_page, member_place, members_per_page, mode_at};
ghost use Rattle.slru_bank.specs.Calls.{CallsBank, SamePages, TrimsBank, pages_of};
ghost use Rattle.tx_events.specs.Modes.{mode_number};
ghost use Rattle.bank_stores.specs.Slots.{slot_of};
ghost use Rattle.bank_stores.specs.Changes.{SetsMember, TrimsMembers};

use crate::Slot;
use crate::modes::slot_of_numbers;
use disk_core::PageDisk;
use slru_bank::{BankRefusal, SlruBank, put_number};
use store_pages::{MemberPages, id_position, member_page, mode_position};
use tx_events::{Mode, Xid};

/// Writes a member into its slot (the second half of `RecordNewMultiXact`). After an `Err` nothing is changed: once its
/// mode stands, the page is at hand for its id.
pub fn write_member<P: PageDisk>(
    bank: &mut SlruBank<P, MemberPages>,
    offset: u32,
    x: Xid,
    mode: Mode,
) -> Result<(), BankRefusal>
    ensures ok { IsTrue P.tells → OnOk result (SetsMember (member_page offset) (member_place offset) (mode_number mode) x.number (pages_of bank.old) (pages_of bank.new)) }
    ensures err { IsTrue P.tells → OnErr result (SamePages bank.old bank.new) }
    ensures bank { CallsBank (member_page offset) bank.old bank.new result }
{
    let page = member_page(offset);
    bank.set(page, mode_position(offset), 255, mode.number())?;
    put_number(bank, page, id_position(offset), x.number)
}

// How many bytes at most stand from a member's mode to the end of its id, in its group.
const SPAN: usize = 17;

// The number in four bytes, the low one first.
fn number_at(bytes: &[u8], at: usize) -> u32
    requires { at + 4 ≤ length bytes.now }
    ensures { result ≡ number_in bytes.now at }
{
    let low = u32::from(bytes[at]) + 256 * u32::from(bytes[at + 1]);
    let high = u32::from(bytes[at + 2]) + 256 * u32::from(bytes[at + 3]);
    low + 65_536 * high
}

/// What is in a slot (as `GetMultiXactIdMembers` reads it).
pub fn read_member<P: PageDisk>(
    bank: &mut SlruBank<P, MemberPages>,
    offset: u32,
) -> Result<Slot, BankRefusal>
    ensures is { IsTrue P.tells → IfOk result (λ s. s ≡ slot_of (slice_index (pages_of bank.old (member_page offset)) (mode_at (member_place offset)))
        (number_in (pages_of bank.old (member_page offset)) (id_at (member_place offset)))) }
    ensures same { IsTrue P.tells → SamePages bank.old bank.new }
    ensures bank { CallsBank (member_page offset) bank.old bank.new result }
{
    let at = mode_position(offset);
    let id = (id_position(offset) - at) as usize;
    let mut bytes = [0; SPAN];
    bank.read(member_page(offset), at, &mut bytes)?;
    let number = number_at(&bytes, id);
    Ok(slot_of_numbers(bytes[0], number))
}

/// Clears the members from an offset on: their ids on its page, and each later page is removed (`TrimMultiXact`). The
/// modes in front of the first cleared id stay: a slot with id 0 is unused whatever its mode. After an `Err` some of
/// these pages are removed, and no other one changed.
pub fn trim_members<P: PageDisk>(
    bank: &mut SlruBank<P, MemberPages>,
    next: u64,
) -> Result<(), BankRefusal>
    ensures ok { IsTrue P.tells → OnOk result (TrimsMembers (member_page (low_half next)) (member_place (low_half next)) (pages_of bank.old) (pages_of bank.new)) }
    ensures bank { TrimsBank (page_precedes Offsets members_per_page (member_page (low_half next))) bank.old bank.new result }
{
    let offset = low_offset(next);
    bank.clear_after(member_page(offset), id_position(offset))
}

// The 32 bits of a full offset by which pages count.
fn low_offset(offset: u64) -> u32
    ensures { result ≡ low_half offset }
{
    (offset & 0xffff_ffff) as u32
}
