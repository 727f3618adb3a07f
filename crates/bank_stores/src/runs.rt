// Members of a multixact that lie on one page, in one go.
ghost use Rattle.std.specs.Prelude.{◌≡◌, ℕ, ◌+◌, ◌^◌, ◌≤◌, ◌++◌, IsTrue, OnErr, OnOk, length, vec_capacity};
ghost use Rattle.tx_events.specs.Pages.{member_page, member_place, members_per_page};
ghost use Rattle.slru_bank.specs.Calls.{CallsBank, SamePages, pages_of};
ghost use Rattle.bank_stores.specs.Runs.{SetsMembers, slots_on};

use crate::Slot;
use crate::members::{read_member, write_member};
use disk_core::PageDisk;
use slru_bank::{BankRefusal, SlruBank};
use store_pages::MemberPages;
use tx_events::Member;

/// Writes members into the slots of one page from one on, of which there is at least one (the second half of
/// `RecordNewMultiXact`). After an `Err` none is written: only the first one's page has to be brought.
pub fn write_members<P: PageDisk>(
    bank: &mut SlruBank<P, MemberPages>,
    offset: u32,
    members: &[Member],
) -> Result<(), BankRefusal>
    requires some { 1 ≤ length members.now }
    requires one_page { member_place offset + length members.now ≤ members_per_page }
    requires lap { offset + length members.now ≤ 2 ^ 32 }
    ensures ok { IsTrue P.tells → OnOk result (SetsMembers (member_page offset) (member_place offset) members.now (length members.now) (pages_of bank.old) (pages_of bank.new)) }
    ensures err { IsTrue P.tells → OnErr result (SamePages bank.old bank.new) }
    ensures bank { CallsBank (member_page offset) bank.old bank.new result }
{
    let mut i = 0;
    while i < members.len() {
        let member = members[i];
        write_member(bank, offset + i as u32, member.id.low(), member.mode)?;
        i += 1;
    }
    Ok(())
}

/// What is in so many slots of one page from one on, of which there is at least one. The slots are put behind those that
/// are there already, for which there is room. After an `Err` none is.
pub fn read_members<P: PageDisk>(
    bank: &mut SlruBank<P, MemberPages>,
    offset: u32,
    count: u32,
    into: &mut Vec<Slot>,
) -> Result<(), BankRefusal>
    requires some { 1 ≤ count }
    requires one_page { member_place offset + count ≤ members_per_page }
    requires lap { offset + count ≤ 2 ^ 32 }
    requires room { length into.old.items + count ≤ vec_capacity into.old }
    ensures slots { IsTrue P.tells → OnOk result (into.new.items ≡ into.old.items ++ slots_on (pages_of bank.old (member_page offset)) (member_place offset) count) }
    ensures long { OnOk result (length into.new.items ≡ length into.old.items + count) }
    ensures err { OnErr result (into.new.items ≡ into.old.items) }
    ensures room { vec_capacity into.new ≡ vec_capacity into.old }
    ensures same { IsTrue P.tells → SamePages bank.old bank.new }
    ensures bank { CallsBank (member_page offset) bank.old bank.new result }
{
    let mut i = 0;
    while i < count {
        match read_member(bank, offset + i) {
            Ok(slot) => into.push_reserved(slot),
            Err(refusal) => return Err(refusal),
        }
        i += 1;
    }
    Ok(())
}
