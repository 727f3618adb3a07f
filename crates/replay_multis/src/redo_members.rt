// Members are put on the pages again.
ghost use Rattle.std.specs.Prelude.{◌≡◌, ◌+◌, ◌<◌, ◌≤◌, ◌^◌, [], ◌∷◌, length};
ghost use Rattle.slru_bank.specs.Calls.{IsCut, cutoff_of};
ghost use Rattle.store_pages.specs.Layouts.{member_page_of};
ghost use Rattle.replay_multis.specs.Named.{AreMembersBelow, IsMemberByte, IsRunByte, IsSlotByte};
ghost use Rattle.replay_multis.specs.Steps.{RedoesBank};

use crate::redo_offsets::low_offset;
use crate::share::Share;
use disk_core::PageDisk;
use slru_bank::{BankRefusal, SlruBank, put_number};
use store_pages::{MemberPages, id_position, member_page, mode_position};
use tx_events::{FullMulti, Member, Rec};

/// Which members a recovery puts on the pages again.
#[derive(Clone, Copy)]
pub struct MemberSpan {
    /// The oldest multixact: the members of older ones are passed over.
    pub oldest: FullMulti,
    /// Its offset: no member comes before it.
    pub oldest_offset: u64,
    /// The offset from which on members are cleared first: what comes there is known from the records alone.
    pub from: u64,
    /// The next free offset, from which on members are cleared last.
    pub next: u64,
}

// A slot is set.
fn put_member<P: PageDisk>(
    bank: &mut SlruBank<P, MemberPages>,
    offset: u64,
    member: &Member,
) -> Result<(), BankRefusal>
    requires kept { IsCut (member_page_of offset) bank.old → ⊥ }
    ensures { RedoesBank (IsSlotByte offset member.now) bank.old bank.new result }
{
    let low = low_offset(offset);
    let page = member_page(low);
    bank.put(page, mode_position(low), &[member.mode.number()])?;
    put_number(bank, page, id_position(low), member.id.low().number)
}

// The same, where its page is the bank's, and not before the oldest offset: the place of an older one may be that of a newer
// one.
fn redo_member<P: PageDisk>(
    bank: &mut SlruBank<P, MemberPages>,
    offset: u64,
    member: &Member,
    low: u64,
    share: &Share,
) -> Result<(), BankRefusal>
    requires share { 1 ≤ share.now.banks }
    requires near { offset + 2 ^ 15 < low + 2 ^ 31 }
    requires kept { cutoff_of bank.old ≡ member_page_of low }
    ensures { RedoesBank (IsRunByte share.now low offset (member.now ∷ [])) bank.old bank.new result }
{
    if offset < low || !share.has_page(member_page(low_offset(offset))) {
        return Ok(());
    }
    put_member(bank, offset, member)
}

// Those of one multixact.
fn redo_run<P: PageDisk>(
    bank: &mut SlruBank<P, MemberPages>,
    offset: u64,
    members: &[Member],
    low: u64,
    share: &Share,
) -> Result<(), BankRefusal>
    requires share { 1 ≤ share.now.banks }
    requires near { offset + length members.now + 2 ^ 15 ≤ low + 2 ^ 31 }
    requires small { offset + length members.now < 2 ^ 63 }
    requires kept { cutoff_of bank.old ≡ member_page_of low }
    ensures { RedoesBank (IsRunByte share.now low offset members.now) bank.old bank.new result }
{
    let mut i = 0;
    while i < members.len() {
        redo_member(bank, offset + i as u64, &members[i], low, share)?;
        i += 1;
    }
    Ok(())
}

// Those of a record.
fn redo_members_of<P: PageDisk>(
    bank: &mut SlruBank<P, MemberPages>,
    rec: &Rec,
    span: &MemberSpan,
    share: &Share,
) -> Result<(), BankRefusal>
    requires share { 1 ≤ share.now.banks }
    requires below { AreMembersBelow span.now.next (rec.now ∷ []) }
    requires window { span.now.next + 2 ^ 15 ≤ span.now.oldest_offset + 2 ^ 31 }
    requires small { span.now.next < 2 ^ 63 }
    requires kept { cutoff_of bank.old ≡ member_page_of span.now.oldest_offset }
    ensures { RedoesBank (IsMemberByte share.now span.now.oldest span.now.oldest_offset (rec.now ∷ [])) bank.old bank.new result }
{
    let Rec::Multi {
        multi,
        offset,
        members,
    } = rec
    else {
        return Ok(());
    };
    if *multi < span.oldest {
        return Ok(());
    }
    redo_run(bank, *offset, members.items(), span.oldest_offset, share)
}

/// The members of all multixacts that the records name are set, those of the bank's pages, from the oldest one on (the
/// second half of `RecordNewMultiXact` in `multixact_redo`).
pub(crate) fn redo_members<P: PageDisk>(
    bank: &mut SlruBank<P, MemberPages>,
    recs: &[Rec],
    span: &MemberSpan,
    share: &Share,
) -> Result<(), BankRefusal>
    requires share { 1 ≤ share.now.banks }
    requires below { AreMembersBelow span.now.next recs.now }
    requires window { span.now.next + 2 ^ 15 ≤ span.now.oldest_offset + 2 ^ 31 }
    requires small { span.now.next < 2 ^ 63 }
    requires kept { cutoff_of bank.old ≡ member_page_of span.now.oldest_offset }
    ensures { RedoesBank (IsMemberByte share.now span.now.oldest span.now.oldest_offset recs.now) bank.old bank.new result }
{
    let mut i = 0;
    while i < recs.len() {
        redo_members_of(bank, &recs[i], span, share)?;
        i += 1;
    }
    Ok(())
}
