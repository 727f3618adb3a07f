// Offsets are put on the pages again.
ghost use Rattle.std.specs.Prelude.{◌≡◌, ◌≤◌, [], ◌∷◌};
ghost use Rattle.slru_bank.specs.Calls.{IsCut, cutoff_of};
ghost use Rattle.store_pages.specs.Layouts.{word_page_of};
ghost use Rattle.tx_events.specs.Ids.{low_half};
ghost use Rattle.replay_multis.specs.Named.{AreMultisNear, IsOffsetByte, IsWordByte};
ghost use Rattle.replay_multis.specs.Steps.{RedoesBank};

use crate::share::Share;
use disk_core::PageDisk;
use slru_bank::{BankRefusal, SlruBank, put_number};
use store_pages::{OffsetPages, offset_page, offset_place};
use tx_events::{FullMulti, Rec};

// The 32 bits of a full offset that are stored.
pub(crate) fn low_offset(offset: u64) -> u32
    ensures { result ≡ low_half offset }
{
    (offset & 0xffff_ffff) as u32
}

// One multixact's offset is set.
fn put_offset<P: PageDisk>(
    bank: &mut SlruBank<P, OffsetPages>,
    multi: FullMulti,
    offset: u64,
) -> Result<(), BankRefusal>
    requires kept { IsCut (word_page_of multi) bank.old → ⊥ }
    ensures { RedoesBank (IsWordByte multi offset) bank.old bank.new result }
{
    let m = multi.low();
    put_number(
        bank,
        offset_page(m),
        4 * offset_place(m),
        low_offset(offset),
    )
}

// The same by a record, where its page is the bank's, and not before the oldest multixact: the place of an older one may be
// that of a newer one.
fn redo_offset<P: PageDisk>(
    bank: &mut SlruBank<P, OffsetPages>,
    rec: &Rec,
    share: &Share,
    oldest: FullMulti,
) -> Result<(), BankRefusal>
    requires share { 1 ≤ share.now.banks }
    requires near { AreMultisNear oldest (rec.now ∷ []) }
    requires kept { cutoff_of bank.old ≡ word_page_of oldest }
    ensures { RedoesBank (IsOffsetByte share.now oldest (rec.now ∷ [])) bank.old bank.new result }
{
    let Rec::Multi { multi, offset, .. } = rec else {
        return Ok(());
    };
    if *multi < oldest || !share.has_page(offset_page(multi.low())) {
        return Ok(());
    }
    put_offset(bank, *multi, *offset)
}

/// The offsets of all multixacts that the records name are set, those of the bank's pages, from the oldest one on (the first
/// half of `RecordNewMultiXact` in `multixact_redo`).
pub(crate) fn redo_offsets<P: PageDisk>(
    bank: &mut SlruBank<P, OffsetPages>,
    recs: &[Rec],
    share: &Share,
    oldest: FullMulti,
) -> Result<(), BankRefusal>
    requires share { 1 ≤ share.now.banks }
    requires near { AreMultisNear oldest recs.now }
    requires kept { cutoff_of bank.old ≡ word_page_of oldest }
    ensures { RedoesBank (IsOffsetByte share.now oldest recs.now) bank.old bank.new result }
{
    let mut i = 0;
    while i < recs.len() {
        redo_offset(bank, &recs[i], share, oldest)?;
        i += 1;
    }
    Ok(())
}
