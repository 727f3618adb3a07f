// Commits are put on the pages again.
ghost use Rattle.std.specs.Prelude.{◌≡◌, ◌+◌, ◌<◌, ◌≤◌, [], ◌∷◌};
ghost use Rattle.slru_bank.specs.Calls.{IsCut, cutoff_of};
ghost use Rattle.store_pages.specs.Layouts.{xact_page_of};
ghost use Rattle.tx_events.specs.LifeBase.{committed_by, committed_in};
ghost use Rattle.replay_core.specs.Redo.{AreNear, IsNamed, IsOne, RedoesBank};

use disk_core::PageDisk;
use replay_multis::Share;
use slru_bank::{BankRefusal, SlruBank, State, set_states};
use store_pages::{XactPages, xact_page};
use tx_events::{FullXid, Rec};

// One id becomes committed.
fn redo_id<P: PageDisk>(bank: &mut SlruBank<P, XactPages>, id: FullXid) -> Result<(), BankRefusal>
    requires kept { IsCut (xact_page_of id) bank.old → ⊥ }
    ensures { RedoesBank (IsOne id) bank.old bank.new result }
{
    set_states(bank, &[id], State::Committed)
}

// The same, where it is the bank's, and not before the oldest id: the place of an older one may be that of a newer one.
fn redo_named<P: PageDisk>(
    bank: &mut SlruBank<P, XactPages>,
    id: FullXid,
    share: &Share,
    oldest: FullXid,
) -> Result<(), BankRefusal>
    requires share { 1 ≤ share.now.banks }
    requires near { AreNear oldest (id ∷ []) }
    requires kept { cutoff_of bank.old ≡ xact_page_of oldest }
    ensures { RedoesBank (IsNamed share.now oldest (id ∷ [])) bank.old bank.new result }
{
    if id < oldest || !share.has_page(xact_page(id.low())) {
        return Ok(());
    }
    redo_id(bank, id)
}

// Those of these ids.
fn redo_ids<P: PageDisk>(
    bank: &mut SlruBank<P, XactPages>,
    ids: &[FullXid],
    share: &Share,
    oldest: FullXid,
) -> Result<(), BankRefusal>
    requires share { 1 ≤ share.now.banks }
    requires near { AreNear oldest ids.now }
    requires kept { cutoff_of bank.old ≡ xact_page_of oldest }
    ensures { RedoesBank (IsNamed share.now oldest ids.now) bank.old bank.new result }
{
    let mut i = 0;
    while i < ids.len() {
        redo_named(bank, ids[i], share, oldest)?;
        i += 1;
    }
    Ok(())
}

// Those of a record. An abort's ids need nothing: they don't run any more, and aren't committed.
fn redo_record<P: PageDisk>(
    bank: &mut SlruBank<P, XactPages>,
    rec: &Rec,
    share: &Share,
    oldest: FullXid,
) -> Result<(), BankRefusal>
    requires share { 1 ≤ share.now.banks }
    requires near { AreNear oldest (committed_by rec.now) }
    requires kept { cutoff_of bank.old ≡ xact_page_of oldest }
    ensures { RedoesBank (IsNamed share.now oldest (committed_by rec.now)) bank.old bank.new result }
{
    let Rec::Commit { top, subs } = rec else {
        return Ok(());
    };
    redo_named(bank, *top, share, oldest)?;
    redo_ids(bank, subs.items(), share, oldest)
}

/// The ids of all commit records become committed, those of the bank's pages, from the oldest one on
/// (`TransactionIdCommitTree` in `xact_redo_commit`).
pub(crate) fn redo_records<P: PageDisk>(
    bank: &mut SlruBank<P, XactPages>,
    recs: &[Rec],
    share: &Share,
    oldest: FullXid,
) -> Result<(), BankRefusal>
    requires share { 1 ≤ share.now.banks }
    requires near { AreNear oldest (committed_in recs.now) }
    requires kept { cutoff_of bank.old ≡ xact_page_of oldest }
    ensures { RedoesBank (IsNamed share.now oldest (committed_in recs.now)) bank.old bank.new result }
{
    let mut i = 0;
    while i < recs.len() {
        redo_record(bank, &recs[i], share, oldest)?;
        i += 1;
    }
    Ok(())
}
