// Volumes of pg_xact without pages, of which no record names one.
ghost use Rattle.std.specs.Prelude.{◌≡◌, ◌≤◌, [], ◌∷◌, IfOk, IsTrue};
ghost use Rattle.disk_core.specs.Faults.{CountsFault};
ghost use Rattle.disk_core.specs.Images.{Only};
ghost use Rattle.slru_bank.specs.Crash.{CrashLeaves};
ghost use Rattle.tx_events.specs.LifeBase.{committed_by, committed_in};
ghost use Rattle.replay_multis.specs.Empty.{HasNoPages, IsSameImage};
ghost use Rattle.replay_core.specs.Redo.{NamesNone};

use disk_core::{Failed, PageDisk};
use replay_multis::{Share, sync_if_empty};
use store_pages::xact_page;
use tx_events::{FullXid, Rec};

// An id is none that is put on the bank's pages.
fn is_other(id: FullXid, share: &Share, oldest: FullXid) -> bool
    requires share { 1 ≤ share.now.banks }
    ensures { IsTrue result → NamesNone share.now oldest (id ∷ []) }
{
    id < oldest || !share.has_page(xact_page(id.low()))
}

fn are_other(ids: &[FullXid], share: &Share, oldest: FullXid) -> bool
    requires share { 1 ≤ share.now.banks }
    ensures { IsTrue result → NamesNone share.now oldest ids.now }
{
    let mut i = 0;
    while i < ids.len() {
        if !is_other(ids[i], share, oldest) {
            return false;
        }
        i += 1;
    }
    true
}

// So a record's.
fn names_none(rec: &Rec, share: &Share, oldest: FullXid) -> bool
    requires share { 1 ≤ share.now.banks }
    ensures { IsTrue result → NamesNone share.now oldest (committed_by rec.now) }
{
    let Rec::Commit { top, subs } = rec else {
        return true;
    };
    is_other(*top, share, oldest) && are_other(subs.items(), share, oldest)
}

fn name_none(recs: &[Rec], share: &Share, oldest: FullXid) -> bool
    requires share { 1 ≤ share.now.banks }
    ensures { IsTrue result → NamesNone share.now oldest (committed_in recs.now) }
{
    let mut i = 0;
    while i < recs.len() {
        if !names_none(&recs[i], share, oldest) {
            return false;
        }
        i += 1;
    }
    true
}

/// Whether a volume of pg_xact has no pages, and no record names one. Then it is synced; another one is left as it is.
pub(crate) fn rests_empty<P: PageDisk>(
    disk: &mut P,
    recs: &[Rec],
    share: &Share,
    oldest: FullXid,
) -> Result<bool, Failed>
    requires share { 1 ≤ share.now.banks }
    ensures none { IfOk result (λ none. IsTrue none → NamesNone share.now oldest (committed_in recs.now)) }
    ensures same { IsTrue P.tells → P.pages disk.new ≡ P.pages disk.old }
    ensures empty { IsTrue P.tells → IfOk result (λ none. IsTrue none → HasNoPages (P.pages disk.new)) }
    ensures durable { IsTrue P.tells → IfOk result (λ none. IsTrue none → Only (P.pages disk.new) (P.images disk.new)) }
    ensures crash { IsTrue P.tells → CrashLeaves IsSameImage P.images P.moment P.left_at disk.old disk.new }
    ensures cause { CountsFault result (P.faults disk.old) (P.faults disk.new) }
{
    if !name_none(recs, share, oldest) {
        return Ok(false);
    }
    sync_if_empty(disk)
}
