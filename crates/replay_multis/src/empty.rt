// Volumes without pages, of which no record names one.
ghost use Rattle.std.specs.Prelude.{◌≡◌, ℕ, true, false, IfOk, IsSome, IsTrue};
ghost use Rattle.std.specs.List.{list_all};
ghost use Rattle.disk_core.specs.Faults.{CountsFault};
ghost use Rattle.disk_core.specs.Images.{Only};
ghost use Rattle.slru_bank.specs.Crash.{CrashLeaves};
ghost use Rattle.replay_multis.specs.Empty.{HasNoPages, IsSameImage, makes_none};

use disk_core::{Failed, PageDisk};
use tx_events::Rec;

// A record of another kind.
fn makes_none(rec: &Rec) -> bool
    ensures { result ≡ makes_none rec.now }
{
    match rec {
        Rec::Multi { .. } => false,
        _ => true,
    }
}

// No record makes a multixact.
#[tactic(auto, using(std::proofs::lemmas::List::Folds::list_all_more, std::proofs::lemmas::List::Folds::list_all_at))]
fn make_none(recs: &[Rec]) -> bool
    ensures { result ≡ list_all makes_none recs.now }
{
    for rec in recs {
        if !makes_none(rec) {
            return false;
        }
    }
    true
}

/// Whether a volume has no pages. One that has none is synced, so that a crash brings none back; another one is left as
/// it is.
pub fn sync_if_empty<P: PageDisk>(disk: &mut P) -> Result<bool, Failed>
    ensures present { IsTrue P.tells → IfOk result (λ none. none ≡ false → (q : ℕ) × IsSome (P.pages disk.new q)) }
    ensures same { IsTrue P.tells → P.pages disk.new ≡ P.pages disk.old }
    ensures empty { IsTrue P.tells → IfOk result (λ none. IsTrue none → HasNoPages (P.pages disk.new)) }
    ensures durable { IsTrue P.tells → IfOk result (λ none. IsTrue none → Only (P.pages disk.new) (P.images disk.new)) }
    ensures crash { IsTrue P.tells → CrashLeaves IsSameImage P.images P.moment P.left_at disk.old disk.new }
    ensures cause { CountsFault result (P.faults disk.old) (P.faults disk.new) }
{
    if disk.after(None)?.is_some() {
        return Ok(false);
    }
    disk.sync()?;
    Ok(true)
}

// The same, where no record makes a multixact.
pub(crate) fn rests_empty<P: PageDisk>(disk: &mut P, recs: &[Rec]) -> Result<bool, Failed>
    ensures none { IfOk result (λ none. IsTrue none → list_all makes_none recs.now ≡ true) }
    ensures same { IsTrue P.tells → P.pages disk.new ≡ P.pages disk.old }
    ensures empty { IsTrue P.tells → IfOk result (λ none. IsTrue none → HasNoPages (P.pages disk.new)) }
    ensures durable { IsTrue P.tells → IfOk result (λ none. IsTrue none → Only (P.pages disk.new) (P.images disk.new)) }
    ensures crash { IsTrue P.tells → CrashLeaves IsSameImage P.images P.moment P.left_at disk.old disk.new }
    ensures cause { CountsFault result (P.faults disk.old) (P.faults disk.new) }
{
    if !make_none(recs) {
        return Ok(false);
    }
    sync_if_empty(disk)
}
