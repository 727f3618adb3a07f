//! The line of a life's log, and the counters behind its records.
ghost use Rattle.std.specs.Prelude.{◌≡◌, ◌↔◌, IfNone, IfSome, IsNone, IsTrue};
ghost use Rattle.tx_events.specs.After.{after_record};
ghost use Rattle.tx_events.specs.Base.{IsBase};
ghost use Rattle.report_law.specs.Records.{IsLawfulLog};
ghost use Rattle.record_rules.specs.Behind.{AreBases, IsFirstNoBase};

use tx_events::{Counters, Rec, is_base};
use tx_model::{How, Life};
use wal_core::counters_after;

/// Whether the life's flushed number is past its first record, and in the last life not past its last.
pub fn is_lawful_log(crash: Option<How>, life: &Life) -> bool
    ensures { IsTrue result ↔ IsLawfulLog crash life.now }
{
    if life.flushed <= life.from {
        return false;
    }
    match crash {
        Some(_how) => true,
        None => life.flushed - life.from <= life.recs.items().len() as u64,
    }
}

/// The counters behind one record more, where they are a base.
fn base_behind(counters: &Counters, rec: &Rec) -> Option<Counters>
    ensures some { IfSome result (λ c. (c ≡ after_record counters.now rec.now) × IsBase c) }
    ensures none { IsNone result → IsBase (after_record counters.now rec.now) → ⊥ }
{
    let behind = counters_after(counters, rec)?;
    if is_base(&behind) {
        return Some(behind);
    }
    None
}

/// The place of the first record behind which the counters aren't a base. None where they are one behind each.
#[tactic(auto, using(crate::proofs::Kept::record_further, crate::proofs::Kept::all_taken))]
pub fn first_no_base(base: &Counters, recs: &[Rec]) -> Option<usize>
    requires { IsBase base.now }
    ensures none { IfNone result (AreBases base.now recs.now) }
    ensures some { IfSome result (λ p. IsFirstNoBase base.now recs.now p) }
{
    let mut counters = base.same();
    for (place, rec) in recs.iter().enumerate() {
        match base_behind(&counters, rec) {
            Some(behind) => counters = behind,
            None => return Some(place),
        }
    }
    None
}
