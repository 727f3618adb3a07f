//! Whether a life may begin so.
ghost use Rattle.std.specs.Prelude.{◌≡◌, ◌↔◌, ◌≤◌, ℕ, IfSome, IsNone, IsTrue, length, take};
ghost use Rattle.tx_events.specs.After.{after_records};
ghost use Rattle.record_rules.specs.Behind.{AreBases, BeginsBehind, BeginsLog, IsNoBase, BeginsFrom};

use tx_events::{Counters, Rec, is_base};
use tx_model::Life;
use wal_core::counters_after;

/// Whether the life begins a log: its records are counted from 0, and its counters are a base.
pub fn begins_log(life: &Life) -> bool
    ensures { IsTrue result ↔ BeginsLog life.now }
{
    life.from == 0 && is_base(&life.base)
}

/// The counters behind these records. None only where they aren't a base behind some of them.
#[tactic(auto, using(crate::proofs::Kept::record_further, crate::proofs::Kept::all_taken))]
pub fn counters_behind(base: &Counters, recs: &[Rec]) -> Option<Counters>
    ensures some { IfSome result (λ c. c ≡ after_records base.now recs.now) }
    ensures none { IsNone result → IsNoBase base.now recs.now }
{
    let mut counters = base.same();
    for rec in recs {
        counters = counters_after(&counters, rec)?;
    }
    Some(counters)
}

fn are_same(a: &Counters, b: &Counters) -> bool
    ensures { IsTrue result ↔ (a.now ≡ b.now) }
{
    a.next == b.next
        && a.oldest == b.oldest
        && a.multi == b.multi
        && a.offset == b.offset
        && a.oldest_multi == b.oldest_multi
        && a.oldest_offset == b.oldest_offset
}

/// Whether a life may begin behind this one: from records of it, at least all that were known to be flushed, with the
/// counters that these give. Behind each of its records these are a base.
pub fn begins_behind(last: &Life, life: &Life) -> bool
    requires { AreBases last.now.base last.now.recs }
    ensures { IsTrue result ↔ BeginsFrom last.now life.now }
{
    if life.from < last.flushed {
        return false;
    }
    let recs = last.recs.items();
    let kept = life.from.saturating_sub(last.from);
    if kept > recs.len() as u64 {
        return false;
    }
    match counters_behind(&last.base, &recs[..kept as usize]) {
        Some(counters) => are_same(&life.base, &counters),
        None => false,
    }
}
