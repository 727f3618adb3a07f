//! The transactions and the multixacts that a log's records name.
ghost use Rattle.std.specs.Prelude.{◌≡◌, ◌==◌, ◌||◌, ℕ, IfOk, OnOk};
ghost use Rattle.std.specs.BTreeSet.{contains};
ghost use Rattle.std.specs.List.{list_any};
ghost use Rattle.std.specs.Ordering.{nat_cmp};
ghost use Rattle.life_law.specs.Pending.{is_commit_of};
ghost use Rattle.report_law.specs.Records.{is_same_multi};

use id_sets::IdSet;
use std::alloc::Global;
use std::collections::BTreeSet;
use tx_events::{Memory, Rec};

fn note_top(tops: &mut Vec<u64>, rec: &Rec) -> Result<(), Memory>
    ensures { OnOk result ((x : ℕ) → list_any (λ y. y == x) tops.new.items ≡ (list_any (λ y. y == x) tops.old.items || is_commit_of x rec.now)) }
{
    match rec {
        Rec::Commit { top, .. } => {
            tops.push(top.number())?;
            Ok(())
        }
        _ => Ok(()),
    }
}

/// The transactions of the commit records among these, by their tops' numbers.
pub fn commit_tops(alloc: Global, recs: &[Rec]) -> Result<IdSet, Memory>
    ensures { IfOk result (λ tops. (x : ℕ) → contains nat_cmp tops x ≡ list_any (is_commit_of x) recs.now) }
{
    let mut tops = Vec::new(alloc);
    for rec in recs {
        note_top(&mut tops, rec)?;
    }
    Ok(IdSet::of(tops))
}

fn note_multi(multis: &mut BTreeSet<u64>, rec: &Rec) -> Result<(), Memory>
    ensures { OnOk result ((x : ℕ) → contains nat_cmp multis.new x ≡ (contains nat_cmp multis.old x || is_same_multi x rec.now)) }
{
    match rec {
        Rec::Multi { multi, .. } => {
            multis.insert(multi.number())?;
            Ok(())
        }
        _ => Ok(()),
    }
}

/// The multixacts of the records among these, by their numbers.
pub fn recorded_multis(alloc: Global, recs: &[Rec]) -> Result<BTreeSet<u64>, Memory>
    ensures { IfOk result (λ multis. (x : ℕ) → contains nat_cmp multis x ≡ list_any (is_same_multi x) recs.now) }
{
    let mut multis = BTreeSet::new(alloc);
    for rec in recs {
        note_multi(&mut multis, rec)?;
    }
    Ok(multis)
}
