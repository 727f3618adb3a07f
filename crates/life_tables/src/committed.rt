//! The ids that records commit.
ghost use Rattle.std.specs.Prelude.{◌≡◌, ◌++◌, ◌==◌, ◌||◌, ℕ, IfOk, OnOk};
ghost use Rattle.std.specs.BTreeSet.{contains};
ghost use Rattle.std.specs.List.{flat_map, list_any};
ghost use Rattle.std.specs.Ordering.{nat_cmp};
ghost use Rattle.report_law.specs.Begun.{committed_by};

use std::alloc::Global;
use std::collections::BTreeSet;
use tx_events::{FullXid, Memory, Rec};

fn add_ids(committed: &mut BTreeSet<u64>, ids: &[FullXid]) -> Result<(), Memory>
    ensures { OnOk result ((x : ℕ) → contains nat_cmp committed.new x ≡ (contains nat_cmp committed.old x || list_any (λ z. z == x) ids.now)) }
{
    for id in ids {
        committed.insert(id.number())?;
    }
    Ok(())
}

fn add_committed(committed: &mut BTreeSet<u64>, rec: &Rec) -> Result<(), Memory>
    ensures { OnOk result ((x : ℕ) → contains nat_cmp committed.new x ≡ (contains nat_cmp committed.old x || list_any (λ z. z == x) (committed_by rec.now))) }
{
    match rec {
        Rec::Commit { top, subs } => {
            committed.insert(top.number())?;
            add_ids(committed, subs.items())
        }
        _ => Ok(()),
    }
}

/// The ids that these records commit, by their numbers, beside those of before.
pub fn add_all_committed(committed: &mut BTreeSet<u64>, recs: &[Rec]) -> Result<(), Memory>
    ensures { OnOk result ((x : ℕ) → contains nat_cmp committed.new x ≡ (contains nat_cmp committed.old x || list_any (λ z. z == x) (flat_map committed_by recs.now))) }
{
    for rec in recs {
        add_committed(committed, rec)?;
    }
    Ok(())
}

fn push_ids(all: &mut Vec<u64>, ids: &[FullXid]) -> Result<(), Memory>
    ensures { OnOk result (all.new.items ≡ all.old.items ++ ids.now) }
{
    for id in ids {
        all.push(id.number())?;
    }
    Ok(())
}

fn push_committed(all: &mut Vec<u64>, rec: &Rec) -> Result<(), Memory>
    ensures { OnOk result (all.new.items ≡ all.old.items ++ committed_by rec.now) }
{
    match rec {
        Rec::Commit { top, subs } => {
            all.push(top.number())?;
            push_ids(all, subs.items())
        }
        _ => Ok(()),
    }
}

/// The ids that these records commit, by their numbers.
pub fn all_committed(alloc: Global, recs: &[Rec]) -> Result<Vec<u64>, Memory>
    ensures { IfOk result (λ ids. ids.items ≡ flat_map committed_by recs.now) }
{
    let mut all = Vec::new(alloc);
    for rec in recs {
        push_committed(&mut all, rec)?;
    }
    Ok(all)
}
