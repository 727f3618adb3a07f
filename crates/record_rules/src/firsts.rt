//! Which transactions and which multixacts records have named so far.
ghost use Rattle.std.specs.Prelude.{◌≡◌, ◌↔◌, ◌∷◌, ◌++◌, [], ℕ, List, IfOk, IsTrue, OnOk, is_some, not, cond, true};
ghost use Rattle.std.specs.BTreeSet.{contains};
ghost use Rattle.std.specs.Ordering.{is_eq, nat_cmp};
ghost use Rattle.tx_events.specs.declared.record.Rec.{Rec};
ghost use Rattle.report_law.specs.Records.{IsFirstOf};
ghost use Rattle.near_map.specs.Near.{value_of};
ghost use Rattle.record_rules.specs.Firsts.{AreSeen, HasKeys, HasTops, has_number};

use near_map::NearMap;
use std::alloc::Global;
use std::collections::BTreeSet;
use tx_events::{FullMulti, FullXid, Memory, Rec};

/// The top-level ids of the commits and aborts so far, and the numbers of the multixacts.
#[derive(Drop)]
pub struct Seen {
    pub tops: NearMap<()>,
    pub multis: BTreeSet<FullMulti>,
}

fn put_multi(multis: &mut BTreeSet<FullMulti>, multi: FullMulti) -> Result<(), Memory>
    ensures { OnOk result ((k : ℕ) → contains nat_cmp multis.new k ≡ cond (is_eq (nat_cmp multi k)) true (contains nat_cmp multis.old k)) }
{
    multis.insert(multi)?;
    Ok(())
}

#[tactic(auto, using(crate::proofs::Keys::top_more, crate::proofs::Keys::no_top_more))]
fn note_top(tops: &mut NearMap<()>, rec: &Rec) -> Result<(), Memory>
    ensures { OnOk result ((recs : List Rec) → HasTops recs tops.old → HasTops (recs ++ rec.now ∷ []) tops.new) }
{
    match rec {
        Rec::Commit { top, .. } => tops.put(top.number(), ()),
        Rec::Abort { top, .. } => tops.put(top.number(), ()),
        Rec::Multi { .. } => Ok(()),
        Rec::Checkpoint { .. } => Ok(()),
        Rec::Truncate { .. } => Ok(()),
    }
}

fn note_multi(multis: &mut BTreeSet<FullMulti>, rec: &Rec) -> Result<(), Memory>
    ensures { OnOk result ((recs : List Rec) → HasKeys nat_cmp has_number recs multis.old → HasKeys nat_cmp has_number (recs ++ rec.now ∷ []) multis.new) }
{
    match rec {
        Rec::Commit { .. } => Ok(()),
        Rec::Abort { .. } => Ok(()),
        Rec::Multi { multi, .. } => put_multi(multis, *multi),
        Rec::Checkpoint { .. } => Ok(()),
        Rec::Truncate { .. } => Ok(()),
    }
}

/// No record. Most tops are next to the first id.
#[tactic(auto, using(crate::proofs::Keys::no_tops))]
pub fn none_seen(alloc: Global, first: FullXid, count: usize) -> Result<Seen, Memory>
    ensures { IfOk result (AreSeen []) }
{
    let tops = NearMap::new(alloc, first.number(), count)?;
    Ok(Seen {
        tops,
        multis: BTreeSet::new(alloc),
    })
}

/// Notes one record more.
pub fn note_record(seen: &mut Seen, rec: &Rec) -> Result<(), Memory>
    ensures { OnOk result ((recs : List Rec) → AreSeen recs seen.old → AreSeen (recs ++ rec.now ∷ []) seen.new) }
{
    note_top(&mut seen.tops, rec)?;
    note_multi(&mut seen.multis, rec)
}

/// Whether a record so far ends the transaction of this top.
fn is_named(tops: &NearMap<()>, top: FullXid) -> bool
    ensures { result ≡ is_some (value_of tops.now top) }
{
    tops.get(top.number()).is_some()
}

fn not(b: bool) -> bool
    ensures { result ≡ not b }
{
    !b
}

/// Whether no record so far is of the same transaction, or the same multixact.
pub fn is_first(seen: &Seen, rec: &Rec) -> bool
    ensures { (recs : List Rec) → AreSeen recs seen.now → IsTrue result ↔ IsFirstOf recs rec.now }
{
    match rec {
        Rec::Commit { top, .. } => not(is_named(&seen.tops, *top)),
        Rec::Abort { top, .. } => not(is_named(&seen.tops, *top)),
        Rec::Multi { multi, .. } => not(seen.multis.contains(multi)),
        _ => true,
    }
}
