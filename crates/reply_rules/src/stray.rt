//! Whether a multixact's record is no event's.
ghost use Rattle.std.specs.Prelude.{◌≡◌, ◌↔◌, ◌||◌, ℕ, IfOk, IsTrue, List, OnOk};
ghost use Rattle.std.specs.Global.{Vec};
ghost use Rattle.std.specs.BTreeSet.{contains};
ghost use Rattle.tx_events.specs.declared.multi.MultiEvent.{MultiEvent};
ghost use Rattle.report_law.specs.Steps.{IsStrayMulti, Judged};
ghost use Rattle.reply_rules.specs.Gens.{AreGens, IsStrayRec, is_gen_of, key_cmp, key_of};

use crate::in_turn::are_in_turn;
use std::alloc::Global;
use std::collections::BTreeSet;
use tx_events::{FullMulti, Member, Memory, MultiEvent, Rec};

/// A multixact as one list of numbers, by which it is told from others.
fn key_of(
    alloc: Global,
    multi: FullMulti,
    offset: u64,
    members: &[Member],
) -> Result<Vec<u64>, Memory>
    ensures { IfOk result (λ key. key.items ≡ key_of multi offset members.now) }
{
    let count = members.len().saturating_mul(2).saturating_add(2);
    let mut key = Vec::with_capacity(alloc, count)?;
    key.push(multi.number())?;
    key.push(offset)?;
    for m in members {
        key.push(m.id.number())?;
        key.push(u64::from(m.mode.number()))?;
    }
    Ok(key)
}

fn note_gen(alloc: Global, gens: &mut BTreeSet<Vec<u64>>, e: &MultiEvent) -> Result<(), Memory>
    ensures { OnOk result ((q : Vec ℕ) → contains key_cmp gens.new q ≡ (contains key_cmp gens.old q || is_gen_of q.items e.now)) }
{
    match e {
        MultiEvent::Gen {
            multi,
            offset,
            members,
            ..
        } => {
            let key = key_of(alloc, *multi, *offset, members.items())?;
            gens.insert(key)?;
            Ok(())
        }
        _ => Ok(()),
    }
}

/// The multixacts that these events give.
fn gens_of(alloc: Global, multis: &[MultiEvent]) -> Result<BTreeSet<Vec<u64>>, Memory>
    ensures { IfOk result (λ gens. AreGens multis.now gens) }
{
    let mut gens = BTreeSet::new(alloc);
    for e in multis {
        note_gen(alloc, &mut gens, e)?;
    }
    Ok(gens)
}

fn is_stray(alloc: Global, gens: &BTreeSet<Vec<u64>>, rec: &Rec) -> Result<bool, Memory>
    ensures { (multis : List MultiEvent) → AreGens multis gens.now → IfOk result (λ b. IsTrue b ↔ IsStrayRec multis rec.now) }
{
    match rec {
        Rec::Multi {
            multi,
            offset,
            members,
        } => {
            let key = key_of(alloc, *multi, *offset, members.items())?;
            Ok(!gens.contains(&key))
        }
        _ => Ok(false),
    }
}

/// Whether one of these records is of a multixact that no event of these gives, with its offset and its members.
pub fn is_any_stray(alloc: Global, recs: &[Rec], multis: &[MultiEvent]) -> Result<bool, Memory>
    ensures { (j : Judged) → j.life.recs ≡ recs.now → j.life.multis ≡ multis.now → IfOk result (λ b. IsTrue b ↔ IsStrayMulti j) }
{
    if are_in_turn(recs, multis) {
        return Ok(false);
    }
    let gens = gens_of(alloc, multis)?;
    for rec in recs {
        if is_stray(alloc, &gens, rec)? {
            return Ok(true);
        }
    }
    Ok(false)
}
