//! Multixacts that are given behind the legal front of a history.
ghost use Rattle.std.specs.Prelude.{◌≡◌, ◌||◌, ◌&&◌, ℕ, Bool, IfOk, OnOk, length, map};
ghost use Rattle.std.specs.BTreeSet.{contains};
ghost use Rattle.std.specs.List.{list_any};
ghost use Rattle.std.specs.Ordering.{nat_cmp};
ghost use Rattle.tx_events.specs.declared.event.By.{By};
ghost use Rattle.tx_events.specs.declared.multi.MultiEvent.{MultiEvent};
ghost use Rattle.tx_events.specs.Multis.{multi_by};
ghost use Rattle.multi_rules.specs.Gens.{gives, is_ok_gen};

use std::alloc::Global;
use std::collections::BTreeSet;
use tx_events::{Memory, MultiEvent};

/// Notes the multixact that the event gives, where its command was answered `ok`.
fn note_gen(multis: &mut BTreeSet<u64>, e: &MultiEvent, ok: bool) -> Result<(), Memory>
    ensures { OnOk result ((x : ℕ) → contains nat_cmp multis.new x ≡ (contains nat_cmp multis.old x || (ok && gives x e.now))) }
{
    if !ok {
        return Ok(());
    }
    match e {
        MultiEvent::Gen { multi, .. } => {
            multis.insert(multi.number())?;
            Ok(())
        }
        _ => Ok(()),
    }
}

/// The multixacts that these events give to commands that were answered `ok` with a multixact: of each event it is told
/// whether its command was.
pub fn late_multis(
    alloc: Global,
    events: &[MultiEvent],
    oks: &[bool],
) -> Result<BTreeSet<u64>, Memory>
    ghost ok: { By → Bool }
    requires { oks.now ≡ map (λ (e : MultiEvent). ok (multi_by e)) events.now }
    ensures { IfOk result (λ late. (x : ℕ) → contains nat_cmp late x ≡ list_any (is_ok_gen ok x) events.now) }
{
    let mut late = BTreeSet::new(alloc);
    for (place, e) in events.iter().enumerate() {
        note_gen(&mut late, e, oks[place])?;
    }
    Ok(late)
}
