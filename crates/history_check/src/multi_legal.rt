//! The first event of a history of multixacts that may not come.
ghost use Rattle.std.specs.Prelude.{◌≡◌, ◌<◌, ◌≤◌, IfOk, IfSome, IfNone, OnErr, true, false, [], ◌∷◌, ◌++◌};
ghost use Rattle.tx_events.specs.Base.{IsBase};
ghost use Rattle.tx_events.specs.Multis.{AreLegalMultis, InBase, MultiMayCome};
ghost use Rattle.multi_store.specs.Generator.{Adds};
ghost use Rattle.history_check.specs.MultiReplays.{IsFirstIllegalMulti};

use crate::multi_may::{is_known, may_give, means_itself};
use multi_store::MultiGen;
use std::alloc::Global;
use tx_events::{Counters, Memory, MultiEvent, Refusal};

/// Adds the event if it may come next, and tells whether it did. Else nothing changed.
pub fn add_multi(multis: &mut MultiGen, event: &MultiEvent) -> Result<bool, Memory>
    ensures added { IfOk result (λ b. b ≡ true → Adds multis.old multis.new event.now) }
    ensures refused { IfOk result (λ b. b ≡ false → (MultiMayCome multis.old.base (InBase multis.old.base) multis.old.events event.now → ⊥)) }
    ensures same { IfOk result (λ b. b ≡ false → multis.new ≡ multis.old) }
    ensures err { OnErr result (multis.new ≡ multis.old) }
{
    let _legal = multis.events();
    match event {
        MultiEvent::Gen {
            by,
            multi,
            offset,
            members,
        } => {
            if !may_give(multis, *multi, *offset, members) {
                return Ok(false);
            }
            match multis.next(by.get(), members) {
                Ok(_given) => Ok(true),
                Err(_refusal) => Err(Memory),
            }
        }
        MultiEvent::Hold { by, multi } => {
            if !is_known(multis, *multi) {
                return Ok(false);
            }
            let counters = multis.counters();
            means_itself(counters.multi, *multi);
            match multis.hold(by.get(), multi.low()) {
                Ok(_held) => Ok(true),
                Err(_refusal) => Err(Memory),
            }
        }
        MultiEvent::Unhold { by, multi } => {
            if !multis.holds(by.get().session, *multi) {
                return Ok(false);
            }
            multis.unhold(by.get(), *multi);
            Ok(true)
        }
        MultiEvent::Raise { by, multi, offset } => {
            if !multis.begins_at(*multi, *offset) {
                return Ok(false);
            }
            match multis.raise_oldest(by.get(), *multi, *offset) {
                Ok(()) => Ok(true),
                Err(Refusal::Memory) => Err(Memory),
                Err(_refusal) => Ok(false),
            }
        }
    }
}

/// The place of the first event that may not come in a life of this base. None where the history is legal.
pub fn first_illegal_multi(
    alloc: Global,
    base: Counters,
    events: &[MultiEvent],
) -> Result<Option<usize>, Memory>
    requires base { IsBase base }
    ensures none { IfOk result (λ o. IfNone o (AreLegalMultis base (InBase base) events.now)) }
    ensures some { IfOk result (λ o. IfSome o (λ p. IsFirstIllegalMulti base events.now p)) }
{
    let mut multis = MultiGen::new(alloc, base);
    for (place, event) in events.iter().enumerate() {
        let _legal = multis.events();
        if !add_multi(&mut multis, event)? {
            return Ok(Some(place));
        }
    }
    let _legal = multis.events();
    Ok(None)
}
