//! Records of multixacts that stand in the order of the events that gave these.
ghost use Rattle.std.specs.Prelude.{◌≡◌, ◌↔◌, ◌<◌, IfSome, IsTrue, length};
ghost use Rattle.std.specs.List.{AllByRecursion};
ghost use Rattle.tx_events.specs.declared.event.By.{By};
ghost use Rattle.tx_events.specs.declared.multi.MultiEvent.TheVariants as multi_events;
ghost use Rattle.reply_rules.specs.Gens.{IsStrayRec};

use tx_events::{FullMulti, Member, MultiEvent, Rec, same_members};

/// Whether the event gives this multixact, with its members from this offset on.
fn is_gen_of(event: &MultiEvent, multi: FullMulti, offset: u64, members: &[Member]) -> bool
    ensures { IsTrue result ↔ ((by : By) × (event.now ≡ multi_events.Gen by multi offset members.now)) }
{
    match event {
        MultiEvent::Gen {
            multi: given,
            offset: at,
            members: its,
            ..
        } => *given == multi && *at == offset && same_members(its.items(), members),
        _ => false,
    }
}

/// Where the next event stands that gives a multixact, from this place on.
fn next_gen(multis: &[MultiEvent], from: usize) -> Option<usize>
    ensures { IfSome result (λ at. at < length multis.now) }
{
    for at in from..multis.len() {
        if matches!(&multis[at], MultiEvent::Gen { .. }) {
            return Some(at);
        }
    }
    None
}

/// The place behind the event that gave the record's multixact, where that is the next one to give some; of another
/// record the same place.
fn behind_its(multis: &[MultiEvent], from: usize, rec: &Rec) -> Option<usize>
    ensures { IfSome result (λ at. IsStrayRec multis.now rec.now → ⊥) }
{
    match rec {
        Rec::Multi {
            multi,
            offset,
            members,
        } => {
            let at = next_gen(multis, from)?;
            if !is_gen_of(&multis[at], *multi, *offset, members.items()) {
                return None;
            }
            Some(at + 1)
        }
        _ => Some(from),
    }
}

/// Whether the records of multixacts are of the first events that gave some, one behind the other, as mostly. Then none
/// is of a multixact that no event gave.
pub fn are_in_turn(recs: &[Rec], multis: &[MultiEvent]) -> bool
    ensures { IsTrue result → AllByRecursion (λ rec. IsStrayRec multis.now rec → ⊥) recs.now }
{
    let mut from = 0;
    for rec in recs {
        match behind_its(multis, from, rec) {
            Some(next) => from = next,
            None => return false,
        }
    }
    true
}
