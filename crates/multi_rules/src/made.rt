//! The place at which a multixact was given.
ghost use Rattle.std.specs.Prelude.{◌≡◌, ◌↔◌, ℕ, List, IsTrue, IfSome, IfNone};
ghost use Rattle.tx_events.specs.declared.event.By.{By};
ghost use Rattle.tx_events.specs.declared.multi.Member.{Member};
ghost use Rattle.tx_events.specs.declared.multi.MultiEvent.TheVariants as multis;
ghost use Rattle.multi_rules.specs.Gens.{IsOnlyGenAt, NoGen};

use history_places::MultiPlaces;
use tx_events::{FullMulti, MultiEvent};

fn is_gen(e: &MultiEvent) -> bool
    ensures { IsTrue result ↔ ((by : By) × (multi : ℕ) × (offset : ℕ) × (members : List Member) × (e.now ≡ multis.Gen by multi offset members)) }
{
    matches!(e, MultiEvent::Gen { .. })
}

/// The place of the event that gave the multixact. None where none did. Takes a search of the history's columns.
pub fn gen_place(places: &MultiPlaces, multi: FullMulti) -> Option<u64>
    ensures some { IfSome result (IsOnlyGenAt places.now.events multi) }
    ensures none { IfNone result (NoGen places.now.events multi) }
{
    let events = places.events();
    let span = places.where_next(multi.number());
    if span.from >= span.end {
        return None;
    }
    let place = span.end - 1;
    match events.get(place as usize) {
        Some(e) => {
            if is_gen(e) {
                return Some(place);
            }
            None
        }
        None => None,
    }
}
