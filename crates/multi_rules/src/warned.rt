//! Which multixacts were given with a warning.
ghost use Rattle.std.specs.Prelude.{◌≡◌, ◌+◌, ◌^◌, ◌<◌, ◌≤◌, ◌↔◌, IsTrue, Some, map, slice_get};
ghost use Rattle.tx_events.specs.declared.event.By.{By};
ghost use Rattle.tx_events.specs.Limits.{down_to_multi, multi_warn_limit, up_to_multi};
ghost use Rattle.tx_events.specs.Multis.{multi_by};
ghost use Rattle.report_law.specs.MultiLines.{IsMultiWarned};
ghost use Rattle.place_columns.specs.OwnPlaces.{AnyPlace, ArePlacesOf};
ghost use Rattle.multi_rules.specs.Own.{GivesLate};

use history_places::MultiPlaces;
use tx_events::{FullMulti, MultiEvent};

/// The first number from `n` on whose low half isn't 0.
fn up_to_multi(n: u64) -> u64
    requires { n < 2 ^ 63 + 2 ^ 32 }
    ensures { result ≡ up_to_multi n }
{
    if n % (1 << 32) < 1 { n + 1 } else { n }
}

/// The last one up to `n`.
fn down_to_multi(n: u64) -> u64
    requires { 1 ≤ n }
    ensures { result ≡ down_to_multi n }
{
    if n % (1 << 32) < 1 { n - 1 } else { n }
}

/// Whether a multixact is at or past the warn limit under this oldest one.
fn is_late(oldest: u64, multi: u64) -> bool
    requires { multi < 2 ^ 63 }
    ensures { IsTrue result ↔ (multi_warn_limit oldest ≤ multi) }
{
    if oldest >= 1 << 63 {
        return false;
    }
    let wrap = up_to_multi(oldest + 0x7fff_ffff);
    down_to_multi(wrap - 40_000_000) <= multi
}

/// Whether the command is given this multixact at this place, where it has an event, with a warning.
fn gives_late(places: &MultiPlaces, place: u64, multi: FullMulti) -> bool
    ghost by: { By }
    requires { slice_get (map multi_by places.now.events) place ≡ Some by }
    ensures { IsTrue result ↔ GivesLate places.now.base places.now.events by multi place }
{
    match &places.events()[place as usize] {
        MultiEvent::Gen { multi: given, .. } => {
            *given == multi && is_late(places.oldest_at(place), multi.number())
        }
        _ => false,
    }
}

/// Whether the command was given this multixact with a warning. These are the places of its events.
pub fn is_multi_warned(places: &MultiPlaces, its: &[u64], multi: FullMulti) -> bool
    ghost by: { By }
    requires { ArePlacesOf by (map multi_by places.now.events) its.now }
    ensures { IsTrue result ↔ IsMultiWarned places.now.base places.now.events by multi }
{
    is_given_late(places, its, multi)
}

fn is_given_late(places: &MultiPlaces, its: &[u64], multi: FullMulti) -> bool
    ghost by: { By }
    requires { ArePlacesOf by (map multi_by places.now.events) its.now }
    ensures { IsTrue result ↔ AnyPlace (GivesLate places.now.base places.now.events by multi) its.now }
{
    for place in its {
        if gives_late(places, *place, multi) {
            return true;
        }
    }
    false
}
