//! Which multixacts a stored half means where a command pins.
ghost use Rattle.std.specs.Prelude.{◌≡◌, ◌↔◌, ℕ, IsTrue, Some, slice_get, map};
ghost use Rattle.tx_events.specs.declared.event.By.{By};
ghost use Rattle.tx_events.specs.declared.multi.MultiEvent.TheVariants as multis;
ghost use Rattle.tx_events.specs.Multis.{multi_by};
ghost use Rattle.tx_events.specs.Nearest.{near_id};
ghost use Rattle.place_columns.specs.Counted.{AreCounts};
ghost use Rattle.place_columns.specs.OwnPlaces.{AnyPlace, ArePlacesOf};
ghost use Rattle.command_events.specs.Shapes.{IsPinNear, Teller};

use place_columns::GivenCounts;
use tx_events::{FullMulti, MultiEvent, MultiId};

/// Whether the stored half means a multixact near this one.
fn has_near(next: u64, m: MultiId) -> bool
    ensures { IsTrue result ↔ ((multi : ℕ) × (near_id next m.number ≡ Some multi)) }
{
    let low = (next % (1 << 32)) as u32;
    let offset = u64::from(m.number.wrapping_sub(low).wrapping_add(1 << 31));
    next.saturating_add(offset) >= 1 << 31
}

/// Whether it means this multixact near that one.
fn is_near(next: u64, m: MultiId, multi: FullMulti) -> bool
    ensures { IsTrue result ↔ (near_id next m.number ≡ Some multi) }
{
    multi.low() == m
        && next.saturating_sub(1 << 31) <= multi.number()
        && multi.number().saturating_sub(next) < 1 << 31
}

fn is_pin(e: &MultiEvent) -> bool
    ensures { IsTrue result ↔ ((by : By) × (multi : ℕ) × (e.now ≡ multis.Hold by multi)) }
{
    matches!(e, MultiEvent::Hold { .. })
}

/// Whether the command pins at this place, where it has an event, and the stored half means some multixact there.
fn means_some_at(counts: &GivenCounts, multis: &[MultiEvent], place: u64, m: MultiId) -> bool
    ghost t: { Teller }
    requires counts { AreCounts t.base t.events t.all counts.now }
    requires all { multis.now ≡ t.all }
    requires its { slice_get (map multi_by t.all) place ≡ Some t.by }
    ensures { IsTrue result ↔ ((multi : ℕ) × IsPinNear t.base t.all t.by m.number multi place) }
{
    is_pin(&multis[place as usize]) && has_near(counts.made[place as usize], m)
}

/// Whether it means this one there.
fn means_at(
    counts: &GivenCounts,
    multis: &[MultiEvent],
    place: u64,
    m: MultiId,
    multi: FullMulti,
) -> bool
    ghost t: { Teller }
    requires counts { AreCounts t.base t.events t.all counts.now }
    requires all { multis.now ≡ t.all }
    requires its { slice_get (map multi_by t.all) place ≡ Some t.by }
    ensures { IsTrue result ↔ IsPinNear t.base t.all t.by m.number multi place }
{
    is_pin(&multis[place as usize]) && is_near(counts.made[place as usize], m, multi)
}

/// Whether the stored half means some multixact where the command pins one. These are the places of its events.
pub fn is_near_a_pin(
    counts: &GivenCounts,
    multis: &[MultiEvent],
    places: &[u64],
    m: MultiId,
) -> bool
    ghost t: { Teller }
    requires counts { AreCounts t.base t.events t.all counts.now }
    requires all { multis.now ≡ t.all }
    requires places { ArePlacesOf t.by (map multi_by t.all) places.now }
    ensures { IsTrue result ↔ AnyPlace (λ place. (multi : ℕ) × IsPinNear t.base t.all t.by m.number multi place) places.now }
{
    for place in places {
        if means_some_at(counts, multis, *place, m) {
            return true;
        }
    }
    false
}

/// Whether it means this multixact there.
pub fn is_near_pin(
    counts: &GivenCounts,
    multis: &[MultiEvent],
    places: &[u64],
    m: MultiId,
    multi: FullMulti,
) -> bool
    ghost t: { Teller }
    requires counts { AreCounts t.base t.events t.all counts.now }
    requires all { multis.now ≡ t.all }
    requires places { ArePlacesOf t.by (map multi_by t.all) places.now }
    ensures { IsTrue result ↔ AnyPlace (IsPinNear t.base t.all t.by m.number multi) places.now }
{
    for place in places {
        if means_at(counts, multis, *place, m, multi) {
            return true;
        }
    }
    false
}
