//! What a stored half means at a place.
ghost use Rattle.std.specs.Prelude.{◌≡◌, ℕ, ◌<◌, ◌≤◌, ◌↔◌, IsTrue, IfSome, Some, length};
ghost use Rattle.tx_events.specs.Nearest.{near_id, offset_near};
ghost use Rattle.report_law.specs.MultiLines.{IsMultiFuture, IsMultiTooOld};
ghost use Rattle.multi_rules.specs.Own.{AreReadMultis, MultiAsked};

use history_places::MultiPlaces;
use tx_events::{FullMulti, MultiId};

/// How far the number that the stored half means near `next` is above 2^31 below that.
fn offset_near(next: u64, m: MultiId) -> u64
    ensures { result ≡ offset_near next m.number }
{
    let low = (next % (1 << 32)) as u32;
    u64::from(m.number.wrapping_sub(low).wrapping_add(1 << 31))
}

/// Whether the multixact that the stored half means near `next` is before the oldest one, or would be below 0.
fn is_older(next: u64, m: MultiId, oldest: u64) -> bool
    ensures { IsTrue result ↔ IfSome (near_id next m.number) (λ multi. multi < oldest) }
{
    let offset = offset_near(next, m);
    if next <= oldest {
        return offset.saturating_sub(oldest - next) < 1 << 31;
    }
    offset < (1u64 << 31).saturating_sub(next - oldest)
}

/// Whether the stored half means a multixact from `next` on.
fn is_ahead(next: u64, m: MultiId) -> bool
    ensures { IsTrue result ↔ ((multi : ℕ) × (near_id next m.number ≡ Some multi) × (next ≤ multi)) }
{
    offset_near(next, m) >= 1 << 31
}

/// Whether the stored half meant no multixact, or one before the oldest one, where the command may read: the oldest one was
/// this. These are the places where it may.
pub fn is_multi_too_old_at(
    places: &MultiPlaces,
    from: u64,
    to: u64,
    m: MultiId,
    oldest: FullMulti,
) -> bool
    ghost asked: { MultiAsked }
    requires read { AreReadMultis places.now.events asked.round asked.by from to }
    requires within { to ≤ length places.now.events }
    ensures { IsTrue result ↔ IsMultiTooOld places.now.base places.now.events asked.round asked.by m.number oldest }
{
    let span = places.where_oldest(oldest.number());
    let first = span.from.max(from);
    if first >= span.end || first > to {
        return false;
    }
    is_older(places.next_at(first), m, oldest.number())
}

/// Whether it meant one that wasn't given, where the command may read: the next one was this.
pub fn is_multi_future_at(
    places: &MultiPlaces,
    from: u64,
    to: u64,
    m: MultiId,
    next: FullMulti,
) -> bool
    ghost asked: { MultiAsked }
    requires read { AreReadMultis places.now.events asked.round asked.by from to }
    requires within { to ≤ length places.now.events }
    ensures { IsTrue result ↔ IsMultiFuture places.now.base places.now.events asked.round asked.by m.number next }
{
    if !is_ahead(next.number(), m) {
        return false;
    }
    places.where_next(next.number()).meets(from, to)
}
