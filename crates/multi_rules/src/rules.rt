//! Rules of a reply on multixacts, each judged at the places where its command may read.
ghost use Rattle.std.specs.Prelude.{◌≡◌, ◌≤◌, ◌↔◌, IsTrue, length};
ghost use Rattle.report_law.specs.MultiLines.{IsMemberStop, IsMultiBackward, IsMultiStop};
ghost use Rattle.multi_rules.specs.MultiReadings.{IsMultiReading, MultiAsked};

use crate::reading::MultiReading;
use history_places::MultiPlaces;
use tx_events::FullMulti;

/// Whether multixacts had stopped where the command may read: the next one was `next`, at or past `stop`.
pub fn is_multi_stop_at(
    places: &MultiPlaces,
    reading: MultiReading,
    next: FullMulti,
    stop: FullMulti,
) -> bool
    ghost asked: { MultiAsked }
    requires places_read { IsMultiReading places.now.events asked.round asked.by reading }
    requires within { reading.to ≤ length places.now.events }
    ensures { IsTrue result ↔ IsMultiStop places.now.base places.now.events asked.round asked.by next stop }
{
    if next < stop {
        return false;
    }
    let nexts = places.where_next(next.number());
    let stops = places.where_stop(stop.number());
    nexts.and(stops).meets(reading.from, reading.to)
}

/// Whether so many members would have reached their limit where the command may read: the first of them would have been at
/// `next`, and offsets stopped at `stop`.
pub fn is_member_stop_at(
    places: &MultiPlaces,
    reading: MultiReading,
    count: u64,
    next: u64,
    stop: u64,
) -> bool
    ghost asked: { MultiAsked }
    requires places_read { IsMultiReading places.now.events asked.round asked.by reading }
    requires within { reading.to ≤ length places.now.events }
    ensures { IsTrue result ↔ IsMemberStop places.now.base places.now.events asked.round asked.by count next stop }
{
    if stop.saturating_sub(next) > count {
        return false;
    }
    let firsts = places.where_first(next);
    let stops = places.where_member_stop(stop);
    firsts.and(stops).meets(reading.from, reading.to)
}

/// Whether the oldest multixact announced was `now` where the command may read, and this one is below it.
pub fn is_multi_backward_at(
    places: &MultiPlaces,
    reading: MultiReading,
    multi: FullMulti,
    now: u64,
) -> bool
    ghost asked: { MultiAsked }
    requires places_read { IsMultiReading places.now.events asked.round asked.by reading }
    requires within { reading.to ≤ length places.now.events }
    ensures { IsTrue result ↔ IsMultiBackward places.now.base places.now.events asked.round asked.by multi now }
{
    if now <= multi.number() {
        return false;
    }
    places.where_oldest(now).meets(reading.from, reading.to)
}
