//! Rules of a reply, each judged at the places where its command may read.
ghost use Rattle.std.specs.Prelude.{◌≡◌, ◌≤◌, ◌↔◌, IsTrue, length};
ghost use Rattle.tx_model.specs.Replies.{RoundSpan};
ghost use Rattle.report_law.specs.MultiLines.{MayCarry};
ghost use Rattle.report_law.specs.Steps.{IsBackwardAt, IsHorizonAt, IsStoppedAt, IsTooNewAt};
ghost use Rattle.place_rules.specs.Readings.{IsReading, Asked};

use crate::reading::Reading;
use history_places::HistoryPlaces;
use tx_events::FullXid;

/// Whether a command of a round that ends at `to` may carry this oldest id: the life's first one, or one announced in no
/// later round.
pub fn may_carry(places: &HistoryPlaces, to: u64, oldest: FullXid) -> bool
    ghost round: { RoundSpan }
    requires end { to ≡ round.to }
    requires within { to ≤ length places.now.events }
    ensures { IsTrue result ↔ MayCarry places.now.base places.now.events round oldest }
{
    places.where_oldest(oldest).meets(0, to)
}

/// Whether writes had stopped where the command may read: the next id was `next`, at or past `stop`.
pub fn is_stopped_at(places: &HistoryPlaces, reading: Reading, next: FullXid, stop: FullXid) -> bool
    ghost asked: { Asked }
    requires places_read { IsReading places.now.events asked.round asked.by reading }
    requires within { reading.to ≤ length places.now.events }
    ensures { IsTrue result ↔ IsStoppedAt places.now.base places.now.events asked.round asked.by next stop }
{
    if next < stop {
        return false;
    }
    let nexts = places.where_next(next);
    let stops = places.where_stop(stop);
    nexts.and(stops).meets(reading.from, reading.to)
}

/// Whether the oldest id announced was `now` where the command may read, and this one is below it.
pub fn is_backward_at(
    places: &HistoryPlaces,
    reading: Reading,
    oldest: FullXid,
    now: FullXid,
) -> bool
    ghost asked: { Asked }
    requires places_read { IsReading places.now.events asked.round asked.by reading }
    requires within { reading.to ≤ length places.now.events }
    ensures { IsTrue result ↔ IsBackwardAt places.now.base places.now.events asked.round asked.by oldest now }
{
    if now <= oldest {
        return false;
    }
    places.where_oldest(now).meets(reading.from, reading.to)
}

/// Whether the oldest xmin was `limit` where the command may read, and this id is past it.
pub fn is_too_new_at(
    places: &HistoryPlaces,
    reading: Reading,
    oldest: FullXid,
    limit: FullXid,
) -> bool
    ghost asked: { Asked }
    requires places_read { IsReading places.now.events asked.round asked.by reading }
    requires within { reading.to ≤ length places.now.events }
    ensures { IsTrue result ↔ IsTooNewAt places.now.base places.now.events asked.round asked.by oldest limit }
{
    if oldest <= limit {
        return false;
    }
    places.where_xmin(limit).meets(reading.from, reading.to)
}

/// Whether this was the oldest xmin where the command may find the horizon.
pub fn is_horizon_at(places: &HistoryPlaces, reading: Reading, xmin: FullXid) -> bool
    ghost asked: { Asked }
    requires places_read { IsReading places.now.events asked.round asked.by reading }
    requires within { reading.to ≤ length places.now.events }
    ensures { IsTrue result ↔ IsHorizonAt places.now.base places.now.events asked.round asked.by xmin }
{
    places.where_xmin(xmin).meets(reading.early, reading.to)
}
