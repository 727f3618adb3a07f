//! What a reply tells of the places of a history, where its round is judged.
ghost use Rattle.std.specs.Prelude.{◌≡◌, ◌↔◌, ◌≤◌, ℕ, IsTrue, length, take};
ghost use Rattle.tx_model.specs.Replies.{IsWarned};
ghost use Rattle.report_law.specs.MultiLines.{MayCarry};
ghost use Rattle.report_law.specs.Steps.{IsBackwardAt, IsHorizonAt, IsStoppedAt, IsTooNewAt};
ghost use Rattle.history_places.specs.Told.{oldest_in};
ghost use Rattle.reply_lines.specs.At.{IsSpot, Spot, base_of, history_of, round_of};

use crate::known::Known;
use crate::reading::Asking;
use history_places::HistoryPlaces;
use place_rules::{
    is_backward_at, is_horizon_at, is_stopped_at, is_too_new_at, is_warned, may_carry,
};
use tx_events::FullXid;

/// Whether writes had stopped where the command may read.
pub fn is_stopped(known: &Known, asking: Asking, next: FullXid, stop: FullXid) -> bool
    ghost s: { Spot }
    requires { IsSpot s known.now asking }
    ensures { IsTrue result ↔ IsStoppedAt (base_of s) (history_of s) (round_of s) s.asking.by next stop }
{
    is_stopped_at(&known.places, asking.reading, next, stop)
}

/// Whether this was the oldest xmin where the command may find the horizon.
pub fn is_horizon(known: &Known, asking: Asking, xmin: FullXid) -> bool
    ghost s: { Spot }
    requires { IsSpot s known.now asking }
    ensures { IsTrue result ↔ IsHorizonAt (base_of s) (history_of s) (round_of s) s.asking.by xmin }
{
    is_horizon_at(&known.places, asking.reading, xmin)
}

/// Whether the oldest xmin was `limit` where the command may read, and this id is past it.
pub fn is_too_new(known: &Known, asking: Asking, oldest: FullXid, limit: FullXid) -> bool
    ghost s: { Spot }
    requires { IsSpot s known.now asking }
    ensures { IsTrue result ↔ IsTooNewAt (base_of s) (history_of s) (round_of s) s.asking.by oldest limit }
{
    is_too_new_at(&known.places, asking.reading, oldest, limit)
}

/// Whether the announced oldest id was one of this number at some place from `from` to `to`. Goes through all of them.
fn was_oldest(places: &HistoryPlaces, from: u64, to: u64, now: u64) -> bool
    requires { to ≤ length places.now.events }
    ensures { IsTrue result ↔ ((p : ℕ) × (from ≤ p) × (p ≤ to) × (now ≡ oldest_in places.now.base (take p places.now.events))) }
{
    if to < from {
        return false;
    }
    for place in from..to {
        if places.oldest_at(place).number() == now {
            return true;
        }
    }
    places.oldest_at(to).number() == now
}

/// Whether the announced oldest id was `now` where the command may read, and this one is below it. A number that is no id's
/// is looked for at each place.
pub fn is_backward(known: &Known, asking: Asking, oldest: FullXid, now: u64) -> bool
    ghost s: { Spot }
    requires { IsSpot s known.now asking }
    ensures { IsTrue result ↔ IsBackwardAt (base_of s) (history_of s) (round_of s) s.asking.by oldest now }
{
    match FullXid::new(now) {
        Some(id) => is_backward_at(&known.places, asking.reading, oldest, id),
        None => {
            oldest.number() < now
                && was_oldest(&known.places, asking.reading.from, asking.reading.to, now)
        }
    }
}

/// Whether the command may carry this oldest id.
pub fn is_carried(known: &Known, asking: Asking, oldest: FullXid) -> bool
    ghost s: { Spot }
    requires { IsSpot s known.now asking }
    ensures front { IsTrue result ↔ MayCarry known.now.places.base known.now.places.events (round_of s) oldest }
    ensures whole { IsTrue result ↔ MayCarry (base_of s) (history_of s) (round_of s) oldest }
{
    may_carry(&known.places, asking.to, oldest)
}

/// Whether the command was given an id with a warning.
pub fn is_given_late(known: &Known, asking: Asking) -> bool
    ghost s: { Spot }
    requires { IsSpot s known.now asking }
    ensures { IsTrue result ↔ IsWarned (base_of s) (history_of s) s.asking.by }
{
    is_warned(&known.places, known.events.places(asking.number))
}
