//! The rules of a multixact's members that were refused.
ghost use Rattle.std.specs.Prelude.{◌≡◌, ◌^◌, ◌≤◌, ◌<◌, ◌↔◌, IsTrue, length, take};
ghost use Rattle.report_law.specs.MultiLines.{IsNotGiven, IsOldMember, MayCarry};
ghost use Rattle.history_places.specs.Told.{next_in};
ghost use Rattle.place_rules.specs.Members.{HasOld, HasUngiven, IsOldPair, IsSomewhere};
ghost use Rattle.place_rules.specs.Runs.{AreReadPlaces, Asked};

use crate::nearest::{is_older, is_ungiven};
use crate::visible::legal;
use history_places::HistoryPlaces;
use place_columns::Span;
use tx_events::{FullXid, Xid, near};
use tx_model::Pair;

/// Whether the first of the members that isn't given below `next` is of this stored half.
fn has_ungiven(next: FullXid, pairs: &[Pair], x: Xid) -> bool
    requires from { 3 ≤ next }
    requires to { next < 2 ^ 63 }
    ensures { IsTrue result ↔ HasUngiven next pairs.now x.number }
{
    for pair in pairs {
        if is_ungiven(next, pair.x) {
            return pair.x.number == x.number;
        }
    }
    false
}

/// Whether the member means an id below `oldest`, or none.
fn is_old(next: FullXid, pair: &Pair, oldest: FullXid) -> bool
    requires from { 3 ≤ next }
    requires to { next < 2 ^ 63 }
    ensures { IsTrue result ↔ IsOldPair next oldest pair.now }
{
    if pair.x.number < 3 {
        return false;
    }
    is_older(next, pair.x, oldest)
}

/// Whether a member with only given ones before it means an id below `oldest`, or none.
fn has_old(next: FullXid, pairs: &[Pair], oldest: FullXid) -> bool
    requires from { 3 ≤ next }
    requires to { next < 2 ^ 63 }
    ensures { IsTrue result ↔ HasOld next pairs.now oldest }
{
    for pair in pairs {
        if is_old(next, pair, oldest) {
            return true;
        }
        if is_ungiven(next, pair.x) {
            return false;
        }
    }
    false
}

fn is_ungiven_at(places: &HistoryPlaces, place: u64, pairs: &[Pair], x: Xid) -> bool
    requires { place ≤ length places.now.events }
    ensures { IsTrue result ↔ HasUngiven (next_in places.now.base (take place places.now.events)) pairs.now x.number }
{
    legal(places);
    has_ungiven(places.next_at(place), pairs, x)
}

/// The first place at which the next id was past this number, or where that is of no id past the special ones behind it.
fn past(places: &HistoryPlaces, number: u64) -> u64 {
    if let Some(id) = FullXid::new(number) {
        return places.where_next(id).end;
    }
    match FullXid::new(number.saturating_sub(number % 4).saturating_add(3)) {
        Some(id) => places.where_next(id).from,
        None => 0,
    }
}

/// Where members of this stored half begin to be told otherwise, if that is in the round that ends at `to`: where the id
/// comes near that it means there, and where this was given. It is but a help to find a place.
fn turns(places: &HistoryPlaces, to: u64, x: Xid) -> Span
    requires { to ≤ length places.now.events }
{
    legal(places);
    if x.number < 3 {
        return Span { from: 0, end: 0 };
    }
    match near(places.next_at(to), x) {
        Some(id) => Span {
            from: past(places, id.number().saturating_sub(1 << 31)),
            end: places.where_next(id).end,
        },
        None => Span { from: 0, end: 0 },
    }
}

/// Whether this place is one from `from` to `to` and the first of the members that isn't given there is of this stored half.
fn is_ungiven_in(
    places: &HistoryPlaces,
    from: u64,
    to: u64,
    place: u64,
    pairs: &[Pair],
    x: Xid,
) -> bool
    requires { to ≤ length places.now.events }
    ensures { IsTrue result → IsSomewhere from to (λ p. HasUngiven (next_in places.now.base (take p places.now.events)) pairs.now x.number) }
{
    if place < from {
        return false;
    }
    if to < place {
        return false;
    }
    is_ungiven_at(places, place, pairs, x)
}

/// Whether it is so where a member begins to be told otherwise.
fn is_ungiven_at_turns(places: &HistoryPlaces, from: u64, to: u64, pairs: &[Pair], x: Xid) -> bool
    requires { to ≤ length places.now.events }
    ensures { IsTrue result → IsSomewhere from to (λ p. HasUngiven (next_in places.now.base (take p places.now.events)) pairs.now x.number) }
{
    for pair in pairs {
        let at = turns(places, to, pair.x);
        if is_ungiven_in(places, from, to, at.from, pairs, x) {
            return true;
        }
        if is_ungiven_in(places, from, to, at.end, pairs, x) {
            return true;
        }
    }
    false
}

/// Whether a member of this stored half wasn't given where the command may read, from `from` to `to`, and those before it
/// were.
pub fn is_not_given(places: &HistoryPlaces, from: u64, to: u64, pairs: &[Pair], x: Xid) -> bool
    ghost asked: { Asked }
    requires read { AreReadPlaces places.now.events asked.round asked.by from to }
    requires within { to ≤ length places.now.events }
    ensures { IsTrue result ↔ IsNotGiven places.now.base places.now.events asked.round asked.by pairs.now x.number }
{
    if to < from {
        return false;
    }
    if is_ungiven_at(places, to, pairs, x) {
        return true;
    }
    if is_ungiven_at_turns(places, from, to, pairs, x) {
        return true;
    }
    for place in from..to {
        if is_ungiven_at(places, place, pairs, x) {
            return true;
        }
    }
    false
}

fn has_old_at(places: &HistoryPlaces, place: u64, pairs: &[Pair], oldest: FullXid) -> bool
    requires { place ≤ length places.now.events }
    ensures { IsTrue result ↔ HasOld (next_in places.now.base (take place places.now.events)) pairs.now oldest }
{
    legal(places);
    has_old(places.next_at(place), pairs, oldest)
}

/// Whether this place is one from `from` to `to` and a member is below this oldest id there, with only given ones before it.
fn has_old_in(
    places: &HistoryPlaces,
    from: u64,
    to: u64,
    place: u64,
    pairs: &[Pair],
    oldest: FullXid,
) -> bool
    requires { to ≤ length places.now.events }
    ensures { IsTrue result → IsSomewhere from to (λ p. HasOld (next_in places.now.base (take p places.now.events)) pairs.now oldest) }
{
    if place < from {
        return false;
    }
    if to < place {
        return false;
    }
    has_old_at(places, place, pairs, oldest)
}

/// Whether it is so where a member begins to be told otherwise.
fn has_old_at_turns(
    places: &HistoryPlaces,
    from: u64,
    to: u64,
    pairs: &[Pair],
    oldest: FullXid,
) -> bool
    requires { to ≤ length places.now.events }
    ensures { IsTrue result → IsSomewhere from to (λ p. HasOld (next_in places.now.base (take p places.now.events)) pairs.now oldest) }
{
    for pair in pairs {
        let at = turns(places, to, pair.x);
        if has_old_in(places, from, to, at.from, pairs, oldest) {
            return true;
        }
        if has_old_in(places, from, to, at.end, pairs, oldest) {
            return true;
        }
    }
    false
}

/// Whether a member was below this oldest id where the command may read, from `from` to `to`, and those before it were
/// given. It may carry that oldest id where `carried`.
pub fn is_old_member(
    places: &HistoryPlaces,
    from: u64,
    to: u64,
    pairs: &[Pair],
    oldest: FullXid,
    carried: bool,
) -> bool
    ghost asked: { Asked }
    requires read { AreReadPlaces places.now.events asked.round asked.by from to }
    requires within { to ≤ length places.now.events }
    requires carried { IsTrue carried ↔ MayCarry places.now.base places.now.events asked.round oldest }
    ensures { IsTrue result ↔ IsOldMember places.now.base places.now.events asked.round asked.by pairs.now oldest }
{
    if !carried {
        return false;
    }
    if to < from {
        return false;
    }
    if has_old_at(places, to, pairs, oldest) {
        return true;
    }
    if has_old_at_turns(places, from, to, pairs, oldest) {
        return true;
    }
    for place in from..to {
        if has_old_at(places, place, pairs, oldest) {
            return true;
        }
    }
    false
}
