//! Which multixacts weren't recorded yet.
ghost use Rattle.std.specs.Prelude.{◌≡◌, ◌≢◌, ℕ, ◌<◌, ◌≤◌, ◌↔◌, IsTrue, IfSome, IfNone, Some, map, slice_get, length, take, drop};
ghost use Rattle.std.specs.BTreeSet.{contains};
ghost use Rattle.std.specs.List.{list_any};
ghost use Rattle.std.specs.Ordering.{nat_cmp};
ghost use Rattle.tx_events.specs.declared.multi.MultiEvent.{MultiEvent};
ghost use Rattle.tx_events.specs.IdLists.{Ascending};
ghost use Rattle.tx_events.specs.Multis.{multi_by};
ghost use Rattle.place_columns.specs.Counted.{AreCounts};
ghost use Rattle.history_places.specs.declared.start.Start.{Start};
ghost use Rattle.history_places.specs.Starts.{IsMissing, IsPlaceOf};
ghost use Rattle.report_law.specs.MultiLines.{IsNotYet};
ghost use Rattle.place_columns.specs.OwnPlaces.{AnyPlace, ArePlacesOf};
ghost use Rattle.multi_rules.specs.Gens.{AreStartsOf, IsAboveAt, IsRecordedIn, Waiting, WaitsIn, is_ok_gen};

use crate::made::gen_place;
use history_places::{MultiPlaces, Start};
use place_columns::GivenCounts;
use std::collections::BTreeSet;
use tx_events::{By, FullMulti, MultiEvent};

/// Where the multixact stands among these, which ascend. None where it doesn't.
fn place_of(starts: &[Start], multi: FullMulti) -> Option<usize>
    requires { Ascending (map (λ (s : Start). s.multi) starts.now) }
    ensures some { IfSome result (IsPlaceOf starts.now multi) }
    ensures none { IfNone result (IsMissing starts.now multi) }
{
    starts.binary_search_by_key(&multi, |s| s.multi).ok()
}

/// Whether it stands there.
fn is_recorded(starts: &[Start], multi: FullMulti) -> bool
    requires { Ascending (map (λ (s : Start). s.multi) starts.now) }
    ensures { IsTrue result ↔ IsRecordedIn starts.now multi }
{
    match place_of(starts, multi) {
        Some(_place) => true,
        None => false,
    }
}

/// Whether it is one of the base that is recorded.
fn is_known(places: &MultiPlaces, starts: &[Start], multi: FullMulti) -> bool
    requires { Ascending (map (λ (s : Start). s.multi) starts.now) }
    ensures { IsTrue result ↔ ((multi < places.now.base.multi) × IsRecordedIn starts.now multi) }
{
    multi.number() < places.next_at(0) && is_recorded(starts, multi)
}

/// Whether the command pins at this place, where it has an event, and the multixact is below the next one there.
fn is_below_at(counts: &GivenCounts, multis: &[MultiEvent], place: u64, multi: FullMulti) -> bool
    ghost w: { Waiting }
    requires counts { AreCounts w.base w.events w.all counts.now }
    requires all { multis.now ≡ w.all }
    requires its { slice_get (map multi_by w.all) place ≡ Some w.by }
    ensures { IsTrue result ↔ IsAboveAt w.base w.all w.by multi place }
{
    match &multis[place as usize] {
        MultiEvent::Hold { .. } => multi.number() < counts.made[place as usize],
        _ => false,
    }
}

fn is_below_a_pin(
    counts: &GivenCounts,
    multis: &[MultiEvent],
    places: &[u64],
    multi: FullMulti,
) -> bool
    ghost w: { Waiting }
    requires counts { AreCounts w.base w.events w.all counts.now }
    requires all { multis.now ≡ w.all }
    requires places { ArePlacesOf w.by (map multi_by w.all) places.now }
    ensures { IsTrue result ↔ AnyPlace (IsAboveAt w.base w.all w.by multi) places.now }
{
    for place in places {
        if is_below_at(counts, multis, *place, multi) {
            return true;
        }
    }
    false
}

/// Whether another session's event at this place stands in the round.
fn is_elsewhere(session: u32, own: u32, place: u64, from: u64, to: u64) -> bool
    ensures { IsTrue result ↔ ((session ≢ own) × (from ≤ place) × (place < to)) }
{
    session != own && from <= place && place < to
}

/// Whether no event of the legal front gave the multixact to a command that may have recorded it.
fn may_wait(
    places: &MultiPlaces,
    oks: &[bool],
    from: u64,
    to: u64,
    by: By,
    multi: FullMulti,
) -> bool
    ghost w: { Waiting }
    requires oks { oks.now ≡ map (λ (e : MultiEvent). w.ok (multi_by e)) w.all }
    requires front { (n : ℕ) × (places.now.events ≡ take n w.all) }
    ensures { IsTrue result ↔ WaitsIn w.ok from to by places.now.events multi }
{
    match gen_place(places, multi) {
        Some(place) => {
            if !oks[place as usize] {
                return true;
            }
            is_elsewhere(session_at(places, place), by.session, place, from, to)
        }
        None => true,
    }
}

/// The session of the event at this place.
fn session_at(places: &MultiPlaces, place: u64) -> u32
    requires { place < length places.now.events }
    ensures { (e : MultiEvent) → slice_get places.now.events place ≡ Some e → result ≡ (multi_by e).session }
{
    match &places.events()[place as usize] {
        MultiEvent::Gen { by, .. } => by.get().session,
        MultiEvent::Hold { by, .. } => by.get().session,
        MultiEvent::Unhold { by, .. } => by.get().session,
        MultiEvent::Raise { by, .. } => by.get().session,
    }
}

/// Whether the multixact's offset wasn't recorded where the command pinned one. These are the places of its events, its
/// round stands from `from` to `to` among the multixact events, and these multixacts of the base are recorded. The legal
/// front of the history is at least as long as `to`; of each event of the history it is told whether its command was
/// answered `ok` with a multixact, and behind the front those are late that were given so.
pub fn is_not_yet(
    places: &MultiPlaces,
    counts: &GivenCounts,
    multis: &[MultiEvent],
    oks: &[bool],
    late: &BTreeSet<u64>,
    starts: &[Start],
    own: &[u64],
    from: u64,
    to: u64,
    by: By,
    multi: FullMulti,
) -> bool
    ghost w: { Waiting }
    requires base { places.now.base ≡ w.base }
    requires counts { AreCounts w.base w.events w.all counts.now }
    requires all { multis.now ≡ w.all }
    requires oks { oks.now ≡ map (λ (e : MultiEvent). w.ok (multi_by e)) w.all }
    requires front { places.now.events ≡ take (length places.now.events) w.all }
    requires late { (x : ℕ) → contains nat_cmp late.now x ≡ list_any (is_ok_gen w.ok x) (drop (length places.now.events) w.all) }
    requires starts { AreStartsOf w.recorded starts.now }
    requires own { ArePlacesOf w.by (map multi_by w.all) own.now }
    requires round { (from ≡ w.round.from) × (to ≡ w.round.to) × (to ≤ length places.now.events) }
    requires by { by ≡ w.by }
    ensures { IsTrue result ↔ IsNotYet w.base w.recorded w.all w.round w.ok w.by multi }
{
    if !is_below_a_pin(counts, multis, own, multi) {
        return false;
    }
    if late.contains(&multi.number()) {
        return false;
    }
    if is_known(places, starts, multi) {
        return false;
    }
    may_wait(places, oks, from, to, by, multi)
}
