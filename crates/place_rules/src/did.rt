//! The rules of what is told of whether an id committed.
ghost use Rattle.std.specs.Prelude.{◌≡◌, ◌==◌, ℕ, ◌≤◌, ◌<◌, ◌↔◌, ◌⊎◌, IsTrue, IfSome, Contains, length, take};
ghost use Rattle.std.specs.BTreeSet.{contains};
ghost use Rattle.std.specs.List.{list_any};
ghost use Rattle.std.specs.Ordering.{nat_cmp};
ghost use Rattle.tx_events.specs.Nearest.{near_id};
ghost use Rattle.life_law.specs.DidCommit.{IsRecorded};
ghost use Rattle.report_law.specs.MultiLines.{MayCarry};
ghost use Rattle.report_law.specs.Steps.{IsDidAt, IsDidTooOld};
ghost use Rattle.history_places.specs.Told.{next_in};
ghost use Rattle.place_rules.specs.Runs.{AreReadPlaces, Asked, Did, IsDidHere, IsOlderThere};

use crate::nearest::is_older;
use crate::visible::legal;
use history_places::{HistoryPlaces, was_visible};
use id_sets::IdSet;
use std::collections::BTreeSet;
use tx_events::{FullXid, Xid, near};

/// Whether the base has the id as committed, or a commit record names it.
fn is_known(committed: &BTreeSet<u64>, recorded: &IdSet, id: FullXid) -> bool
    ghost did: { Did }
    requires known { (y : ℕ) → contains nat_cmp committed.now y ≡ list_any (λ z. z == y) did.ids }
    requires recorded { (y : ℕ) → IsTrue (contains nat_cmp recorded.now y) ↔ IsRecorded did.recs y }
    ensures { IsTrue result ↔ (Contains did.ids id ⊎ IsRecorded did.recs id) }
{
    if committed.contains(&id.number()) {
        return true;
    }
    recorded.contains(id.number())
}

/// Whether the stored half means an id at this place of which the answer is right. `from` is the first place where the
/// command may read.
fn is_right_answer(
    places: &HistoryPlaces,
    committed: &BTreeSet<u64>,
    recorded: &IdSet,
    from: u64,
    place: u64,
    x: Xid,
    yes: bool,
) -> bool
    ghost did: { Did }
    requires known { (y : ℕ) → contains nat_cmp committed.now y ≡ list_any (λ z. z == y) did.ids }
    requires recorded { (y : ℕ) → IsTrue (contains nat_cmp recorded.now y) ↔ IsRecorded did.recs y }
    requires order { from ≤ place }
    requires within { place ≤ length places.now.events }
    requires normal { 3 ≤ x.number }
    ensures { IsTrue result ↔ IsDidHere places.now.base did.ids places.now.events did.recs from x.number yes place }
{
    legal(places);
    match near(places.next_at(place), x) {
        Some(id) => {
            if yes {
                is_known(committed, recorded, id)
            } else {
                !was_visible(places.replay(), committed, from, id)
            }
        }
        None => false,
    }
}

/// Whether the answer is right of the id that the stored half means where the command may read, from `from` to `to`.
/// `committed` are the ids that the base has as committed, `recorded` those that the life's commit records name.
pub fn is_did_at(
    places: &HistoryPlaces,
    committed: &BTreeSet<u64>,
    recorded: &IdSet,
    from: u64,
    to: u64,
    x: Xid,
    yes: bool,
) -> bool
    ghost did: { Did }
    requires known { (y : ℕ) → contains nat_cmp committed.now y ≡ list_any (λ z. z == y) did.ids }
    requires recorded { (y : ℕ) → IsTrue (contains nat_cmp recorded.now y) ↔ IsRecorded did.recs y }
    requires read { AreReadPlaces places.now.events did.round did.by from to }
    requires within { to ≤ length places.now.events }
    requires normal { 3 ≤ x.number }
    ensures { IsTrue result ↔ IsDidAt places.now.base did.ids places.now.events did.recs did.round did.by x.number yes }
{
    if to < from {
        return false;
    }
    legal(places);
    if is_right_answer(places, committed, recorded, from, to, x, yes) {
        return true;
    }
    for place in from..to {
        if is_right_answer(places, committed, recorded, from, place, x, yes) {
            return true;
        }
    }
    false
}

/// Whether the stored half means an id below `oldest` at this place, or none.
fn is_older_there(places: &HistoryPlaces, place: u64, x: Xid, oldest: FullXid) -> bool
    requires within { place ≤ length places.now.events }
    requires normal { 3 ≤ x.number }
    ensures { IsTrue result ↔ IsOlderThere places.now.base places.now.events x.number oldest place }
{
    legal(places);
    is_older(places.next_at(place), x, oldest)
}

/// Whether the id that the stored half means where the command may read, from `from` to `to`, is below this oldest id, which
/// it may carry where `carried`.
pub fn is_did_too_old(
    places: &HistoryPlaces,
    from: u64,
    to: u64,
    x: Xid,
    oldest: FullXid,
    carried: bool,
) -> bool
    ghost asked: { Asked }
    requires read { AreReadPlaces places.now.events asked.round asked.by from to }
    requires within { to ≤ length places.now.events }
    requires carried { IsTrue carried ↔ MayCarry places.now.base places.now.events asked.round oldest }
    ensures { IsTrue result ↔ IsDidTooOld places.now.base places.now.events asked.round asked.by x.number oldest }
{
    if x.number < 3 {
        return false;
    }
    if !carried {
        return false;
    }
    if to < from {
        return false;
    }
    if is_older_there(places, to, x, oldest) {
        return true;
    }
    for place in from..to {
        if is_older_there(places, place, x, oldest) {
            return true;
        }
    }
    false
}
