//! Whether the verdicts that a command tells are those of a multixact that it pins.
ghost use Rattle.std.specs.Prelude.{◌≡◌, ◌==◌, ℕ, ◌≤◌, ◌<◌, ◌↔◌, IsTrue, Some, Contains, length, map, slice_get};
ghost use Rattle.std.specs.BTreeSet.{contains};
ghost use Rattle.std.specs.List.{list_any};
ghost use Rattle.std.specs.Ordering.{nat_cmp};
ghost use Rattle.tx_events.specs.Multis.{multi_by};
ghost use Rattle.tx_model.specs.Replies.{taken_by};
ghost use Rattle.report_law.specs.MultiLines.{AreVerdicts};
ghost use Rattle.multi_rules.specs.Snapped.{AreTaken};
ghost use Rattle.multi_rules.specs.Stored.{AreHomes, IsHome};
ghost use Rattle.multi_rules.specs.Telling.{AnyOf, AreGivenSo, AreRecordedSo, AreToldSo, IsAnswered, Telling};
ghost use Rattle.tx_events.specs.declared.multi.Member.{Member};
ghost use Rattle.std.specs.Prelude.{List};

use crate::homes::{Home, place_of};
use crate::made::gen_place;
use crate::one::span_of_all;
use crate::taken::Taken;
use history_places::{HistoryPlaces, MultiPlaces};
use std::collections::BTreeSet;
use tx_events::{FullMulti, Member, MultiEvent};
use tx_model::{LifeReport, MemberVerdict};

/// Whether one of the snapshots tells the verdicts so on these members.
fn tells(
    places: &HistoryPlaces,
    committed: &BTreeSet<u64>,
    taken: &[Taken],
    to: u64,
    members: &[Member],
    told: &[MemberVerdict],
) -> bool
    ghost of: { Telling }
    requires known { (y : ℕ) → contains nat_cmp committed.now y ≡ list_any (λ z. z == y) of.ids }
    requires taken { AreTaken places.now.base.next places.now.events (taken_by of.by of.number) taken.now }
    requires round { (to ≡ of.round.to) × (to ≤ length places.now.events) }
    ensures { IsTrue result ↔ AreToldSo places.now.base places.now.events of told.now members.now }
{
    let span = span_of_all(places, committed, taken, to, members, told);
    span.from < span.end
}

/// Whether they are told so on the members that the multixact's event before the pin gives.
fn tells_given(
    places: &HistoryPlaces,
    multis: &MultiPlaces,
    committed: &BTreeSet<u64>,
    taken: &[Taken],
    to: u64,
    pinned: u64,
    multi: FullMulti,
    told: &[MemberVerdict],
) -> bool
    ghost of: { Telling }
    requires known { (y : ℕ) → contains nat_cmp committed.now y ≡ list_any (λ z. z == y) of.ids }
    requires taken { AreTaken places.now.base.next places.now.events (taken_by of.by of.number) taken.now }
    requires round { (to ≡ of.round.to) × (to ≤ length places.now.events) }
    ensures { IsTrue result ↔ AreGivenSo places.now.base places.now.events of told.now multis.now.events pinned multi }
{
    match gen_place(multis, multi) {
        Some(place) => {
            if place >= pinned {
                return false;
            }
            match &multis.events()[place as usize] {
                MultiEvent::Gen { members, .. } => {
                    tells(places, committed, taken, to, members.items(), told)
                }
                _ => false,
            }
        }
        None => false,
    }
}

/// Whether they are told so on the members that the event at the multixact's home gives.
fn tells_at_home(
    places: &HistoryPlaces,
    lives: &[LifeReport],
    home: Home,
    committed: &BTreeSet<u64>,
    taken: &[Taken],
    to: u64,
    told: &[MemberVerdict],
) -> bool
    ghost of: { Telling }
    requires known { (y : ℕ) → contains nat_cmp committed.now y ≡ list_any (λ z. z == y) of.ids }
    requires taken { AreTaken places.now.base.next places.now.events (taken_by of.by of.number) taken.now }
    requires round { (to ≡ of.round.to) × (to ≤ length places.now.events) }
    requires home { (members : List Member) × IsHome lives.now home members }
    ensures { (members : List Member) → IsHome lives.now home members → IsTrue result ↔ AreToldSo places.now.base places.now.events of told.now members }
{
    match &lives[home.life as usize].life.multis.items()[home.event as usize] {
        MultiEvent::Gen { members, .. } => {
            tells(places, committed, taken, to, members.items(), told)
        }
        _ => false,
    }
}

/// Whether they are told so on the members of the multixact where the log has recorded it before the life.
fn tells_recorded(
    places: &HistoryPlaces,
    lives: &[LifeReport],
    homes: &[Home],
    committed: &BTreeSet<u64>,
    taken: &[Taken],
    to: u64,
    multi: FullMulti,
    told: &[MemberVerdict],
) -> bool
    ghost of: { Telling }
    requires known { (y : ℕ) → contains nat_cmp committed.now y ≡ list_any (λ z. z == y) of.ids }
    requires homes { AreHomes lives.now of.recorded homes.now }
    requires taken { AreTaken places.now.base.next places.now.events (taken_by of.by of.number) taken.now }
    requires round { (to ≡ of.round.to) × (to ≤ length places.now.events) }
    ensures { IsTrue result ↔ AreRecordedSo places.now.base places.now.events of told.now multi }
{
    match place_of(homes, multi) {
        Some(at) => tells_at_home(places, lives, homes[at], committed, taken, to, told),
        None => false,
    }
}

/// Whether the command pins a multixact at this place, where it has an event, and the verdicts on its members are so.
fn answers_at(
    places: &HistoryPlaces,
    multis: &MultiPlaces,
    committed: &BTreeSet<u64>,
    lives: &[LifeReport],
    homes: &[Home],
    taken: &[Taken],
    place: u64,
    to: u64,
    told: &[MemberVerdict],
) -> bool
    ghost of: { Telling }
    requires known { (y : ℕ) → contains nat_cmp committed.now y ≡ list_any (λ z. z == y) of.ids }
    requires homes { AreHomes lives.now of.recorded homes.now }
    requires taken { AreTaken places.now.base.next places.now.events (taken_by of.by of.number) taken.now }
    requires its { slice_get (map multi_by multis.now.events) place ≡ Some of.by }
    requires round { (to ≡ of.round.to) × (to ≤ length places.now.events) }
    ensures { IsTrue result ↔ IsAnswered places.now.base places.now.events of told.now multis.now.events place }
{
    match &multis.events()[place as usize] {
        MultiEvent::Hold { multi, .. } => {
            tells_given(places, multis, committed, taken, to, place, *multi, told)
                || tells_recorded(places, lives, homes, committed, taken, to, *multi, told)
        }
        _ => false,
    }
}

fn answers(
    places: &HistoryPlaces,
    multis: &MultiPlaces,
    committed: &BTreeSet<u64>,
    lives: &[LifeReport],
    homes: &[Home],
    taken: &[Taken],
    pins: &[u64],
    to: u64,
    told: &[MemberVerdict],
) -> bool
    ghost of: { Telling }
    requires known { (y : ℕ) → contains nat_cmp committed.now y ≡ list_any (λ z. z == y) of.ids }
    requires homes { AreHomes lives.now of.recorded homes.now }
    requires taken { AreTaken places.now.base.next places.now.events (taken_by of.by of.number) taken.now }
    requires pins { (p : ℕ) → (slice_get (map multi_by multis.now.events) p ≡ Some of.by) ↔ Contains pins.now p }
    requires round { (to ≡ of.round.to) × (to ≤ length places.now.events) }
    ensures { IsTrue result ↔ AnyOf (IsAnswered places.now.base places.now.events of told.now multis.now.events) pins.now }
{
    for place in pins {
        if answers_at(
            places, multis, committed, lives, homes, taken, *place, to, told,
        ) {
            return true;
        }
    }
    false
}

/// Whether these are the verdicts on the members of a multixact that the command pins, by the snapshot that its session's
/// command `number` took: these are all the snapshots that it took. `committed` are the ids that the base has as committed,
/// `homes` tell where in `lives` the multixacts were given that the base has as recorded, `pins` are the places of the command's own multixact
/// events, and its round ends at `to`. Both histories are the legal fronts. Takes, for each of the command's own multixact
/// events, as many steps as verdicts are told, times the square of the logarithm of the life.
pub fn are_verdicts(
    places: &HistoryPlaces,
    multis: &MultiPlaces,
    committed: &BTreeSet<u64>,
    lives: &[LifeReport],
    homes: &[Home],
    taken: &[Taken],
    pins: &[u64],
    to: u64,
    told: &[MemberVerdict],
) -> bool
    ghost of: { Telling }
    requires known { (y : ℕ) → contains nat_cmp committed.now y ≡ list_any (λ z. z == y) of.ids }
    requires homes { AreHomes lives.now of.recorded homes.now }
    requires taken { AreTaken places.now.base.next places.now.events (taken_by of.by of.number) taken.now }
    requires pins { (p : ℕ) → (slice_get (map multi_by multis.now.events) p ≡ Some of.by) ↔ Contains pins.now p }
    requires round { (to ≡ of.round.to) × (to ≤ length places.now.events) }
    ensures { IsTrue result ↔ AreVerdicts places.now.base of.ids of.recorded places.now.events multis.now.events of.round of.by of.number told.now }
{
    answers(
        places, multis, committed, lives, homes, taken, pins, to, told,
    )
}
