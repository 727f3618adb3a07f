//! What a dump shows of an id.
ghost use Rattle.std.specs.Prelude.{◌≡◌, ◌↔◌, ◌≤◌, ◌<◌, IfNone, IfSome, IsTrue, Contains, length, take, unwrap_or};
ghost use Rattle.tx_events.specs.Events.{given};
ghost use Rattle.tx_events.specs.IdLists.{Ascending};
ghost use Rattle.tx_events.specs.History.{IsLegal};
ghost use Rattle.tx_events.specs.Ids.{IsFullId, low_half};
ghost use Rattle.store_pages.specs.Layouts.{word_place_of};
ghost use Rattle.tx_events.specs.Pages.{subtrans_page, xact_page};
ghost use Rattle.history_places.specs.IdMarks.{AreMarks, IsMissing, IsPlaceOf, mark_ids};
ghost use Rattle.report_law.specs.Dumps.{HasBits, HasWord, parent_or_none, state_number};
ghost use Rattle.dump_rules.specs.Shown.{ShowsParent, ShowsState};

use crate::bytes::{has_bits, has_word};
use history_places::{HistoryPlaces, IdMark, was_running};
use store_pages::{subtrans_page, subtrans_place, xact_page};
use tx_events::FullXid;

/// The history is legal, and its base is one.
pub fn legal(places: &HistoryPlaces)
    ensures legal { IsLegal places.now.base places.now.events }
    ensures full { IsFullId places.now.base.next }
{
    let _events = places.replay().events();
}

/// Whether the number is a full id's, from one to before another.
fn is_within(from: u64, to: u64, number: u64) -> bool
    ensures { IsTrue result ↔ ((3 ≤ low_half number) × (from ≤ number) × (number < to)) }
{
    number % 4_294_967_296 >= 3 && from <= number && number < to
}

/// Whether the life gave the id of this number before this place.
fn is_given(places: &HistoryPlaces, place: u64, number: u64) -> bool
    requires { place ≤ length places.now.events }
    ensures { IsTrue result ↔ Contains (given (take place places.now.events)) number }
{
    legal(places);
    let from = places.next_at(0).number();
    let to = places.next_at(place).number();
    is_within(from, to, number)
}

/// The id of this number, if the life gave it before this place.
fn given_at(places: &HistoryPlaces, place: u64, number: u64) -> Option<FullXid>
    requires { place ≤ length places.now.events }
    ensures some { IfSome result (λ x. (x ≡ number) × Contains (given (take place places.now.events)) number) }
    ensures none { IfNone result (Contains (given (take place places.now.events)) number → ⊥) }
{
    if !is_given(places, place, number) {
        return None;
    }
    legal(places);
    FullXid::new(number)
}

/// The two bits of an id that was given: 1 where it committed, 2 where it aborted or was rolled back, 0 where it runs.
fn state_at(places: &HistoryPlaces, ids: &[IdMark], place: u64, x: FullXid) -> u8
    requires marks { AreMarks places.now.events ids.now }
    requires place { place ≤ length places.now.events }
    ensures { result ≡ state_number (take place places.now.events) x }
{
    if was_running(ids, place, x) {
        return 0;
    }
    if places.replay().was_visible(&[], place, x) {
        return 1;
    }
    2
}

/// Whether the bytes show the state of the id, where it stands on the page.
fn shows_state_of(
    places: &HistoryPlaces,
    ids: &[IdMark],
    place: u64,
    page: u32,
    at: u64,
    bytes: &[u8],
    x: FullXid,
) -> bool
    requires marks { AreMarks places.now.events ids.now }
    requires place { place ≤ length places.now.events }
    ensures { IsTrue result ↔ (xact_page (low_half x) ≡ page → HasBits at bytes.now (low_half x) (state_number (take place places.now.events) x)) }
{
    let low = x.low();
    if xact_page(low) != page {
        return true;
    }
    has_bits(at, bytes, low, state_at(places, ids, place, x))
}

/// Whether the bytes show the state of the id of this number, if it was given.
pub fn shows_state(
    places: &HistoryPlaces,
    ids: &[IdMark],
    place: u64,
    page: u32,
    at: u64,
    bytes: &[u8],
    number: u64,
) -> bool
    requires marks { AreMarks places.now.events ids.now }
    requires place { place ≤ length places.now.events }
    ensures { IsTrue result ↔ ShowsState (take place places.now.events) page at bytes.now number }
{
    match given_at(places, place, number) {
        Some(x) => shows_state_of(places, ids, place, page, at, bytes, x),
        None => true,
    }
}

/// Where the id is kept. None where it isn't.
fn place_of(ids: &[IdMark], x: FullXid) -> Option<usize>
    requires { Ascending (mark_ids ids.now) }
    ensures some { IfSome result (IsPlaceOf ids.now x) }
    ensures none { IfNone result (IsMissing ids.now x) }
{
    ids.binary_search_by_key(&x, |m| m.id).ok()
}

/// The low half of an id, 0 of none.
fn low_of(x: Option<FullXid>) -> u32
    ensures { result ≡ low_half (unwrap_or x 0) }
{
    match x {
        Some(id) => id.low().number,
        None => 0,
    }
}

/// The low half of the id's parent, 0 where it has none.
fn parent_low(places: &HistoryPlaces, ids: &[IdMark], place: u64, x: FullXid) -> u32
    requires marks { AreMarks places.now.events ids.now }
    requires given { Contains (given (take place places.now.events)) x }
    ensures { result ≡ low_half (parent_or_none (take place places.now.events) x) }
{
    legal(places);
    match place_of(ids, x) {
        Some(k) => low_of(ids[k].parent),
        None => 0,
    }
}

/// Whether the bytes show the parent of the id, where it stands on the page.
fn shows_parent_of(
    places: &HistoryPlaces,
    ids: &[IdMark],
    place: u64,
    page: u32,
    at: u64,
    bytes: &[u8],
    x: FullXid,
) -> bool
    requires marks { AreMarks places.now.events ids.now }
    requires given { Contains (given (take place places.now.events)) x }
    ensures { IsTrue result ↔ (subtrans_page (low_half x) ≡ page → HasWord at bytes.now (word_place_of x) (low_half (parent_or_none (take place places.now.events) x))) }
{
    let low = x.low();
    if subtrans_page(low) != page {
        return true;
    }
    let word = 4 * u64::from(subtrans_place(low));
    has_word(at, bytes, word, parent_low(places, ids, place, x))
}

/// Whether the bytes show the parent of the id of this number, if it was given.
pub fn shows_parent(
    places: &HistoryPlaces,
    ids: &[IdMark],
    place: u64,
    page: u32,
    at: u64,
    bytes: &[u8],
    number: u64,
) -> bool
    requires marks { AreMarks places.now.events ids.now }
    requires place { place ≤ length places.now.events }
    ensures { IsTrue result ↔ ShowsParent (take place places.now.events) page at bytes.now number }
{
    match given_at(places, place, number) {
        Some(x) => shows_parent_of(places, ids, place, page, at, bytes, x),
        None => true,
    }
}
