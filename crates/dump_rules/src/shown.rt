//! What a dump's bytes show of all that stands on its page.
ghost use Rattle.std.specs.Prelude.{◌≡◌, ◌↔◌, ◌+◌, ◌*◌, ◌<◌, ◌≤◌, ◌^◌, ◌/◌, ℕ, IsTrue, Contains, length, min, take};
ghost use Rattle.std.specs.List.{AllByRecursion};
ghost use Rattle.tx_events.specs.Events.{given};
ghost use Rattle.history_places.specs.IdMarks.{AreMarks};
ghost use Rattle.place_columns.specs.declared.span.Span.{Span};
ghost use Rattle.dump_rules.specs.declared.gens.GenMark.{GenMark};
ghost use Rattle.dump_rules.specs.Gens.{AreGens, Rise};
ghost use Rattle.dump_rules.specs.Shown.{AreEpochs, Behind, ShowsLow, ShowsNumber, numbers_in};

use crate::gens::GenMark;
use crate::ids::{legal, shows_parent, shows_state};
use crate::multis::{shows_member, shows_offset};
use history_places::{HistoryPlaces, IdMark, MultiPlaces};
use place_columns::Span;
use tx_model::DumpOf;

/// How many numbers have the same high half.
const EPOCH: u64 = 4_294_967_296;

/// How many bytes a page has.
const PAGE_SIZE: u64 = 8192;

fn least(a: u64, b: u64) -> u64
    ensures { result ≡ min a b }
{
    a.min(b)
}

/// The low halves of the numbers of which the bytes from `at` to before `end` of the page show something.
fn numbers_in(what: DumpOf, at: u64, end: u64) -> Span
    requires at { at < 8192 }
    requires end { end ≤ 8192 }
    ensures { result ≡ numbers_in what at end }
{
    match what {
        DumpOf::Log => Span { from: 0, end: 0 },
        DumpOf::Xact { page } => Span {
            from: u64::from(page) * 32_768 + 4 * at,
            end: u64::from(page) * 32_768 + 4 * end,
        },
        DumpOf::Subtrans { page } => Span {
            from: u64::from(page) * 2048 + at / 4,
            end: u64::from(page) * 2048 + (end + 3) / 4,
        },
        DumpOf::Offsets { page } => Span {
            from: u64::from(page) * 2048 + at / 4,
            end: u64::from(page) * 2048 + (end + 3) / 4,
        },
        DumpOf::Members { page } => Span {
            from: u64::from(page) * 1636 + 4 * (at / 20),
            end: u64::from(page) * 1636 + 4 * (end / 20 + 1),
        },
    }
}

/// The high halves of the ids that were given before this place.
fn id_epochs(places: &HistoryPlaces, place: u64) -> Span
    requires { place ≤ length places.now.events }
    ensures ids { (n : ℕ) → Contains (given (take place places.now.events)) n → (result.from ≤ n / 4294967296) × (n / 4294967296 < result.end) }
    ensures most { result.end ≤ 4294967296 }
{
    legal(places);
    let from = places.next_at(0).number();
    let to = places.next_at(place).number();
    Span {
        from: from / EPOCH,
        end: to / EPOCH + 1,
    }
}

/// The high halves of these multixacts.
fn multi_epochs(gens: &[GenMark]) -> Span
    requires rise { Rise gens.now }
    requires ends { AllByRecursion (λ (g : GenMark). g.offset ≤ g.end) gens.now }
    ensures multis { (g : GenMark) → Contains gens.now g → (result.from ≤ g.multi / 4294967296) × (g.multi / 4294967296 < result.end) }
    ensures most { result.end ≤ 4294967296 }
{
    if gens.is_empty() {
        return Span { from: 0, end: 0 };
    }
    Span {
        from: gens[0].multi / EPOCH,
        end: gens[gens.len() - 1].multi / EPOCH + 1,
    }
}

/// The high halves of the offsets of their members.
fn member_epochs(gens: &[GenMark]) -> Span
    requires rise { Rise gens.now }
    requires ends { AllByRecursion (λ (g : GenMark). g.offset ≤ g.end) gens.now }
    ensures offsets { (g : GenMark) (o : ℕ) → Contains gens.now g → g.offset ≤ o → o < g.end → (result.from ≤ o / 4294967296) × (o / 4294967296 < result.end) }
    ensures most { result.end ≤ 4294967296 }
{
    if gens.is_empty() {
        return Span { from: 0, end: 0 };
    }
    Span {
        from: gens[0].offset / EPOCH,
        end: gens[gens.len() - 1].end / EPOCH + 1,
    }
}

/// The high halves that the numbers of a page may have.
fn epochs_of(places: &HistoryPlaces, gens: &[GenMark], place: u64, what: DumpOf) -> Span
    ghost b: { Behind }
    requires events { places.now.events ≡ b.events }
    requires gens { AreGens b.ok b.multis gens.now }
    requires place { place ≡ b.place }
    requires within { b.place ≤ length b.events }
    ensures { AreEpochs b what result }
{
    match what {
        DumpOf::Log => Span { from: 0, end: 0 },
        DumpOf::Xact { .. } => id_epochs(places, place),
        DumpOf::Subtrans { .. } => id_epochs(places, place),
        DumpOf::Offsets { .. } => multi_epochs(gens),
        DumpOf::Members { .. } => member_epochs(gens),
    }
}

/// Whether the bytes show what they must of this number.
fn shows_number(
    places: &HistoryPlaces,
    ids: &[IdMark],
    place: u64,
    multis: &MultiPlaces,
    gens: &[GenMark],
    multi_place: u64,
    what: DumpOf,
    at: u64,
    bytes: &[u8],
    number: u64,
) -> bool
    ghost b: { Behind }
    requires events { places.now.events ≡ b.events }
    requires marks { AreMarks b.events ids.now }
    requires place { place ≡ b.place }
    requires within { b.place ≤ length b.events }
    requires multis { multis.now.events ≡ b.multis }
    requires gens { AreGens b.ok b.multis gens.now }
    requires multi_place { multi_place ≡ b.multi_place }
    ensures { IsTrue result ↔ ShowsNumber b what at bytes.now number }
{
    match what {
        DumpOf::Log => true,
        DumpOf::Xact { page } => shows_state(places, ids, place, page, at, bytes, number),
        DumpOf::Subtrans { page } => shows_parent(places, ids, place, page, at, bytes, number),
        DumpOf::Offsets { page } => shows_offset(gens, multi_place, page, at, bytes, number),
        DumpOf::Members { page } => shows_member(
            multis.events(),
            gens,
            multi_place,
            page,
            at,
            bytes,
            number,
        ),
    }
}

/// Whether they do of each number with this low half and such a high half.
fn shows_low(
    places: &HistoryPlaces,
    ids: &[IdMark],
    place: u64,
    multis: &MultiPlaces,
    gens: &[GenMark],
    multi_place: u64,
    what: DumpOf,
    at: u64,
    bytes: &[u8],
    epochs: Span,
    low: u64,
) -> bool
    ghost b: { Behind }
    requires events { places.now.events ≡ b.events }
    requires marks { AreMarks b.events ids.now }
    requires place { place ≡ b.place }
    requires within { b.place ≤ length b.events }
    requires multis { multis.now.events ≡ b.multis }
    requires gens { AreGens b.ok b.multis gens.now }
    requires multi_place { multi_place ≡ b.multi_place }
    requires most { epochs.end ≤ 4294967296 }
    requires low { low < 4294967296 }
    ensures { IsTrue result ↔ ShowsLow b what at bytes.now epochs low }
{
    for epoch in epochs.from..epochs.end {
        if !shows_number(
            places,
            ids,
            place,
            multis,
            gens,
            multi_place,
            what,
            at,
            bytes,
            epoch * EPOCH + low,
        ) {
            return false;
        }
    }
    true
}

/// Whether the bytes show what they must of each number that the life gave before these places.
pub fn shows_all(
    places: &HistoryPlaces,
    ids: &[IdMark],
    place: u64,
    multis: &MultiPlaces,
    gens: &[GenMark],
    multi_place: u64,
    what: DumpOf,
    at: u64,
    bytes: &[u8],
) -> bool
    ghost b: { Behind }
    requires events { places.now.events ≡ b.events }
    requires marks { AreMarks b.events ids.now }
    requires place { place ≡ b.place }
    requires within { b.place ≤ length b.events }
    requires multis { multis.now.events ≡ b.multis }
    requires gens { AreGens b.ok b.multis gens.now }
    requires multi_place { multi_place ≡ b.multi_place }
    requires size { length bytes.now < 2 ^ 32 }
    ensures { IsTrue result ↔ ((n : ℕ) → ShowsNumber b what at bytes.now n) }
{
    if at >= PAGE_SIZE {
        return true;
    }
    let end = least(at + bytes.len() as u64, PAGE_SIZE);
    let numbers = numbers_in(what, at, end);
    let epochs = epochs_of(places, gens, place, what);
    let last = least(numbers.end, EPOCH);
    for low in numbers.from..last {
        if !shows_low(
            places,
            ids,
            place,
            multis,
            gens,
            multi_place,
            what,
            at,
            bytes,
            epochs,
            low,
        ) {
            return false;
        }
    }
    true
}
