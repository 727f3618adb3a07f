//! The snapshots of each line's command.
ghost use Rattle.std.specs.Prelude.{◌≡◌, ◌≤◌, false, [], IfOk, Some, length, map, slice_get, take};
ghost use Rattle.std.specs.List.{filter_map};
ghost use Rattle.tx_events.specs.Events.{by_of};
ghost use Rattle.place_columns.specs.Lined.{AreInOrder, bys_of, numbered};
ghost use Rattle.history_places.specs.SnapMarks.{AreSnapMarks};
ghost use Rattle.multi_rules.specs.Snapped.{AreNoneTaken, AreTakenByLines, LifeEvents, taken_at, taken_in};

use history_places::SnapMark;
use place_columns::{LineTable, OwnEvents};
use std::alloc::Global;
use tx_events::{FullXid, Memory};

/// A snapshot: the place of its event, and its xmax.
#[derive(Clone, Copy, Debug, PartialEq, Eq)]
pub struct Taken {
    pub place: u64,
    pub xmax: FullXid,
}

/// The snapshot that is taken at this place, if one is.
fn taken_at(snaps: &[Option<SnapMark>], place: u64) -> Option<Taken>
    ensures { result ≡ taken_at snaps.now place }
{
    match snaps.get(place as usize) {
        Some(Some(mark)) => Some(Taken {
            place,
            xmax: mark.xmax,
        }),
        _ => None,
    }
}

/// Room for the first one alone, since few commands take more.
fn make_first_room(taken: &mut Vec<Taken>) -> Result<(), Memory>
    ensures { taken.new.items ≡ taken.old.items }
{
    if taken.is_empty() {
        taken.reserve_exact(1)?;
    }
    Ok(())
}

/// Those that are taken at these places.
fn taken_of(alloc: Global, snaps: &[Option<SnapMark>], places: &[u64]) -> Result<Vec<Taken>, Memory>
    ensures { IfOk result (λ taken. taken.items ≡ filter_map (taken_at snaps.now) places.now) }
{
    let mut taken = Vec::new(alloc);
    for place in places {
        if let Some(t) = taken_at(snaps, *place) {
            make_first_room(&mut taken)?;
            taken.push(t)?;
        }
    }
    Ok(taken)
}

/// Whether a snapshot is taken at one of these places.
fn takes_any(snaps: &[Option<SnapMark>], places: &[u64]) -> bool
    ensures { result ≡ false → filter_map (taken_at snaps.now) places.now ≡ [] }
{
    for place in places {
        if taken_at(snaps, *place).is_some() {
            return true;
        }
    }
    false
}

/// Up to which of the first `count` lines commands took snapshots.
fn end_of_taken(own: &OwnEvents, snaps: &[Option<SnapMark>], count: u64) -> u64
    requires { count ≤ length own.now.steps }
    ensures within { result ≤ count }
    ensures none { AreNoneTaken snaps.now own.now.numbers result count }
{
    let mut end = count;
    while end > 0 {
        if takes_any(snaps, own.places(end - 1)) {
            return end;
        }
        end -= 1;
    }
    0
}

/// The snapshots of each line's command, in the order of the lines, up to the last line that took one. These are the events
/// of the whole history by their lines; the marks are of the front of it that is judged. Takes as many steps as there are
/// events and lines.
pub fn taken_by_lines(
    alloc: Global,
    table: &LineTable,
    own: &OwnEvents,
    snaps: &[Option<SnapMark>],
) -> Result<Vec<Vec<Taken>>, Memory>
    ghost life: { LifeEvents }
    requires own { own.now ≡ numbered table.now (map by_of life.all) }
    requires order { AreInOrder (bys_of table.now) }
    requires front { life.events ≡ take (length life.events) life.all }
    requires marks { AreSnapMarks life.first life.events life.told snaps.now }
    ensures { IfOk result (λ lists. AreTakenByLines life.first life.events (bys_of table.now) lists.items) }
{
    let end = end_of_taken(own, snaps, table.count());
    let mut lists = Vec::with_capacity(alloc, end as usize)?;
    for line in 0..end {
        lists.push(taken_of(alloc, snaps, own.places(line))?)?;
    }
    Ok(lists)
}

/// Those of this line's command.
pub fn taken_in(lists: &[Vec<Taken>], line: u64) -> &[Taken]
    ensures { result.now ≡ taken_in lists.now line }
{
    match lists.get(line as usize) {
        Some(list) => list.as_slice(),
        None => &[],
    }
}
