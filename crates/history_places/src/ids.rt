//! Where each id of a history was given and closed.
ghost use Rattle.std.specs.Prelude.{◌≡◌, ◌==◌, ◌≤◌, List, IfOk, length, take};
ghost use Rattle.std.specs.List.{find};
ghost use Rattle.tx_events.specs.declared.event.Event.{Event};
ghost use Rattle.tx_events.specs.IdLists.{Ascending, has};
ghost use Rattle.tx_events.specs.Running.{running};
ghost use Rattle.history_places.specs.declared.mark.IdMark.{IdMark};
ghost use Rattle.history_places.specs.IdMarks.{AreMarks, AreNoted, closed_above, closed_in, earlier, mark_ids};

use crate::mark::{IdMark, note, place_near, place_of, runs_at};
use history_check::HistoryReplay;
use std::alloc::Global;
use tx_events::{FullXid, Memory};

/// What each event says by itself: of a top-level id where it ended, of a savepoint's where it was undone.
fn noted_ids(alloc: Global, replay: &HistoryReplay) -> Result<Vec<IdMark>, Memory>
    ensures { IfOk result (λ marks. AreNoted replay.now.events marks.items) }
{
    let events = replay.events();
    let mut marks = Vec::new(alloc);
    for (place, event) in events.iter().enumerate() {
        note(&mut marks, place as u64, event)?;
    }
    Ok(marks)
}

/// The lesser place.
fn earlier(one: Option<u64>, other: Option<u64>) -> Option<u64>
    ensures { result ≡ earlier one other }
{
    match one {
        None => other,
        Some(a) => match other {
            None => one,
            Some(b) => Some(a.min(b)),
        },
    }
}

/// Where the id was closed. Mostly it is the last one.
fn closed_of(marks: &[IdMark], x: FullXid) -> Option<u64>
    requires { Ascending (mark_ids marks.now) }
    ensures { result ≡ closed_in (find (λ (m : IdMark). m.id == x) marks.now) }
{
    match place_near(marks, marks.len().saturating_sub(1), x) {
        Some(at) => marks[at].closed,
        None => None,
    }
}

/// Where the parent was closed.
fn closed_above(marks: &[IdMark], parent: Option<FullXid>) -> Option<u64>
    requires { Ascending (mark_ids marks.now) }
    ensures { result ≡ closed_above marks.now parent }
{
    match parent {
        Some(x) => closed_of(marks, x),
        None => None,
    }
}

/// The marks of all ids that the replay's history gave, ascending. Takes the number of its events times the logarithm of
/// that of its ids. An id is closed with its parent, if not before.
pub fn id_marks(alloc: Global, replay: &HistoryReplay) -> Result<Vec<IdMark>, Memory>
    ensures { IfOk result (λ marks. AreMarks replay.now.events marks.items) }
{
    let _legal = replay.events();
    let mut marks = noted_ids(alloc, replay)?;
    for at in 0..marks.len() {
        let mark = marks[at];
        let above = closed_above(&marks.as_slice()[..at], mark.parent);
        marks[at] = IdMark {
            closed: earlier(mark.closed, above),
            ..mark
        };
    }
    Ok(marks)
}

/// Whether the id was running at this place of the history that the marks are of. Takes a binary search.
pub fn was_running(marks: &[IdMark], place: u64, x: FullXid) -> bool
    requires { Ascending (mark_ids marks.now) }
    ensures { (h : List Event) → AreMarks h marks.now → place ≤ length h → result ≡ has (running (take place h)) x }
{
    match place_of(marks, x) {
        Some(at) => runs_at(marks[at], place),
        None => false,
    }
}
