//! What is kept of an id.
ghost use Rattle.std.specs.Prelude.{◌≡◌, ◌≢◌, ◌++◌, IfNone, IfSome, OnOk, false, map};
ghost use Rattle.std.specs.List.{find};
ghost use Rattle.history_check.specs.GivenIds.{was_before};
ghost use Rattle.tx_events.specs.IdLists.{Ascending};
ghost use Rattle.history_places.specs.declared.mark.IdMark.{IdMark};
ghost use Rattle.history_places.specs.IdMarks.{IsMissing, IsPlaceOf, is_close, mark_ids, mark_of, noted, runs_at};

use tx_events::{Event, FullXid, Memory};

/// What a history says of an id that it gave.
#[derive(Clone, Copy, Debug, PartialEq, Eq)]
pub struct IdMark {
    pub id: FullXid,
    /// The id below which it was given. None of a top-level id.
    pub parent: Option<FullXid>,
    /// The place of the event that gave it.
    pub given: u64,
    /// The place of the event that closed it, if one did.
    pub closed: Option<u64>,
}

/// Where the id is kept. None where it isn't.
pub fn place_of(marks: &[IdMark], x: FullXid) -> Option<usize>
    requires { Ascending (mark_ids marks.now) }
    ensures some { IfSome result (IsPlaceOf marks.now x) }
    ensures none { IfNone result (IsMissing marks.now x) }
{
    marks.binary_search_by_key(&x, |m| m.id).ok()
}

/// The same, where the one at the place `near` is tried first.
pub fn place_near(marks: &[IdMark], near: usize, x: FullXid) -> Option<usize>
    requires { Ascending (mark_ids marks.now) }
    ensures some { IfSome result (IsPlaceOf marks.now x) }
    ensures none { IfNone result (IsMissing marks.now x) }
{
    if near < marks.len() && marks[near].id == x {
        return Some(near);
    }
    place_of(marks, x)
}

/// Whether it ran at this place, by its mark.
pub fn runs_at(mark: IdMark, place: u64) -> bool
    ensures { result ≡ runs_at mark place }
{
    if place <= mark.given {
        return false;
    }
    match mark.closed {
        Some(closed) => place <= closed,
        None => true,
    }
}

/// Whether the event closes the id by itself: a top's end, or the undo of a savepoint's id.
fn is_close(mark: IdMark, event: &Event) -> bool
    ensures { result ≡ is_close mark.parent mark.id event.now }
{
    match event {
        Event::Undo { id, .. } => mark.parent.is_some() && *id == mark.id,
        Event::Commit { top, .. } => mark.parent.is_none() && *top == mark.id,
        Event::Abort { top, .. } => mark.parent.is_none() && *top == mark.id,
        _ => false,
    }
}

/// What the event at this place leaves of a mark.
fn noted(mark: IdMark, place: u64, event: &Event) -> IdMark
    ensures { result ≡ noted place event.now mark }
{
    if mark.closed.is_none() && is_close(mark, event) {
        return IdMark {
            closed: Some(place),
            ..mark
        };
    }
    mark
}

/// Notes an event that closes no other id by itself. Mostly this one is the last.
fn note_close(marks: &mut [IdMark], place: u64, x: FullXid, event: &Event)
    requires order { Ascending (mark_ids marks.old) }
    requires alone { (m : IdMark) → m.id ≢ x → is_close m.parent m.id event.now ≡ false }
    ensures { marks.new ≡ map (noted place event.now) marks.old }
{
    if let Some(at) = place_near(marks, marks.len().saturating_sub(1), x) {
        marks[at] = noted(marks[at], place, event);
    }
}

/// Notes what the event at this place says by itself of ids.
pub fn note(marks: &mut Vec<IdMark>, place: u64, event: &Event) -> Result<(), Memory>
    requires { Ascending (mark_ids marks.old.items) }
    ensures { OnOk result (marks.new.items ≡ map (noted place event.now) marks.old.items ++ mark_of place event.now) }
{
    match event {
        Event::Id { id, .. } => marks.push(IdMark {
            id: *id,
            parent: None,
            given: place,
            closed: None,
        })?,
        Event::Sub { parent, id, .. } => marks.push(IdMark {
            id: *id,
            parent: Some(*parent),
            given: place,
            closed: None,
        })?,
        Event::Undo { id, .. } => note_close(marks, place, *id, event),
        Event::Commit { top, .. } => note_close(marks, place, *top, event),
        Event::Abort { top, .. } => note_close(marks, place, *top, event),
        _ => (),
    }
    Ok(())
}
