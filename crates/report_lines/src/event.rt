//! The lines of a history.
ghost use Rattle.std.specs.Prelude.{◌≡◌, ◌↔◌, ◌<◌, ◌≤◌, ◌^◌, IfOk, IsTrue, drop, length};
ghost use Rattle.tx_events.specs.declared.event.Event.{Event};
ghost use Rattle.report_words.specs.Words.{behind};
ghost use Rattle.report_words.specs.Reading.{Gives, IsOnly};
ghost use Rattle.report_words.specs.Fits.{AreNames, FitsEvent};
ghost use Rattle.report_lines.specs.Events.{id_event, event_rest_at, event_at};
ghost use Rattle.report_lines.specs.Plain.{plain_event};
ghost use Rattle.report_words.specs.Texts.{IsLineOf, event_line};

use report_text::{Text, put_event};
use report_words::{
    Unread, by_at, fits_by, full_id, id_fits, is_word, name_of, number_at, word_at,
};
use tx_events::{ByWords, FullXid};
use tx_model::{By, Event, Memory, NameList, is_name};

/// An event that names one id that was given before.
#[tactic(auto, unfolding(crate::specs::Plain::plain_event))]
fn plain_event(word: &[u8], by: By, id: FullXid) -> Option<Event>
    ensures { result ≡ plain_event word.now by id }
{
    if is_word(word, b"undo") {
        return Some(Event::Undo {
            by: ByWords::of(by),
            id,
        });
    }
    if is_word(word, b"commit") {
        return Some(Event::Commit {
            by: ByWords::of(by),
            top: id,
        });
    }
    if is_word(word, b"abort") {
        return Some(Event::Abort {
            by: ByWords::of(by),
            top: id,
        });
    }
    if is_word(word, b"oldest") {
        return Some(Event::Oldest {
            by: ByWords::of(by),
            oldest: id,
        });
    }
    if is_word(word, b"ask") {
        return Some(Event::Ask {
            by: ByWords::of(by),
            id,
        });
    }
    None
}

/// An event that names an id first.
#[tactic(auto, unfolding(crate::specs::Events::id_event, crate::specs::Plain::plain_event))]
fn id_event(word: &[u8], by: By, id: FullXid, rest: &[u8]) -> Result<Event, Unread>
    ensures { Gives (λ x. x) result (id_event word.now by id (behind rest.now)) }
{
    if is_word(word, b"id") {
        return Ok(Event::Id {
            by: ByWords::of(by),
            id,
        });
    }
    if is_word(word, b"sub") {
        let (below, _rest) = number_at(rest)?;
        let below = full_id(below)?;
        return Ok(Event::Sub {
            by: ByWords::of(by),
            parent: id,
            id: below,
        });
    }
    match plain_event(word, by, id) {
        Some(event) => Ok(event),
        None => Err(Unread::Form),
    }
}

#[tactic(auto, unfolding(crate::specs::Events::event_rest_at))]
fn event_rest_at(word: &[u8], by: By, rest: &[u8]) -> Result<Event, Unread>
    ensures { Gives (λ x. x) result (event_rest_at word.now by (behind rest.now)) }
{
    if is_word(word, b"snap") {
        let (name, _rest) = word_at(rest)?;
        let name = name_of(name)?;
        return Ok(Event::Snap {
            by: ByWords::of(by),
            name,
        });
    }
    if is_word(word, b"drop") {
        let (name, _rest) = word_at(rest)?;
        let name = name_of(name)?;
        return Ok(Event::SnapDrop {
            by: ByWords::of(by),
            name,
        });
    }
    let (id, rest) = number_at(rest)?;
    let id = full_id(id)?;
    id_event(word, by, id, rest)
}

/// What an event's line says; printed again it may differ.
#[tactic(auto, unfolding(crate::specs::Events::event_at))]
fn event_at(names: &NameList, near: usize, rest: &[u8]) -> Result<Event, Unread>
    requires few { length names.now < 2 ^ 32 }
    requires names { AreNames names.now }
    ensures { Gives (λ x. x) result (event_at names.now (behind rest.now)) }
{
    let (word, rest) = word_at(rest)?;
    let (by, rest) = by_at(names, near, rest)?;
    event_rest_at(word, by, rest)
}

/// Whether the event can stand in a report with these names.
fn fits_event(names: &NameList, event: &Event) -> bool
    ensures { IsTrue result ↔ FitsEvent names.now event.now }
{
    match event {
        Event::Id { by, id } => {
            id_fits(*id);
            fits_by(names, by.get())
        }
        Event::Sub { by, parent, id } => {
            id_fits(*parent);
            id_fits(*id);
            fits_by(names, by.get())
        }
        Event::Undo { by, id } => {
            id_fits(*id);
            fits_by(names, by.get())
        }
        Event::Commit { by, top } => {
            id_fits(*top);
            fits_by(names, by.get())
        }
        Event::Abort { by, top } => {
            id_fits(*top);
            fits_by(names, by.get())
        }
        Event::Snap { by, name } => fits_by(names, by.get()) && is_name(name.items()),
        Event::SnapDrop { by, name } => fits_by(names, by.get()) && is_name(name.items()),
        Event::Oldest { by, oldest } => {
            id_fits(*oldest);
            fits_by(names, by.get())
        }
        Event::Ask { by, id } => {
            id_fits(*id);
            fits_by(names, by.get())
        }
    }
}

/// Whether this is the line of the event, and the event fits.
fn is_event_line(
    out: &mut Text,
    names: &NameList,
    event: &Event,
    line: &[u8],
) -> Result<bool, Memory>
    ensures { IfOk result (λ b. IsTrue b ↔ IsLineOf (FitsEvent names.now) (event_line names.now) line.now event.now) }
{
    if !fits_event(names, event) {
        return Ok(false);
    }
    out.clear();
    put_event(out, names, event)?;
    Ok(out.bytes() == line)
}

/// Reads the line of an event. The bytes begin with the one before the line, and end with the line's end.
/// The session `near` is tried first.
pub fn read_event(
    out: &mut Text,
    names: &NameList,
    near: usize,
    bytes: &[u8],
) -> Result<Event, Unread>
    requires few { length names.now < 2 ^ 32 }
    requires names { AreNames names.now }
    requires some { 1 ≤ length bytes.now }
    ensures found { IfOk result (λ x. IsLineOf (FitsEvent names.now) (event_line names.now) (drop 1 bytes.now) x) }
    ensures only { (x : Event) → IsLineOf (FitsEvent names.now) (event_line names.now) (drop 1 bytes.now) x → IsOnly result x }
{
    let event = match event_at(names, near, &bytes[..bytes.len() - 1]) {
        Ok(event) => event,
        Err(unread) => return Err(unread),
    };
    match is_event_line(out, names, &event, &bytes[1..]) {
        Ok(true) => Ok(event),
        Ok(false) => Err(Unread::Form),
        Err(Memory) => Err(Unread::Memory),
    }
}
