//! The lines of a history and of its multixacts.
ghost use Rattle.std.specs.Prelude.{◌≡◌, [], ◌∷◌, ◌++◌, OnOk};
ghost use Rattle.std.specs.List.{flat_map};
ghost use Rattle.std.specs.Fmt.{decimal};
ghost use Rattle.report_text.specs.Words.{more, line_text};
ghost use Rattle.report_text.specs.EventText.{by_words, event_word, event_rest, event_words, multi_event_word, multi_event_rest, multi_event_words};

use crate::member::put_members;
use crate::text::{Text, name_of};
use tx_model::{By, Event, Memory, MultiEvent, NameList};

/// The session and the number of a command, each behind a space.
#[tactic(auto, using(crate::proofs::MoreWords::then_more))]
fn put_by(out: &mut Text, names: &NameList, by: By) -> Result<(), Memory>
    ensures ok { OnOk result (out.new ≡ out.old ++ more (by_words names.now by)) }
{
    out.name(name_of(names, by.session))?;
    out.number(by.command)
}

#[tactic(auto, unfolding(crate::specs::EventText::event_word))]
fn put_event_word(out: &mut Text, event: &Event) -> Result<(), Memory>
    ensures ok { OnOk result (out.new ≡ out.old ++ event_word event.now) }
{
    match event {
        Event::Id { .. } => out.put(b"id"),
        Event::Sub { .. } => out.put(b"sub"),
        Event::Undo { .. } => out.put(b"undo"),
        Event::Commit { .. } => out.put(b"commit"),
        Event::Abort { .. } => out.put(b"abort"),
        Event::Snap { .. } => out.put(b"snap"),
        Event::SnapDrop { .. } => out.put(b"drop"),
        Event::Oldest { .. } => out.put(b"oldest"),
        Event::Ask { .. } => out.put(b"ask"),
    }
}

#[tactic(auto, using(crate::proofs::MoreWords::then_more))]
fn put_event_rest(out: &mut Text, event: &Event) -> Result<(), Memory>
    ensures ok { OnOk result (out.new ≡ out.old ++ more (event_rest event.now)) }
{
    match event {
        Event::Id { id, .. } => out.number(id.number()),
        Event::Sub { parent, id, .. } => {
            out.number(parent.number())?;
            out.number(id.number())
        }
        Event::Undo { id, .. } => out.number(id.number()),
        Event::Commit { top, .. } => out.number(top.number()),
        Event::Abort { top, .. } => out.number(top.number()),
        Event::Snap { name, .. } => out.name(name.items()),
        Event::SnapDrop { name, .. } => out.name(name.items()),
        Event::Oldest { oldest, .. } => out.number(oldest.number()),
        Event::Ask { id, .. } => out.number(id.number()),
    }
}

/// The line of an event.
#[tactic(auto, using(crate::proofs::MoreWords::then_more, crate::proofs::MoreWords::then_line))]
pub fn put_event(out: &mut Text, names: &NameList, event: &Event) -> Result<(), Memory>
    ensures ok { OnOk result (out.new ≡ out.old ++ line_text (event_words names.now event.now)) }
{
    put_event_word(out, event)?;
    put_by(out, names, event.by())?;
    put_event_rest(out, event)?;
    out.end_line()
}

/// A line for each event.
#[tactic(auto, using(crate::proofs::MoreWords::then_one_item, crate::proofs::MoreWords::no_item))]
pub fn put_events(out: &mut Text, names: &NameList, events: &[Event]) -> Result<(), Memory>
    ensures ok { OnOk result (out.new ≡ out.old ++ flat_map (λ e. line_text (event_words names.now e)) events.now) }
{
    for event in events {
        put_event(out, names, event)?;
    }
    Ok(())
}

#[tactic(auto, unfolding(crate::specs::EventText::multi_event_word))]
fn put_multi_event_word(out: &mut Text, event: &MultiEvent) -> Result<(), Memory>
    ensures ok { OnOk result (out.new ≡ out.old ++ multi_event_word event.now) }
{
    match event {
        MultiEvent::Gen { .. } => out.put(b"gen"),
        MultiEvent::Hold { .. } => out.put(b"hold"),
        MultiEvent::Unhold { .. } => out.put(b"unhold"),
        MultiEvent::Raise { .. } => out.put(b"raise"),
    }
}

#[tactic(auto, using(crate::proofs::MoreWords::then_more))]
fn put_multi_event_rest(out: &mut Text, event: &MultiEvent) -> Result<(), Memory>
    ensures ok { OnOk result (out.new ≡ out.old ++ more (multi_event_rest event.now)) }
{
    match event {
        MultiEvent::Gen {
            multi,
            offset,
            members,
            ..
        } => {
            out.number(multi.number())?;
            out.number(*offset)?;
            put_members(out, members)
        }
        MultiEvent::Hold { multi, .. } => out.number(multi.number()),
        MultiEvent::Unhold { multi, .. } => out.number(multi.number()),
        MultiEvent::Raise { multi, offset, .. } => {
            out.number(multi.number())?;
            out.number(*offset)
        }
    }
}

/// The line of a multixact event.
#[tactic(auto, using(crate::proofs::MoreWords::then_more, crate::proofs::MoreWords::then_line))]
pub fn put_multi_event(out: &mut Text, names: &NameList, event: &MultiEvent) -> Result<(), Memory>
    ensures ok { OnOk result (out.new ≡ out.old ++ line_text (multi_event_words names.now event.now)) }
{
    put_multi_event_word(out, event)?;
    put_by(out, names, event.by())?;
    put_multi_event_rest(out, event)?;
    out.end_line()
}

/// A line for each multixact event.
#[tactic(auto, using(crate::proofs::MoreWords::then_one_item, crate::proofs::MoreWords::no_item))]
pub fn put_multi_events(
    out: &mut Text,
    names: &NameList,
    events: &[MultiEvent],
) -> Result<(), Memory>
    ensures ok { OnOk result (out.new ≡ out.old ++ flat_map (λ e. line_text (multi_event_words names.now e)) events.now) }
{
    for event in events {
        put_multi_event(out, names, event)?;
    }
    Ok(())
}
