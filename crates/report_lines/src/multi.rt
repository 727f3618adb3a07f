//! The lines of multixact events.
ghost use Rattle.std.specs.Prelude.{◌≡◌, ◌↔◌, ◌<◌, ◌≤◌, ◌^◌, [], IfOk, IsTrue, drop, length};
ghost use Rattle.tx_events.specs.declared.multi.MultiEvent.{MultiEvent};
ghost use Rattle.report_words.specs.Words.{behind};
ghost use Rattle.report_words.specs.Reading.{Gives, IsOnly};
ghost use Rattle.report_words.specs.Fits.{AreNames, FitsMultiEvent};
ghost use Rattle.report_lines.specs.Events.{gen_at, multi_rest_at, multi_event_at};
ghost use Rattle.report_words.specs.Texts.{IsLineOf, multi_line};

use report_text::{Text, put_multi_event};
use report_words::{
    Unread, by_at, count_of, fits_by, full_multi, is_word, members_fit, multi_fits, number_at,
    read_members, word_at,
};
use std::alloc::Global;
use tx_events::{ByWords, FullMulti};
use tx_model::{By, MemberList, Memory, MultiEvent, NameList, Sequence};

#[tactic(auto, unfolding(crate::specs::Events::gen_at))]
fn gen_at(alloc: Global, by: By, multi: FullMulti, rest: &[u8]) -> Result<MultiEvent, Unread>
    ensures { Gives (λ x. x) result (gen_at by multi (behind rest.now)) }
{
    let (offset, rest) = number_at(rest)?;
    let mut members = Sequence::with_room(alloc, count_of(rest, b':'))?;
    let _rest = read_members(&mut members, rest)?;
    Ok(MultiEvent::Gen {
        by: ByWords::of(by),
        multi,
        offset,
        members: MemberList::of(alloc, members)?,
    })
}

#[tactic(auto, unfolding(crate::specs::Events::multi_rest_at))]
fn multi_rest_at(
    alloc: Global,
    word: &[u8],
    by: By,
    multi: FullMulti,
    rest: &[u8],
) -> Result<MultiEvent, Unread>
    ensures { Gives (λ x. x) result (multi_rest_at word.now by multi (behind rest.now)) }
{
    if is_word(word, b"gen") {
        return gen_at(alloc, by, multi, rest);
    }
    if is_word(word, b"hold") {
        return Ok(MultiEvent::Hold {
            by: ByWords::of(by),
            multi,
        });
    }
    if is_word(word, b"unhold") {
        return Ok(MultiEvent::Unhold {
            by: ByWords::of(by),
            multi,
        });
    }
    if is_word(word, b"raise") {
        let (offset, _rest) = number_at(rest)?;
        return Ok(MultiEvent::Raise {
            by: ByWords::of(by),
            multi,
            offset,
        });
    }
    Err(Unread::Form)
}

/// What a multixact event's line says; printed again it may differ.
#[tactic(auto, unfolding(crate::specs::Events::multi_event_at))]
fn multi_event_at(
    alloc: Global,
    names: &NameList,
    near: usize,
    rest: &[u8],
) -> Result<MultiEvent, Unread>
    requires few { length names.now < 2 ^ 32 }
    requires names { AreNames names.now }
    ensures { Gives (λ x. x) result (multi_event_at names.now (behind rest.now)) }
{
    let (word, rest) = word_at(rest)?;
    let (by, rest) = by_at(names, near, rest)?;
    let (multi, rest) = number_at(rest)?;
    let multi = full_multi(multi)?;
    multi_rest_at(alloc, word, by, multi, rest)
}

/// Whether the event can stand in a report with these names.
fn fits_multi_event(names: &NameList, event: &MultiEvent) -> bool
    ensures { IsTrue result ↔ FitsMultiEvent names.now event.now }
{
    match event {
        MultiEvent::Gen {
            by,
            multi,
            offset,
            members,
        } => {
            multi_fits(*multi);
            members_fit(members);
            let _offset = *offset;
            fits_by(names, by.get())
        }
        MultiEvent::Hold { by, multi } => {
            multi_fits(*multi);
            fits_by(names, by.get())
        }
        MultiEvent::Unhold { by, multi } => {
            multi_fits(*multi);
            fits_by(names, by.get())
        }
        MultiEvent::Raise { by, multi, offset } => {
            multi_fits(*multi);
            let _offset = *offset;
            fits_by(names, by.get())
        }
    }
}

/// Whether this is the line of the event, and the event fits.
fn is_multi_line(
    out: &mut Text,
    names: &NameList,
    event: &MultiEvent,
    line: &[u8],
) -> Result<bool, Memory>
    ensures { IfOk result (λ b. IsTrue b ↔ IsLineOf (FitsMultiEvent names.now) (multi_line names.now) line.now event.now) }
{
    if !fits_multi_event(names, event) {
        return Ok(false);
    }
    out.clear();
    put_multi_event(out, names, event)?;
    Ok(out.bytes() == line)
}

/// Reads the line of a multixact event. The bytes begin with the one before the line, and end with the line's end.
/// The session `near` is tried first.
pub fn read_multi_event(
    alloc: Global,
    out: &mut Text,
    names: &NameList,
    near: usize,
    bytes: &[u8],
) -> Result<MultiEvent, Unread>
    requires few { length names.now < 2 ^ 32 }
    requires names { AreNames names.now }
    requires some { 1 ≤ length bytes.now }
    ensures found { IfOk result (λ x. IsLineOf (FitsMultiEvent names.now) (multi_line names.now) (drop 1 bytes.now) x) }
    ensures only { (x : MultiEvent) → IsLineOf (FitsMultiEvent names.now) (multi_line names.now) (drop 1 bytes.now) x → IsOnly result x }
{
    let event = match multi_event_at(alloc, names, near, &bytes[..bytes.len() - 1]) {
        Ok(event) => event,
        Err(unread) => return Err(unread),
    };
    match is_multi_line(out, names, &event, &bytes[1..]) {
        Ok(true) => Ok(event),
        Ok(false) => Err(Unread::Form),
        Err(Memory) => Err(Unread::Memory),
    }
}
