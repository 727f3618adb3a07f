//! The text of a life, from its front to its end, and how it is written.
ghost use Rattle.std.specs.Prelude.{◌≡◌, ◌++◌, ℕ, IfOk, IfSome, IsSome, OnErr, OnOk, take};
ghost use Rattle.std.specs.List.{flat_map};
ghost use Rattle.std.specs.Io.KnownBytes.{Appends};
ghost use Rattle.tx_events.specs.Ids.{IsFullMulti};
ghost use Rattle.tx_io.specs.Causes.{HasCause};
ghost use Rattle.run_law.specs.Lives.{IsFrontOf, last_text};

use crate::Steps;
use report_text::{Text, begin_report, put_life_line};
use std::alloc::Global;
use text_pieces::Pieces;
use tx_io::{Failed, Sink, write_all};
use tx_model::{Counters, How, Memory};

// A part of a life's text up to so many bytes is copied behind the others, since a call of a sink may be a call of the system.
const SHORT: usize = 4_096;

/// The text of a life: what stands before its steps, these, its histories, and its log and what stands behind that.
#[derive(Drop)]
pub struct LifeText {
    pub front: Text,
    pub steps: Steps,
    pub histories: Pieces,
    pub log: Pieces,
}

/// The next multixact and the oldest one of counters are numbers of multixacts.
pub fn have_full_multis(base: &Counters)
    ensures { IsFullMulti base.now.multi × IsFullMulti base.now.oldest_multi }
{
    let _next = base.multi.number();
    let _oldest = base.oldest_multi.number();
}

/// What stands before the steps of the life of this number, the first one of which begins the report.
fn front_of(alloc: Global, number: u64, from: u64, base: &Counters) -> Result<Text, Memory>
    ensures front { IfOk result (λ text. IsFrontOf number from base.now text) }
{
    let mut text = Text::new(alloc);
    if number == 1 {
        begin_report(&mut text, from, base)?;
    } else {
        put_life_line(&mut text, number, from, base)?;
    }
    Ok(text)
}

/// The text of the life of this number, of which these are the texts of its steps, of its histories and of its log: with its
/// front, and behind the last life the report's end.
#[inline(always)]
pub fn whole_text(
    alloc: Global,
    number: u64,
    from: u64,
    base: &Counters,
    steps: Steps,
    histories: Pieces,
    log: Pieces,
    crash: Option<How>,
) -> Result<LifeText, Memory>
    ensures front { IfOk result (λ text. IsFrontOf number from base.now text.front) }
    ensures steps { IfOk result (λ text. text.steps ≡ steps) }
    ensures histories { IfOk result (λ text. text.histories ≡ histories) }
    ensures log { IfOk result (λ text. text.log ≡ log ++ last_text crash) }
    ensures multis { IsFullMulti base.now.multi × IsFullMulti base.now.oldest_multi }
{
    have_full_multis(base);
    let mut log = log;
    if crash.is_none() {
        log.put_word(b"end")?;
    }
    let front = front_of(alloc, number, from, base)?;
    Ok(LifeText {
        front,
        steps,
        histories,
        log,
    })
}

// Texts, one behind another, or a front of that.
fn put_texts<K: Sink>(sink: &mut K, texts: &[Text]) -> Result<(), Failed>
    ensures ok { OnOk result (Appends (K.held sink.old) (K.held sink.new) (flat_map (λ text. text) texts.now)) }
    ensures front { OnErr result ((n : ℕ)
        × Appends (K.held sink.old) (K.held sink.new) (take n (flat_map (λ text. text) texts.now))) }
    ensures cause { HasCause (K.faults sink.old) (K.faults sink.new) result }
{
    for text in texts {
        write_all(sink, text.bytes())?;
    }
    Ok(())
}

// A text in pieces, or a front of it.
fn put_pieces<K: Sink>(sink: &mut K, pieces: &Pieces) -> Result<(), Failed>
    ensures ok { OnOk result (Appends (K.held sink.old) (K.held sink.new) pieces.now) }
    ensures front { OnErr result ((n : ℕ) × Appends (K.held sink.old) (K.held sink.new) (take n pieces.now)) }
    ensures cause { HasCause (K.faults sink.old) (K.faults sink.new) result }
{
    let (front, last) = pieces.parts();
    put_texts(sink, front)?;
    write_all(sink, last.bytes())
}

// One text behind the other, or a front of both.
fn put_both<K: Sink>(sink: &mut K, first: &Pieces, second: &Pieces) -> Result<(), Failed>
    ensures ok { OnOk result (Appends (K.held sink.old) (K.held sink.new) (first.now ++ second.now)) }
    ensures front { OnErr result ((n : ℕ)
        × Appends (K.held sink.old) (K.held sink.new) (take n (first.now ++ second.now))) }
    ensures cause { HasCause (K.faults sink.old) (K.faults sink.new) result }
{
    put_pieces(sink, first)?;
    put_pieces(sink, second)
}

// What stands behind the front of a life, or a front of that.
fn put_behind<K: Sink>(
    sink: &mut K,
    steps: &Steps,
    histories: &Pieces,
    log: &Pieces,
) -> Result<(), Failed>
    ensures ok { OnOk result (Appends (K.held sink.old) (K.held sink.new) (steps.now ++ (histories.now ++ log.now))) }
    ensures front { OnErr result ((n : ℕ)
        × Appends (K.held sink.old) (K.held sink.new) (take n (steps.now ++ (histories.now ++ log.now)))) }
    ensures cause { HasCause (K.faults sink.old) (K.faults sink.new) result }
{
    steps.write(sink)?;
    put_both(sink, histories, log)
}

// Writes the text of a life part by part, or a front of it.
fn put_parts<K: Sink>(sink: &mut K, text: &LifeText) -> Result<(), Failed>
    ensures ok { OnOk result (Appends (K.held sink.old) (K.held sink.new) (text.now.front
        ++ (text.now.steps ++ (text.now.histories ++ text.now.log)))) }
    ensures front { OnErr result ((n : ℕ)
        × Appends (K.held sink.old) (K.held sink.new) (take n (text.now.front
        ++ (text.now.steps ++ (text.now.histories ++ text.now.log))))) }
    ensures cause { HasCause (K.faults sink.old) (K.faults sink.new) result }
{
    write_all(sink, text.front.bytes())?;
    put_behind(sink, &text.steps, &text.histories, &text.log)
}

// A text that stands in one piece.
fn one_piece(pieces: &Pieces) -> Option<&[u8]>
    ensures { IfSome result (λ text. text.now ≡ pieces.now) }
{
    let (front, last) = pieces.parts();
    if !front.is_empty() {
        return None;
    }
    Some(last.bytes())
}

// Adds a piece to a text, if it is short and there is memory for it.
fn add_short(text: &mut Text, piece: &[u8]) -> Option<()>
    ensures { IsSome result → text.new ≡ text.old ++ piece.now }
{
    if piece.len() > SHORT {
        return None;
    }
    text.put(piece).ok()
}

// The parts of a short text, joined. There are none where a part is long, or where there is no memory.
fn joined(alloc: Global, text: &LifeText) -> Option<Text>
    ensures { IfSome result (λ whole. whole ≡ text.now.front ++ (text.now.steps ++ (text.now.histories ++ text.now.log))) }
{
    let mut whole = Text::new(alloc);
    add_short(&mut whole, text.front.bytes())?;
    add_short(&mut whole, text.steps.plain()?)?;
    add_short(&mut whole, one_piece(&text.histories)?)?;
    add_short(&mut whole, one_piece(&text.log)?)?;
    Some(whole)
}

/// Writes the text of a life, or a front of it. The sink gets a short one in one piece. The memory that this takes it can do
/// without.
#[inline(always)]
pub fn put_life<K: Sink>(alloc: Global, sink: &mut K, text: &LifeText) -> Result<(), Failed>
    ensures ok { OnOk result (Appends (K.held sink.old) (K.held sink.new) (text.now.front
        ++ (text.now.steps ++ (text.now.histories ++ text.now.log)))) }
    ensures front { OnErr result ((n : ℕ)
        × Appends (K.held sink.old) (K.held sink.new) (take n (text.now.front
        ++ (text.now.steps ++ (text.now.histories ++ text.now.log))))) }
    ensures cause { HasCause (K.faults sink.old) (K.faults sink.new) result }
{
    match joined(alloc, text) {
        Some(whole) => write_all(sink, whole.bytes()),
        None => put_parts(sink, text),
    }
}
