//! The lines of checkpoints and dumps, and those that begin rounds.
ghost use Rattle.std.specs.Prelude.{◌≡◌, ◌↔◌, ◌+◌, ◌<◌, ◌≤◌, ◌^◌, IfOk, IsTrue, drop, length};
ghost use Rattle.std.specs.Str.{bytes_eq};
ghost use Rattle.report_text.specs.ReportText.{round_line, step_text};
ghost use Rattle.tx_model.specs.declared.report.Step.{Step};
ghost use Rattle.report_words.specs.Words.{behind};
ghost use Rattle.report_words.specs.Reading.{Gives, IsOnly};
ghost use Rattle.report_words.specs.Fits.{AreNames};
ghost use Rattle.report_lines.specs.Steps.{page_of, dumped_at, dump_at, checkpoint_at, step_at};
ghost use Rattle.report_lines.specs.Fits.{FitsDump, FitsStep};
ghost use Rattle.report_words.specs.Texts.{IsLineOf};

use report_text::{Text, put_round_line, put_step};
use report_words::{
    Unread, checkpoint_reply_at, dump_reply_at, fits_checkpoint_reply, fits_dump_reply, is_word,
    number_at, small, word_at,
};
use std::alloc::Global;
use tx_model::{BoxedReply, DumpOf, Memory, NameList, Step};

#[tactic(auto, unfolding(crate::specs::Steps::page_of))]
fn page_of(word: &[u8], page: u32) -> Option<DumpOf>
    ensures { result ≡ page_of word.now page }
{
    if is_word(word, b"xact") {
        return Some(DumpOf::Xact { page });
    }
    if is_word(word, b"subtrans") {
        return Some(DumpOf::Subtrans { page });
    }
    if is_word(word, b"offsets") {
        return Some(DumpOf::Offsets { page });
    }
    if is_word(word, b"members") {
        return Some(DumpOf::Members { page });
    }
    None
}

#[tactic(auto, unfolding(crate::specs::Steps::dumped_at))]
fn dumped_at(rest: &[u8]) -> Result<(DumpOf, &[u8]), Unread>
    ensures { Gives (λ x. (x.0, behind x.1.now)) result (dumped_at (behind rest.now)) }
{
    let (word, rest) = word_at(rest)?;
    if is_word(word, b"log") {
        return Ok((DumpOf::Log, rest));
    }
    let (page, rest) = number_at(rest)?;
    let page = small(page)?;
    match page_of(word, page) {
        Some(what) => Ok((what, rest)),
        None => Err(Unread::Form),
    }
}

#[tactic(auto, unfolding(crate::specs::Steps::dump_at))]
fn dump_at(alloc: Global, rest: &[u8]) -> Result<Step, Unread>
    ensures { Gives (λ x. x) result (dump_at (behind rest.now)) }
{
    let (what, rest) = dumped_at(rest)?;
    let (at, rest) = number_at(rest)?;
    let (length, rest) = number_at(rest)?;
    let length = small(length)?;
    let (_arrow, rest) = word_at(rest)?;
    let reply = BoxedReply::of(alloc, dump_reply_at(alloc, rest)?)?;
    Ok(Step::Dump {
        what,
        at,
        length,
        reply,
    })
}

#[tactic(auto, unfolding(crate::specs::Steps::checkpoint_at))]
fn checkpoint_at(alloc: Global, names: &NameList, rest: &[u8]) -> Result<Step, Unread>
    requires { length names.now < 2 ^ 32 }
    ensures { Gives (λ x. x) result (checkpoint_at names.now (behind rest.now)) }
{
    let (_arrow, rest) = word_at(rest)?;
    let reply = BoxedReply::of(alloc, checkpoint_reply_at(names, rest)?)?;
    Ok(Step::Checkpoint { reply })
}

/// What a step's line says; printed again it may differ.
#[tactic(auto, unfolding(crate::specs::Steps::step_at))]
fn step_at(alloc: Global, names: &NameList, rest: &[u8]) -> Result<Step, Unread>
    requires { length names.now < 2 ^ 32 }
    ensures { Gives (λ x. x) result (step_at names.now (behind rest.now)) }
{
    let (word, rest) = word_at(rest)?;
    if is_word(word, b"checkpoint") {
        return checkpoint_at(alloc, names, rest);
    }
    if is_word(word, b"dump") {
        return dump_at(alloc, rest);
    }
    Err(Unread::Form)
}

fn fits_page_range(at: u64, length: u32) -> bool
    ensures { IsTrue result ↔ (1 ≤ length) × (length ≤ 64) × (at + length ≤ 8192) }
{
    1 <= length && length <= 64 && at <= 8192 && at + u64::from(length) <= 8192
}

/// Whether a script can have the dump.
fn fits_dump(what: DumpOf, at: u64, length: u32) -> bool
    ensures { IsTrue result ↔ FitsDump what at length }
{
    match what {
        DumpOf::Log => at <= 1 << 40 && 1 <= length && length <= 64,
        _ => fits_page_range(at, length),
    }
}

/// Whether the step can stand in a report with these names, in one line.
fn fits_step(names: &NameList, step: &Step) -> bool
    ensures { IsTrue result ↔ FitsStep names.now step.now }
{
    match step {
        Step::Round { .. } => false,
        Step::Checkpoint { reply } => fits_checkpoint_reply(names, reply.reply()),
        Step::Dump {
            what,
            at,
            length,
            reply,
        } => fits_dump(*what, *at, *length) && fits_dump_reply(reply.reply()),
    }
}

/// Whether this is the line of the step, and it fits.
fn is_step_line(out: &mut Text, names: &NameList, step: &Step, line: &[u8]) -> Result<bool, Memory>
    ensures { IfOk result (λ b. IsTrue b ↔ IsLineOf (FitsStep names.now) (step_text names.now) line.now step.now) }
{
    if !fits_step(names, step) {
        return Ok(false);
    }
    out.clear();
    put_step(out, names, step)?;
    Ok(out.bytes() == line)
}

/// Reads the line of a checkpoint or a dump. The bytes begin with the one before the line, and end with the line's end.
pub fn read_step(
    alloc: Global,
    out: &mut Text,
    names: &NameList,
    bytes: &[u8],
) -> Result<Step, Unread>
    requires few { length names.now < 2 ^ 32 }
    requires names { AreNames names.now }
    requires some { 1 ≤ length bytes.now }
    ensures found { IfOk result (λ x. IsLineOf (FitsStep names.now) (step_text names.now) (drop 1 bytes.now) x) }
    ensures only { (x : Step) → IsLineOf (FitsStep names.now) (step_text names.now) (drop 1 bytes.now) x → IsOnly result x }
{
    let step = match step_at(alloc, names, &bytes[..bytes.len() - 1]) {
        Ok(step) => step,
        Err(unread) => return Err(unread),
    };
    match is_step_line(out, names, &step, &bytes[1..]) {
        Ok(true) => Ok(step),
        Ok(false) => Err(Unread::Form),
        Err(Memory) => Err(Unread::Memory),
    }
}

/// Whether the line begins the round of this number.
pub fn is_round(out: &mut Text, number: u64, line: &[u8]) -> Result<bool, Memory>
    ensures { IfOk result (λ b. b ≡ bytes_eq (round_line number) line.now) }
{
    out.clear();
    put_round_line(out, number)?;
    Ok(out.bytes() == line)
}
