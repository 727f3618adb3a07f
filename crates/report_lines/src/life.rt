//! The lines that begin a life and its log.
ghost use Rattle.std.specs.Prelude.{◌≡◌, ◌↔◌, ◌<◌, ◌≤◌, ◌^◌, IfOk, IsTrue, drop, length};
ghost use Rattle.report_words.specs.Words.{behind};
ghost use Rattle.report_words.specs.Reading.{Gives, IsOnly};
ghost use Rattle.report_lines.specs.declared.life.Start.{Start};
ghost use Rattle.report_lines.specs.declared.life.LogHead.{LogHead};
ghost use Rattle.report_lines.specs.Records.{start_at, log_at};
ghost use Rattle.report_lines.specs.Fits.{FitsStart, FitsLog};
ghost use Rattle.report_words.specs.Texts.{IsLineOf};
ghost use Rattle.report_lines.specs.Texts.{start_line, log_line};

use report_text::{Text, put_life_line, put_log_line};
use report_words::{Unread, counters_at, counters_fit, named_at, word_at};
use tx_model::{Counters, Memory};

/// What the line that begins a life says behind the life's number: the number of its first record, and its counters.
#[derive(Clone, Copy)]
pub struct Start {
    pub from: u64,
    pub base: Counters,
}

/// What the line that begins a log says: the first record not known to be flushed, and the next gate.
#[derive(Clone, Copy)]
pub struct LogHead {
    pub flushed: u64,
    pub end: u64,
}

#[tactic(auto, unfolding(crate::specs::Records::start_at))]
fn start_at(rest: &[u8]) -> Result<Start, Unread>
    ensures { Gives (λ x. x) result (start_at (behind rest.now)) }
{
    let (_number, rest) = named_at(rest)?;
    let (from, rest) = named_at(rest)?;
    let base = counters_at(rest)?;
    Ok(Start { from, base })
}

/// Whether this is the line that begins the life of this number.
fn is_start_line(out: &mut Text, number: u64, start: &Start, line: &[u8]) -> Result<bool, Memory>
    ensures { IfOk result (λ b. IsTrue b ↔ IsLineOf FitsStart (start_line number) line.now start.now) }
{
    counters_fit(&start.base);
    out.clear();
    put_life_line(out, number, start.from, &start.base)?;
    Ok(out.bytes() == line)
}

/// Reads the line that begins the life of this number. The bytes begin with the one before the line, and end with the line's end.
pub fn read_start(out: &mut Text, number: u64, bytes: &[u8]) -> Result<Start, Unread>
    requires { 1 ≤ length bytes.now }
    ensures found { IfOk result (λ x. IsLineOf FitsStart (start_line number) (drop 1 bytes.now) x) }
    ensures only { (x : Start) → IsLineOf FitsStart (start_line number) (drop 1 bytes.now) x → IsOnly result x }
{
    let start = match start_at(&bytes[..bytes.len() - 1]) {
        Ok(start) => start,
        Err(unread) => return Err(unread),
    };
    match is_start_line(out, number, &start, &bytes[1..]) {
        Ok(true) => Ok(start),
        Ok(false) => Err(Unread::Form),
        Err(Memory) => Err(Unread::Memory),
    }
}

#[tactic(auto, unfolding(crate::specs::Records::log_at))]
fn log_at(rest: &[u8]) -> Result<LogHead, Unread>
    ensures { Gives (λ x. x) result (log_at (behind rest.now)) }
{
    let (_word, rest) = word_at(rest)?;
    let (flushed, rest) = named_at(rest)?;
    let (end, _rest) = named_at(rest)?;
    Ok(LogHead { flushed, end })
}

/// Whether this is the line that begins the log.
fn is_log_line(out: &mut Text, head: &LogHead, line: &[u8]) -> Result<bool, Memory>
    ensures { IfOk result (λ b. IsTrue b ↔ IsLineOf FitsLog log_line line.now head.now) }
{
    let _ends = (head.flushed, head.end);
    out.clear();
    put_log_line(out, head.flushed, head.end)?;
    Ok(out.bytes() == line)
}

/// Reads the line that begins a log. The bytes begin with the one before the line, and end with the line's end.
pub fn read_log_head(out: &mut Text, bytes: &[u8]) -> Result<LogHead, Unread>
    requires { 1 ≤ length bytes.now }
    ensures found { IfOk result (λ x. IsLineOf FitsLog log_line (drop 1 bytes.now) x) }
    ensures only { (x : LogHead) → IsLineOf FitsLog log_line (drop 1 bytes.now) x → IsOnly result x }
{
    let head = match log_at(&bytes[..bytes.len() - 1]) {
        Ok(head) => head,
        Err(unread) => return Err(unread),
    };
    match is_log_line(out, &head, &bytes[1..]) {
        Ok(true) => Ok(head),
        Ok(false) => Err(Unread::Form),
        Err(Memory) => Err(Unread::Memory),
    }
}
