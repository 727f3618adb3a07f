//! The whole report.
ghost use Rattle.std.specs.Prelude.{◌≡◌, ◌↔◌, ◌≤◌, ◌++◌, drop, length, IfErr, IfNone, IfOk, IfSome, IsTrue};
ghost use Rattle.report_read.specs.declared.told.Stage.TheVariants as stages;
ghost use Rattle.tx_model.specs.declared.report.Report.{Report};
ghost use Rattle.report_text.specs.ReportText.{report_text, title_text};
ghost use Rattle.report_lines.specs.Front.{first_line};
ghost use Rattle.report_read.specs.Reports.{IsRead, IsReport, IsWrongLine};

use crate::take::take;
use crate::told::{Stage, Told};
use report_lines::{is_title, next_line};
use report_text::Text;
use report_words::Unread;
use std::alloc::Global;
use tx_model::Report;

/// Why a report can't be read.
#[derive(Clone, Copy, Debug, PartialEq, Eq)]
pub enum ReadRefusal {
    /// This line is the first that can't stand where it stands. Lines count from 1; a missing line is the one after the
    /// last.
    Line { line: u64 },
    /// Want of memory.
    Memory,
}

/// What begins with the end of the title. None where the first line is another.
fn behind_title(bytes: &[u8]) -> Option<&[u8]>
    ensures some { IfSome result (λ rest. (bytes.now ≡ title_text ++ drop 1 rest.now) × (1 ≤ length rest.now)) }
    ensures none { IfNone result (first_line bytes.now ≡ title_text → ⊥) }
{
    if bytes.len() < 14 {
        return None;
    }
    if !is_title(&bytes[..14]) {
        return None;
    }
    Some(&bytes[13..])
}

/// Whether a report has ended, and nothing is left but the end of its last line.
fn is_whole(stage: Stage, rest: &[u8]) -> bool
    ensures { IsTrue result ↔ (stage ≡ stages.Closed) × (length rest.now ≤ 1) }
{
    stage == Stage::Closed && rest.len() <= 1
}

/// Reads a report back. It answers the report exactly where the bytes are its text; else it names the first wrong
/// line: some report begins with the lines before it, and none with it. What a life's base holds beside its counters
/// the text leaves to the records of the lives before, and `committed` and `recorded` are empty.
pub fn read_report(alloc: Global, bytes: &[u8]) -> Result<Report, ReadRefusal>
    ensures found { IfOk result (λ r. IsReport r × (bytes.now ≡ report_text r)) }
    ensures read { (r : Report) → IsReport r → bytes.now ≡ report_text r → IsRead result r }
    ensures wrong { IfErr result (λ e. IsWrongLine e bytes.now) }
{
    let mut out = Text::new(alloc);
    let mut told = Told::titled(alloc);
    let mut rest = match behind_title(bytes) {
        Some(rest) => rest,
        None => return Err(ReadRefusal::Line { line: 1 }),
    };
    let mut count: usize = 1;
    while let Some((line, after)) = next_line(rest) {
        match take(alloc, &mut out, &mut told, line) {
            Ok(()) => (),
            Err(Unread::Form) => {
                return Err(ReadRefusal::Line {
                    line: count as u64 + 1,
                });
            }
            Err(Unread::Memory) => return Err(ReadRefusal::Memory),
        }
        count += 1;
        rest = after;
    }
    if !is_whole(told.stage, rest) {
        return Err(ReadRefusal::Line {
            line: count as u64 + 1,
        });
    }
    let lives = told.lives.finish(alloc);
    Ok(Report {
        names: told.names,
        lives,
    })
}
