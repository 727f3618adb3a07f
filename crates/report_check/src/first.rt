//! The first unlawful line of a text.
ghost use Rattle.std.specs.Prelude.{◌≡◌, ◌↔◌, ℕ, IfErr, IfOk, None, Some};
ghost use Rattle.report_text.specs.ReportText.{report_text};
ghost use Rattle.report_read.specs.Reports.{IsReport, IsWrongLine};
ghost use Rattle.report_check.specs.Found.{IsJudgedAs, IsTextJudgedAs};
ghost use Rattle.report_check.specs.Judgement.{IsFirstUnlawful, IsLawfulText};

use crate::lives::first_in_lives;
use crate::walked::plus;
use report_read::{ReadRefusal, read_report};
use std::alloc::Global;
use tx_model::{Memory, Report};

/// The length of the longest text that is read, in bytes.
const MOST_BYTES: usize = 16_777_216;

/// The first line of the report that breaks its rule, counted from 1.
fn first_in_report(alloc: Global, report: &Report) -> Result<Option<u64>, Memory>
    requires { IsReport report.now }
    ensures { IfOk result (IsJudgedAs report.now) }
{
    match first_in_lives(alloc, report.lives.items())? {
        Some(count) => Ok(Some(plus(count, 2)?)),
        None => Ok(None),
    }
}

/// The report that a text tells, which is let go then.
fn read_whole(alloc: Global, bytes: Vec<u8>) -> Result<Report, ReadRefusal>
    ensures found { IfOk result (λ r. IsReport r × (bytes.items ≡ report_text r)) }
    ensures wrong { IfErr result (λ e. IsWrongLine e bytes.items) }
{
    read_report(alloc, bytes.as_slice())
}

fn judge_text(alloc: Global, bytes: Vec<u8>) -> Result<Option<u64>, Memory>
    ensures { IfOk result (IsTextJudgedAs bytes.items) }
{
    if bytes.len() > MOST_BYTES {
        return Ok(Some(0));
    }
    match read_whole(alloc, bytes) {
        Ok(report) => first_in_report(alloc, &report),
        Err(ReadRefusal::Line { line }) => Ok(Some(line)),
        Err(ReadRefusal::Memory) => Err(Memory),
    }
}

/// The first unlawful line of a text, counted from 1, and 0 of one of more than 16,777,216 bytes. `None` exactly where it
/// is the text of a lawful report. The text is let go once it is read.
pub fn first_unlawful(alloc: Global, bytes: Vec<u8>) -> Result<Option<u64>, Memory>
    ensures none { IfOk result (λ line. (line ≡ None) ↔ IsLawfulText bytes.items) }
    ensures some { IfOk result (λ line. (n : ℕ) → (line ≡ Some n) ↔ IsFirstUnlawful bytes.items n) }
{
    judge_text(alloc, bytes)
}
