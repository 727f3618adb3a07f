//! The lines whose texts are fixed.
ghost use Rattle.std.specs.Prelude.{◌≡◌, ◌∷◌, [], List, ℕ, codes, Some, IfSome};
ghost use Rattle.std.specs.Str.{bytes_eq};
ghost use Rattle.report_text.specs.Words.{line_text};
ghost use Rattle.report_text.specs.ReportText.{crash_text, end_text, title_text};
ghost use Rattle.tx_model.specs.declared.report.How.{How};
ghost use Rattle.tx_model.specs.declared.report.How.TheVariants as hows;
ghost use Rattle.report_lines.specs.Fixed.{crash_in};

use tx_model::How;

/// Whether this is the line that begins a report.
#[tactic(auto, unfolding(report_text::specs::Words::line_text, report_text::specs::Words::more))]
pub fn is_title(line: &[u8]) -> bool
    ensures { result ≡ bytes_eq line.now title_text }
{
    line == b"txid report 1\n".as_slice()
}

/// Whether this is the line that begins a history.
#[tactic(auto, unfolding(report_text::specs::Words::line_text, report_text::specs::Words::more))]
pub fn is_history(line: &[u8]) -> bool
    ensures { result ≡ bytes_eq line.now (line_text (codes "history" ∷ [])) }
{
    line == b"history\n".as_slice()
}

/// Whether this is the line that begins the multixact events.
#[tactic(auto, unfolding(report_text::specs::Words::line_text, report_text::specs::Words::more))]
pub fn is_multis(line: &[u8]) -> bool
    ensures { result ≡ bytes_eq line.now (line_text (codes "multis" ∷ [])) }
{
    line == b"multis\n".as_slice()
}

#[tactic(auto, unfolding(report_text::specs::ReportText::crash_text, report_text::specs::Words::line_text, report_text::specs::Words::more))]
fn is_lost(line: &[u8]) -> bool
    ensures { result ≡ bytes_eq line.now (crash_text (Some hows.Lost)) }
{
    line == b"crash lost\n".as_slice()
}

#[tactic(auto, unfolding(report_text::specs::ReportText::crash_text, report_text::specs::Words::line_text, report_text::specs::Words::more))]
fn is_kept(line: &[u8]) -> bool
    ensures { result ≡ bytes_eq line.now (crash_text (Some hows.Kept)) }
{
    line == b"crash kept\n".as_slice()
}

#[tactic(auto, unfolding(report_text::specs::ReportText::crash_text, report_text::specs::Words::line_text, report_text::specs::Words::more))]
fn is_torn(line: &[u8]) -> bool
    ensures { result ≡ bytes_eq line.now (crash_text (Some hows.Torn)) }
{
    line == b"crash torn\n".as_slice()
}

/// Whether this is the last line of a report.
#[tactic(auto, unfolding(report_text::specs::Words::line_text, report_text::specs::Words::more))]
pub fn is_end(line: &[u8]) -> bool
    ensures { result ≡ bytes_eq line.now end_text }
{
    line == b"end\n".as_slice()
}

/// The crash that this line tells, where it tells one.
#[tactic(auto, using(crate::proofs::Crashes::found, crate::proofs::Crashes::only))]
pub fn crash_at(line: &[u8]) -> Option<How>
    ensures value { result ≡ crash_in line.now }
    ensures found { IfSome result (λ h. line.now ≡ crash_text (Some h)) }
    ensures only { (h : How) → line.now ≡ crash_text (Some h) → result ≡ Some h }
{
    crash_in(line)
}

fn crash_in(line: &[u8]) -> Option<How>
    ensures { result ≡ crash_in line.now }
{
    if is_lost(line) {
        return Some(How::Lost);
    }
    if is_kept(line) {
        return Some(How::Kept);
    }
    if is_torn(line) {
        return Some(How::Torn);
    }
    None
}
