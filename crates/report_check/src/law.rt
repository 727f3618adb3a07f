//! A text has at most one judgement.
ghost use Rattle.std.specs.Prelude.{ℕ, List};
ghost use Rattle.report_check.specs.Judgement.{IsJudgedOnce};

/// No text is lawful and has an unlawful line, and none has two first unlawful lines. Line 0 is told of a text alone that
/// is longer than one that is read.
pub fn judged_once()
    ensures { (bytes : List ℕ) → IsJudgedOnce bytes }
{}
