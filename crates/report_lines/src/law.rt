//! No line is that of two.
ghost use Rattle.std.specs.Prelude.{◌≡◌, ◌<◌, ◌^◌, ℕ, List};
ghost use Rattle.report_text.specs.ReportText.{command_line, step_text};
ghost use Rattle.report_words.specs.Fits.{AreNames, FitsEvent, FitsLine, FitsMultiEvent, FitsRecord};
ghost use Rattle.report_lines.specs.Fits.{FitsStart, FitsLog, FitsStep};
ghost use Rattle.report_lines.specs.Laws.{TellsApart};
ghost use Rattle.report_words.specs.Texts.{event_line, multi_line, record_line};
ghost use Rattle.report_lines.specs.Texts.{log_line, start_line};

/// No line is that of two commands with their replies, of two events, and so on.
pub fn no_line_of_two()
    ensures lines { (names : List (List ℕ)) → AreNames names → TellsApart (FitsLine names) (command_line names) }
    ensures events { (names : List (List ℕ)) → AreNames names → TellsApart (FitsEvent names) (event_line names) }
    ensures multis { (names : List (List ℕ)) → AreNames names → TellsApart (FitsMultiEvent names) (multi_line names) }
    ensures steps { (names : List (List ℕ)) → AreNames names → TellsApart (FitsStep names) (step_text names) }
    ensures records { (n : ℕ) → n < 2 ^ 64 → TellsApart (FitsRecord n) (record_line n) }
    ensures starts { (n : ℕ) → n < 2 ^ 64 → TellsApart FitsStart (start_line n) }
    ensures logs { TellsApart FitsLog log_line }
{}
