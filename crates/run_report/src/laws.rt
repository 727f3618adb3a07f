//! What is proved of every run's report.
ghost use Rattle.std.specs.Prelude.{◌≡◌, ℕ, [], ◌∷◌, Bool, List, Option, Ok};
ghost use Rattle.tx_model.specs.declared.report.LifeReport.{LifeReport};
ghost use Rattle.tx_model.specs.declared.report.Report.{Report};
ghost use Rattle.report_text.specs.ReportText.{report_text};
ghost use Rattle.report_read.specs.AsRead.{as_read};
ghost use Rattle.report_read.specs.Reports.{IsReport};
ghost use Rattle.session_lang.specs.declared.script.Script.{Script};
ghost use Rattle.session_lang.specs.Script.{read_script};
ghost use Rattle.run_law.specs.Lives.{RunStart, new_start};
ghost use Rattle.run_law.specs.Tool.{IsAnswer, IsReportOf};

/// The report of a run of the script that these bytes are, in however many lives, can be read back: all of it but what its
/// lives began with beside their counters (`as_read` of `report_read`).
pub fn run_report_is_read_back()
    ensures { (tells : Bool) (banks : ℕ) (start : RunStart) (bytes : List ℕ) (s : Script) (r : Report) → read_script bytes ≡ Ok s
        → IsReportOf tells banks start s r → IsReport (as_read r) }
{}

/// The text that a run answers (`IsAnswer` of `run_law`) is the text of its report, and each report that can be read back
/// and has this text is that one as it is read.
pub fn answer_is_of_one_report()
    ensures { (tells : Bool) (left left' : Option (List ℕ)) (text : List ℕ) (a : IsAnswer tells left left' text)
        → (text ≡ report_text a.report) × ((r : Report) → IsReport r → text ≡ report_text r → r ≡ as_read a.report) }
{}

/// Of one life over a new log it is the whole report that is read.
pub fn one_life_is_read_whole()
    ensures { (tells : Bool) (banks : ℕ) (s : Script) (r : Report) (life : LifeReport) → IsReportOf tells banks (new_start s) s r
        → r.lives ≡ life ∷ [] → as_read r ≡ r }
{}
