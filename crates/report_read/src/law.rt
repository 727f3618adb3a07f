//! A text is that of one report, and tells all of it but what each life began with beside its counters.
ghost use Rattle.std.specs.Prelude.{◌≡◌};
ghost use Rattle.tx_model.specs.declared.report.Report.{Report};
ghost use Rattle.report_text.specs.ReportText.{report_text};
ghost use Rattle.report_read.specs.AsRead.{as_read};
ghost use Rattle.report_read.specs.Reports.{IsReport};

/// No text is that of two reports.
pub fn no_text_of_two()
    ensures { (r s : Report) → IsReport r → IsReport s → report_text r ≡ report_text s → r ≡ s }
{}

/// The text of a report is that of what is read of it.
pub fn text_is_of_what_is_read()
    ensures { (r : Report) → report_text (as_read r) ≡ report_text r }
{}
