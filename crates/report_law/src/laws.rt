//! What the definitions say of worked reports. The functions do nothing; their contracts are the laws.
ghost use Rattle.report_law.specs.Worked.{WorkedReports};

/// An empty report is lawful, and of some wrong ones it is told which line is.
pub fn worked_reports()
    ensures { WorkedReports }
{}
