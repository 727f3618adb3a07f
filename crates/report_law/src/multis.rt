//! The function does nothing; its contract is the law.
ghost use Rattle.report_law.specs.WorkedMultis.{WorkedMultis};

/// A life is lawful in which a session sees the members of its multixact, and one of another session isn't there yet;
/// wrong reports of it aren't.
pub fn worked_multis()
    ensures { WorkedMultis }
{}
