ghost use Rattle.log_takes.specs.Takes.{EndsTaken, MultisTaken, TruncationsTaken};

/// The log can take a truncation's record (`WriteTruncateXlogRec` in `src/backend/access/transam/clog.c`,
/// `WriteMTruncateXlogRec` in `multixact.c`) to what was announced, whatever records it has.
pub fn truncations_taken()
    ensures { TruncationsTaken }
{}

/// Once its records tell the announced oldest id, it can take the record of an end (`XactLogCommitRecord` and
/// `XactLogAbortRecord` in `xact.c`) of what a session had open by then.
pub fn ends_taken()
    ensures { EndsTaken }
{}

/// Once they tell the announced oldest numbers, it can take the record of a multixact
/// (`MultiXactIdCreateFromMembers` in `multixact.c`) that was given by then.
pub fn multis_taken()
    ensures { MultisTaken }
{}
