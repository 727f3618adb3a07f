//! What the definitions say together. The functions do nothing; their contracts are the laws.
ghost use Rattle.life_law.specs.Laws.{AbortedIdsAreUnrecorded, OkAbortsAreUnrecorded, OkCommitsAreFlushed, UncommittedRecordsAreInDoubt, UndoneIdsAreUnrecorded};
ghost use Rattle.life_law.specs.Worked.{WorkedLives};
ghost use Rattle.life_law.specs.WorkedCheckpoints.{WorkedCheckpoints};
ghost use Rattle.life_law.specs.WorkedRounds.{WorkedRounds};

/// A commit that was answered `ok` has its record below the flushed number.
pub fn ok_commits_are_flushed()
    ensures { OkCommitsAreFlushed }
{}

/// A commit record without a commit event is of a transaction that is still open, whose session's last commit wasn't
/// answered `ok` and is pending by its lines.
pub fn uncommitted_records_are_in_doubt()
    ensures { UncommittedRecordsAreInDoubt }
{}

/// No commit record names an id that an abort closed.
pub fn aborted_ids_are_unrecorded()
    ensures { AbortedIdsAreUnrecorded }
{}

/// No commit record names the id of a transaction whose abort was answered `ok`.
pub fn ok_aborts_are_unrecorded()
    ensures { OkAbortsAreUnrecorded }
{}

/// No commit record names an id that an undo closed.
pub fn undone_ids_are_unrecorded()
    ensures { UndoneIdsAreUnrecorded }
{}

/// A life in which the log's volume fails at a commit is lawful, and wrong reports of it aren't.
pub fn worked_lives()
    ensures { WorkedLives }
{}

/// A life with a checkpoint between two rounds is lawful, and wrong reports of it aren't.
pub fn worked_checkpoints()
    ensures { WorkedCheckpoints }
{}

/// A life is lawful in which a write is refused at the limit of ids, and reports of a refusal with numbers of a later
/// round aren't.
pub fn worked_rounds()
    ensures { WorkedRounds }
{}
