//! What holds of the lives of a run, whatever their crashes leave. The functions do nothing; their contracts are the laws.
ghost use Rattle.report_law.specs.Laws.{BasesAreOfOneLog, OkCommitsStay};

/// What a commit that was answered `ok` records is committed in each later life.
pub fn ok_commits_stay()
    ensures { OkCommitsStay }
{}

/// Each life begins from the base that the run's one log gives below the life's first record.
pub fn bases_are_of_one_log()
    ensures { BasesAreOfOneLog }
{}
