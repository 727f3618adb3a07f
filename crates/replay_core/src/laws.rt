ghost use Rattle.replay_core.specs.Laws.{CheckpointFits, CutFits, FitsWithin, ShowsBase};
ghost use Rattle.replay_core.specs.LawsMultis.{CheckpointFitsMembers, CheckpointFitsOffsets, CutFitsMembers, CutFitsOffsets, FitsWithinMembers, FitsWithinOffsets, ShowsMemberBase, ShowsOffsetBase};

/// What fits a log fits it where it is known which of its last records were on disk.
pub fn cut_fits()
    ensures { CutFits }
{}

/// At each moment of a recovery an image of a bank fits the log.
pub fn fits_within()
    ensures { FitsWithin }
{}

/// When it is done the pages show the base that the log gives.
pub fn shows_base()
    ensures { ShowsBase }
{}

/// What shows the base fits the log with a checkpoint of it, on disk or not, wherever the log begins.
pub fn checkpoint_fits()
    ensures { CheckpointFits }
{}

/// The same of a bank of offsets, and of members: what fits a log fits it where it is known which of its last records were
/// on disk.
pub fn cut_fits_multis()
    ensures offsets { CutFitsOffsets }
    ensures members { CutFitsMembers }
{}

/// At each moment of a recovery an image of such a bank fits the log.
pub fn fits_within_multis()
    ensures offsets { FitsWithinOffsets }
    ensures members { FitsWithinMembers }
{}

/// When it is done the pages show exactly the multixacts of the base that the log gives, from the oldest one on.
pub fn shows_multis()
    ensures offsets { ShowsOffsetBase }
    ensures members { ShowsMemberBase }
{}

/// What shows them fits the log with a checkpoint of that base, on disk or not, wherever the log begins.
pub fn checkpoint_fits_multis()
    ensures offsets { CheckpointFitsOffsets }
    ensures members { CheckpointFitsMembers }
{}
