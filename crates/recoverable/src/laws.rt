ghost use Rattle.recoverable.specs.Laws.{ListFitsLaw, MayBeginLaw, XactFitsLaw, OffsetsShownLaw, OffsetsFitLaw, MembersFitLaw, NoStrayOffset};
ghost use Rattle.recoverable.specs.Stored.{OffsetBytesShow, MemberBytesShow};
ghost use Rattle.recoverable.specs.Volumes.{RecoverySettles, RefusalKeeps};
ghost use Rattle.recoverable.specs.Clusters.{CrashKeepsFit};
ghost use Rattle.recoverable.specs.Whole.{ImageFitsLaw, LogBegins, NewBegins, NewLogBegins, VolumesFitLaw};
ghost use Rattle.recoverable.specs.LogSteps.{LogEnds, LogGoesOn};
ghost use Rattle.recoverable.specs.WorkedLife.{AreRefused, IsRestored, IsWorked};
ghost use Rattle.recoverable.specs.WorkedBank.{WorkedBank};

use disk_core::{LogDisk, PageDisk};

/// A checkpoint before which the log was to be forgotten is on disk, with counters that are the log's behind it.
pub fn may_begin()
    ensures { MayBeginLaw }
{}

/// Each base that the log may give is one from which a life may start: its counters are past what it names, and its
/// multixacts lie behind each other.
pub fn list_fits()
    ensures { ListFitsLaw }
{}

/// Where the invariant holds and a bank's value stands for its list, each image of a bank of pg_xact fits the log
/// (`StartupXLOG` in `src/backend/access/transam/xlog.c` takes such volumes).
pub fn xact_fits()
    ensures { XactFitsLaw }
{}

/// So each image of a bank of offsets has the offset of each recorded multixact.
pub fn offsets_shown()
    ensures { OffsetsShownLaw }
{}

/// And each image of a bank of offsets fits the log: a multixact below the next one of the checkpoint at which the log
/// begins that isn't recorded has no offset.
pub fn offsets_fit()
    ensures { OffsetsFitLaw }
{}

/// So each image of a bank of members has the members of each recorded multixact, their ids and modes, and none in the
/// gaps behind them.
pub fn members_fit()
    ensures { MembersFitLaw }
{}

/// A multixact that the life began with and that isn't recorded has no offset in any image.
pub fn no_stray_offset()
    ensures { NoStrayOffset }
{}

/// What the pages of offsets and members hold of a number are the bytes that were set last, over whatever the life found
/// there.
pub fn bytes_show()
    ensures offsets { OffsetBytesShow }
    ensures members { MemberBytesShow }
{}

/// Where the invariant holds and the life began clean and was short, what a crash left of all volumes fits, if the
/// log's image opens to its list and each bank's image shows its own, all of the same lists.
pub fn image_fits()
    ensures { ImageFitsLaw }
{}

/// So the volumes fit, over any disks.
pub fn volumes_fit<L: LogDisk, P: PageDisk>()
    ensures { VolumesFitLaw L.images P.images }
{}

/// Volumes of a cluster that fit a log before a crash fit it behind the crash: so a recovery may begin from them.
pub fn crash_keeps_fit<L: LogDisk, P: PageDisk>()
    ensures { CrashKeepsFit L.LogDisk P.PageDisk }
{}

/// Over new volumes a life begins clean, and so does its log (`BootStrapXLOG` in
/// `src/backend/access/transam/xlog.c`).
pub fn new_begins()
    ensures clean { NewBegins }
    ensures log { NewLogBegins }
{}

/// The log behind a recovery is as the next life's laws want it, before that life's first entry.
pub fn log_begins()
    ensures { LogBegins }
{}

/// A recovery that answered Ok is settled: any later one answers the same base. Behind one that answered an error, a
/// later one answers what this one might have answered.
pub fn recoveries_settle()
    ensures answered { RecoverySettles }
    ensures refused { RefusalKeeps }
{}

/// One entry more of the log's list, and its log goes on: by a record, by what is on disk, or as it was.
pub fn log_goes_on()
    ensures { LogGoesOn }
{}

/// And at a life's end it has the records that the list appended, on disk up to the last flush.
pub fn log_ends()
    ensures { LogEnds }
{}

/// A worked life: what a crash left of a small log and its pages fits, and wrong volumes don't; a recovery may leave
/// these pages; and which images of its bank of pg_xact follow the bank's list, before and behind a sync.
pub fn worked_life()
    ensures fits { IsWorked }
    ensures wrong { AreRefused }
    ensures restored { IsRestored }
    ensures bank { WorkedBank }
{}
