//! What one life leaves to the next.
ghost use Rattle.engine_life.specs.NextLives.{CrashGoesOn};

use disk_core::{LogDisk, PageDisk};

/// Volumes that fit a log, as those of a life do that is over (`close_life`), fit it behind a crash: so `open_life` may
/// open the next life.
pub fn crash_goes_on<L: LogDisk, P: PageDisk>()
    ensures { CrashGoesOn L.LogDisk P.PageDisk }
{}
