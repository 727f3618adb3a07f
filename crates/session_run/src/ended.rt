//! What a life leaves to the next one: the log that its volumes fit, and the crash between them.
ghost use base.Fml.{ftrue};
ghost use Rattle.std.specs.Prelude.{◌≡◌, IsTrue};
ghost use Rattle.recoverable.specs.Fit.{KeptLog};
ghost use Rattle.engine_life.specs.Lives.{volumes_left};
ghost use Rattle.session_run.specs.Fits.{FitLife, FitWhereTold};
ghost use Rattle.session_run.specs.Lives.{crash_of};
ghost use Rattle.session_run.specs.OneLife.{life_over};

use disk_core::{Crash, LogDisk, PageDisk};
use engine_life::ClosedLife;
use noted_facts::{Fact, found};
use notes::Note;
use std::marker::{Model, PhantomData};
use tx_core::Start;
use tx_model::How;

/// A life that is over, and what it started from.
pub struct Ended<L: LogDisk, P> {
    pub start: Note<Start>,
    pub closed: ClosedLife<L, P>,
}

/// A log that volumes fit. Contracts alone see it.
pub struct FittedLog {
    marker: PhantomData<u8>,
    pub ghost kept: { KeptLog },
}

impl Model for FittedLog {
    ghost also_owns = { λ _. ftrue };
}

// The volumes of a life that is over fit a log.
struct LeavesLog<L, P> {
    marker: PhantomData<(L, P)>,
}

impl<L: LogDisk, P: PageDisk> Fact for LeavesLog<L, P> {
    type About = Ended<L, P>;

    type Value = FittedLog;

    ghost holds = { λ ended log. FitWhereTold L.LogDisk P.PageDisk (life_over ended.start.value ended.closed)
        (volumes_left ended.closed) log.kept };
}

/// The log that the volumes of a life fit that is over, if they tell what they hold: contracts say that there is one.
pub fn log_left<L: LogDisk, P: PageDisk>(ended: &Ended<L, P>) -> Note<FittedLog>
    requires fit { IsTrue P.tells → IsTrue L.tells → FitLife L.LogDisk P.PageDisk
        (life_over ended.now.start.value ended.now.closed) (volumes_left ended.now.closed) }
    ensures fits { FitWhereTold L.LogDisk P.PageDisk (life_over ended.now.start.value ended.now.closed)
        (volumes_left ended.now.closed) result.value.kept }
{
    found::<LeavesLog<L, P>>(ended)
}

/// The crash of a media that a script asks for.
pub fn crash_of(how: How) -> Crash
    ensures { result ≡ crash_of how }
{
    match how {
        How::Lost => Crash::Lost,
        How::Kept => Crash::Kept,
        How::Torn => Crash::Torn,
    }
}
