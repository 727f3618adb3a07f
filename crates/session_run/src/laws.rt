//! The laws by which a life goes on over one lock table, round by round, and a run behind an earlier one. The functions do
//! nothing; their contracts are the laws.
ghost use Rattle.engine_life.specs.FirstLives.{MayMount};
ghost use Rattle.session_run.specs.Again.{RunsGoOn};
ghost use Rattle.session_run.specs.GoesOn.{LifeBegins, LifeEnds, LifeGoesOn};

use disk_core::{LogDisk, Media, PageDisk};
use engine_parts::EngineLaw;
use hall::Hall;

/// A life begins at a table on which nothing was done.
pub fn life_begins<L: LogDisk, P: PageDisk>(hall: &Hall<EngineLaw<L, P>>)
    ensures { LifeBegins hall.now }
{}

/// With a round it goes on.
pub fn life_goes_on<L: LogDisk, P: PageDisk>(hall: &Hall<EngineLaw<L, P>>)
    ensures { LifeGoesOn hall.now }
{}

/// Behind any round it may be over.
pub fn life_ends<L: LogDisk, P: PageDisk>(hall: &Hall<EngineLaw<L, P>>)
    ensures { LifeEnds hall.now }
{}

/// A media that a run found so and left so with status 0 (`run_tool`'s clause `done`) may be handed to a next one, whose lives
/// go on from its own: all are of one log.
pub fn runs_go_on<M: Media>(_before: &M, _after: &M)
    ensures { RunsGoOn M.Log.LogDisk M.Pages.PageDisk
        (MayMount (M.is_new _before.now) (M.begins _before.now) (M.gives _before.now)) M.falls (M.gives _after.now) }
{}
