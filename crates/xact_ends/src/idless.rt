//! A transaction without an id ends: the session alone, under no lock.
ghost use Rattle.xact_ends.specs.Ends.{IsClosed};

use disk_core::{LogDisk, PageDisk};
use engine_parts::{Caller, Stage};

/// Closes the levels of a transaction none of which has an id. It has no event.
pub(crate) fn close_idless<L: LogDisk, P: PageDisk>(caller: &mut Caller<L, P>)
    ensures { IsClosed caller.old caller.new }
{
    caller.session.levels.unnamed = 0;
    caller.session.stage = Stage::Clear;
}
