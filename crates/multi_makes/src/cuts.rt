//! A page that is cut counts as made, in a life of few multixacts.
ghost use Rattle.std.specs.Prelude.{◌≡◌};
ghost use Rattle.hall.specs.Calls.{view};
ghost use Rattle.tx_core.specs.MultiEntries.{AreFewMultis};
ghost use Rattle.engine_parts.specs.Adding.{IsPlain};
ghost use Rattle.engine_parts.specs.Calls.{MayStep};
ghost use Rattle.multi_makes.specs.Visits.{Visited};

use bank_sections::stall;
use disk_core::{LogDisk, PageDisk};
use engine_parts::{Caller, EngineLaw, Passing};
use hall::Hall;
use multi_sections::few_given;
use proc_sections::read_base;

/// Goes on where a page was cut: the life has given few multixacts, so an entry cut it, and whoever forgot it needs no
/// more of what stood there. A life that gave 2,900,000 waits for ever.
pub(crate) fn pass_cut<R: Passing, L: LogDisk, P: PageDisk>(
    rt: &R,
    hall: &Hall<EngineLaw<L, P>>,
    caller: &mut Caller<L, P>,
    banks: u32,
)
    requires { MayStep hall.now banks caller.old }
    ensures visited { Visited hall.now banks IsPlain caller.old caller.new }
    ensures session { caller.new.session ≡ caller.old.session }
    ensures few { AreFewMultis (view caller.new.pass).seen }
{
    let base = read_base(rt, hall, caller);
    if !few_given(rt, hall, caller, &base) {
        stall(rt);
        unreachable!()
    }
}
