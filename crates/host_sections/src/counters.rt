//! The counters that a checkpoint keeps.
ghost use Rattle.std.specs.Prelude.{◌≡◌};
ghost use Rattle.hall.specs.Calls.{start_of, view};
ghost use Rattle.tx_events.specs.Multis.{multi_counters};
ghost use Rattle.tx_core.specs.EngineInvariant.{EngineInvariant};
ghost use Rattle.tx_core.specs.Entries.{history};
ghost use Rattle.tx_core.specs.MultiEntries.{multi_history};
ghost use Rattle.engine_parts.specs.Alone.{IsAlone, StaysAlone};
ghost use Rattle.host_sections.specs.HostEntries.{HaveForms, counters_with};

use crate::home::{take_multi, take_proc};
use disk_core::{LogDisk, PageDisk};
use engine_parts::{EngineLaw, Part};
use hall::{Hall, Pass};
use std::sync::Wait;
use tx_events::Counters;

// The multixacts' counters, with the next and the oldest id of the base.
fn read_multis<R: Wait, L: LogDisk, P: PageDisk>(
    rt: &R,
    hall: &Hall<EngineLaw<L, P>>,
    pass: &mut Pass<EngineLaw<L, P>>,
) -> Counters
    requires alone { IsAlone hall.now pass.old }
    ensures stays { StaysAlone hall.now (view pass.old).seen pass.old pass.new }
    ensures counters { result ≡ multi_counters (start_of hall.now).base (multi_history (view pass.old).seen) }
{
    let multis = take_multi(rt, hall, pass);
    let counters = multis.counters();
    hall.put_back(pass, Part::Multi(multis));
    counters
}

/// Reads the counters as they stand now: the next and the oldest id are the ProcArray's, and those of the multixacts their
/// generator's (`CreateCheckPoint` of `xlog.c`, `MultiXactGetCheckptMulti` of `multixact.c`).
pub fn read_counters<R: Wait, L: LogDisk, P: PageDisk>(
    rt: &R,
    hall: &Hall<EngineLaw<L, P>>,
    pass: &mut Pass<EngineLaw<L, P>>,
) -> Counters
    requires alone { IsAlone hall.now pass.old }
    ensures stays { StaysAlone hall.now (view pass.old).seen pass.old pass.new }
    ensures kept { EngineInvariant (start_of hall.now) (view pass.new).seen }
    ensures forms { HaveForms result }
    ensures counters { result ≡ counters_with (start_of hall.now).base (history (view pass.old).seen)
        (multi_history (view pass.old).seen) }
{
    let multis = read_multis(rt, hall, pass);
    let table = take_proc(rt, hall, pass);
    let next = table.next();
    let oldest = table.oldest();
    hall.put_back(pass, Part::Proc(table));
    // what their types say of these numbers is of use to the caller's proof
    let _oldest = oldest.number();
    let _multi = multis.multi.number();
    let _oldest_multi = multis.oldest_multi.number();
    Counters {
        next,
        oldest,
        ..multis
    }
}
