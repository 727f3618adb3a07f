//! The generator is only looked at.
ghost use Rattle.std.specs.Prelude.{◌≡◌, ◌↔◌, ℕ, ◌+◌, ◌*◌, [], IsTrue};
ghost use Rattle.hall.specs.Calls.{view, IsOf, start_of};
ghost use Rattle.tx_events.specs.Base.{IsBase};
ghost use Rattle.tx_events.specs.Multis.{multi_counters};
ghost use Rattle.tx_core.specs.Locks.{multi_lock};
ghost use Rattle.tx_core.specs.MultiEntries.{AreFewMultis, multi_history};
ghost use Rattle.engine_parts.specs.Holds.{Section};
ghost use Rattle.engine_parts.specs.Sessions.{IsReady, look_by};
ghost use Rattle.engine_parts.specs.Steps.{WentMulti};

use crate::settling::is_few;
use disk_core::{LogDisk, PageDisk};
use engine_parts::{Caller, EngineLaw, Part, Passing, enter_multi, leave_looked};
use hall::Hall;
use tx_events::Counters;

/// The next multixact and offset, and the announced oldest ones, which belong together: one critical section of the
/// generator. The ids are the base's.
pub fn read_multis<R: Passing, L: LogDisk, P: PageDisk>(
    rt: &R,
    hall: &Hall<EngineLaw<L, P>>,
    caller: &mut Caller<L, P>,
) -> Counters
    requires own { IsOf hall.now caller.old.pass }
    requires laid { hall.now.cells ≡ 3 + 4 * (start_of hall.now).banks }
    requires ready { IsReady (start_of hall.now) (view caller.old.pass) caller.old.number caller.old.session }
    ensures section { Section (start_of hall.now) multi_lock (look_by caller.old.number caller.old.session)
        (view caller.old.pass) (view caller.new.pass) }
    ensures own { IsOf hall.now caller.new.pass }
    ensures ready { IsReady (start_of hall.now) (view caller.new.pass) caller.new.number caller.new.session }
    ensures went { WentMulti caller.old.number [] (view caller.old.pass).seen (view caller.new.pass).seen }
    ensures counters { result ≡ multi_counters (start_of hall.now).base (multi_history (view caller.new.pass).seen) }
    ensures base { IsBase result }
    ensures same { (caller.new.session ≡ caller.old.session) × (caller.new.number ≡ caller.old.number) }
{
    let held = enter_multi(rt, hall, caller);
    let multis = &*held;
    let counters = multis.counters();
    leave_looked(hall, caller, 2, Part::Multi(held));
    counters
}

/// Whether fewer than 2,900,000 multixacts were given since the life began, with `base`: one critical section of the
/// generator.
pub fn few_given<R: Passing, L: LogDisk, P: PageDisk>(
    rt: &R,
    hall: &Hall<EngineLaw<L, P>>,
    caller: &mut Caller<L, P>,
    base: &Counters,
) -> bool
    requires own { IsOf hall.now caller.old.pass }
    requires laid { hall.now.cells ≡ 3 + 4 * (start_of hall.now).banks }
    requires ready { IsReady (start_of hall.now) (view caller.old.pass) caller.old.number caller.old.session }
    requires base { base.now ≡ (start_of hall.now).base }
    ensures section { Section (start_of hall.now) multi_lock (look_by caller.old.number caller.old.session)
        (view caller.old.pass) (view caller.new.pass) }
    ensures own { IsOf hall.now caller.new.pass }
    ensures ready { IsReady (start_of hall.now) (view caller.new.pass) caller.new.number caller.new.session }
    ensures went { WentMulti caller.old.number [] (view caller.old.pass).seen (view caller.new.pass).seen }
    ensures few { IsTrue result ↔ AreFewMultis (view caller.new.pass).seen }
    ensures same { (caller.new.session ≡ caller.old.session) × (caller.new.number ≡ caller.old.number) }
{
    let held = enter_multi(rt, hall, caller);
    let multis = &*held;
    let few = is_few(base, multis);
    leave_looked(hall, caller, 2, Part::Multi(held));
    few
}
