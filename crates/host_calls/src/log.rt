//! Bytes of the log.
ghost use Rattle.std.specs.Prelude.{◌≡◌, ◌≤◌, Err, IfOk, IsTrue, OnErr, length};
ghost use Rattle.hall.specs.Calls.{start_of, view};
ghost use Rattle.notes.specs.Lists.{at};
ghost use Rattle.tx_core.specs.EngineInvariant.{EngineInvariant};
ghost use Rattle.tx_core.specs.Locks.{log_lock};
ghost use Rattle.wal_core.specs.declared.refusal.LogRefusal.TheVariants.{LogFault};
ghost use Rattle.engine_host.specs.Homes.{IsHome, StaysHome};
ghost use Rattle.host_calls.specs.Shown.{HasFailed, ShowsLog};

use disk_core::{LogDisk, PageDisk};
use engine_host::Host;
use engine_parts::{EngineLaw, Part};
use hall::Hall;
use host_sections::take_log;
use std::sync::Wait;
use wal_core::LogRefusal;

/// Reads bytes of the log's volume from a place on, fewer than asked for only at its end, and answers how many. The one
/// refusal is `LogFault`, where the volume's count of faults rose; the log isn't down then.
pub fn dump_log<R: Wait, L: LogDisk, P: PageDisk>(
    rt: &R,
    hall: &Hall<EngineLaw<L, P>>,
    host: &mut Host<L, P>,
    from: u64,
    into: &mut [u8],
) -> Result<usize, LogRefusal>
    requires home { IsHome hall.now host.old }
    ensures stays { StaysHome hall.now host.old host.new }
    ensures kept { EngineInvariant (start_of hall.now) (view host.old.pass).seen }
    ensures count { IfOk result (λ n. n ≤ length into.old) }
    ensures bytes { IsTrue L.tells → IfOk result (λ n. ShowsLog (start_of hall.now)
        (at (view host.old.pass).seen log_lock) from into.old n into.new) }
    ensures fault { OnErr result ((result ≡ Err LogFault) × HasFailed L.LogDisk P.PageDisk (start_of hall.now)
        (view host.old.pass).seen log_lock) }
{
    let mut held = take_log(rt, hall, &mut host.pass);
    let log = &mut *held;
    let found = log.dump(from, into);
    hall.put_back(&mut host.pass, Part::Log(held));
    found
}
