//! Single calls of a session, and several one after another.
ghost use Rattle.std.specs.Prelude.{◌+◌, ◌≤◌, cond};
ghost use Rattle.engine_parts.specs.Calls.{MayRun};
ghost use Rattle.engine_bench.specs.Going.{GoesOn};

use disk_core::{LogDisk, PageDisk};
use engine_parts::{Caller, EngineLaw, Passing};
use hall::Hall;
use std::alloc::Global;
use tx_events::{Name, Xid};
use xact_ends::{commit, undo};
use xact_engine::{begin, drop_snap, release, save, snap};
use xact_reads::see;
use xact_writes::write;

/// A session runs no more commands.
const MOST_COMMANDS: u64 = 0xffff_ffff_ffff;

/// A call of a session.
#[derive(Clone, Copy)]
pub enum Call {
    Begin,
    Save,
    Write,
    Release,
    Undo,
    Commit,
    Snap,
    DropSnap,
    See,
}

/// Calls one after another, once, or once for each savepoint of a turn.
#[derive(Clone, Copy)]
pub struct Stretch {
    pub calls: &'static [Call],
    pub each_savepoint: bool,
}

/// Runs a call of a session, whose snapshots have this name, and which looks at the id asked for. Whether it is done, or
/// answered with a verdict.
pub fn run<R: Passing, L: LogDisk, P: PageDisk>(
    rt: &R,
    hall: &Hall<EngineLaw<L, P>>,
    caller: &mut Caller<L, P>,
    banks: u32,
    alloc: Global,
    name: &Name,
    call: Call,
    asked: u32,
) -> bool
    requires { MayRun hall.now banks caller.old }
    ensures { GoesOn hall.now banks (cond result 1 0) caller.old caller.new }
{
    if caller.session.levels.commands >= MOST_COMMANDS {
        return false;
    }
    match call {
        Call::Begin => begin(hall, caller).is_ok(),
        Call::Save => save(hall, caller).is_ok(),
        Call::Write => write(rt, hall, caller, banks, alloc).is_ok(),
        Call::Release => release(hall, caller).is_ok(),
        Call::Undo => undo(rt, hall, caller, banks).is_ok(),
        Call::Commit => commit(rt, hall, caller, banks, alloc).is_ok(),
        Call::Snap => snap(rt, hall, caller, name).is_ok(),
        Call::DropSnap => drop_snap(rt, hall, caller, name).is_ok(),
        Call::See => see(rt, hall, caller, banks, name, Xid { number: asked }).is_ok(),
    }
}

fn one_more(done: u64, is_done: bool) -> u64
    ensures { result ≤ done + cond is_done 1 0 }
{
    if is_done {
        done.saturating_add(1)
    } else {
        done
    }
}

fn times_of(stretch: Stretch, savepoints: u32) -> u32 {
    if stretch.each_savepoint {
        savepoints
    } else {
        1
    }
}

/// Runs a session's calls of a turn with so many savepoints. Answers how many of them were done.
pub fn run_all<R: Passing, L: LogDisk, P: PageDisk>(
    rt: &R,
    hall: &Hall<EngineLaw<L, P>>,
    caller: &mut Caller<L, P>,
    banks: u32,
    alloc: Global,
    name: &Name,
    steps: &[Stretch],
    savepoints: u32,
    asked: u32,
) -> u64
    requires { MayRun hall.now banks caller.old }
    ensures { GoesOn hall.now banks result caller.old caller.new }
{
    let mut done = 0u64;
    for stretch in steps {
        for _ in 0..times_of(*stretch, savepoints) {
            for call in stretch.calls {
                let is_done = run(rt, hall, caller, banks, alloc, name, *call, asked);
                done = one_more(done, is_done);
            }
        }
    }
    done
}
