//! How it is measured: sessions of a new cluster work by plans, and then some do the work that is timed.
ghost use Rattle.std.specs.Prelude.{ℕ, ◌<◌, ◌≤◌, []};
ghost use Rattle.std.specs.List.{All};
ghost use Rattle.engine_host.specs.Hosts.{HoldsAllBut, IsHost, IsNewSession, IsParked};
ghost use Rattle.engine_parts.specs.declared.session.Session.{Session};
ghost use Rattle.engine_bench.specs.Crews.{HaveGoneOn, MayWork};

use crate::crew::{Member, let_in, new_crew, take_back, work, work_through};
use crate::opening::{close_table, new_cluster, open_table};
use crate::shapes::{Plan, Shape};
use disk_core::{MemLog, MemPages};
use engine_host::Host;
use engine_parts::EngineLaw;
use hall::Hall;
use std::alloc::Global;
use std::io;
use std::sync::Wait;
use std::thread::Threads;
use std::time::Instant;

// How many banks each store has.
const BANKS: u32 = 4;

/// What a run of a shape came to.
#[derive(Clone, Copy)]
pub struct Outcome {
    /// How many calls were done.
    pub done: u64,
    /// How many events the history has.
    pub events: u64,
    /// Of the timed plan, in microseconds; none without a clock.
    pub time: Option<u128>,
}

/// How long it was since a moment, in microseconds. None without a clock.
fn micros_since(host: &HostRuntime, start: io::Result<Instant>) -> Option<u128> {
    let start = start.ok()?;
    let time = start.elapsed(host).ok()?;
    Some(time.as_micros())
}

/// The members work by the shape's plans, those before the last one in one thread.
fn work_timed<R: Threads + Wait + Sync>(
    host: &HostRuntime,
    rt: &R,
    hall: &Hall<EngineLaw<Box<MemLog>, Box<MemPages>>>,
    members: &mut Vec<Member<Box<MemLog>, Box<MemPages>>>,
    banks: u32,
    alloc: Global,
    shape: &Shape,
    turns: u32,
) -> Option<u128>
    requires { All (MayWork hall.now banks) members.old.items }
    ensures { HaveGoneOn hall.now banks members.old.items members.new.items }
{
    work_through(rt, hall, members, banks, alloc, shape.before);
    let timed = Plan {
        who: shape.who,
        work: shape.work,
        turns,
    };
    let start = Instant::now(host);
    work(rt, hall, members, banks, alloc, timed, 64);
    micros_since(host, start)
}

/// All sessions of a new lock table are let in, work, and are taken back. None for want of memory.
fn run_opened<R: Threads + Wait + Sync>(
    host: &HostRuntime,
    rt: &R,
    alloc: Global,
    hall: Hall<EngineLaw<Box<MemLog>, Box<MemPages>>>,
    postmaster: Host<Box<MemLog>, Box<MemPages>>,
    shape: &Shape,
    turns: u32,
) -> Option<Outcome>
    requires host { IsHost hall postmaster }
    requires names { HoldsAllBut postmaster [] }
    requires parked { (n : ℕ) (s : Session) → n < postmaster.cluster.sessions → IsNewSession s → IsParked hall postmaster n s }
{
    let mut postmaster = postmaster;
    let mut members = match new_crew(alloc) {
        Ok(members) => members,
        Err(_) => {
            close_table(hall, postmaster);
            return None;
        }
    };
    let_in(&hall, alloc, &mut postmaster, &mut members);
    let banks = postmaster.cluster.banks;
    let time = work_timed(host, rt, &hall, &mut members, banks, alloc, shape, turns);
    let done = take_back(&hall, &mut postmaster, &mut members);
    members.destroy_empty();
    let events = close_table(hall, postmaster);
    Some(Outcome { done, events, time })
}

// So many sessions as a lock table may have.
fn at_most_64(sessions: u32) -> u32
    ensures { result ≤ 64 }
{
    if sessions < 64 { sessions } else { 64 }
}

/// Runs a shape, where so many sessions take so many turns each in the time that is told. There are at most 64 sessions in
/// all. None for want of memory.
pub fn run_shape<R: Threads + Wait + Sync>(
    host: &HostRuntime,
    rt: &R,
    alloc: Global,
    shape: &Shape,
    sessions: u32,
    turns: u32,
) -> Option<Outcome> {
    let all = at_most_64(shape.aside.saturating_add(sessions));
    match open_table(alloc, new_cluster(BANKS, all)) {
        Some((hall, postmaster)) => run_opened(host, rt, alloc, hall, postmaster, shape, turns),
        None => None,
    }
}
