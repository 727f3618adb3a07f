//! Sessions that are let in at a lock table, work on threads, and are taken back.
ghost use Rattle.std.specs.Prelude.{◌≡◌, ℕ, ◌<◌, ◌≤◌, [], IfOk, vec_capacity};
ghost use Rattle.std.specs.List.{All};
ghost use Rattle.engine_host.specs.Hosts.{HoldsAllBut, IsHost, IsNewSession, IsParked};
ghost use Rattle.engine_parts.specs.Calls.{MayRun};
ghost use Rattle.engine_parts.specs.declared.session.Session.{Session};
ghost use Rattle.engine_bench.specs.Crews.{AllWent, HaveGoneOn, MayWork, Worked, numbers_of};

use crate::calls::run_all;
use crate::shapes::{Plan, Who};
use crate::works::{asked_in, savepoints_of, steps_of};
use disk_core::{LogDisk, PageDisk};
use engine_host::{Host, admit, dismiss, new_session};
use engine_parts::{Caller, EngineLaw, Gated, OpenGate};
use hall::Hall;
use std::alloc::{AllocError, Global};
use std::sync::Wait;
use std::thread;
use std::thread::Threads;
use tx_events::Name;

/// A session of a crew.
pub struct Member<L: LogDisk, P: PageDisk> {
    pub caller: Caller<L, P>,
    /// How many of its calls were done.
    pub done: u64,
}

fn is_one(who: Who, number: u32) -> bool {
    match who {
        Who::Only(only) => number == only,
        Who::Below(end) => number < end,
        Who::From(start) => start <= number,
    }
}

/// A session works by the plan, where it is one of its sessions.
fn run_member<R: Wait, L: LogDisk, P: PageDisk>(
    rt: &R,
    hall: &Hall<EngineLaw<L, P>>,
    member: &mut Member<L, P>,
    banks: u32,
    alloc: Global,
    plan: Plan,
)
    requires { MayRun hall.now banks member.old.caller }
    ensures { Worked hall.now banks member.old member.new }
{
    let steps = steps_of(plan.work);
    let savepoints = savepoints_of(plan.work);
    let turns = if is_one(plan.who, member.caller.number) {
        plan.turns
    } else {
        0
    };
    let name = Name::of(b"s");
    let gated = Gated {
        rt,
        gate: &OpenGate,
    };
    for turn in 0..turns {
        let asked = asked_in(plan.work, turn);
        let caller = &mut member.caller;
        let done = run_all(
            &gated, hall, caller, banks, alloc, &name, steps, savepoints, asked,
        );
        member.done = member.done.saturating_add(done);
    }
    let Gated { rt: _, gate: _ } = gated;
}

/// Room for 64 sessions.
pub fn new_crew<L: LogDisk, P: PageDisk>(alloc: Global) -> Result<Vec<Member<L, P>>, AllocError>
    ensures empty { IfOk result (λ members. members.items ≡ []) }
    ensures room { IfOk result (λ members. 64 ≤ vec_capacity members) }
{
    Vec::with_capacity(alloc, 64)
}

/// Lets all sessions in.
pub fn let_in<L: LogDisk, P: PageDisk>(
    hall: &Hall<EngineLaw<L, P>>,
    alloc: Global,
    host: &mut Host<L, P>,
    members: &mut Vec<Member<L, P>>,
)
    requires host { IsHost hall.now host.old }
    requires names { HoldsAllBut host.old [] }
    requires parked { (n : ℕ) (s : Session) → n < host.old.cluster.sessions → IsNewSession s → IsParked hall.now host.old n s }
    requires none { members.old.items ≡ [] }
    requires room { host.old.cluster.sessions ≤ vec_capacity members.old }
    ensures host { IsHost hall.now host.new }
    ensures cluster { host.new.cluster ≡ host.old.cluster }
    ensures names { HoldsAllBut host.new (numbers_of members.new.items) }
    ensures each { All (MayWork hall.now host.new.cluster.banks) members.new.items }
{
    for number in 0..host.cluster.sessions {
        members.push_reserved(Member {
            caller: admit(hall, host, number, new_session(alloc)),
            done: 0,
        });
    }
}

/// The members work by a plan beside one another, in at most so many threads.
fn work_beside<L: LogDisk + Send + Sync, P: PageDisk + Send + Sync>(
    rt: &(impl Threads + Wait + Sync),
    hall: &Hall<EngineLaw<L, P>>,
    members: &mut [Member<L, P>],
    banks: u32,
    alloc: Global,
    plan: Plan,
    threads: usize,
)
    requires threads { 0 < threads }
    requires each { All (MayWork hall.now banks) members.old }
    ensures { AllWent hall.now banks members.old members.new }
{
    thread::for_each_mut(
        rt,
        members,
        threads,
        &|_, member| { run_member(rt, hall, member, banks, alloc, plan) },
    );
}

/// The members work by a plan, in at most so many threads.
pub fn work<L: LogDisk + Send + Sync, P: PageDisk + Send + Sync>(
    rt: &(impl Threads + Wait + Sync),
    hall: &Hall<EngineLaw<L, P>>,
    members: &mut Vec<Member<L, P>>,
    banks: u32,
    alloc: Global,
    plan: Plan,
    threads: usize,
)
    requires threads { 0 < threads }
    requires each { All (MayWork hall.now banks) members.old.items }
    ensures { AllWent hall.now banks members.old.items members.new.items }
{
    let all = members.as_mut_slice();
    work_beside(rt, hall, all, banks, alloc, plan, threads);
}

/// The members work by plans, one after another, in one thread.
pub fn work_through<L: LogDisk + Send + Sync, P: PageDisk + Send + Sync>(
    rt: &(impl Threads + Wait + Sync),
    hall: &Hall<EngineLaw<L, P>>,
    members: &mut Vec<Member<L, P>>,
    banks: u32,
    alloc: Global,
    plans: &[Plan],
)
    requires { All (MayWork hall.now banks) members.old.items }
    ensures { HaveGoneOn hall.now banks members.old.items members.new.items }
{
    for plan in plans {
        work(rt, hall, members, banks, alloc, *plan, 1);
    }
}

/// Takes all sessions back. Answers how many calls were done.
pub fn take_back<L: LogDisk, P: PageDisk>(
    hall: &Hall<EngineLaw<L, P>>,
    host: &mut Host<L, P>,
    members: &mut Vec<Member<L, P>>,
) -> u64
    requires host { IsHost hall.now host.old }
    requires names { HoldsAllBut host.old (numbers_of members.old.items) }
    requires each { All (MayWork hall.now host.old.cluster.banks) members.old.items }
    ensures host { IsHost hall.now host.new }
    ensures names { HoldsAllBut host.new [] }
    ensures none { members.new.items ≡ [] }
{
    let mut done = 0u64;
    while let Some(member) = members.pop() {
        done = done.saturating_add(member.done);
        let Member { caller, done: _ } = member;
        dismiss(hall, host, caller);
    }
    done
}
