//! Sessions that go through critical sections, turn after turn, by passes and by `Mutex`.
ghost use Rattle.std.specs.Prelude.{◌≡◌, ◌+◌, ◌^◌, ◌<◌, ◌≤◌, [], IfSome, length, vec_capacity};
ghost use Rattle.std.specs.List.{All};
ghost use Rattle.hall.specs.declared.view.Stage.TheVariants.{Free};
ghost use Rattle.hall.specs.Rule.{first_view};
ghost use Rattle.hall.specs.Calls.{view, IsOf, passes_of};
ghost use Rattle.parts_bench.specs.Plain.{Took, opening};
ghost use Rattle.parts_bench.specs.Crew.{AllNames, IsFree, SameNames, pass_of};

use hall::{Hall, Law, Note, Pass, Writer};
use std::alloc::Global;
use std::sync::{Mutex, Wait};
use std::thread;
use std::thread::Threads;

/// What a critical section adds to its lock's history.
pub struct Turn {
    pub by: u32,
}

/// A law that asks for nothing.
pub struct Plain;

/// A session's pass.
#[derive(Drop)]
pub struct Member {
    pub number: u32,
    pub pass: Pass<Plain>,
}

/// So many sessions, 64 at the most, in so many threads.
#[derive(Clone, Copy)]
pub struct Crew {
    pub sessions: u32,
    pub threads: u32,
}

/// What sessions do: session k begins at the lock `k * spread`, goes on by `step`, and works that
/// many rounds in each critical section.
#[derive(Clone, Copy)]
pub struct Plan {
    pub locks: u32,
    pub spread: u32,
    pub step: u32,
    pub work: u32,
}

impl Plan {
    // The lock of a session's turn.
    fn lock(self, session: u32, turn: u32) -> u32
        requires { 0 < self.locks }
        ensures { result < self.locks }
    {
        let from = session.wrapping_mul(self.spread);
        from.wrapping_add(turn.wrapping_mul(self.step)) % self.locks
    }
}

impl Law for Plain {
    ghost use Rattle.parts_bench.specs.Plain.{by, writes, Anything, keeps};

    type Value = u64;

    type Entry = Turn;

    type Start = ();

    ghost session = { by };

    ghost writer = { λ _. writes };

    ghost stands = { λ _ c v xs. Unit {0} };

    ghost number = { λ _ q xs. 0 };

    ghost kept = { λ _ ls. Anything ls };

    ghost may = { λ _ seen q e. Unit {0} };

    ghost keeps = { keeps };
}

// Counts one, after that many rounds of work, of some 2.4 ns each. No round leaves 0 behind, which
// the compiler doesn't see; so it can't leave the rounds out.
fn count_after(value: u64, work: u32) -> u64 {
    let mut mixed = value | 1;
    for _ in 0..work {
        mixed ^= mixed << 13;
        mixed ^= mixed >> 7;
        mixed ^= mixed << 17;
    }
    if mixed == 0 {
        value
    } else {
        value.wrapping_add(1)
    }
}

// Enters and leaves the locks by the plan.
fn take_turns<R: Wait>(rt: &R, hall: &Hall<Plain>, member: &mut Member, plan: Plan, turns: u32)
    requires own { IsOf hall.now member.old.pass }
    requires free { (view member.old.pass).stage ≡ Free }
    requires locks { (0 < plan.locks) × (plan.locks ≤ hall.now.cells) }
    ensures own { IsOf hall.now member.new.pass }
    ensures took { Took (view member.old.pass) (view member.new.pass) }
{
    for i in 0..turns {
        let value = hall.enter(rt, &mut member.pass, plan.lock(member.number, i));
        let entry = Note::by(&member.pass);
        hall.leave(&mut member.pass, count_after(value, plan.work), entry);
    }
}

// The same through mutexes.
fn lock_turns<R: Wait>(rt: &R, locks: &[Mutex<u64>], session: u32, plan: Plan, turns: u32)
    requires { (0 < plan.locks) × (plan.locks ≤ length locks.now) }
{
    for i in 0..turns {
        let mut value = locks[plan.lock(session, i) as usize].lock(rt);
        *value = count_after(*value, plan.work);
    }
}

// A table with that many locks, each with the value 0, and its first pass.
fn table(alloc: Global, locks: u32, passes: u32) -> Option<(Hall<Plain>, Pass<Plain>)>
    requires { (0 < passes) × (passes ≤ 65) }
    ensures own { IfSome result (λ r. IsOf r.0 r.1 × (view r.1 ≡ first_view (opening locks passes)) × (passes_of r.0 ≡ passes)) }
    ensures locks { IfSome result (λ r. r.0.cells ≡ locks) }
{
    let values = Vec::from_elem(alloc, 0u64, locks as usize).ok()?;
    let from = Note::by(&(locks, passes));
    Hall::<Plain>::new(alloc, values, Vec::new(alloc), passes, from).ok()
}

// What all locks counted.
fn counted(values: &[u64]) -> u64 {
    let mut all = 0u64;
    for value in values {
        all = all.wrapping_add(*value);
    }
    all
}

// A member of each name below the number.
fn gather(hall: &Hall<Plain>, host: &mut Pass<Plain>, members: &mut Vec<Member>, count: u32)
    requires own { IsOf hall.now host.old }
    requires free { (view host.old).stage ≡ Free }
    requires none { members.old.items ≡ [] }
    requires room { count ≤ vec_capacity members.old }
    requires names { AllNames pass_of (passes_of hall.now) (view host.old) members.old.items }
    ensures own { IsOf hall.now host.new }
    ensures free { (view host.new).stage ≡ Free }
    ensures names { AllNames pass_of (passes_of hall.now) (view host.new) members.new.items }
    ensures each { All (IsFree hall.now) members.new.items }
{
    for number in 0..count {
        if let Some(pass) = hall.split(host, number) {
            members.push_reserved(Member { number, pass });
        }
    }
}

// Each member takes its turns, in that many threads.
fn run_members<R: Threads + Wait + Sync>(
    rt: &R,
    hall: &Hall<Plain>,
    members: &mut [Member],
    threads: u32,
    plan: Plan,
    turns: u32,
)
    requires locks { (0 < plan.locks) × (plan.locks ≤ hall.now.cells) }
    requires threads { 0 < threads }
    requires each { All (IsFree hall.now) members.old }
    ensures each { All (IsFree hall.now) members.new }
    ensures names { SameNames pass_of members.old members.new }
    ensures len { length members.new ≡ length members.old }
{
    thread::for_each_mut(
        rt,
        members,
        threads as usize,
        &|_, member| take_turns(rt, hall, member, plan, turns),
    );
}

// All members are taken in.
fn dismiss(hall: &Hall<Plain>, host: &mut Pass<Plain>, members: &mut Vec<Member>)
    requires own { IsOf hall.now host.old }
    requires free { (view host.old).stage ≡ Free }
    requires each { All (IsFree hall.now) members.old.items }
    requires names { AllNames pass_of (passes_of hall.now) (view host.old) members.old.items }
    ensures own { IsOf hall.now host.new }
    ensures free { (view host.new).stage ≡ Free }
    ensures names { AllNames pass_of (passes_of hall.now) (view host.new) members.new.items }
    ensures none { members.new.items ≡ [] }
{
    while members.len() > 0 {
        let Member { number: _, pass } = members.remove(0);
        hall.join(host, pass);
    }
}

/// The sessions take their turns through the table. Returns what the locks counted; None for want of memory, of a lock or
/// of a thread, or where there are more than 64 sessions.
pub fn by_passes<R: Threads + Wait + Sync>(
    rt: &R,
    alloc: Global,
    crew: Crew,
    plan: Plan,
    turns: u32,
) -> Option<u64> {
    if plan.locks == 0 || crew.threads == 0 || crew.sessions > 64 {
        return None;
    }
    let mut members = Vec::with_capacity(alloc, crew.sessions as usize).ok()?;
    let (hall, mut host) = table(alloc, plan.locks, crew.sessions + 1)?;
    gather(&hall, &mut host, &mut members, crew.sessions);
    run_members(rt, &hall, members.as_mut_slice(), crew.threads, plan, turns);
    dismiss(&hall, &mut host, &mut members);
    Some(counted(hall.close_with(host).as_slice()))
}

/// The same under mutexes.
pub fn by_mutexes<R: Threads + Wait + Sync>(
    rt: &R,
    alloc: Global,
    crew: Crew,
    plan: Plan,
    turns: u32,
) -> Option<u64> {
    if plan.locks == 0 || crew.threads == 0 {
        return None;
    }
    let mut mutexes = Vec::with_capacity(alloc, plan.locks as usize).ok()?;
    for _ in 0..plan.locks {
        mutexes.push_reserved(Mutex::new(0u64));
    }
    let mut numbers = Vec::with_capacity(alloc, crew.sessions as usize).ok()?;
    for number in 0..crew.sessions {
        numbers.push_reserved(number);
    }
    let all = mutexes.as_slice();
    thread::for_each_mut(
        rt,
        numbers.as_mut_slice(),
        crew.threads as usize,
        &|_, number| lock_turns(rt, all, *number, plan, turns),
    );
    let mut counted = 0u64;
    for mutex in all {
        counted = counted.wrapping_add(*mutex.lock(rt));
    }
    Some(counted)
}
