//! A round: its sessions are let in at the lock table, run on threads, and are taken back.
ghost use Rattle.std.specs.Prelude.{◌≡◌, ℕ, List, ◌<◌, ◌≤◌, [], ◌∷◌, ◌++◌, All, OnOk, false, get_or, length, vec_capacity};
ghost use Rattle.hall.specs.Calls.{start_of, view};
ghost use Rattle.tx_model.specs.declared.report.Line.{Line};
ghost use Rattle.engine_host.specs.Hosts.{HoldsAllBut, IsHost, IsParked};
ghost use Rattle.run_law.specs.Turns as runnable;
ghost use Rattle.run_law.specs.Turns.{turns_in};
ghost use Rattle.script_rounds.specs.Plans.{IsPlanOf};
ghost use Rattle.session_run.specs.Rounds.{AllRan, AreApart, AreBack, AreParked, AreSent, HaveRun, MayAdd, MayReturn, StayBehind, WentRound, callers_of, is_among, numbers_of, with_members};
ghost use Rattle.session_run.specs.Turns.{AreToldBy, MayGo};

use crate::member::{Member, run_member, run_session};
use disk_core::{LogDisk, PageDisk};
use engine_host::{Host, admit, dismiss, new_session};
use engine_parts::{EngineLaw, Gate, Session};
use hall::Hall;
use script_rounds::{LineKeeper, Plan, ToldLines, keeper_laws};
use session_lang::Items;
use std::alloc::Global;
use std::sync::Wait;
use std::thread::Threads;
use std::{mem, thread};
use tx_model::{Memory, NameList};

/// Lets the sessions of a round in.
fn let_in<K: LineKeeper, L: LogDisk, P: PageDisk>(
    hall: &Hall<EngineLaw<L, P>>,
    alloc: Global,
    host: &mut Host<L, P>,
    numbers: &[u32],
    sessions: &mut [Session],
    members: &mut Vec<Member<K, L, P>>,
)
    requires host { IsHost hall.now host.old }
    requires names { HoldsAllBut host.old [] }
    requires parked { AreParked hall.now host.old sessions.old }
    requires apart { AreApart numbers.now }
    requires known { All (λ n. n < length sessions.old) numbers.now }
    requires none { members.old.items ≡ [] }
    requires room { length numbers.now ≤ vec_capacity members.old }
    ensures host { IsHost hall.now host.new }
    ensures cluster { host.new.cluster ≡ host.old.cluster }
    ensures seen { (view host.new.pass).seen ≡ (view host.old.pass).seen }
    ensures names { HoldsAllBut host.new numbers.now }
    ensures sent { AreSent K.LineKeeper hall.now host.old sessions.old numbers.now members.new.items }
    ensures stay { StayBehind hall.now host.new numbers.now sessions.old sessions.new }
{
    for number in numbers {
        let session = mem::replace(&mut sessions[*number as usize], new_session(alloc));
        members.push_reserved(Member {
            caller: admit(hall, host, *number, session),
            kept: K::none(alloc),
            lines: ToldLines::none(),
            lost: false,
        });
    }
}

/// Runs the members of a round beside one another, in at most so many threads.
fn run_beside<K: LineKeeper + Send, L: LogDisk + Send + Sync, P: PageDisk + Send + Sync>(
    rt: &(impl Threads + Wait + Sync),
    hall: &Hall<EngineLaw<L, P>>,
    members: &mut [Member<K, L, P>],
    banks: u32,
    alloc: Global,
    names: &NameList,
    plan: &Plan,
    round: &Items,
    threads: usize,
    gate: &(impl Gate + Sync),
)
    requires threads { 0 < threads }
    requires items { All (runnable.MayRun (start_of hall.now).sessions) round.now }
    requires may { All (MayGo hall.now banks round.now plan.now) members.old }
    requires told { AreToldBy P.tells (start_of hall.now) }
    ensures { AllRan K.LineKeeper hall.now banks names.now round.now members.old members.new }
{
    thread::for_each_mut(
        rt,
        members,
        threads,
        &|_, member| run_member(rt, hall, member, banks, alloc, names, plan, round, gate),
    );
}

/// Runs the members of a round one after another, and keeps their lines for the run at once.
fn run_in_turn<R: Wait, K: LineKeeper, L: LogDisk, P: PageDisk, G: Gate>(
    rt: &R,
    hall: &Hall<EngineLaw<L, P>>,
    members: &mut Vec<Member<K, L, P>>,
    kept: &mut K,
    banks: u32,
    alloc: Global,
    names: &NameList,
    plan: &Plan,
    round: &Items,
    gate: &G,
)
    requires items { All (runnable.MayRun (start_of hall.now).sessions) round.now }
    requires may { All (MayGo hall.now banks round.now plan.now) members.old.items }
    requires none { All (λ m. m.kept ≡ K.nothing) members.old.items }
    requires told { AreToldBy P.tells (start_of hall.now) }
    ensures { HaveRun K.LineKeeper hall.now banks names.now round.now kept.old kept.new members.old.items members.new.items }
{
    for member in members.iter_mut() {
        mem::swap(&mut member.kept, kept);
        run_member(rt, hall, member, banks, alloc, names, plan, round, gate);
        mem::swap(&mut member.kept, kept);
    }
}

/// Runs the members of a round. On one thread their lines are kept for the run at once, else each keeps its own.
fn run_members<K: LineKeeper + Send, L: LogDisk + Send + Sync, P: PageDisk + Send + Sync>(
    rt: &(impl Threads + Wait + Sync),
    hall: &Hall<EngineLaw<L, P>>,
    members: &mut Vec<Member<K, L, P>>,
    kept: &mut K,
    banks: u32,
    alloc: Global,
    names: &NameList,
    plan: &Plan,
    round: &Items,
    threads: usize,
    gate: &(impl Gate + Sync),
)
    requires threads { 0 < threads }
    requires items { All (runnable.MayRun (start_of hall.now).sessions) round.now }
    requires may { All (MayGo hall.now banks round.now plan.now) members.old.items }
    requires none { All (λ m. m.kept ≡ K.nothing) members.old.items }
    requires told { AreToldBy P.tells (start_of hall.now) }
    ensures { HaveRun K.LineKeeper hall.now banks names.now round.now kept.old kept.new members.old.items members.new.items }
{
    if threads == 1 {
        run_in_turn(
            rt, hall, members, kept, banks, alloc, names, plan, round, gate,
        );
        return;
    }
    let all = members.as_mut_slice();
    run_beside(
        rt, hall, all, banks, alloc, names, plan, round, threads, gate,
    );
}

/// Keeps what the members kept, one member behind another, so that no more than one member's lines are held twice.
fn join_members<K: LineKeeper, L: LogDisk, P: PageDisk>(
    members: &mut Vec<Member<K, L, P>>,
    kept: &mut K,
) -> Result<(), Memory>
    ensures sufficed { OnOk result (All (λ m. m.lost ≡ false) members.old.items) }
    ensures kept { OnOk result (kept.new ≡ with_members K.LineKeeper kept.old members.old.items) }
    ensures callers { callers_of members.new.items ≡ callers_of members.old.items }
{
    for member in members.iter_mut() {
        if member.lost {
            return Err(Memory);
        }
        kept.join(&mut member.kept)?;
    }
    Ok(())
}

/// Takes the sessions of a round back.
fn take_back<K: LineKeeper + Drop, L: LogDisk, P: PageDisk>(
    hall: &Hall<EngineLaw<L, P>>,
    host: &mut Host<L, P>,
    members: &mut Vec<Member<K, L, P>>,
    sessions: &mut [Session],
)
    requires host { IsHost hall.now host.old }
    requires names { HoldsAllBut host.old (numbers_of members.old.items) }
    requires may { All (MayReturn hall.now host.old.cluster.banks (length sessions.old)) members.old.items }
    requires apart { AreApart (numbers_of members.old.items) }
    requires others { (n : ℕ) (d : Session) → n < length sessions.old → is_among (numbers_of members.old.items) n ≡ false
        → IsParked hall.now host.old n (get_or sessions.old n d) }
    ensures none { members.new.items ≡ [] }
    ensures host { IsHost hall.now host.new }
    ensures cluster { host.new.cluster ≡ host.old.cluster }
    ensures names { HoldsAllBut host.new [] }
    ensures parked { AreParked hall.now host.new sessions.new }
    ensures back { AreBack host.old host.new members.old.items sessions.old sessions.new }
{
    while let Some(member) = members.pop() {
        let Member {
            caller,
            kept: _,
            lines: _,
            lost: _,
        } = member;
        let number = caller.number;
        let session = dismiss(hall, host, caller);
        sessions[number as usize] = session;
    }
}

/// Runs a round of one session. Its lines are kept for the run at once.
fn run_alone<R: Wait, K: LineKeeper, L: LogDisk, P: PageDisk, G: Gate>(
    rt: &R,
    alloc: Global,
    hall: &Hall<EngineLaw<L, P>>,
    host: &mut Host<L, P>,
    sessions: &mut [Session],
    number: u32,
    plan: &Plan,
    round: &Items,
    names: &NameList,
    kept: &mut K,
    gate: &G,
) -> Result<(), Memory>
    requires host { IsHost hall.now host.old }
    requires all { HoldsAllBut host.old [] }
    requires parked { AreParked hall.now host.old sessions.old }
    requires room { MayAdd (length round.now) sessions.old }
    requires items { All (runnable.MayRun (start_of hall.now).sessions) round.now }
    requires plan { IsPlanOf round.now round.now plan.now × (length plan.now.places.items ≡ length sessions.old) }
    requires alone { plan.now.sessions.items ≡ number ∷ [] }
    requires told { AreToldBy P.tells (start_of hall.now) }
    ensures host { IsHost hall.now host.new }
    ensures cluster { host.new.cluster ≡ host.old.cluster }
    ensures all { HoldsAllBut host.new [] }
    ensures parked { AreParked hall.now host.new sessions.new }
    ensures count { length sessions.new ≡ length sessions.old }
    ensures went { OnOk result ((lines : List Line)
        × WentRound hall.now (turns_in round.now) host.old host.new sessions.old sessions.new lines
        × (kept.new ≡ K.with_lines names.now kept.old lines)) }
{
    let session = mem::replace(&mut sessions[number as usize], new_session(alloc));
    let banks = host.cluster.banks;
    let mut caller = admit(hall, host, number, session);
    let mut lines = ToldLines::none();
    let (by, told) = (&mut caller, &mut lines);
    let ran = run_session(
        rt, hall, by, told, kept, banks, alloc, names, plan, round, gate,
    );
    sessions[number as usize] = dismiss(hall, host, caller);
    ran
}

/// Runs a round of sessions over the lock table, in at most so many threads: each session with its commands, in their
/// order. Keeps their lines, session by session in the order in which they first appear in the round.
///
/// Where memory is wanting for the lines, the run is lost. The sessions are taken back then too.
pub fn run_round<K: LineKeeper + Send + Drop, L: LogDisk + Send + Sync, P: PageDisk + Send + Sync>(
    rt: &(impl Threads + Wait + Sync),
    alloc: Global,
    hall: &Hall<EngineLaw<L, P>>,
    host: &mut Host<L, P>,
    sessions: &mut [Session],
    plan: &Plan,
    round: &Items,
    names: &NameList,
    kept: &mut K,
    threads: usize,
    gate: &(impl Gate + Sync),
) -> Result<(), Memory>
    requires threads { 0 < threads }
    requires host { IsHost hall.now host.old }
    requires all { HoldsAllBut host.old [] }
    requires parked { AreParked hall.now host.old sessions.old }
    requires count { length sessions.old ≡ host.old.cluster.sessions }
    requires room { MayAdd (length round.now) sessions.old }
    requires items { All (runnable.MayRun (length sessions.old)) round.now }
    requires plan { IsPlanOf round.now round.now plan.now × (length plan.now.places.items ≡ length sessions.old) }
    requires told { AreToldBy P.tells (start_of hall.now) }
    ensures host { IsHost hall.now host.new }
    ensures cluster { host.new.cluster ≡ host.old.cluster }
    ensures all { HoldsAllBut host.new [] }
    ensures parked { AreParked hall.now host.new sessions.new }
    ensures count { length sessions.new ≡ length sessions.old }
    ensures went { OnOk result ((lines : List Line)
        × WentRound hall.now (turns_in round.now) host.old host.new sessions.old sessions.new lines
        × (kept.new ≡ K.with_lines names.now kept.old lines)) }
{
    if plan.sessions.len() == 1 {
        let number = plan.sessions[0];
        return run_alone(
            rt, alloc, hall, host, sessions, number, plan, round, names, kept, gate,
        );
    }
    keeper_laws::<K>(names);
    let mut sent = Vec::with_capacity(alloc, plan.sessions.len())?;
    let banks = host.cluster.banks;
    let numbers = plan.sessions.as_slice();
    let_in(hall, alloc, host, numbers, sessions, &mut sent);
    run_members(
        rt, hall, &mut sent, kept, banks, alloc, names, plan, round, threads, gate,
    );
    let joined = join_members(&mut sent, kept);
    take_back(hall, host, &mut sent, sessions);
    sent.destroy_empty();
    joined
}
