//! Runs the rounds of a script over one lock table, and what it asks for between them, and keeps them as they are done.
ghost use Rattle.std.specs.Prelude.{◌≡◌, ◌+◌, ◌^◌, ◌<◌, ◌≤◌, ◌∷◌, ℕ, List, [], IfOk, OnOk, length, true};
ghost use Rattle.std.specs.List.{All};
ghost use Rattle.hall.specs.Calls.{start_of};
ghost use Rattle.engine_host.specs.Hosts.{HasSeenNothing, HoldsAllBut, IsHost, IsNewSession, IsParked};
ghost use Rattle.tx_model.specs.Asked as asked;
ghost use Rattle.tx_model.specs.Asked.{rounds_in};
ghost use Rattle.session_lang.specs.Rounds.{asked_at, asked_of, asked_round};
ghost use Rattle.run_law.specs.Turns.{MayRun, MayShow, is_command, turns_in};
ghost use Rattle.script_rounds.specs.Plans.{IsBlank};
ghost use Rattle.session_run.specs.Rounds.{MayAdd};
ghost use Rattle.session_run.specs.GoesOn.{AreHome, GoesOn};
ghost use Rattle.session_run.specs.Turns.{AreToldBy};
ghost use Rattle.session_run.specs.Parts.{AnswersOn, HasRun, RunsOn};

use crate::laws::{life_begins, life_goes_on};
use crate::round::run_round;
use disk_core::{LogDisk, PageDisk};
use engine_host::Host;
use engine_life::new_sessions;
use engine_parts::{EngineLaw, Gate, Session};
use hall::Hall;
use host_calls::{checkpoint, show};
use script_rounds::{
    LineKeeper, Plan, RoundThreads, SparePlan, keep_checkpoint, keep_dump, next_round,
};
use session_lang::{Between, Dump, Items};
use std::alloc::Global;
use std::sync::Wait;
use std::thread::Threads;
use tx_model::{Memory, NameList};

/// Runs a round that has commands, behind so many rounds, and keeps it.
fn run_numbered<K: LineKeeper + Send + Drop, L: LogDisk + Send + Sync, P: PageDisk + Send + Sync>(
    rt: &(impl Threads + Wait + Sync),
    alloc: Global,
    hall: &Hall<EngineLaw<L, P>>,
    host: &mut Host<L, P>,
    sessions: &mut [Session],
    plan: &mut Plan,
    rounds: u64,
    round: &Items,
    names: &NameList,
    kept: &mut K,
    threads: RoundThreads,
    gate: &(impl Gate + Sync),
) -> Result<(), Memory>
    requires home { AreHome hall.now host.old sessions.old }
    requires room { MayAdd (length round.now) sessions.old }
    requires items { All (MayRun (length sessions.old)) round.now }
    requires plan { IsBlank plan.old × (length plan.old.places.items ≡ length sessions.old) }
    requires few { rounds < 2 ^ 32 }
    requires told { AreToldBy P.tells (start_of hall.now) }
    ensures home { AreHome hall.now host.new sessions.new }
    ensures cluster { host.new.cluster ≡ host.old.cluster }
    ensures count { length sessions.new ≡ length sessions.old }
    ensures plan { OnOk result (IsBlank plan.new × (length plan.new.places.items ≡ length sessions.new)) }
    ensures ran { OnOk result (RunsOn K.LineKeeper hall.now names.now rounds (asked.round (turns_in round.now) ∷ []) host.old
        host.new sessions.old sessions.new kept.old kept.new) }
{
    life_goes_on(hall);
    plan.fill(round)?;
    kept.add_round(rounds + 1)?;
    let count = threads.count(plan, round);
    run_round(
        rt, alloc, hall, host, sessions, plan, round, names, kept, count, gate,
    )?;
    plan.clear();
    Ok(())
}

/// Runs a round behind so many rounds, if it has commands, and answers how many have run then.
fn run_next<K: LineKeeper + Send + Drop, L: LogDisk + Send + Sync, P: PageDisk + Send + Sync>(
    rt: &(impl Threads + Wait + Sync),
    alloc: Global,
    hall: &Hall<EngineLaw<L, P>>,
    host: &mut Host<L, P>,
    sessions: &mut [Session],
    plan: &mut Plan,
    rounds: u64,
    round: &Items,
    names: &NameList,
    kept: &mut K,
    threads: RoundThreads,
    gate: &(impl Gate + Sync),
) -> Result<u64, Memory>
    requires home { AreHome hall.now host.old sessions.old }
    requires room { MayAdd (length round.now) sessions.old }
    requires items { All (MayRun (length sessions.old)) round.now }
    requires commands { All (λ item. is_command item ≡ true) round.now }
    requires plan { IsBlank plan.old × (length plan.old.places.items ≡ length sessions.old) }
    requires few { rounds < 2 ^ 32 }
    requires told { AreToldBy P.tells (start_of hall.now) }
    ensures home { AreHome hall.now host.new sessions.new }
    ensures cluster { host.new.cluster ≡ host.old.cluster }
    ensures count { length sessions.new ≡ length sessions.old }
    ensures plan { OnOk result (IsBlank plan.new × (length plan.new.places.items ≡ length sessions.new)) }
    ensures rounds { IfOk result (λ n. n ≡ rounds + length (rounds_in (asked_round (turns_in round.now)))) }
    ensures ran { OnOk result (RunsOn K.LineKeeper hall.now names.now rounds (asked_round (turns_in round.now)) host.old
        host.new sessions.old sessions.new kept.old kept.new) }
{
    if round.is_empty() {
        return Ok(rounds);
    }
    run_numbered(
        rt, alloc, hall, host, sessions, plan, rounds, round, names, kept, threads, gate,
    )?;
    Ok(rounds + 1)
}

/// Answers a dump, and keeps it. The sessions are all home.
fn show_dump<R: Wait, K: LineKeeper, L: LogDisk, P: PageDisk>(
    rt: &R,
    alloc: Global,
    hall: &Hall<EngineLaw<L, P>>,
    host: &mut Host<L, P>,
    _sessions: &[Session],
    dump: Dump,
    names: &NameList,
    kept: &mut K,
) -> Result<(), Memory>
    requires home { AreHome hall.now host.old _sessions.now }
    requires may { MayShow dump.what dump.at dump.length }
    ensures home { AreHome hall.now host.new _sessions.now }
    ensures cluster { host.new.cluster ≡ host.old.cluster }
    ensures ran { OnOk result (AnswersOn K.LineKeeper hall.now names.now
        (asked.dump dump.what dump.at dump.length ∷ []) host.old host.new _sessions.now kept.old kept.new) }
{
    let reply = show(rt, alloc, hall, host, dump)?;
    keep_dump(alloc, names, dump.what, dump.at, dump.length, reply, kept)
}

/// Makes a checkpoint, and keeps what it was answered. The sessions are all home.
fn make_checkpoint<R: Wait, K: LineKeeper, L: LogDisk, P: PageDisk>(
    rt: &R,
    alloc: Global,
    hall: &Hall<EngineLaw<L, P>>,
    host: &mut Host<L, P>,
    sessions: &[Session],
    names: &NameList,
    kept: &mut K,
) -> Result<(), Memory>
    requires home { AreHome hall.now host.old sessions.now }
    ensures home { AreHome hall.now host.new sessions.now }
    ensures cluster { host.new.cluster ≡ host.old.cluster }
    ensures ran { OnOk result (AnswersOn K.LineKeeper hall.now names.now (asked.checkpoint ∷ []) host.old host.new
        sessions.now kept.old kept.new) }
{
    let reply = checkpoint(rt, alloc, hall, host, sessions);
    keep_checkpoint(alloc, names, reply, kept)
}

/// Answers what the item at this place asks for between two rounds, if it does, and keeps it.
fn answer_next<R: Wait, K: LineKeeper, L: LogDisk, P: PageDisk>(
    rt: &R,
    alloc: Global,
    hall: &Hall<EngineLaw<L, P>>,
    host: &mut Host<L, P>,
    sessions: &[Session],
    script: &Items,
    place: usize,
    names: &NameList,
    kept: &mut K,
) -> Result<(), Memory>
    requires home { AreHome hall.now host.old sessions.now }
    requires items { All (MayRun (length sessions.now)) script.now }
    ensures home { AreHome hall.now host.new sessions.now }
    ensures cluster { host.new.cluster ≡ host.old.cluster }
    ensures ran { OnOk result (AnswersOn K.LineKeeper hall.now names.now (asked_at script.now place) host.old host.new
        sessions.now kept.old kept.new) }
{
    match script.between_at(place) {
        Some(Between::Checkpoint) => {
            make_checkpoint(rt, alloc, hall, host, sessions, names, kept)
        }
        Some(Between::Dump(dump)) => {
            show_dump(rt, alloc, hall, host, sessions, dump, names, kept)
        }
        None => Ok(()),
    }
}

/// Runs the rounds of a script, one after another, and answers what it asks for between them, its sessions being these.
fn run_each<K: LineKeeper + Send + Drop, L: LogDisk + Send + Sync, P: PageDisk + Send + Sync>(
    rt: &(impl Threads + Wait + Sync),
    alloc: Global,
    hall: &Hall<EngineLaw<L, P>>,
    host: &mut Host<L, P>,
    sessions: &mut [Session],
    spare: &mut SparePlan,
    script: Items,
    names: &NameList,
    kept: &mut K,
    threads: RoundThreads,
    gate: &(impl Gate + Sync),
) -> Result<(), Memory>
    requires begins { GoesOn hall.now host.old sessions.old [] }
    requires unseen { HasSeenNothing host.old }
    requires items { All (MayRun (length sessions.old)) script }
    requires few { length script ≤ 2 ^ 24 }
    requires told { AreToldBy P.tells (start_of hall.now) }
    ensures home { AreHome hall.now host.new sessions.new }
    ensures cluster { host.new.cluster ≡ host.old.cluster }
    ensures ran { OnOk result (HasRun K.LineKeeper hall.now host.new sessions.new names.now (asked_of script.entry)
        kept.old kept.new) }
{
    let mut plan = spare.take(alloc, sessions.len())?;
    let mut rest = script;
    let mut rounds = 0;
    while !rest.is_empty() {
        let (round, behind) = next_round(&rest);
        rounds = run_next(
            rt, alloc, hall, host, sessions, &mut plan, rounds, &round, names, kept, threads, gate,
        )?;
        let place = round.len();
        answer_next(rt, alloc, hall, host, sessions, &rest, place, names, kept)?;
        rest = behind;
    }
    spare.keep(plan);
    Ok(())
}

/// Runs the rounds of a life, one after another, and answers what is asked for between them: the sessions of a round on
/// such threads.
pub fn run_rounds<K: LineKeeper + Send + Drop, L: LogDisk + Send + Sync, P: PageDisk + Send + Sync>(
    rt: &(impl Threads + Wait + Sync),
    alloc: Global,
    hall: &Hall<EngineLaw<L, P>>,
    host: &mut Host<L, P>,
    spare: &mut SparePlan,
    names: &NameList,
    part: Items,
    kept: &mut K,
    threads: RoundThreads,
    gate: &(impl Gate + Sync),
) -> Result<(), Memory>
    requires host { IsHost hall.now host.old }
    requires all { HoldsAllBut host.old [] }
    requires unseen { HasSeenNothing host.old }
    requires parked { (n : ℕ) (s : Session) → n < host.old.cluster.sessions → IsNewSession s → IsParked hall.now host.old n s }
    requires items { All (MayRun host.old.cluster.sessions) part }
    requires few { length part ≤ 2 ^ 24 }
    requires told { AreToldBy P.tells (start_of hall.now) }
    ensures host { IsHost hall.now host.new }
    ensures all { HoldsAllBut host.new [] }
    ensures ran { OnOk result ((sessions : List Session) × HasRun K.LineKeeper hall.now host.new sessions names.now
        (asked_of part.entry) kept.old kept.new) }
{
    let mut sessions = new_sessions(alloc, host.cluster.sessions)?;
    life_begins(hall);
    let all = sessions.as_mut_slice();
    run_each(
        rt, alloc, hall, host, all, spare, part, names, kept, threads, gate,
    )
}
