//! A session in a round: it runs its commands, and keeps their lines as they are done.
ghost use Rattle.std.specs.Prelude.{◌≡◌, ◌+◌, ◌^◌, ◌<◌, IsOk, false, length};
ghost use Rattle.std.specs.List.{All};
ghost use Rattle.hall.specs.Calls.{start_of};
ghost use Rattle.engine_parts.specs.Calls.{MayRun};
ghost use Rattle.script_rounds.specs.Plans.{HasPlaces};
ghost use Rattle.run_law.specs.Turns as runnable;
ghost use Rattle.run_law.specs.Turns.{MayAsk};
ghost use Rattle.session_run.specs.Turns.{AreToldBy, Begins, MayGo, RunsNext, RunsRound, commands_of, member_of};

use crate::commands::run_command;
use disk_core::{LogDisk, PageDisk};
use engine_parts::{Caller, EngineLaw, Gate, Gated, Passing, command_of};
use hall::Hall;
use script_rounds::{LineKeeper, PlacesLeft, Plan, ToldLines, command_at};
use session_lang::Items;
use std::alloc::Global;
use std::sync::Wait;
use tx_model::{Command, Memory, NameList};

/// A session in a round.
pub struct Member<K, L: LogDisk, P: PageDisk> {
    pub caller: Caller<L, P>,
    /// What is kept of its lines.
    pub kept: K,
    /// Its lines, for contracts alone.
    pub lines: ToldLines,
    /// Whether memory was wanting for a line. It stopped there.
    pub lost: bool,
}

/// Runs the session's next command and keeps its line. The command ran also where memory was wanting for the line.
fn run_turn<R: Passing, K: LineKeeper, L: LogDisk, P: PageDisk>(
    rt: &R,
    hall: &Hall<EngineLaw<L, P>>,
    caller: &mut Caller<L, P>,
    lines: &mut ToldLines,
    kept: &mut K,
    banks: u32,
    alloc: Global,
    names: &NameList,
    command: &Command,
) -> Result<(), Memory>
    requires ask { MayAsk command.now }
    requires may { MayRun hall.now banks caller.old }
    requires few { commands_of caller.old + 1 < 2 ^ 48 }
    requires told { AreToldBy P.tells (start_of hall.now) }
    ensures { RunsNext K.LineKeeper hall.now banks names.now command.now result
        (member_of caller.old kept.old lines.old) (member_of caller.new kept.new lines.new) }
{
    let reply = run_command(rt, hall, caller, banks, alloc, command);
    let by = command_of(caller);
    lines.add(by, command, &reply);
    kept.add_line(names, by, command, &reply)
}

/// Runs the session's commands of a round, in their order: those at these places. Where memory is wanting it stops.
fn run_places<R: Passing, K: LineKeeper, L: LogDisk, P: PageDisk>(
    rt: &R,
    hall: &Hall<EngineLaw<L, P>>,
    caller: &mut Caller<L, P>,
    lines: &mut ToldLines,
    kept: &mut K,
    banks: u32,
    alloc: Global,
    names: &NameList,
    places: PlacesLeft<'_>,
    round: &Items,
) -> Result<(), Memory>
    requires begins { Begins hall.now banks (length places) (member_of caller.old kept.old lines.old) }
    requires items { All (runnable.MayRun (start_of hall.now).sessions) round.now }
    requires places { HasPlaces caller.old.number round.now round.now places }
    requires told { AreToldBy P.tells (start_of hall.now) }
    ensures { RunsRound K.LineKeeper hall.now banks names.now round.now (IsOk result)
        (member_of caller.old kept.old lines.old) (member_of caller.new kept.new lines.new) }
{
    let mut left = places;
    while let Some(place) = left.next() {
        if let Some(command) = command_at(caller.number, round, place as usize)? {
            run_turn(rt, hall, caller, lines, kept, banks, alloc, names, &command)?;
        }
    }
    Ok(())
}

/// Runs the session's commands of a round, at the places that the plan has for it. It passes the gate before each critical
/// section. Its lines are kept behind what was kept before.
pub fn run_session<R: Wait, K: LineKeeper, L: LogDisk, P: PageDisk, G: Gate>(
    rt: &R,
    hall: &Hall<EngineLaw<L, P>>,
    caller: &mut Caller<L, P>,
    lines: &mut ToldLines,
    kept: &mut K,
    banks: u32,
    alloc: Global,
    names: &NameList,
    plan: &Plan,
    round: &Items,
    gate: &G,
) -> Result<(), Memory>
    requires items { All (runnable.MayRun (start_of hall.now).sessions) round.now }
    requires may { MayGo hall.now banks round.now plan.now (member_of caller.old kept.old lines.old) }
    requires told { AreToldBy P.tells (start_of hall.now) }
    ensures { RunsRound K.LineKeeper hall.now banks names.now round.now (IsOk result)
        (member_of caller.old kept.old lines.old) (member_of caller.new kept.new lines.new) }
{
    let places = plan.places[caller.number as usize].left();
    let gated = Gated { rt, gate };
    let ran = run_places(
        &gated, hall, caller, lines, kept, banks, alloc, names, places, round,
    );
    let Gated { rt: _, gate: _ } = gated;
    ran
}

/// Runs the session's commands of a round, and notes whether memory was wanting for their lines.
pub fn run_member<R: Wait, K: LineKeeper, L: LogDisk, P: PageDisk, G: Gate>(
    rt: &R,
    hall: &Hall<EngineLaw<L, P>>,
    member: &mut Member<K, L, P>,
    banks: u32,
    alloc: Global,
    names: &NameList,
    plan: &Plan,
    round: &Items,
    gate: &G,
)
    requires items { All (runnable.MayRun (start_of hall.now).sessions) round.now }
    requires may { MayGo hall.now banks round.now plan.now member.old }
    requires told { AreToldBy P.tells (start_of hall.now) }
    ensures { RunsRound K.LineKeeper hall.now banks names.now round.now (member.new.lost ≡ false) member.old member.new }
{
    let (by, told, kept) = (&mut member.caller, &mut member.lines, &mut member.kept);
    let ran = run_session(
        rt, hall, by, told, kept, banks, alloc, names, plan, round, gate,
    );
    member.lost = ran.is_err();
}
