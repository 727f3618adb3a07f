//! What the replies of a life's lines tell of snapshots and of multixacts, line by line.
ghost use Rattle.std.specs.Prelude.{◌≡◌, ◌++◌, ◌∷◌, [], IfOk, None, OnOk, map, replicate};
ghost use Rattle.std.specs.List.{flat_map};
ghost use Rattle.tx_model.specs.declared.report.Line.{Line};
ghost use Rattle.tx_model.specs.Rounds.{lines_in};
ghost use Rattle.event_rules.specs.SnapsTold.{told_lists};
ghost use Rattle.life_tables.specs.Lives.{is_multi_reply};
ghost use Rattle.life_tables.specs.Told.{AreToldLists, told_of};

use std::alloc::Global;
use tx_events::Memory;
use tx_model::{KeptLine, Reply, SharedSnap, Step};

/// The lists of the snapshot that the reply tells, if it does.
fn told_lists(reply: &Reply) -> Result<Option<SharedSnap>, Memory>
    ensures { IfOk result (λ o. o ≡ told_lists reply.now) }
{
    match reply {
        Reply::Snapped { lists } => Ok(Some(lists.clone()?)),
        _ => Ok(None),
    }
}

/// What the replies of the lines so far tell of snapshots. The last lines, whose replies tell of none, are counted alone.
#[derive(Drop)]
struct ToldSoFar {
    lists: Vec<Option<SharedSnap>>,
    blanks: u64,
}

#[tactic(auto, using(crate::proofs::Snapped::replicate_more))]
fn push_blanks(lists: &mut Vec<Option<SharedSnap>>, count: u64) -> Result<(), Memory>
    ensures { OnOk result (lists.new.items ≡ lists.old.items ++ replicate count None) }
{
    for _n in 0..count {
        lists.push(None)?;
    }
    Ok(())
}

/// One line more, whose reply tells this.
#[tactic(auto, using(crate::proofs::Snapped::told_more, crate::proofs::Snapped::blank_more))]
fn note_lists(so_far: &mut ToldSoFar, told: Option<SharedSnap>) -> Result<(), Memory>
    ensures { OnOk result (told_of so_far.new ≡ told_of so_far.old ++ told ∷ []) }
{
    match told {
        Some(lists) => {
            push_blanks(&mut so_far.lists, so_far.blanks)?;
            so_far.lists.push(Some(lists))?;
            so_far.blanks = 0;
        }
        None => match so_far.blanks.checked_add(1) {
            Some(blanks) => so_far.blanks = blanks,
            None => return Err(Memory),
        },
    }
    Ok(())
}

fn add_lists(so_far: &mut ToldSoFar, lines: &[KeptLine]) -> Result<(), Memory>
    ensures { OnOk result (told_of so_far.new ≡ told_of so_far.old ++ map (λ (l : Line). told_lists l.reply) lines.now) }
{
    for line in lines {
        let look = line.reply();
        note_lists(so_far, told_lists(look.reply())?)?;
    }
    Ok(())
}

fn add_step_lists(so_far: &mut ToldSoFar, step: &Step) -> Result<(), Memory>
    ensures { OnOk result (told_of so_far.new ≡ told_of so_far.old ++ map (λ (l : Line). told_lists l.reply) (lines_in step.now)) }
{
    match step {
        Step::Round { lines, .. } => add_lists(so_far, lines.items()),
        Step::Checkpoint { .. } => Ok(()),
        Step::Dump { .. } => Ok(()),
    }
}

#[tactic(auto, using(crate::proofs::Snapped::none_yet))]
fn none_told(alloc: Global) -> ToldSoFar
    ensures { told_of result ≡ [] }
{
    ToldSoFar {
        lists: Vec::new(alloc),
        blanks: 0,
    }
}

/// The lists of the snapshot that each line's reply tells, up to the last line that tells of one.
#[tactic(auto, using(crate::proofs::Snapped::all_told))]
pub fn lists_by_lines(alloc: Global, steps: &[Step]) -> Result<Vec<Option<SharedSnap>>, Memory>
    ensures { IfOk result (λ lists. AreToldLists (flat_map lines_in steps.now) lists.items) }
{
    let mut so_far = none_told(alloc);
    for step in steps {
        add_step_lists(&mut so_far, step)?;
    }
    let ToldSoFar { lists, .. } = so_far;
    Ok(lists)
}

fn is_multi(reply: &Reply) -> bool
    ensures { result ≡ is_multi_reply reply.now }
{
    matches!(reply, Reply::Multi { .. })
}

fn add_gave(gave: &mut Vec<bool>, lines: &[KeptLine]) -> Result<(), Memory>
    ensures { OnOk result (gave.new.items ≡ gave.old.items ++ map (λ (l : Line). is_multi_reply l.reply) lines.now) }
{
    for line in lines {
        let look = line.reply();
        gave.push(is_multi(look.reply()))?;
    }
    Ok(())
}

fn add_step_gave(gave: &mut Vec<bool>, step: &Step) -> Result<(), Memory>
    ensures { OnOk result (gave.new.items ≡ gave.old.items ++ map (λ (l : Line). is_multi_reply l.reply) (lines_in step.now)) }
{
    match step {
        Step::Round { lines, .. } => add_gave(gave, lines.items()),
        Step::Checkpoint { .. } => Ok(()),
        Step::Dump { .. } => Ok(()),
    }
}

/// Whether each line's reply gives a multixact.
pub fn gave_by_lines(alloc: Global, steps: &[Step]) -> Result<Vec<bool>, Memory>
    ensures { IfOk result (λ gave. gave.items ≡ map (λ (l : Line). is_multi_reply l.reply) (flat_map lines_in steps.now)) }
{
    let mut gave = Vec::new(alloc);
    for step in steps {
        add_step_gave(&mut gave, step)?;
    }
    Ok(gave)
}
