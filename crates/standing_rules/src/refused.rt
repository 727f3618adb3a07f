//! The refusal that a command gets by how its session stands.
ghost use Rattle.std.specs.Prelude.{◌≡◌, ◌<◌, ◌==◌, nat_le, nat_lt, length, is_some, is_none};
ghost use Rattle.std.specs.Bool.{then_some};
ghost use Rattle.std.specs.Option.{option_or};
ghost use Rattle.tx_events.specs.declared.refusal.Refusal.TheVariants as refusals;
ghost use Rattle.tx_model.specs.Replies.{most_levels};
ghost use Rattle.tx_model.specs.Stance.{snap_of};
ghost use Rattle.life_law.specs.Refused.{held_by, no_savepoint, no_snapshot, no_transaction, refused_by};

use line_stances::Standing;
use tx_events::{Name, Refusal};
use tx_model::Command;

/// A transaction has at most so many levels: itself and 1,000 savepoints.
const MOST_LEVELS: u64 = 1001;

fn refuse_if(yes: bool, refusal: Refusal) -> Option<Refusal>
    ensures { result ≡ then_some yes refusal }
{
    if yes { Some(refusal) } else { None }
}

/// The first of two refusals.
fn first_of(first: Option<Refusal>, second: Option<Refusal>) -> Option<Refusal>
    ensures { result ≡ option_or first second }
{
    match first {
        Some(refusal) => Some(refusal),
        None => second,
    }
}

fn has_none(standing: &Standing) -> bool
    ensures { result ≡ (length standing.now.levels == 0) }
{
    standing.levels.depth() == 0
}

fn has_some(standing: &Standing) -> bool
    ensures { result ≡ nat_lt 0 (length standing.now.levels) }
{
    standing.levels.depth() > 0
}

fn has_one(standing: &Standing) -> bool
    ensures { result ≡ nat_le (length standing.now.levels) 1 }
{
    standing.levels.depth() <= 1
}

fn has_most(standing: &Standing) -> bool
    ensures { result ≡ nat_le most_levels (length standing.now.levels) }
{
    standing.levels.depth() >= MOST_LEVELS
}

fn has_snapshot(name: &Name, standing: &Standing) -> bool
    ensures { result ≡ is_some (snap_of name.now standing.now) }
{
    standing.snaps.command_of(name.items()).is_some()
}

fn has_most_snapshots(standing: &Standing) -> bool
    ensures { result ≡ nat_le 64 (length standing.now.snaps) }
{
    standing.snaps.count() >= 64
}

fn no_transaction(standing: &Standing) -> Option<Refusal>
    ensures { result ≡ no_transaction standing.now }
{
    refuse_if(has_none(standing), Refusal::NoTransaction)
}

fn no_savepoint(standing: &Standing) -> Option<Refusal>
    ensures { result ≡ no_savepoint standing.now }
{
    refuse_if(has_one(standing), Refusal::NoSavepoint)
}

fn no_snapshot(name: &Name, standing: &Standing) -> Option<Refusal>
    ensures { result ≡ no_snapshot name.now standing.now }
{
    if has_snapshot(name, standing) {
        return None;
    }
    Some(Refusal::NoSnapshot)
}

/// The pending end that a command is refused for.
fn held_by(command: &Command, pending: Option<Refusal>) -> Option<Refusal>
    ensures { result ≡ held_by command.now pending }
{
    match command {
        Command::Save => pending,
        Command::Write => pending,
        Command::Release => pending,
        Command::Undo => match pending {
            Some(Refusal::UndoPending) => None,
            _ => pending,
        },
        Command::Commit => match pending {
            Some(Refusal::CommitPending) => None,
            _ => pending,
        },
        Command::Abort => match pending {
            Some(Refusal::AbortPending) => None,
            Some(Refusal::UndoPending) => None,
            _ => pending,
        },
        _ => None,
    }
}

/// The refusal that a command gets by how its session stands, and which end of it is pending: of those that hold, the
/// first in the order of their tests. None where none does.
pub fn refused_by(
    command: &Command,
    standing: &Standing,
    pending: Option<Refusal>,
) -> Option<Refusal>
    ensures { result ≡ refused_by command.now standing.now pending }
{
    match command {
        Command::Begin => refuse_if(has_some(standing), Refusal::AlreadyOpen),
        Command::Save => {
            let deep = refuse_if(has_most(standing), Refusal::DepthLimit);
            let held = first_of(held_by(command, pending), first_of(deep, None));
            first_of(no_transaction(standing), held)
        }
        Command::Write => {
            let held = first_of(held_by(command, pending), None);
            first_of(no_transaction(standing), held)
        }
        Command::Release => {
            let held = first_of(held_by(command, pending), None);
            first_of(no_savepoint(standing), held)
        }
        Command::Undo => {
            let held = first_of(held_by(command, pending), None);
            first_of(no_savepoint(standing), held)
        }
        Command::Commit => {
            let held = first_of(held_by(command, pending), None);
            first_of(no_transaction(standing), held)
        }
        Command::Abort => {
            let held = first_of(held_by(command, pending), None);
            first_of(no_transaction(standing), held)
        }
        Command::Snap { name } => {
            let most = refuse_if(has_most_snapshots(standing), Refusal::SnapLimit);
            let taken = refuse_if(has_snapshot(name, standing), Refusal::NameTaken);
            first_of(taken, first_of(most, None))
        }
        Command::DropSnap { name } => no_snapshot(name, standing),
        Command::See { name, .. } => no_snapshot(name, standing),
        Command::SeeMulti { name, .. } => no_snapshot(name, standing),
        _ => None,
    }
}
