//! The refusals that the members of a multixact bring by themselves.
ghost use Rattle.std.specs.Prelude.{◌≡◌, ◌==◌, ◌||◌, IfSome, nat_lt, length, true};
ghost use Rattle.standing_rules.specs.Told.{is_bare};
ghost use Rattle.std.specs.List.{count_by};
ghost use Rattle.tx_model.specs.declared.command.Command.TheVariants as commands;
ghost use Rattle.report_law.specs.Steps.{by_members, is_by_members, is_updater_pair, refused_by_members};

use tx_events::{Mode, Refusal};
use tx_model::{Command, Pair, PairList, Reply};

fn is_updater(pair: &Pair) -> bool
    ensures { result ≡ is_updater_pair pair.now }
{
    match pair.mode {
        Mode::NoKeyUpd => true,
        Mode::Upd => true,
        _ => false,
    }
}

fn updaters(pairs: &[Pair]) -> usize
    ensures { result ≡ count_by is_updater_pair pairs.now }
{
    let mut count: usize = 0;
    for pair in pairs {
        if is_updater(pair) {
            count += 1;
        }
    }
    count
}

fn refused_pairs(pairs: &PairList) -> Option<Refusal>
    ensures { result ≡ refused_by_members (commands.Multi pairs.now) }
{
    let count = pairs.items().len();
    if count == 0 || count > 64 {
        return Some(Refusal::MemberCount);
    }
    if updaters(pairs.items()) > 1 {
        return Some(Refusal::TwoUpdaters);
    }
    None
}

/// The refusal that a multixact's members bring by themselves: their count, else two updaters. None of another command.
pub fn refused_by_members(command: &Command) -> Option<Refusal>
    ensures { result ≡ refused_by_members command.now }
{
    match command {
        Command::Multi { members } => refused_pairs(members),
        _ => None,
    }
}

fn is_by_members(refusal: &Refusal) -> bool
    ensures value { result ≡ is_by_members refusal.now }
    ensures bare { result ≡ true → is_bare refusal.now ≡ true }
{
    match refusal {
        Refusal::MemberCount => true,
        Refusal::TwoUpdaters => true,
        _ => false,
    }
}

/// The refusal of a reply that a multixact's members bring by themselves.
pub fn by_members(reply: &Reply) -> Option<Refusal>
    ensures value { result ≡ by_members reply.now }
    ensures bare { IfSome result (λ r. is_bare r ≡ true) }
{
    match reply {
        Reply::Refused { refusal } => {
            if is_by_members(refusal) {
                return Some(*refusal);
            }
            None
        }
        _ => None,
    }
}
