//! The refusals that go by the members alone.
ghost use Rattle.std.specs.Prelude.{◌≡◌};
ghost use Rattle.std.specs.List.{count_by};
ghost use Rattle.life_law.specs.Refused.{is_updater_pair, refused_by_members};
ghost use Rattle.tx_model.specs.declared.command.Command.TheVariants as commands;

use tx_events::{Mode, Refusal};
use tx_model::Pair;

/// The most members that a multixact has.
const MOST_MEMBERS: usize = 64;

/// Whether a member holds the row in a mode that at most one of them may have (`ISUPDATE_from_mxstatus`).
fn is_updater(pair: &Pair) -> bool
    ensures { result ≡ is_updater_pair pair.now }
{
    match pair.mode {
        Mode::NoKeyUpd | Mode::Upd => true,
        Mode::KeySh | Mode::Sh | Mode::ForNoKeyUpd | Mode::ForUpd => false,
    }
}

fn count_updaters(pairs: &[Pair]) -> usize
    ensures { result ≡ count_by is_updater_pair pairs.now }
{
    let mut count = 0;
    for pair in pairs {
        if is_updater(pair) {
            count += 1;
        }
    }
    count
}

/// Why a multixact can't have such members: none or more than 64, else more than one that updates.
pub(crate) fn refused_pairs(pairs: &[Pair]) -> Option<Refusal>
    ensures { result ≡ refused_by_members (commands.Multi pairs.now) }
{
    let count = pairs.len();
    if count == 0 || count > MOST_MEMBERS {
        return Some(Refusal::MemberCount);
    }
    if count_updaters(pairs) > 1 {
        return Some(Refusal::TwoUpdaters);
    }
    None
}
