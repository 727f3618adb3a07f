//! The events of each session, by command and place.
ghost use Rattle.std.specs.Prelude.{◌≡◌, ◌<◌, List, [], IfOk};
ghost use Rattle.std.specs.List.{All};
ghost use Rattle.tx_events.specs.declared.event.By.{By};
ghost use Rattle.place_columns.specs.Owned.{AreAllOwn, AreInTurn, IsReadFrom, is_upto, own_of};

use std::alloc::Global;
use tx_events::{By, Memory};

/// An event of a session: of which command, and where it stands.
#[derive(Clone, Copy, Debug, PartialEq, Eq)]
pub struct Own {
    pub command: u64,
    pub place: u64,
}

/// No session has an event.
#[tactic(auto, using(crate::proofs::Filling::own_none))]
fn none_own(alloc: Global, sessions: u32) -> Result<Vec<Vec<Own>>, Memory>
    ensures { IfOk result (λ lists. AreAllOwn [] sessions lists.items) }
{
    let mut lists = Vec::with_capacity(alloc, sessions as usize)?;
    for _n in 0..sessions {
        lists.push(Vec::new(alloc))?;
    }
    Ok(lists)
}

/// The events of each session, where these commands have events in this order.
pub fn own_places(alloc: Global, sessions: u32, bys: &[By]) -> Result<Vec<Vec<Own>>, Memory>
    requires { All (λ b. b.session < sessions) bys.now }
    ensures { IfOk result (λ lists. AreAllOwn bys.now sessions lists.items) }
{
    let mut lists = none_own(alloc, sessions)?;
    for (place, by) in bys.iter().enumerate() {
        lists[by.session as usize].push(Own {
            command: by.command,
            place: place as u64,
        })?;
    }
    Ok(lists)
}

/// Whether the event is of the command or an earlier one, and stands before this place.
fn is_upto(own: Own, command: u64, to: u64) -> bool
    ensures { result ≡ is_upto command to own }
{
    own.command <= command && own.place < to
}

/// From which place on, up to `to`, a command may read: behind all that its session did up to it. These are the session's
/// events.
pub fn read_from(own: &[Own], by: By, to: u64) -> u64
    ghost bys: { List By }
    requires listed { own.now ≡ own_of by.session bys }
    requires turn { AreInTurn bys }
    ensures { IsReadFrom bys by to result }
{
    let count = own.partition_point(|o| is_upto(*o, by.command, to));
    if count == 0 {
        return 0;
    }
    own[count - 1].place + 1
}
