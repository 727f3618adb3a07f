//! The numbers of the sessions' last events.
ghost use Rattle.std.specs.Prelude.{◌≡◌, ◌<◌, ◌≤◌, ◌↔◌, IsTrue, IfOk, [], length, slice_index, slice_set};
ghost use Rattle.history_check.specs.Replays.{AreTurns};

use std::alloc::Global;
use tx_events::{By, Memory};

/// No session has an event.
#[tactic(auto, using(crate::proofs::TurnLemmas::turns_none))]
pub fn no_turns(alloc: Global, sessions: u32) -> Result<Vec<u64>, Memory>
    ensures { IfOk result (λ last. AreTurns sessions [] last.items) }
{
    let mut last = Vec::new(alloc);
    for _n in 0..sessions {
        last.push(0)?;
    }
    Ok(last)
}

/// Whether the command isn't below the session's last one.
pub fn is_in_turn(last: &[u64], by: By) -> bool
    requires { by.session < length last.now }
    ensures { IsTrue result ↔ (slice_index last.now by.session ≤ by.command) }
{
    last[by.session as usize] <= by.command
}

/// The session's last event is of this command.
pub fn note(last: &mut [u64], by: By)
    requires { by.session < length last.old }
    ensures { last.new ≡ slice_set last.old by.session by.command }
{
    last[by.session as usize] = by.command;
}
