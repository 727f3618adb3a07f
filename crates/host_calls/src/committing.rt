//! Which session is in the midst of a commit, or of a multixact.
ghost use Rattle.std.specs.Prelude.{◌≡◌, ◌≢◌, ◌≤◌, ◌↔◌, IsTrue, MatchOption, None, Some, length};
ghost use Rattle.tx_events.specs.declared.refusal.Refusal.TheVariants as refusals;
ghost use Rattle.engine_parts.specs.Stages.{pending_in};
ghost use Rattle.host_calls.specs.Made.{IsFirstCommitting, IsFirstMaking, IsNoneCommitting, IsNoneMaking};

use engine_parts::{Session, Stage};

// Its commit record stands, its commit doesn't.
fn is_committing(session: &Session) -> bool
    ensures { IsTrue result ↔ (pending_in session.now.stage ≡ Some refusals.CommitPending) }
{
    match session.stage {
        Stage::Logged { .. } | Stage::Settling { .. } => true,
        Stage::Clear | Stage::Aborting | Stage::Undoing => false,
    }
}

/// The least session that is in the midst of a commit (`GetVirtualXIDsDelayingChkpt` of
/// `src/backend/storage/ipc/procarray.c`).
pub(crate) fn first_committing(sessions: &[Session]) -> Option<u32>
    requires { length sessions.now ≤ 64 }
    ensures { MatchOption result (IsNoneCommitting sessions.now) (λ n. IsFirstCommitting sessions.now n) }
{
    let mut number = 0u32;
    for session in sessions {
        if is_committing(session) {
            return Some(number);
        }
        number += 1;
    }
    None
}

// It has a number of a multixact, which may not be made.
fn is_making(session: &Session) -> bool
    ensures { IsTrue result ↔ (session.now.making ≢ None) }
{
    match session.making {
        Some(_) => true,
        None => false,
    }
}

/// The least session that is at a multixact: it has a number, and its record, its members and its offset may not stand yet.
pub(crate) fn first_making(sessions: &[Session]) -> Option<u32>
    requires { length sessions.now ≤ 64 }
    ensures { MatchOption result (IsNoneMaking sessions.now) (λ n. IsFirstMaking sessions.now n) }
{
    let mut number = 0u32;
    for session in sessions {
        if is_making(session) {
            return Some(number);
        }
        number += 1;
    }
    None
}
