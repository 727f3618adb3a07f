//! The levels of a session's transaction: itself and its open savepoints.
ghost use Rattle.std.specs.Prelude.{◌≡◌, ℕ, ◌+◌, ◌≤◌, ◌<◌, List, [], length};
ghost use Rattle.tx_events.specs.declared.event.Event.{Event};
ghost use Rattle.tx_events.specs.declared.record.Counters.{Counters};
ghost use Rattle.tx_model.specs.Replies.{most_levels};
ghost use Rattle.tx_model.specs.Stance.{without_last};
ghost use Rattle.session_levels.specs.Stands.{Stands, levels_of};
ghost use Rattle.tx_model.specs.declared.command.Command.TheVariants as commands;
ghost use Rattle.session_levels.specs.Acts.{RunsAlone};

use crate::session::Session;
use tx_model::{Refusal, Reply};

/// A transaction has at most so many levels: itself and 1,000 savepoints.
const MOST_LEVELS: usize = 1001;

/// How many levels the session's transaction has: none where it has no transaction.
pub fn depth(session: &Session) -> usize
    requires { length session.now.level_ids.items + session.now.unnamed ≤ most_levels }
    ensures { result ≡ length (levels_of session.now.level_ids.items session.now.unnamed) }
{
    session.level_ids.len() + session.unnamed
}

/// Opens a transaction, which has no id yet (`StartTransaction` of `src/backend/access/transam/xact.c`).
pub fn begin(session: &mut Session) -> Reply
    requires depth { length session.old.level_ids.items + session.old.unnamed ≤ most_levels }
    ensures { RunsAlone session.old session.new commands.Begin result }
{
    if depth(session) > 0 {
        return Reply::Refused {
            refusal: Refusal::AlreadyOpen,
        };
    }
    session.unnamed = 1;
    Reply::Done
}

/// Opens a savepoint, which has no id yet (`DefineSavepoint` and `StartSubTransaction` of `xact.c`). PostgreSQL has
/// no limit on their number but memory; here a transaction has at most 1,000.
pub fn save(session: &mut Session) -> Reply
    requires depth { length session.old.level_ids.items + session.old.unnamed ≤ most_levels }
    ensures { RunsAlone session.old session.new commands.Save result }
{
    let levels = depth(session);
    if levels == 0 {
        return Reply::Refused {
            refusal: Refusal::NoTransaction,
        };
    }
    if levels >= MOST_LEVELS {
        return Reply::Refused {
            refusal: Refusal::DepthLimit,
        };
    }
    session.unnamed += 1;
    Reply::Done
}

/// Closes the innermost level. Its id, if it has one, stays open.
fn close_level(session: &mut Session)
    requires some { 2 ≤ length (levels_of session.old.level_ids.items session.old.unnamed) }
    ensures closed { levels_of session.new.level_ids.items session.new.unnamed
        ≡ without_last (levels_of session.old.level_ids.items session.old.unnamed) }
    ensures registered { session.new.registered.items ≡ session.old.registered.items }
    ensures stands { (base : Counters) (h : List Event) (s n : ℕ) →
        Stands base h s n session.old → Stands base h s n session.new }
    ensures count { session.new.commands ≡ session.old.commands }
{
    if session.unnamed > 0 {
        session.unnamed -= 1;
    } else {
        let _id = session.level_ids.pop();
    }
}

/// Joins the innermost savepoint to its parent, which keeps what was done in it (`CommitSubTransaction` of
/// `xact.c`).
pub fn release(session: &mut Session) -> Reply
    requires depth { length session.old.level_ids.items + session.old.unnamed ≤ most_levels }
    ensures { RunsAlone session.old session.new commands.Release result }
{
    if depth(session) < 2 {
        return Reply::Refused {
            refusal: Refusal::NoSavepoint,
        };
    }
    close_level(session);
    Reply::Done
}
