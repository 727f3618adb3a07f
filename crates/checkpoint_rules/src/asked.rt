//! Which sessions are in the midst of something where a checkpoint is asked for.
ghost use Rattle.std.specs.Prelude.{◌≡◌, ◌↔◌, ◌<◌, IsTrue, List, Some, length};
ghost use Rattle.std.specs.List.{AllByRecursion, flat_map};
ghost use Rattle.tx_events.specs.declared.refusal.Refusal.TheVariants as refusals;
ghost use Rattle.tx_model.specs.Rounds.{lines_in};
ghost use Rattle.standing_rules.specs.Told.{told_of};
ghost use Rattle.reply_rules.specs.Ends.{IsLogEnd};
ghost use Rattle.report_law.specs.Standing.{unfinished};
ghost use Rattle.standing_rules.specs.Sessions.{AreBehind};
ghost use Rattle.checkpoint_rules.specs.Asked.{IsAsked, IsNamed};
ghost use Rattle.checkpoint_rules.specs.Behind.{Walked};
ghost use Rattle.checkpoint_rules.specs.Midst.{AreFew, IsInCommit, IsInMulti, IsLeastIn, lived_behind};

use crate::pending::Asked;
use reply_rules::LogEnd;
use standing_rules::{Session, Unfinished};
use tx_events::Refusal;
use tx_model::Reply;

fn is_in_commit(session: &Session) -> bool
    ensures { IsTrue result ↔ IsInCommit session.now }
{
    match session.pending {
        Some(refusal) => match refusal {
            Refusal::CommitPending => true,
            _ => false,
        },
        None => false,
    }
}

fn is_in_multi(session: &Session) -> bool
    ensures { IsTrue result ↔ IsInMulti session.now }
{
    match session.unfinished {
        Unfinished::Nothing => false,
        Unfinished::Perhaps => false,
        Unfinished::Sure => true,
    }
}

/// The least session that is in the midst of a commit.
fn least_in_commit(sessions: &[Session]) -> Option<u32>
    requires { length sessions.now ≡ 64 }
    ensures { IsLeastIn IsInCommit sessions.now result }
{
    for (place, session) in sessions.iter().enumerate() {
        if is_in_commit(session) {
            return Some(place as u32);
        }
    }
    None
}

/// The least session that surely is in the midst of a multixact.
fn least_in_multi(sessions: &[Session]) -> Option<u32>
    requires { length sessions.now ≡ 64 }
    ensures { IsLeastIn IsInMulti sessions.now result }
{
    for (place, session) in sessions.iter().enumerate() {
        if is_in_multi(session) {
            return Some(place as u32);
        }
    }
    None
}

/// What a checkpoint is judged by behind these steps, where the 64 sessions stand so.
pub fn asked_of(sessions: &[Session], end: LogEnd) -> Asked
    ghost at: { Walked }
    requires sessions { AreBehind (lived_behind at) 64 sessions.now }
    requires few { AreFew (flat_map lines_in at.before) }
    requires end { IsLogEnd at.j end }
    ensures { IsAsked at.j (flat_map lines_in at.before) result }
{
    let commit = least_in_commit(sessions);
    let sure = least_in_multi(sessions);
    Asked { commit, sure, end }
}

/// What is unfinished of a session.
fn left_of(sessions: &[Session], session: u32) -> Unfinished
    ghost at: { Walked }
    requires sessions { AreBehind (lived_behind at) 64 sessions.now }
    requires few { AreFew (flat_map lines_in at.before) }
    ensures { told_of result ≡ unfinished at.j.life.multis (flat_map lines_in at.before) session }
{
    if session < 64 {
        return sessions[session as usize].unfinished;
    }
    Unfinished::Nothing
}

/// What is unfinished of the session that the reply names.
pub fn named_of(sessions: &[Session], reply: &Reply) -> Unfinished
    ghost at: { Walked }
    requires sessions { AreBehind (lived_behind at) 64 sessions.now }
    requires few { AreFew (flat_map lines_in at.before) }
    ensures { IsNamed at.j (flat_map lines_in at.before) reply.now result }
{
    match reply {
        Reply::Pending { session, .. } => left_of(sessions, *session),
        _ => Unfinished::Nothing,
    }
}
