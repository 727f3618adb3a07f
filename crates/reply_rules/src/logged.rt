//! What the log has of a command that was answered `ok`.
ghost use Rattle.std.specs.Prelude.{◌≡◌, ◌↔◌, IsTrue, List};
ghost use Rattle.std.specs.List.{count_by};
ghost use Rattle.tx_events.specs.declared.record.Rec.{Rec};
ghost use Rattle.tx_model.specs.declared.report.Line.{Line};
ghost use Rattle.tx_model.specs.Stance.{Stance, top_level};
ghost use Rattle.report_law.specs.Steps.{IsLogged, Judged, is_ok_trim, is_truncation};
ghost use Rattle.reply_rules.specs.Logs.{AreLogs, IsCommitLogged};
ghost use Rattle.report_law.specs.Tops.{AreTops};

use id_sets::IdSet;
use std::collections::BTreeSet;
use tx_events::{FullXid, Rec};
use tx_model::{Command, Line, Reply};

/// What a life's log holds of commands that were answered `ok`: the transactions whose commit records are flushed and how
/// many truncations are, the multixacts that are recorded, and whether one is recorded that no event gives.
#[derive(Drop)]
pub struct Logs {
    pub commits: IdSet,
    pub truncations: u64,
    pub multis: BTreeSet<u64>,
    pub stray: bool,
}

fn is_truncation(rec: &Rec) -> bool
    ensures { result ≡ is_truncation rec.now }
{
    matches!(rec, Rec::Truncate { .. })
}

/// How many of the records are truncations.
pub fn truncations(recs: &[Rec]) -> u64
    ensures { result ≡ count_by is_truncation recs.now }
{
    let mut count: u64 = 0;
    for rec in recs {
        if is_truncation(rec) {
            count += 1;
        }
    }
    count
}

/// Whether the line is a `trim` that was answered `ok`.
pub fn is_ok_trim(line: &Line) -> bool
    ensures { result ≡ is_ok_trim line.now }
{
    match &line.command {
        Command::Trim => matches!(line.reply, Reply::Done),
        _ => false,
    }
}

fn is_commit_logged(commits: &IdSet, top: Option<FullXid>) -> bool
    ensures { (recs : List Rec) → AreTops recs commits.now → IsTrue result ↔ IsCommitLogged recs top }
{
    match top {
        Some(top) => commits.contains(top.number()),
        None => true,
    }
}

/// Whether the log has what it promises of a command that was answered so: of a commit, whose transaction had this id; of a
/// `trim` behind so many that were answered `ok`; of a `multi`. Of no other command anything is asked.
pub fn is_logged(
    logs: &Logs,
    trims: u64,
    top: Option<FullXid>,
    command: &Command,
    reply: &Reply,
) -> bool
    ensures { (j : Judged) (before : List Line) (s : Stance) → AreLogs j logs.now → trims ≡ count_by is_ok_trim before → top ≡ top_level s.levels → IsTrue result ↔ IsLogged j before s command.now reply.now }
{
    match command {
        Command::Commit => match reply {
            Reply::Done => is_commit_logged(&logs.commits, top),
            _ => true,
        },
        Command::Trim => match reply {
            Reply::Done => trims < logs.truncations,
            _ => true,
        },
        Command::Multi { .. } => match reply {
            Reply::Multi { multi, .. } => logs.stray || logs.multis.contains(&multi.number()),
            _ => true,
        },
        _ => true,
    }
}
