//! How each session stands, line by line.
ghost use Rattle.std.specs.Prelude.{◌≡◌, ◌<◌, List, [], IfOk, OnOk, length};
ghost use Rattle.tx_events.specs.declared.record.Rec.{Rec};
ghost use Rattle.tx_model.specs.Stance.{top_level};
ghost use Rattle.life_law.specs.Pending.{is_recorded};
ghost use Rattle.report_law.specs.Tops.{AreTops};
ghost use Rattle.standing_rules.specs.Sessions.{AreBehind, IsAdded, IsBehind, Lived, with_line};

use crate::pending::{Unfinished, pending_after, unfinished_behind};
use id_sets::IdSet;
use line_stances::Standing;
use std::alloc::Global;
use tx_events::{FullXid, Memory, Refusal};
use tx_model::Line;

/// How a session stands after some of its lines: its levels and snapshots, which end is pending, told by the refusal that
/// it brings, and whether a multixact is.
#[derive(Drop)]
pub struct Session {
    pub standing: Standing,
    pub pending: Option<Refusal>,
    pub unfinished: Unfinished,
}

/// So many sessions before their first line.
pub fn new_sessions(alloc: Global, count: u32) -> Result<Vec<Session>, Memory>
    ensures { (v : Lived) → v.lines ≡ [] → IfOk result (λ all. AreBehind v count all.items) }
{
    let mut all = Vec::with_capacity(alloc, count as usize)?;
    for _n in 0..count {
        all.push(Session {
            standing: Standing::new(alloc),
            pending: None,
            unfinished: Unfinished::Nothing,
        })?;
    }
    Ok(all)
}

fn is_recorded(tops: &IdSet, top: Option<FullXid>) -> bool
    ensures { (recs : List Rec) → AreTops recs tops.now → result ≡ is_recorded recs top }
{
    match top {
        Some(top) => tops.contains(top.number()),
        None => false,
    }
}

/// Whether a commit record stands of the transaction that is open, whose records are of these tops.
fn is_open_recorded(tops: &IdSet, standing: &Standing) -> bool
    ensures { (recs : List Rec) → AreTops recs tops.now → result ≡ is_recorded recs (top_level standing.now.levels) }
{
    is_recorded(tops, standing.levels.top())
}

/// A session's line more, whose command gave these ids, and a multixact or none.
fn add_to(
    session: &mut Session,
    tops: &IdSet,
    line: &Line,
    ids: &[FullXid],
    gave: bool,
) -> Result<(), Memory>
    ensures { (v : Lived) → AreTops v.recs tops.now → IsAdded v line.now ids.now gave → IsBehind v line.now.by.session session.old → OnOk result (IsBehind (with_line v line.now) line.now.by.session session.new) }
{
    let recorded = is_open_recorded(tops, &session.standing);
    session.pending = pending_after(recorded, session.pending, &line.command, &line.reply);
    session.unfinished = unfinished_behind(session.unfinished, gave, &line.command, &line.reply);
    session.standing.add(line, ids)
}

/// A line more, whose command gave these ids, and a multixact or none. The life's commit records are of these tops. After
/// want of memory nothing is known of the line's session.
pub fn add_line(
    sessions: &mut Vec<Session>,
    tops: &IdSet,
    line: &Line,
    ids: &[FullXid],
    gave: bool,
) -> Result<(), Memory>
    ghost v: { Lived }
    requires session { line.now.by.session < length sessions.old.items }
    requires tops { AreTops v.recs tops.now }
    requires added { IsAdded v line.now ids.now gave }
    requires stand { AreBehind v (length sessions.old.items) sessions.old.items }
    ensures { OnOk result (AreBehind (with_line v line.now) (length sessions.old.items) sessions.new.items) }
{
    add_to(
        &mut sessions[line.by.session as usize],
        tops,
        line,
        ids,
        gave,
    )
}
