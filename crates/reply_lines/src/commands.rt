//! The rule of a command's line.
ghost use Rattle.std.specs.Prelude.{◌≡◌, ◌≢◌, ◌↔◌, ◌+◌, ◌++◌, ◌∷◌, [], IfOk, IsTrue, List, None, OnOk, length, map, nat_lt};
ghost use Rattle.std.specs.List.{count_by};
ghost use Rattle.tx_events.specs.declared.event.Event.{Event};
ghost use Rattle.tx_events.specs.declared.multi.MultiEvent.{MultiEvent};
ghost use Rattle.tx_events.specs.Multis.{multi_by};
ghost use Rattle.place_columns.specs.OwnPlaces.{ArePlacesOf};
ghost use Rattle.report_law.specs.Places.{multis_of};
ghost use Rattle.tx_events.specs.Events.{events_of, given};
ghost use Rattle.event_rules.specs.Told.{AreToldEvents};
ghost use Rattle.standing_rules.specs.Sessions.{AreBehind, IsBehind, with_line};
ghost use Rattle.life_law.specs.Refused.{by_standing, is_by_standing};
ghost use Rattle.report_law.specs.Steps.{HasFirst, HasFirstMultis, IsLawfulCommand, IsLogged, by_members, is_ok_trim};
ghost use Rattle.reply_lines.specs.At.{AtLine, IsLawfulOf, IsLawfulUnless, IsReportOf, IsRoundAt, StandsThere, before_at, earlier_at, lines_at, lived_at, rounds_at, span_at, stance_at};
ghost use Rattle.reply_lines.specs.Known.{IsKept, IsKnown};

use crate::both::all_six;
use crate::known::{Kept, Known};
use crate::own::{events_at, ids_at, multis_at};
use crate::replies::is_lawful_reply;
use crate::rounds::RoundAt;
use command_events::{has_first_multis, told_events};
use event_rules::mark_told;
use line_stances::top_of;
use reply_rules::is_logged;
use standing_rules::{
    Session, add_line, by_members, is_refused_by_members, is_refused_by_standing,
};
use std::alloc::Global;
use tx_events::{Event, FullXid, Memory, MultiEvent, Refusal};
use tx_model::{LifeReport, Line, Reply};

fn is_standing_refusal(refusal: &Refusal) -> bool
    ensures { result ≡ is_by_standing refusal.now }
{
    match refusal {
        Refusal::AlreadyOpen => true,
        Refusal::NoTransaction => true,
        Refusal::NoSavepoint => true,
        Refusal::DepthLimit => true,
        Refusal::CommitPending => true,
        Refusal::AbortPending => true,
        Refusal::UndoPending => true,
        Refusal::NameTaken => true,
        Refusal::SnapLimit => true,
        Refusal::NoSnapshot => true,
        _ => false,
    }
}

/// Whether the reply is a refusal by how the session stands.
fn is_by_standing(reply: &Reply) -> bool
    ensures { IsTrue result ↔ (by_standing reply.now ≢ None) }
{
    match reply {
        Reply::Refused { refusal } => is_standing_refusal(refusal),
        _ => false,
    }
}

/// Whether the reply is a refusal by the command's members.
fn is_by_members(reply: &Reply) -> bool
    ensures { IsTrue result ↔ (by_members reply.now ≢ None) }
{
    by_members(reply).is_some()
}

/// Whether the line's reply is lawful, unless it is a refusal by how the session stands or by its members.
fn is_lawful_unless(
    lives: &[LifeReport],
    kept: &Kept,
    report: &LifeReport,
    known: &Known,
    round: RoundAt,
    session: &Session,
    number: u64,
    line: &Line,
) -> bool
    ghost at: { AtLine }
    requires report { IsReportOf at.j report.now }
    requires kept { IsKept at.j.begun lives.now kept.now }
    requires known { IsKnown at.j known.now }
    requires round { IsRoundAt at.j (rounds_at at) (lines_at at) known.now round }
    requires stands { StandsThere at number line.now }
    requires session { IsBehind (lived_at at) line.now.by.session session.now }
    ensures { IsTrue result ↔ IsLawfulUnless at line.now }
{
    if is_by_standing(&line.reply) {
        return true;
    }
    if is_by_members(&line.reply) {
        return true;
    }
    is_lawful_reply(
        lives,
        kept,
        report.life.multis.items(),
        known,
        round,
        &session.standing,
        number,
        line,
    )
}

/// The events of the line's command.
fn its_events(
    alloc: Global,
    report: &LifeReport,
    known: &Known,
    number: u64,
    line: &Line,
) -> Result<Vec<Event>, Memory>
    ghost at: { AtLine }
    requires report { IsReportOf at.j report.now }
    requires known { IsKnown at.j known.now }
    requires stands { StandsThere at number line.now }
    ensures { IfOk result (λ es. es.items ≡ events_of line.now.by at.j.life.events) }
{
    events_at(alloc, report.life.events.items(), &known.events, number)
}

/// The ids that they give.
fn its_ids(
    alloc: Global,
    report: &LifeReport,
    known: &Known,
    number: u64,
    line: &Line,
) -> Result<Vec<FullXid>, Memory>
    ghost at: { AtLine }
    requires report { IsReportOf at.j report.now }
    requires known { IsKnown at.j known.now }
    requires stands { StandsThere at number line.now }
    ensures { IfOk result (λ ids. ids.items ≡ given (events_of line.now.by at.j.life.events)) }
{
    ids_at(alloc, report.life.events.items(), &known.events, number)
}

/// Its multixact events.
fn its_multis(
    alloc: Global,
    report: &LifeReport,
    known: &Known,
    number: u64,
    line: &Line,
) -> Result<Vec<MultiEvent>, Memory>
    ghost at: { AtLine }
    requires report { IsReportOf at.j report.now }
    requires known { IsKnown at.j known.now }
    requires stands { StandsThere at number line.now }
    ensures { IfOk result (λ es. es.items ≡ multis_of line.now.by at.j.life.multis) }
{
    multis_at(alloc, report.life.multis.items(), &known.multis, number)
}

/// Where they stand.
fn multi_places_of<'a>(known: &'a Known, number: u64, line: &Line) -> &'a [u64]
    ghost at: { AtLine }
    requires known { IsKnown at.j known.now }
    requires stands { StandsThere at number line.now }
    ensures { ArePlacesOf line.now.by (map multi_by at.j.life.multis) result.now }
{
    known.multis.places(number)
}

/// Whether its command's events begin with such as its reply tells. Marks each of them that is told in its turn.
fn mark_events(
    alloc: Global,
    report: &LifeReport,
    known: &Known,
    session: &Session,
    number: u64,
    line: &Line,
    told: &mut Vec<bool>,
) -> Result<bool, Memory>
    ghost at: { AtLine }
    requires report { IsReportOf at.j report.now }
    requires known { IsKnown at.j known.now }
    requires stands { StandsThere at number line.now }
    requires session { IsBehind (lived_at at) line.now.by.session session.now }
    requires told { AreToldEvents at.j number told.old.items }
    ensures has { IfOk result (λ b. IsTrue b ↔ ((es : List Event) × HasFirst at.j (before_at at) line.now es)) }
    ensures told { OnOk result (AreToldEvents at.j (number + 1) told.new.items) }
{
    let own = its_events(alloc, report, known, number, line)?;
    match told_events(alloc, &session.standing, line, own.as_slice())? {
        Some(events) => {
            mark_told(told, own.as_slice(), events.as_slice())?;
            Ok(true)
        }
        None => {
            mark_told(told, own.as_slice(), &[])?;
            Ok(false)
        }
    }
}

/// Whether its command's multixact events begin with such as its reply tells.
fn has_its_multis(
    alloc: Global,
    report: &LifeReport,
    known: &Known,
    round: RoundAt,
    number: u64,
    line: &Line,
) -> Result<bool, Memory>
    ghost at: { AtLine }
    requires report { IsReportOf at.j report.now }
    requires known { IsKnown at.j known.now }
    requires round { IsRoundAt at.j (rounds_at at) (lines_at at) known.now round }
    requires stands { StandsThere at number line.now }
    ensures { IfOk result (λ b. IsTrue b ↔ ((es : List MultiEvent) × HasFirstMultis at.j (span_at at) line.now es)) }
{
    let multis = report.life.multis.items();
    let own = its_multis(alloc, report, known, number, line)?;
    Ok(has_first_multis(
        round.reach,
        &known.counts,
        multis,
        own.as_slice(),
        multi_places_of(known, number, line),
        line,
    ))
}

/// Whether the command's line is lawful: of this number in its life, behind so many trims that were answered `ok`. Marks
/// which of its events its reply tells, behind those of the lines before.
pub fn is_lawful_command(
    alloc: Global,
    lives: &[LifeReport],
    kept: &Kept,
    report: &LifeReport,
    known: &Known,
    round: RoundAt,
    session: &Session,
    trims: u64,
    number: u64,
    line: &Line,
    told: &mut Vec<bool>,
) -> Result<bool, Memory>
    ghost at: { AtLine }
    requires report { IsReportOf at.j report.now }
    requires kept { IsKept at.j.begun lives.now kept.now }
    requires known { IsKnown at.j known.now }
    requires round { IsRoundAt at.j (rounds_at at) (lines_at at) known.now round }
    requires stands { StandsThere at number line.now }
    requires session { IsBehind (lived_at at) line.now.by.session session.now }
    requires trims { trims ≡ count_by is_ok_trim (before_at at) }
    requires told { AreToldEvents at.j number told.old.items }
    ensures lawful { IfOk result (λ b. IsTrue b ↔ IsLawfulCommand at.j (rounds_at at) (lines_at at) (earlier_at at) line.now) }
    ensures told { OnOk result (AreToldEvents at.j (number + 1) told.new.items) }
{
    let events = mark_events(alloc, report, known, session, number, line, told)?;
    let multis = has_its_multis(alloc, report, known, round, number, line)?;
    let standing = is_refused_by_standing(line, &session.standing, session.pending);
    let members = is_refused_by_members(line);
    let reply = is_lawful_unless(lives, kept, report, known, round, session, number, line);
    let logged = is_logged(
        &known.logs,
        trims,
        top_of(&session.standing),
        &line.command,
        &line.reply,
    );
    Ok(all_six(events, multis, standing, members, reply, logged))
}

fn has_some(places: &[u64]) -> bool
    ensures { result ≡ nat_lt 0 (length places.now) }
{
    places.len() > 0
}

/// Whether the line's command has a multixact event.
fn has_multi(known: &Known, number: u64, line: &Line) -> bool
    ghost at: { AtLine }
    requires known { IsKnown at.j known.now }
    requires stands { StandsThere at number line.now }
    ensures { result ≡ nat_lt 0 (length (multis_of line.now.by at.j.life.multis)) }
{
    has_some(known.multis.places(number))
}

/// How the sessions stand behind the line, too.
pub fn pass_line(
    alloc: Global,
    report: &LifeReport,
    known: &Known,
    number: u64,
    line: &Line,
    sessions: &mut Vec<Session>,
) -> Result<(), Memory>
    ghost at: { AtLine }
    requires report { IsReportOf at.j report.now }
    requires known { IsKnown at.j known.now }
    requires stands { StandsThere at number line.now }
    requires size { length sessions.old.items ≡ 64 }
    requires stand { AreBehind (lived_at at) 64 sessions.old.items }
    ensures { OnOk result (AreBehind (with_line (lived_at at) line.now) 64 sessions.new.items) }
{
    let ids = its_ids(alloc, report, known, number, line)?;
    let gave = has_multi(known, number, line);
    add_line(sessions, &known.tops, line, ids.as_slice(), gave)
}
