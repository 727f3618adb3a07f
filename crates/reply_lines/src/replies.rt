//! Whether a command's reply is lawful.
ghost use Rattle.std.specs.Prelude.{◌≡◌, ◌<◌, ◌≤◌, ◌↔◌, IsTrue, None, length, take, true};
ghost use Rattle.tx_events.specs.Running.{open_ids};
ghost use Rattle.tx_events.specs.declared.refusal.Refusal.TheVariants as refusals;
ghost use Rattle.tx_model.specs.declared.command.Command.TheVariants as commands;
ghost use Rattle.tx_model.specs.declared.reply.Reply.TheVariants as replies;
ghost use Rattle.life_law.specs.Refused.{by_standing};
ghost use Rattle.report_law.specs.Answers.{own_before};
ghost use Rattle.reply_rules.specs.Plain.{is_by_log, is_log_refusal};
ghost use Rattle.reply_lines.specs.At.{AtKnown, AtLine, IsLawfulOf, IsRoundAt, StandsThere, lines_at, rounds_at, stance_at};
ghost use Rattle.reply_lines.specs.Known.{IsKept, IsKnown};

use crate::by_commands::by_places;
use crate::known::{Kept, Known};
use crate::reading::asking_of;
use crate::rounds::RoundAt;
use line_stances::Standing;
use place_rules::open_before;
use reply_rules::{
    goes_by_places, is_by_log, is_lawful_full_commit, is_lawful_refusal, is_plain_reply,
};
use tx_events::{By, MultiEvent, Refusal};
use tx_model::{Command, LifeReport, Line, Reply};

/// How many ids the session has open below the command, where its round is judged.
fn ids_below(known: &Known, round: RoundAt, by: By) -> u64
    ghost of: { AtKnown }
    requires same { of.known ≡ known.now }
    requires known { IsKnown of.at.j known.now }
    requires within { IsTrue round.judged → round.to ≤ length known.now.places.events }
    requires few { by.session < 64 }
    ensures { IsTrue round.judged → result ≡ length (open_ids by.session (own_before by (take round.to of.at.j.life.events))) }
{
    if !round.judged {
        return 0;
    }
    open_below(known, round.to, by)
}

/// That the log is full for a commit: judged by how many ids its session has open below it.
fn by_full_commit(known: &Known, round: RoundAt, by: By) -> bool
    ghost at: { AtLine }
    requires known { IsKnown at.j known.now }
    requires round { IsRoundAt at.j (rounds_at at) (lines_at at) known.now round }
    requires few { by.session < 64 }
    ensures { IsTrue result ↔ IsLawfulOf at by commands.Commit (replies.Refused refusals.Full) }
{
    is_lawful_full_commit(known.end, round.judged, ids_below(known, round, by))
}

/// How many ids the session has open below the command, by the events before this place of the legal front.
fn open_below(known: &Known, to: u64, by: By) -> u64
    ghost of: { AtKnown }
    requires same { of.known ≡ known.now }
    requires known { IsKnown of.at.j known.now }
    requires within { to ≤ length known.now.places.events }
    requires few { by.session < 64 }
    ensures { result ≡ length (open_ids by.session (own_before by (take to of.at.j.life.events))) }
{
    let _legal = known.places.replay().events();
    open_before(
        known.turns[by.session as usize].as_slice(),
        known.opened.as_slice(),
        by,
        to,
    )
}

fn by_log_of_commit(known: &Known, round: RoundAt, by: By, refusal: &Refusal) -> bool
    ghost at: { AtLine }
    requires known { IsKnown at.j known.now }
    requires round { IsRoundAt at.j (rounds_at at) (lines_at at) known.now round }
    requires few { by.session < 64 }
    requires log { is_log_refusal refusal.now ≡ true }
    ensures { IsTrue result ↔ IsLawfulOf at by commands.Commit (replies.Refused refusal.now) }
{
    match refusal {
        Refusal::Full => by_full_commit(known, round, by),
        _ => is_lawful_refusal(known.end, &Command::Commit, refusal),
    }
}

fn by_log(known: &Known, round: RoundAt, by: By, command: &Command, refusal: &Refusal) -> bool
    ghost at: { AtLine }
    requires known { IsKnown at.j known.now }
    requires round { IsRoundAt at.j (rounds_at at) (lines_at at) known.now round }
    requires few { by.session < 64 }
    requires log { is_log_refusal refusal.now ≡ true }
    ensures { IsTrue result ↔ IsLawfulOf at by command.now (replies.Refused refusal.now) }
{
    match command {
        Command::Commit => by_log_of_commit(known, round, by, refusal),
        _ => is_lawful_refusal(known.end, command, refusal),
    }
}

fn by_log_reply(known: &Known, round: RoundAt, by: By, command: &Command, reply: &Reply) -> bool
    ghost at: { AtLine }
    requires known { IsKnown at.j known.now }
    requires round { IsRoundAt at.j (rounds_at at) (lines_at at) known.now round }
    requires few { by.session < 64 }
    requires log { is_by_log reply.now ≡ true }
    ensures { IsTrue result ↔ IsLawfulOf at by command.now reply.now }
{
    match reply {
        Reply::Refused { refusal } => by_log(known, round, by, command, refusal),
        _ => false,
    }
}

/// Whether the line's reply is lawful, which is no refusal by how the session stands or by its members.
pub fn is_lawful_reply(
    lives: &[LifeReport],
    kept: &Kept,
    multis: &[MultiEvent],
    known: &Known,
    round: RoundAt,
    standing: &Standing,
    number: u64,
    line: &Line,
) -> bool
    ghost at: { AtLine }
    requires kept { IsKept at.j.begun lives.now kept.now }
    requires multis { multis.now ≡ at.j.life.multis }
    requires known { IsKnown at.j known.now }
    requires round { IsRoundAt at.j (rounds_at at) (lines_at at) known.now round }
    requires standing { standing.now ≡ stance_at at line.now.by }
    requires stands { StandsThere at number line.now }
    requires other { by_standing line.now.reply ≡ None }
    ensures { IsTrue result ↔ IsLawfulOf at line.now.by line.now.command line.now.reply }
{
    if is_by_log(&line.reply) {
        return by_log_reply(known, round, line.by, &line.command, &line.reply);
    }
    if !goes_by_places(&line.command, &line.reply) {
        return is_plain_reply(standing, &line.command, &line.reply);
    }
    if !round.judged {
        return true;
    }
    let asking = asking_of(known, round, number, line.by);
    by_places(
        known,
        kept,
        lives,
        multis,
        asking,
        standing,
        &line.command,
        &line.reply,
    )
}
