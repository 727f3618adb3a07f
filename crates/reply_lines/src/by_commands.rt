//! Whether a reply is lawful that goes by places of the histories, command by command, where its round is judged.
ghost use Rattle.std.specs.Prelude.{◌≡◌, ◌↔◌, IsTrue, Some, List, true};
ghost use Rattle.tx_model.specs.declared.command.Command.TheVariants as commands;
ghost use Rattle.tx_model.specs.declared.reply.Reply.TheVariants as replies;
ghost use Rattle.tx_model.specs.declared.report.LifeReport.{LifeReport};
ghost use Rattle.tx_model.specs.Stance.{snap_of};
ghost use Rattle.report_law.specs.Answers.{goes_by_places};
ghost use Rattle.reply_lines.specs.At.{IsLawfulHere, IsSpot, Spot, stance_at};
ghost use Rattle.event_rules.specs.SnapsTold.{told_by, told_lists};
ghost use Rattle.reply_lines.specs.Known.{IsKept};

use crate::both::{are_same, both, is_below};
use crate::by_events::{
    is_backward, is_carried, is_given_late, is_horizon, is_stopped, is_too_new,
};
use crate::by_ids::{
    did, did_too_old, has_status, has_taken, is_old, is_older_than, is_to_come, is_ungiven, sees,
};
use crate::by_multis::{
    are_members_stopped, are_stopped, has_pinned, has_verdicts, is_behind, is_held, is_made_late,
    is_multi_to_come, is_multi_too_old, is_waited_for,
};
use crate::known::{Kept, Known};
use crate::reading::Asking;
use line_stances::{Standing, is_lacking, is_open, taken_as};
use tx_events::{FullMulti, FullXid, MultiEvent, MultiId, Name, Refusal, Xid};
use tx_model::{Command, LifeReport, MemberVerdict, PairList, Reply};

fn by_write(known: &Known, asking: Asking, standing: &Standing, reply: &Reply) -> bool
    ghost s: { Spot }
    requires spot { IsSpot s known.now asking }
    requires standing { standing.now ≡ stance_at s.at s.asking.by }
    requires goes { goes_by_places commands.Write reply.now ≡ true }
    ensures { IsTrue result ↔ IsLawfulHere s commands.Write reply.now }
{
    match reply {
        Reply::Wrote { warn, .. } => both(
            is_open(standing),
            are_same(*warn, is_given_late(known, asking)),
        ),
        Reply::Refused { refusal } => match refusal {
            Refusal::Stop { next, stop } => both(
                is_lacking(standing),
                is_stopped(known, asking, *next, *stop),
            ),
            _ => false,
        },
        _ => false,
    }
}

fn by_snap(known: &Known, asking: Asking, name: &Name, reply: &Reply) -> bool
    ghost s: { Spot }
    requires spot { IsSpot s known.now asking }
    requires told { told_by s.at.j s.asking.by ≡ told_lists reply.now }
    requires goes { goes_by_places (commands.Snap name.now) reply.now ≡ true }
    ensures { IsTrue result ↔ IsLawfulHere s (commands.Snap name.now) reply.now }
{
    match reply {
        Reply::Snapped { lists } => has_taken(known, asking, lists),
        _ => false,
    }
}

fn by_horizon(known: &Known, asking: Asking, reply: &Reply) -> bool
    ghost s: { Spot }
    requires spot { IsSpot s known.now asking }
    requires goes { goes_by_places commands.Horizon reply.now ≡ true }
    ensures { IsTrue result ↔ IsLawfulHere s commands.Horizon reply.now }
{
    match reply {
        Reply::Horizon { oldest_xmin } => is_horizon(known, asking, *oldest_xmin),
        _ => false,
    }
}

/// By the snapshot that the session's command of this number took.
fn by_see_at(
    known: &Known,
    kept: &Kept,
    asking: Asking,
    number: u64,
    name: &Name,
    x: Xid,
    reply: &Reply,
) -> bool
    ghost s: { Spot }
    requires spot { IsSpot s known.now asking }
    requires kept { (lives : List LifeReport) × IsKept s.at.j.begun lives kept.now }
    requires number { snap_of name.now (stance_at s.at s.asking.by) ≡ Some number }
    requires goes { goes_by_places (commands.See name.now x) reply.now ≡ true }
    ensures { IsTrue result ↔ IsLawfulHere s (commands.See name.now x) reply.now }
{
    match reply {
        Reply::Seen { visible } => sees(known, &kept.committed, asking, number, x, *visible),
        Reply::Refused { refusal } => match refusal {
            Refusal::TooOld { oldest } => is_older_than(known, asking, number, x, *oldest),
            _ => false,
        },
        _ => false,
    }
}

fn by_see(
    known: &Known,
    kept: &Kept,
    asking: Asking,
    standing: &Standing,
    name: &Name,
    x: Xid,
    reply: &Reply,
) -> bool
    ghost s: { Spot }
    requires spot { IsSpot s known.now asking }
    requires kept { (lives : List LifeReport) × IsKept s.at.j.begun lives kept.now }
    requires standing { standing.now ≡ stance_at s.at s.asking.by }
    requires goes { goes_by_places (commands.See name.now x) reply.now ≡ true }
    ensures { IsTrue result ↔ IsLawfulHere s (commands.See name.now x) reply.now }
{
    match taken_as(standing, name) {
        Some(number) => by_see_at(known, kept, asking, number, name, x, reply),
        None => false,
    }
}

fn by_status(known: &Known, kept: &Kept, asking: Asking, x: FullXid, reply: &Reply) -> bool
    ghost s: { Spot }
    requires spot { IsSpot s known.now asking }
    requires kept { (lives : List LifeReport) × IsKept s.at.j.begun lives kept.now }
    requires goes { goes_by_places (commands.Status x) reply.now ≡ true }
    ensures { IsTrue result ↔ IsLawfulHere s (commands.Status x) reply.now }
{
    match reply {
        Reply::Known { status } => has_status(known, &kept.committed, asking, x, *status),
        Reply::Refused { refusal } => match refusal {
            Refusal::Future { next } => is_to_come(known, asking, x, *next),
            Refusal::TooOld { oldest } => {
                both(is_below(x, *oldest), is_carried(known, asking, *oldest))
            }
            _ => false,
        },
        _ => false,
    }
}

fn by_did(known: &Known, kept: &Kept, asking: Asking, x: Xid, reply: &Reply) -> bool
    ghost s: { Spot }
    requires spot { IsSpot s known.now asking }
    requires kept { (lives : List LifeReport) × IsKept s.at.j.begun lives kept.now }
    requires goes { goes_by_places (commands.Did x) reply.now ≡ true }
    ensures { IsTrue result ↔ IsLawfulHere s (commands.Did x) reply.now }
{
    match reply {
        Reply::Did { yes } => did(known, &kept.committed, asking, x, *yes),
        Reply::Refused { refusal } => match refusal {
            Refusal::TooOld { oldest } => did_too_old(known, asking, x, *oldest),
            _ => false,
        },
        _ => false,
    }
}

fn by_freeze(known: &Known, asking: Asking, oldest: FullXid, reply: &Reply) -> bool
    ghost s: { Spot }
    requires spot { IsSpot s known.now asking }
    requires goes { goes_by_places (commands.Freeze oldest) reply.now ≡ true }
    ensures { IsTrue result ↔ IsLawfulHere s (commands.Freeze oldest) reply.now }
{
    match reply {
        Reply::Refused { refusal } => match refusal {
            Refusal::Backward { now } => is_backward(known, asking, oldest, *now),
            Refusal::TooNew { limit } => is_too_new(known, asking, oldest, *limit),
            _ => false,
        },
        _ => false,
    }
}

fn by_multi_refused(known: &Known, asking: Asking, pairs: &PairList, refusal: &Refusal) -> bool
    ghost s: { Spot }
    requires spot { IsSpot s known.now asking }
    requires goes { goes_by_places (commands.Multi pairs.now) (replies.Refused refusal.now) ≡ true }
    ensures { IsTrue result ↔ IsLawfulHere s (commands.Multi pairs.now) (replies.Refused refusal.now) }
{
    match refusal {
        Refusal::NotGiven { x } => is_ungiven(known, asking, pairs.items(), *x),
        Refusal::TooOld { oldest } => is_old(known, asking, pairs.items(), *oldest),
        Refusal::MultiStop { next, stop } => are_stopped(known, asking, *next, *stop),
        Refusal::MemberStop { next, stop } => {
            are_members_stopped(known, asking, pairs.items().len() as u64, *next, *stop)
        }
        _ => false,
    }
}

fn by_multi(known: &Known, asking: Asking, pairs: &PairList, reply: &Reply) -> bool
    ghost s: { Spot }
    requires spot { IsSpot s known.now asking }
    requires goes { goes_by_places (commands.Multi pairs.now) reply.now ≡ true }
    ensures { IsTrue result ↔ IsLawfulHere s (commands.Multi pairs.now) reply.now }
{
    match reply {
        Reply::Multi { multi, warn, .. } => are_same(*warn, is_made_late(known, asking, *multi)),
        Reply::Refused { refusal } => by_multi_refused(known, asking, pairs, refusal),
        _ => false,
    }
}

fn by_see_multi_refused(
    known: &Known,
    kept: &Kept,
    multis: &[MultiEvent],
    asking: Asking,
    name: &Name,
    m: MultiId,
    refusal: &Refusal,
) -> bool
    ghost s: { Spot }
    requires spot { IsSpot s known.now asking }
    requires kept { (lives : List LifeReport) × IsKept s.at.j.begun lives kept.now }
    requires multis { multis.now ≡ s.at.j.life.multis }
    requires goes { goes_by_places (commands.SeeMulti name.now m) (replies.Refused refusal.now) ≡ true }
    ensures { IsTrue result ↔ IsLawfulHere s (commands.SeeMulti name.now m) (replies.Refused refusal.now) }
{
    match refusal {
        Refusal::NotYet { multi } => is_waited_for(known, kept, multis, asking, *multi),
        Refusal::MultiTooOld { oldest } => is_multi_too_old(known, asking, m, *oldest),
        Refusal::MultiFuture { next } => is_multi_to_come(known, asking, m, *next),
        _ => false,
    }
}

/// By the snapshot of this name, which the session has.
fn by_verdicts(
    known: &Known,
    kept: &Kept,
    lives: &[LifeReport],
    asking: Asking,
    standing: &Standing,
    name: &Name,
    m: MultiId,
    verdicts: &[MemberVerdict],
) -> bool
    ghost s: { Spot }
    requires spot { IsSpot s known.now asking }
    requires kept { IsKept s.at.j.begun lives.now kept.now }
    requires standing { standing.now ≡ stance_at s.at s.asking.by }
    ensures { IsTrue result ↔ IsLawfulHere s (commands.SeeMulti name.now m) (replies.Verdicts verdicts.now) }
{
    match taken_as(standing, name) {
        Some(number) => has_verdicts(known, kept, lives, asking, number, verdicts),
        None => false,
    }
}

fn by_see_multi(
    known: &Known,
    kept: &Kept,
    lives: &[LifeReport],
    multis: &[MultiEvent],
    asking: Asking,
    standing: &Standing,
    name: &Name,
    m: MultiId,
    reply: &Reply,
) -> bool
    ghost s: { Spot }
    requires spot { IsSpot s known.now asking }
    requires kept { IsKept s.at.j.begun lives.now kept.now }
    requires multis { multis.now ≡ s.at.j.life.multis }
    requires standing { standing.now ≡ stance_at s.at s.asking.by }
    requires goes { goes_by_places (commands.SeeMulti name.now m) reply.now ≡ true }
    ensures { IsTrue result ↔ IsLawfulHere s (commands.SeeMulti name.now m) reply.now }
{
    match reply {
        Reply::Verdicts { verdicts } => {
            by_verdicts(
                known,
                kept,
                lives,
                asking,
                standing,
                name,
                m,
                verdicts.items(),
            )
        }
        Reply::Refused { refusal } => {
            by_see_multi_refused(known, kept, multis, asking, name, m, refusal)
        }
        _ => false,
    }
}

fn by_multi_freeze_refused(
    known: &Known,
    kept: &Kept,
    multis: &[MultiEvent],
    asking: Asking,
    multi: FullMulti,
    refusal: &Refusal,
) -> bool
    ghost s: { Spot }
    requires spot { IsSpot s known.now asking }
    requires kept { (lives : List LifeReport) × IsKept s.at.j.begun lives kept.now }
    requires multis { multis.now ≡ s.at.j.life.multis }
    requires goes { goes_by_places (commands.MultiFreeze multi) (replies.Refused refusal.now) ≡ true }
    ensures { IsTrue result ↔ IsLawfulHere s (commands.MultiFreeze multi) (replies.Refused refusal.now) }
{
    match refusal {
        Refusal::Backward { now } => is_behind(known, asking, multi, *now),
        Refusal::Held { limit } => is_held(known, asking, multi, *limit),
        Refusal::NotYet { multi: next } => is_waited_for(known, kept, multis, asking, *next),
        _ => false,
    }
}

fn by_multi_freeze(
    known: &Known,
    kept: &Kept,
    multis: &[MultiEvent],
    asking: Asking,
    multi: FullMulti,
    reply: &Reply,
) -> bool
    ghost s: { Spot }
    requires spot { IsSpot s known.now asking }
    requires kept { (lives : List LifeReport) × IsKept s.at.j.begun lives kept.now }
    requires multis { multis.now ≡ s.at.j.life.multis }
    requires goes { goes_by_places (commands.MultiFreeze multi) reply.now ≡ true }
    ensures { IsTrue result ↔ IsLawfulHere s (commands.MultiFreeze multi) reply.now }
{
    match reply {
        Reply::Done => has_pinned(known, multis, asking, multi),
        Reply::Refused { refusal } => {
            by_multi_freeze_refused(known, kept, multis, asking, multi, refusal)
        }
        _ => false,
    }
}

/// By the places of the histories where the command may read.
pub fn by_places(
    known: &Known,
    kept: &Kept,
    lives: &[LifeReport],
    multis: &[MultiEvent],
    asking: Asking,
    standing: &Standing,
    command: &Command,
    reply: &Reply,
) -> bool
    ghost s: { Spot }
    requires spot { IsSpot s known.now asking }
    requires kept { IsKept s.at.j.begun lives.now kept.now }
    requires multis { multis.now ≡ s.at.j.life.multis }
    requires standing { standing.now ≡ stance_at s.at s.asking.by }
    requires told { told_by s.at.j s.asking.by ≡ told_lists reply.now }
    requires goes { goes_by_places command.now reply.now ≡ true }
    ensures { IsTrue result ↔ IsLawfulHere s command.now reply.now }
{
    match command {
        Command::Write => by_write(known, asking, standing, reply),
        Command::Snap { name } => by_snap(known, asking, name, reply),
        Command::Horizon => by_horizon(known, asking, reply),
        Command::See { name, x } => by_see(known, kept, asking, standing, name, *x, reply),
        Command::Status { x } => by_status(known, kept, asking, *x, reply),
        Command::Did { x } => by_did(known, kept, asking, *x, reply),
        Command::Freeze { oldest } => by_freeze(known, asking, *oldest, reply),
        Command::Multi { members } => by_multi(known, asking, members, reply),
        Command::SeeMulti { name, multi } => {
            by_see_multi(
                known, kept, lives, multis, asking, standing, name, *multi, reply,
            )
        }
        Command::MultiFreeze { multi } => {
            by_multi_freeze(known, kept, multis, asking, *multi, reply)
        }
        _ => false,
    }
}
