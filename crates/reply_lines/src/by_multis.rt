//! What a reply tells of multixacts, where its round is judged.
ghost use Rattle.std.specs.Prelude.{◌≡◌, ◌↔◌, IsTrue, List};
ghost use Rattle.report_law.specs.MultiLines.{AreVerdicts, IsHeldBack, IsMemberStop, IsMultiBackward, IsMultiFuture, IsMultiStop, IsMultiTooOld, IsMultiWarned, IsNotYet, IsPinnedOrNext};
ghost use Rattle.report_law.specs.Steps.{gave_multi, lines_of};
ghost use Rattle.tx_model.specs.declared.report.LifeReport.{LifeReport};
ghost use Rattle.reply_lines.specs.At.{IsReadBefore, IsSnapAsked, IsSpot, SnapSpot, Spot, base_of, history_of, multi_round_of, multis_of_life, round_of};
ghost use Rattle.reply_lines.specs.Known.{IsKept};

use crate::by_ids::line_of;
use crate::known::{Kept, Known};
use crate::reading::{Asking, multi_reading_at};
use multi_rules::{
    MultiReading, are_verdicts, is_held_back, is_member_stop_at, is_multi_backward_at,
    is_multi_future_at, is_multi_stop_at, is_multi_too_old_at, is_multi_warned, is_not_yet,
    is_pinned_or_next, taken_in,
};
use tx_events::{By, FullMulti, MultiEvent, MultiId};
use tx_model::{LifeReport, MemberVerdict};

/// Whether multixacts had stopped where the command may read.
pub fn are_stopped(known: &Known, asking: Asking, next: FullMulti, stop: FullMulti) -> bool
    ghost s: { Spot }
    requires { IsSpot s known.now asking }
    ensures { IsTrue result ↔ IsMultiStop (base_of s) (multis_of_life s) (multi_round_of s) s.asking.by next stop }
{
    is_multi_stop_at(&known.multi_places, asking.multis, next, stop)
}

/// Whether so many members more had no room there.
pub fn are_members_stopped(known: &Known, asking: Asking, count: u64, next: u64, stop: u64) -> bool
    ghost s: { Spot }
    requires { IsSpot s known.now asking }
    ensures { IsTrue result ↔ IsMemberStop (base_of s) (multis_of_life s) (multi_round_of s) s.asking.by count next stop }
{
    is_member_stop_at(&known.multi_places, asking.multis, count, next, stop)
}

/// Whether the oldest multixact was `now` there, and this one is below it.
pub fn is_behind(known: &Known, asking: Asking, multi: FullMulti, now: u64) -> bool
    ghost s: { Spot }
    requires { IsSpot s known.now asking }
    ensures { IsTrue result ↔ IsMultiBackward (base_of s) (multis_of_life s) (multi_round_of s) s.asking.by multi now }
{
    is_multi_backward_at(&known.multi_places, asking.multis, multi, now)
}

/// Whether the stored half meant no multixact there, or one before the oldest one.
pub fn is_multi_too_old(known: &Known, asking: Asking, m: MultiId, oldest: FullMulti) -> bool
    ghost s: { Spot }
    requires { IsSpot s known.now asking }
    ensures { IsTrue result ↔ IsMultiTooOld (base_of s) (multis_of_life s) (multi_round_of s) s.asking.by m.number oldest }
{
    is_multi_too_old_at(
        &known.multi_places,
        asking.multis.from,
        asking.multis.to,
        m,
        oldest,
    )
}

/// Whether it meant one that wasn't given.
pub fn is_multi_to_come(known: &Known, asking: Asking, m: MultiId, next: FullMulti) -> bool
    ghost s: { Spot }
    requires { IsSpot s known.now asking }
    ensures { IsTrue result ↔ IsMultiFuture (base_of s) (multis_of_life s) (multi_round_of s) s.asking.by m.number next }
{
    is_multi_future_at(
        &known.multi_places,
        asking.multis.from,
        asking.multis.to,
        m,
        next,
    )
}

/// Where the session could read before the command began.
fn read_before(known: &Known, asking: Asking) -> MultiReading
    ghost s: { Spot }
    requires { IsSpot s known.now asking }
    ensures { IsReadBefore s result }
{
    let before = By {
        session: asking.by.session,
        command: asking.by.command.saturating_sub(1),
    };
    multi_reading_at(known, before, asking.multi_from, asking.multi_to)
}

/// Whether this one is past the least that is pinned there, or the next one.
pub fn is_held(known: &Known, asking: Asking, multi: FullMulti, limit: FullMulti) -> bool
    ghost s: { Spot }
    requires { IsSpot s known.now asking }
    ensures { IsTrue result ↔ IsHeldBack (base_of s) (multis_of_life s) (multi_round_of s) s.asking.by multi limit }
{
    let read = read_before(known, asking);
    is_held_back(known.held.as_slice(), read.from, read.to, multi, limit)
}

/// Whether the command was given this multixact with a warning.
pub fn is_made_late(known: &Known, asking: Asking, multi: FullMulti) -> bool
    ghost s: { Spot }
    requires { IsSpot s known.now asking }
    ensures { IsTrue result ↔ IsMultiWarned (base_of s) (multis_of_life s) s.asking.by multi }
{
    is_multi_warned(
        &known.multi_places,
        known.multis.places(asking.number),
        multi,
    )
}

/// Whether the command pinned a multixact, or this one was the next where it raised the oldest one.
pub fn has_pinned(known: &Known, multis: &[MultiEvent], asking: Asking, multi: FullMulti) -> bool
    ghost s: { Spot }
    requires spot { IsSpot s known.now asking }
    requires multis { multis.now ≡ multis_of_life s }
    ensures { IsTrue result ↔ IsPinnedOrNext (base_of s) (multis_of_life s) s.asking.by multi }
{
    is_pinned_or_next(
        &known.counts,
        multis,
        known.multis.places(asking.number),
        multi,
    )
}

/// Whether the offset of the multixact wasn't recorded where the command pinned one.
pub fn is_waited_for(
    known: &Known,
    kept: &Kept,
    multis: &[MultiEvent],
    asking: Asking,
    multi: FullMulti,
) -> bool
    ghost s: { Spot }
    requires spot { IsSpot s known.now asking }
    requires kept { (lives : List LifeReport) × IsKept s.at.j.begun lives kept.now }
    requires multis { multis.now ≡ multis_of_life s }
    ensures { IsTrue result ↔ IsNotYet (base_of s) s.at.j.begun.recorded (multis_of_life s) (multi_round_of s) (gave_multi (lines_of s.at.j)) s.asking.by multi }
{
    is_not_yet(
        &known.multi_places,
        &known.counts,
        multis,
        known.oks.as_slice(),
        &known.late,
        kept.starts.as_slice(),
        known.multis.places(asking.number),
        asking.multi_from,
        asking.multi_to,
        asking.by,
        multi,
    )
}

/// Whether these are the verdicts on the members of a multixact that the command pins, by the snapshot that its session's
/// command of this number took.
pub fn has_verdicts(
    known: &Known,
    kept: &Kept,
    lives: &[LifeReport],
    asking: Asking,
    number: u64,
    verdicts: &[MemberVerdict],
) -> bool
    ghost s: { SnapSpot }
    requires spot { IsSpot s.spot known.now asking }
    requires kept { IsKept s.spot.at.j.begun lives.now kept.now }
    requires number { number ≡ s.number }
    requires asked { IsSnapAsked s }
    ensures { IsTrue result ↔ AreVerdicts (base_of s.spot) s.spot.at.j.begun.committed s.spot.at.j.begun.recorded (history_of s.spot) (multis_of_life s.spot) (round_of s.spot) s.spot.asking.by s.number verdicts.now }
{
    let line = line_of(known, asking, number);
    are_verdicts(
        &known.places,
        &known.multi_places,
        &kept.committed,
        lives,
        kept.homes.as_slice(),
        taken_in(known.taken.as_slice(), line),
        known.multis.places(asking.number),
        asking.to,
        verdicts,
    )
}
