//! What a reply tells of single ids, where its round is judged.
ghost use Rattle.std.specs.Prelude.{◌≡◌, ◌↔◌, ◌≤◌, IsTrue, Some};
ghost use Rattle.report_law.specs.MultiLines.{IsNotGiven, IsOldMember};
ghost use Rattle.report_law.specs.Steps.{IsDidAt, IsDidTooOld, IsFutureAt, IsSeen, IsStatusAt, IsTooOldFor};
ghost use Rattle.reply_lines.specs.At.{HasCommitted, IsLineOfSnap, IsSnapAsked, IsSnappedBy, IsSpot, ListSpot, SnapSpot, Spot, base_of, history_of, round_of};
ghost use Rattle.event_rules.specs.SnapsTold.{told_by};

use crate::by_events::is_carried;
use crate::known::{Kept, Known};
use crate::reading::Asking;
use multi_rules::{is_seen, is_too_old_for, taken_in};
use place_rules::{
    is_did_at, is_did_too_old, is_future_at, is_not_given, is_old_member, is_snapped, is_status_at,
};
use std::collections::BTreeSet;
use tx_events::{By, FullXid, Xid};
use tx_model::{Pair, SharedSnap, Status};

/// The line of the session's command of this number.
pub fn line_of(known: &Known, asking: Asking, number: u64) -> u64
    ghost s: { SnapSpot }
    requires spot { IsSpot s.spot known.now asking }
    requires number { number ≡ s.number }
    requires asked { IsSnapAsked s }
    ensures { IsLineOfSnap s result }
{
    known.table.number(By {
        session: asking.by.session,
        command: number,
    })
}

/// Whether the snapshot that the session's command of this number took shows the id so.
pub fn sees(
    known: &Known,
    committed: &BTreeSet<u64>,
    asking: Asking,
    number: u64,
    x: Xid,
    visible: bool,
) -> bool
    ghost s: { SnapSpot }
    requires spot { IsSpot s.spot known.now asking }
    requires number { number ≡ s.number }
    requires asked { IsSnapAsked s }
    requires committed { HasCommitted s.spot committed.now }
    ensures { IsTrue result ↔ IsSeen (base_of s.spot) s.spot.at.j.begun.committed (history_of s.spot) s.spot.asking.by s.number x.number visible }
{
    let line = line_of(known, asking, number);
    is_seen(
        &known.places,
        committed,
        taken_in(known.taken.as_slice(), line),
        x,
        visible,
    )
}

/// Whether the id that the stored half means to that snapshot is below this oldest id, which the command may carry.
pub fn is_older_than(known: &Known, asking: Asking, number: u64, x: Xid, oldest: FullXid) -> bool
    ghost s: { SnapSpot }
    requires spot { IsSpot s.spot known.now asking }
    requires number { number ≡ s.number }
    requires asked { IsSnapAsked s }
    ensures { IsTrue result ↔ IsTooOldFor (base_of s.spot) (history_of s.spot) (round_of s.spot) s.spot.asking.by s.number x.number oldest }
{
    let line = line_of(known, asking, number);
    is_too_old_for(
        &known.places,
        taken_in(known.taken.as_slice(), line),
        x,
        oldest,
        is_carried(known, asking, oldest),
    )
}

/// Whether a snapshot that the command took holds these lists, which its reply tells.
pub fn has_taken(known: &Known, asking: Asking, _lists: &SharedSnap) -> bool
    ghost s: { ListSpot }
    requires spot { IsSpot s.spot known.now asking }
    requires lists { s.lists ≡ _lists.now }
    requires told { told_by s.spot.at.j s.spot.asking.by ≡ Some s.lists }
    ensures { IsTrue result ↔ IsSnappedBy s }
{
    is_snapped(known.snaps.as_slice(), known.events.places(asking.number))
}

/// Whether the id stood so where the command asked.
pub fn has_status(
    known: &Known,
    committed: &BTreeSet<u64>,
    asking: Asking,
    x: FullXid,
    status: Status,
) -> bool
    ghost s: { Spot }
    requires spot { IsSpot s known.now asking }
    requires committed { HasCommitted s committed.now }
    ensures { IsTrue result ↔ IsStatusAt (base_of s) s.at.j.begun.committed (history_of s) s.asking.by x status }
{
    is_status_at(
        &known.places,
        known.marks.as_slice(),
        committed,
        known.events.places(asking.number),
        x,
        status,
    )
}

/// Whether the next id was this one, not past the id `x`, where the command asked.
pub fn is_to_come(known: &Known, asking: Asking, x: FullXid, next: FullXid) -> bool
    ghost s: { Spot }
    requires { IsSpot s known.now asking }
    ensures { IsTrue result ↔ IsFutureAt (base_of s) (history_of s) s.asking.by x next }
{
    is_future_at(&known.places, known.events.places(asking.number), x, next)
}

/// Whether the id that the stored half means committed or didn't, as it was answered.
pub fn did(known: &Known, committed: &BTreeSet<u64>, asking: Asking, x: Xid, yes: bool) -> bool
    ghost s: { Spot }
    requires spot { IsSpot s known.now asking }
    requires committed { HasCommitted s committed.now }
    requires normal { 3 ≤ x.number }
    ensures { IsTrue result ↔ IsDidAt (base_of s) s.at.j.begun.committed (history_of s) s.at.j.life.recs (round_of s) s.asking.by x.number yes }
{
    is_did_at(
        &known.places,
        committed,
        &known.recorded,
        asking.reading.from,
        asking.reading.to,
        x,
        yes,
    )
}

/// Whether that id is below this oldest one, which the command may carry.
pub fn did_too_old(known: &Known, asking: Asking, x: Xid, oldest: FullXid) -> bool
    ghost s: { Spot }
    requires { IsSpot s known.now asking }
    ensures { IsTrue result ↔ IsDidTooOld (base_of s) (history_of s) (round_of s) s.asking.by x.number oldest }
{
    is_did_too_old(
        &known.places,
        asking.reading.from,
        asking.reading.to,
        x,
        oldest,
        is_carried(known, asking, oldest),
    )
}

/// Whether a member of this stored half wasn't given.
pub fn is_ungiven(known: &Known, asking: Asking, pairs: &[Pair], x: Xid) -> bool
    ghost s: { Spot }
    requires { IsSpot s known.now asking }
    ensures { IsTrue result ↔ IsNotGiven (base_of s) (history_of s) (round_of s) s.asking.by pairs.now x.number }
{
    is_not_given(
        &known.places,
        asking.reading.from,
        asking.reading.to,
        pairs,
        x,
    )
}

/// Whether a member is below this oldest id, which the command may carry.
pub fn is_old(known: &Known, asking: Asking, pairs: &[Pair], oldest: FullXid) -> bool
    ghost s: { Spot }
    requires { IsSpot s known.now asking }
    ensures { IsTrue result ↔ IsOldMember (base_of s) (history_of s) (round_of s) s.asking.by pairs.now oldest }
{
    is_old_member(
        &known.places,
        asking.reading.from,
        asking.reading.to,
        pairs,
        oldest,
        is_carried(known, asking, oldest),
    )
}
