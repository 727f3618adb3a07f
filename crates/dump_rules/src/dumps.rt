//! The rule of a dump's line.
ghost use Rattle.std.specs.Prelude.{◌≡◌, ◌↔◌, ◌≤◌, ◌<◌, [], IsTrue, Bool, List, false, length, take};
ghost use Rattle.std.specs.List.{count_by, list_any};
ghost use Rattle.tx_events.specs.declared.event.Event.{Event};
ghost use Rattle.tx_model.specs.Lines.{has_line};
ghost use Rattle.tx_model.specs.declared.report.DumpOf.TheVariants as dumps;
ghost use Rattle.tx_model.specs.declared.reply.Reply.TheVariants as replies;
ghost use Rattle.history_places.specs.IdMarks.{AreMarks};
ghost use Rattle.report_law.specs.Dumps.{MayDump, Shows, is_faulty_step, is_lock_of};
ghost use Rattle.report_law.specs.Places.{has_multi_line};
ghost use Rattle.report_law.specs.Steps.{AreJudged, gave_multi, lines_of};
ghost use Rattle.dump_rules.specs.Cutting.{AreCuts};
ghost use Rattle.dump_rules.specs.Gens.{AreGens};
ghost use Rattle.dump_rules.specs.Replying.{is_log, is_other, may_fail};
ghost use Rattle.life_law.specs.Dumps.{events_behind};
ghost use Rattle.dump_rules.specs.Shown.{Dumped};

use crate::cut::{is_member_cut, is_offset_cut, is_subtrans_cut, is_xact_cut};
use crate::cuts::Cuts;
use crate::gens::GenMark;
use crate::shown::shows_all;
use history_places::{HistoryPlaces, IdMark, MultiPlaces};
use tx_events::{Lock, Refusal};
use tx_model::{DumpOf, Reply};

fn is_log(what: DumpOf) -> bool
    ensures { result ≡ is_log what }
{
    match what {
        DumpOf::Log => true,
        DumpOf::Xact { .. } => false,
        DumpOf::Subtrans { .. } => false,
        DumpOf::Offsets { .. } => false,
        DumpOf::Members { .. } => false,
    }
}

/// Whether the lock is one of the dumped store's banks.
fn is_lock_of(what: DumpOf, lock: Lock) -> bool
    ensures { result ≡ is_lock_of what lock }
{
    match what {
        DumpOf::Log => false,
        DumpOf::Xact { .. } => matches!(lock, Lock::Xact { .. }),
        DumpOf::Subtrans { .. } => matches!(lock, Lock::Subtrans { .. }),
        DumpOf::Offsets { .. } => matches!(lock, Lock::Offsets { .. }),
        DumpOf::Members { .. } => matches!(lock, Lock::Members { .. }),
    }
}

/// Whether the dump may be refused so.
fn may_fail(what: DumpOf, refusal: &Refusal) -> bool
    ensures { result ≡ may_fail what refusal.now }
{
    match refusal {
        Refusal::LogFault => is_log(what),
        Refusal::DiskFault { lock } => is_lock_of(what, *lock),
        _ => false,
    }
}

/// Whether the page may be cut so.
fn may_cut(
    cuts: &Cuts,
    place: u64,
    judged: bool,
    what: DumpOf,
    at: u64,
    size: u32,
    cutoff: u32,
) -> bool
    ensures { (d : Dumped) (h : List Event) → AreCuts d.j.begun.counters d.j.life.recs h cuts.now → (IsTrue judged ↔ AreJudged d.j d.before []) → (IsTrue judged → (place ≤ length h) × (take place h ≡ events_behind d.j.life.events d.before)) → IsTrue result ↔ MayDump d.j d.before what at size (replies.Cut cutoff) }
{
    match what {
        DumpOf::Log => false,
        DumpOf::Xact { page } => is_xact_cut(cuts, page, cutoff),
        DumpOf::Subtrans { page } => {
            if !judged {
                return true;
            }
            is_subtrans_cut(cuts, place, page, cutoff)
        }
        DumpOf::Offsets { page } => is_offset_cut(cuts, page, cutoff),
        DumpOf::Members { page } => is_member_cut(cuts, page, cutoff),
    }
}

fn has_size(bytes: &[u8], size: u32) -> bool
    ensures { IsTrue result ↔ (length bytes.now ≡ size) }
{
    bytes.len() as u64 == u64::from(size)
}

/// Whether the dump of a page has as many bytes as it was asked for, which show what they must, where both histories are
/// lawful before it and no volume failed in the life.
fn may_show(
    gens: &[GenMark],
    places: &HistoryPlaces,
    ids: &[IdMark],
    place: u64,
    multis: &MultiPlaces,
    multi_place: u64,
    judged: bool,
    faulty: bool,
    what: DumpOf,
    at: u64,
    size: u32,
    bytes: &[u8],
) -> bool
    ghost d: { Dumped }
    requires gens { AreGens (gave_multi (lines_of d.j)) multis.now.events gens.now }
    requires marks { AreMarks places.now.events ids.now }
    requires front { places.now.events ≡ take (length places.now.events) d.j.life.events }
    requires multi_front { multis.now.events ≡ take (length multis.now.events) d.j.life.multis }
    requires place { place ≡ count_by (has_line d.before) d.j.life.events }
    requires multi_place { multi_place ≡ count_by (has_multi_line d.before) d.j.life.multis }
    requires judged { IsTrue judged ↔ AreJudged d.j d.before [] }
    requires reach { IsTrue judged → (place ≤ length places.now.events) × (multi_place ≤ length multis.now.events) }
    requires faulty { faulty ≡ list_any is_faulty_step d.j.steps }
    ensures { IsTrue result ↔ ((length bytes.now ≡ size) × (list_any is_faulty_step d.j.steps ≡ false → AreJudged d.j d.before [] → Shows d.j d.before what at bytes.now)) }
{
    if !has_size(bytes, size) {
        return false;
    }
    if faulty {
        return true;
    }
    if !judged {
        return true;
    }
    shows_all(
        places,
        ids,
        place,
        multis,
        gens,
        multi_place,
        what,
        at,
        bytes,
    )
}

fn is_other(reply: &Reply) -> bool
    ensures { result ≡ is_other reply.now }
{
    match reply {
        Reply::Bytes { .. } => false,
        Reply::Cut { .. } => false,
        Reply::Refused { .. } => false,
        _ => true,
    }
}

/// Whether the log's dump has at most so many bytes as it was asked for.
fn is_within(bytes: &[u8], size: u32) -> bool
    ensures { IsTrue result ↔ (length bytes.now ≤ size) }
{
    bytes.len() as u64 <= u64::from(size)
}

/// Whether a dump may be answered so behind the lines before it. `place` and `multi_place` are how many events of both
/// histories are theirs; the fronts reach so far where `judged`, that is where both histories are lawful up to there.
/// `faulty`: some volume is told to have failed in the life. Takes the length of the bytes times the logarithm of the life.
pub fn may_dump(
    cuts: &Cuts,
    gens: &[GenMark],
    places: &HistoryPlaces,
    ids: &[IdMark],
    place: u64,
    multis: &MultiPlaces,
    multi_place: u64,
    judged: bool,
    faulty: bool,
    what: DumpOf,
    at: u64,
    size: u32,
    reply: &Reply,
) -> bool
    ghost d: { Dumped }
    requires cuts { AreCuts d.j.begun.counters d.j.life.recs places.now.events cuts.now }
    requires gens { AreGens (gave_multi (lines_of d.j)) multis.now.events gens.now }
    requires marks { AreMarks places.now.events ids.now }
    requires front { places.now.events ≡ take (length places.now.events) d.j.life.events }
    requires multi_front { multis.now.events ≡ take (length multis.now.events) d.j.life.multis }
    requires place { place ≡ count_by (has_line d.before) d.j.life.events }
    requires multi_place { multi_place ≡ count_by (has_multi_line d.before) d.j.life.multis }
    requires judged { IsTrue judged ↔ AreJudged d.j d.before [] }
    requires reach { IsTrue judged → (place ≤ length places.now.events) × (multi_place ≤ length multis.now.events) }
    requires faulty { faulty ≡ list_any is_faulty_step d.j.steps }
    ensures { IsTrue result ↔ MayDump d.j d.before what at size reply.now }
{
    if is_other(reply) {
        return false;
    }
    match reply {
        Reply::Bytes { bytes } => {
            if is_log(what) {
                return is_within(bytes.items(), size);
            }
            may_show(
                gens,
                places,
                ids,
                place,
                multis,
                multi_place,
                judged,
                faulty,
                what,
                at,
                size,
                bytes.items(),
            )
        }
        Reply::Cut { cutoff } => may_cut(cuts, place, judged, what, at, size, *cutoff),
        Reply::Refused { refusal } => may_fail(what, refusal),
        _ => false,
    }
}
