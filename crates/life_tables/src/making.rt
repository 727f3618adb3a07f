//! What is known of a life, made piece by piece.
ghost use Rattle.std.specs.Prelude.{◌≡◌, ℕ, ◌-◌, ◌<◌, ◌≤◌, ◌↔◌, IsTrue, Bool, IfOk, List, length, map, take, drop, get_or, false};
ghost use Rattle.std.specs.Global.{Vec};
ghost use Rattle.std.specs.BTreeSet.{contains};
ghost use Rattle.std.specs.List.{All, list_any};
ghost use Rattle.std.specs.Ordering.{nat_cmp};
ghost use Rattle.tx_events.specs.Base.{IsBase};
ghost use Rattle.tx_events.specs.declared.event.By.{By};
ghost use Rattle.tx_events.specs.declared.event.Event.{Event};
ghost use Rattle.tx_events.specs.declared.multi.MultiEvent.{MultiEvent};
ghost use Rattle.tx_events.specs.Events.{by_of};
ghost use Rattle.tx_events.specs.Multis.{multi_by};
ghost use Rattle.life_tables.specs.Numbered.{IsNumbered};
ghost use Rattle.life_law.specs.DidCommit.{IsRecorded};
ghost use Rattle.history_places.specs.SnapMarks.{AreSnapMarks};
ghost use Rattle.place_columns.specs.Counted.{AreCounts};
ghost use Rattle.event_rules.specs.Fronts.{IsFront, IsMultiFront};
ghost use Rattle.multi_rules.specs.Gens.{is_ok_gen};
ghost use Rattle.history_places.specs.Starts.{FitsBase};
ghost use Rattle.multi_rules.specs.Snapped.{AreTakenByLines, LifeEvents};
ghost use Rattle.history_places.specs.Opens.{AreOpenCounts};
ghost use Rattle.place_columns.specs.Lined.{AreInOrder, bys_of, lines_from, numbered};
ghost use Rattle.place_columns.specs.Owned.{AreAllOwn};
ghost use Rattle.reply_rules.specs.Ends.{IsLogEnd};
ghost use Rattle.reply_rules.specs.Logs.{AreLogs};
ghost use Rattle.report_law.specs.Steps.{Judged, gave_multi, lines_of};
ghost use Rattle.event_rules.specs.SnapsTold.{told_by};
ghost use Rattle.life_tables.specs.Lives.{LifeAt, judged_life};
ghost use Rattle.life_tables.specs.Told.{AreToldLists};

use crate::committed::all_committed;
use event_rules::{HistoryFront, history_front, multi_front};
use history_places::{MultiPlaces, SnapMark, Start};
use id_sets::IdSet;
use multi_rules::{Taken, late_multis, taken_by_lines};
use place_columns::{
    GivenCounts, LineTable, Own, OwnEvents, Owned, bys_of, given_counts, own_places,
};
use reply_rules::{
    LogEnd, Logs, are_log_faults, commit_tops, is_any_stray, recorded_multis, room_of, truncations,
};
use std::alloc::Global;
use std::collections::BTreeSet;
use tx_events::{Memory, MultiEvent, Rec};
use tx_model::{Life, LifeReport, SharedSnap};

/// How many sessions a report has at most.
const SESSIONS: u32 = 64;

/// The life's lines by their commands.
pub fn table_of(alloc: Global, report: &LifeReport) -> Result<LineTable, Memory>
    requires { IsNumbered report.now }
    ensures { IfOk result (λ table. table ≡ lines_from 0 report.now.steps) }
{
    LineTable::new(alloc, SESSIONS, report.steps.items())
}

/// The events of each line.
pub fn owned<E: Owned>(alloc: Global, table: &LineTable, events: &[E]) -> Result<OwnEvents, Memory>
    ensures { IfOk result (λ own. own ≡ numbered table.now (map E.by events.now)) }
{
    let bys = bys_of(alloc, events)?;
    OwnEvents::new(alloc, table, bys.as_slice())
}

/// The next id and the next multixact at each place.
pub fn counts_in(alloc: Global, life: &Life) -> Result<GivenCounts, Memory>
    requires { IsBase life.now.base }
    ensures { IfOk result (λ counts. AreCounts life.now.base life.now.events life.now.multis counts) }
{
    given_counts(alloc, &life.base, life.events.items(), life.multis.items())
}

/// The legal front of the history, with its snapshots and how many ids are open. `lists` are what the lines' replies tell.
pub fn front_of(
    alloc: Global,
    report: &LifeReport,
    own: &OwnEvents,
    lists: &[Option<SharedSnap>],
) -> Result<HistoryFront, Memory>
    ghost at: { LifeAt }
    requires report { report.now ≡ at.report }
    requires base { IsBase report.now.life.base }
    requires few { All (λ e. (by_of e).session < 64) report.now.life.events }
    requires own { own.now ≡ numbered (lines_from 0 report.now.steps) (map by_of report.now.life.events) }
    requires lists { AreToldLists (lines_of (judged_life at)) lists.now }
    ensures front { IfOk result (λ f. IsFront report.now.life.base report.now.life.events f.places) }
    ensures snaps { IfOk result (λ f. AreSnapMarks report.now.life.base.next f.places.events (told_by (judged_life at)) f.snaps.items) }
    ensures opened { IfOk result (λ f. AreOpenCounts f.places.events f.opened.items) }
{
    history_front(
        alloc,
        report.life.base.same(),
        SESSIONS,
        report.life.events.items(),
        own,
        lists,
    )
}

/// Each session's events.
pub fn turns_of<E: Owned>(alloc: Global, events: &[E]) -> Result<Vec<Vec<Own>>, Memory>
    requires { All (λ e. (E.by e).session < 64) events.now }
    ensures { IfOk result (λ turns. AreAllOwn (map E.by events.now) 64 turns.items) }
{
    let bys = bys_of(alloc, events)?;
    own_places(alloc, SESSIONS, bys.as_slice())
}

/// The snapshots of each line's command.
pub fn taken_of(
    alloc: Global,
    table: &LineTable,
    own: &OwnEvents,
    snaps: &[Option<SnapMark>],
) -> Result<Vec<Vec<Taken>>, Memory>
    ghost life: { LifeEvents }
    requires own { own.now ≡ numbered table.now (map by_of life.all) }
    requires order { AreInOrder (bys_of table.now) }
    requires front { life.events ≡ take (length life.events) life.all }
    requires marks { AreSnapMarks life.first life.events life.told snaps.now }
    ensures { IfOk result (λ lists. AreTakenByLines life.first life.events (bys_of table.now) lists.items) }
{
    taken_by_lines(alloc, table, own, snaps)
}

/// The legal front of the multixact events.
pub fn multi_front_of(alloc: Global, life: &Life, starts: &[Start]) -> Result<MultiPlaces, Memory>
    requires base { IsBase life.now.base }
    requires starts { FitsBase life.now.base starts.now }
    ensures { IfOk result (λ p. IsMultiFront life.now.base starts.now life.now.multis p) }
{
    multi_front(alloc, life.base.same(), starts, life.multis.items())
}

/// Of each event, by its line, whether that one's reply gives a multixact.
pub fn oks_of(
    alloc: Global,
    own: &OwnEvents,
    count: u64,
    gave: &[bool],
) -> Result<Vec<bool>, Memory>
    requires { length own.now.numbers ≡ count }
    ensures { IfOk result (λ oks. oks.items ≡ map (λ n. get_or gave.now n false) own.now.numbers) }
{
    let mut oks = Vec::with_capacity(alloc, count as usize)?;
    for place in 0..count {
        oks.push(
            gave.get(own.number_at(place) as usize)
                .copied()
                .unwrap_or(false),
        )?;
    }
    Ok(oks)
}

/// The multixacts that are given behind the front to commands that were answered `ok`.
pub fn late_of(
    alloc: Global,
    multis: &[MultiEvent],
    places: &MultiPlaces,
    oks: &[bool],
) -> Result<BTreeSet<u64>, Memory>
    ghost ok: { By → Bool }
    requires front { length places.now.events ≤ length multis.now }
    requires oks { oks.now ≡ map (λ (e : MultiEvent). ok (multi_by e)) multis.now }
    ensures { IfOk result (λ late. (x : ℕ) → contains nat_cmp late x ≡ list_any (is_ok_gen ok x) (drop (length places.now.events) multis.now)) }
{
    let from = places.events().len();
    late_multis(alloc, &multis[from..], &oks[from..])
}

/// All ids of the commit records, by their numbers.
pub fn recorded_in(alloc: Global, recs: &[Rec]) -> Result<IdSet, Memory>
    ensures { IfOk result (λ ids. (x : ℕ) → IsTrue (contains nat_cmp ids x) ↔ IsRecorded recs.now x) }
{
    let ids = all_committed(alloc, recs)?;
    Ok(IdSet::of(ids))
}

/// What the life's log holds.
pub fn logs_of(alloc: Global, life: &Life) -> Result<Logs, Memory>
    ensures { IfOk result (λ logs. (j : Judged) → j.life ≡ life.now → AreLogs j logs) }
{
    let recs = life.recs.items();
    let flushed = life
        .flushed
        .saturating_sub(life.from)
        .min(recs.len() as u64);
    let first = &recs[..flushed as usize];
    Ok(Logs {
        commits: commit_tops(alloc, first)?,
        truncations: truncations(first),
        multis: recorded_multis(alloc, recs)?,
        stray: is_any_stray(alloc, recs, life.multis.items())?,
    })
}

/// What refusals go by that the life's log brings.
pub fn log_end_of(report: &LifeReport) -> LogEnd
    ensures { (j : Judged) → j.life ≡ report.now.life → j.steps ≡ report.now.steps → IsLogEnd j result }
{
    LogEnd {
        room: room_of(&report.life),
        flushed: report.life.flushed,
        failed: are_log_faults(report.steps.items()),
    }
}
