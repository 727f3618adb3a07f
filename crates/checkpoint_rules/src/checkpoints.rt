//! The lines of checkpoints.
ghost use Rattle.std.specs.Prelude.{◌≡◌, ◌↔◌, ◌<◌, ◌^◌, [], IsTrue, OnOk, length, take, true};
ghost use Rattle.std.specs.List.{flat_map};
ghost use Rattle.tx_model.specs.declared.report.Step.TheVariants as steps;
ghost use Rattle.tx_model.specs.Rounds.{lines_in};
ghost use Rattle.record_rules.specs.AskedFor.{is_checkpoint};
ghost use Rattle.reply_rules.specs.Ends.{IsLogEnd};
ghost use Rattle.report_law.specs.Checkpoints.{MayCheckpoint, counters_behind};
ghost use Rattle.report_law.specs.Steps.{AreJudged};
ghost use Rattle.standing_rules.specs.Sessions.{AreBehind};
ghost use Rattle.checkpoint_rules.specs.Asked.{AreCountersOf};
ghost use Rattle.checkpoint_rules.specs.Midst.{AreFew, lived_behind};
ghost use Rattle.checkpoint_rules.specs.Noting.{AreFronts, AreNoted, IsPointOf, IsReached, Noting, walked_of, with_step};

use crate::answers::may_checkpoint;
use crate::asked::{asked_of, named_of};
use crate::behind::counters_at;
use crate::counted::{Checkpoints, note_checkpoint, other_steps_are_none};
use history_places::HistoryPlaces;
use reply_rules::LogEnd;
use standing_rules::Session;
use tx_events::{Counters, Memory};
use tx_model::{Reply, Step};

/// How many events of each history stand behind some steps of a life.
#[derive(Clone, Copy, Debug, PartialEq, Eq)]
pub struct Point {
    pub from: u64,
    pub multi_from: u64,
}

/// Whether both histories are legal up to there.
fn is_reached(places: &HistoryPlaces, column: &[Counters], point: Point) -> bool
    ensures { (at : Noting) → AreFronts at places.now column.now → IsPointOf at point → IsTrue result ↔ IsReached at places.now }
{
    let events = places.replay().events().len() as u64;
    let multis = column.len() as u64;
    point.from <= events && point.multi_from < multis
}

/// The counters behind the steps so far.
fn counters_there(places: &HistoryPlaces, column: &[Counters], point: Point) -> Counters
    ghost at: { Noting }
    requires fronts { AreFronts at places.now column.now }
    requires point { IsPointOf at point }
    requires reached { IsReached at places.now }
    ensures { result ≡ counters_behind at.j (flat_map lines_in at.before) }
{
    counters_at(places, column, point.from, point.multi_from)
}

/// These, where both histories are judged up to there.
fn counters_if(
    places: &HistoryPlaces,
    column: &[Counters],
    point: Point,
    judged: bool,
) -> Option<Counters>
    ghost at: { Noting }
    requires fronts { AreFronts at places.now column.now }
    requires point { IsPointOf at point }
    requires judged { IsTrue judged ↔ AreJudged at.j (flat_map lines_in at.before) [] }
    requires reached { IsTrue judged → IsReached at places.now }
    ensures { AreCountersOf at.j (flat_map lines_in at.before) result }
{
    if judged {
        return Some(counters_there(places, column, point));
    }
    None
}

/// Whether a checkpoint may be answered so behind the steps so far, which are `judged` or not.
pub fn is_lawful_checkpoint(
    places: &HistoryPlaces,
    column: &[Counters],
    checkpoints: &Checkpoints,
    point: Point,
    judged: bool,
    sessions: &[Session],
    end: LogEnd,
    reply: &Reply,
) -> bool
    ghost at: { Noting }
    requires fronts { AreFronts at places.now column.now }
    requires kept { AreNoted at places.now checkpoints.now }
    requires point { IsPointOf at point }
    requires judged { IsTrue judged ↔ AreJudged at.j (flat_map lines_in at.before) [] }
    requires reached { IsTrue judged → IsReached at places.now }
    requires sessions { AreBehind (lived_behind (walked_of at)) 64 sessions.now }
    requires few { AreFew (flat_map lines_in at.before) }
    requires end { IsLogEnd at.j end }
    ensures { IsTrue result ↔ MayCheckpoint at.j at.before reply.now }
{
    let asked = asked_of(sessions, end);
    let named = named_of(sessions, reply);
    let counters = counters_if(places, column, point, judged);
    may_checkpoint(checkpoints, counters, &asked, named, reply)
}

/// Notes a checkpoint, where both histories are legal up to there.
fn note_reached(
    places: &HistoryPlaces,
    column: &[Counters],
    checkpoints: &mut Checkpoints,
    point: Point,
    reply: &Reply,
) -> Result<(), Memory>
    ghost at: { Noting }
    requires fronts { AreFronts at places.now column.now }
    requires kept { AreNoted at places.now checkpoints.old }
    requires point { IsPointOf at point }
    requires small { length at.before < 2 ^ 63 }
    ensures { OnOk result (AreNoted (with_step at (steps.Checkpoint reply.now)) places.now checkpoints.new) }
{
    if !is_reached(places, column, point) {
        return Ok(());
    }
    let counters = counters_there(places, column, point);
    note_checkpoint(checkpoints, &counters, reply)
}

/// Notes a step. The column is read where the step is a checkpoint. After want of memory nothing is known of the
/// checkpoints.
pub fn pass_step(
    places: &HistoryPlaces,
    column: &[Counters],
    checkpoints: &mut Checkpoints,
    point: Point,
    step: &Step,
) -> Result<(), Memory>
    ghost at: { Noting }
    requires fronts { is_checkpoint step.now ≡ true → AreFronts at places.now column.now }
    requires kept { AreNoted at places.now checkpoints.old }
    requires point { IsPointOf at point }
    requires small { length at.before < 2 ^ 63 }
    ensures { OnOk result (AreNoted (with_step at step.now) places.now checkpoints.new) }
{
    other_steps_are_none();
    match step {
        Step::Round { .. } => Ok(()),
        Step::Checkpoint { reply } => note_reached(
            places,
            column,
            checkpoints,
            point,
            reply.reply(),
        ),
        Step::Dump { .. } => Ok(()),
    }
}
