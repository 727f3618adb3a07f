//! Whether a checkpoint was asked for with given counters.
ghost use Rattle.std.specs.Prelude.{◌≡◌, ◌↔◌, [], IsTrue};
ghost use Rattle.report_law.specs.Records.{AreOfCheckpoint};
ghost use Rattle.report_law.specs.Steps.{Judged};
ghost use Rattle.record_rules.specs.AskedFor.{asked_checkpoints};
ghost use Rattle.record_rules.specs.Counts.{AreCounted};

use crate::counts::{CounterCounts, how_often};
use tx_events::Counters;

/// Whether a checkpoint of the life was asked for with these counters, where all of its steps are counted.
pub fn is_asked(asked: &CounterCounts, counters: &Counters) -> bool
    ensures { (j : Judged) → AreCounted (λ k. asked_checkpoints j k [] j.steps) asked.now → IsTrue result ↔ AreOfCheckpoint j counters.now }
{
    how_often(asked, counters) > 0
}
