//! What the rules of both histories ask alike.
ghost use Rattle.std.specs.Prelude.{◌≡◌, ◌<◌, ◌↔◌, List, IsTrue, Some, length, map, take, slice_get};
ghost use Rattle.tx_model.specs.declared.report.Step.{Step};
ghost use Rattle.tx_events.specs.declared.event.By.{By};
ghost use Rattle.place_columns.specs.Lined.{lines_from, number_of, numbered};
ghost use Rattle.report_law.specs.Events.{StandsAt};
ghost use Rattle.report_law.specs.Places.{IsNotLate};
ghost use Rattle.report_law.specs.Steps.{Judged};

use crate::same::Same;
use place_columns::{LineTable, OwnEvents, Owned};

/// Whether the command of this number has a line.
pub fn stands(table: &LineTable, number: u64) -> bool
    ghost j: { Judged }
    requires { table.now ≡ lines_from 0 j.steps }
    ensures { (by : By) → number ≡ number_of table.now by → IsTrue result ↔ StandsAt j by }
{
    number < table.count()
}

/// Whether no event before the one at this place is of a later step than the command of this number.
pub fn is_in_time<E: Owned>(
    table: &LineTable,
    own: &OwnEvents,
    events: &[E],
    place: u64,
    number: u64,
) -> bool
    requires numbers { own.now ≡ numbered table.now (map E.by events.now) }
    requires within { place < length events.now }
    ensures { (steps : List Step) (by : By) → table.now ≡ lines_from 0 steps → number ≡ number_of table.now by → IsTrue result ↔ IsNotLate steps (map E.by (take place events.now)) by }
{
    match table.line(number) {
        Some(line) => own.latest_at(place) <= line.step,
        None => true,
    }
}

/// Whether this event stands there among those that are told.
pub fn is_told_by<E: Same>(list: &[E], rank: u64, event: &E) -> bool
    ensures { IsTrue result ↔ (slice_get list.now rank ≡ Some event.now) }
{
    match list.get(rank as usize) {
        Some(e) => e.is_same(event),
        None => false,
    }
}
