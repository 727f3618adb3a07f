//! The rule of a multixact event's line.
ghost use Rattle.std.specs.Prelude.{◌≡◌, ◌<◌, ◌↔◌, IsTrue, Some, length, slice_get};
ghost use Rattle.tx_events.specs.declared.multi.MultiEvent.{MultiEvent};
ghost use Rattle.tx_events.specs.Multis.{multi_by};
ghost use Rattle.place_columns.specs.Lined.{lines_from};
ghost use Rattle.report_law.specs.Events.{StandsAt};
ghost use Rattle.report_law.specs.Steps.{Judged};
ghost use Rattle.event_rules.specs.Lined.{multis_in};
ghost use Rattle.event_rules.specs.Told.{IsItsMulti, IsToldMulti};

use crate::both::{is_in_time, stands};
use place_columns::{LineTable, OwnEvents};
use tx_events::MultiEvent;

/// Whether the multixact event at this place is of a command of the life, of no earlier step than one before it, and the one
/// that the command's reply tells in its turn. `told` says the last, where the command stands.
pub fn is_its_multi(
    table: &LineTable,
    own: &OwnEvents,
    events: &[MultiEvent],
    place: u64,
    told: bool,
) -> bool
    ghost j: { Judged }
    requires lines { table.now ≡ lines_from 0 j.steps }
    requires numbers { own.now ≡ multis_in j }
    requires events { events.now ≡ j.life.multis }
    requires within { place < length events.now }
    requires told { (e : MultiEvent) → slice_get events.now place ≡ Some e → (s : StandsAt j (multi_by e)) → IsTrue told ↔ IsToldMulti j place e s }
    ensures { (e : _) → slice_get events.now place ≡ Some e → IsTrue result ↔ IsItsMulti j place e }
{
    let number = own.number_at(place);
    if !stands(table, number) {
        return false;
    }
    if !is_in_time(table, own, events, place, number) {
        return false;
    }
    told
}
