//! The places at which a command may read.
ghost use Rattle.std.specs.Prelude.{◌≡◌, ◌≤◌, List, length, map};
ghost use Rattle.tx_events.specs.declared.event.Event.{Event};
ghost use Rattle.tx_events.specs.Events.{by_of};
ghost use Rattle.place_columns.specs.Owned.{AreInTurn, own_of};
ghost use Rattle.place_rules.specs.Readings.{IsReading, span_of};

use place_columns::{Own, read_from};
use tx_events::By;

/// The places from `from` to `to`, where a command may read. A horizon may be that of one place earlier.
#[derive(Clone, Copy, Debug, PartialEq, Eq)]
pub struct Reading {
    pub from: u64,
    pub early: u64,
    pub to: u64,
}

/// Where a command may read whose round stands from `start` to `to`. These are its session's events.
pub fn reading_of(own: &[Own], by: By, start: u64, to: u64) -> Reading
    ghost h: { List Event }
    requires listed { own.now ≡ own_of by.session (map by_of h) }
    requires turn { AreInTurn (map by_of h) }
    requires round { start ≤ to }
    ensures { IsReading h (span_of start to) by result }
{
    let from = read_from(own, by, to);
    Reading {
        from: from.max(start),
        early: from.saturating_sub(1).max(start),
        to,
    }
}
