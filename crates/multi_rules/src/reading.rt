//! The places at which a command may read the multixacts.
ghost use Rattle.std.specs.Prelude.{◌≡◌, ◌≤◌, List, length, map};
ghost use Rattle.tx_events.specs.declared.multi.MultiEvent.{MultiEvent};
ghost use Rattle.tx_events.specs.Multis.{multi_by};
ghost use Rattle.place_columns.specs.Owned.{own_of};
ghost use Rattle.turn_links.specs.Links.{AreLinks};
ghost use Rattle.multi_rules.specs.MultiReadings.{IsMultiReading, span_of};

use place_columns::Own;
use turn_links::{Link, read_back};
use tx_events::By;

/// The places from `from` to `to`, where a command may read.
#[derive(Clone, Copy, Debug, PartialEq, Eq)]
pub struct MultiReading {
    pub from: u64,
    pub to: u64,
}

/// Where a command may read whose round stands from `start` to `to` among the multixact events, whatever their order. These
/// are its session's, and how a look back goes over them.
pub fn multi_reading_of(own: &[Own], links: &[Link], by: By, start: u64, to: u64) -> MultiReading
    ghost h: { List MultiEvent }
    requires listed { own.now ≡ own_of by.session (map multi_by h) }
    requires links { AreLinks own.now links.now }
    requires all { length links.now ≡ length own.now }
    requires round { start ≤ to }
    ensures { IsMultiReading h (span_of start to) by result }
{
    let from = read_back(own, links, by, to);
    MultiReading {
        from: from.max(start),
        to,
    }
}
