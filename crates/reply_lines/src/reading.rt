//! Where a command may read.
ghost use Rattle.std.specs.Prelude.{◌≡◌, ◌<◌, ◌≤◌, IsTrue};
ghost use Rattle.tx_model.specs.declared.report.Line.{Line};
ghost use Rattle.multi_rules.specs.MultiReadings.{IsMultiReading};
ghost use Rattle.place_rules.specs.Readings.{IsReading, span_of};
ghost use Rattle.reply_lines.specs.At.{AtKnown, IsAsking, IsRoundAt, StandsThere, lines_at, rounds_at};
ghost use Rattle.reply_lines.specs.Known.{IsKnown};

use crate::known::Known;
use crate::rounds::RoundAt;
use multi_rules::{MultiReading, multi_reading_of};
use place_rules::{Reading, reading_of};
use tx_events::By;

/// A command, the number of its line, where its round stands in both histories, and where in these it may read.
#[derive(Clone, Copy, Debug, PartialEq, Eq)]
pub struct Asking {
    pub by: By,
    pub number: u64,
    pub from: u64,
    pub to: u64,
    pub multi_from: u64,
    pub multi_to: u64,
    pub reading: Reading,
    pub multis: MultiReading,
}

/// Where a command may read the multixact events, whose round stands from `start` to `to` among them.
pub fn multi_reading_at(known: &Known, by: By, start: u64, to: u64) -> MultiReading
    ghost of: { AtKnown }
    requires same { of.known ≡ known.now }
    requires known { IsKnown of.at.j known.now }
    requires few { by.session < 64 }
    requires round { start ≤ to }
    ensures { IsMultiReading known.now.multi_places.events (span_of start to) by result }
{
    multi_reading_of(
        known.multi_turns[by.session as usize].as_slice(),
        known.multi_links[by.session as usize].as_slice(),
        by,
        start,
        to,
    )
}

/// Where a command may read the events.
fn reading_at(known: &Known, by: By, start: u64, to: u64) -> Reading
    ghost of: { AtKnown }
    requires same { of.known ≡ known.now }
    requires known { IsKnown of.at.j known.now }
    requires few { by.session < 64 }
    requires round { start ≤ to }
    ensures { IsReading known.now.places.events (span_of start to) by result }
{
    let _legal = known.places.replay().events();
    reading_of(known.turns[by.session as usize].as_slice(), by, start, to)
}

/// A command whose round is judged.
pub fn asking_of(known: &Known, round: RoundAt, number: u64, by: By) -> Asking
    ghost of: { AtKnown }
    requires same { of.known ≡ known.now }
    requires known { IsKnown of.at.j known.now }
    requires round { IsRoundAt of.at.j (rounds_at of.at) (lines_at of.at) known.now round }
    requires judged { IsTrue round.judged }
    requires line { (l : Line) × (l.by ≡ by) × StandsThere of.at number l }
    requires few { by.session < 64 }
    ensures asking { IsAsking of.at known.now result }
    ensures by { result.by ≡ by }
{
    Asking {
        by,
        number,
        from: round.from,
        to: round.to,
        multi_from: round.multi_from,
        multi_to: round.multi_to,
        reading: reading_at(known, by, round.from, round.to),
        multis: multi_reading_at(known, by, round.multi_from, round.multi_to),
    }
}
