//! The events of each line.
ghost use Rattle.std.specs.Prelude.{◌≡◌, ◌<◌, ◌≤◌, ◌==◌, nat_lt, IfOk, length, map, take, slice_index};
ghost use Rattle.std.specs.List.{between, count_by};
ghost use Rattle.place_columns.specs.Lined.{most_of, numbered, places_of, step_at};

use crate::columns::{Tally, counts_of, numbers_of, placed, running_most, steps_at, tally_of};
use crate::lines::LineTable;
use std::alloc::Global;
use std::marker::Model;
use tx_events::{By, Memory};

/// Of which line each event is, and what follows from it. A contract sees the numbers of the events' lines, and the steps of
/// the lines.
#[derive(Drop)]
pub struct OwnEvents {
    steps: Vec<u32>,
    numbers: Vec<u32>,
    ranks: Vec<u32>,
    counts: Vec<u32>,
    // The places line by line; a line's begin at its count.
    places: Vec<u64>,
    reach: Vec<u32>,
    latest: Vec<u32>,
}

impl Model for OwnEvents {
    ghost use Rattle.place_columns.specs.Lined.{Numbered};
    ghost use Rattle.place_columns.specs.Tables.{AreOwnEvents};

    ghost Value = { Numbered };

    ghost view = { λ o. record { steps = o.steps.items; numbers = o.numbers.items } };

    ghost invariant = { λ o. AreOwnEvents o.steps.items o.numbers.items o.ranks.items o.counts.items o.places.items o.reach.items o.latest.items };
}

/// The places of these slots.
fn part(places: &[u64], from: u32, end: u32) -> &[u64]
    requires from { from ≤ end }
    requires end { end ≤ length places.now }
    ensures { result.now ≡ between from end places.now }
{
    &places[from as usize..end as usize]
}

impl OwnEvents {
    /// The events of these commands.
    pub fn new(alloc: Global, table: &LineTable, bys: &[By]) -> Result<OwnEvents, Memory>
        ensures { IfOk result (λ o. o ≡ numbered table.now bys.now) }
    {
        let steps = table.steps(alloc)?;
        let numbers = numbers_of(alloc, table, bys)?;
        if numbers.len() > u32::MAX as usize {
            return Err(Memory);
        }
        let Tally { totals, ranks } = tally_of(alloc, steps.len() + 1, numbers.as_slice())?;
        let counts = counts_of(alloc, totals.as_slice(), numbers.as_slice())?;
        drop(totals);
        let places = placed(
            alloc,
            numbers.as_slice(),
            counts.as_slice(),
            ranks.as_slice(),
        )?;
        let reach = running_most(alloc, numbers.as_slice())?;
        let at = steps_at(alloc, steps.as_slice(), numbers.as_slice())?;
        let latest = running_most(alloc, at.as_slice())?;
        Ok(OwnEvents {
            steps,
            numbers,
            ranks,
            counts,
            places,
            reach,
            latest,
        })
    }

    /// The number of the event's line; how many lines there are, where it has none.
    pub fn number_at(&self, place: u64) -> u64
        requires { place < length self.now.numbers }
        ensures number { result ≡ slice_index self.now.numbers place }
        ensures within { result ≤ length self.now.steps }
    {
        u64::from(self.numbers[place as usize])
    }

    /// How many events before it are of its line.
    pub fn rank_at(&self, place: u64) -> u64
        requires { place < length self.now.numbers }
        ensures { result ≡ count_by (λ k. k == slice_index self.now.numbers place) (take place self.now.numbers) }
    {
        u64::from(self.ranks[place as usize])
    }

    /// Where the events of this line stand.
    pub fn places(&self, line: u64) -> &[u64]
        requires { line ≤ length self.now.steps }
        ensures { result.now ≡ places_of line self.now.numbers }
    {
        let from = self.counts[line as usize];
        let end = self.counts[line as usize + 1];
        part(self.places.as_slice(), from, end)
    }

    /// How many events are of the lines before this one.
    pub fn count_before(&self, line: u64) -> u64
        requires { line ≤ length self.now.steps }
        ensures { result ≡ count_by (λ k. nat_lt k line) self.now.numbers }
    {
        u64::from(self.counts[line as usize])
    }

    /// The greatest number of a line of the events before this place, 0 where none stands there.
    pub fn reach_at(&self, place: u64) -> u64
        requires { place ≤ length self.now.numbers }
        ensures { result ≡ most_of (take place self.now.numbers) }
    {
        u64::from(self.reach[place as usize])
    }

    /// The latest step of the events before this place, 0 where no line has one.
    pub fn latest_at(&self, place: u64) -> u64
        requires { place ≤ length self.now.numbers }
        ensures { result ≡ most_of (take place (map (step_at self.now.steps) self.now.numbers)) }
    {
        u64::from(self.latest[place as usize])
    }
}
