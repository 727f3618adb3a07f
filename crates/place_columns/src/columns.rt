//! Columns of the numbers of events' lines.
ghost use Rattle.std.specs.Prelude.{◌≡◌, ◌+◌, ◌^◌, ◌<◌, IfOk, length, map};
ghost use Rattle.std.specs.List.{All};
ghost use Rattle.place_columns.specs.Columns.{IsColumn};
ghost use Rattle.place_columns.specs.Lined.{most_of, number_of, step_at};
ghost use Rattle.place_columns.specs.Tables.{AreCounts, ArePlaced, AreRanks, AreTotals};

use crate::column_of;
use crate::lines::{LineTable, small};
use std::alloc::Global;
use tx_events::{By, Memory};

/// How often each number stands, and at each place how often its number stands before it.
#[derive(Drop)]
pub struct Tally {
    pub totals: Vec<u32>,
    pub ranks: Vec<u32>,
}

/// The number of each command's line.
pub fn numbers_of(alloc: Global, table: &LineTable, bys: &[By]) -> Result<Vec<u32>, Memory>
    ensures { IfOk result (λ numbers. numbers.items ≡ map (number_of table.now) bys.now) }
{
    let mut numbers = Vec::with_capacity(alloc, bys.len())?;
    for by in bys {
        numbers.push(small(table.number(*by))?)?;
    }
    Ok(numbers)
}

/// The step of each number's line.
pub fn steps_at(alloc: Global, steps: &[u32], numbers: &[u32]) -> Result<Vec<u32>, Memory>
    ensures { IfOk result (λ at. at.items ≡ map (step_at steps.now) numbers.now) }
{
    let mut at = Vec::with_capacity(alloc, numbers.len())?;
    for number in numbers {
        at.push(steps.get(*number as usize).copied().unwrap_or(0))?;
    }
    Ok(at)
}

/// How often each number below `count` stands.
pub fn tally_of(alloc: Global, count: usize, numbers: &[u32]) -> Result<Tally, Memory>
    requires within { All (λ k. k < count) numbers.now }
    requires few { length numbers.now < 2 ^ 32 }
    ensures size { IfOk result (λ t. length t.totals.items ≡ count) }
    ensures totals { IfOk result (λ t. AreTotals numbers.now t.totals.items) }
    ensures ranks { IfOk result (λ t. AreRanks numbers.now t.ranks.items) }
{
    let mut totals = Vec::from_elem(alloc, 0, count)?;
    let mut ranks = Vec::with_capacity(alloc, numbers.len())?;
    for number in numbers {
        let rank = totals[*number as usize];
        ranks.push(rank)?;
        totals[*number as usize] = rank + 1;
    }
    Ok(Tally { totals, ranks })
}

/// How many are below each number, and how many there are.
pub fn counts_of(alloc: Global, totals: &[u32], numbers: &[u32]) -> Result<Vec<u32>, Memory>
    requires totals { AreTotals numbers.now totals.now }
    requires few { length numbers.now < 2 ^ 32 }
    ensures { IfOk result (λ counts. AreCounts numbers.now (length totals.now + 1) counts.items) }
{
    let mut counts = Vec::with_capacity(alloc, totals.len() + 1)?;
    let mut below = 0;
    for total in totals {
        counts.push(below)?;
        below += *total;
    }
    counts.push(below)?;
    Ok(counts)
}

/// The places by their numbers: behind as many as are of the numbers below, and of its own before it.
pub fn placed(
    alloc: Global,
    numbers: &[u32],
    counts: &[u32],
    ranks: &[u32],
) -> Result<Vec<u64>, Memory>
    requires counts { AreCounts numbers.now (length counts.now) counts.now }
    requires ranks { AreRanks numbers.now ranks.now }
    requires within { All (λ k. k + 1 < length counts.now) numbers.now }
    ensures { IfOk result (λ places. ArePlaced numbers.now counts.now ranks.now places.items) }
{
    let mut places = Vec::from_elem(alloc, 0, numbers.len())?;
    for (place, number) in numbers.iter().enumerate() {
        let slot = counts[*number as usize] as usize + ranks[place] as usize;
        places[slot] = place as u64;
    }
    Ok(places)
}

/// The greatest before each place, and before the end.
pub fn running_most(alloc: Global, values: &[u32]) -> Result<Vec<u32>, Memory>
    ensures { IfOk result (λ column. IsColumn most_of values.now column.items) }
{
    let mut most: u32 = 0;
    let mut column = column_of(alloc, most, values.len().saturating_add(1))?;
    for value in values {
        most = (*value).max(most);
        column.push(most)?;
    }
    Ok(column)
}
