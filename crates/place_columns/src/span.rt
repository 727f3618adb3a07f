//! Places that follow each other, and where a column has a number.
ghost use Rattle.std.specs.Prelude.{◌≡◌, ℕ, ◌<◌, ◌≤◌, ◌↔◌, IsTrue, [], ◌∷◌, IfOk};
ghost use Rattle.place_columns.specs.Columns.{IsSpanOf, NeverFalls};

use std::alloc::Global;
use tx_events::{FullXid, Memory};

/// The places from `from` to below `end`.
#[derive(Clone, Copy, Debug, PartialEq, Eq)]
pub struct Span {
    pub from: u64,
    pub end: u64,
}

impl Span {
    /// Whether one of the places is among those from `from` to `to`.
    pub fn meets(self, from: u64, to: u64) -> bool
        ensures { IsTrue result ↔ ((p : ℕ) × (self.from ≤ p) × (p < self.end) × (from ≤ p) × (p ≤ to)) }
    {
        let least = self.from.max(from);
        least < self.end && least <= to
    }

    /// The places that both have.
    pub fn and(self, other: Span) -> Span
        ensures { (p : ℕ) → ((result.from ≤ p) × (p < result.end)) ↔ ((self.from ≤ p) × (p < self.end) × (other.from ≤ p) × (p < other.end)) }
    {
        Span {
            from: self.from.max(other.from),
            end: self.end.min(other.end),
        }
    }
}

/// A column of one number, with room for so many in all.
pub fn column_of<T: Copy>(alloc: Global, first: T, room: usize) -> Result<Vec<T>, Memory>
    ensures { IfOk result (λ column. column.items ≡ first ∷ []) }
{
    let mut column = Vec::with_capacity(alloc, room)?;
    column.push(first)?;
    Ok(column)
}

/// Where a column has this number.
pub fn span_of(column: &[u64], number: u64) -> Span
    requires { NeverFalls column.now }
    ensures { IsSpanOf column.now number result }
{
    Span {
        from: column.partition_point(|x| *x < number) as u64,
        end: column.partition_point(|x| *x <= number) as u64,
    }
}

/// Where a column of ids has this one.
pub fn span_of_id(column: &[FullXid], id: FullXid) -> Span
    requires { NeverFalls column.now }
    ensures { IsSpanOf column.now id result }
{
    Span {
        from: column.partition_point(|x| *x < id) as u64,
        end: column.partition_point(|x| *x <= id) as u64,
    }
}
