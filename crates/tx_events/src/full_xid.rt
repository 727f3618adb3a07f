//! Transaction ids in full.
ghost use Rattle.std.specs.Prelude.{◌≡◌, ℕ, ◌+◌, ◌-◌, ◌%◌, ◌^◌, ◌<◌, ◌≤◌, ◌⊎◌, ◌↔◌, IsTrue, SomeIff, IfSome, IfNone};
ghost use Rattle.tx_events.specs.Ids.{low_half, IsXidNumber, IsNextId, IsIdBefore, next_id, id_before};
ghost use Rattle.tx_events.specs.Nearest.{IsNearest, near_id};

use crate::order::Xid;
use std::marker::Model;

/// A transaction id in full (`FullTransactionId`): the epoch in the high 32 bits, the id in the low 32. It is one
/// of the special ids 0, 1 and 2, or its low half is at least 3. A contract sees its number.
#[derive(Clone, Copy, Debug, PartialEq, Eq, PartialOrd, Ord, Hash)]
pub struct FullXid {
    number: u64,
}

impl Model for FullXid {
    ghost use Rattle.std.specs.Prelude.{ℕ};
    ghost use Rattle.tx_events.specs.Ids.{IsXidNumber};

    ghost Value = { ℕ };

    ghost view = { λ id. id.number };

    ghost invariant = { λ id. IsXidNumber id.number };

    ghost inverse = { λ n. record { number = n } };
}

impl FullXid {
    /// The id of this number. None exactly where the number is above 2 and its low half is below 3.
    pub fn new(number: u64) -> Option<FullXid>
        ensures { SomeIff result (IsXidNumber number) number }
    {
        if number > 2 && number & 0xffff_ffff < 3 {
            return None;
        }
        Some(FullXid { number })
    }

    /// The id as one number.
    pub fn number(self) -> u64
        ensures value { result ≡ self }
        ensures form { IsXidNumber result }
    {
        self.number
    }

    /// The 32 bits that are stored.
    pub fn low(self) -> Xid
        ensures { result.number ≡ low_half self }
    {
        Xid {
            number: (self.number & 0xffff_ffff) as u32,
        }
    }

    /// The least full id above this one (`FullTransactionIdAdvance`), for ids from 2 to below 2^63.
    pub fn advance(self) -> FullXid
        requires from { 2 ≤ self }
        requires to { self < 2 ^ 63 }
        ensures next { IsNextId self result }
        ensures value { result ≡ next_id self }
    {
        let next = self.number + 1;
        let low = next & 0xffff_ffff;
        if low < 3 {
            FullXid {
                number: next + (3 - low),
            }
        } else {
            FullXid { number: next }
        }
    }

    /// The id before this one (`FullTransactionIdRetreat`), a special one for 3 and below. Not for 0.
    pub fn retreat(self) -> FullXid
        requires { 1 ≤ self }
        ensures before { IsIdBefore self result }
        ensures value { result ≡ id_before self }
    {
        let before = self.number - 1;
        let low = before & 0xffff_ffff;
        if before >= 3 && low < 3 {
            FullXid {
                number: before - low - 1,
            }
        } else {
            FullXid { number: before }
        }
    }
}

/// The full id that the stored half `x` means near `f`: the one from 2^31 below `f` to before 2^31 above it
/// (`FullTransactionIdFromAllowableAt` and its like). None exactly where that would be below 0.
pub fn near(f: FullXid, x: Xid) -> Option<FullXid>
    requires normal { 3 ≤ x.number }
    requires from { 3 ≤ f }
    requires to { f < 2 ^ 63 }
    ensures found { IfSome result (λ y. IsNearest f x.number y) }
    ensures none { IfNone result ((y : ℕ) → IsNearest f x.number y → ⊥) }
    ensures value { result ≡ near_id f x.number }
{
    let low = f.low().number;
    let offset = u64::from(x.number.wrapping_sub(low).wrapping_add(1 << 31));
    let sum = f.number() + offset;
    if sum < 1 << 31 {
        return None;
    }
    FullXid::new(sum - (1 << 31))
}
