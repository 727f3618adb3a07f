//! Multixact ids in full.
ghost use Rattle.std.specs.Prelude.{◌≡◌, ℕ, ◌+◌, ◌-◌, ◌%◌, ◌^◌, ◌<◌, ◌≤◌, SomeIff, IfSome, IfNone};
ghost use Rattle.tx_events.specs.Ids.{low_half, IsFullMulti, IsNextMulti, next_multi};
ghost use Rattle.tx_events.specs.Nearest.{IsNearest, near_id};

use std::marker::Model;

/// The stored half of a multixact's id (`MultiXactId`): 0 is invalid, 1 the first one.
#[derive(Clone, Copy, Debug, PartialEq, Eq, PartialOrd, Ord, Hash)]
pub struct MultiId {
    pub number: u32,
}

/// A multixact's id in full: its low half isn't 0. A contract sees its number.
#[derive(Clone, Copy, Debug, PartialEq, Eq, PartialOrd, Ord, Hash)]
pub struct FullMulti {
    number: u64,
}

impl Model for FullMulti {
    ghost use Rattle.std.specs.Prelude.{ℕ};
    ghost use Rattle.tx_events.specs.Ids.{IsFullMulti};

    ghost Value = { ℕ };

    ghost view = { λ id. id.number };

    ghost invariant = { λ id. IsFullMulti id.number };

    ghost inverse = { λ n. record { number = n } };
}

impl FullMulti {
    /// The id of this number. None exactly where its low half is 0.
    pub fn new(number: u64) -> Option<FullMulti>
        ensures { SomeIff result (IsFullMulti number) number }
    {
        if number & 0xffff_ffff == 0 {
            return None;
        }
        Some(FullMulti { number })
    }

    /// The id as one number.
    pub fn number(self) -> u64
        ensures value { result ≡ self }
        ensures form { IsFullMulti result }
    {
        self.number
    }

    /// The 32 bits that are stored.
    pub fn low(self) -> MultiId
        ensures { result.number ≡ low_half self }
    {
        MultiId {
            number: (self.number & 0xffff_ffff) as u32,
        }
    }

    /// The least full multixact id above this one, for ids below 2^63.
    pub fn advance(self) -> FullMulti
        requires { self < 2 ^ 63 }
        ensures next { IsNextMulti self result }
        ensures value { result ≡ next_multi self }
    {
        let next = self.number + 1;
        if next & 0xffff_ffff == 0 {
            FullMulti { number: next + 1 }
        } else {
            FullMulti { number: next }
        }
    }
}

/// The full multixact id that the stored half `m` means near `f`: the one from 2^31 below `f` to before 2^31 above
/// it. None exactly where that would be below 0.
pub fn near_multi(f: FullMulti, m: MultiId) -> Option<FullMulti>
    requires some { 1 ≤ m.number }
    requires to { f < 2 ^ 63 }
    ensures found { IfSome result (λ y. IsNearest f m.number y) }
    ensures none { IfNone result ((y : ℕ) → IsNearest f m.number y → ⊥) }
    ensures value { result ≡ near_id f m.number }
{
    let low = f.low().number;
    let offset = u64::from(m.number.wrapping_sub(low).wrapping_add(1 << 31));
    let sum = f.number() + offset;
    if sum < 1 << 31 {
        return None;
    }
    FullMulti::new(sum - (1 << 31))
}
