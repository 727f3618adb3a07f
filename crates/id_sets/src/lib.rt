//! A set of numbers that is made once and asked often: a list in order, of eight bytes a number. See docs/CHECKER.md.
#![tactic(auto)]

ghost use Rattle.std.specs.Prelude.{◌≡◌, ◌==◌, ℕ};
ghost use Rattle.std.specs.BTreeSet.{contains};
ghost use Rattle.std.specs.List.{list_any};
ghost use Rattle.std.specs.Ordering.{nat_cmp};

use std::marker::Model;

/// A set of numbers. A contract sees it as a `BTreeSet`.
#[derive(Drop)]
pub struct IdSet {
    // They never fall.
    ids: Vec<u64>,
}

impl Model for IdSet {
    ghost use Rattle.std.specs.Prelude.{ℕ};
    ghost use Rattle.std.specs.List.Sorted.{IsNonDecreasing};
    ghost use Rattle.std.specs.BTreeSet.{BTreeSet};

    ghost Value = { BTreeSet ℕ };

    ghost view = { λ s. record { keys = s.ids.items } };

    ghost invariant = { λ s. IsNonDecreasing s.ids.items };
}

impl IdSet {
    /// These numbers, of which some may be the same.
    pub fn of(ids: Vec<u64>) -> IdSet
        ensures { (x : ℕ) → contains nat_cmp result x ≡ list_any (λ y. y == x) ids.items }
    {
        let mut ids = ids;
        ids.sort_unstable();
        IdSet { ids }
    }

    /// Whether it has this number. Takes a binary search.
    pub fn contains(&self, id: u64) -> bool
        ensures { result ≡ contains nat_cmp self.now id }
    {
        self.ids.binary_search(&id).is_ok()
    }
}
