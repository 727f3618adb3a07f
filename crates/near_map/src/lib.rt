//! Values by numbers, most of which are next to each other, as the ids of one life are: found at once. See docs/CHECKER.md.
#![tactic(auto)]

ghost use Rattle.std.specs.Prelude.{◌≡◌, ℕ, ◌+◌, ◌-◌, ◌<◌, ◌&&◌, ◌==◌, nat_le, nat_lt, false, cond, IfNone, IfOk, IfSome, None, OnOk, Some};
ghost use Rattle.near_map.specs.Near.{value_of};

use std::alloc::Global;
use std::collections::BTreeMap;
use tx_events::Memory;

/// Values by numbers. Those of the numbers next to the first one stand in a list, where each is found at once; those of all
/// others in a map.
#[derive(Drop)]
pub struct NearMap<V> {
    first: u64,
    near: Vec<Option<V>>,
    far: BTreeMap<u64, V>,
}

/// Where the number's value stands in a list of so many, which begins with the first one's.
fn slot_of(first: u64, count: usize, number: u64) -> Option<usize>
    ensures some { IfSome result (λ slot. (number ≡ first + slot) × (slot < count)) }
    ensures none { IfNone result ((nat_le first number && nat_lt (number - first) count) ≡ false) }
{
    if number < first {
        return None;
    }
    let slot = (number - first) as usize;
    if slot < count { Some(slot) } else { None }
}

impl<V: Copy + Drop> NearMap<V> {
    /// No values. The list is for this number and those next to it.
    #[tactic(auto, using(crate::proofs::Making::none_more, crate::proofs::Making::none_of))]
    pub fn new(alloc: Global, first: u64, count: usize) -> Result<NearMap<V>, Memory>
        ensures { IfOk result (λ m. (k : ℕ) → value_of m k ≡ None) }
    {
        let mut near = Vec::with_capacity(alloc, count)?;
        for _n in 0..count {
            near.push(None)?;
        }
        Ok(NearMap {
            first,
            near,
            far: BTreeMap::new(alloc),
        })
    }

    /// The number's value.
    pub fn get(&self, number: u64) -> Option<V>
        ensures { result ≡ value_of self.now number }
    {
        match slot_of(self.first, self.near.len(), number) {
            Some(slot) => self.near[slot],
            None => self.far.get(&number).copied(),
        }
    }

    /// Gives the number this value.
    pub fn put(&mut self, number: u64, value: V) -> Result<(), Memory>
        ensures { OnOk result ((k : ℕ) → value_of self.new k ≡ cond (number == k) (Some value) (value_of self.old k)) }
    {
        match slot_of(self.first, self.near.len(), number) {
            Some(slot) => self.near[slot] = Some(value),
            None => {
                self.far.insert(number, value)?;
            }
        }
        Ok(())
    }
}
