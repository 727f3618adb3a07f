//! A multiset of keys: how often each key is there, of one key in place and of the others in an ordered map.
//!
//! It answers the least key in the logarithm of their number, as horizons over live snapshots and over
//! pinned multixacts need (`docs/HISTORY.md`, `docs/MULTIXACTS.md`). While all are the same key it asks for no memory.
#![tactic(auto)]

ghost use Rattle.std.specs.Prelude.{◌≡◌, ℕ, ◌+◌, ◌-◌, ◌==◌, ◌^◌, ◌<◌, ◌≤◌, Some, cond, IfSome, OnOk, OnErr, MatchOption, false, not};
ghost use Rattle.std.specs.BTreeMap.{get};
ghost use Rattle.std.specs.Ordering.{is_eq, is_gt};
ghost use Rattle.counted_map.specs.Counts.{Counts, counted, counted_in, counted_in_place, some_of, with_count};

use std::alloc::{AllocError, Global};
use std::collections::BTreeMap;

/// A key, with how often it is there.
#[derive(Clone, Copy, Drop)]
struct KeyCount<K> {
    key: K,
    count: usize,
}

/// Keys, each with how often it is there.
#[derive(Drop)]
pub struct CountedMap<K: Ord> {
    /// One of the keys. It needs no memory.
    in_place: Option<KeyCount<K>>,
    /// The others, and that one too where it was among them before.
    counts: BTreeMap<K, usize>,
}

impl<K: Ord + Copy + Drop> CountedMap<K> {
    /// No keys.
    pub fn new(alloc: Global) -> CountedMap<K>
        ensures { Counts K.cmp (λ _. 0) result }
    {
        CountedMap {
            in_place: None,
            counts: BTreeMap::new(alloc),
        }
    }

    /// Adds the key once more. Without memory nothing changes.
    pub fn add(&mut self, key: K) -> Result<(), AllocError>
        requires fits { counted K.cmp self.old key + 1 < 2 ^ 64 }
        ensures added { OnOk result ((f : K → ℕ) → Counts K.cmp f self.old → Counts K.cmp (with_count K.cmp key (f key + 1) f) self.new) }
        ensures same { OnErr result ((f : K → ℕ) → Counts K.cmp f self.old → Counts K.cmp f self.new) }
    {
        match self.in_place {
            None => {
                self.in_place = Some(KeyCount { key, count: 1 });
                Ok(())
            }
            Some(own) => {
                if own.key.cmp(&key).is_eq() {
                    self.in_place = Some(KeyCount {
                        key: own.key,
                        count: own.count + 1,
                    });
                    Ok(())
                } else {
                    count_more(&mut self.counts, key)
                }
            }
        }
    }

    /// Takes the key away once, where it is there. It takes no memory.
    pub fn remove(&mut self, key: K)
        ensures { (f : K → ℕ) → Counts K.cmp f self.old → Counts K.cmp (with_count K.cmp key (f key - 1) f) self.new }
    {
        match self.in_place {
            Some(own) => {
                if own.key.cmp(&key).is_eq() {
                    self.in_place = one_less(own);
                } else {
                    count_less(&mut self.counts, key);
                }
            }
            None => count_less(&mut self.counts, key),
        }
    }

    /// Whether the key is there.
    pub fn contains(&self, key: K) -> bool
        ensures { (f : K → ℕ) → Counts K.cmp f self.now → result ≡ not (f key == 0) }
    {
        match self.in_place {
            Some(own) => own.key.cmp(&key).is_eq() || self.counts.contains_key(&key),
            None => self.counts.contains_key(&key),
        }
    }

    /// The least key, or None where there is none.
    pub fn least(&self) -> Option<K>
        ensures { (f : K → ℕ) → Counts K.cmp f self.now → MatchOption result ((k : K) → f k ≡ 0) (λ k. (1 ≤ f k) × ((q : K) → 1 ≤ f q → is_gt (K.cmp k q) ≡ false)) }
    {
        match (self.in_place, self.counts.first_key_value()) {
            (Some(own), Some((first, _))) => {
                if first.cmp(&own.key).is_lt() {
                    Some(*first)
                } else {
                    Some(own.key)
                }
            }
            (Some(own), None) => Some(own.key),
            (None, Some((first, _))) => Some(*first),
            (None, None) => None,
        }
    }
}

/// The key once less, where it is still there then.
fn one_less<K: Ord + Copy + Drop>(own: KeyCount<K>) -> Option<KeyCount<K>>
    ensures less { (q : K) → counted_in_place K.cmp result q ≡ counted_in_place K.cmp (Some own) q - 1 }
    ensures some { IfSome result (λ left. 1 ≤ left.count) }
{
    if own.count > 1 {
        Some(KeyCount {
            key: own.key,
            count: own.count - 1,
        })
    } else {
        None
    }
}

/// Counts the key once more.
fn count_more<K: Ord + Copy + Drop>(
    counts: &mut BTreeMap<K, usize>,
    key: K,
) -> Result<(), AllocError>
    requires fits { counted_in K.cmp counts.old key + 1 < 2 ^ 64 }
    ensures more { OnOk result ((q : K) → get K.cmp counts.new q ≡ cond (is_eq (K.cmp key q)) (Some (counted_in K.cmp counts.old key + 1)) (get K.cmp counts.old q)) }
    ensures same { OnErr result ((q : K) → get K.cmp counts.new q ≡ get K.cmp counts.old q) }
{
    let count = counts.get(&key).copied().unwrap_or(0);
    match counts.insert(key, count + 1) {
        Ok(_) => Ok(()),
        Err(_) => Err(AllocError),
    }
}

/// Counts the key once less, where it is counted.
fn count_less<K: Ord + Copy + Drop>(counts: &mut BTreeMap<K, usize>, key: K)
    ensures { (q : K) → get K.cmp counts.new q ≡ cond (is_eq (K.cmp key q)) (some_of (counted_in K.cmp counts.old key - 1)) (get K.cmp counts.old q) }
{
    let count = counts.get(&key).copied().unwrap_or(0);
    if count > 1 {
        if let Some(left) = counts.get_mut(&key) {
            *left = count - 1;
        }
    } else {
        counts.remove(&key);
    }
}
