//! What a table is made of, and values that go into slots and come back.
ghost use Rattle.std.specs.Prelude.{◌≡◌, ℕ, ◌+◌, ◌-◌, ◌*◌, ◌^◌, ◌<◌, ◌≤◌, List, [], true, false, map, vec_len, vec_capacity, All, IsSome, Some, slice_index_or, replicate, IfOk, length};
ghost use Rattle.hall.specs.Layout.{Starts, line_of};

use crate::layout::{LINE, line_at};
use crate::memory::Memory;
use crate::view::Held;
use std::alloc::Global;

// Each lock is free, and the published words have their first numbers.
pub(crate) fn first_words(alloc: Global, cells: usize, posts: &[u64]) -> Result<Vec<u64>, Memory>
    requires { (cells < 2 ^ 62) × (length posts.now < 2 ^ 62) }
    ensures { IfOk result (λ v. Starts cells posts.now v.items × (line_of (cells + length posts.now) < 2 ^ 64)) }
{
    let Some(count) = (cells + posts.len() + 1).checked_mul(LINE) else {
        return Err(Memory);
    };
    let Ok(mut words) = Vec::from_elem(alloc, 0u64, count) else {
        return Err(Memory);
    };
    for w in 0..posts.len() {
        words[line_at(cells + w)] = posts[w];
    }
    Ok(words)
}

// Each value goes into a slot of its own.
pub(crate) fn wrap<V, E>(values: &mut Vec<V>, slots: &mut Vec<Held<V, E>>)
    requires room { vec_len values.old ≤ vec_capacity slots.old }
    requires empty { slots.old.items ≡ [] }
    ensures items { map (λ h. h.value) slots.new.items ≡ map Some values.old.items }
    ensures left { (values.new.items ≡ []) × (vec_capacity values.new ≡ vec_capacity values.old) }
{
    values.reverse();
    while let Some(value) = values.pop() {
        slots.push_reserved(Held::new(Some(value), None));
    }
}

// The values come back from their slots.
pub(crate) fn unwrap<V, E>(mut slots: Vec<Held<V, E>>, values: &mut Vec<V>)
    requires full { All (λ h. IsSome h.value) slots.items }
    requires empty { values.old.items ≡ [] }
    requires room { vec_len slots ≤ vec_capacity values.old }
    ensures { map Some values.new.items ≡ map (λ h. h.value) slots.items }
{
    while slots.len() > 0 {
        let Held {
            value,
            note: _,
            gap: _,
        } = slots.remove(0);
        let Some(x) = value else { unreachable!() };
        values.push_reserved(x);
    }
    slots.destroy_empty();
}
