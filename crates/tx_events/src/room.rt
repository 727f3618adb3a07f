//! Room that a history keeps for events which may come without memory.
ghost use Rattle.std.specs.Prelude.{◌≡◌, ◌+◌, ◌^◌, ◌<◌, ◌≤◌, OnOk};
ghost use Rattle.std.specs.Vec.{vec_len, vec_capacity};

use crate::sequence::Memory;

/// Makes room for this many items, besides the promised ones.
pub fn make_room<T>(items: &mut Vec<T>, promised: usize, more: usize) -> Result<(), Memory>
    ensures items { items.new.items ≡ items.old.items }
    ensures len { vec_len items.new ≡ vec_len items.old }
    ensures capacity { vec_capacity items.old ≤ vec_capacity items.new }
    ensures fits { OnOk result (promised + more < 2 ^ 64) }
    ensures room { OnOk result (vec_len items.new + (promised + more) ≤ vec_capacity items.new) }
{
    match promised.checked_add(more) {
        Some(room) => {
            items.reserve(room)?;
            Ok(())
        }
        None => Err(Memory),
    }
}

/// Makes room for one more item.
pub fn make_one_room<T>(items: &mut Vec<T>) -> Result<(), Memory>
    ensures items { items.new.items ≡ items.old.items }
    ensures room { OnOk result (vec_len items.new < vec_capacity items.new) }
{
    items.reserve(1)?;
    Ok(())
}
