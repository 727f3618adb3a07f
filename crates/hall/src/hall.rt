//! Values behind locks, over any law.
ghost use Rattle.std.specs.Prelude.{◌≡◌, ◌+◌, ◌^◌, ◌<◌, ◌≤◌, length, vec_len, vec_capacity};
ghost use Rattle.hall.specs.Layout.{line_of};

use crate::hall_rule::HallRule;
use crate::law::Law;
use crate::view::{Held, Opening, View};
use atomic_table::Table;
use notes::Note;
use std::alloc::Global;

/// A lock table: values behind locks, and published words, over a law.
///
/// A table may be shared by threads where its values may be sent. Each thread goes through it with
/// a pass of its own.
pub struct Hall<L: Law> {
    pub(crate) table: Table<
        Held<L::Value, L::Entry>,
        View<L::Start, L::Entry>,
        Note<Opening<L::Start, L::Entry>>,
        HallRule<L>,
        Global,
    >,
    pub(crate) cells: usize,
    pub(crate) posts: usize,
    // The emptied vector of `new`, so that `close_with` takes no memory.
    pub(crate) shell: Vec<L::Value>,
    ghost room: { (vec_len shell ≡ 0) × (cells ≤ vec_capacity shell) },
    ghost sized: { (table.shared.table_id.slots ≡ cells) × (table.shared.table_id.words ≡ line_of (cells + posts)) × (line_of (cells + posts) < 2 ^ 64) },
    ghost places: { length table.shared.key.value.lists ≡ cells + posts },
}
