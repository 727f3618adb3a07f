//! A long list is printed in pieces side by side.
ghost use Rattle.std.specs.Prelude.{◌≡◌, ◌*◌, ◌/◌, ◌+◌, ◌%◌, ◌<◌, ℕ, IfOk, length, min, slice_index_or};
ghost use Rattle.std.specs.Fork.{slice_chunk};
ghost use Rattle.text_pieces.specs.Lines.{lines_text};

use crate::lines::{Listed, piece_of};
use report_text::Text;
use std::alloc::Global;
use std::thread;
use std::thread::Threads;
use tx_model::Memory;

/// The texts of so many elements each, where memory sufficed for it.
pub fn print_beside<R: Threads + Sync, X: Listed + Sync>(
    rt: &R,
    alloc: Global,
    by: &X::By,
    items: &[X],
    size: usize,
) -> Result<Vec<Result<Text, Memory>>, Memory>
where
    X::By: Sync,
    requires size { 0 < size }
    ensures count { IfOk result (λ pieces. length pieces.items ≡ length items.now / size + min 1 (length items.now % size)) }
    ensures pieces { IfOk result (λ pieces. (n : ℕ) (d : _) → n < length pieces.items
        → IfOk (slice_index_or pieces.items n d) (λ text. text ≡ lines_text (X.line by.now) (n * size) (slice_chunk items.now size n))) }
{
    let pieces = thread::map_chunks(
        rt,
        alloc,
        items,
        size,
        &|from, part| piece_of(alloc, by, from, part),
    )?;
    Ok(pieces)
}
