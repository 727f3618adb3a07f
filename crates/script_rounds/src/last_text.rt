//! The last text of a run, and the status behind it.
ghost use Rattle.std.specs.Prelude.{◌≡◌, ◌≤◌, ◌⊎◌, ◌++◌, ◌∷◌, ℕ, [], codes, take};
ghost use Rattle.std.specs.Io.KnownBytes.{Appends};
ghost use Rattle.tx_io.specs.Causes.{Rose};

use tx_io::{Failed, Sink, write_all};

/// Writes the last text, and answers the status, or 4 where the sink fails.
pub fn finish<K: Sink>(sink: &mut K, text: &[u8], status: u8) -> u8
    ensures ends { ((result ≡ status) × Appends (K.held sink.old) (K.held sink.new) text.now)
        ⊎ ((result ≡ 4) × Rose (K.faults sink.old) (K.faults sink.new)) }
    ensures front { (n : ℕ) × Appends (K.held sink.old) (K.held sink.new) (take n text.now) }
    ensures later { K.faults sink.old ≤ K.faults sink.new }
{
    match write_all(sink, text) {
        Ok(()) => status,
        Err(Failed) => 4,
    }
}

/// Says that the words of the command line found no memory, by the line `memory`. Answers status 6, or 4 where the sink
/// failed.
pub fn say_out_of_memory<K: Sink>(sink: &mut K) -> u8
    ensures said { ((result ≡ 6) × Appends (K.held sink.old) (K.held sink.new) (codes "memory" ++ 10 ∷ []))
        ⊎ ((result ≡ 4) × Rose (K.faults sink.old) (K.faults sink.new)) }
    ensures front { result ≡ 4 → (n : ℕ)
        × Appends (K.held sink.old) (K.held sink.new) (take n (codes "memory" ++ 10 ∷ [])) }
{
    finish(sink, b"memory\n", 6)
}
