//! The tool's `check`: a report read from a source, judged, and told in a line (docs/CHECKER.md).
ghost use Rattle.std.specs.Prelude.{◌≡◌, ◌≤◌, ◌⊎◌, ◌++◌, ◌∷◌, [], codes};
ghost use Rattle.std.specs.Io.KnownBytes.{Appends};
ghost use Rattle.tx_io.specs.Amounts.{ReadsUpTo, most_read};
ghost use Rattle.tx_io.specs.Causes.{Rose};
ghost use Rattle.report_check.specs.Checks.{EndsCheck, HoldsFront, Judges, ReadsLawful, TellsLine, TellsUnlawful, lawful_text};

use crate::ending::{Ending, unlawful_text};
use crate::first::first_unlawful;
use std::alloc::Global;
use tx_io::{Failed, ReadStop, Sink, Source, read_all, write_all};
use tx_model::Memory;

/// The ending where this line of the input is its first unlawful one.
fn unlawful(alloc: Global, line: u64) -> Ending
    ensures { TellsLine line result }
{
    match unlawful_text(alloc, line) {
        Ok(text) => Ending::Unlawful(text),
        Err(Memory) => Ending::Memory,
    }
}

/// The ending by the bytes of the whole input.
fn judge(alloc: Global, bytes: Vec<u8>) -> Ending
    ensures { Judges bytes.items result }
{
    match first_unlawful(alloc, bytes) {
        Ok(None) => Ending::Lawful,
        Ok(Some(line)) => unlawful(alloc, line),
        Err(Memory) => Ending::Memory,
    }
}

/// Reads the source and judges it.
fn check_source<S: Source>(alloc: Global, source: &mut S) -> Ending
    ensures ends { EndsCheck (S.left source.old) (S.left source.new) (S.faults source.old) (S.faults source.new) result }
    ensures amount { ReadsUpTo most_read (S.left source.old) (S.left source.new) }
    ensures later { S.faults source.old ≤ S.faults source.new }
{
    match read_all(alloc, source) {
        Ok(bytes) => judge(alloc, bytes),
        Err(ReadStop::TooLong) => unlawful(alloc, 0),
        Err(ReadStop::Fault) => Ending::ReadFault,
        Err(ReadStop::Memory) => Ending::Memory,
    }
}

/// Reads a report from the source, at most 16,777,217 bytes, and writes `lawful` where they are the text of a lawful report of
/// at most 16,777,216 bytes, and else `unlawful LINE` with their first unlawful line, counted from 1, and 0 of a longer text.
/// Answers the status: 0 lawful, 8 unlawful, 3 the source failed, and the line `read-fault` is written, 4 the sink failed, 6
/// out of memory, and the line `memory` is written.
pub fn check_tool<S: Source, K: Sink>(alloc: Global, source: &mut S, sink: &mut K) -> u8
    ensures lawful { result ≡ 0 → ReadsLawful (S.left source.old) (S.left source.new)
        × Appends (K.held sink.old) (K.held sink.new) lawful_text }
    ensures unlawful { result ≡ 8 → TellsUnlawful (S.left source.old) (S.left source.new) (K.held sink.old) (K.held sink.new) }
    ensures read { result ≡ 3 → Rose (S.faults source.old) (S.faults source.new)
        × Appends (K.held sink.old) (K.held sink.new) (codes "read-fault" ++ 10 ∷ []) }
    ensures write { result ≡ 4 → Rose (K.faults sink.old) (K.faults sink.new) }
    ensures memory { result ≡ 6 → Appends (K.held sink.old) (K.held sink.new) (codes "memory" ++ 10 ∷ []) }
    ensures front { result ≡ 4 → HoldsFront (S.left source.old) (S.left source.new) (S.faults source.old) (S.faults source.new)
        (K.held sink.old) (K.held sink.new) }
    ensures statuses { (result ≡ 0) ⊎ ((result ≡ 8) ⊎ ((result ≡ 3) ⊎ ((result ≡ 4) ⊎ (result ≡ 6)))) }
    ensures amount { ReadsUpTo most_read (S.left source.old) (S.left source.new) }
{
    let ending = check_source(alloc, source);
    match write_all(sink, ending.text()) {
        Ok(()) => ending.status(),
        Err(Failed) => 4,
    }
}
