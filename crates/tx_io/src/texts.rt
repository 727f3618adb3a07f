//! Reads a source to its end, up to a limit, and writes a text to a sink.
ghost use Rattle.std.specs.Prelude.{◌≡◌, ℕ, ◌+◌, ◌-◌, ◌^◌, ◌<◌, ◌≤◌, List, length, take, ◌++◌, IfOk, OnOk, OnErr, IsErrOf};
ghost use Rattle.std.specs.Io.KnownBytes.{Consumes, Appends, IsAtEnd};
ghost use Rattle.tx_io.specs.Amounts.{ReadsUpTo, most_bytes, most_read};
ghost use Rattle.tx_io.specs.Causes.{Rose, HasCause};

use crate::traits::{Failed, Sink, Source};
use std::alloc::Global;

/// The most bytes that a text has which is read.
const LIMIT: usize = 16_777_216;

/// Why reading stopped before the end.
#[derive(Clone, Copy, Debug, PartialEq, Eq)]
pub enum ReadStop {
    /// The source failed.
    Fault,
    /// It has more bytes than the limit.
    TooLong,
    Memory,
}

/// Reads the next piece behind the bytes so far, up to one byte past the limit.
fn read_more<S: Source>(source: &mut S, all: &mut Vec<u8>) -> Result<usize, ReadStop>
    requires { length all.old.items ≤ most_bytes }
    ensures bytes { IfOk result (λ n. (piece : List ℕ)
        × Consumes (S.left source.old) (S.left source.new) piece
        × (all.new.items ≡ all.old.items ++ piece)
        × (length piece ≡ n)) }
    ensures end { IfOk result (λ n. n ≡ 0 → IsAtEnd (S.left source.new)) }
    ensures limit { OnOk result (length all.new.items ≤ most_read) }
    ensures later { S.faults source.old ≤ S.faults source.new }
    ensures fault { IsErrOf result ReadStop.Fault → Rose (S.faults source.old) (S.faults source.new) }
    ensures short { IsErrOf result ReadStop.TooLong → ⊥ }
    ensures amount { ReadsUpTo (most_read - length all.old.items) (S.left source.old) (S.left source.new) }
{
    let mut piece = [0u8; 4096];
    let room = (LIMIT + 1 - all.len()).min(4096);
    let Ok(count) = source.read(&mut piece[..room]) else {
        return Err(ReadStop::Fault);
    };
    if all.extend_from_slice(&piece[..count]).is_err() {
        return Err(ReadStop::Memory);
    }
    Ok(count)
}

/// Reads the source to its end. Reads at most 16,777,217 bytes: a source of more than 16,777,216 is too long.
pub fn read_all<S: Source>(alloc: Global, source: &mut S) -> Result<Vec<u8>, ReadStop>
    ensures ok { IfOk result (λ v. Consumes (S.left source.old) (S.left source.new) v.items
        × IsAtEnd (S.left source.new)
        × (length v.items ≤ most_bytes)) }
    ensures long { IsErrOf result ReadStop.TooLong → (bytes : List ℕ)
        × Consumes (S.left source.old) (S.left source.new) bytes
        × (most_bytes < length bytes) }
    ensures amount { ReadsUpTo most_read (S.left source.old) (S.left source.new) }
    ensures later { S.faults source.old ≤ S.faults source.new }
    ensures fault { IsErrOf result ReadStop.Fault → Rose (S.faults source.old) (S.faults source.new) }
{
    let mut all = Vec::new(alloc);
    while all.len() <= LIMIT {
        if read_more(source, &mut all)? == 0 {
            return Ok(all);
        }
    }
    Err(ReadStop::TooLong)
}

/// Writes all the bytes, or a front of them.
pub fn write_all<K: Sink>(sink: &mut K, bytes: &[u8]) -> Result<(), Failed>
    ensures ok { OnOk result (Appends (K.held sink.old) (K.held sink.new) bytes.now) }
    ensures front { OnErr result ((n : ℕ) × Appends (K.held sink.old) (K.held sink.new) (take n bytes.now)) }
    ensures cause { HasCause (K.faults sink.old) (K.faults sink.new) result }
{
    let mut at = 0;
    while at < bytes.len() {
        match sink.write(&bytes[at..]) {
            Ok(count) => at += count,
            Err(Failed) => return Err(Failed),
        }
    }
    Ok(())
}
