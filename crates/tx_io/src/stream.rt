//! Sources and sinks over the readers and writers of std.
ghost use Rattle.std.specs.Prelude.{◌≡◌};
ghost use Rattle.std.specs.Io.{ReadsAtMost};
ghost use Rattle.std.specs.Io.KnownBytes.{ReadConsumes};
ghost use Rattle.tx_io.specs.Causes.{HasCause, counted_by};
ghost use Rattle.tx_io.specs.Bytes.{Takes, TakesSome};

use crate::faults::Faults;
use crate::traits::{Failed, Sink, Source};
use std::io::{Read, Write};

/// A source over a reader of std. Every error of the reader is a fault.
#[derive(Drop)]
pub struct StdSource<R: Read> {
    inner: R,
    faults: Faults,
}

impl<R: Read> StdSource<R> {
    pub fn new(inner: R) -> StdSource<R>
        ensures left { ⟦<StdSource<R> as Source>⟧.left result ≡ R.remaining inner }
        ensures faults { ⟦<StdSource<R> as Source>⟧.faults result ≡ 0 }
    {
        StdSource {
            inner,
            faults: Faults::new(),
        }
    }
}

impl<R: Read> Source for StdSource<R> {
    ghost left = { λ s. R.remaining s.inner };

    ghost faults = { λ s. s.faults.count };

    fn read(&mut self, into: &mut [u8]) -> Result<usize, Failed>
        ensures bound { ReadsAtMost result into.new }
        ensures bytes { ReadConsumes (R.remaining self.old.inner) (R.remaining self.new.inner) result into.new }
        ensures cause { HasCause self.old.faults.count self.new.faults.count result }
        ensures faults { self.new.faults.count ≡ counted_by result self.old.faults.count }
    {
        match self.inner.read(into) {
            Ok(count) => Ok(count),
            Err(_) => Err(self.faults.fault()),
        }
    }
}

/// A sink over a writer of std. Every error of the writer is a fault, and so is a write that takes nothing of a piece
/// that isn't empty.
#[derive(Drop)]
pub struct StdSink<W: Write> {
    inner: W,
    faults: Faults,
}

impl<W: Write> StdSink<W> {
    pub fn new(inner: W) -> StdSink<W>
        ensures held { ⟦<StdSink<W> as Sink>⟧.held result ≡ W.contents inner }
        ensures faults { ⟦<StdSink<W> as Sink>⟧.faults result ≡ 0 }
    {
        StdSink {
            inner,
            faults: Faults::new(),
        }
    }
}

impl<W: Write> Sink for StdSink<W> {
    ghost held = { λ s. W.contents s.inner };

    ghost faults = { λ s. s.faults.count };

    fn write(&mut self, from: &[u8]) -> Result<usize, Failed>
        ensures count { TakesSome result from.now }
        ensures bytes { Takes (W.contents self.old.inner) (W.contents self.new.inner) result from.now }
        ensures cause { HasCause self.old.faults.count self.new.faults.count result }
        ensures faults { self.new.faults.count ≡ counted_by result self.old.faults.count }
    {
        match self.inner.write(from) {
            Ok(count) if 0 < count || from.is_empty() => Ok(count),
            _ => Err(self.faults.fault()),
        }
    }
}
