//! Sources and sinks of bytes.
ghost use Rattle.std.specs.Prelude.{ℕ, List, Option};
ghost use Rattle.std.specs.Io.{ReadsAtMost};
ghost use Rattle.std.specs.Io.KnownBytes.{ReadConsumes};
ghost use Rattle.tx_io.specs.Causes.{HasCause};
ghost use Rattle.tx_io.specs.Bytes.{Takes, TakesSome};

/// A fault of a source or a sink.
#[derive(Clone, Copy, Debug, PartialEq, Eq)]
pub struct Failed;

/// Want of memory.
#[derive(Clone, Copy, Debug, PartialEq, Eq)]
pub struct Memory;

/// Where bytes come from.
pub trait Source {
    /// The bytes that are left, where the source tells them.
    ghost left: { Self → Option (List ℕ) };

    /// How often it has failed. The count stops at the greatest 64-bit number.
    ghost faults: { Self → ℕ };

    /// Reads some bytes into the front of `into`. 0 for a buffer that isn't empty is the end of input. After `Failed`
    /// the same bytes are left.
    fn read(&mut self, into: &mut [u8]) -> Result<usize, Failed>
        ensures bound { ReadsAtMost result into.new }
        ensures bytes { ReadConsumes (left self.old) (left self.new) result into.new }
        ensures cause { HasCause (faults self.old) (faults self.new) result };
}

/// Where bytes go.
pub trait Sink {
    /// The bytes that it holds, where the sink tells them.
    ghost held: { Self → Option (List ℕ) };

    /// How often it has failed. The count stops at the greatest 64-bit number.
    ghost faults: { Self → ℕ };

    /// Writes a front of `from`, which is empty only where `from` is, and gives its length. After `Failed` some front
    /// of `from`, which may be empty, is held more.
    fn write(&mut self, from: &[u8]) -> Result<usize, Failed>
        ensures count { TakesSome result from.now }
        ensures bytes { Takes (held self.old) (held self.new) result from.now }
        ensures cause { HasCause (faults self.old) (faults self.new) result };
}
