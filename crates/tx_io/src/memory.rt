//! A source and a sink in memory, for tests of what is made over them.
ghost use Rattle.std.specs.Prelude.{◌≡◌, ℕ, List, Some, ◌≤◌, [], IfOk, IsOk, length, min, take};
ghost use Rattle.std.specs.Io.{ReadsAtMost};
ghost use Rattle.std.specs.Io.KnownBytes.{ReadConsumes};
ghost use Rattle.tx_io.specs.Causes.{HasCause};
ghost use Rattle.tx_io.specs.Bytes.{Takes, TakesSome};
ghost use Rattle.tx_io.specs.Planned.{Reads, Writes};

use crate::faults::Plan;
use crate::traits::{Failed, Memory, Sink, Source};
use std::alloc::Global;
use std::marker::Model;

/// A source over bytes in memory. The reads numbered in `fail`, from 1, answer `Failed`; the others give all that
/// there is and that fits.
#[derive(Drop)]
pub struct MemSource {
    bytes: Vec<u8>,
    at: usize,
    plan: Plan,
}

impl Model for MemSource {
    ghost use Rattle.std.specs.Prelude.{◌≤◌, length, drop};
    ghost use Rattle.tx_io.specs.Planned.{SourceState};

    ghost Value = { SourceState };

    ghost view = { λ s. record { left = drop s.at s.bytes.items; failing = s.plan.failing.items; calls = s.plan.calls; faults = s.plan.faults.count } };

    ghost invariant = { λ s. s.at ≤ length s.bytes.items };
}

impl MemSource {
    /// A source of these bytes, which was not read yet.
    pub fn new(bytes: Vec<u8>, fail: Vec<u64>) -> MemSource
        ensures { result ≡ record { left = bytes.items; failing = fail.items; calls = 0; faults = 0 } }
    {
        MemSource {
            bytes,
            at: 0,
            plan: Plan::new(fail),
        }
    }
}

/// Copies as much of the front of `from` as fits, and gives its length.
fn copy_front(into: &mut [u8], from: &[u8]) -> usize
    ensures count { result ≡ min (length into.old) (length from.now) }
    ensures front { take result into.new ≡ take result from.now }
{
    let count = into.len().min(from.len());
    into[..count].copy_from_slice(&from[..count]);
    count
}

impl Source for MemSource {
    ghost use Rattle.std.specs.Prelude.{Some};

    ghost left = { λ s. Some s.left };

    ghost faults = { λ s. s.faults };

    #[tactic(auto, using(crate::proofs::Fronts::front_and_rest, crate::proofs::Fronts::no_rest))]
    fn read(&mut self, into: &mut [u8]) -> Result<usize, Failed>
        ensures bound { ReadsAtMost result into.new }
        ensures bytes { ReadConsumes (Some self.old.left) (Some self.new.left) result into.new }
        ensures cause { HasCause self.old.faults self.new.faults result }
        ensures planned { Reads self.old self.new (length into.old) result }
    {
        self.plan.call()?;
        let count = copy_front(into, &self.bytes[self.at..]);
        self.at += count;
        Ok(count)
    }
}

/// A sink that keeps up to `room` bytes. The writes numbered in `fail`, from 1, answer `Failed` and take nothing; one
/// that doesn't fit answers `Failed` and takes what fits; the others take all.
#[derive(Drop)]
pub struct MemSink {
    bytes: Vec<u8>,
    room: usize,
    plan: Plan,
}

impl Model for MemSink {
    ghost use Rattle.std.specs.Prelude.{◌≤◌, length, vec_capacity};
    ghost use Rattle.tx_io.specs.Planned.{SinkState};

    ghost Value = { SinkState };

    ghost view = { λ s. record { held = s.bytes.items; room = s.room; failing = s.plan.failing.items; calls = s.plan.calls; faults = s.plan.faults.count } };

    ghost invariant = { λ s. (length s.bytes.items ≤ s.room) × (s.room ≤ vec_capacity s.bytes) };
}

impl MemSink {
    /// An empty sink, with the memory of its whole room: later writes take none.
    pub fn new(alloc: Global, room: u64, fail: Vec<u64>) -> Result<MemSink, Memory>
        ensures made { IfOk result (λ s. s ≡ record { held = []; room = room; failing = fail.items; calls = 0; faults = 0 }) }
        ensures no_room { room ≡ 0 → IsOk result }
    {
        let room = room as usize;
        match Vec::with_capacity(alloc, room) {
            Ok(bytes) => Ok(MemSink {
                bytes,
                room,
                plan: Plan::new(fail),
            }),
            Err(_) => Err(Memory),
        }
    }

    /// The bytes written.
    pub fn held(&self) -> &[u8]
        ensures { result.now ≡ self.now.held }
    {
        self.bytes.as_slice()
    }
}

impl Sink for MemSink {
    ghost use Rattle.std.specs.Prelude.{Some};

    ghost held = { λ s. Some s.held };

    ghost faults = { λ s. s.faults };

    fn write(&mut self, from: &[u8]) -> Result<usize, Failed>
        ensures count { TakesSome result from.now }
        ensures bytes { Takes (Some self.old.held) (Some self.new.held) result from.now }
        ensures cause { HasCause self.old.faults self.new.faults result }
        ensures planned { Writes self.old self.new from.now result }
    {
        self.plan.call()?;
        let fits = from.len().min(self.room - self.bytes.len());
        let kept = self.bytes.extend_from_slice(&from[..fits]);
        if kept.is_err() || fits < from.len() {
            return Err(self.plan.faults.fault());
        }
        Ok(fits)
    }
}
