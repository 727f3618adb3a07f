//! What calls came to, and how long they took.
use std::alloc::AllocError;
use std::io;
use std::time::Instant;

/// How many calls there were, and how long they took, in microseconds.
#[derive(Clone, Copy)]
pub struct Timed {
    pub count: u64,
    pub micros: u128,
}

impl Timed {
    /// How many there were in a second.
    pub fn rate(self) -> u128 {
        self.count as u128 * 1_000_000 / self.micros.max(1)
    }
}

/// So many calls, which began at a moment.
pub fn since(host: &HostRuntime, start: Instant, count: u64) -> io::Result<Timed> {
    let micros = start.elapsed(host)?.as_micros();
    Ok(Timed { count, micros })
}

/// A call failed for want of memory.
pub fn no_memory() -> io::Error {
    io::Error::from(AllocError)
}
