//! A gate at which a session can be held before each of its critical sections, as a test wants it.
use std::sync::Wait;

/// Where sessions are held up. It tells them nothing.
pub trait Gate {
    /// Called before each critical section of a session's command, while the session holds no lock; `hold` counts the
    /// sections of that command from 1. It may wait.
    fn before<R: Wait>(&self, rt: &R, session: u32, command: u64, hold: u64);
}

/// Holds nobody up.
#[derive(Clone, Copy, Debug, Drop)]
pub struct OpenGate;

impl Gate for OpenGate {
    fn before<R: Wait>(&self, _rt: &R, _session: u32, _command: u64, _hold: u64) {}
}

/// What a session's commands run by: it may wait, and passes a gate before each critical section.
pub trait Passing: Wait {
    /// See [`Gate::before`].
    fn before(&self, session: u32, command: u64, hold: u64);
}

/// A way to wait, with a gate.
pub struct Gated<'a, R: Wait, G: Gate> {
    pub rt: &'a R,
    pub gate: &'a G,
}

impl<'a, R: Wait, G: Gate> Wait for Gated<'a, R, G> {}

impl<'a, R: Wait, G: Gate> Passing for Gated<'a, R, G> {
    fn before(&self, session: u32, command: u64, hold: u64) {
        self.gate.before(self.rt, session, command, hold);
    }
}
