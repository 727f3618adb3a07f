//! The gate of all runs of these tests. It is of one type, so that the tool is built for them once.
use crate::recorder::Recorder;
use crate::turns::Turns;
use engine_parts::Gate;
use std::sync::Wait;

#[derive(Drop)]
pub enum TestGate<'a> {
    /// Holds nobody up.
    Open,
    Turns(&'a Turns),
    Counts(&'a Recorder),
}

impl<'a> Gate for TestGate<'a> {
    fn before<R: Wait>(&self, _rt: &R, session: u32, command: u64, hold: u64) {
        match self {
            TestGate::Open => {}
            TestGate::Turns(turns) => turns.hold(session, (command, hold)),
            TestGate::Counts(recorder) => recorder.count(session, command, hold),
        }
    }
}
