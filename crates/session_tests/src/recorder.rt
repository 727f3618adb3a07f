//! A record of which sections each session came to.
use std::alloc::AllocGlobal;
use std::process::Abort;
use std::sync::atomic::{AtomicBool, AtomicU64, Ordering};

/// Counts how often each of 13 sessions comes with each of its first 27 commands.
#[derive(Drop)]
pub struct Recorder {
    /// Of one session after another, 28 each.
    came: Vec<AtomicU64>,
    /// Whether a call came out of turn, or of another session or command.
    is_wrong: AtomicBool,
}

impl Recorder {
    pub fn new(rt: &(impl Abort + AllocGlobal)) -> Recorder {
        let mut came = Vec::new(rt.alloc());
        for _ in 0..364 {
            came.push(AtomicU64::new(0)).expect(rt, "memory");
        }
        Recorder {
            came,
            is_wrong: AtomicBool::new(false),
        }
    }

    fn counter(&self, session: u32, command: u64) -> Option<&AtomicU64> {
        if session >= 13 || command >= 28 {
            return None;
        }
        self.came.get(session as usize * 28 + command as usize)
    }

    /// Whether the session came with this command.
    pub fn has(&self, session: u32, command: u64) -> bool {
        match self.counter(session, command) {
            Some(count) => count.load(Ordering::SeqCst) > 0,
            None => false,
        }
    }

    /// A session came to a section of this number of the command.
    pub fn count(&self, session: u32, command: u64, section: u64) {
        let earlier = match self.counter(session, command) {
            Some(count) => count.fetch_add(1, Ordering::SeqCst),
            None => section,
        };
        if earlier.wrapping_add(1) != section {
            self.is_wrong.store(true, Ordering::SeqCst);
        }
    }

    /// Whether a session came out of turn, or with another command.
    pub fn is_wrong(&self) -> bool {
        self.is_wrong.load(Ordering::SeqCst)
    }
}
