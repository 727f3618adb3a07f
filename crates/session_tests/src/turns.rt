//! Sessions that wait for each other before critical sections that a row names.
use crate::gates::TestGate;
use crate::test_help::{check_report, report_past, written_out};
use script_rounds::RoundThreads;
use std::alloc::AllocGlobal;
use std::process::Abort;
use std::sync::Wait;
use std::sync::atomic::{AtomicBool, AtomicU64, Ordering};
use std::thread::{Threads, yield_now};

/// So often a session looks whether another one came, before it goes on.
const LOOKS: u32 = 1_000_000_000;

/// So often it looks where it is to wait in vain: for longer than a thread takes to start.
const FEW_LOOKS: u32 = 1_000_000;

/// Behind so many looks it lets other threads run. That takes a hundredth of a second where five of them are busy on its
/// processor.
const LOOKS_A_TURN: u32 = 1_000;

/// No command of a row has as many critical sections.
const MOST_SECTIONS: u64 = 1_000;

/// A section: the number of its command, and its own in the command. Before it a session comes to the gate.
pub type Section = (u64, u64);

/// The place of a command's section among all sections of its session, in their order.
fn place(section: Section) -> u64 {
    let (command, section) = section;
    command
        .saturating_mul(MOST_SECTIONS)
        .saturating_add(section)
}

/// A session waits before a section of its own until another one has come to a section of that one's, or past it. A row's
/// sessions are A, B and C, in the order in which they first appear.
pub type Turn = (u32, Section, u32, Section);

pub const A: u32 = 0;

pub const B: u32 = 1;

pub const C: u32 = 2;

/// Holds sessions up as a row's turns say.
#[derive(Drop)]
pub struct Turns {
    turns: &'static [Turn],
    looks: u32,
    /// The place to which each session has come.
    came: [AtomicU64; 3],
    /// Whether a session was held for all its looks.
    ran_out: AtomicBool,
}

impl Turns {
    fn of(turns: &'static [Turn], looks: u32) -> Turns {
        Turns {
            turns,
            looks,
            came: [AtomicU64::new(0), AtomicU64::new(0), AtomicU64::new(0)],
            ran_out: AtomicBool::new(false),
        }
    }

    fn has_come(&self, session: u32, to: u64) -> bool {
        match self.came.get(session as usize) {
            Some(came) => came.load(Ordering::SeqCst) >= to,
            None => false,
        }
    }

    fn wait_for(&self, session: u32, until: u64) {
        for look in 0..self.looks {
            if self.has_come(session, until) || self.ran_out.load(Ordering::SeqCst) {
                return;
            }
            if look % LOOKS_A_TURN == 0 {
                yield_now();
            }
        }
        self.ran_out.store(true, Ordering::SeqCst);
    }

    /// Holds a session before this section, as the turns say.
    pub fn hold(&self, session: u32, section: Section) {
        let here = place(section);
        if let Some(came) = self.came.get(session as usize) {
            came.store(here, Ordering::SeqCst);
        }
        for (who, at, whom, until) in self.turns {
            if *who == session && place(*at) == here {
                self.wait_for(*whom, place(*until));
            }
        }
    }
}

/// A row: its script, which session waits for which, and what the report is or has.
#[derive(Drop)]
pub struct Row {
    pub name: &'static str,
    pub script: &'static str,
    pub turns: &'static [Turn],
    pub texts: &'static str,
}

/// The report of a run past the row's turns on such threads. Whether a session waits in vain is as it is told.
pub fn report_of_turns(
    rt: &(impl Abort + AllocGlobal + Threads + Wait + Sync),
    row: &Row,
    threads: RoundThreads,
    waits_in_vain: bool,
) -> String {
    let looks = if waits_in_vain { FEW_LOOKS } else { LOOKS };
    let turns = Turns::of(row.turns, looks);
    let script = written_out(rt, "", row.script);
    let gate = TestGate::Turns(&turns);
    let report = report_past(rt, script.as_str(), threads, &gate);
    let ran_out = turns.ran_out.load(Ordering::SeqCst);
    assert!(rt;
        ran_out == waits_in_vain,
        "{}: {ran_out} {report}",
        row.name
    );
    report
}

/// The same report is or has what the row says, and is lawful to the checker.
pub fn check_turns(
    rt: &(impl Abort + AllocGlobal + Threads + Wait + Sync),
    row: &Row,
    threads: RoundThreads,
    waits_in_vain: bool,
) {
    let report = report_of_turns(rt, row, threads, waits_in_vain);
    check_report(rt, row.name, row.texts, report.as_str());
}
