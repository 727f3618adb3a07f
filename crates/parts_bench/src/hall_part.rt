//! Critical sections of a lock table, in one to 64 threads, beside the same under `Mutex` (docs/CONCURRENCY.md). Each
//! session takes so many turns with empty critical sections.
use crate::hall_turns::{Crew, Plan, by_mutexes, by_passes};
use crate::timing::{no_memory, since};
use std::io;
use std::sync::Wait;
use std::thread::Threads;
use std::time::Instant;

// The turns of each session where no number is given, empty or with work.
const TURNS: u32 = 1000;

const WORK_TURNS: u32 = 10;

// Turns with work of each of 64 sessions in a timed run: 300,000 in all.
const TIMED_WORK_TURNS: u32 = 4_688;

// Rounds of work that take about 0.2 us.
const WORK: u32 = 84;

// Sessions that do by a plan, in so many threads, in turn for each of these.
#[derive(Clone, Copy)]
struct Shape {
    name: &'static str,
    threads: &'static [u32],
    plan: Plan,
}

// More threads than processors wait for one lock, and else say little.
const SHAPES: [Shape; 5] = [
    Shape {
        name: "one lock",
        threads: &[1, 2, 4, 8, 16, 64],
        plan: Plan {
            locks: 1,
            spread: 0,
            step: 0,
            work: 0,
        },
    },
    Shape {
        name: "64 locks in turn",
        threads: &[1, 2, 4],
        plan: Plan {
            locks: 64,
            spread: 16,
            step: 1,
            work: 0,
        },
    },
    Shape {
        name: "own locks side by side",
        threads: &[1, 2, 4],
        plan: Plan {
            locks: 64,
            spread: 1,
            step: 0,
            work: 0,
        },
    },
    Shape {
        name: "own locks apart",
        threads: &[1, 2, 4],
        plan: Plan {
            locks: 64,
            spread: 16,
            step: 0,
            work: 0,
        },
    },
    Shape {
        name: "64 sessions, one lock held for 0.2 us",
        threads: &[1, 2, 4, 16, 64],
        plan: Plan {
            locks: 1,
            spread: 0,
            step: 0,
            work: WORK,
        },
    },
];

// There are 64 sessions with work, and else one in each thread.
fn crew_of(plan: Plan, threads: u32) -> Crew {
    let sessions = if plan.work > 0 { 64 } else { threads };
    Crew { sessions, threads }
}

fn turns_of(plan: Plan, wanted: Option<u32>) -> u32 {
    match wanted {
        Some(turns) => {
            if plan.work > 0 {
                TIMED_WORK_TURNS
            } else {
                turns
            }
        }
        None => { if plan.work > 0 { WORK_TURNS } else { TURNS } }
    }
}

// Runs both, and prints what the locks counted. The host's clock and output, and its threads.
fn measure<R: Threads + Wait + Sync>(
    host: &HostRuntime,
    rt: &R,
    name: &str,
    plan: Plan,
    threads: u32,
    wanted: Option<u32>,
) -> io::Result<()> {
    let crew = crew_of(plan, threads);
    let turns = turns_of(plan, wanted);
    let start = Instant::now(host)?;
    let Some(table) = by_passes(rt, host.alloc(), crew, plan, turns) else {
        return Err(no_memory());
    };
    let table = since(host, start, table)?;
    let start = Instant::now(host)?;
    let Some(mutex) = by_mutexes(rt, host.alloc(), crew, plan, turns) else {
        return Err(no_memory());
    };
    let mutex = since(host, start, mutex)?;
    println!(host;
        "{threads} threads, {name}: table {}, mutex {}",
        table.count, mutex.count
    )?;
    if wanted.is_some() {
        println!(host;
            "    table {} us, {} a second; mutex {} us, {} a second",
            table.micros,
            table.rate(),
            mutex.micros,
            mutex.rate()
        )?;
    }
    Ok(())
}

/// Prints a line for each shape and each number of threads.
pub fn measure_hall<R: Threads + Wait + Sync>(
    host: &HostRuntime,
    rt: &R,
    wanted: Option<u32>,
) -> io::Result<()> {
    for shape in SHAPES {
        for threads in shape.threads {
            measure(host, rt, shape.name, shape.plan, *threads, wanted)?;
        }
    }
    Ok(())
}
