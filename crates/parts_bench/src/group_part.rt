//! Members of a group list that take turns, in one, two and four threads (docs/CONCURRENCY.md).
use crate::group_turns::{Outcome, Threading, all_take_turns};
use crate::timing::{no_memory, since};
use std::io;
use std::sync::Wait;
use std::thread::Threads;
use std::time::Instant;

// How many turns each member takes where no number is given.
const TURNS: u32 = 500;

/// Prints what the turns came to, for each number of threads.
pub fn measure_group<R: Threads + Wait + Sync>(
    host: &HostRuntime,
    rt: &R,
    wanted: Option<u32>,
) -> io::Result<()> {
    let turns = wanted.unwrap_or(TURNS);
    for threading in [Threading::One, Threading::Two, Threading::Four] {
        let start = Instant::now(host)?;
        let Some(outcome) = all_take_turns(rt, host.alloc(), threading, turns) else {
            return Err(no_memory());
        };
        let Outcome { counts, empty } = outcome;
        let time = since(host, start, counts.publications)?;
        println!(host;
            "threads {}: {} joined, {} handed back, {} found twice, the list {} at the end",
            threading.threads(),
            counts.publications,
            counts.handed_back,
            counts.found_twice,
            if empty { "empty" } else { "not empty" }
        )?;
        if wanted.is_some() {
            println!(host; "{} turns a second", time.rate())?;
        }
    }
    Ok(())
}
