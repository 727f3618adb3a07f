//! Calls of the engine over volumes in memory, straight on the lock table, in one to 64 sessions, each on a thread of its
//! own (`docs/SPEED.md`).
//!
//! Without an argument it prints how many calls were done and how many events the history has, which is the same in every
//! run. With a number it takes that many turns of each shape in all, and prints how many a second.
#![tactic(auto)]

mod calls;
mod crew;
mod opening;
mod runs;
mod shapes;
mod works;

use runs::run_shape;
use shapes::{Run, SHAPES, Shape, Told};
use std::alloc::AllocError;
use std::sync::Wait;
use std::thread::Threads;
use std::{env, io};
use works::Work;

// The turns of a shape in all, where no number is given.
const TURNS: u32 = 640;

// How many of what is told there are in a turn.
fn units_of(work: Work) -> u32 {
    match work {
        Work::Nested { savepoints } => savepoints,
        _ => 1,
    }
}

// How many turns each of these sessions takes of all.
fn turns_of(work: Work, sessions: u32, all: u32) -> u32 {
    match work {
        Work::Nested { savepoints } => (all / savepoints.max(1)).saturating_add(1),
        _ => all / sessions.max(1),
    }
}

// How many there were in a second.
fn rate(units: u32, turns: u32, sessions: u32, micros: u128) -> u128 {
    let turns = (turns as u128).saturating_mul(sessions as u128);
    let units = turns.saturating_mul(units as u128);
    units.saturating_mul(1_000_000) / micros.max(1)
}

// Whether this run of the program has the shape.
fn is_told(told: Told, shows_times: bool) -> bool {
    match told {
        Told::Always => true,
        Told::Counts => !shows_times,
        Told::Times => shows_times,
    }
}

// Runs a shape and prints what it came to.
fn measure<R: Threads + Wait + Sync>(
    host: &HostRuntime,
    rt: &R,
    shape: &Shape,
    run: Run,
    wanted: Option<u32>,
) -> io::Result<()> {
    let sessions = run.sessions;
    let turns = turns_of(shape.work, sessions, wanted.unwrap_or(TURNS));
    let Some(outcome) = run_shape(host, rt, host.alloc(), shape, sessions, turns) else {
        return Err(io::Error::from(AllocError));
    };
    match outcome.time {
        Some(time) if wanted.is_some() => println!(host;
            "{}, {sessions} sessions: {} a second, {} calls in all; PostgreSQL 15: {}",
            shape.name,
            rate(units_of(shape.work), turns, sessions, time),
            outcome.done,
            run.target
        ),
        _ => println!(host;
            "{}, {sessions} sessions: {} calls, {} events",
            shape.name, outcome.done, outcome.events
        ),
    }
}

// How many turns the command line asks for.
fn wanted_turns(host: &HostRuntime) -> io::Result<Option<u32>> {
    match env::args(host)?.nth(1) {
        Some(word) => match word.parse::<u32>() {
            Ok(turns) => Ok(Some(turns)),
            Err(_) => Err(io::Error::from(io::ErrorKind::InvalidInput)),
        },
        None => Ok(None),
    }
}

fn main(rt: HostRuntime) -> io::Result<()> {
    let wanted = wanted_turns(&rt)?;
    for shape in &SHAPES {
        if is_told(shape.told, wanted.is_some()) {
            for run in shape.runs {
                measure(&rt, &rt, shape, *run, wanted)?;
            }
        }
    }
    Ok(())
}
