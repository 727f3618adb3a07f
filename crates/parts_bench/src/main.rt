//! Calls of the parts in process, straight: critical sections of the lock table beside those of `Mutex`, turns of a group
//! list, sets and reads of a page bank, commits of the log, and a report's reader (`docs/SPEED.md`).
//!
//! Without an argument it prints what the calls came to, which is the same in every run; the report comes from standard
//! input. With the word of a part it runs this one alone, and with a number behind it takes so many turns, and prints how
//! many there were in a second. Another word is refused.
#![tactic(auto)]

mod bank_part;
mod bank_turns;
mod commits;
mod group_part;
mod group_turns;
mod hall_part;
mod hall_turns;
mod log_part;
mod report_part;
mod timing;

use bank_part::measure_bank;
use group_part::measure_group;
use hall_part::measure_hall;
use log_part::measure_log;
use report_part::measure_report;
use std::sync::Wait;
use std::thread::Threads;
use std::{env, io};

#[derive(Clone, Copy)]
enum Part {
    Hall,
    Group,
    Bank,
    Log,
    Report,
}

const PARTS: [(&str, Part); 5] = [
    ("hall", Part::Hall),
    ("group", Part::Group),
    ("bank", Part::Bank),
    ("wal", Part::Log),
    ("report", Part::Report),
];

// Runs a part and prints what it came to. The host's clock and output, and its threads.
fn measure<R: Threads + Wait + Sync>(
    host: &HostRuntime,
    rt: &R,
    part: Part,
    wanted: Option<u32>,
) -> io::Result<()> {
    match part {
        Part::Hall => measure_hall(host, rt, wanted),
        Part::Group => measure_group(host, rt, wanted),
        Part::Bank => measure_bank(host, wanted),
        Part::Log => measure_log(host, wanted),
        Part::Report => measure_report(host, wanted),
    }
}

// How many turns the second word of the command line asks for.
fn wanted_turns(host: &HostRuntime) -> io::Result<Option<u32>> {
    match env::args(host)?.nth(2) {
        Some(word) => match word.parse::<u32>() {
            Ok(turns) => Ok(Some(turns)),
            Err(_) => Err(io::Error::from(io::ErrorKind::InvalidInput)),
        },
        None => Ok(None),
    }
}

fn main(rt: HostRuntime) -> io::Result<()> {
    let wanted = wanted_turns(&rt)?;
    let word = env::args(&rt)?.nth(1);
    let mut is_known = false;
    for (name, part) in PARTS {
        let is_asked = match &word {
            Some(word) => word.as_str() == name,
            None => true,
        };
        if is_asked {
            is_known = true;
            measure(&rt, &rt, part, wanted)?;
        }
    }
    if !is_known {
        return Err(io::Error::from(io::ErrorKind::InvalidInput));
    }
    Ok(())
}
