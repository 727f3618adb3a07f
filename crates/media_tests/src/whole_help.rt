//! Runs over a volume that fails any call, behind which a transaction has committed whole or not at all.
use crate::runs::{Ran, is_lawful, run_over};
use disk_core::Which;
use disk_fuse::Fails;
use script_rounds::RoundThreads;
use std::alloc::AllocGlobal;
use std::process::Abort;
use std::sync::Wait;
use std::thread::Threads;

/// The reply to a command that was asked last, by the front of its line.
fn last_reply<'a>(report: &'a str, front: &str) -> Option<&'a str> {
    let mut reply = None;
    for line in report.split("\n") {
        if let Some(rest) = line.strip_prefix(front) {
            reply = Some(rest);
        }
    }
    reply
}

/// Whether the run stopped at an opening, or its report is lawful, both questions that have a verdict have the same, and that is
/// `visible` where a commit was answered `ok`. Behind a crash a page is read again, so a question may meet the fault.
fn is_whole(rt: &(impl Abort + AllocGlobal), run: &Ran, asked: [&str; 2]) -> bool {
    let written = run.written.as_str();
    if run.status == 5 {
        return written.ends_with("device\n");
    }
    let mut verdict = None;
    for front in asked {
        match last_reply(written, front) {
            Some("disk-fault xact 0") => {}
            Some(told) if verdict.is_none() || verdict == Some(told) => verdict = Some(told),
            _ => return false,
        }
    }
    let is_kept = match verdict {
        Some("visible") => true,
        Some("hidden") => !written.contains("commit -> ok\n"),
        _ => false,
    };
    run.status == 0 && is_kept && is_lawful(rt, written)
}

/// Runs the script over this volume, which fails such calls. Both lines that are asked for are answered as one. Answers what
/// was written.
fn written_whole(
    rt: &(impl Abort + AllocGlobal + Threads + Wait + Sync),
    script: &str,
    asked: [&str; 2],
    at: Which,
    fails: Fails,
) -> String {
    let run = run_over(rt, script, at, fails, RoundThreads::AtMost(1));
    let is_well = is_whole(rt, &run, asked);
    assert!(rt; is_well, "{at:?} {fails:?}: {} {}", run.status, run.written);
    run.written
}

/// Over each of the five volumes, which fails one call, or all from it on, the number of the call going up to MOST, with which
/// no call of the run fails: it writes what one without a fault writes.
pub fn check_whole(
    rt: &(impl Abort + AllocGlobal + Threads + Wait + Sync),
    script: &str,
    asked: [&str; 2],
    most: u64,
) {
    let plain = written_whole(rt, script, asked, Which::Log, Fails::Never);
    for at in [
        Which::Log,
        Which::Xact(0),
        Which::Subtrans(0),
        Which::Offsets(0),
        Which::Members(0),
    ] {
        let mut is_plain = false;
        for call in 1..=most {
            let once = written_whole(rt, script, asked, at, Fails::At(call));
            let fails = Fails::Behind(call.saturating_sub(1));
            let from = written_whole(rt, script, asked, at, fails);
            is_plain = once.as_str() == plain.as_str() && from.as_str() == plain.as_str();
        }
        assert!(rt; is_plain, "{at:?}");
    }
}
