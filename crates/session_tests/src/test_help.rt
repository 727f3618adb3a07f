//! What the tests share: runs of the tool on a script in memory, and rows that their reports are held against.
use crate::gates::TestGate;
use crate::runs::{is_lawful, run_past, source_of};
use script_rounds::RoundThreads;
use std::alloc::AllocGlobal;
use std::process::Abort;
use std::sync::Wait;
use std::thread::Threads;

/// The report that a run of the script writes, with status 0, its sessions on such threads and past this gate.
pub fn report_past(
    rt: &(impl Abort + AllocGlobal + Threads + Wait + Sync),
    script: &str,
    threads: RoundThreads,
    gate: &TestGate<'_>,
) -> String {
    let mut source = source_of(rt, script, &[]);
    let run = run_past(rt, &["run"], &mut source, 100_000, threads, gate);
    assert!(rt; run.status == 0);
    run.written
}

/// Whether these lines stand in a text, one behind another.
fn has_lines(text: &str, lines: &str) -> bool {
    match text.split_once(lines) {
        Some((front, _)) => front.ends_with("\n"),
        None => false,
    }
}

/// Whether the report is what the row's texts say, or has it.
fn holds(report: &str, texts: &str) -> bool {
    for part in texts.split("--- ") {
        let (kind, text) = part.split_once("\n").unwrap_or(("", ""));
        let is_so = match kind {
            "report" => report == text,
            "part" => has_lines(report, text),
            _ => false,
        };
        if !is_so {
            return false;
        }
    }
    true
}

/// The report of a row is or has what the texts say, and is lawful to the checker.
pub fn check_report(rt: &(impl Abort + AllocGlobal), name: &str, texts: &str, report: &str) {
    let is_well = holds(report, texts) && is_lawful(rt, report);
    assert!(rt; is_well, "{name}: {report}");
}

/// The script of a row behind these lines, with a line `64 times a save`, or 1001 times, written out.
pub fn written_out(rt: &(impl Abort + AllocGlobal), front: &str, script: &str) -> String {
    let (before, count, behind) = match script.split_once("1001 times a save\n") {
        Some((before, behind)) => (before, 1001, behind),
        None => match script.split_once("64 times a save\n") {
            Some((before, behind)) => (before, 64, behind),
            None => (script, 0, ""),
        },
    };
    let saves = "a save\n".repeat(rt.alloc(), count).expect(rt, "memory");
    let mut text = String::from_str(rt.alloc(), front).expect(rt, "memory");
    text.push_str(before).expect(rt, "memory");
    text.push_str(saves.as_str()).expect(rt, "memory");
    text.push_str(behind).expect(rt, "memory");
    text
}

/// Runs the script behind these header lines.
fn check_run(
    rt: &(impl Abort + AllocGlobal + Threads + Wait + Sync),
    banks: &str,
    name: &str,
    script: &str,
    texts: &str,
) {
    let script = written_out(rt, banks, script);
    let report = report_past(
        rt,
        script.as_str(),
        RoundThreads::AtMost(4),
        &TestGate::Open,
    );
    check_report(rt, name, texts, report.as_str());
}

/// Runs the row's script with 1, 2, 4 and 16 banks.
fn check_row(rt: &(impl Abort + AllocGlobal + Threads + Wait + Sync), row: &str) {
    let (front, texts) = row.split_once("--- ").expect(rt, "a row with a text");
    let (name, script) = front.split_once("\n").expect(rt, "a row with a name");
    check_run(rt, "", name, script, texts);
    check_run(rt, ".banks 1\n", name, script, texts);
    check_run(rt, ".banks 2\n", name, script, texts);
    check_run(rt, ".banks 16\n", name, script, texts);
}

/// Runs the scripts of these rows. A row is a line `=== NAME`, the script, and behind a line `--- report` the whole report, or
/// behind each line `--- part` lines that stand in it one behind another.
pub fn check_rows(rt: &(impl Abort + AllocGlobal + Threads + Wait + Sync), rows: &str) {
    for row in rows.split("=== ") {
        if !row.is_empty() {
            check_row(rt, row);
        }
    }
}
