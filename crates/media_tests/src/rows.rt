//! Rows of scripts, and what their runs write where calls of a volume fail.
use crate::runs::{Ran, is_lawful, run_over};
use disk_core::Which;
use disk_fuse::Fails;
use script_rounds::RoundThreads;
use std::alloc::AllocGlobal;
use std::process::Abort;
use std::str::SplitWhitespace;
use std::sync::Wait;
use std::thread::Threads;

/// A script, and the report of a run in which no call fails, where the row has it.
#[derive(Clone, Copy)]
struct Row<'a> {
    name: &'a str,
    script: &'a str,
    plain: &'a str,
}

/// Whether these lines stand in a text, one behind another.
fn has_lines(text: &str, lines: &str) -> bool {
    match text.split_once(lines) {
        Some((front, _)) => front.is_empty() || front.ends_with("\n"),
        None => false,
    }
}

/// Whether each of these texts stands so in a text.
fn has_all(text: &str, parts: &str) -> bool {
    for lines in parts.split("...\n") {
        if !has_lines(text, lines) {
            return false;
        }
    }
    true
}

/// Whether the text has these lines, in this order.
fn has_in_order(text: &str, lines: &str) -> bool {
    let mut wanted = lines.split_inclusive("\n");
    let mut next = wanted.next();
    for line in text.split_inclusive("\n") {
        if next == Some(line) {
            next = wanted.next();
        }
    }
    next.is_none()
}

/// The lines of a text that don't stand in the same places of another one.
fn changed_lines(rt: &(impl Abort + AllocGlobal), text: &str, plain: &str) -> String {
    let mut changed = String::new(rt.alloc());
    let mut plain_lines = plain.split_inclusive("\n");
    for line in text.split_inclusive("\n") {
        if plain_lines.next() != Some(line) {
            changed.push_str(line).expect(rt, "memory");
        }
    }
    if plain_lines.next().is_some() {
        changed.push_str("fewer lines\n").expect(rt, "memory");
    }
    changed
}

fn is_one_line(lines: &str, end: &str) -> bool {
    lines.ends_with(end) && lines.split_inclusive("\n").count() == 1
}

/// Whether a life couldn't be opened, and what was written is the front of the plain report before that.
fn ends_with_device(run: &Ran, plain: &str) -> bool {
    match run.written.as_str().strip_suffix("device\n") {
        Some(front) => {
            run.status == 5
                && plain.starts_with(front)
                && (front.is_empty() || front.ends_with("\n"))
        }
        None => false,
    }
}

/// Whether a run came out so. `device`: a life couldn't be opened, and the report is the plain one as far as the lives that
/// were over. All else is status 0 and a lawful report. `report`: it is this. `has`: it has each of these texts, between which
/// stands a line `...`. `with`: it has these lines, in this order. `but`: it is the plain one but for these lines. `one`: but for
/// one line, which ends so.
fn is_so(rt: &(impl Abort + AllocGlobal), way: &str, plain: &str, run: &Ran) -> bool {
    let (kind, lines) = way.split_once("\n").unwrap_or((way, ""));
    let written = run.written.as_str();
    let is_as_told = match kind {
        "device" => return ends_with_device(run, plain),
        "report" => written == lines,
        "has" => has_all(written, lines),
        "with" => has_in_order(written, lines),
        "but" => changed_lines(rt, written, plain).as_str() == lines,
        "one" => is_one_line(changed_lines(rt, written, plain).as_str(), lines),
        _ => false,
    };
    run.status == 0 && is_as_told && is_lawful(rt, written)
}

/// The way of this number that a part tells. No run comes out in the one behind the last.
fn way_at<'a>(part: &'a str, number: usize) -> &'a str {
    part.split("+++ ").nth(number).unwrap_or("no way")
}

/// Runs the script over this volume, which fails such calls. Answers the number of the way in which the run comes out: this one or
/// the next.
fn way_of(
    rt: &(impl Abort + AllocGlobal + Threads + Wait + Sync),
    row: Row<'_>,
    part: &str,
    script: &str,
    at: Which,
    fails: Fails,
    number: usize,
) -> usize {
    let run = run_over(rt, script, at, fails, RoundThreads::AtMost(1));
    if is_so(rt, way_at(part, number), row.plain, &run) {
        return number;
    }
    let next = number.saturating_add(1);
    let is_well = is_so(rt, way_at(part, next), row.plain, &run);
    assert!(rt;
        is_well,
        "{}, {at:?} {fails:?}: {} {}",
        row.name, run.status, run.written
    );
    next
}

/// The number that the next word writes.
fn next_number(rt: &impl Abort, words: &mut SplitWhitespace<'_>) -> u64 {
    let word = words.next().unwrap_or("");
    word.parse::<u64>().ok().expect(rt, "a number")
}

/// The volume that the next two words name.
fn next_volume(rt: &impl Abort, words: &mut SplitWhitespace<'_>) -> Which {
    let store = words.next().unwrap_or("");
    let bank = u32::try_from(next_number(rt, words))
        .ok()
        .expect(rt, "a bank");
    match store {
        "log" => Which::Log,
        "xact" => Which::Xact(bank),
        "subtrans" => Which::Subtrans(bank),
        "offsets" => Which::Offsets(bank),
        "members" => Which::Members(bank),
        _ => panic!(rt; "another store"),
    }
}

/// Runs the script of a row as its part says. They come out in each of the ways.
fn check_part(rt: &(impl Abort + AllocGlobal + Threads + Wait + Sync), row: Row<'_>, part: &str) {
    let (head, _) = part.split_once("\n").unwrap_or((part, ""));
    let mut words = head.split_whitespace();
    let is_once = match words.next() {
        Some("once") => true,
        Some("from") => false,
        _ => panic!(rt; "another fault"),
    };
    let at = next_volume(rt, &mut words);
    let first = next_number(rt, &mut words);
    let last = next_number(rt, &mut words);
    let mut runs = 0usize;
    for crash in words {
        let script = row
            .script
            .replace(rt.alloc(), "HOW", crash)
            .expect(rt, "memory");
        let mut number = 1usize;
        for calls in first..=last {
            let fails = if is_once {
                Fails::At(calls)
            } else {
                Fails::Behind(calls)
            };
            number = way_of(rt, row, part, script.as_str(), at, fails, number);
            runs = runs.saturating_add(1);
        }
        let is_last = way_at(part, number.saturating_add(1)) == "no way";
        assert!(rt; is_last, "{}, {head}: {number}", row.name);
    }
    assert!(rt; runs > 0, "{}, {head}", row.name);
}

/// A run in which no call fails has the plain report.
fn check_plain(rt: &(impl Abort + AllocGlobal + Threads + Wait + Sync), row: Row<'_>) {
    let run = run_over(
        rt,
        row.script,
        Which::Log,
        Fails::At(0),
        RoundThreads::AtMost(1),
    );
    let is_plain = run.status == 0 && run.written.as_str() == row.plain;
    assert!(rt; is_plain, "{}: {} {}", row.name, run.status, run.written);
}

fn check_row(rt: &(impl Abort + AllocGlobal + Threads + Wait + Sync), row: &str) {
    let (front, parts) = row.split_once("--- ").expect(rt, "a row with a part");
    let (name, script) = front.split_once("\n").expect(rt, "a row with a name");
    let (plain, parts) = match parts.strip_prefix("report\n") {
        Some(parts) => parts.split_once("--- ").expect(rt, "a part"),
        None => ("", parts),
    };
    let row = Row {
        name,
        script,
        plain,
    };
    if !plain.is_empty() {
        check_plain(rt, row);
    }
    for part in parts.split("--- ") {
        check_part(rt, row, part);
    }
}

/// Runs the scripts of these rows. A row is a line `=== NAME`, the script, maybe a line `--- report` with the report of a run in
/// which no call fails, and parts. A part is a line `--- FAULT STORE BANK FIRST LAST CRASH ..` and the ways in which runs come out
/// over this volume, of which the fault `from` fails each call behind so many, from FIRST to LAST, and `once` the call of this
/// number alone, with each kind of crash for the word HOW of the script. The first runs come out in the first way, the next ones
/// in the next, and so on. A way is a line `+++ KIND` and its lines (`is_so`).
pub fn check_rows(rt: &(impl Abort + AllocGlobal + Threads + Wait + Sync), rows: &str) {
    for row in rows.split("=== ") {
        if !row.is_empty() {
            check_row(rt, row);
        }
    }
}
