//! Rounds of many commands, so that threads run: whatever order they take, each session's lines and events stand in its
//! order, each once.
use crate::runs::{Ran, run_over};
use disk_core::Which;
use disk_fuse::Fails;
use script_rounds::RoundThreads;
use std::alloc::AllocGlobal;
use std::process::Abort;

const SESSIONS: usize = 64;

/// What each session asks in the round.
const COMMANDS: [&str; 10] = [
    "NAME begin\n",
    "NAME write\n",
    "NAME save\n",
    "NAME write\n",
    "NAME undo\n",
    "NAME save\n",
    "NAME write\n",
    "NAME commit\n",
    "NAME snap s\n",
    "NAME drop s\n",
];

/// Its lines, up to what follows `ok`.
const LINES: &str = "NAME 1 begin -> ok
NAME 2 write -> ok
NAME 3 save -> ok
NAME 4 write -> ok
NAME 5 undo -> ok
NAME 6 save -> ok
NAME 7 write -> ok
NAME 8 commit -> ok
NAME 9 snap s -> ok
NAME 10 drop s -> ok
";

/// Refused commands behind them, so that the round has 4,096: one of fewer would run on one thread. At most four are two
/// for it, as most of its commands ask of no id.
const FIRST_REFUSED: usize = 11;

const LAST: usize = 64;

/// The events of its commands, up to the space behind the command's number.
const EVENTS: &str =
    "id NAME 2 \nsub NAME 4 \nundo NAME 5 \nsub NAME 7 \ncommit NAME 8 \nsnap NAME 9 \ndrop NAME 10 \n";

/// These lines once for each session, whose name stands for the word NAME.
fn for_each_session(rt: &(impl Abort + AllocGlobal), lines: &str) -> String {
    let mut text = String::new(rt.alloc());
    for session in 0..SESSIONS {
        let name = format!(in rt.alloc(); "s{session}").expect(rt, "memory");
        let named = lines.replace(rt.alloc(), "NAME", name.as_str());
        text.push_str(named.expect(rt, "memory").as_str())
            .expect(rt, "memory");
    }
    text
}

/// The lines of a session's commands, the refused ones with them.
fn lines_of_one(rt: &(impl Abort + AllocGlobal)) -> String {
    let mut lines = String::from_str(rt.alloc(), LINES).expect(rt, "memory");
    for number in FIRST_REFUSED..LAST + 1 {
        let line = format!(in rt.alloc(); "NAME {number} drop s -> no-snapshot\n").expect(
            rt, "memory",
        );
        lines.push_str(line.as_str()).expect(rt, "memory");
    }
    lines
}

/// One round of all sessions, command by command.
fn one_round(rt: &(impl Abort + AllocGlobal), commands: &[&str]) -> String {
    let mut script = String::new(rt.alloc());
    for command in commands {
        let lines = for_each_session(rt, command);
        script.push_str(lines.as_str()).expect(rt, "memory");
    }
    script
}

/// The lines that name a session, one session behind another.
fn by_session(rt: &(impl Abort + AllocGlobal), lines: &str) -> String {
    let mut text = String::new(rt.alloc());
    for session in 0..SESSIONS {
        let name = format!(in rt.alloc(); " s{session} ").expect(rt, "memory");
        for line in lines.split_inclusive("\n") {
            if line.contains(name.as_str()) {
                text.push_str(line).expect(rt, "memory");
            }
        }
    }
    text
}

/// Whether there are as many lines, and each begins so.
fn begin_so(lines: &str, fronts: &str) -> bool {
    let mut lines = lines.lines();
    for front in fronts.lines() {
        match lines.next() {
            Some(line) if line.starts_with(front) => {}
            _ => return false,
        }
    }
    lines.next().is_none()
}

/// What stands in a text between two others.
fn between<'a>(text: &'a str, first: &str, past: &str) -> &'a str {
    let (_, behind) = text.split_once(first).unwrap_or(("", ""));
    let (found, _) = behind.split_once(past).unwrap_or(("", ""));
    found
}

/// How many lines begin so and end so.
fn count_lines(text: &str, begin: &str, end: &str) -> usize {
    let mut count = 0usize;
    for line in text.lines() {
        if line.starts_with(begin) && line.ends_with(end) {
            count = count.saturating_add(1);
        }
    }
    count
}

/// The round, and behind it a snapshot of the first session and a look at each id of the round.
fn round_and_looks(rt: &(impl Abort + AllocGlobal)) -> String {
    let mut script = one_round(rt, &COMMANDS);
    for _ in FIRST_REFUSED..LAST + 1 {
        let refused = for_each_session(rt, "NAME drop s\n");
        script.push_str(refused.as_str()).expect(rt, "memory");
    }
    script.push_str(".round\ns0 snap t\n").expect(rt, "memory");
    for id in 3..195u32 {
        let look = format!(in rt.alloc(); "s0 see t {id}\n").expect(rt, "memory");
        script.push_str(look.as_str()).expect(rt, "memory");
    }
    script
}

/// What the second round writes first.
const SNAP: &str = "s0 65 snap t -> ok xmin 195 xmax 195 xip - sub - overflow no\n";

/// The lines of the round are those of the sessions, one session after another, each command with its answer. The events
/// are those of the sessions' commands, each once and in its session's order. Each session was given three ids, of which one
/// was undone.
fn check_round(rt: &(impl Abort + AllocGlobal), run: &Ran) {
    let report = run.written.as_str();
    let lines = between(report, "\nround 1\n", "round 2\n");
    let fronts = for_each_session(rt, lines_of_one(rt).as_str());
    let are_lines = begin_so(lines, fronts.as_str());
    assert!(rt; run.status == 0 && are_lines, "{report}");
    let end = "snap s0 65 t\nmultis\nlog flushed 65 end ";
    let history = between(report, "\nhistory\n", end);
    let events = by_session(rt, history);
    let fronts = for_each_session(rt, EVENTS);
    let are_events = begin_so(events.as_str(), fronts.as_str());
    assert!(rt; are_events && events.len() == history.len(), "{report}");
    let looks = between(report, "\nround 2\n", "history\n");
    let visible = count_lines(looks, "s0 ", "-> visible");
    let hidden = count_lines(looks, "s0 ", "-> hidden");
    let are_looks = looks.starts_with(SNAP) && visible == 128 && hidden == 64;
    assert!(rt; are_looks, "{report}");
}

#[test]
fn threads_tell_each_session_once_and_in_order(rt: HostRuntime) {
    let script = round_and_looks(&rt);
    let ways = [
        RoundThreads::AtMost(1),
        RoundThreads::AtMost(4),
        RoundThreads::Just(4),
        RoundThreads::OneEach,
    ];
    for threads in ways {
        let run = run_over(&rt, script.as_str(), Which::Log, Fails::Never, threads);
        check_round(&rt, &run);
    }
}

/// A round in which the log's volume fails while many commit.
const COMMITS: [&str; 8] = [
    "NAME begin\n",
    "NAME write\n",
    "NAME commit\n",
    "NAME save\n",
    "NAME begin\n",
    "NAME snap s\n",
    "NAME see s 3\n",
    "NAME drop s\n",
];

/// One commit is told the fault, and the others that were too late that the log is down from the flushed number on. Those
/// that were done are the flushed records behind the checkpoint.
fn check_fault(rt: &(impl Abort + AllocGlobal), run: &Ran) {
    let report = run.written.as_str();
    let number = between(report, "\nlog flushed ", " end ");
    let flushed = number.parse::<usize>().unwrap_or(0);
    let down = format!(in rt.alloc(); " 3 commit -> log-down {flushed}").expect(rt, "memory");
    let done = count_lines(report, "s", " 3 commit -> ok");
    let late = count_lines(report, "s", down.as_str());
    let failed = count_lines(report, "s", " 3 commit -> log-fault");
    let history = between(report, "\nhistory\n", "\nmultis\n");
    let commits = count_lines(history, "commit ", "");
    let is_well = run.status == 0
        && !history.is_empty()
        && failed == 1
        && done.saturating_add(1) == flushed
        && late.saturating_add(flushed) == SESSIONS
        && commits == done;
    assert!(rt; is_well, "{report}");
}

#[test]
fn one_thread_is_told_the_fault_of_the_log(rt: HostRuntime) {
    let script = one_round(&rt, &COMMITS);
    for passes in 8..30 {
        let threads = RoundThreads::OneEach;
        let run = run_over(
            &rt,
            script.as_str(),
            Which::Log,
            Fails::Behind(passes),
            threads,
        );
        check_fault(&rt, &run);
    }
}
