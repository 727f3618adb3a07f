// Lines of a report, from the rows of its format; reports read back, and the first wrong line of a text that is none.
use crate::help::{check_row, joined};
use crate::replies::{
    members_have_colons, refusals_have_their_numbers, snapshots_have_a_dash_for_no_ids,
};
use crate::report_texts::{BASE, CRASHED, EACH_KIND_OF_LINE, EMPTY_RUN, FROZEN, HEAD, LIFE};
use crate::reports::{empty_run, two_lives};
use report_read::{ReadRefusal, read_report};
use report_text::print_report;
use std::alloc::AllocGlobal;
use std::process::Abort;
use tx_model::{LifeReport, Report};

/// This is the text of the report.
fn check_printed(rt: &(impl Abort + AllocGlobal), report: &Report, wanted: &str) {
    let text = print_report(rt.alloc(), report).expect(rt, "memory");
    let came = String::from_utf8(text).ok().expect(rt, "a text");
    check_row(rt, came.as_str() == wanted, came.as_str());
}

/// The report of this text, whose text is the same.
fn read_back(rt: &(impl Abort + AllocGlobal), text: &str) -> Report {
    let Ok(report) = read_report(rt.alloc(), text.as_bytes()) else {
        panic!(rt; "not read: {text}");
    };
    check_printed(rt, &report, text);
    report
}

fn has_nothing_before(report: &LifeReport) -> bool {
    report.life.committed.items().is_empty() && report.life.recorded.items().is_empty()
}

/// The lives of a run are read back: its two, with no ids committed and no multixacts recorded before them.
fn the_lives_of_a_run_are_read_back(rt: &(impl Abort + AllocGlobal)) {
    let report = read_back(rt, FROZEN);
    let [first, second] = report.lives.items() else {
        panic!(rt; "there are two lives")
    };
    assert!(rt; report.names.items().len() == 2);
    assert!(rt; has_nothing_before(first) && has_nothing_before(second));
}

/// A wrong line of a text, and its number.
type WrongLine = (&'static [&'static str], u64);

const WRONG_LINES: [WrongLine; 18] = [
    // a_wrong_line_of_a_later_life_is_named: behind a crash stands a life, and they are numbered on
    (&[LIFE, "end\n"], 10),
    (&[LIFE, "life 1", BASE], 10),
    // rounds and a session's commands count anew, records go on
    (&[LIFE, "life 2", BASE, "round 2\n"], 11),
    (&[LIFE, "life 2", BASE, "round 1\na 2 begin -> ok\n"], 12),
    (
        &[
            LIFE,
            "life 2",
            BASE,
            "history\nmultis\nlog flushed 2 end 124\n2 commit 3\n",
        ],
        14,
    ),
    // no life is behind the last one
    (
        &[
            LIFE,
            "life 2",
            BASE,
            "history\nmultis\nlog flushed 2 end 124\n1 commit 3\nend\nlife 3",
        ],
        16,
    ),
    // the_first_wrong_line_is_named: no line, and an unfinished one
    (&[HEAD], 3),
    (&[HEAD, "history"], 3),
    // a line is missing, the one that begins the round, the round's, the last
    (&[HEAD, "a 1 begin -> ok\n"], 3),
    (&[HEAD, "round 1\nhistory\n"], 4),
    (&[HEAD, "history\nmultis\nlog flushed 0 end 0\n"], 6),
    // a line twice
    (&[HEAD, "round 1\na 1 begin -> ok\na 1 begin -> ok\n"], 5),
    // another spelling, and a number that must be another
    (&[HEAD, "round 1\na 01 begin -> ok\n"], 4),
    (&[HEAD, "round 2\n"], 3),
    (
        &[HEAD, "history\nmultis\nlog flushed 0 end 0\n1 commit 3\n"],
        6,
    ),
    // a session speaks again after another, a reply of another command, a line behind the last
    (
        &[
            HEAD,
            "round 1\na 1 begin -> ok\nb 1 begin -> ok\na 2 write -> ok -\n",
        ],
        6,
    ),
    (&[HEAD, "round 1\na 1 begin -> visible\n"], 4),
    (
        &[HEAD, "history\nmultis\nlog flushed 0 end 0\nend\nend\n"],
        7,
    ),
];

fn check_wrong_line(rt: &(impl Abort + AllocGlobal), text: &str, wanted: u64) {
    let found = match read_report(rt.alloc(), text.as_bytes()) {
        Err(ReadRefusal::Line { line }) => line,
        _ => 0,
    };
    assert!(rt; found == wanted, "{text}: line {found}");
}

fn the_first_wrong_line_is_named(rt: &(impl Abort + AllocGlobal)) {
    for (pieces, wanted) in &WRONG_LINES {
        check_wrong_line(rt, joined(rt, pieces).as_str(), *wanted);
    }
}

#[test]
fn reports_answer_as_each_row_says(rt: HostRuntime) {
    snapshots_have_a_dash_for_no_ids(&rt);
    members_have_colons(&rt);
    refusals_have_their_numbers(&rt);
    // an_empty_run_has_seven_lines
    check_printed(&rt, &empty_run(&rt), EMPTY_RUN);
    // each_kind_of_line_is_spelled
    check_printed(&rt, &two_lives(&rt), EACH_KIND_OF_LINE);
    // a_report_with_a_crash_is_read_back
    let _crashed = read_back(&rt, CRASHED);
    the_lives_of_a_run_are_read_back(&rt);
    the_first_wrong_line_is_named(&rt);
}
