// Reports judged through the tool: the worked rows, and what is wrong in each wrong one.
use report_check::check_tool;
use std::alloc::AllocGlobal;
use std::process::Abort;
use tx_io::{MemSink, MemSource};

/// A transaction that commits, and a snapshot that sees it.
const COMMITTED: &str = "txid report 1
life 1 from 0 next 3 oldest 3 multi 1 offset 1 oldest-multi 1 oldest-offset 1
round 1
a 1 begin -> ok
a 2 write -> ok 3
a 3 commit -> ok
a 4 snap s -> ok xmin 4 xmax 4 xip - sub - overflow no
a 5 see s 3 -> visible
history
id a 2 3
commit a 3 3
snap a 4 s
multis
log flushed 2 end 80
0 checkpoint next 3 oldest 3 multi 1 offset 1 oldest-multi 1 oldest-offset 1
1 commit 3
end
";

/// A check of these bytes, of which these reads fail, into so much room ends with this status and this line. The row tells
/// which check it is.
fn check(
    rt: &(impl Abort + AllocGlobal),
    bytes: Vec<u8>,
    failing: Vec<u64>,
    room: u64,
    status: u8,
    line: &str,
    row: &str,
) {
    let mut source = MemSource::new(bytes, failing);
    let mut sink = MemSink::new(rt.alloc(), room, Vec::new(rt.alloc())).expect(rt, "memory");
    let found = check_tool(rt.alloc(), &mut source, &mut sink);
    let ends = found == status && sink.held() == line.as_bytes();
    assert!(rt; ends, "{row} doesn't end with {line}");
}

fn bytes_of(rt: &(impl Abort + AllocGlobal), text: &str) -> Vec<u8> {
    Vec::from_slice(rt.alloc(), text.as_bytes()).expect(rt, "memory")
}

/// A check of the text ends with this status and this line.
pub fn check_text(rt: &(impl Abort + AllocGlobal), text: &str, status: u8, line: &str) {
    let none = Vec::new(rt.alloc());
    check(rt, bytes_of(rt, text), none, 100, status, line, text);
}

/// The report with the second words in place of the first ones is refused with this line.
pub fn check_refused(
    rt: &(impl Abort + AllocGlobal),
    report: &str,
    old: &str,
    new: &str,
    line: &str,
) {
    let (front, behind) = report.split_once(old).expect(rt, "the words");
    let text = [front, new, behind].concat(rt.alloc()).expect(rt, "memory");
    let none = Vec::new(rt.alloc());
    check(rt, bytes_of(rt, text.as_str()), none, 100, 8, line, old);
}

#[test]
fn a_lawful_report_is_lawful(rt: HostRuntime) {
    check_text(&rt, COMMITTED, 0, "lawful\n");
}

#[test]
fn each_wrong_line_is_told_where_it_stands(rt: HostRuntime) {
    for (old, new, line) in [
        // A verdict that no snapshot gave.
        ("see s 3 -> visible", "see s 3 -> hidden", "unlawful 8\n"),
        // The last line is missing.
        ("1 commit 3\nend\n", "1 commit 3\n", "unlawful 17\n"),
        // A commit was answered ok and has no record.
        ("1 commit 3\nend", "end", "unlawful 6\n"),
        // An event too many.
        ("id a 2 3\n", "id a 2 3\nid a 2 4\n", "unlawful 11\n"),
        // An event is missing.
        ("snap a 4 s\n", "", "unlawful 7\n"),
        // A snapshot that lists other ids.
        ("xmin 4 xmax 4", "xmin 3 xmax 4", "unlawful 7\n"),
        // A second record of a transaction.
        (
            "flushed 2 end 80\n0 checkpoint next 3 oldest 3 multi 1 offset 1 oldest-multi 1 oldest-offset 1\n1 commit 3\n",
            "flushed 2 end 98\n0 checkpoint next 3 oldest 3 multi 1 offset 1 oldest-multi 1 oldest-offset 1\n1 commit 3\n2 commit 3\n",
            "unlawful 17\n",
        ),
        // A command is numbered out of turn: its line can't stand there.
        ("a 3 commit", "a 4 commit", "unlawful 6\n"),
        // A reply that goes by no place of the history, before an event that may not come.
        (
            "a 1 begin -> ok",
            "a 1 begin -> already-open",
            "unlawful 4\n",
        ),
    ] {
        check_refused(&rt, COMMITTED, old, new, line);
    }
}

#[test]
fn first_lines_of_a_report_lack_the_next_one(rt: HostRuntime) {
    let mut front = String::new(rt.alloc());
    let mut next: u32 = 1;
    for line in COMMITTED.split_inclusive("\n") {
        let told = format!(in rt.alloc(); "unlawful {next}\n").expect(&rt, "memory");
        check_text(&rt, front.as_str(), 8, told.as_str());
        front.push_str(line).expect(&rt, "memory");
        next = next.saturating_add(1);
    }
    assert!(rt; next == 18);
    check_text(&rt, front.as_str(), 0, "lawful\n");
}

#[test]
fn text_past_the_limit_is_told_at_line_0(rt: HostRuntime) {
    let mut bytes = Vec::new(rt.alloc());
    assert!(rt; bytes.resize(16_777_217, b'\n').is_ok());
    let none = Vec::new(rt.alloc());
    check(&rt, bytes, none, 100, 8, "unlawful 0\n", "only line ends");
}

#[test]
fn a_source_or_a_sink_that_fails_ends_the_check(rt: HostRuntime) {
    let bytes = bytes_of(&rt, COMMITTED);
    let failing = [1].to_vec(rt.alloc()).expect(&rt, "memory");
    check(
        &rt,
        bytes,
        failing,
        100,
        3,
        "read-fault\n",
        "a source that fails",
    );
    let none = Vec::new(rt.alloc());
    check(
        &rt,
        bytes_of(&rt, COMMITTED),
        none,
        4,
        4,
        "lawf",
        "a sink of 4 bytes",
    );
}
