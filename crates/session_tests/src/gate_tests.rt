//! Gates: sessions that are held up in an order which no thread alone could take, and that each critical section passes.
use crate::gates::TestGate;
use crate::recorder::Recorder;
use crate::runs::is_lawful;
use crate::test_help::{check_report, report_past};
use crate::turns::{A, B, Row, check_turns, report_of_turns};
use script_rounds::RoundThreads;
use std::process::Abort;

/// Two sessions that cross: the first one's command 2 waits until the second one comes with its command 3, and that until the
/// first comes with its command 3.
const CROSSING: Row = Row {
    name: "two sessions that cross",
    script: "a begin
a write
a snap s
b begin
b write
b snap t
",
    turns: &[(A, (2, 1), B, (3, 1)), (B, (3, 1), A, (3, 1))],
    texts: "part\na 2 write -> ok 3\n",
};

/// The report up to the place where the events of its two snapshots stand, in either order.
const HEAD: &str = "txid report 1
life 1 from 0 next 3 oldest 3 multi 1 offset 1 oldest-multi 1 oldest-offset 1
round 1
a 1 begin -> ok
a 2 write -> ok 4
a 3 snap s -> ok xmin 3 xmax 3 xip - sub - overflow no
b 1 begin -> ok
b 2 write -> ok 3
b 3 snap t -> ok xmin 3 xmax 3 xip - sub - overflow no
history
id b 2 3
id a 2 4
";

const TAIL: &str = "multis
log flushed 1 end 62
0 checkpoint next 3 oldest 3 multi 1 offset 1 oldest-multi 1 oldest-offset 1
end
";

/// The second session's id is the lower one, and each snapshot stands behind both: no id has ended, so each is at or past its
/// xmax. Which of the two is first is open.
#[test]
fn two_sessions_interleave(rt: HostRuntime) {
    let report = report_of_turns(&rt, &CROSSING, RoundThreads::OneEach, false);
    let report = report.as_str();
    let behind = report.strip_prefix(HEAD).unwrap_or("");
    let snaps = behind.strip_suffix(TAIL).unwrap_or("");
    let is_either = snaps == "snap a 3 s\nsnap b 3 t\n" || snaps == "snap b 3 t\nsnap a 3 s\n";
    assert!(rt; is_either && is_lawful(&rt, report), "{report}");
}

/// Where the sessions of a round run one after another, the first waits for the second in vain.
#[test]
fn sessions_on_one_thread_do_not_interleave(rt: HostRuntime) {
    check_turns(&rt, &CROSSING, RoundThreads::AtMost(1), true);
}

/// Twelve sessions that each write an order, and a line of it behind a savepoint, which every other one undoes; and a
/// reader behind them.
const ORDERS: &str = "o1 begin
o1 write
o1 save
o1 write
o1 release
o1 commit
o2 begin
o2 write
o2 save
o2 write
o2 undo
o2 commit
o3 begin
o3 write
o3 save
o3 write
o3 release
o3 commit
o4 begin
o4 write
o4 save
o4 write
o4 undo
o4 commit
o5 begin
o5 write
o5 save
o5 write
o5 release
o5 commit
o6 begin
o6 write
o6 save
o6 write
o6 undo
o6 commit
o7 begin
o7 write
o7 save
o7 write
o7 release
o7 commit
o8 begin
o8 write
o8 save
o8 write
o8 undo
o8 commit
o9 begin
o9 write
o9 save
o9 write
o9 release
o9 commit
o10 begin
o10 write
o10 save
o10 write
o10 undo
o10 commit
o11 begin
o11 write
o11 save
o11 write
o11 release
o11 commit
o12 begin
o12 write
o12 save
o12 write
o12 undo
o12 commit
.round
r snap s
r see s 3
r see s 4
r see s 5
r see s 6
r see s 7
r see s 8
r see s 9
r see s 10
r see s 11
r see s 12
r see s 13
r see s 14
r see s 15
r see s 16
r see s 17
r see s 18
r see s 19
r see s 20
r see s 21
r see s 22
r see s 23
r see s 24
r see s 25
r see s 26
r multi 3:keysh 4:sh
r drop s
";

/// What the report has.
const ORDERED: &str = "part
r 1 snap s -> ok xmin 27 xmax 27 xip - sub - overflow no
--- part
r 26 multi 3:keysh 4:sh -> ok 1 1
r 27 drop s -> ok
";

/// The session came to the gate with this command.
fn check_came(rt: &impl Abort, recorder: &Recorder, session: u32, command: u64) {
    assert!(rt; recorder.has(session, command), "{session} {command}");
}

/// The ids are 3 to 26: of twelve transactions and of twelve savepoints, six of which are undone. Each command that enters
/// a lock comes to the gate, with the numbers of its sections from 1 on.
#[test]
fn gate_sees_every_section(rt: HostRuntime) {
    let recorder = Recorder::new(&rt);
    let gate = TestGate::Counts(&recorder);
    let report = report_past(&rt, ORDERS, RoundThreads::OneEach, &gate);
    check_report(&rt, "orders", ORDERED, report.as_str());
    assert!(rt; report.matches(" -> visible\n").count() == 18);
    assert!(rt; report.matches(" -> hidden\n").count() == 6);
    assert!(rt; !recorder.is_wrong());
    for session in 0..12u32 {
        check_came(&rt, &recorder, session, 2);
        check_came(&rt, &recorder, session, 4);
        check_came(&rt, &recorder, session, 6);
        if session % 2 == 1 {
            check_came(&rt, &recorder, session, 5);
        }
    }
    for command in 1..28u64 {
        check_came(&rt, &recorder, 12, command);
    }
}
