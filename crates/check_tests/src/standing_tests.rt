// What a session's lines are refused by, and what they leave pending.
use line_stances::Standing;
use standing_rules::{
    Unfinished, is_refused_by_members, is_refused_by_standing, pending_after, unfinished_behind,
};
use std::process::Abort;
use tx_events::{By, Lock, Mode, Refusal, Sequence, Xid};
use tx_model::{Command, Line, Pair, Reply};

/// The reply that tells this refusal, or `ok`.
fn reply_of(refusal: Option<Refusal>) -> Reply {
    match refusal {
        Some(refusal) => Reply::Refused { refusal },
        None => Reply::Done,
    }
}

fn line_of(command: Command, refusal: Option<Refusal>) -> Line {
    let by = By {
        session: 0,
        command: 1,
    };
    let reply = reply_of(refusal);
    Line { by, command, reply }
}

/// A commit is pending.
const HELD: Option<Refusal> = Some(Refusal::CommitPending);

/// Whether the line may come next, as far as the session's standing tells, is `wanted`.
fn check<R: Abort>(
    rt: &R,
    row: &str,
    standing: &Standing,
    command: Command,
    refusal: Option<Refusal>,
    pending: Option<Refusal>,
    wanted: bool,
) {
    let line = line_of(command, refusal);
    assert!(rt;
        is_refused_by_standing(&line, standing, pending) == wanted,
        "{row}"
    );
}

#[test]
fn release_and_undo_want_a_savepoint(rt: HostRuntime) {
    use Command::{Begin, Commit, Release, Save, Undo, Write};
    let mut standing = Standing::new(rt.alloc());
    check(
        &rt,
        "a write without a transaction",
        &standing,
        Write,
        Some(Refusal::NoTransaction),
        None,
        true,
    );
    standing.levels.begin();
    let none = Some(Refusal::NoSavepoint);
    check(
        &rt,
        "a release without a savepoint",
        &standing,
        Release,
        none,
        None,
        true,
    );
    check(
        &rt,
        "an undo without one",
        &standing,
        Undo,
        None,
        None,
        false,
    );
    check(
        &rt,
        "an undo for want of memory",
        &standing,
        Undo,
        Some(Refusal::Memory),
        None,
        true,
    );
    check(
        &rt,
        "a begin in a transaction",
        &standing,
        Begin,
        Some(Refusal::AlreadyOpen),
        None,
        true,
    );
    assert!(rt; standing.levels.save().is_ok());
    check(
        &rt,
        "an undo of a savepoint",
        &standing,
        Undo,
        None,
        None,
        true,
    );
    check(
        &rt,
        "a savepoint refused by a pending commit",
        &standing,
        Save,
        HELD,
        HELD,
        true,
    );
    check(
        &rt,
        "a savepoint beside a pending commit",
        &standing,
        Save,
        None,
        HELD,
        false,
    );
    check(&rt, "a pending commit", &standing, Commit, None, HELD, true);
}

const FAULT: Option<Refusal> = Some(Refusal::LogFault);

const DOWN: Option<Refusal> = Some(Refusal::LogDown { at: 3 });

/// What is pending behind the line is `wanted`.
fn check_pending<R: Abort>(
    rt: &R,
    row: &str,
    recorded: bool,
    before: Option<Refusal>,
    command: &Command,
    refusal: Option<Refusal>,
    wanted: Option<Refusal>,
) {
    let reply = reply_of(refusal);
    assert!(rt;
        pending_after(recorded, before, command, &reply) == wanted,
        "{row}"
    );
}

#[test]
fn faults_leave_an_end_pending(rt: HostRuntime) {
    let fault = Some(Refusal::DiskFault {
        lock: Lock::Xact(0),
    });
    let abort = Some(Refusal::AbortPending);
    let commit = Command::Commit;
    check_pending(&rt, "a fault of the log", false, None, &commit, FAULT, HELD);
    check_pending(
        &rt,
        "a log that is down, recorded",
        true,
        None,
        &commit,
        DOWN,
        HELD,
    );
    check_pending(
        &rt,
        "a log that is down, not recorded",
        false,
        None,
        &commit,
        DOWN,
        None,
    );
    check_pending(
        &rt,
        "an abort's fault of a bank",
        false,
        None,
        &Command::Abort,
        fault,
        abort,
    );
    check_pending(
        &rt,
        "a pending commit that is done",
        false,
        HELD,
        &commit,
        None,
        None,
    );
    check_pending(
        &rt,
        "a savepoint's fault",
        false,
        HELD,
        &Command::Save,
        FAULT,
        HELD,
    );
}

fn updater() -> Pair {
    Pair {
        x: Xid { number: 3 },
        mode: Mode::Upd,
    }
}

fn two_updaters<R: Abort + AllocGlobal>(rt: &R) -> Command {
    let mut members = Sequence::new(rt.alloc());
    assert!(rt; members.push(updater()).is_ok());
    assert!(rt; members.push(updater()).is_ok());
    Command::Multi { members }
}

/// Behind a command with this refusal the multixact that was unfinished stands so.
fn check_unfinished<R: Abort>(
    rt: &R,
    row: &str,
    before: Unfinished,
    recorded: bool,
    command: &Command,
    refusal: Refusal,
    wanted: Unfinished,
) {
    let reply = Reply::Refused { refusal };
    assert!(rt;
        unfinished_behind(before, recorded, command, &reply) == wanted,
        "{row}"
    );
}

#[test]
fn multixact_may_be_refused_or_unfinished(rt: HostRuntime) {
    use Unfinished::{Nothing, Perhaps, Sure};
    let line = line_of(two_updaters(&rt), Some(Refusal::TwoUpdaters));
    assert!(rt; is_refused_by_members(&line));
    let multi = &line.command;
    check_unfinished(
        &rt,
        "recorded, the log is full",
        Nothing,
        true,
        multi,
        Refusal::Full,
        Sure,
    );
    check_unfinished(
        &rt,
        "unfinished, for want of memory",
        Sure,
        false,
        multi,
        Refusal::Memory,
        Perhaps,
    );
    check_unfinished(
        &rt,
        "for want of memory",
        Nothing,
        false,
        multi,
        Refusal::Memory,
        Nothing,
    );
    check_unfinished(
        &rt,
        "another command",
        Sure,
        false,
        &Command::Commit,
        Refusal::Memory,
        Sure,
    );
}
