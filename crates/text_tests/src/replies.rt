// Replies as the lines of commands tell them.
use crate::help::{check_row, id, list, multi};
use crate::reports::two_sessions;
use report_text::{Text, put_command_line};
use std::alloc::AllocGlobal;
use std::process::Abort;
use tx_events::{Lock, Mode, Refusal, Sequence, SnapData, Xid};
use tx_model::{By, Command, GivenIds, MemberVerdict, Reply, SharedSnap, Verdict};

/// With this reply the line of a `begin` is this one.
fn check_line(rt: &(impl Abort + AllocGlobal), reply: &Reply, wanted: &str) {
    let by = By {
        session: 0,
        command: 1,
    };
    let names = two_sessions(rt);
    let mut out = Text::new(rt.alloc());
    let put = put_command_line(&mut out, &names, by, &Command::Begin, reply);
    assert!(rt; put.is_ok());
    check_row(rt, out.into_bytes().as_slice() == wanted.as_bytes(), wanted);
}

fn check_refused(rt: &(impl Abort + AllocGlobal), refusal: Refusal, wanted: &str) {
    check_line(rt, &Reply::Refused { refusal }, wanted);
}

pub fn snapshots_have_a_dash_for_no_ids(rt: &(impl Abort + AllocGlobal)) {
    let holds = SnapData {
        xmin: id(rt, 3),
        xmax: id(rt, 71),
        xip: list(rt, [id(rt, 3)]),
        subxip: Sequence::new(rt.alloc()),
        overflowed: true,
    };
    let lists = SharedSnap::of(rt.alloc(), holds).expect(rt, "memory");
    let overflowed = Reply::Snapped { lists };
    let line = "a 1 begin -> ok xmin 3 xmax 71 xip 3 sub - overflow yes\n";
    check_line(rt, &overflowed, line);
    let nothing = Reply::Wrote {
        warn: false,
        ids: GivenIds::none(),
    };
    check_line(rt, &nothing, "a 1 begin -> ok -\n");
    let two = Reply::Wrote {
        warn: true,
        ids: GivenIds::of(list(rt, [id(rt, 3), id(rt, 4)])),
    };
    check_line(rt, &two, "a 1 begin -> ok 3 4 warn\n");
}

pub fn members_have_colons(rt: &(impl Abort + AllocGlobal)) {
    let verdict = Verdict::Hidden;
    let first = MemberVerdict {
        id: id(rt, 3),
        mode: Mode::KeySh,
        verdict,
    };
    let second = MemberVerdict {
        id: id(rt, 4),
        mode: Mode::Upd,
        verdict,
    };
    let verdicts = Reply::Verdicts {
        verdicts: list(rt, [first, second]),
    };
    let line = "a 1 begin -> ok 3:keysh:hidden 4:upd:hidden\n";
    check_line(rt, &verdicts, line);
    let made = Reply::Multi {
        multi: multi(rt, 1),
        offset: 1,
        warn: false,
    };
    check_line(rt, &made, "a 1 begin -> ok 1 1\n");
}

pub fn refusals_have_their_numbers(rt: &(impl Abort + AllocGlobal)) {
    let stop = Refusal::Stop {
        next: id(rt, 2147483650),
        stop: id(rt, 2147483647),
    };
    check_refused(rt, stop, "a 1 begin -> stop 2147483650 2147483647\n");
    let fault = Refusal::DiskFault {
        lock: Lock::Xact(2),
    };
    check_refused(rt, fault, "a 1 begin -> disk-fault xact 2\n");
    let not_given = Refusal::NotGiven {
        x: Xid { number: 7 },
    };
    check_refused(rt, not_given, "a 1 begin -> not-given 7\n");
    check_refused(rt, Refusal::Full, "a 1 begin -> log-full\n");
    let cut = Reply::Cut { cutoff: 32 };
    check_line(rt, &cut, "a 1 begin -> cut 32\n");
    let no_bytes = Reply::Bytes {
        bytes: Sequence::new(rt.alloc()),
    };
    check_line(rt, &no_bytes, "a 1 begin -> -\n");
}
