// What a session is shown under a snapshot, and where each lock stands in the order of the banks.
use std::process::Abort;
use tx_core::{State, is_seen, lock_number, member_lock, offset_lock, parent_lock, state_lock};
use tx_events::{FullMulti, FullXid, IdList, Lock, SnapData};

fn id<R: Abort>(rt: &R, number: u64) -> FullXid {
    FullXid::new(number).expect(rt, "a full id")
}

fn ids<R: Abort + AllocGlobal>(rt: &R, numbers: &[u64]) -> IdList {
    let mut list = IdList::new(rt.alloc());
    for number in numbers {
        assert!(rt; list.push(id(rt, *number)).is_ok());
    }
    list
}

/// The snapshot with these bounds, and with these ids that ran and subtransactions of theirs.
fn snap_of<R: Abort + AllocGlobal>(
    rt: &R,
    xmin: u64,
    xmax: u64,
    running: &[u64],
    subs: &[u64],
    overflowed: bool,
) -> SnapData {
    SnapData {
        xmin: id(rt, xmin),
        xmax: id(rt, xmax),
        xip: ids(rt, running),
        subxip: ids(rt, subs),
        overflowed,
    }
}

/// Whether the snapshot shows an id of this state and of this top.
fn check<R: Abort>(rt: &R, snap: &SnapData, state: Option<State>, x: u64, top: u64, shows: bool) {
    assert!(rt; is_seen(snap, state, id(rt, x), id(rt, top)) == shows);
}

#[test]
fn commit_after_snapshot_is_hidden(rt: HostRuntime) {
    let before = snap_of(&rt, 3, 3, &[], &[], false);
    check(&rt, &before, Some(State::Committed), 3, 3, false);
    let after = snap_of(&rt, 4, 4, &[], &[], false);
    check(&rt, &after, Some(State::Committed), 3, 3, true);
    check(&rt, &after, Some(State::Aborted), 3, 3, false);
    check(&rt, &after, Some(State::SubCommitted), 3, 3, false);
    check(&rt, &after, None, 3, 3, false);
}

#[test]
fn xmax_past_running_top(rt: HostRuntime) {
    let snap = snap_of(&rt, 3, 5, &[3], &[], false);
    check(&rt, &snap, Some(State::Committed), 3, 3, false);
    check(&rt, &snap, Some(State::Committed), 4, 4, true);
    check(&rt, &snap, Some(State::Committed), 5, 5, false);
}

#[test]
fn running_subtransaction_is_hidden(rt: HostRuntime) {
    let snap = snap_of(&rt, 3, 69, &[3], &[4, 10, 67], false);
    check(&rt, &snap, Some(State::Committed), 10, 3, false);
    check(&rt, &snap, Some(State::Committed), 11, 11, true);
}

#[test]
fn overflowed_snapshot_asks_the_top(rt: HostRuntime) {
    let snap = snap_of(&rt, 3, 71, &[3], &[], true);
    check(&rt, &snap, Some(State::Committed), 50, 3, false);
    check(&rt, &snap, Some(State::Committed), 68, 68, true);
}

#[test]
fn locks_of_two_banks(rt: HostRuntime) {
    let last = state_lock(id(&rt, 32767), 2);
    assert!(rt; matches!(last, Lock::Xact(0)));
    let next = state_lock(id(&rt, 32768), 2);
    assert!(rt; matches!(next, Lock::Xact(1)));
    let round = state_lock(id(&rt, (1 << 32) + 32768), 2);
    assert!(rt; matches!(round, Lock::Xact(1)));
    let sub = parent_lock(id(&rt, 2048), 2);
    assert!(rt; matches!(sub, Lock::Subtrans(1)));
    let multi = FullMulti::new(2048).expect(&rt, "a full id");
    assert!(rt; matches!(offset_lock(multi, 2), Lock::Offsets(1)));
    let member = member_lock((1 << 32) + 1636, 2);
    assert!(rt; matches!(member, Lock::Members(1)));
}

#[test]
fn locks_are_numbered_bank_by_bank(rt: HostRuntime) {
    let locks = [
        (Lock::Log, 0),
        (Lock::Proc, 1),
        (Lock::Multi, 2),
        (Lock::Xact(0), 3),
        (Lock::Subtrans(0), 4),
        (Lock::Offsets(0), 5),
        (Lock::Members(0), 6),
        (Lock::Xact(1), 7),
        (Lock::Members(15), 66),
    ];
    for (lock, number) in locks {
        assert!(rt; lock_number(lock) == number, "not {number}");
    }
}
