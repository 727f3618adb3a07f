// What a second life begins with.
ghost use Rattle.std.specs.Prelude.{IsTrue};

use crate::cluster::{
    Told, abort, commit, first_checkpoint, put_state, recover_mounted, states_of, write_log,
};
use crate::multis::{members_of, multi, offsets_of, put_member, put_offset};
use disk_core::{Crash, Media, MemMedia, Volumes, Which};
use disk_fuse::Fuse;
use replay_core::RecoverRefusal;
use slru_bank::State;
use std::alloc::AllocGlobal;
use std::process::Abort;

const HOWS: [Crash; 3] = [Crash::Lost, Crash::Kept, Crash::Torn];

const IDS: [u64; 6] = [3, 4, 5, 6, 7, 32768];

// 3 committed with 5 below it, and 4 aborted, which needs no state; the commit of 6 wasn't on disk, and no record was ever
// of 7 and of 32768.
const STATES: [State; 6] = [
    State::Committed,
    State::InProgress,
    State::Committed,
    State::InProgress,
    State::InProgress,
    State::InProgress,
];

// The offsets of multixacts, 0 for none: 1 was recorded on disk, with two members from offset 1 on. The record of 2 wasn't
// on disk, and no record was ever of 2049, which is of the other bank.
const MULTIS: [u32; 3] = [1, 2, 2049];

const OFFSETS: [u32; 3] = [1, 0, 0];

// The ids at member offsets, 0 for none. 1636 is of the other bank.
const PLACES: [u32; 4] = [1, 2, 3, 1636];

const MEMBERS: [u32; 4] = [3, 5, 0, 0];

// Records 0 to 3 are on disk, 4 and 5 aren't. On the pages stand two states that no record gives, the offset and a member of
// the multixact whose record isn't on disk, and an offset and a member that no record gives. The multixact that is on disk
// stands on no page.
fn first_life<M: Media>(rt: &(impl Abort + AllocGlobal), media: &mut M)
    requires { IsTrue (M.is_idle media.old) }
    ensures { IsTrue (M.is_idle media.new) }
{
    let Volumes {
        log,
        mut xact,
        subtrans,
        mut offsets,
        mut members,
    } = media.mount(2).ok().expect(rt, "volumes");
    let recs = [
        first_checkpoint(rt),
        commit(rt, 3, &[5]),
        abort(rt, 4),
        multi(rt, 1, 1, 3, 5),
        commit(rt, 6, &[]),
        multi(rt, 2, 3, 6, 7),
    ];
    let log = write_log(rt, log, &recs, 4);
    put_state(rt, &mut xact, 7, State::Committed);
    put_state(rt, &mut xact, 32768, State::SubCommitted);
    put_offset(rt, &mut offsets, 2, 3);
    put_offset(rt, &mut offsets, 2049, 1636);
    put_member(rt, &mut members, 3, 6);
    put_member(rt, &mut members, 1636, 9);
    media.rest(Volumes {
        log,
        xact,
        subtrans,
        offsets,
        members,
    });
}

// What a recovery answers: the checkpoint's number and the next id.
type Outcome = Result<(u64, u64), RecoverRefusal>;

// A recovery, and then a crash.
fn recover_and_crash<M: Media>(
    rt: &(impl Abort + AllocGlobal),
    media: &mut M,
    how: Crash,
) -> Outcome
    requires { IsTrue (M.is_idle media.old) }
    ensures { IsTrue (M.is_idle media.new) }
{
    let volumes = media.mount(2).ok().expect(rt, "volumes");
    let Told { volumes, outcome } = recover_mounted(rt, volumes);
    assert!(rt; media.crash(volumes, how).is_ok());
    outcome
}

// What stands behind a recovery.
#[derive(Drop)]
struct Seen {
    states: [State; 6],
    offsets: [u32; 3],
    members: [u32; 4],
}

// A recovery, and what stands then.
fn recover_and_look<M: Media>(rt: &(impl Abort + AllocGlobal), media: &mut M) -> (Outcome, Seen)
    requires { IsTrue (M.is_idle media.old) }
{
    let volumes = media.mount(2).ok().expect(rt, "volumes");
    let Told { volumes, outcome } = recover_mounted(rt, volumes);
    let Volumes {
        xact,
        offsets,
        members,
        ..
    } = volumes;
    let seen = Seen {
        states: states_of(rt, xact, IDS),
        offsets: offsets_of(rt, offsets, MULTIS),
        members: members_of(rt, members, PLACES),
    };
    (outcome, seen)
}

// Whether that is what was committed and recorded on disk.
fn is_right(seen: &Seen) -> bool {
    seen.states == STATES && seen.offsets == OFFSETS && seen.members == MEMBERS
}

#[test]
fn a_second_life_has_what_is_committed_and_recorded_on_disk_and_nothing_else(rt: HostRuntime) {
    let mut media = MemMedia::new(rt.alloc());
    first_life(&rt, &mut media);
    let (outcome, seen) = recover_and_look(&rt, &mut media);
    assert!(rt; matches!(outcome, Ok((4, 6))) && is_right(&seen));
}

// Each recovery writes a checkpoint of its own, and finds that of the one before.
#[test]
fn a_recovery_after_a_recovery_finds_the_same(rt: HostRuntime) {
    for how in HOWS {
        let mut media = MemMedia::new(rt.alloc());
        first_life(&rt, &mut media);
        let first = recover_and_crash(&rt, &mut media, how);
        assert!(rt; matches!(first, Ok((4, 6))), "{how:?}");
        let second = recover_and_crash(&rt, &mut media, how);
        assert!(rt; matches!(second, Ok((5, 6))), "{how:?}");
        let (outcome, seen) = recover_and_look(&rt, &mut media);
        assert!(rt; matches!(outcome, Ok((6, 6))) && is_right(&seen), "{how:?}");
    }
}

// Over a media whose volume passes so many calls: whether the recovery failed. After a crash, one that goes through gives the
// same.
fn is_stopped_at(rt: &(impl Abort + AllocGlobal), at: Which, passes: u64, how: Crash) -> bool {
    let mut media = Fuse::new(rt.alloc(), MemMedia::new(rt.alloc()), at, passes);
    first_life(rt, &mut media);
    let stopped = recover_and_crash(rt, &mut media, how);
    let (outcome, seen) = recover_and_look(rt, &mut media);
    let same = matches!(outcome, Ok((4 | 5, 6))) && is_right(&seen);
    assert!(rt;
        same,
        "{at:?} {passes} {how:?}: a later recovery found something else"
    );
    stopped.is_err()
}

// How many of the recoveries failed over media whose volume passes the calls of the first life, and up to 29 more.
fn count_stops(rt: &(impl Abort + AllocGlobal), at: Which, first: u64, how: Crash) -> u64 {
    let mut stops = 0u64;
    for more in 0..30 {
        if is_stopped_at(rt, at, first.saturating_add(more), how) {
            stops = stops.saturating_add(1);
        }
    }
    stops
}

// The first life makes 20 calls. Then the log is synced, measured and read; the checkpoint takes four calls, and one
// forgets what stood before it.
#[test]
fn a_recovery_that_stops_at_any_call_of_the_log_may_be_made_again(rt: HostRuntime) {
    for how in HOWS {
        assert!(rt; count_stops(&rt, Which::Log, 20, how) == 8, "{how:?}");
    }
}

// The first life makes three calls of each volume of pg_xact, of offsets and of members, and none of pg_subtrans.
#[test]
fn a_recovery_that_stops_at_any_call_of_a_page_volume_may_be_made_again(rt: HostRuntime) {
    for how in HOWS {
        for bank in 0..2 {
            for (at, first) in [
                (Which::Xact(bank), 3),
                (Which::Subtrans(bank), 0),
                (Which::Offsets(bank), 3),
                (Which::Members(bank), 3),
            ] {
                assert!(rt; count_stops(&rt, at, first, how) > 0, "{at:?} {how:?}");
            }
        }
    }
}
