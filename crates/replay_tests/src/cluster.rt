// A cluster of two banks, and what it holds.
use disk_core::{LogDisk, PageDisk, Volumes};
use replay_core::{FoundLog, RecoverRefusal, Recovered, find_log, recover};
use slru_bank::{BankRooms, SlruBank, State, set_states, state};
use std::alloc::AllocGlobal;
use std::process::Abort;
use store_pages::{PageRule, XactPages};
use tx_events::{Counters, FullXid, IdList, Rec, SharedCounters};
use wal_core::{Started, WalLog};

pub fn id(rt: &impl Abort, number: u64) -> FullXid {
    FullXid::new(number).expect(rt, "an id")
}

/// The commit of an id with these below it.
pub fn commit(rt: &(impl Abort + AllocGlobal), top: u64, below: &[u64]) -> Rec {
    let mut subs = IdList::new(rt.alloc());
    for sub in below {
        assert!(rt; subs.push(id(rt, *sub)).is_ok());
    }
    Rec::Commit {
        top: id(rt, top),
        subs,
    }
}

pub fn abort(rt: &(impl Abort + AllocGlobal), top: u64) -> Rec {
    Rec::Abort {
        top: id(rt, top),
        subs: IdList::new(rt.alloc()),
    }
}

pub fn first_checkpoint(rt: &(impl Abort + AllocGlobal)) -> Rec {
    let counters = SharedCounters::of(rt.alloc(), Counters::of_new_log());
    Rec::Checkpoint {
        number: 0,
        counters: counters.expect(rt, "memory"),
    }
}

/// A log of these records on its disk, the first so many of them flushed; each of the others is in no batch. The volume.
pub fn write_log<L: LogDisk + Drop>(
    rt: &(impl Abort + AllocGlobal),
    disk: L,
    recs: &[Rec],
    flushed: usize,
) -> L {
    let started = WalLog::start(rt.alloc(), disk).ok();
    let Started { mut log, .. } = started.expect(rt, "a log");
    for rec in recs {
        assert!(rt; log.may_append(rec));
        assert!(rt; log.append(rec).is_ok());
        if (log.next() as usize) <= flushed {
            assert!(rt; log.flush().is_ok());
        }
    }
    log.into_disk()
}

/// A bank over this volume.
pub fn bank_over<P: PageDisk + Drop, O: PageRule>(
    rt: &(impl Abort + AllocGlobal),
    disk: P,
) -> SlruBank<P, O> {
    SlruBank::<P, O>::new(rt.alloc(), disk, 0, 0)
        .ok()
        .expect(rt, "memory")
}

/// The states of ids in their banks, of which there are two.
pub fn states_of<P: PageDisk + Drop>(
    rt: &(impl Abort + AllocGlobal),
    xact: Vec<P>,
    numbers: [u64; 6],
) -> [State; 6] {
    let mut states = [State::InProgress; 6];
    let mut bank = 0;
    for disk in xact {
        let mut pages = bank_over::<P, XactPages>(rt, disk);
        for at in 0..6 {
            if numbers[at] / 32768 % 2 == bank {
                let found = state(&mut pages, id(rt, numbers[at]).low());
                states[at] = found.ok().expect(rt, "a state");
            }
        }
        bank = 1;
    }
    states
}

/// Takes the bank of this number, of two, out of its volumes; `put_back` puts it back.
pub fn take_out<P: PageDisk + Drop, O: PageRule>(
    rt: &(impl Abort + AllocGlobal),
    disks: &mut Vec<P>,
    at: usize,
) -> SlruBank<P, O> {
    assert!(rt; at < disks.len(), "two banks");
    let disk = disks.remove(at);
    bank_over::<P, O>(rt, disk)
}

/// Writes a bank's pages out, and puts its volume back.
pub fn put_back<P: PageDisk + Drop, O: PageRule>(
    rt: &impl Abort,
    disks: &mut Vec<P>,
    at: usize,
    mut bank: SlruBank<P, O>,
) {
    assert!(rt; bank.flush_all().is_ok());
    assert!(rt; at <= disks.len(), "two banks");
    assert!(rt; disks.insert(at, bank.into_disk()).is_ok());
}

/// Puts a state on a page of its bank's volume.
pub fn put_state<P: PageDisk + Drop>(
    rt: &(impl Abort + AllocGlobal),
    xact: &mut Vec<P>,
    number: u64,
    to: State,
) {
    let at = (number / 32768 % 2) as usize;
    let mut bank = take_out::<P, XactPages>(rt, xact, at);
    assert!(rt; set_states(&mut bank, &[id(rt, number)], to).is_ok());
    put_back(rt, xact, at, bank);
}

/// What a recovery of mounted volumes leaves: the volumes, and what was answered.
pub struct Told<L, P> {
    pub volumes: Volumes<L, P>,
    /// The checkpoint's number and the next id.
    pub outcome: Result<(u64, u64), RecoverRefusal>,
}

/// Recovers mounted volumes, and gives them all back.
pub fn recover_mounted<L: LogDisk + Drop, P: PageDisk + Drop>(
    rt: &(impl Abort + AllocGlobal),
    volumes: Volumes<L, P>,
) -> Told<L, P> {
    match recovered(rt, volumes) {
        Ok(
            Recovered {
                log,
                xact,
                subtrans,
                offsets,
                members,
                from,
                base,
            },
        ) => Told {
            volumes: Volumes {
                log: log.into_disk(),
                xact,
                subtrans,
                offsets,
                members,
            },
            outcome: Ok((from, base.next.number())),
        },
        Err((volumes, refusal)) => Told {
            volumes,
            outcome: Err(refusal),
        },
    }
}

/// Recovers a cluster of two banks, of which the log is found first. None is without a record.
fn recovered<L: LogDisk + Drop, P: PageDisk + Drop>(
    rt: &(impl Abort + AllocGlobal),
    volumes: Volumes<L, P>,
) -> Result<Recovered<L, P>, (Volumes<L, P>, RecoverRefusal)> {
    let Volumes {
        log,
        xact,
        subtrans,
        offsets,
        members,
    } = volumes;
    if xact.len() != 2 || subtrans.len() != 2 || offsets.len() != 2 || members.len() != 2 {
        panic!(rt; "two banks")
    }
    match find_log(rt.alloc(), log) {
        Ok(FoundLog::Old(found)) => {
            let mut rooms = BankRooms::new(rt.alloc());
            recover(&mut rooms, found, xact, subtrans, offsets, members)
        }
        Ok(FoundLog::New(_)) => panic!(rt; "a log without a record"),
        Err((log, refusal)) => {
            let volumes = Volumes {
                log,
                xact,
                subtrans,
                offsets,
                members,
            };
            Err((volumes, refusal))
        }
    }
}
