//! A log over the volume of these tests: its calls without their contracts, so that a test proves no more than that they
//! are safe.
use crate::test_disk::TestDisk;
use crate::test_rec::{Record, rec_of};
use disk_core::Crash;
use std::process::Abort;
use tx_events::{Counters, Rec};
use wal_core::{LogContents, LogRefusal, Started, WalLog, read_log};

// A batch with a checkpoint of the first counters, a batch with a commit of 3, and a closed gate.
#[rattlefmt::skip]
const LOG: [u8; 81] = [
    1, 57, 0, 0, 0, 4, 0, 0, 0, 0, 0, 0, 0, 0, 3, 0, 0, 0, 0, 0, 0, 0, 3, 0, 0, 0, 0, 0, 0, 0, 1,
    0, 0, 0, 0, 0, 0, 0, 1, 0, 0, 0, 0, 0, 0, 0, 1, 0, 0, 0, 0, 0, 0, 0, 1, 0, 0, 0, 0, 0, 0, 0, 1,
    13, 0, 0, 0, 1, 3, 0, 0, 0, 0, 0, 0, 0, 0, 0, 0, 0, 0,
];

#[derive(Clone, Copy)]
pub enum Call<'a> {
    /// Opens a log over an empty volume that passes as many calls as the case's number says.
    New,
    /// Over a volume with as many bytes of LOG as the case's number says, the first of them at this place.
    Open(u64),
    /// Over the volume of the log.
    Reopen,
    /// Over what the case's crash leaves of it, which passes each call.
    Crash,
    Append(Record<'a>),
    /// Whether it may come next.
    MayAppend(Record<'a>),
    Flush,
    /// Forgets what stands before the checkpoint that the log ends with, and whether that may be.
    Forget,
    MayForget,
    /// What was found when the log was opened, and a checkpoint that is all of it.
    Found,
    FoundCheckpoint,
    Ends,
    /// Whether its volume has the bytes of LOG.
    IsLog,
}

#[derive(Clone, Copy, Debug, PartialEq, Eq)]
pub enum Answer {
    /// Wanted where any answer will do.
    Any,
    Done,
    Refused(LogRefusal),
    /// There is no log, or it may not be called so.
    MayNot,
    /// The record's number.
    Given(u64),
    Is(bool),
    /// How many records, and the number of the first.
    Found(usize, u64),
    /// A checkpoint's number and counters.
    Checkpoint(u64, [u64; 6]),
    /// The number of the next record, that of the first which isn't known to be flushed, and the place of the next gate.
    Ends(u64, u64, u64),
}

/// From one number to another, with this crash, the last call of a row has this answer.
pub type Case = (u64, u64, Option<Crash>, Answer);

/// Calls with their answers, and a last one, whose answer each case tells.
#[derive(Clone, Copy)]
pub struct Row<'a> {
    pub name: &'a str,
    pub calls: &'a [(Call<'a>, Answer)],
    pub last: Call<'a>,
    pub cases: &'a [Case],
}

/// The next id and the oldest one, the next multixact and offset, and the oldest ones.
pub fn numbers(counters: &Counters) -> [u64; 6] {
    [
        counters.next.number(),
        counters.oldest.number(),
        counters.multi.number(),
        counters.offset,
        counters.oldest_multi.number(),
        counters.oldest_offset,
    ]
}

/// The first bytes of LOG.
pub fn log_bytes(rt: &(impl Abort + AllocGlobal), count: u64) -> Vec<u8> {
    let mut bytes = LOG.to_vec(rt.alloc()).expect(rt, "memory");
    bytes.truncate(count as usize);
    bytes
}

/// What is read of a volume with these bytes.
pub fn read(rt: &(impl Abort + AllocGlobal), bytes: Vec<u8>) -> Result<LogContents, LogRefusal> {
    let mut disk = TestDisk::of(rt.alloc(), 0, bytes, u64::MAX);
    read_log(rt.alloc(), &mut disk)
}

/// A log that is open, and what was read of it then.
#[derive(Drop)]
struct TestLog {
    number: u64,
    how: Option<Crash>,
    open: Option<Started<TestDisk>>,
}

impl TestLog {
    fn open(&mut self, rt: &(impl Abort + AllocGlobal), disk: TestDisk) -> Answer {
        match WalLog::start(rt.alloc(), disk) {
            Ok(opened) => {
                self.open = Some(opened);
                Answer::Done
            }
            Err((_, refusal)) => Answer::Refused(refusal),
        }
    }

    /// The volume of the log, which is closed by that.
    fn disk(&mut self, rt: &impl Abort) -> TestDisk {
        self.open.take().expect(rt, "a log").log.into_disk()
    }

    fn answer(&mut self, rt: &(impl Abort + AllocGlobal), call: Call<'_>) -> Answer {
        let alloc = rt.alloc();
        match call {
            Call::New => self.open(rt, TestDisk::of(alloc, 0, Vec::new(alloc), self.number)),
            Call::Open(from) => {
                let bytes = log_bytes(rt, self.number);
                self.open(rt, TestDisk::of(alloc, from, bytes, u64::MAX))
            }
            Call::Reopen => {
                let disk = self.disk(rt);
                self.open(rt, disk)
            }
            Call::Crash => {
                let how = self.how.expect(rt, "a crash");
                let disk = self.disk(rt).after_crash(how);
                self.open(rt, disk)
            }
            _ => match &mut self.open {
                Some(open) => ask(rt, open, call),
                None => Answer::MayNot,
            },
        }
    }
}

/// What an open log answers.
fn ask(rt: &(impl Abort + AllocGlobal), open: &mut Started<TestDisk>, call: Call<'_>) -> Answer {
    let log = &mut open.log;
    match call {
        Call::Append(record) => {
            let rec = rec_of(rt, record);
            if log.may_append(&rec) {
                given(log.append(&rec))
            } else {
                Answer::MayNot
            }
        }
        Call::MayAppend(record) => Answer::Is(log.may_append(&rec_of(rt, record))),
        Call::Flush => done(log.flush()),
        Call::Forget => {
            if log.may_forget() {
                done(log.forget_before_checkpoint())
            } else {
                Answer::MayNot
            }
        }
        Call::MayForget => Answer::Is(log.may_forget()),
        Call::Found => Answer::Found(open.recs.items().len(), open.first),
        Call::FoundCheckpoint => match open.recs.items() {
            [Rec::Checkpoint { number, counters }] => {
                Answer::Checkpoint(*number, numbers(counters.get()))
            }
            _ => Answer::MayNot,
        },
        Call::Ends => Answer::Ends(log.next(), log.flushed(), log.end()),
        Call::IsLog => {
            let mut bytes = [7; 100];
            match log.dump(0, &mut bytes) {
                Ok(count) => Answer::Is(bytes.get(..count) == Some(LOG.as_slice())),
                Err(refusal) => Answer::Refused(refusal),
            }
        }
        Call::New | Call::Open(_) | Call::Reopen | Call::Crash => Answer::MayNot,
    }
}

fn given(came: Result<u64, LogRefusal>) -> Answer {
    match came {
        Ok(number) => Answer::Given(number),
        Err(refusal) => Answer::Refused(refusal),
    }
}

fn done(came: Result<(), LogRefusal>) -> Answer {
    match came {
        Ok(()) => Answer::Done,
        Err(refusal) => Answer::Refused(refusal),
    }
}

/// From no log on, the calls of a row have their answers, and the last one this.
fn check_number(
    rt: &(impl Abort + AllocGlobal),
    row: &Row<'_>,
    number: u64,
    how: Option<Crash>,
    wanted: Answer,
) {
    let name = row.name;
    let mut log = TestLog {
        number,
        how,
        open: None,
    };
    for (place, (call, wanted)) in row.calls.iter().enumerate() {
        let came = log.answer(rt, *call);
        assert!(rt;
            came == *wanted || *wanted == Answer::Any,
            "{name}: {number}, {how:?}, call {place}: {came:?} came"
        );
    }
    let came = log.answer(rt, row.last);
    assert!(rt; came == wanted, "{name}: {number}, {how:?}: {came:?} came");
}

pub fn check_rows(rt: &(impl Abort + AllocGlobal), rows: &[Row<'_>]) {
    for row in rows {
        for (first, last, how, wanted) in row.cases {
            for number in *first..=*last {
                check_number(rt, row, number, *how, *wanted);
            }
        }
    }
}
