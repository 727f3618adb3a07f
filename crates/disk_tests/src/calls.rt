//! Calls of the volumes of one media, and their answers: without the calls' contracts, so that a test proves no more than that
//! they are safe.
ghost use Rattle.std.specs.Prelude.{◌≡◌, IsTrue};

use disk_core::{Crash, Failed, LogDisk, Media, MountRefusal, PageDisk, Volumes, Which};
use std::process::Abort;

/// What is asked of the volumes, or of their media.
#[derive(Clone, Copy)]
pub enum Call<'a> {
    Log(LogCall<'a>),
    /// Of this bank.
    Of(Which, PageCall),
    /// How many banks each store has.
    Counts,
    /// A crash of this kind, and a mount that asks for so many banks.
    Crash(Crash, u32),
    /// The same without a crash.
    Rest(u32),
}

#[derive(Clone, Copy)]
pub enum LogCall<'a> {
    /// These bytes from a place on.
    Write(u64, &'a [u8]),
    Sync,
    Forget(u64),
    Extent,
    /// Eight bytes from a place on.
    Read(u64),
}

#[derive(Clone, Copy)]
pub enum PageCall {
    /// A page of this one byte.
    Fill(u32, u8),
    Remove(u32),
    Sync,
    First,
    After(u32),
    Look(u32),
}

#[derive(Clone, Copy, Debug, PartialEq, Eq)]
pub enum Answer {
    Done,
    Fails,
    /// The log's start and length.
    Spans(u64, u64),
    /// So many bytes were read, and these, before zeros.
    Bytes(usize, [u8; 8]),
    /// A page's first four bytes and its last one.
    Page([u8; 4], u8),
    NoPage,
    Next(Option<u32>),
    Counted([usize; 4]),
}

fn done(came: Result<(), Failed>) -> Answer {
    match came {
        Ok(()) => Answer::Done,
        Err(Failed) => Answer::Fails,
    }
}

fn log_answer<D: LogDisk>(log: &mut D, call: LogCall<'_>) -> Answer {
    match call {
        LogCall::Write(at, bytes) => done(log.write_at(at, bytes)),
        LogCall::Sync => done(log.sync()),
        LogCall::Forget(upto) => done(log.forget(upto)),
        LogCall::Extent => match log.extent() {
            Ok(extent) => Answer::Spans(extent.start, extent.length),
            Err(Failed) => Answer::Fails,
        },
        LogCall::Read(at) => {
            let mut into = [0; 8];
            match log.read(at, &mut into) {
                Ok(count) => Answer::Bytes(count, into),
                Err(Failed) => Answer::Fails,
            }
        }
    }
}

fn next_answer(came: Result<Option<u32>, Failed>) -> Answer {
    match came {
        Ok(next) => Answer::Next(next),
        Err(Failed) => Answer::Fails,
    }
}

fn page_answer<P: PageDisk>(rt: &impl Abort, banks: &mut [P], bank: u32, call: PageCall) -> Answer {
    let pages = banks.get_mut(bank as usize).expect(rt, "such a bank");
    match call {
        PageCall::Fill(page, byte) => done(pages.write_page(page, &[byte; 8192])),
        PageCall::Remove(page) => done(pages.remove(page)),
        PageCall::Sync => done(pages.sync()),
        PageCall::First => next_answer(pages.after(None)),
        PageCall::After(page) => next_answer(pages.after(Some(page))),
        PageCall::Look(page) => {
            let mut bytes = [7; 8192];
            match pages.read_page(page, &mut bytes) {
                Ok(true) => { Answer::Page([bytes[0], bytes[1], bytes[2], bytes[3]], bytes[8191]) }
                Ok(false) => Answer::NoPage,
                Err(Failed) => Answer::Fails,
            }
        }
    }
}

fn bank_answer<L, P: PageDisk>(
    rt: &impl Abort,
    volumes: &mut Volumes<L, P>,
    at: Which,
    call: PageCall,
) -> Answer {
    match at {
        Which::Xact(bank) => page_answer(rt, &mut volumes.xact, bank, call),
        Which::Subtrans(bank) => page_answer(rt, &mut volumes.subtrans, bank, call),
        Which::Offsets(bank) => page_answer(rt, &mut volumes.offsets, bank, call),
        Which::Members(bank) => page_answer(rt, &mut volumes.members, bank, call),
        Which::Log => panic!(rt; "the log has no pages"),
    }
}

/// A media, and its volumes.
#[derive(Drop)]
pub struct Mounted<M: Media> {
    media: M,
    volumes: Option<Volumes<M::Log, M::Pages>>,
}

/// Crashes, or gives the volumes back.
fn leave<M: Media>(
    media: &mut M,
    volumes: Volumes<M::Log, M::Pages>,
    how: Option<Crash>,
) -> Result<(), Failed>
    ensures idle { IsTrue (M.is_idle media.new) }
{
    match how {
        Some(how) => media.crash(volumes, how),
        None => {
            media.rest(volumes);
            Ok(())
        }
    }
}

impl<M: Media + Drop> Mounted<M> {
    /// Asks for so many banks.
    pub fn new(rt: &impl Abort, media: M, banks: u32) -> Result<Mounted<M>, MountRefusal>
        requires { IsTrue (M.is_idle media) }
    {
        assert!(rt; 1 <= banks && banks <= 16);
        let mut media = media;
        let volumes = Some(media.mount(banks)?);
        Ok(Mounted { media, volumes })
    }

    /// Crashes, or gives the volumes back, and mounts the media again.
    fn again(&mut self, rt: &impl Abort, how: Option<Crash>, banks: u32) -> Answer {
        assert!(rt; 1 <= banks && banks <= 16);
        let volumes = self.volumes.take().expect(rt, "volumes");
        if leave(&mut self.media, volumes, how).is_err() {
            return Answer::Fails;
        }
        match self.media.mount(banks) {
            Ok(volumes) => {
                self.volumes = Some(volumes);
                Answer::Done
            }
            Err(_) => Answer::Fails,
        }
    }

    fn answer(&mut self, rt: &impl Abort, call: Call<'_>) -> Answer {
        match call {
            Call::Crash(how, banks) => return self.again(rt, Some(how), banks),
            Call::Rest(banks) => return self.again(rt, None, banks),
            _ => {}
        }
        let Some(volumes) = &mut self.volumes else {
            panic!(rt; "nothing is mounted")
        };
        match call {
            Call::Log(call) => log_answer(&mut volumes.log, call),
            Call::Of(at, call) => bank_answer(rt, volumes, at, call),
            Call::Counts => Answer::Counted([
                volumes.xact.len(),
                volumes.subtrans.len(),
                volumes.offsets.len(),
                volumes.members.len(),
            ]),
            Call::Crash(..) | Call::Rest(..) => panic!(rt; "a call of the media"),
        }
    }

    /// Each call of a row has this answer.
    pub fn check(&mut self, rt: &impl Abort, row: &str, calls: &[(Call<'_>, Answer)]) {
        for (place, (call, wanted)) in calls.iter().enumerate() {
            let came = self.answer(rt, *call);
            assert!(rt; came == *wanted, "{row}: call {place}: {came:?} came");
        }
    }
}
