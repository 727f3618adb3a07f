//! Calls of a bank and their answers: without the calls' contracts, so that a test proves no more than that they are safe.
ghost use Rattle.std.specs.Prelude.{◌≡◌, ◌+◌, ◌≤◌};

use disk_core::{MemPages, PageDisk};
use slru_bank::{BankRefusal, PageSpan, SlruBank, put_number, read_number};
use std::process::Abort;
use store_pages::PageRule;

#[derive(Clone, Copy)]
pub enum Call {
    /// Puts a number into the four bytes of a page from a place on, and reads it there.
    Put(u32, u32, u32),
    Number(u32, u32),
    /// Sets all bits of the byte at a place of a page, and reads it there.
    Set(u32, u32, u8),
    Byte(u32, u32),
    /// Makes a page.
    Zero(u32),
    Flush,
    /// Cuts the pages before this one.
    Truncate(u32),
    /// Clears what is behind this place of a page.
    ClearAfter(u32, u32),
    ClearAll,
}

#[derive(Clone, Copy, Debug, PartialEq, Eq)]
pub enum Answer {
    Done,
    Refused(BankRefusal),
    Holds(u32),
}

/// An empty bank over a volume in memory.
pub fn memory_bank<O: PageRule>(rt: &(impl Abort + AllocGlobal)) -> SlruBank<MemPages, O> {
    let alloc = rt.alloc();
    let bank = SlruBank::new(alloc, MemPages::new(alloc), 0, 0);
    bank.ok().expect(rt, "memory")
}

/// A place of four bytes.
fn place(rt: &impl Abort, at: u32) -> u32
    ensures { result + 4 ≤ 8192 }
{
    assert!(rt; at <= 8188);
    at
}

fn done(came: Result<(), BankRefusal>) -> Answer {
    match came {
        Ok(()) => Answer::Done,
        Err(refusal) => Answer::Refused(refusal),
    }
}

fn ask<P: PageDisk, O: PageSpan>(rt: &impl Abort, bank: &mut SlruBank<P, O>, call: Call) -> Answer {
    match call {
        Call::Put(page, at, number) => done(put_number(bank, page, place(rt, at), number)),
        Call::Number(page, at) => match read_number(bank, page, place(rt, at)) {
            Ok(number) => Answer::Holds(number),
            Err(refusal) => Answer::Refused(refusal),
        },
        Call::Set(page, at, byte) => done(bank.set(page, place(rt, at), 255, byte)),
        Call::Byte(page, at) => {
            let mut bytes = [0; 1];
            match bank.read(page, place(rt, at), &mut bytes) {
                Ok(()) => Answer::Holds(u32::from(bytes[0])),
                Err(refusal) => Answer::Refused(refusal),
            }
        }
        Call::Zero(page) => done(bank.zero(page)),
        Call::Flush => done(bank.flush_all()),
        Call::Truncate(cutoff) => done(bank.truncate(cutoff)),
        Call::ClearAfter(page, at) => done(bank.clear_after(page, place(rt, at))),
        Call::ClearAll => done(bank.clear_all()),
    }
}

/// Each call of a row has this answer.
pub fn check<P: PageDisk, O: PageSpan>(
    rt: &impl Abort,
    bank: &mut SlruBank<P, O>,
    row: &str,
    calls: &[(Call, Answer)],
) {
    for (place, (call, wanted)) in calls.iter().enumerate() {
        let came = ask(rt, bank, *call);
        assert!(rt; came == *wanted, "{row}: call {place}: {came:?} came");
    }
}
