//! Sets and reads of a page bank over memory, and copies of pages by the same loop.
ghost use Rattle.std.specs.Prelude.{◌≤◌};

use crate::bank_turns::{copy_turns, read_turns, set_turns};
use crate::timing::{Timed, no_memory, since};
use disk_core::MemPages;
use slru_bank::SlruBank;
use std::io;
use std::time::Instant;
use store_pages::XactPages;

// How many turns there are where no number is given.
const TURNS: u32 = 500;

// A bank over memory, of one volume.
type Bank = SlruBank<MemPages, XactPages>;

// The sets. No read has to write a changed page afterwards.
fn time_sets(host: &HostRuntime, bank: &mut Bank, pages: u32, turns: u32) -> io::Result<Timed>
    requires { 1 ≤ pages }
{
    let start = Instant::now(host)?;
    if set_turns(bank, pages, turns).is_err() {
        return Err(no_memory());
    }
    let time = since(host, start, turns as u64)?;
    if bank.flush_all().is_err() {
        return Err(no_memory());
    }
    Ok(time)
}

// The reads that found a set byte.
fn time_reads(host: &HostRuntime, bank: &mut Bank, pages: u32, turns: u32) -> io::Result<Timed>
    requires { 1 ≤ pages }
{
    let start = Instant::now(host)?;
    match read_turns(bank, pages, turns) {
        Ok(found) => since(host, start, found as u64),
        Err(_) => Err(no_memory()),
    }
}

// The pages that were copied.
fn time_copies(host: &HostRuntime, pages: u32, turns: u32) -> io::Result<Timed>
    requires some { 1 ≤ pages }
    requires few { pages ≤ 17 }
{
    let mut from = Vec::from_elem(host.alloc(), 0u8, pages as usize * 8192)?;
    let mut to = Vec::from_elem(host.alloc(), 0u8, pages as usize * 8192)?;
    let start = Instant::now(host)?;
    let copied = copy_turns(from.as_mut_slice(), to.as_mut_slice(), pages, turns);
    since(host, start, copied as u64)
}

// Takes the turns over so many pages, and prints what they came to.
fn measure(host: &HostRuntime, name: &str, pages: u32, wanted: Option<u32>) -> io::Result<()>
    requires some { 1 ≤ pages }
    requires few { pages ≤ 17 }
{
    let turns = wanted.unwrap_or(TURNS);
    let disk = MemPages::new(host.alloc());
    let Ok(bank) = Bank::new(host.alloc(), disk, 0, 0) else {
        return Err(no_memory());
    };
    let mut bank = bank;
    let sets = time_sets(host, &mut bank, pages, turns)?;
    let reads = time_reads(host, &mut bank, pages, turns)?;
    let copies = time_copies(host, pages, turns)?;
    println!(host;
        "{name}, pages in turn {pages}: {turns} set, {} found, {} copied",
        reads.count, copies.count
    )?;
    if wanted.is_some() {
        println!(host;
            "    a second: {} sets, {} reads, {} bytes copied",
            sets.rate(),
            reads.rate(),
            copies.rate().saturating_mul(8192)
        )?;
    }
    Ok(())
}

/// Prints what the turns came to where the page is in a buffer, and where it never is.
pub fn measure_bank(host: &HostRuntime, wanted: Option<u32>) -> io::Result<()> {
    measure(host, "hot", 1, wanted)?;
    // A bank has 16 buffers: of 17 pages in turn, none is in a buffer when its turn comes.
    measure(host, "cold", 17, wanted)
}
