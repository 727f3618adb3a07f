//! Sets and reads of a bank's bytes, turn after turn, and copies of whole pages.
ghost use Rattle.std.specs.Prelude.{◌≡◌, ℕ, ◌*◌, ◌≤◌, ◌<◌, IsTrue, OnOk, IfOk, length};
ghost use Rattle.slru_bank.specs.Calls.{SamePages, pages_of};

use disk_core::PageDisk;
use slru_bank::{BankRefusal, SlruBank};
use store_pages::XactPages;

/// Sets a byte of each of these pages in turn.
pub fn set_turns<P: PageDisk>(
    bank: &mut SlruBank<P, XactPages>,
    pages: u32,
    turns: u32,
) -> Result<(), BankRefusal>
    requires { 1 ≤ pages }
    ensures others { IsTrue P.tells → (q : ℕ) → pages ≤ q → pages_of bank.new q ≡ pages_of bank.old q }
{
    for i in 0..turns {
        bank.set(i % pages, i % 8192, 255, 1)?;
    }
    Ok(())
}

/// Reads a byte of each of these pages in turn. How many of them were set.
pub fn read_turns<P: PageDisk>(
    bank: &mut SlruBank<P, XactPages>,
    pages: u32,
    turns: u32,
) -> Result<u32, BankRefusal>
    requires { 1 ≤ pages }
    ensures found { IfOk result (λ n. n ≤ turns) }
    ensures same { IsTrue P.tells → SamePages bank.old bank.new }
{
    let mut found = 0;
    for i in 0..turns {
        let mut byte = [0; 1];
        bank.read(i % pages, i % 8192, &mut byte)?;
        found += (byte[0] == 1) as u32;
    }
    Ok(found)
}

/// Sets a byte of each page in turn, and copies the page. How many bytes were set in the copies.
pub fn copy_turns(from: &mut [u8], to: &mut [u8], pages: u32, turns: u32) -> u32
    requires some { 1 ≤ pages }
    requires from { length from.old ≡ pages * 8192 }
    requires to { length to.old ≡ pages * 8192 }
    ensures { result ≡ turns }
{
    let mut found = 0;
    for i in 0..turns {
        let start = (i % pages) as usize * 8192;
        let at = start + (i % 8192) as usize;
        from[at] = 1;
        to[start..start + 8192].copy_from_slice(&from[start..start + 8192]);
        found += (to[at] == 1) as u32;
    }
    found
}
