// Numbers of four bytes on pages, the low byte first.
ghost use Rattle.std.specs.Prelude.{◌≡◌, ◌⊎◌, ℕ, ◌+◌, ◌-◌, ◌<◌, ◌≤◌, ◌^◌, List, IsTrue, OnOk, OnErr, IfOk, Err, take, drop, length};
ghost use Rattle.store_pages.specs.Layouts.{number_in};
ghost use Rattle.slru_bank.specs.ByteRange.{PutsNumber};
ghost use Rattle.slru_bank.specs.Calls.{CallsBank, SamePages, pages_of};

use crate::{BankRefusal, SlruBank};
use byteorder::{ByteOrder, LittleEndian};
use disk_core::PageDisk;
use store_pages::PageRule;

/// The number in four bytes of a page.
pub fn read_number<P: PageDisk, O: PageRule>(
    bank: &mut SlruBank<P, O>,
    page: u32,
    at: u32,
) -> Result<u32, BankRefusal>
    requires { at + 4 ≤ 8192 }
    ensures is { IsTrue P.tells → IfOk result (λ n. n ≡ number_in (pages_of bank.old page) at) }
    ensures same { IsTrue P.tells → SamePages bank.old bank.new }
    ensures bank { CallsBank page bank.old bank.new result }
{
    let mut bytes = [0; 4];
    bank.read(page, at, &mut bytes)?;
    Ok(LittleEndian::read_u32(&bytes))
}

/// Puts a number into four bytes of a page.
pub fn put_number<P: PageDisk, O: PageRule>(
    bank: &mut SlruBank<P, O>,
    page: u32,
    at: u32,
    number: u32,
) -> Result<(), BankRefusal>
    requires { at + 4 ≤ 8192 }
    ensures ok { IsTrue P.tells → OnOk result (PutsNumber page at number (pages_of bank.old) (pages_of bank.new)) }
    ensures err { IsTrue P.tells → OnErr result (SamePages bank.old bank.new) }
    ensures bank { CallsBank page bank.old bank.new result }
{
    let mut bytes = [0; 4];
    LittleEndian::write_u32(&mut bytes, number);
    bank.put(page, at, &bytes)
}
