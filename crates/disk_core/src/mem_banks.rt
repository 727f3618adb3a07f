//! The banks of a media in memory.
ghost use Rattle.std.specs.Prelude.{◌≡◌, length, IfOk, OnOk, All};
ghost use Rattle.disk_core.specs.Media.{EachCrashed};
ghost use Rattle.disk_core.specs.MemMediaViews.{BankFell, IsNewBank, bank_crashed};

use crate::{Crash, Failed, MemPages};
use std::alloc::{AllocError, Global};

fn new_bank(alloc: Global) -> Result<Box<MemPages>, AllocError>
    ensures { IfOk result IsNewBank }
{
    Ok(Box::new(alloc, MemPages::new(alloc))?)
}

pub(crate) fn new_banks(alloc: Global, n: u32) -> Result<Vec<Box<MemPages>>, AllocError>
    ensures count { IfOk result (λ banks. length banks.items ≡ n) }
    ensures new { IfOk result (λ banks. All IsNewBank banks.items) }
{
    let mut banks = Vec::new(alloc);
    for _ in 0..n {
        banks.push(new_bank(alloc)?)?;
    }
    Ok(banks)
}

fn crash_bank(bank: &mut Box<MemPages>, how: Crash) -> Result<(), Failed>
    ensures crashed { OnOk result (bank_crashed bank.old bank.new) }
    ensures fell { OnOk result (BankFell how bank.old bank.new) }
{
    bank.crash(how)
}

pub(crate) fn crash_banks(banks: &mut Vec<Box<MemPages>>, how: Crash) -> Result<(), Failed>
    ensures crashed { OnOk result (EachCrashed bank_crashed banks.old.items banks.new.items) }
    ensures fell { OnOk result (EachCrashed (BankFell how) banks.old.items banks.new.items) }
    ensures count { length banks.new.items ≡ length banks.old.items }
{
    for bank in banks.iter_mut() {
        crash_bank(bank, how)?;
    }
    Ok(())
}
