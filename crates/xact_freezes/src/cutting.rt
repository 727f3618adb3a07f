//! The banks of the four stores are cut.
ghost use Rattle.std.specs.Prelude.{◌≡◌, ℕ, ◌<◌, ◌≤◌, [], IfErr, IfOk};
ghost use Rattle.hall.specs.Calls.{view, start_of};
ghost use Rattle.store_pages.specs.Layouts.{multi_before, subtrans_cut_page, xact_cut_page};
ghost use Rattle.tx_core.specs.CutsFollow.{IsTruncated};
ghost use Rattle.tx_core.specs.Locks.{member_page_in_full, members_lock, offset_page, offsets_lock};
ghost use Rattle.tx_core.specs.Locks.{subtrans_lock, xact_lock};
ghost use Rattle.engine_parts.specs.Calls.{MayStep};
ghost use Rattle.engine_parts.specs.Sessions.{by_at};
ghost use Rattle.xact_freezes.specs.Trims.{AreCut, IsCutBy, IsCutMet, MayTrim, WasOldestXmin};
ghost use Rattle.xact_freezes.specs.Visits.{Visited};

use bank_sections::{cut_parents, cut_states};
use disk_core::{LogDisk, PageDisk};
use engine_parts::{Caller, EngineLaw, Passing};
use hall::Hall;
use multi_banks::{cut_members, cut_offsets};
use proc_sections::Horizons;
use slru_bank::BankRefusal;
use tx_events::{Counters, FullMulti, FullXid, Lock, Refusal};

/// Cuts a bank of pg_xact.
fn let_states<R: Passing, L: LogDisk, P: PageDisk>(
    rt: &R,
    hall: &Hall<EngineLaw<L, P>>,
    caller: &mut Caller<L, P>,
    banks: u32,
    base: &Counters,
    bank: u32,
    oldest: FullXid,
) -> Result<(), Refusal>
    requires step { MayStep hall.now banks caller.old }
    requires base { base.now ≡ (start_of hall.now).base }
    requires bank { bank < banks }
    requires told { (multi : ℕ) × (offset : ℕ) × IsTruncated (start_of hall.now)
        (view caller.old.pass).seen oldest multi offset }
    ensures visited { Visited hall.now banks (MayTrim result) [] caller.old caller.new }
    ensures cut { IfOk result (λ _. IsCutBy (view caller.new.pass).seen
        (by_at caller.old.number caller.old.session.levels.commands) (xact_lock bank)
        (xact_cut_page (start_of hall.now).base.oldest oldest)) }
    ensures met { IfErr result (IsCutMet (view caller.new.pass).seen
        (by_at caller.old.number caller.old.session.levels.commands)) }
{
    match cut_states(rt, hall, caller, bank, base.oldest, oldest) {
        Ok(()) => Ok(()),
        Err(BankRefusal::DiskFault) => Err(Refusal::DiskFault {
            lock: Lock::Xact(bank),
        }),
        Err(BankRefusal::Cut { .. }) => unreachable!(),
    }
}

/// Cuts a bank of pg_subtrans.
fn let_parents<R: Passing, L: LogDisk, P: PageDisk>(
    rt: &R,
    hall: &Hall<EngineLaw<L, P>>,
    caller: &mut Caller<L, P>,
    banks: u32,
    base: &Counters,
    bank: u32,
    xmin: FullXid,
) -> Result<(), Refusal>
    requires step { MayStep hall.now banks caller.old }
    requires base { base.now ≡ (start_of hall.now).base }
    requires bank { bank < banks }
    requires some { 1 ≤ xmin }
    requires told { WasOldestXmin (start_of hall.now) (view caller.old.pass).seen xmin }
    ensures visited { Visited hall.now banks (MayTrim result) [] caller.old caller.new }
    ensures cut { IfOk result (λ _. IsCutBy (view caller.new.pass).seen
        (by_at caller.old.number caller.old.session.levels.commands) (subtrans_lock bank)
        (subtrans_cut_page (start_of hall.now).base.oldest xmin)) }
    ensures met { IfErr result (IsCutMet (view caller.new.pass).seen
        (by_at caller.old.number caller.old.session.levels.commands)) }
{
    match cut_parents(rt, hall, caller, bank, base.oldest, xmin) {
        Ok(()) => Ok(()),
        Err(BankRefusal::DiskFault) => Err(Refusal::DiskFault {
            lock: Lock::Subtrans(bank),
        }),
        Err(BankRefusal::Cut { .. }) => unreachable!(),
    }
}

/// Cuts a bank of offsets.
fn let_offsets<R: Passing, L: LogDisk, P: PageDisk>(
    rt: &R,
    hall: &Hall<EngineLaw<L, P>>,
    caller: &mut Caller<L, P>,
    banks: u32,
    bank: u32,
    multi: FullMulti,
) -> Result<(), Refusal>
    requires step { MayStep hall.now banks caller.old }
    requires bank { bank < banks }
    requires told { (oldest : ℕ) × (offset : ℕ) × IsTruncated (start_of hall.now)
        (view caller.old.pass).seen oldest multi offset }
    ensures visited { Visited hall.now banks (MayTrim result) [] caller.old caller.new }
    ensures cut { IfOk result (λ _. IsCutBy (view caller.new.pass).seen
        (by_at caller.old.number caller.old.session.levels.commands) (offsets_lock bank)
        (offset_page (multi_before multi))) }
    ensures met { IfErr result (IsCutMet (view caller.new.pass).seen
        (by_at caller.old.number caller.old.session.levels.commands)) }
{
    match cut_offsets(rt, hall, caller, bank, multi) {
        Ok(()) => Ok(()),
        Err(BankRefusal::DiskFault) => Err(Refusal::DiskFault {
            lock: Lock::Offsets(bank),
        }),
        Err(BankRefusal::Cut { .. }) => unreachable!(),
    }
}

/// Cuts a bank of members.
fn let_members<R: Passing, L: LogDisk, P: PageDisk>(
    rt: &R,
    hall: &Hall<EngineLaw<L, P>>,
    caller: &mut Caller<L, P>,
    banks: u32,
    bank: u32,
    offset: u64,
) -> Result<(), Refusal>
    requires step { MayStep hall.now banks caller.old }
    requires bank { bank < banks }
    requires told { (oldest : ℕ) × (multi : ℕ) × IsTruncated (start_of hall.now)
        (view caller.old.pass).seen oldest multi offset }
    ensures visited { Visited hall.now banks (MayTrim result) [] caller.old caller.new }
    ensures cut { IfOk result (λ _. IsCutBy (view caller.new.pass).seen
        (by_at caller.old.number caller.old.session.levels.commands) (members_lock bank)
        (member_page_in_full offset)) }
    ensures met { IfErr result (IsCutMet (view caller.new.pass).seen
        (by_at caller.old.number caller.old.session.levels.commands)) }
{
    match cut_members(rt, hall, caller, bank, offset) {
        Ok(()) => Ok(()),
        Err(BankRefusal::DiskFault) => Err(Refusal::DiskFault {
            lock: Lock::Members(bank),
        }),
        Err(BankRefusal::Cut { .. }) => unreachable!(),
    }
}

/// Cuts the bank of this number of each store, in the order of their locks.
fn cut_bank<R: Passing, L: LogDisk, P: PageDisk>(
    rt: &R,
    hall: &Hall<EngineLaw<L, P>>,
    caller: &mut Caller<L, P>,
    banks: u32,
    base: &Counters,
    found: &Horizons,
    multis: &Counters,
    bank: u32,
) -> Result<(), Refusal>
    requires step { MayStep hall.now banks caller.old }
    requires base { base.now ≡ (start_of hall.now).base }
    requires bank { bank < banks }
    requires some { 1 ≤ found.now.oldest_xmin }
    requires told { IsTruncated (start_of hall.now) (view caller.old.pass).seen found.now.oldest
        multis.now.oldest_multi multis.now.oldest_offset }
    requires xmin { WasOldestXmin (start_of hall.now) (view caller.old.pass).seen found.now.oldest_xmin }
    ensures visited { Visited hall.now banks (MayTrim result) [] caller.old caller.new }
    ensures cut { IfOk result (λ _. AreCut (start_of hall.now) (view caller.new.pass).seen
        (by_at caller.old.number caller.old.session.levels.commands) found.now.oldest found.now.oldest_xmin
        multis.now.oldest_multi multis.now.oldest_offset bank) }
    ensures met { IfErr result (IsCutMet (view caller.new.pass).seen
        (by_at caller.old.number caller.old.session.levels.commands)) }
{
    match let_states(rt, hall, caller, banks, base, bank, found.oldest) {
        Ok(()) => {}
        Err(refusal) => return Err(refusal),
    }
    match let_parents(rt, hall, caller, banks, base, bank, found.oldest_xmin) {
        Ok(()) => {}
        Err(refusal) => return Err(refusal),
    }
    match let_offsets(rt, hall, caller, banks, bank, multis.oldest_multi) {
        Ok(()) => {}
        Err(refusal) => return Err(refusal),
    }
    let_members(rt, hall, caller, banks, bank, multis.oldest_offset)
}

/// Cuts all banks of the four stores, until the volume of one fails.
pub(crate) fn cut_all<R: Passing, L: LogDisk, P: PageDisk>(
    rt: &R,
    hall: &Hall<EngineLaw<L, P>>,
    caller: &mut Caller<L, P>,
    banks: u32,
    base: &Counters,
    found: &Horizons,
    multis: &Counters,
) -> Result<(), Refusal>
    requires step { MayStep hall.now banks caller.old }
    requires base { base.now ≡ (start_of hall.now).base }
    requires some { 1 ≤ found.now.oldest_xmin }
    requires told { IsTruncated (start_of hall.now) (view caller.old.pass).seen found.now.oldest
        multis.now.oldest_multi multis.now.oldest_offset }
    requires xmin { WasOldestXmin (start_of hall.now) (view caller.old.pass).seen found.now.oldest_xmin }
    ensures visited { Visited hall.now banks (MayTrim result) [] caller.old caller.new }
    ensures cut { IfOk result (λ _. (bank : ℕ) → bank < banks → AreCut (start_of hall.now)
        (view caller.new.pass).seen (by_at caller.old.number caller.old.session.levels.commands) found.now.oldest
        found.now.oldest_xmin multis.now.oldest_multi multis.now.oldest_offset bank) }
    ensures met { IfErr result (IsCutMet (view caller.new.pass).seen
        (by_at caller.old.number caller.old.session.levels.commands)) }
{
    for bank in 0..banks {
        match cut_bank(rt, hall, caller, banks, base, found, multis, bank) {
            Ok(()) => {}
            Err(refusal) => return Err(refusal),
        }
    }
    Ok(())
}
