//! All banks are synced.
ghost use Rattle.std.specs.Prelude.{◌≡◌, ◌+◌, ◌*◌, ◌<◌};
ghost use Rattle.hall.specs.Calls.{start_of, view};
ghost use Rattle.tx_core.specs.EngineInvariant.{EngineInvariant};
ghost use Rattle.tx_core.specs.ProgramOrder.{IsHostsTurn};
ghost use Rattle.engine_parts.specs.Alone.{IsAlone};
ghost use Rattle.host_calls.specs.Added.{SyncsBanks};
ghost use Rattle.host_calls.specs.Moments.{KeptThroughout};

use disk_core::{LogDisk, PageDisk};
use engine_parts::EngineLaw;
use hall::{Hall, Pass};
use host_sections::{sync_members, sync_offsets, sync_subtrans, sync_xact};
use std::sync::Wait;
use tx_events::{By, Lock};

// Syncs a bank of pg_xact.
fn sync_states<R: Wait, L: LogDisk, P: PageDisk>(
    rt: &R,
    hall: &Hall<EngineLaw<L, P>>,
    pass: &mut Pass<EngineLaw<L, P>>,
    by: By,
    bank: u32,
) -> Result<(), Lock>
    requires alone { IsAlone hall.now pass.old }
    requires turn { IsHostsTurn (start_of hall.now) by }
    requires bank { bank < (start_of hall.now).banks }
    ensures alone { IsAlone hall.now pass.new }
    ensures holds { (view pass.new).holds ≡ (view pass.old).holds }
    ensures kept { EngineInvariant (start_of hall.now) (view pass.new).seen }
    ensures stages { KeptThroughout L.LogDisk P.PageDisk (start_of hall.now) (view pass.old).seen (view pass.new).seen }
    ensures adds { SyncsBanks (start_of hall.now) by (3 + 4 * bank) (4 + 4 * bank) (view pass.old).seen
        (view pass.new).seen result }
{
    match sync_xact(rt, hall, pass, by, bank) {
        Ok(()) => Ok(()),
        Err(_) => Err(Lock::Xact(bank)),
    }
}

// Syncs a bank of pg_subtrans.
fn sync_parents<R: Wait, L: LogDisk, P: PageDisk>(
    rt: &R,
    hall: &Hall<EngineLaw<L, P>>,
    pass: &mut Pass<EngineLaw<L, P>>,
    by: By,
    bank: u32,
) -> Result<(), Lock>
    requires alone { IsAlone hall.now pass.old }
    requires turn { IsHostsTurn (start_of hall.now) by }
    requires bank { bank < (start_of hall.now).banks }
    ensures alone { IsAlone hall.now pass.new }
    ensures holds { (view pass.new).holds ≡ (view pass.old).holds }
    ensures kept { EngineInvariant (start_of hall.now) (view pass.new).seen }
    ensures stages { KeptThroughout L.LogDisk P.PageDisk (start_of hall.now) (view pass.old).seen (view pass.new).seen }
    ensures adds { SyncsBanks (start_of hall.now) by (4 + 4 * bank) (5 + 4 * bank) (view pass.old).seen
        (view pass.new).seen result }
{
    match sync_subtrans(rt, hall, pass, by, bank) {
        Ok(()) => Ok(()),
        Err(_) => Err(Lock::Subtrans(bank)),
    }
}

// Syncs a bank of the offsets of multixacts.
fn sync_starts<R: Wait, L: LogDisk, P: PageDisk>(
    rt: &R,
    hall: &Hall<EngineLaw<L, P>>,
    pass: &mut Pass<EngineLaw<L, P>>,
    by: By,
    bank: u32,
) -> Result<(), Lock>
    requires alone { IsAlone hall.now pass.old }
    requires turn { IsHostsTurn (start_of hall.now) by }
    requires bank { bank < (start_of hall.now).banks }
    ensures alone { IsAlone hall.now pass.new }
    ensures holds { (view pass.new).holds ≡ (view pass.old).holds }
    ensures kept { EngineInvariant (start_of hall.now) (view pass.new).seen }
    ensures stages { KeptThroughout L.LogDisk P.PageDisk (start_of hall.now) (view pass.old).seen (view pass.new).seen }
    ensures adds { SyncsBanks (start_of hall.now) by (5 + 4 * bank) (6 + 4 * bank) (view pass.old).seen
        (view pass.new).seen result }
{
    match sync_offsets(rt, hall, pass, by, bank) {
        Ok(()) => Ok(()),
        Err(_) => Err(Lock::Offsets(bank)),
    }
}

// Syncs a bank of the members of multixacts.
fn sync_slots<R: Wait, L: LogDisk, P: PageDisk>(
    rt: &R,
    hall: &Hall<EngineLaw<L, P>>,
    pass: &mut Pass<EngineLaw<L, P>>,
    by: By,
    bank: u32,
) -> Result<(), Lock>
    requires alone { IsAlone hall.now pass.old }
    requires turn { IsHostsTurn (start_of hall.now) by }
    requires bank { bank < (start_of hall.now).banks }
    ensures alone { IsAlone hall.now pass.new }
    ensures holds { (view pass.new).holds ≡ (view pass.old).holds }
    ensures kept { EngineInvariant (start_of hall.now) (view pass.new).seen }
    ensures stages { KeptThroughout L.LogDisk P.PageDisk (start_of hall.now) (view pass.old).seen (view pass.new).seen }
    ensures adds { SyncsBanks (start_of hall.now) by (6 + 4 * bank) (7 + 4 * bank) (view pass.old).seen
        (view pass.new).seen result }
{
    match sync_members(rt, hall, pass, by, bank) {
        Ok(()) => Ok(()),
        Err(_) => Err(Lock::Members(bank)),
    }
}

// Syncs the bank of this number of each store, in the order of their locks.
fn sync_bank<R: Wait, L: LogDisk, P: PageDisk>(
    rt: &R,
    hall: &Hall<EngineLaw<L, P>>,
    pass: &mut Pass<EngineLaw<L, P>>,
    by: By,
    bank: u32,
) -> Result<(), Lock>
    requires alone { IsAlone hall.now pass.old }
    requires turn { IsHostsTurn (start_of hall.now) by }
    requires bank { bank < (start_of hall.now).banks }
    ensures alone { IsAlone hall.now pass.new }
    ensures holds { (view pass.new).holds ≡ (view pass.old).holds }
    ensures kept { EngineInvariant (start_of hall.now) (view pass.new).seen }
    ensures stages { KeptThroughout L.LogDisk P.PageDisk (start_of hall.now) (view pass.old).seen (view pass.new).seen }
    ensures adds { SyncsBanks (start_of hall.now) by (3 + 4 * bank) (7 + 4 * bank) (view pass.old).seen
        (view pass.new).seen result }
{
    sync_states(rt, hall, pass, by, bank)?;
    sync_parents(rt, hall, pass, by, bank)?;
    sync_starts(rt, hall, pass, by, bank)?;
    sync_slots(rt, hall, pass, by, bank)
}

/// Syncs all banks of the four stores, one after the other (`CheckPointGuts` of `xlog.c`), until the volume of one fails,
/// which is told.
pub(crate) fn sync_all<R: Wait, L: LogDisk, P: PageDisk>(
    rt: &R,
    hall: &Hall<EngineLaw<L, P>>,
    pass: &mut Pass<EngineLaw<L, P>>,
    by: By,
    banks: u32,
) -> Result<(), Lock>
    requires alone { IsAlone hall.now pass.old }
    requires turn { IsHostsTurn (start_of hall.now) by }
    requires banks { banks ≡ (start_of hall.now).banks }
    requires kept { EngineInvariant (start_of hall.now) (view pass.old).seen }
    ensures alone { IsAlone hall.now pass.new }
    ensures holds { (view pass.new).holds ≡ (view pass.old).holds }
    ensures kept { EngineInvariant (start_of hall.now) (view pass.new).seen }
    ensures stages { KeptThroughout L.LogDisk P.PageDisk (start_of hall.now) (view pass.old).seen (view pass.new).seen }
    ensures adds { SyncsBanks (start_of hall.now) by 3 (3 + 4 * banks) (view pass.old).seen (view pass.new).seen
        result }
{
    for bank in 0..banks {
        sync_bank(rt, hall, pass, by, bank)?;
    }
    Ok(())
}
