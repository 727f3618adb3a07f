//! A bank is synced.
ghost use Rattle.std.specs.Prelude.{◌≡◌, ◌<◌};
ghost use Rattle.hall.specs.Calls.{start_of, view};
ghost use Rattle.tx_core.specs.EngineInvariant.{EngineInvariant};
ghost use Rattle.tx_core.specs.Locks.{members_lock, offsets_lock, subtrans_lock, xact_lock};
ghost use Rattle.tx_core.specs.ProgramOrder.{IsHostsTurn};
ghost use Rattle.engine_parts.specs.Alone.{IsAlone};
ghost use Rattle.host_sections.specs.Asked.{AsksVolume};
ghost use Rattle.host_sections.specs.HostEntries.{AddsSync, sync_by};

use crate::home::{take_members, take_offsets, take_subtrans, take_xact};
use disk_core::{LogDisk, PageDisk};
use engine_parts::{EngineLaw, Part, fault_note, leave};
use hall::{Hall, Note, Pass};
use slru_bank::BankRefusal;
use std::sync::Wait;
use tx_core::Entry;
use tx_events::By;

// The entry of a sync.
fn sync_note(by: By) -> Note<Entry>
    ensures { result.value ≡ sync_by by }
{
    Note::by(&by)
}

/// Puts all pages of a bank of pg_xact on disk (`CheckPointCLOG` of `src/backend/access/transam/clog.c`,
/// `SimpleLruWriteAll` of `slru.c`). The one refusal is `DiskFault`.
pub fn sync_xact<R: Wait, L: LogDisk, P: PageDisk>(
    rt: &R,
    hall: &Hall<EngineLaw<L, P>>,
    pass: &mut Pass<EngineLaw<L, P>>,
    by: By,
    bank: u32,
) -> Result<(), BankRefusal>
    requires alone { IsAlone hall.now pass.old }
    requires turn { IsHostsTurn (start_of hall.now) by }
    requires bank { bank < (start_of hall.now).banks }
    ensures alone { IsAlone hall.now pass.new }
    ensures holds { (view pass.new).holds ≡ (view pass.old).holds }
    ensures kept { EngineInvariant (start_of hall.now) (view pass.new).seen }
    ensures adds { AddsSync (start_of hall.now) by (xact_lock bank) (view pass.old).seen (view pass.new).seen result }
    ensures asks { AsksVolume L.LogDisk P.PageDisk (start_of hall.now) (xact_lock bank) (view pass.old).seen
        (view pass.new).seen }
{
    let mut held = take_xact(rt, hall, pass, bank);
    let store = &mut *held;
    match store.flush_all() {
        Ok(()) => {
            let sync = sync_note(by);
            leave(hall, pass, Part::Xact(held), sync);
            Ok(())
        }
        Err(refusal) => {
            let fault = fault_note(by, &*held);
            leave(hall, pass, Part::Xact(held), fault);
            Err(refusal)
        }
    }
}

/// The same of a bank of pg_subtrans (`CheckPointSUBTRANS` of `src/backend/access/transam/subtrans.c`).
pub fn sync_subtrans<R: Wait, L: LogDisk, P: PageDisk>(
    rt: &R,
    hall: &Hall<EngineLaw<L, P>>,
    pass: &mut Pass<EngineLaw<L, P>>,
    by: By,
    bank: u32,
) -> Result<(), BankRefusal>
    requires alone { IsAlone hall.now pass.old }
    requires turn { IsHostsTurn (start_of hall.now) by }
    requires bank { bank < (start_of hall.now).banks }
    ensures alone { IsAlone hall.now pass.new }
    ensures holds { (view pass.new).holds ≡ (view pass.old).holds }
    ensures kept { EngineInvariant (start_of hall.now) (view pass.new).seen }
    ensures adds { AddsSync (start_of hall.now) by (subtrans_lock bank) (view pass.old).seen (view pass.new).seen
        result }
    ensures asks { AsksVolume L.LogDisk P.PageDisk (start_of hall.now) (subtrans_lock bank) (view pass.old).seen
        (view pass.new).seen }
{
    let mut held = take_subtrans(rt, hall, pass, bank);
    let store = &mut *held;
    match store.flush_all() {
        Ok(()) => {
            let sync = sync_note(by);
            leave(hall, pass, Part::Subtrans(held), sync);
            Ok(())
        }
        Err(refusal) => {
            let fault = fault_note(by, &*held);
            leave(hall, pass, Part::Subtrans(held), fault);
            Err(refusal)
        }
    }
}

/// The same of a bank of the offsets of multixacts (`CheckPointMultiXact` of `src/backend/access/transam/multixact.c`).
pub fn sync_offsets<R: Wait, L: LogDisk, P: PageDisk>(
    rt: &R,
    hall: &Hall<EngineLaw<L, P>>,
    pass: &mut Pass<EngineLaw<L, P>>,
    by: By,
    bank: u32,
) -> Result<(), BankRefusal>
    requires alone { IsAlone hall.now pass.old }
    requires turn { IsHostsTurn (start_of hall.now) by }
    requires bank { bank < (start_of hall.now).banks }
    ensures alone { IsAlone hall.now pass.new }
    ensures holds { (view pass.new).holds ≡ (view pass.old).holds }
    ensures kept { EngineInvariant (start_of hall.now) (view pass.new).seen }
    ensures adds { AddsSync (start_of hall.now) by (offsets_lock bank) (view pass.old).seen (view pass.new).seen
        result }
    ensures asks { AsksVolume L.LogDisk P.PageDisk (start_of hall.now) (offsets_lock bank) (view pass.old).seen
        (view pass.new).seen }
{
    let mut held = take_offsets(rt, hall, pass, bank);
    let store = &mut *held;
    match store.flush_all() {
        Ok(()) => {
            let sync = sync_note(by);
            leave(hall, pass, Part::Offsets(held), sync);
            Ok(())
        }
        Err(refusal) => {
            let fault = fault_note(by, &*held);
            leave(hall, pass, Part::Offsets(held), fault);
            Err(refusal)
        }
    }
}

/// The same of a bank of the members of multixacts (`CheckPointMultiXact` of `src/backend/access/transam/multixact.c`).
pub fn sync_members<R: Wait, L: LogDisk, P: PageDisk>(
    rt: &R,
    hall: &Hall<EngineLaw<L, P>>,
    pass: &mut Pass<EngineLaw<L, P>>,
    by: By,
    bank: u32,
) -> Result<(), BankRefusal>
    requires alone { IsAlone hall.now pass.old }
    requires turn { IsHostsTurn (start_of hall.now) by }
    requires bank { bank < (start_of hall.now).banks }
    ensures alone { IsAlone hall.now pass.new }
    ensures holds { (view pass.new).holds ≡ (view pass.old).holds }
    ensures kept { EngineInvariant (start_of hall.now) (view pass.new).seen }
    ensures adds { AddsSync (start_of hall.now) by (members_lock bank) (view pass.old).seen (view pass.new).seen
        result }
    ensures asks { AsksVolume L.LogDisk P.PageDisk (start_of hall.now) (members_lock bank) (view pass.old).seen
        (view pass.new).seen }
{
    let mut held = take_members(rt, hall, pass, bank);
    let store = &mut *held;
    match store.flush_all() {
        Ok(()) => {
            let sync = sync_note(by);
            leave(hall, pass, Part::Members(held), sync);
            Ok(())
        }
        Err(refusal) => {
            let fault = fault_note(by, &*held);
            leave(hall, pass, Part::Members(held), fault);
            Err(refusal)
        }
    }
}
