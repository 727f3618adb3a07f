//! Bytes of pages.
ghost use Rattle.std.specs.Prelude.{◌≡◌, ℕ, ◌+◌, ◌%◌, ◌≤◌, Err, IsTrue, OnErr, OnOk, length};
ghost use Rattle.hall.specs.Calls.{start_of, view};
ghost use Rattle.slru_bank.specs.declared.refusal.BankRefusal.TheVariants.{Cut, DiskFault};
ghost use Rattle.tx_core.specs.EngineInvariant.{EngineInvariant};
ghost use Rattle.tx_core.specs.Locks.{members_lock, offsets_lock, subtrans_lock, xact_lock};
ghost use Rattle.bank_sections.specs.Sections.{IsSubtransCut, IsXactCut};
ghost use Rattle.multi_banks.specs.Sections.{IsMemberCut, IsOffsetCut};
ghost use Rattle.engine_host.specs.Homes.{IsHome, StaysHome};
ghost use Rattle.host_calls.specs.Shown.{HasFailed, IsMembersUncut, IsOffsetsUncut, IsSubtransUncut, IsXactUncut, ShowsMembers, ShowsOffsets, ShowsSubtrans, ShowsXact};

use disk_core::{LogDisk, PageDisk};
use engine_host::Host;
use engine_parts::{EngineLaw, Part};
use hall::Hall;
use host_sections::{take_members, take_offsets, take_subtrans, take_xact};
use slru_bank::BankRefusal;
use std::sync::Wait;
use store_pages::bank_of;

/// Reads bytes of a stored page of pg_xact from a place on, zeros where the volume lacks the page. `Cut` tells a cutoff of
/// the bank's list that cuts the page, where the volumes tell what they hold the one with which the life began; and
/// `DiskFault` comes only where the volume's count of faults rose.
pub fn dump_xact<R: Wait, L: LogDisk, P: PageDisk>(
    rt: &R,
    hall: &Hall<EngineLaw<L, P>>,
    host: &mut Host<L, P>,
    page: u32,
    from: u32,
    into: &mut [u8],
) -> Result<(), BankRefusal>
    requires home { IsHome hall.now host.old }
    requires range { from + length into.old ≤ 8192 }
    ensures stays { StaysHome hall.now host.old host.new }
    ensures kept { EngineInvariant (start_of hall.now) (view host.old.pass).seen }
    ensures bytes { IsTrue P.tells → OnOk result (ShowsXact (start_of hall.now) (view host.old.pass).seen page from
        (length into.old) into.new) }
    ensures uncut { OnOk result (IsXactUncut (start_of hall.now) (view host.old.pass).seen
        (page % (start_of hall.now).banks) page) }
    ensures cut { (cutoff : ℕ) → result ≡ Err (Cut cutoff) → IsXactCut (start_of hall.now) (view host.old.pass).seen
        (page % (start_of hall.now).banks) page cutoff }
    ensures fault { result ≡ Err DiskFault → HasFailed L.LogDisk P.PageDisk (start_of hall.now)
        (view host.old.pass).seen (xact_lock (page % (start_of hall.now).banks)) }
    ensures err { OnErr result (into.new ≡ into.old) }
{
    let bank = bank_of(page, host.cluster.banks);
    let mut held = take_xact(rt, hall, &mut host.pass, bank);
    let store = &mut *held;
    let found = store.read(page, from, into);
    hall.put_back(&mut host.pass, Part::Xact(held));
    found
}

/// The same of a stored page of pg_subtrans.
pub fn dump_subtrans<R: Wait, L: LogDisk, P: PageDisk>(
    rt: &R,
    hall: &Hall<EngineLaw<L, P>>,
    host: &mut Host<L, P>,
    page: u32,
    from: u32,
    into: &mut [u8],
) -> Result<(), BankRefusal>
    requires home { IsHome hall.now host.old }
    requires range { from + length into.old ≤ 8192 }
    ensures stays { StaysHome hall.now host.old host.new }
    ensures kept { EngineInvariant (start_of hall.now) (view host.old.pass).seen }
    ensures bytes { IsTrue P.tells → OnOk result (ShowsSubtrans (start_of hall.now) (view host.old.pass).seen page from
        (length into.old) into.new) }
    ensures uncut { OnOk result (IsSubtransUncut (start_of hall.now) (view host.old.pass).seen
        (page % (start_of hall.now).banks) page) }
    ensures cut { (cutoff : ℕ) → result ≡ Err (Cut cutoff) → IsSubtransCut (start_of hall.now)
        (view host.old.pass).seen (page % (start_of hall.now).banks) page cutoff }
    ensures fault { result ≡ Err DiskFault → HasFailed L.LogDisk P.PageDisk (start_of hall.now)
        (view host.old.pass).seen (subtrans_lock (page % (start_of hall.now).banks)) }
    ensures err { OnErr result (into.new ≡ into.old) }
{
    let bank = bank_of(page, host.cluster.banks);
    let mut held = take_subtrans(rt, hall, &mut host.pass, bank);
    let store = &mut *held;
    let found = store.read(page, from, into);
    hall.put_back(&mut host.pass, Part::Subtrans(held));
    found
}

/// The same of a stored page of the offsets of multixacts.
pub fn dump_offsets<R: Wait, L: LogDisk, P: PageDisk>(
    rt: &R,
    hall: &Hall<EngineLaw<L, P>>,
    host: &mut Host<L, P>,
    page: u32,
    from: u32,
    into: &mut [u8],
) -> Result<(), BankRefusal>
    requires home { IsHome hall.now host.old }
    requires range { from + length into.old ≤ 8192 }
    ensures stays { StaysHome hall.now host.old host.new }
    ensures kept { EngineInvariant (start_of hall.now) (view host.old.pass).seen }
    ensures bytes { IsTrue P.tells → OnOk result (ShowsOffsets (start_of hall.now) (view host.old.pass).seen page from
        (length into.old) into.new) }
    ensures uncut { OnOk result (IsOffsetsUncut (start_of hall.now) (view host.old.pass).seen
        (page % (start_of hall.now).banks) page) }
    ensures cut { (cutoff : ℕ) → result ≡ Err (Cut cutoff) → IsOffsetCut (start_of hall.now)
        (view host.old.pass).seen (page % (start_of hall.now).banks) page cutoff }
    ensures fault { result ≡ Err DiskFault → HasFailed L.LogDisk P.PageDisk (start_of hall.now)
        (view host.old.pass).seen (offsets_lock (page % (start_of hall.now).banks)) }
    ensures err { OnErr result (into.new ≡ into.old) }
{
    let bank = bank_of(page, host.cluster.banks);
    let mut held = take_offsets(rt, hall, &mut host.pass, bank);
    let store = &mut *held;
    let found = store.read(page, from, into);
    hall.put_back(&mut host.pass, Part::Offsets(held));
    found
}

/// The same of a stored page of the members of multixacts.
pub fn dump_members<R: Wait, L: LogDisk, P: PageDisk>(
    rt: &R,
    hall: &Hall<EngineLaw<L, P>>,
    host: &mut Host<L, P>,
    page: u32,
    from: u32,
    into: &mut [u8],
) -> Result<(), BankRefusal>
    requires home { IsHome hall.now host.old }
    requires range { from + length into.old ≤ 8192 }
    ensures stays { StaysHome hall.now host.old host.new }
    ensures kept { EngineInvariant (start_of hall.now) (view host.old.pass).seen }
    ensures bytes { IsTrue P.tells → OnOk result (ShowsMembers (start_of hall.now) (view host.old.pass).seen page from
        (length into.old) into.new) }
    ensures uncut { OnOk result (IsMembersUncut (start_of hall.now) (view host.old.pass).seen
        (page % (start_of hall.now).banks) page) }
    ensures cut { (cutoff : ℕ) → result ≡ Err (Cut cutoff) → IsMemberCut (start_of hall.now)
        (view host.old.pass).seen (page % (start_of hall.now).banks) page cutoff }
    ensures fault { result ≡ Err DiskFault → HasFailed L.LogDisk P.PageDisk (start_of hall.now)
        (view host.old.pass).seen (members_lock (page % (start_of hall.now).banks)) }
    ensures err { OnErr result (into.new ≡ into.old) }
{
    let bank = bank_of(page, host.cluster.banks);
    let mut held = take_members(rt, hall, &mut host.pass, bank);
    let store = &mut *held;
    let found = store.read(page, from, into);
    hall.put_back(&mut host.pass, Part::Members(held));
    found
}
