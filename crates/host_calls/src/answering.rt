//! Dumps between two rounds.
ghost use Rattle.std.specs.Prelude.{◌≡◌, ◌+◌, ◌≤◌, IfOk};
ghost use Rattle.hall.specs.Calls.{start_of, view};
ghost use Rattle.tx_model.specs.declared.reply.Reply.TheVariants as replies;
ghost use Rattle.tx_model.specs.declared.report.DumpOf.TheVariants as dumps;
ghost use Rattle.life_law.specs.Dumps.{AreBytes};
ghost use Rattle.run_law.specs.Turns.{MayShow};
ghost use Rattle.engine_host.specs.Homes.{IsHome, StaysHome};
ghost use Rattle.host_calls.specs.Dumps.{IsAnswered, IsCutTold, IsFaultCounted, ShowsBytes, refusal_by};

use crate::log::dump_log;
use crate::pages::{dump_members, dump_offsets, dump_subtrans, dump_xact};
use disk_core::{LogDisk, PageDisk};
use engine_host::Host;
use engine_parts::EngineLaw;
use hall::Hall;
use session_lang::Dump;
use slru_bank::BankRefusal;
use std::alloc::Global;
use std::sync::Wait;
use store_pages::bank_of;
use tx_events::{Lock, Refusal};
use tx_model::{ByteList, DumpOf, Memory, Reply};

// A byte has eight bits.
fn are_bytes(bytes: &[u8])
    ensures { AreBytes bytes.now }
{
    for byte in bytes {
        let _value = *byte;
    }
}

/// The answer of these bytes.
fn bytes_reply(bytes: Vec<u8>) -> Reply
    ensures reply { result ≡ replies.Bytes bytes.items }
    ensures bytes { AreBytes bytes.items }
{
    are_bytes(bytes.as_slice());
    Reply::Bytes {
        bytes: ByteList::of(bytes),
    }
}

/// The answer where a bank refused, which lies behind this lock.
fn refused(lock: Lock, refusal: BankRefusal) -> Reply
    ensures { result ≡ refusal_by lock refusal }
{
    match refusal {
        BankRefusal::Cut { cutoff } => Reply::Cut { cutoff },
        BankRefusal::DiskFault => Reply::Refused {
            refusal: Refusal::DiskFault { lock },
        },
    }
}

/// Bytes of the log.
fn show_log<R: Wait, L: LogDisk, P: PageDisk>(
    rt: &R,
    alloc: Global,
    hall: &Hall<EngineLaw<L, P>>,
    host: &mut Host<L, P>,
    at: u64,
    size: usize,
) -> Result<Reply, Memory>
    requires home { IsHome hall.now host.old }
    ensures stays { StaysHome hall.now host.old host.new }
    ensures reply { IfOk result (IsAnswered hall.now host.old dumps.Log size) }
    ensures bytes { IfOk result (ShowsBytes L.LogDisk P.PageDisk (start_of hall.now) (view host.old.pass).seen
        dumps.Log at size) }
    ensures cut { IfOk result (IsCutTold P.tells (start_of hall.now) (view host.old.pass).seen dumps.Log) }
    ensures fault { IfOk result (IsFaultCounted L.LogDisk P.PageDisk (start_of hall.now) (view host.old.pass).seen) }
{
    let mut bytes = Vec::from_elem(alloc, 0u8, size)?;
    match dump_log(rt, hall, host, at, bytes.as_mut_slice()) {
        Ok(count) => {
            bytes.truncate(count);
            Ok(bytes_reply(bytes))
        }
        Err(_) => Ok(Reply::Refused {
            refusal: Refusal::LogFault,
        }),
    }
}

/// Bytes of a page of pg_xact.
fn show_xact<R: Wait, L: LogDisk, P: PageDisk>(
    rt: &R,
    alloc: Global,
    hall: &Hall<EngineLaw<L, P>>,
    host: &mut Host<L, P>,
    page: u32,
    at: u32,
    size: usize,
) -> Result<Reply, Memory>
    requires home { IsHome hall.now host.old }
    requires size { at + size ≤ 8192 }
    ensures stays { StaysHome hall.now host.old host.new }
    ensures reply { IfOk result (IsAnswered hall.now host.old (dumps.Xact page) size) }
    ensures bytes { IfOk result (ShowsBytes L.LogDisk P.PageDisk (start_of hall.now) (view host.old.pass).seen
        (dumps.Xact page) at size) }
    ensures cut { IfOk result (IsCutTold P.tells (start_of hall.now) (view host.old.pass).seen (dumps.Xact page)) }
    ensures fault { IfOk result (IsFaultCounted L.LogDisk P.PageDisk (start_of hall.now) (view host.old.pass).seen) }
{
    let bank = bank_of(page, host.cluster.banks);
    let mut bytes = Vec::from_elem(alloc, 0u8, size)?;
    match dump_xact(rt, hall, host, page, at, bytes.as_mut_slice()) {
        Ok(()) => Ok(bytes_reply(bytes)),
        Err(refusal) => Ok(refused(Lock::Xact(bank), refusal)),
    }
}

/// Bytes of a page of pg_subtrans.
fn show_subtrans<R: Wait, L: LogDisk, P: PageDisk>(
    rt: &R,
    alloc: Global,
    hall: &Hall<EngineLaw<L, P>>,
    host: &mut Host<L, P>,
    page: u32,
    at: u32,
    size: usize,
) -> Result<Reply, Memory>
    requires home { IsHome hall.now host.old }
    requires size { at + size ≤ 8192 }
    ensures stays { StaysHome hall.now host.old host.new }
    ensures reply { IfOk result (IsAnswered hall.now host.old (dumps.Subtrans page) size) }
    ensures bytes { IfOk result (ShowsBytes L.LogDisk P.PageDisk (start_of hall.now) (view host.old.pass).seen
        (dumps.Subtrans page) at size) }
    ensures cut { IfOk result (IsCutTold P.tells (start_of hall.now) (view host.old.pass).seen (dumps.Subtrans page)) }
    ensures fault { IfOk result (IsFaultCounted L.LogDisk P.PageDisk (start_of hall.now) (view host.old.pass).seen) }
{
    let bank = bank_of(page, host.cluster.banks);
    let mut bytes = Vec::from_elem(alloc, 0u8, size)?;
    match dump_subtrans(rt, hall, host, page, at, bytes.as_mut_slice()) {
        Ok(()) => Ok(bytes_reply(bytes)),
        Err(refusal) => Ok(refused(Lock::Subtrans(bank), refusal)),
    }
}

/// Bytes of a page of the offsets of multixacts.
fn show_offsets<R: Wait, L: LogDisk, P: PageDisk>(
    rt: &R,
    alloc: Global,
    hall: &Hall<EngineLaw<L, P>>,
    host: &mut Host<L, P>,
    page: u32,
    at: u32,
    size: usize,
) -> Result<Reply, Memory>
    requires home { IsHome hall.now host.old }
    requires size { at + size ≤ 8192 }
    ensures stays { StaysHome hall.now host.old host.new }
    ensures reply { IfOk result (IsAnswered hall.now host.old (dumps.Offsets page) size) }
    ensures bytes { IfOk result (ShowsBytes L.LogDisk P.PageDisk (start_of hall.now) (view host.old.pass).seen
        (dumps.Offsets page) at size) }
    ensures cut { IfOk result (IsCutTold P.tells (start_of hall.now) (view host.old.pass).seen (dumps.Offsets page)) }
    ensures fault { IfOk result (IsFaultCounted L.LogDisk P.PageDisk (start_of hall.now) (view host.old.pass).seen) }
{
    let bank = bank_of(page, host.cluster.banks);
    let mut bytes = Vec::from_elem(alloc, 0u8, size)?;
    match dump_offsets(rt, hall, host, page, at, bytes.as_mut_slice()) {
        Ok(()) => Ok(bytes_reply(bytes)),
        Err(refusal) => Ok(refused(Lock::Offsets(bank), refusal)),
    }
}

/// Bytes of a page of the members of multixacts.
fn show_members<R: Wait, L: LogDisk, P: PageDisk>(
    rt: &R,
    alloc: Global,
    hall: &Hall<EngineLaw<L, P>>,
    host: &mut Host<L, P>,
    page: u32,
    at: u32,
    size: usize,
) -> Result<Reply, Memory>
    requires home { IsHome hall.now host.old }
    requires size { at + size ≤ 8192 }
    ensures stays { StaysHome hall.now host.old host.new }
    ensures reply { IfOk result (IsAnswered hall.now host.old (dumps.Members page) size) }
    ensures bytes { IfOk result (ShowsBytes L.LogDisk P.PageDisk (start_of hall.now) (view host.old.pass).seen
        (dumps.Members page) at size) }
    ensures cut { IfOk result (IsCutTold P.tells (start_of hall.now) (view host.old.pass).seen (dumps.Members page)) }
    ensures fault { IfOk result (IsFaultCounted L.LogDisk P.PageDisk (start_of hall.now) (view host.old.pass).seen) }
{
    let bank = bank_of(page, host.cluster.banks);
    let mut bytes = Vec::from_elem(alloc, 0u8, size)?;
    match dump_members(rt, hall, host, page, at, bytes.as_mut_slice()) {
        Ok(()) => Ok(bytes_reply(bytes)),
        Err(refusal) => Ok(refused(Lock::Members(bank), refusal)),
    }
}

/// Answers a dump that the run has, while no session is in: with the bytes that stand there, where the volumes tell
/// what they hold, or that a page is cut, by its bank's cutoff, or that a volume failed whose count of faults rose. Takes
/// memory for the bytes.
pub fn show<R: Wait, L: LogDisk, P: PageDisk>(
    rt: &R,
    alloc: Global,
    hall: &Hall<EngineLaw<L, P>>,
    host: &mut Host<L, P>,
    dump: Dump,
) -> Result<Reply, Memory>
    requires home { IsHome hall.now host.old }
    requires may { MayShow dump.what dump.at dump.length }
    ensures stays { StaysHome hall.now host.old host.new }
    ensures reply { IfOk result (IsAnswered hall.now host.old dump.what dump.length) }
    ensures bytes { IfOk result (ShowsBytes L.LogDisk P.PageDisk (start_of hall.now) (view host.old.pass).seen
        dump.what dump.at dump.length) }
    ensures cut { IfOk result (IsCutTold P.tells (start_of hall.now) (view host.old.pass).seen dump.what) }
    ensures fault { IfOk result (IsFaultCounted L.LogDisk P.PageDisk (start_of hall.now) (view host.old.pass).seen) }
{
    let size = dump.length as usize;
    match dump.what {
        DumpOf::Log => show_log(rt, alloc, hall, host, dump.at, size),
        DumpOf::Xact { page } => show_xact(rt, alloc, hall, host, page, dump.at as u32, size),
        DumpOf::Subtrans { page } => {
            show_subtrans(rt, alloc, hall, host, page, dump.at as u32, size)
        }
        DumpOf::Offsets { page } => {
            show_offsets(rt, alloc, hall, host, page, dump.at as u32, size)
        }
        DumpOf::Members { page } => {
            show_members(rt, alloc, hall, host, page, dump.at as u32, size)
        }
    }
}
