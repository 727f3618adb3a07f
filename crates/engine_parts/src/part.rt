//! The parts of an engine.
use crate::in_place::InPlace;
use disk_core::{LogDisk, PageDisk};
use multi_store::MultiGen;
use proc_table::ProcTable;
use slru_bank::SlruBank;
use store_pages::{MemberPages, OffsetPages, SubtransPages, XactPages};
use wal_core::WalLog;

/// What lies behind a lock of an engine's lock table (the locks by their numbers: `docs/ENGINE.md`). It is moved at each
/// critical section, so what is large lies behind a box.
pub enum Part<L: LogDisk, P: PageDisk> {
    /// The write-ahead log (WALInsertLock and WALWriteLock of `xlog.c`).
    Log(Box<WalLog<L>>),
    /// The ProcArray with the next id (ProcArrayLock of `procarray.c`, XidGenLock of `varsup.c`).
    Proc(Box<ProcTable>),
    /// The generator of multixacts with their pins (MultiXactGenLock of `multixact.c`).
    Multi(Box<MultiGen>),
    /// A bank of pg_xact (XactSLRULock of `clog.c`).
    Xact(InPlace<SlruBank<P, XactPages>>),
    /// A bank of pg_subtrans (SubtransSLRULock of `subtrans.c`).
    Subtrans(InPlace<SlruBank<P, SubtransPages>>),
    /// A bank of the offsets of multixacts (MultiXactOffsetSLRULock of `multixact.c`).
    Offsets(InPlace<SlruBank<P, OffsetPages>>),
    /// A bank of the members of multixacts (MultiXactMemberSLRULock of `multixact.c`).
    Members(InPlace<SlruBank<P, MemberPages>>),
}
