//! Whether values are in the ranges that a report can say.
ghost use Rattle.std.specs.Prelude.{◌≡◌, ◌↔◌, ◌<◌, ◌^◌, IsTrue, length};
ghost use Rattle.std.specs.List.{AllByRecursion};
ghost use Rattle.report_words.specs.Fits.{FitsId, FitsMulti, FitsBy, FitsCounters, FitsSnap, FitsPair, FitsMember, FitsVerdict, FitsLock, FitsRefusal, FitsReply, FitsCheckpointRefusal, FitsCheckpointReply, FitsDumpRefusal, FitsDumpReply, IsPending};

use crate::reply::Kind;
use tx_events::{FullMulti, FullXid, Xid};
use tx_model::{
    By, ByteList, Counters, Lock, MemberList, NameList, PairList, Refusal, Reply, SharedSnap,
    VerdictList,
};

/// A full id is in range, since its type holds no other number.
pub fn id_fits(id: FullXid)
    ensures { FitsId id }
{
    let _number = id.number();
}

fn small_fits(x: Xid)
    ensures { x.number < 2 ^ 32 }
{
    let _number = x.number;
}

fn number_fits(number: u64)
    ensures { number < 2 ^ 64 }
{}

/// A full multixact is in range.
pub fn multi_fits(multi: FullMulti)
    ensures { FitsMulti multi }
{
    let _number = multi.number();
}

/// The ids of a list are.
pub fn ids_fit(ids: &[FullXid])
    ensures { AllByRecursion FitsId ids.now }
{
    for id in ids {
        id_fits(*id);
    }
}

/// Members as a script writes them are.
pub fn pairs_fit(pairs: &PairList)
    ensures { AllByRecursion FitsPair pairs.now }
{
    for pair in pairs.items() {
        small_fits(pair.x);
    }
}

/// Members in full are.
pub fn members_fit(members: &MemberList)
    ensures { AllByRecursion FitsMember members.now }
{
    for member in members.items() {
        id_fits(member.id);
    }
}

fn verdicts_fit(verdicts: &VerdictList)
    ensures { AllByRecursion FitsVerdict verdicts.now }
{
    for verdict in verdicts.items() {
        id_fits(verdict.id);
    }
}

fn bytes_fit(bytes: &ByteList)
    ensures { AllByRecursion (λ b. b < 256) bytes.now }
{
    for byte in bytes.items() {
        let _value = *byte;
    }
}

/// Counters are.
pub fn counters_fit(counters: &Counters)
    ensures { FitsCounters counters.now }
{
    id_fits(counters.next);
    id_fits(counters.oldest);
    multi_fits(counters.multi);
    multi_fits(counters.oldest_multi);
    number_fits(counters.offset);
    number_fits(counters.oldest_offset);
}

fn snapshot_fits(lists: &SharedSnap)
    ensures { FitsSnap lists.now }
{
    id_fits(lists.xmin());
    id_fits(lists.xmax());
    ids_fit(lists.xip());
    ids_fit(lists.subxip());
}

/// Whether the session has a name.
pub fn fits_by(names: &NameList, by: By) -> bool
    ensures { IsTrue result ↔ FitsBy names.now by }
{
    (by.session as usize) < names.items().len()
}

fn fits_lock(lock: Lock) -> bool
    ensures { IsTrue result ↔ FitsLock lock }
{
    match lock {
        Lock::Log => true,
        Lock::Xact(bank) => bank < 16,
        Lock::Subtrans(bank) => bank < 16,
        Lock::Offsets(bank) => bank < 16,
        Lock::Members(bank) => bank < 16,
        _ => false,
    }
}

/// Whether a command can be refused so.
fn fits_refusal(refusal: Refusal) -> bool
    ensures { IsTrue result ↔ FitsRefusal refusal }
{
    match refusal {
        Refusal::MultiPending => false,
        Refusal::DiskFault { lock } => fits_lock(lock),
        _ => true,
    }
}

/// Whether a command of this kind can be answered so.
pub fn fits_reply(kind: Kind, reply: &Reply) -> bool
    ensures { IsTrue result ↔ FitsReply kind reply.now }
{
    match reply {
        Reply::Done => kind == Kind::Plain,
        Reply::Wrote { ids, .. } => {
            ids_fit(ids.items());
            kind == Kind::Ids
        }
        Reply::Snapped { lists } => {
            snapshot_fits(lists);
            kind == Kind::Snapshot
        }
        Reply::Seen { .. } => kind == Kind::Look,
        Reply::Known { .. } => kind == Kind::Status,
        Reply::Did { .. } => kind == Kind::Did,
        Reply::Multi { multi, offset, .. } => {
            multi_fits(*multi);
            number_fits(*offset);
            kind == Kind::Multi
        }
        Reply::Verdicts { verdicts } => {
            verdicts_fit(verdicts);
            kind == Kind::Members
        }
        Reply::Horizon { oldest_xmin } => {
            id_fits(*oldest_xmin);
            kind == Kind::Horizon
        }
        Reply::Refused { refusal } => fits_refusal(*refusal),
        _ => false,
    }
}

fn fits_checkpoint_refusal(refusal: &Refusal) -> bool
    ensures { IsTrue result ↔ FitsCheckpointRefusal refusal.now }
{
    match refusal {
        Refusal::LogDown { at } => {
            number_fits(*at);
            true
        }
        Refusal::LogFault => true,
        Refusal::DiskFault { lock } => fits_lock(*lock),
        Refusal::Full => true,
        Refusal::Memory => true,
        _ => false,
    }
}

fn is_pending(refusal: &Refusal) -> bool
    ensures { IsTrue result ↔ IsPending refusal.now }
{
    match refusal {
        Refusal::CommitPending => true,
        Refusal::MultiPending => true,
        _ => false,
    }
}

/// Whether a checkpoint can be answered so.
pub fn fits_checkpoint_reply(names: &NameList, reply: &Reply) -> bool
    ensures { IsTrue result ↔ FitsCheckpointReply names.now reply.now }
{
    match reply {
        Reply::Done => true,
        Reply::Pending { session, refusal } => {
            (*session as usize) < names.items().len() && is_pending(refusal)
        }
        Reply::Refused { refusal } => fits_checkpoint_refusal(refusal),
        _ => false,
    }
}

fn fits_dump_refusal(refusal: &Refusal) -> bool
    ensures { IsTrue result ↔ FitsDumpRefusal refusal.now }
{
    match refusal {
        Refusal::DiskFault { lock } => fits_lock(*lock),
        Refusal::LogFault => true,
        _ => false,
    }
}

/// Whether a dump can be answered so.
pub fn fits_dump_reply(reply: &Reply) -> bool
    ensures { IsTrue result ↔ FitsDumpReply reply.now }
{
    match reply {
        Reply::Bytes { bytes } => {
            bytes_fit(bytes);
            true
        }
        Reply::Cut { cutoff } => {
            let _cutoff = *cutoff;
            true
        }
        Reply::Refused { refusal } => fits_dump_refusal(refusal),
        _ => false,
    }
}
