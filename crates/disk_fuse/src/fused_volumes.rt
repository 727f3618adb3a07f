//! The volumes of a fused media, wrapped and unwrapped.
ghost use Rattle.std.specs.Prelude.{◌≡◌, IfOk, IfErr, slice_get};
ghost use Rattle.disk_fuse.specs.FuseMedia.{is_log, xact_bank, subtrans_bank, offsets_bank, members_bank, fails_if, bank_fails, fails_in, IsFused, IsUnfused, HasRoomFor};

use crate::fused_banks::{fuse_banks, unfuse_banks};
use crate::{Fails, FusedLog, FusedPages};
use disk_core::{LogDisk, PageDisk, Volumes, Which};
use std::alloc::{AllocError, Global};

fn xact_at(at: Which) -> Option<u32>
    ensures { result ≡ xact_bank at }
{
    match at {
        Which::Xact(bank) => Some(bank),
        _ => None,
    }
}

fn subtrans_at(at: Which) -> Option<u32>
    ensures { result ≡ subtrans_bank at }
{
    match at {
        Which::Subtrans(bank) => Some(bank),
        _ => None,
    }
}

fn offsets_at(at: Which) -> Option<u32>
    ensures { result ≡ offsets_bank at }
{
    match at {
        Which::Offsets(bank) => Some(bank),
        _ => None,
    }
}

fn members_at(at: Which) -> Option<u32>
    ensures { result ≡ members_bank at }
{
    match at {
        Which::Members(bank) => Some(bank),
        _ => None,
    }
}

fn log_fails(at: Which, fails: Fails) -> Fails
    ensures { result ≡ fails_if (is_log at) fails }
{
    match at {
        Which::Log => fails,
        _ => Fails::Never,
    }
}

fn bank_fails<P: PageDisk>(banks: &[FusedPages<P>], bank: u32) -> Fails
    ensures { result ≡ bank_fails (slice_get banks.now bank) }
{
    match banks.get(bank as usize) {
        Some(bank) => bank.fails,
        None => Fails::Never,
    }
}

// Which calls of that volume fail.
pub(crate) fn fails_in<L: LogDisk, P: PageDisk>(
    volumes: &Volumes<FusedLog<L>, FusedPages<P>>,
    at: Which,
) -> Fails
    ensures { result ≡ fails_in at volumes.now }
{
    match at {
        Which::Log => volumes.log.fails,
        Which::Xact(bank) => bank_fails(&volumes.xact, bank),
        Which::Subtrans(bank) => bank_fails(&volumes.subtrans, bank),
        Which::Offsets(bank) => bank_fails(&volumes.offsets, bank),
        Which::Members(bank) => bank_fails(&volumes.members, bank),
    }
}

fn room_for<L, P, T: Drop>(
    alloc: Global,
    volumes: &Volumes<L, P>,
) -> Result<Volumes<(), T>, AllocError>
    ensures { IfOk result (HasRoomFor volumes.now) }
{
    Ok(Volumes {
        log: (),
        xact: Vec::with_capacity(alloc, volumes.xact.len())?,
        subtrans: Vec::with_capacity(alloc, volumes.subtrans.len())?,
        offsets: Vec::with_capacity(alloc, volumes.offsets.len())?,
        members: Vec::with_capacity(alloc, volumes.members.len())?,
    })
}

// For want of memory they come back as they were.
pub(crate) fn fuse_all<L: LogDisk + Drop, P: PageDisk + Drop>(
    alloc: Global,
    volumes: Volumes<L, P>,
    at: Which,
    fails: Fails,
    refused: &Volumes<u64, u64>,
) -> Result<Volumes<FusedLog<L>, FusedPages<P>>, Volumes<L, P>>
    ensures fused { IfOk result (IsFused at fails refused.now volumes) }
    ensures back { IfErr result (λ back. back ≡ volumes) }
{
    let Ok(room) = room_for(alloc, &volumes) else {
        return Err(volumes);
    };
    Ok(Volumes {
        log: FusedLog {
            inner: volumes.log,
            fails: log_fails(at, fails),
            refused: refused.log,
        },
        xact: fuse_banks(volumes.xact, room.xact, xact_at(at), fails, &refused.xact),
        subtrans: fuse_banks(
            volumes.subtrans,
            room.subtrans,
            subtrans_at(at),
            fails,
            &refused.subtrans,
        ),
        offsets: fuse_banks(
            volumes.offsets,
            room.offsets,
            offsets_at(at),
            fails,
            &refused.offsets,
        ),
        members: fuse_banks(
            volumes.members,
            room.members,
            members_at(at),
            fails,
            &refused.members,
        ),
    })
}

// For want of memory they come back as they were.
pub(crate) fn unfuse_all<L: LogDisk + Drop, P: PageDisk + Drop>(
    alloc: Global,
    volumes: Volumes<FusedLog<L>, FusedPages<P>>,
) -> Result<(Volumes<L, P>, Volumes<u64, u64>), Volumes<FusedLog<L>, FusedPages<P>>>
    ensures unfused { IfOk result (λ r. IsUnfused volumes r.0 r.1) }
    ensures back { IfErr result (λ back. back ≡ volumes) }
{
    let Ok(room) = room_for(alloc, &volumes) else {
        return Err(volumes);
    };
    let Ok(counts) = room_for(alloc, &volumes) else {
        return Err(volumes);
    };
    let FusedLog {
        inner: log,
        fails: _,
        refused: log_refused,
    } = volumes.log;
    let (xact, xact_refused) = unfuse_banks(volumes.xact, room.xact, counts.xact);
    let (subtrans, subtrans_refused) = unfuse_banks(
        volumes.subtrans,
        room.subtrans,
        counts.subtrans,
    );
    let (offsets, offsets_refused) = unfuse_banks(volumes.offsets, room.offsets, counts.offsets);
    let (members, members_refused) = unfuse_banks(volumes.members, room.members, counts.members);
    let inner = Volumes {
        log,
        xact,
        subtrans,
        offsets,
        members,
    };
    let refused = Volumes {
        log: log_refused,
        xact: xact_refused,
        subtrans: subtrans_refused,
        offsets: offsets_refused,
        members: members_refused,
    };
    Ok((inner, refused))
}
