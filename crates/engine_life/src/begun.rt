//! What the openings of a life have in common.
ghost use Rattle.std.specs.Prelude.{◌≡◌, ◌≤◌, [], IfErr, IfOk, length, vec_capacity};
ghost use Rattle.tx_events.specs.Ids.{IsFullMulti};
ghost use Rattle.engine_host.specs.Opening.{AreParts};
ghost use Rattle.engine_host.specs.Refused.{AreInPlace};
ghost use Rattle.engine_host.specs.Stores.{banks_of};
ghost use Rattle.engine_life.specs.Lives.{IsBegun};
ghost use Rattle.engine_life.specs.declared.refusal.NoLife.TheVariants as no_lives;

use crate::life::{Aside, OpenLife};
use crate::refusal::NoLife;
use disk_core::{LogDisk, PageDisk, Volumes};
use engine_host::{BankVolumes, LifeRooms, Parts, TakenApart, close, make_table, take_apart};
use std::alloc::{AllocError, Global};
use tx_events::Counters;

// The most locks that an engine has: those of 16 banks.
const MOST_LOCKS: usize = 67;

// The volumes of parts that are taken apart.
fn volumes_of<L: LogDisk + Drop, P: PageDisk + Drop>(
    rooms: &mut LifeRooms<P>,
    parts: Parts<L, P>,
    aside: Aside<P>,
) -> Volumes<L, P>
    requires count { 3 ≤ length parts.locks.items }
    requires few { length parts.locks.items ≤ 67 }
    requires stand { AreInPlace parts.locks.items }
{
    let Parts {
        cluster: _,
        locks,
        start: _,
    } = parts;
    let Aside { room } = aside;
    let TakenApart {
        log,
        table: _,
        multis: _,
        volumes,
    } = take_apart(rooms, locks, room);
    with_log(Box::into_inner(log).into_disk(), volumes)
}

// The volumes of an engine, with its log's.
pub(crate) fn with_log<L, P>(log: L, volumes: BankVolumes<P>) -> Volumes<L, P>
    ensures log { result.log ≡ log }
    ensures banks { banks_of result ≡ volumes }
{
    let BankVolumes {
        xact,
        subtrans,
        offsets,
        members,
    } = volumes;
    Volumes {
        log,
        xact,
        subtrans,
        offsets,
        members,
    }
}

// Makes the lock table over parts that were made. The life lies behind a box, so that it isn't moved from call to call.
#[inline(always)]
pub(crate) fn begin_life<L: LogDisk + Drop, P: PageDisk + Drop>(
    alloc: Global,
    rooms: &mut LifeRooms<P>,
    parts: Parts<L, P>,
    aside: Aside<P>,
) -> Result<Box<OpenLife<L, P>>, (Volumes<L, P>, NoLife)>
    requires parts { AreParts parts }
    ensures life { IfOk result (λ life. IsBegun parts.cluster parts.start.value life.value) }
    ensures refused { IfErr result (λ e. e.1 ≡ no_lives.Memory) }
{
    let (hall, host) = match make_table(alloc, parts) {
        Ok(made) => made,
        Err(parts) => return Err((volumes_of(rooms, parts, aside), NoLife::Memory)),
    };
    match Box::new(alloc, OpenLife { hall, host, aside }) {
        Ok(life) => Ok(life),
        Err(lacking) => {
            let OpenLife { hall, host, aside } = lacking.value;
            let parts = close(hall, host);
            Err((volumes_of(rooms, parts, aside), NoLife::Memory))
        }
    }
}

// Room for the volumes of the banks of a store.
fn new_room<P>(alloc: Global) -> Result<Vec<P>, AllocError>
    ensures empty { IfOk result (λ room. room.items ≡ []) }
    ensures room { IfOk result (λ room. 67 ≤ vec_capacity room) }
{
    Vec::with_capacity(alloc, MOST_LOCKS)
}

// The same in a vector that an earlier life left, if it has the room.
fn room_in<P: Drop>(alloc: Global, left: Vec<P>) -> Result<Vec<P>, AllocError>
    ensures empty { IfOk result (λ room. room.items ≡ []) }
    ensures room { IfOk result (λ room. 67 ≤ vec_capacity room) }
{
    if left.is_empty() && left.capacity() >= MOST_LOCKS {
        return Ok(left);
    }
    new_room(alloc)
}

// Room for those of each store.
pub(crate) fn new_aside<P: Drop>(
    alloc: Global,
    rooms: &mut LifeRooms<P>,
) -> Result<Aside<P>, AllocError> {
    let left = rooms.take_vectors();
    let xact = room_in(alloc, left.xact)?;
    let subtrans = room_in(alloc, left.subtrans)?;
    let offsets = room_in(alloc, left.offsets)?;
    let members = room_in(alloc, left.members)?;
    let room = BankVolumes {
        xact,
        subtrans,
        offsets,
        members,
    };
    Ok(Aside { room })
}

// The next multixact of counters is one.
pub(crate) fn is_full_multi(base: &Counters)
    ensures { IsFullMulti base.now.multi }
{
    let _number = base.multi.number();
}
