//! The volumes of parts that are taken apart.
ghost use Rattle.std.specs.Prelude.{◌≡◌, ◌+◌, ◌<◌, ◌≤◌, ◌++◌, ◌∷◌, [], Some, length, reverse, slice_get, take, vec_capacity};
ghost use Rattle.engine_parts.specs.declared.part.Part.TheVariants as parts;
ghost use Rattle.engine_host.specs.Refused.{AreInPlace};
ghost use Rattle.engine_host.specs.Stores.{Store, disks_in, volumes_in};

use crate::cluster::BankVolumes;
use crate::rooms::LifeRooms;
use disk_core::{LogDisk, PageDisk};
use engine_parts::Part;
use multi_store::MultiGen;
use proc_table::ProcTable;
use slru_bank::BankRooms;
use wal_core::WalLog;

/// The parts of an engine, taken apart: its log, its ProcArray, its generator of multixacts, and the volumes of its
/// banks, in their order.
pub struct TakenApart<L: LogDisk, P: PageDisk> {
    pub log: Box<WalLog<L>>,
    pub table: Box<ProcTable>,
    pub multis: Box<MultiGen>,
    pub volumes: BankVolumes<P>,
}

// Puts a volume back as the first one.
pub(crate) fn put_back<P: PageDisk + Drop>(volumes: &mut Vec<P>, disk: P)
    requires room { length volumes.old.items < vec_capacity volumes.old }
    ensures items { volumes.new.items ≡ disk ∷ volumes.old.items }
    ensures capacity { vec_capacity volumes.new ≡ vec_capacity volumes.old }
{
    let inserted = volumes.insert(0, disk);
    let Ok(()) = inserted else { unreachable!() };
}

// Puts a volume behind the others, which lie the other way round.
fn put_behind<P: PageDisk + Drop>(volumes: &mut Vec<P>, disk: P)
    requires room { length volumes.old.items < vec_capacity volumes.old }
    ensures items { reverse volumes.new.items ≡ disk ∷ reverse volumes.old.items }
    ensures count { length volumes.new.items ≡ length volumes.old.items + 1 }
    ensures capacity { vec_capacity volumes.new ≡ vec_capacity volumes.old }
{
    volumes.push_reserved(disk);
}

// Turns the volumes of each store round.
fn turn_round<P: PageDisk>(volumes: &mut BankVolumes<P>)
    ensures items { (k : Store) → (volumes_in k volumes.new).items ≡ reverse (volumes_in k volumes.old).items }
    ensures capacity { (k : Store) → vec_capacity (volumes_in k volumes.new) ≡ vec_capacity (volumes_in k volumes.old) }
{
    volumes.xact.reverse();
    volumes.subtrans.reverse();
    volumes.offsets.reverse();
    volumes.members.reverse();
}

// Takes the parts behind so many first ones apart, and puts the volumes of their banks, in their order, before these.
// The volume of a log is dropped. The last part comes first, so the volumes lie the other way round meanwhile.
#[inline(always)]
pub(crate) fn bank_volumes<L: LogDisk + Drop, P: PageDisk + Drop>(
    rooms: &mut BankRooms,
    locks: &mut Vec<Part<L, P>>,
    first: usize,
    volumes: BankVolumes<P>,
) -> BankVolumes<P>
    requires room { (k : Store) → length (disks_in k locks.old.items) + length (volumes_in k volumes).items ≤ vec_capacity (volumes_in k volumes) }
    ensures left { locks.new.items ≡ take first locks.old.items }
    ensures volumes { (k : Store) → disks_in k locks.new.items ++ (volumes_in k result).items
        ≡ disks_in k locks.old.items ++ (volumes_in k volumes).items }
{
    let mut volumes = volumes;
    turn_round(&mut volumes);
    'parts: while locks.len() > first {
        let Some(part) = locks.pop() else {
            unreachable!()
        };
        match part {
            Part::Xact(store) => put_behind(&mut volumes.xact, rooms.keep(store.into_inner())),
            Part::Subtrans(store) => put_behind(
                &mut volumes.subtrans,
                rooms.keep(store.into_inner()),
            ),
            Part::Offsets(store) => put_behind(
                &mut volumes.offsets,
                rooms.keep(store.into_inner()),
            ),
            Part::Members(store) => put_behind(
                &mut volumes.members,
                rooms.keep(store.into_inner()),
            ),
            Part::Log(_log) => {}
            Part::Proc(_table) => {}
            Part::Multi(_gen) => {}
        }
    }
    turn_round(&mut volumes);
    volumes
}

/// Takes the parts apart that lie behind an engine's locks, in the order of these. What isn't on the volumes yet is
/// lost. The vectors of volumes are empty, and have room for as many as there are locks.
#[inline(always)]
pub fn take_apart<L: LogDisk + Drop, P: PageDisk + Drop>(
    rooms: &mut LifeRooms<P>,
    locks: Vec<Part<L, P>>,
    room: BankVolumes<P>,
) -> TakenApart<L, P>
    requires count { 3 ≤ length locks.items }
    requires stand { AreInPlace locks.items }
    requires empty { (k : Store) → (volumes_in k room).items ≡ [] }
    requires room { (k : Store) → length locks.items ≤ vec_capacity (volumes_in k room) }
    ensures log { slice_get locks.items 0 ≡ Some (parts.Log result.log) }
    ensures table { slice_get locks.items 1 ≡ Some (parts.Proc result.table) }
    ensures multis { slice_get locks.items 2 ≡ Some (parts.Multi result.multis) }
    ensures volumes { (k : Store) → (volumes_in k result.volumes).items ≡ disks_in k locks.items }
{
    let mut locks = locks;
    let volumes = bank_volumes(&mut rooms.banks, &mut locks, 3, room);
    let Some(third) = locks.pop() else {
        unreachable!()
    };
    let Part::Multi(multis) = third else {
        unreachable!()
    };
    let Some(second) = locks.pop() else {
        unreachable!()
    };
    let Part::Proc(table) = second else {
        unreachable!()
    };
    let Some(first) = locks.pop() else {
        unreachable!()
    };
    let Part::Log(log) = first else {
        unreachable!()
    };
    locks.destroy_empty();
    TakenApart {
        log,
        table,
        multis,
        volumes,
    }
}
