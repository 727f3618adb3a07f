// The parts of an engine whose life begins, over a log that is begun and the volumes of its banks.
ghost use Rattle.std.specs.Prelude.{◌≡◌, ◌+◌, ◌*◌, ◌≤◌, ◌<◌, ◌++◌, ◌∷◌, ℕ, [], false, IfErr, IfOk, IsTrue, OnErr, OnOk, drop, length, map, remove, vec_capacity};
ghost use Rattle.wal_core.specs.LogViews.{log_disk, log_end};
ghost use Rattle.engine_parts.specs.Sessions.{AreGivenBefore};
ghost use Rattle.engine_host.specs.Counted.{CountsBank, HaveCounted};
ghost use Rattle.engine_host.specs.Opening.{AreNew, AreParts, Beginning, IsBegunLog, IsCluster, ShowBeginning, faults_behind, gate_behind, life_from, new_life};
ghost use Rattle.engine_host.specs.declared.refusal.OpenRefusal.TheVariants as refusals;
ghost use Rattle.engine_host.specs.Refused.{HaveDisks, IsBankRefusal};
ghost use Rattle.engine_host.specs.Stores.{HaveEach, Store, banks_of, disks_in, volumes_in};

use crate::cluster::{BankVolumes, Cluster, Parts};
use crate::pairs::{open_multis, open_states};
use crate::refusal::OpenRefusal;
use crate::volumes::{bank_volumes, put_back};
use disk_core::{LogDisk, PageDisk, Volumes};
use engine_parts::Part;
use multi_store::MultiGen;
use notes::Note;
use proc_table::ProcTable;
use slru_bank::BankRooms;
use std::alloc::Global;
use tx_core::Start;
use wal_core::WalLog;

// The parts behind the locks from 1 on that have no bank.
pub(crate) fn first_locks<L: LogDisk, P: PageDisk>(
    alloc: Global,
    cluster: &Cluster,
) -> Result<Vec<Part<L, P>>, OpenRefusal>
    ghost begins: { Beginning }
    requires { IsCluster cluster.now }
    ensures count { IfOk result (λ locks. length locks.items ≡ 2) }
    ensures disks { IfOk result (λ locks. HaveDisks 0 locks.items) }
    ensures room { IfOk result (λ locks. 3 + 4 * cluster.now.banks ≤ vec_capacity locks) }
    ensures stand { IfOk result (λ locks. AreNew cluster.now begins 1 locks.items) }
    ensures refused { IfErr result (λ refusal. refusal ≡ refusals.Memory) }
{
    let Ok(table) = ProcTable::new(alloc, cluster.base, cluster.sessions) else {
        return Err(OpenRefusal::Memory);
    };
    let Ok(table) = Box::new(alloc, table) else {
        return Err(OpenRefusal::Memory);
    };
    let Ok(multis) = Box::new(alloc, MultiGen::new(alloc, cluster.base)) else {
        return Err(OpenRefusal::Memory);
    };
    let Ok(mut locks) = Vec::with_capacity(alloc, 3 + 4 * cluster.banks as usize) else {
        return Err(OpenRefusal::Memory);
    };
    locks.push_reserved(Part::Proc(table));
    locks.push_reserved(Part::Multi(multis));
    Ok(locks)
}

// Adds the parts of one bank, over the first volumes that are left. In a new cluster their pages are removed. After an
// error these are back in their place.
fn add_bank<L: LogDisk, P: PageDisk + Drop>(
    rooms: &mut BankRooms,
    locks: &mut Vec<Part<L, P>>,
    volumes: &mut BankVolumes<P>,
    cluster: &Cluster,
    bank: u32,
    removes: bool,
) -> Result<(), OpenRefusal>
    ghost begins: { Beginning }
    requires cluster { IsCluster cluster.now }
    requires inside { bank < cluster.now.banks }
    requires volumes { (k : Store) → 0 < length (volumes_in k volumes.old).items }
    requires count { length locks.old.items ≡ 2 + 4 * bank }
    requires disks { HaveDisks bank locks.old.items }
    requires room { 3 + 4 * cluster.now.banks ≤ vec_capacity locks.old }
    requires stand { AreNew cluster.now begins 1 locks.old.items }
    requires shown { IsTrue P.tells → ShowBeginning P.PageDisk cluster.now begins removes bank volumes.old }
    ensures taken { OnOk result ((k : Store) → (volumes_in k volumes.new).items ≡ remove (volumes_in k volumes.old).items 0) }
    ensures count { OnOk result (length locks.new.items ≡ 2 + 4 * (bank + 1)) }
    ensures disks { OnOk result (HaveDisks (bank + 1) locks.new.items) }
    ensures room { OnOk result (vec_capacity locks.new ≡ vec_capacity locks.old) }
    ensures stand { OnOk result (AreNew cluster.now begins 1 locks.new.items) }
    ensures counted { OnOk result (CountsBank volumes.old locks.old.items locks.new.items) }
    ensures capacity { (k : Store) → vec_capacity (volumes_in k volumes.new) ≡ vec_capacity (volumes_in k volumes.old) }
    ensures same { OnErr result (locks.new.items ≡ locks.old.items) }
    ensures back { OnErr result ((k : Store) → length (volumes_in k volumes.new).items ≡ length (volumes_in k volumes.old).items) }
    // Where nothing is removed the volumes stay as they are, of whatever bank.
    ensures kept { removes ≡ false → (k : Store) → disks_in k locks.new.items ++ (volumes_in k volumes.new).items
        ≡ disks_in k locks.old.items ++ (volumes_in k volumes.old).items }
    ensures refused { IfErr result (λ refusal. IsBankRefusal P.PageDisk bank (λ k. (volumes_in k volumes.old).items) (λ k. (volumes_in k volumes.new).items) refusal) }
{
    let (states, parents) = match open_states(
        rooms,
        &mut volumes.xact,
        &mut volumes.subtrans,
        cluster,
        bank,
        removes,
    ) {
        Ok(banks) => banks,
        Err(refusal) => return Err(refusal),
    };
    match open_multis(
        rooms,
        &mut volumes.offsets,
        &mut volumes.members,
        cluster,
        bank,
        removes,
    ) {
        Ok((offsets, members)) => {
            locks.push_reserved(Part::Xact(states));
            locks.push_reserved(Part::Subtrans(parents));
            locks.push_reserved(Part::Offsets(offsets));
            locks.push_reserved(Part::Members(members));
            Ok(())
        }
        Err(refusal) => {
            put_back(&mut volumes.subtrans, parents.into_inner().into_disk());
            put_back(&mut volumes.xact, states.into_inner().into_disk());
            Err(refusal)
        }
    }
}

// Adds those of all banks. In a new cluster their pages are removed. After an error the volumes of the banks that
// weren't added are left.
pub(crate) fn add_banks<L: LogDisk, P: PageDisk + Drop>(
    rooms: &mut BankRooms,
    locks: &mut Vec<Part<L, P>>,
    volumes: &mut BankVolumes<P>,
    cluster: &Cluster,
    removes: bool,
) -> Result<(), OpenRefusal>
    ghost begins: { Beginning }
    requires cluster { IsCluster cluster.now }
    requires volumes { HaveEach cluster.now.banks volumes.old }
    requires count { length locks.old.items ≡ 2 }
    requires disks { HaveDisks 0 locks.old.items }
    requires room { 3 + 4 * cluster.now.banks ≤ vec_capacity locks.old }
    requires stand { AreNew cluster.now begins 1 locks.old.items }
    requires shown { IsTrue P.tells → ShowBeginning P.PageDisk cluster.now begins removes 0 volumes.old }
    ensures count { OnOk result (length locks.new.items ≡ 2 + 4 * cluster.now.banks) }
    ensures room { OnOk result (vec_capacity locks.new ≡ vec_capacity locks.old) }
    ensures stand { OnOk result (AreNew cluster.now begins 1 locks.new.items) }
    ensures counted { OnOk result (HaveCounted cluster.now.banks volumes.old locks.new.items) }
    ensures capacity { (k : Store) → vec_capacity (volumes_in k volumes.new) ≡ vec_capacity (volumes_in k volumes.old) }
    ensures back { (k : Store) → length (disks_in k locks.new.items) + length (volumes_in k volumes.new).items ≡ cluster.now.banks }
    ensures kept { removes ≡ false → (k : Store) → disks_in k locks.new.items ++ (volumes_in k volumes.new).items
        ≡ disks_in k locks.old.items ++ (volumes_in k volumes.old).items }
    ensures refused { IfErr result (λ refusal. (bank : ℕ) × HaveDisks bank locks.new.items
        × IsBankRefusal P.PageDisk bank (λ k. drop bank (volumes_in k volumes.old).items) (λ k. (volumes_in k volumes.new).items) refusal) }
{
    for bank in 0..cluster.banks {
        add_bank(rooms, locks, volumes, cluster, bank, removes)?;
    }
    Ok(())
}

// The volumes of an engine that wasn't opened.
pub(crate) fn taken_apart<L: LogDisk + Drop, P: PageDisk + Drop>(
    rooms: &mut BankRooms,
    log: Box<WalLog<L>>,
    locks: Vec<Part<L, P>>,
    volumes: BankVolumes<P>,
) -> Volumes<L, P>
    requires room { (k : Store) → length (disks_in k locks.items) + length (volumes_in k volumes).items ≤ vec_capacity (volumes_in k volumes) }
    ensures log { result.log ≡ log_disk log.value }
    ensures volumes { (k : Store) → (volumes_in k (banks_of result)).items ≡ disks_in k locks.items ++ (volumes_in k volumes).items }
{
    let mut locks = locks;
    let volumes = bank_volumes(rooms, &mut locks, 0, volumes);
    locks.destroy_empty();
    with_log(Box::into_inner(log).into_disk(), volumes)
}

// A log's volume with those of the banks.
pub(crate) fn with_log<L: Drop, P: Drop>(log: L, volumes: BankVolumes<P>) -> Volumes<L, P>
    ensures log { result.log ≡ log }
    ensures volumes { banks_of result ≡ volumes }
{
    let BankVolumes {
        xact,
        subtrans,
        offsets,
        members,
    } = volumes;
    Volumes {
        log,
        xact,
        subtrans,
        offsets,
        members,
    }
}

// Parts of which the life isn't told yet.
struct Built<L: LogDisk, P: PageDisk> {
    cluster: Cluster,
    locks: Vec<Part<L, P>>,
}

// What the life starts from.
fn life_note<L: LogDisk, P: PageDisk>(built: &Built<L, P>) -> Note<Start>
    ghost begins: { Beginning }
    ensures { result.value ≡ new_life built.now.cluster begins built.now.locks.items }
{
    Note::by(built)
}

// The parts of an engine whose log is begun.
pub(crate) fn gather<L: LogDisk, P: PageDisk>(
    cluster: Cluster,
    log: Box<WalLog<L>>,
    locks: Vec<Part<L, P>>,
) -> Parts<L, P>
    ghost begins: { Beginning }
    requires cluster { IsCluster cluster }
    requires before { AreGivenBefore (life_from cluster begins []) }
    requires log { IsBegunLog cluster begins log.value }
    requires count { length locks.items ≡ 2 + 4 * cluster.banks }
    requires room { 3 + 4 * cluster.banks ≤ vec_capacity locks }
    requires stand { AreNew cluster begins 1 locks.items }
    ensures cluster { result.cluster ≡ cluster }
    ensures parts { AreParts result }
    ensures start { result.start.value ≡ new_life cluster begins result.locks.items }
    ensures faults { map faults_behind result.locks.items ≡ L.faults (log_disk log.value) ∷ map faults_behind locks.items }
    ensures end { gate_behind result.locks.items ≡ log_end log.value }
{
    let mut locks = locks;
    let inserted = locks.insert(0, Part::Log(log));
    let Ok(()) = inserted else { unreachable!() };
    let built = Built { cluster, locks };
    let start = life_note(&built);
    let Built { cluster, locks } = built;
    Parts {
        cluster,
        locks,
        start,
    }
}
