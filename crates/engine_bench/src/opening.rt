//! A lock table over volumes in memory.
ghost use Rattle.std.specs.Prelude.{◌≡◌, ℕ, ◌<◌, ◌≤◌, [], IfSome};
ghost use Rattle.engine_host.specs.Hosts.{HoldsAllBut, IsHost, IsNewSession, IsParked};
ghost use Rattle.disk_core.specs.Media.{HasBanks};
ghost use Rattle.engine_host.specs.Opening.{AreParts, IsCluster, IsEmptyLog};
ghost use Rattle.engine_host.specs.Stores.{HaveEach};
ghost use Rattle.engine_parts.specs.declared.session.Session.{Session};

use disk_core::{Media, MemLog, MemMedia, MemPages, Volumes};
use engine_host::{BankVolumes, Cluster, Host, LifeRooms, Parts, close, make_table, open_new};
use engine_parts::{EngineLaw, Part};
use hall::Hall;
use replay_core::{FoundLog, find_log};
use std::alloc::Global;
use tx_events::Counters;
use wal_core::WalLog;

/// A new cluster of so many banks and sessions.
pub fn new_cluster(banks: u32, sessions: u32) -> Cluster
    requires banks { (1 ≤ banks) × (banks ≤ 16) }
    requires sessions { sessions ≤ 64 }
    ensures cluster { IsCluster result }
    ensures banks { result.banks ≡ banks }
    ensures sessions { result.sessions ≡ sessions }
{
    Cluster {
        base: Counters::of_new_log(),
        banks,
        sessions,
    }
}

/// Lets the parts of a lock table go. Answers how many events its history has.
fn let_go(parts: Parts<Box<MemLog>, Box<MemPages>>) -> u64 {
    let Parts {
        cluster: _,
        locks,
        start: _,
    } = parts;
    let mut locks = locks;
    let mut events = 0;
    while let Some(part) = locks.pop() {
        match part {
            Part::Proc(table) => events = table.events().len() as u64,
            Part::Log(_log) => {}
            Part::Multi(_multis) => {}
            Part::Xact(_store) => {}
            Part::Subtrans(_store) => {}
            Part::Offsets(_store) => {}
            Part::Members(_store) => {}
        }
    }
    locks.destroy_empty();
    events
}

/// Makes the lock table over parts. None for want of memory.
fn table_of(
    alloc: Global,
    parts: Parts<Box<MemLog>, Box<MemPages>>,
) -> Option<
    (
        Hall<EngineLaw<Box<MemLog>, Box<MemPages>>>,
        Host<Box<MemLog>, Box<MemPages>>,
    ),
>
    requires { AreParts parts }
    ensures host { IfSome result (λ r. IsHost r.0 r.1) }
    ensures cluster { IfSome result (λ r. r.1.cluster ≡ parts.cluster) }
    ensures names { IfSome result (λ r. HoldsAllBut r.1 []) }
    ensures parked { IfSome result (λ r. (n : ℕ) (s : Session) → n < r.1.cluster.sessions → IsNewSession s
        → IsParked r.0 r.1 n s) }
{
    match make_table(alloc, parts) {
        Ok(table) => Some(table),
        Err(parts) => {
            let_go(parts);
            None
        }
    }
}

/// Opens a lock table over a log without a record.
fn open_parts(
    alloc: Global,
    log: WalLog<Box<MemLog>>,
    volumes: BankVolumes<Box<MemPages>>,
    cluster: Cluster,
) -> Option<
    (
        Hall<EngineLaw<Box<MemLog>, Box<MemPages>>>,
        Host<Box<MemLog>, Box<MemPages>>,
    ),
>
    requires cluster { IsCluster cluster }
    requires volumes { HaveEach cluster.banks volumes }
    requires new { IsEmptyLog log }
    ensures host { IfSome result (λ r. IsHost r.0 r.1) }
    ensures cluster { IfSome result (λ r. r.1.cluster ≡ cluster) }
    ensures names { IfSome result (λ r. HoldsAllBut r.1 []) }
    ensures parked { IfSome result (λ r. (n : ℕ) (s : Session) → n < r.1.cluster.sessions → IsNewSession s
        → IsParked r.0 r.1 n s) }
{
    let mut rooms = LifeRooms::new(alloc);
    match open_new(alloc, &mut rooms, log, volumes, cluster) {
        Ok(parts) => table_of(alloc, parts),
        Err(_) => None,
    }
}

/// Opens a lock table over mounted volumes, if their log has no record.
fn open_mounted(
    alloc: Global,
    volumes: Volumes<Box<MemLog>, Box<MemPages>>,
    cluster: Cluster,
) -> Option<
    (
        Hall<EngineLaw<Box<MemLog>, Box<MemPages>>>,
        Host<Box<MemLog>, Box<MemPages>>,
    ),
>
    requires cluster { IsCluster cluster }
    requires banks { HasBanks cluster.banks volumes }
    ensures host { IfSome result (λ r. IsHost r.0 r.1) }
    ensures cluster { IfSome result (λ r. r.1.cluster ≡ cluster) }
    ensures names { IfSome result (λ r. HoldsAllBut r.1 []) }
    ensures parked { IfSome result (λ r. (n : ℕ) (s : Session) → n < r.1.cluster.sessions → IsNewSession s
        → IsParked r.0 r.1 n s) }
{
    let Volumes {
        log,
        xact,
        subtrans,
        offsets,
        members,
    } = volumes;
    let volumes = BankVolumes {
        xact,
        subtrans,
        offsets,
        members,
    };
    let found = match find_log(alloc, log) {
        Ok(found) => found,
        Err(_) => return None,
    };
    match found {
        FoundLog::New(log) => open_parts(alloc, log, volumes, cluster),
        FoundLog::Old(_) => None,
    }
}

/// Opens a new cluster's lock table, with its host.
pub fn open_table(
    alloc: Global,
    cluster: Cluster,
) -> Option<
    (
        Hall<EngineLaw<Box<MemLog>, Box<MemPages>>>,
        Host<Box<MemLog>, Box<MemPages>>,
    ),
>
    requires { IsCluster cluster }
    ensures host { IfSome result (λ r. IsHost r.0 r.1) }
    ensures cluster { IfSome result (λ r. r.1.cluster ≡ cluster) }
    ensures names { IfSome result (λ r. HoldsAllBut r.1 []) }
    ensures parked { IfSome result (λ r. (n : ℕ) (s : Session) → n < r.1.cluster.sessions → IsNewSession s
        → IsParked r.0 r.1 n s) }
{
    let mut media = MemMedia::new(alloc);
    match media.mount(cluster.banks) {
        Ok(volumes) => open_mounted(alloc, volumes, cluster),
        Err(_) => None,
    }
}

/// Closes a table whose sessions were all taken back. Answers how many events its history has.
pub fn close_table(
    hall: Hall<EngineLaw<Box<MemLog>, Box<MemPages>>>,
    host: Host<Box<MemLog>, Box<MemPages>>,
) -> u64
    requires host { IsHost hall host }
    requires all { HoldsAllBut host [] }
{
    let_go(close(hall, host))
}
