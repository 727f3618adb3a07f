//! A life that runs.
ghost use Rattle.std.specs.Prelude.{◌≡◌, ◌≤◌, [], vec_capacity};
ghost use Rattle.engine_host.specs.Stores.{Store, volumes_in};

use disk_core::{LogDisk, PageDisk};
use engine_host::{BankVolumes, Host};
use engine_parts::EngineLaw;
use hall::Hall;

/// Room to put the volumes of the banks into when an engine is taken apart.
#[derive(Drop)]
pub struct Aside<P> {
    pub(crate) room: BankVolumes<P>,
    ghost empty: { (k : Store) → (volumes_in k room).items ≡ [] },
    ghost many: { (k : Store) → 67 ≤ vec_capacity (volumes_in k room) },
}

/// A life: its lock table with the host, and room for its volumes.
pub struct OpenLife<L: LogDisk, P: PageDisk> {
    pub hall: Hall<EngineLaw<L, P>>,
    pub host: Host<L, P>,
    pub aside: Aside<P>,
}
