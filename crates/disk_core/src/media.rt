//! Where volumes lie between two lives of the program.
ghost use Rattle.std.specs.Prelude.{◌≡◌, ◌≤◌, ℕ, Bool, IsTrue, IfOk, OnOk, OnErr, false};
ghost use Rattle.disk_core.specs.Faults.{CountsFault};
ghost use Rattle.disk_core.specs.Images.{NoMore, Only};
ghost use Rattle.disk_core.specs.declared.media.Crash.{Crash};
ghost use Rattle.disk_core.specs.declared.media.Volumes.{Volumes};
ghost use Rattle.disk_core.specs.Media.{HasBanks, HaveSameBanks, CountsMount, LogCrashed, PagesCrashed, AllCrashed};

use crate::log_disk::{Failed, LogDisk};
use crate::page_disk::PageDisk;

/// What becomes of what was written and not synced.
#[derive(Clone, Copy, Debug, PartialEq, Eq)]
pub enum Crash {
    Lost,
    Kept,
    Torn,
}

/// Why nothing was mounted.
#[derive(Clone, Copy, Debug, PartialEq, Eq)]
pub enum MountRefusal {
    Failed,
    Memory,
}

/// The volumes of a mounted media: one log, and a page volume for each bank of each store.
#[derive(Drop)]
pub struct Volumes<L, P> {
    pub log: L,
    pub xact: Vec<P>,
    pub subtrans: Vec<P>,
    pub offsets: Vec<P>,
    pub members: Vec<P>,
}

/// A volume, by its bank where there are several of its kind.
#[derive(Clone, Copy, Debug, PartialEq, Eq)]
pub enum Which {
    Log,
    Xact(u32),
    Subtrans(u32),
    Offsets(u32),
    Members(u32),
}

/// Where volumes lie between two mounts.
pub trait Media {
    type Log: LogDisk + Send + Drop;

    type Pages: PageDisk + Send + Drop;

    /// Nothing is mounted.
    ghost is_idle: { Self → Bool };

    /// Nothing was ever given back to it.
    ghost is_new: { Self → Bool };

    /// The volumes that the first mount of so many banks may give, while it is new.
    ghost begins: { Self → ℕ → Volumes Self.Log Self.Pages → Type 0 };

    /// The volumes that the next mount may give, if it isn't new.
    ghost gives: { Self → Volumes Self.Log Self.Pages → Type 0 };

    /// What a crash of this kind makes of volumes, where it is done.
    ghost falls: { Crash → Volumes Self.Log Self.Pages → Volumes Self.Log Self.Pages → Type 0 };

    /// How often the media has failed.
    ghost faults: { Self → ℕ };

    /// Gives the volumes back that it has, whatever `banks` says. A new media gives so many banks.
    fn mount(&mut self, banks: u32) -> Result<Volumes<Self::Log, Self::Pages>, MountRefusal>
        requires idle { IsTrue (is_idle self.old) }
        requires some { 1 ≤ banks }
        requires few { banks ≤ 16 }
        ensures again { is_new self.old ≡ false → IfOk result (gives self.old) }
        ensures first { IsTrue (is_new self.old) → IfOk result (HasBanks banks) }
        ensures begins { IsTrue (is_new self.old) → IfOk result (begins self.old banks) }
        ensures mounted { OnOk result (is_idle self.new ≡ false) }
        ensures idle { OnErr result (IsTrue (is_idle self.new)) }
        ensures kept { OnErr result (is_new self.old ≡ false → (is_new self.new ≡ false) × NoMore (gives self.old) (gives self.new)) }
        ensures cause { CountsMount result (faults self.old) (faults self.new) };

    /// What a crash makes of the volumes, of which the log tells what it holds if the pages do. After an `Err` they are as
    /// many, and it isn't said what they hold.
    fn crash(&mut self, volumes: Volumes<Self::Log, Self::Pages>, how: Crash) -> Result<(), Failed>
        ensures idle { IsTrue (is_idle self.new) }
        ensures old { is_new self.new ≡ false }
        ensures left { IsTrue Self.Log.tells → IsTrue Self.Pages.tells → OnOk result ((next : Volumes Self.Log Self.Pages) → gives self.new next
            → AllCrashed (LogCrashed Self.Log.reads Self.Log.images Self.Log.faults) (PagesCrashed Self.Pages.pages Self.Pages.images Self.Pages.faults) volumes next) }
        ensures fell { OnOk result ((next : Volumes Self.Log Self.Pages) → gives self.new next → falls how volumes next) }
        ensures banks { (next : Volumes Self.Log Self.Pages) → gives self.new next → HaveSameBanks volumes next }
        ensures tells { OnOk result (IsTrue Self.Pages.tells → IsTrue Self.Log.tells) }
        ensures cause { CountsFault result (faults self.old) (faults self.new) };

    /// Takes the volumes back unchanged.
    fn rest(&mut self, volumes: Volumes<Self::Log, Self::Pages>)
        ensures idle { IsTrue (is_idle self.new) }
        ensures old { is_new self.new ≡ false }
        ensures same { Only volumes (gives self.new) }
        ensures faults { faults self.new ≡ faults self.old };
}
