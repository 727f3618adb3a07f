// A batch on the disk (after XLogWrite and issue_xlog_fsync in src/backend/access/transam/xlog.c).
ghost use Rattle.std.specs.Prelude.{◌≡◌, ◌+◌, ◌<◌, ◌^◌, ◌++◌, ◌∷◌, [], ℕ, length, slice_index, IsTrue, OnOk};
ghost use Rattle.disk_core.specs.Faults.{CountsFault};
ghost use Rattle.disk_core.specs.Images.{Only, Follows, LeavesOnly};
ghost use Rattle.disk_core.specs.Volume.{Volume, Wrote, overlaid};
ghost use Rattle.wal_core.specs.Opening.{walked, AtRest, body_in, IsBehindGate};
ghost use Rattle.wal_core.specs.Crash.{IsFromImage, IsWritten};

use disk_core::{Failed, LogDisk};

// Writes bytes, and syncs: until the sync a crash may leave any bytes where they stand.
pub(crate) fn write_and_sync<D: LogDisk>(disk: &mut D, at: u64, from: &[u8]) -> Result<(), Failed>
    ensures bytes { IsTrue D.tells → OnOk result ((D.reads disk.new).bytes ≡ overlaid (D.reads disk.old).bytes at from.now) }
    ensures start { IsTrue D.tells → (D.reads disk.new).start ≡ (D.reads disk.old).start }
    ensures synced { IsTrue D.tells → OnOk result (Only (D.reads disk.new) (D.images disk.new)) }
    ensures any_moment { IsTrue D.tells → LeavesOnly D.moment D.left_at disk.old disk.new (IsWritten (D.images disk.old) at (length from.now)) }
    ensures left { IsTrue D.tells → Follows (Wrote at (length from.now)) (D.images disk.old) (D.images disk.new) }
    ensures cause { CountsFault result (D.faults disk.old) (D.faults disk.new) }
{
    disk.write_at(at, from)?;
    disk.sync()
}

// Puts a batch behind the closed gate, and opens the gate once the batch is on the disk. Each has a sync of its own: with
// one for both a crash might leave the gate open and half of the batch behind it. While only the gate is in doubt, any
// value of its byte is open or closed, and so the batch is there as a whole or not at all.
pub(crate) fn write_batch<D: LogDisk>(disk: &mut D, gate: u64, behind: &[u8]) -> Result<(), Failed>
    requires gate { gate < 2 ^ 63 }
    requires behind { IsBehindGate behind.now }
    requires at_rest { IsTrue D.tells → (c : Volume) → D.images disk.old c → AtRest c (walked c).bodies gate }

    ensures written { IsTrue D.tells → OnOk result (AtRest (D.reads disk.new) ((walked (D.reads disk.old)).bodies ++ body_in behind.now ∷ []) (gate + length behind.now)) }
    ensures closed { IsTrue D.tells → OnOk result (slice_index (D.reads disk.new).bytes (gate + length behind.now) ≡ 0) }
    ensures bytes { IsTrue D.tells → OnOk result ((D.reads disk.new).bytes ≡ overlaid (overlaid (D.reads disk.old).bytes (gate + 1) behind.now) gate (1 ∷ [])) }
    ensures synced { IsTrue D.tells → OnOk result (Only (D.reads disk.new) (D.images disk.new)) }

    // A crash at any moment, and one after it, leaves the batches of an image from before, with the new one or without.
    ensures any_moment { IsTrue D.tells → LeavesOnly D.moment D.left_at disk.old disk.new (IsFromImage (D.images disk.old) gate (body_in behind.now)) }
    ensures left { IsTrue D.tells → (c : Volume) → D.images disk.new c → IsFromImage (D.images disk.old) gate (body_in behind.now) c }

    ensures cause { CountsFault result (D.faults disk.old) (D.faults disk.new) }
{
    write_and_sync(disk, gate + 1, behind)?;
    write_and_sync(disk, gate, &[1])
}
