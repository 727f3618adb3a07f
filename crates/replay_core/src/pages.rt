// The pages of all stores, as the log gives them.
ghost use Rattle.std.specs.Prelude.{◌+◌, ◌<◌};
ghost use Rattle.tx_events.specs.LifeBase.{committed_in};
ghost use Rattle.replay_core.specs.PageVolumes.{AreFew, RestoresPages};
ghost use Rattle.replay_core.specs.Redo.{AreNear};
ghost use Rattle.replay_core.specs.Restore.{IsWindow};
ghost use Rattle.replay_core.specs.Spans.{AreMultisInReach};

use crate::banks::{empty_all, restore_all_members, restore_all_offsets, restore_all_states};
use crate::refusal::RecoverRefusal;
use crate::spans::{member_span, offset_span};
use crate::volumes::PageVolumes;
use disk_core::PageDisk;
use slru_bank::BankRooms;
use tx_events::{Counters, Rec};

/// The pages of pg_xact, of the offsets and of the members are restored, bank by bank, and pg_subtrans is emptied.
pub(crate) fn restore_pages<P: PageDisk + Drop>(
    rooms: &mut BankRooms,
    volumes: &mut PageVolumes<P>,
    recs: &[Rec],
    base: &Counters,
) -> Result<(), RecoverRefusal>
    requires few { AreFew volumes.old }
    requires near { AreNear base.now.oldest (committed_in recs.now) }
    requires window { IsWindow base.now.oldest base.now.next }
    requires multis { AreMultisInReach recs.now base.now }
    ensures { RestoresPages P.PageDisk recs.now base.now volumes.old volumes.new result }
{
    restore_all_states(rooms, &mut volumes.xact, recs, base)?;
    let offsets = offset_span(recs, base);
    restore_all_offsets(rooms, &mut volumes.offsets, recs, &offsets)?;
    let members = member_span(recs, base);
    restore_all_members(rooms, &mut volumes.members, recs, &members)?;
    empty_all(rooms, &mut volumes.subtrans, base)
}
