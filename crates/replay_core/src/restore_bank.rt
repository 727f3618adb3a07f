// A bank's pages show what a log gives.
ghost use Rattle.std.specs.Prelude.{◌≡◌, ◌≤◌};
ghost use Rattle.slru_bank.specs.Calls.{cutoff_of};
ghost use Rattle.store_pages.specs.Layouts.{xact_page_of};
ghost use Rattle.tx_events.specs.LifeBase.{committed_in};
ghost use Rattle.replay_core.specs.Redo.{AreNear, IsNamed};
ghost use Rattle.replay_core.specs.Restore.{IsWindow, RestoresBank};

use crate::redo::redo_records;
use disk_core::PageDisk;
use replay_multis::Share;
use slru_bank::{BankRefusal, SlruBank, trim_after};
use store_pages::XactPages;
use tx_events::{FullXid, Rec};

/// Redoes the commits, clears what lies past the next id, and puts all pages on the disk.
pub(crate) fn restore_bank<P: PageDisk>(
    bank: &mut SlruBank<P, XactPages>,
    recs: &[Rec],
    share: &Share,
    oldest: FullXid,
    next: FullXid,
) -> Result<(), BankRefusal>
    requires share { 1 ≤ share.now.banks }
    requires near { AreNear oldest (committed_in recs.now) }
    requires window { IsWindow oldest next }
    requires kept { cutoff_of bank.old ≡ xact_page_of oldest }
    ensures { RestoresBank (IsNamed share.now oldest (committed_in recs.now)) next bank.old bank.new result }
{
    redo_records(bank, recs, share, oldest)?;
    trim_after(bank, next)?;
    bank.flush_all()
}
