//! From which place on a command may read.
ghost use Rattle.std.specs.Prelude.{◌≡◌, List, length, nat_lt};
ghost use Rattle.tx_events.specs.declared.event.By.{By};
ghost use Rattle.place_columns.specs.Owned.{IsReadFrom, own_of};
ghost use Rattle.turn_links.specs.Links.{AreLinks};

use crate::links::{Link, last_upto};
use place_columns::Own;
use tx_events::By;

/// Whether the event stands before this place.
fn is_before(own: Own, to: u64) -> bool
    ensures { result ≡ nat_lt own.place to }
{
    own.place < to
}

/// From which place on, up to `to`, a command may read, whatever the order of its session's events, these: behind the last
/// one before `to` that is of the command or an earlier one.
pub fn read_back(own: &[Own], links: &[Link], by: By, to: u64) -> u64
    ghost bys: { List By }
    requires listed { own.now ≡ own_of by.session bys }
    requires links { AreLinks own.now links.now }
    requires all { length links.now ≡ length own.now }
    ensures { IsReadFrom bys by to result }
{
    let end = own.partition_point(|o| is_before(*o, to));
    let count = last_upto(own, links, end, by.command);
    if count == 0 {
        return 0;
    }
    own[count - 1].place + 1
}
