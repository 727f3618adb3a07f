//! A look back for an event of a command or an earlier one.
ghost use Rattle.std.specs.Prelude.{◌≡◌, ◌+◌, ◌<◌, ◌≤◌, Some, length, slice_get};
ghost use Rattle.place_columns.specs.declared.own.Own.{Own};
ghost use Rattle.turn_links.specs.Links.{AreLinks, AreSkipped, IsLastUpto, IsLink};

use place_columns::Own;

/// Where a look back from an event may go on that seeks one of an earlier command. It stands before the first `near` of
/// its session's events, or the first `far`.
#[derive(Clone, Copy, Debug, PartialEq, Eq)]
pub struct Link {
    /// None from there up to the event is of an earlier command than it.
    pub near: u32,
    /// None from there up to the event is of an earlier command than the one right before, if there is one.
    pub far: u32,
    /// How many steps by `near` lead to the front. By it the steps by `far` double.
    pub depth: u32,
}

/// Where a look back goes on for a command that is earlier than the event's, whose number and link these are.
fn skipped(own: &[Own], place: usize, link: Link, command: u64) -> usize
    requires within { place < length own.now }
    requires link { IsLink own.now place link }
    requires later { (o : Own) → slice_get own.now place ≡ Some o → command < o.command }
    ensures before { result ≤ place }
    ensures skipped { AreSkipped own.now command result (place + 1) }
{
    let far = link.far as usize;
    if far > 0 && own[far - 1].command > command {
        return far;
    }
    link.near as usize
}

/// How many of the first `end` events stand up to the last one of them that is of this command or an earlier one; 0 where
/// none is.
pub fn last_upto(own: &[Own], links: &[Link], end: usize, command: u64) -> usize
    requires links { AreLinks own.now links.now }
    requires within { end ≤ length links.now }
    ensures { IsLastUpto own.now command end result }
{
    let mut back = end;
    while back > 0 {
        let place = back - 1;
        if own[place].command <= command {
            return back;
        }
        back = skipped(own, place, links[place], command);
    }
    0
}
