//! How many ids sessions have open.
ghost use Rattle.std.specs.Prelude.{◌≡◌, ◌<◌, ◌≤◌, length, map, take};
ghost use Rattle.tx_events.specs.Events.{by_of};
ghost use Rattle.tx_events.specs.History.{IsLegal};
ghost use Rattle.tx_events.specs.Running.{open_ids};
ghost use Rattle.place_columns.specs.Owned.{own_of};
ghost use Rattle.report_law.specs.Answers.{own_before};
ghost use Rattle.history_places.specs.Opens.{AreOpenCounts, LegalLife};

use place_columns::{Own, read_from};
use tx_events::By;

/// How many ids the command's session has open below it, by its events of earlier commands before this place. `own` are
/// its events, and `counts` has how many it had open behind each event. Takes a binary search.
pub fn open_before(own: &[Own], counts: &[u64], by: By, to: u64) -> u64
    ghost life: { LegalLife }
    requires listed { own.now ≡ own_of by.session (map by_of life.events) }
    requires legal { IsLegal life.base life.events }
    requires counts { AreOpenCounts life.events counts.now }
    requires within { to ≤ length life.events }
    ensures { result ≡ length (open_ids by.session (own_before by (take to life.events))) }
{
    if by.command == 0 {
        return 0;
    }
    let earlier = By {
        session: by.session,
        command: by.command - 1,
    };
    let end = read_from(own, earlier, to);
    if end == 0 {
        return 0;
    }
    counts[end as usize - 1]
}
