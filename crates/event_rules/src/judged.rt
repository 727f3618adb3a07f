//! Where the events of lines stand, and whether they are theirs.
ghost use Rattle.std.specs.Prelude.{◌≡◌, ◌≤◌, ◌↔◌, IsTrue, length, take};
ghost use Rattle.std.specs.List.{count_by};
ghost use Rattle.tx_model.specs.Lines.{has_line};
ghost use Rattle.report_law.specs.Places.{has_multi_line};
ghost use Rattle.report_law.specs.Steps.{Judged, lines_of};
ghost use Rattle.event_rules.specs.Lined.{AreBelow, AreMultisTheirs, AreTheirs, events_in, multis_in};

use place_columns::OwnEvents;

/// How many events are of the life's first lines, so many: where the round behind them begins in the history.
pub fn count_of_events(own: &OwnEvents, lines: u64) -> u64
    ghost j: { Judged }
    requires numbers { own.now ≡ events_in j }
    requires within { lines ≤ length (lines_of j) }
    ensures { result ≡ count_by (has_line (take lines (lines_of j))) j.life.events }
{
    own.count_before(lines)
}

/// The same of the multixact events.
pub fn count_of_multis(own: &OwnEvents, lines: u64) -> u64
    ghost j: { Judged }
    requires numbers { own.now ≡ multis_in j }
    requires within { lines ≤ length (lines_of j) }
    ensures { result ≡ count_by (has_multi_line (take lines (lines_of j))) j.life.multis }
{
    own.count_before(lines)
}

/// Whether the events up to where those of the first lines end are of these lines.
fn is_reached(own: &OwnEvents, lines: u64) -> bool
    requires { lines ≤ length own.now.steps }
    ensures { IsTrue result ↔ AreBelow lines own.now.numbers }
{
    let count = own.count_before(lines);
    count == 0 || own.reach_at(count) < lines
}

/// Whether as many of the first events as are of the life's first lines are of these: none of a later line, or of none, stands
/// among them.
pub fn are_theirs(own: &OwnEvents, lines: u64) -> bool
    ghost j: { Judged }
    requires numbers { own.now ≡ events_in j }
    requires within { lines ≤ length (lines_of j) }
    ensures { IsTrue result ↔ AreTheirs (take lines (lines_of j)) j.life.events }
{
    is_reached(own, lines)
}

/// The same of the multixact events.
pub fn are_multis_theirs(own: &OwnEvents, lines: u64) -> bool
    ghost j: { Judged }
    requires numbers { own.now ≡ multis_in j }
    requires within { lines ≤ length (lines_of j) }
    ensures { IsTrue result ↔ AreMultisTheirs (take lines (lines_of j)) j.life.multis }
{
    is_reached(own, lines)
}
