// Which multixacts and members a recovery redoes and clears.
ghost use Rattle.std.specs.Prelude.{◌≡◌, max};
ghost use Rattle.replay_core.specs.Spans.{begun_counters, member_span, offset_span};

use replay_multis::{MemberSpan, OffsetSpan};
use tx_events::{Counters, FullMulti, Rec};

// The counters of the checkpoint with which the records begin; where they begin with none, those behind them all.
fn begun_counters(recs: &[Rec], base: &Counters) -> Counters
    ensures { result ≡ begun_counters recs.now base.now }
{
    if recs.len() == 0 {
        return *base;
    }
    match &recs[0] {
        Rec::Checkpoint { counters, .. } => *counters.get(),
        _ => *base,
    }
}

fn later_multi(a: FullMulti, b: FullMulti) -> FullMulti
    ensures { result ≡ max a b }
{
    if a < b { b } else { a }
}

fn later_offset(a: u64, b: u64) -> u64
    ensures { result ≡ max a b }
{
    if a < b { b } else { a }
}

/// Of offsets: what comes from the later of the first checkpoint's next multixact and the oldest one on is known from the
/// records alone.
pub(crate) fn offset_span(recs: &[Rec], base: &Counters) -> OffsetSpan
    ensures { result ≡ offset_span recs.now base.now }
{
    let begun = begun_counters(recs, base);
    OffsetSpan {
        oldest: base.oldest_multi,
        from: later_multi(begun.multi, base.oldest_multi),
        next: base.multi,
    }
}

/// The same of members, by their offsets.
pub(crate) fn member_span(recs: &[Rec], base: &Counters) -> MemberSpan
    ensures { result ≡ member_span recs.now base.now }
{
    let begun = begun_counters(recs, base);
    MemberSpan {
        oldest: base.oldest_multi,
        oldest_offset: base.oldest_offset,
        from: later_offset(begun.offset, base.oldest_offset),
        next: base.offset,
    }
}
