//! Whether a raise was refused by a limit that stood.
ghost use Rattle.std.specs.Prelude.{◌≡◌, ℕ, ◌-◌, ◌≤◌, ◌↔◌, IsTrue, length};
ghost use Rattle.report_law.specs.MultiLines.{IsHeldBack};
ghost use Rattle.report_law.specs.Places.{MayReadMultis};
ghost use Rattle.multi_rules.specs.Limits.{AreHeldLimits, AreInOrder, Holding, IsLimitWithin, is_before};

use crate::limits::LimitAt;
use tx_events::FullMulti;

/// Whether it is a lower limit, or the same one at a place before this.
fn is_before(at: LimitAt, limit: u64, place: u64) -> bool
    ensures { result ≡ is_before limit place at }
{
    at.limit < limit || (at.limit == limit && at.place < place)
}

/// Whether one of these is this limit at a place from `from` to `to`.
fn is_limit_within(limits: &[LimitAt], limit: u64, from: u64, to: u64) -> bool
    requires { AreInOrder limits.now }
    ensures { IsTrue result ↔ IsLimitWithin limits.now limit from to }
{
    let first = limits.partition_point(|at| is_before(*at, limit, from));
    match limits.get(first) {
        Some(at) => at.limit == limit && at.place <= to,
        None => false,
    }
}

/// Whether the multixact was past the least of the next one and all that were pinned, where the command may read: that was
/// this limit. These are the places where it may, behind its session's earlier events alone.
pub fn is_held_back(
    limits: &[LimitAt],
    from: u64,
    to: u64,
    multi: FullMulti,
    limit: FullMulti,
) -> bool
    ghost h: { Holding }
    requires limits { AreHeldLimits h.base h.events limits.now }
    requires read { (p : ℕ) → MayReadMultis h.events h.round (record h.by { command = h.by.command - 1 }) p ↔ ((from ≤ p) × (p ≤ to)) }
    requires within { to ≤ length h.events }
    ensures { IsTrue result ↔ IsHeldBack h.base h.events h.round h.by multi limit }
{
    limit.number() < multi.number() && is_limit_within(limits, limit.number(), from, to)
}
