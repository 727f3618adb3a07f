// The tree rule: a commit whose ids lie on several pages changes them in steps.
ghost use Rattle.std.specs.Prelude.{◌≡◌, ◌≤◌, ◌<◌, ◌+◌, ◌/◌, ℕ, List, ◌∷◌, length, drop, slice_get, slice_index, option_map};
ghost use Rattle.slru_bank.specs.Plan.{Run, runs, run_at, run_step, top_step, around, plan};
ghost use Rattle.slru_bank.specs.PlanLaw.{times_committed};

use crate::State;
use store_pages::{xact_page, xact_page_in_full};
use tx_events::FullXid;

/// A step of a commit: on one page the subids from the `first` one to before the `past` one, and the top too where
/// `with_top` says so, get the state.
#[derive(Clone, Copy, Debug, PartialEq, Eq)]
pub struct PlanStep {
    pub page: u32,
    pub state: State,
    pub with_top: bool,
    pub first: usize,
    pub past: usize,
}

/// Where the ids end that lie side by side on one page of pg_xact from the `first` one on.
pub fn run_end(subs: &[FullXid], first: usize) -> usize
    requires { first < length subs.now }
    ensures past { first < result }
    ensures within { result ≤ length subs.now }
    ensures run { runs first (drop first subs.now) ≡ run_at (slice_index subs.now first) first result ∷ runs result (drop result subs.now) }
{
    let page = xact_page_in_full(subs[first]);
    let mut past = first + 1;
    while past < subs.len() && xact_page_in_full(subs[past]) == page {
        past += 1;
    }
    past
}

// How many runs there are from this subid on.
fn count_runs(subs: &[FullXid], from: usize) -> u64
    requires { from ≤ length subs.now }
    ensures { result ≡ length (runs from (drop from subs.now)) }
{
    let mut first = from;
    let mut count = 0;
    while first < subs.len() {
        first = run_end(subs, first);
        count += 1;
    }
    count
}

// The step over the k-th run from this subid on.
fn step_of_run(subs: &[FullXid], from: usize, k: u64, state: State) -> Option<PlanStep>
    requires { from ≤ length subs.now }
    ensures { result ≡ option_map (run_step state) (slice_get (runs from (drop from subs.now)) k) }
{
    let mut first = from;
    let mut left = k;
    while first < subs.len() {
        let past = run_end(subs, first);
        if left == 0 {
            return Some(PlanStep {
                page: xact_page(subs[first].low()),
                state,
                with_top: false,
                first,
                past,
            });
        }
        left -= 1;
        first = past;
    }
    None
}

// Where the subids end that share the top's page, among the first ones.
fn own_past(top: FullXid, subs: &[FullXid]) -> usize
    ensures within { result ≤ length subs.now }
    ensures plan { plan top subs.now ≡ around (top_step top result) (runs result (drop result subs.now)) }
{
    if !subs.is_empty() && xact_page_in_full(subs[0]) == xact_page_in_full(top) {
        run_end(subs, 0)
    } else {
        0
    }
}

/// Step `k` of the tree rule (`TransactionIdSetTreeStatus`) for a commit of `top` and its subids, which ascend from
/// it. First the subids on other pages become sub-committed, page by page, then the ids on the top's page become
/// committed, then the others, page by page. None exactly past the last step.
pub fn plan_step(top: FullXid, subs: &[FullXid], k: u64) -> Option<PlanStep>
    ensures { result ≡ slice_get (plan top subs.now) k }
{
    let own = own_past(top, subs);
    let others = count_runs(subs, own);
    if k < others {
        step_of_run(subs, own, k, State::SubCommitted)
    } else if k == others {
        Some(PlanStep {
            page: xact_page(top.low()),
            state: State::Committed,
            with_top: true,
            first: 0,
            past: own,
        })
    } else {
        step_of_run(subs, own, k - others - 1, State::Committed)
    }
}

/// A law on the plan: each subid becomes committed in exactly one of its steps.
pub fn commits_each_once(_top: FullXid, _subs: &[FullXid], _i: usize)
    requires { _i < length _subs.now }
    ensures { times_committed _i (plan _top _subs.now) ≡ 1 }
{}
