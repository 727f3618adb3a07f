//! Whether a page may be cut so.
ghost use Rattle.std.specs.Prelude.{◌≡◌, ◌↔◌, ◌+◌, ◌≤◌, IsTrue, List, length, take};
ghost use Rattle.tx_events.specs.declared.event.Event.{Event};
ghost use Rattle.tx_events.specs.declared.record.Counters.{Counters};
ghost use Rattle.tx_events.specs.declared.record.Rec.{Rec};
ghost use Rattle.tx_events.specs.PageOrder.{is_cut};
ghost use Rattle.tx_model.specs.declared.report.DumpOf.TheVariants as dumps;
ghost use Rattle.life_law.specs.Dumps.{IsSubtransCutoff};
ghost use Rattle.report_law.specs.Dumps.{IsCutBy};
ghost use Rattle.dump_rules.specs.Cutting.{AreCuts, HasFirsts};

use crate::cuts::Cuts;
use std::collections::BTreeMap;
use store_pages::{
    MemberPages, OffsetPages, PAGES_PER_SEGMENT, PageRule, SubtransPages, XactPages,
};

/// Whether the page's segment lies wholly before the cutoff.
fn lies_before<P: PageRule>(cutoff: u32, page: u32) -> bool
    ensures { result ≡ is_cut P.shape P.per_page cutoff page }
{
    let first = page / PAGES_PER_SEGMENT * PAGES_PER_SEGMENT;
    P::precedes(first, cutoff) && P::precedes(first + (PAGES_PER_SEGMENT - 1), cutoff)
}

fn both(a: bool, b: bool) -> bool
    ensures { IsTrue result ↔ (IsTrue a × IsTrue b) }
{
    a && b
}

pub fn is_xact_cut(cuts: &Cuts, page: u32, cutoff: u32) -> bool
    ensures { (base : Counters) (recs : List Rec) (h behind : List Event) → AreCuts base recs h cuts.now → IsTrue result ↔ IsCutBy base recs behind (dumps.Xact page) cutoff }
{
    let known = cuts.xacts.contains(&cutoff);
    let cut = lies_before::<XactPages>(cutoff, page);
    both(known, cut)
}

fn is_upto(a: u64, b: u64) -> bool
    ensures { IsTrue result ↔ (a ≤ b) }
{
    a <= b
}

/// Whether it was the oldest xmin's at a place up to this one.
fn was_first(firsts: &BTreeMap<u32, u64>, cutoff: u32, place: u64) -> bool
    ensures { (base : Counters) (h : List Event) → HasFirsts base h (length h + 1) firsts.now → place ≤ length h → IsTrue result ↔ IsSubtransCutoff base (take place h) cutoff }
{
    match firsts.get(&cutoff).copied() {
        Some(first) => is_upto(first, place),
        None => false,
    }
}

/// Whether a page of pg_subtrans may be cut so behind the events before this place.
pub fn is_subtrans_cut(cuts: &Cuts, place: u64, page: u32, cutoff: u32) -> bool
    ensures { (base : Counters) (recs : List Rec) (h : List Event) → AreCuts base recs h cuts.now → place ≤ length h → IsTrue result ↔ IsCutBy base recs (take place h) (dumps.Subtrans page) cutoff }
{
    let known = was_first(&cuts.parents, cutoff, place);
    let cut = lies_before::<SubtransPages>(cutoff, page);
    both(known, cut)
}

pub fn is_offset_cut(cuts: &Cuts, page: u32, cutoff: u32) -> bool
    ensures { (base : Counters) (recs : List Rec) (h behind : List Event) → AreCuts base recs h cuts.now → IsTrue result ↔ IsCutBy base recs behind (dumps.Offsets page) cutoff }
{
    let known = cuts.offsets.contains(&cutoff);
    let cut = lies_before::<OffsetPages>(cutoff, page);
    both(known, cut)
}

pub fn is_member_cut(cuts: &Cuts, page: u32, cutoff: u32) -> bool
    ensures { (base : Counters) (recs : List Rec) (h behind : List Event) → AreCuts base recs h cuts.now → IsTrue result ↔ IsCutBy base recs behind (dumps.Members page) cutoff }
{
    let known = cuts.members.contains(&cutoff);
    let cut = lies_before::<MemberPages>(cutoff, page);
    both(known, cut)
}
