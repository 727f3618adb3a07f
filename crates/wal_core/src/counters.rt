// The counters after a record more (as AdvanceNextFullTransactionIdPastXid and MultiXactAdvanceNextMXact raise them in
// recovery). Numbers from a hostile log are met before anything is added to them, so that they never overflow.
ghost use Rattle.std.specs.Prelude.{◌≡◌, ◌⊎◌, ◌+◌, ◌<◌, ◌≤◌, ◌^◌, ◌∷◌, ℕ, length, max, false, IsNone, IfSome};
ghost use Rattle.tx_events.specs.Ids.{next_id, next_multi};
ghost use Rattle.tx_events.specs.After.{past_ids, ids_of, after_record};
ghost use Rattle.tx_events.specs.declared.record.Rec.TheVariants as records;
ghost use Rattle.wal_core.specs.BaseTest.{is_base_of};

use tx_events::{Counters, FullMulti, FullXid, Member, Rec};

// The id after one. None where that is past every base.
fn id_past(id: FullXid) -> Option<FullXid>
    ensures some { IfSome result (λ next. next ≡ next_id id) }
    ensures none { IsNone result → 2 ^ 63 ≤ id }
{
    if id.number() >= 1 << 63 {
        return None;
    }
    if id.number() < 2 {
        return FullXid::new(3);
    }
    Some(id.advance())
}

fn multi_past(multi: FullMulti) -> Option<FullMulti>
    ensures some { IfSome result (λ next. next ≡ next_multi multi) }
    ensures none { IsNone result → 2 ^ 63 ≤ multi }
{
    if multi.number() >= 1 << 63 {
        return None;
    }
    Some(multi.advance())
}

fn later_id(a: FullXid, b: FullXid) -> FullXid
    ensures { result ≡ max a b }
{
    if a.number() < b.number() { b } else { a }
}

fn later_multi(a: FullMulti, b: FullMulti) -> FullMulti
    ensures { result ≡ max a b }
{
    if a.number() < b.number() { b } else { a }
}

fn past_all(next: FullXid, ids: &[FullXid]) -> Option<FullXid>
    ensures some { IfSome result (λ n. n ≡ past_ids next ids.now) }
    ensures none { IsNone result → 2 ^ 63 < past_ids next ids.now }
{
    let mut next = next;
    for id in ids {
        let past = id_past(*id)?;
        next = later_id(next, past);
    }
    Some(next)
}

fn past_members(next: FullXid, members: &[Member]) -> Option<FullXid>
    ensures some { IfSome result (λ n. n ≡ past_ids next (ids_of members.now)) }
    ensures none { IsNone result → 2 ^ 63 < past_ids next (ids_of members.now) }
{
    let mut next = next;
    for member in members {
        let past = id_past(member.id)?;
        next = later_id(next, past);
    }
    Some(next)
}

fn after_tree(c: &Counters, top: FullXid, subs: &[FullXid]) -> Option<Counters>
    ensures some { IfSome result (λ n. n ≡ record c.now { next = past_ids c.now.next (top ∷ subs.now) }) }
    ensures none { IsNone result → 2 ^ 63 < past_ids c.now.next (top ∷ subs.now) }
{
    let past = id_past(top)?;
    let next = past_all(later_id(c.next, past), subs)?;
    Some(Counters { next, ..*c })
}

fn after_multi(c: &Counters, multi: FullMulti, offset: u64, members: &[Member]) -> Option<Counters>
    ensures some { IfSome result (λ n. n ≡ record c.now {
      next = past_ids c.now.next (ids_of members.now);
      multi = max c.now.multi (next_multi multi);
      offset = max c.now.offset (offset + length members.now);
    }) }
    ensures none { IsNone result → (2 ^ 63 < past_ids c.now.next (ids_of members.now)) ⊎ ((2 ^ 63 ≤ multi) ⊎ (2 ^ 64 ≤ offset + length members.now)) }
{
    let next = past_members(c.next, members)?;
    let past = multi_past(multi)?;
    let end = offset.checked_add(members.len() as u64)?;
    Some(Counters {
        next,
        multi: later_multi(c.multi, past),
        offset: c.offset.max(end),
        ..*c
    })
}

fn after_checkpoint(c: &Counters, n: &Counters) -> Counters
    ensures { (number : ℕ) → result ≡ after_record c.now (records.Checkpoint number n.now) }
{
    Counters {
        next: later_id(c.next, n.next),
        oldest: later_id(c.oldest, n.oldest),
        multi: later_multi(c.multi, n.multi),
        offset: c.offset.max(n.offset),
        oldest_multi: later_multi(c.oldest_multi, n.oldest_multi),
        oldest_offset: c.oldest_offset.max(n.oldest_offset),
    }
}

fn after_truncate(c: &Counters, oldest: FullXid, multi: FullMulti, offset: u64) -> Counters
    ensures { result ≡ after_record c.now (records.Truncate oldest multi offset) }
{
    Counters {
        next: later_id(c.next, oldest),
        oldest: later_id(c.oldest, oldest),
        multi: later_multi(c.multi, multi),
        offset: c.offset.max(offset),
        oldest_multi: later_multi(c.oldest_multi, multi),
        oldest_offset: c.oldest_offset.max(offset),
    }
}

/// The counters after one record more. None only where these aren't a base.
pub fn counters_after(counters: &Counters, rec: &Rec) -> Option<Counters>
    ensures some { IfSome result (λ n. n ≡ after_record counters.now rec.now) }
    ensures none { IsNone result → is_base_of (after_record counters.now rec.now) ≡ false }
{
    match rec {
        Rec::Commit { top, subs } | Rec::Abort { top, subs } => {
            after_tree(counters, *top, subs.items())
        }
        Rec::Multi {
            multi,
            offset,
            members,
        } => after_multi(counters, *multi, *offset, members.items()),
        Rec::Checkpoint {
            number: _,
            counters: own,
        } => Some(after_checkpoint(counters, own.get())),
        Rec::Truncate {
            oldest,
            multi,
            offset,
        } => Some(after_truncate(counters, *oldest, *multi, *offset)),
    }
}
