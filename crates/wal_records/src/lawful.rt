// A record that is not lawful is never written, and a log that holds one is damaged: so these tests are the reader's too.
ghost use Rattle.std.specs.Prelude.{◌≡◌, ◌↔◌, ◌^◌, ◌&&◌, length, nat_lt, IsTrue};
ghost use Rattle.tx_events.specs.declared.record.Rec.TheVariants as records;
ghost use Rattle.wal_records.specs.Lawful.{is_id, is_multi, ascend_from, all_ids, is_lawful};
ghost use Rattle.wal_records.specs.Spelling.{IsLawful};

use tx_events::{Counters, FullMulti, FullXid, Member, Rec};

fn is_full_id(id: FullXid) -> bool
    ensures { result ≡ is_id id }
{
    id.number() > 2
}

// A multixact's id always is.
fn is_full_multi(multi: FullMulti) -> bool
    ensures { result ≡ is_multi multi }
{
    multi.number() > 0
}

// Whether ids ascend, the first of them above this one.
fn ascends(top: FullXid, ids: &[FullXid]) -> bool
    ensures { result ≡ ascend_from top ids.now }
{
    let mut last = top.number();
    for id in ids {
        if id.number() <= last || !is_full_id(*id) {
            return false;
        }
        last = id.number();
    }
    true
}

fn are_full_ids(members: &[Member]) -> bool
    ensures { result ≡ all_ids members.now }
{
    for member in members {
        if !is_full_id(member.id) {
            return false;
        }
    }
    true
}

fn is_lawful_tree(top: FullXid, subs: &[FullXid]) -> bool
    ensures { result ≡ (is_id top && (nat_lt (length subs.now) (2 ^ 32) && ascend_from top subs.now)) }
{
    is_full_id(top) && subs.len() <= 0xffff_ffff && ascends(top, subs)
}

fn is_lawful_multi(multi: FullMulti, offset: u64, members: &[Member]) -> bool
    ensures { result ≡ is_lawful (records.Multi multi offset members.now) }
{
    let fits = is_full_multi(multi) && !members.is_empty() && members.len() <= 64;
    fits && are_full_ids(members)
}

fn is_lawful_checkpoint(number: u64, counters: Counters) -> bool
    ensures { result ≡ is_lawful (records.Checkpoint number counters) }
{
    is_full_id(counters.next)
        && is_full_id(counters.oldest)
        && is_full_multi(counters.multi)
        && is_full_multi(counters.oldest_multi)
}

fn is_lawful_truncate(oldest: FullXid, multi: FullMulti, offset: u64) -> bool
    ensures { result ≡ is_lawful (records.Truncate oldest multi offset) }
{
    is_full_id(oldest) && is_full_multi(multi)
}

fn has_lawful_form(rec: &Rec) -> bool
    ensures { result ≡ is_lawful rec.now }
{
    match rec {
        Rec::Commit { top, subs } | Rec::Abort { top, subs } => is_lawful_tree(*top, subs.items()),
        Rec::Multi {
            multi,
            offset,
            members,
        } => is_lawful_multi(*multi, *offset, members.items()),
        Rec::Checkpoint { number, counters } => is_lawful_checkpoint(*number, *counters.get()),
        Rec::Truncate {
            oldest,
            multi,
            offset,
        } => is_lawful_truncate(*oldest, *multi, *offset),
    }
}

/// Whether a record has a spelling that `read_rec` reads again: its ids are full ids of at least 3, its multixacts full
/// ids, its subtransactions ascend from the top, and its members are 1 to 64.
pub fn is_lawful(rec: &Rec) -> bool
    ensures test { result ≡ is_lawful rec.now }
    ensures lawful { IsTrue result ↔ IsLawful rec.now }
{
    has_lawful_form(rec)
}
