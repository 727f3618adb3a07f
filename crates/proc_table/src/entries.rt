//! Running transactions together: what a snapshot lists of them, and which ids run.
ghost use Rattle.std.specs.Prelude.{◌≡◌, ◌==◌, ◌<◌, ◌^◌, ℕ, [], false, not, map, min, nat_lt, IfSome, IfNone, IfOk, OnOk};
ghost use Rattle.std.specs.List.{All, Any, filter, fold, list_any};
ghost use Rattle.tx_events.specs.IdLists.{has, Ascending};
ghost use Rattle.proc_table.specs.declared.entry.Entry.{Entry};
ghost use Rattle.proc_table.specs.Entries.{IsSame, IsAdded, IsTaken, IsEach, HasRoomFor, SubsAscend, is_of_entry};
ghost use Rattle.proc_table.specs.Lists.{entries_below, tops_of, subs_of, some_overflowed, AreListed};

use crate::entry::Entry;
use std::alloc::Global;
use tx_events::{FullXid, IdList, Memory};

/// The id that was given last to the transaction of this top.
pub fn last_given(entries: &[Entry], top: FullXid) -> Option<FullXid>
    ensures some { IfSome result (λ x. Any (λ (e : Entry). (e.top ≡ top) × (x ≡ e.last)) entries.now) }
    ensures none { IfNone result (has (tops_of entries.now) top ≡ false) }
{
    for entry in entries {
        if top == entry.top {
            return Some(entry.last);
        }
    }
    None
}

/// The top of the session's transaction.
pub fn top_of(entries: &[Entry], session: u32) -> Option<FullXid>
    ensures some { IfSome result (λ t. Any (λ (e : Entry). (e.session ≡ session) × (t ≡ e.top)) entries.now) }
    ensures none { IfNone result (list_any (λ (e : Entry). e.session == session) entries.now ≡ false) }
{
    for entry in entries {
        if entry.session == session {
            return Some(entry.top);
        }
    }
    None
}

/// Makes room for one more subid of this session.
pub fn make_sub_room(entries: &mut Vec<Entry>, session: u32) -> Result<(), Memory>
    ensures same { IsEach IsSame entries.old.items entries.new.items }
    ensures room { OnOk result (All (HasRoomFor session) entries.new.items) }
{
    for i in 0..entries.len() {
        entries[i].make_room(session)?;
    }
    Ok(())
}

/// Adds a subid to the entry of this session.
pub fn add_id(entries: &mut Vec<Entry>, session: u32, id: FullXid)
    requires { All (HasRoomFor session) entries.old.items }
    ensures { IsEach (IsAdded session id) entries.old.items entries.new.items }
{
    for i in 0..entries.len() {
        entries[i].add(session, id);
    }
}

/// Takes these ids from the entry of this session.
pub fn take_ids(entries: &mut Vec<Entry>, session: u32, ids: &[FullXid])
    requires subs { All SubsAscend entries.old.items }
    requires ids { Ascending ids.now }
    ensures { IsEach (IsTaken session ids.now) entries.old.items entries.new.items }
{
    for i in 0..entries.len() {
        entries[i].take(session, ids);
    }
}

/// Drops the entry of this top.
pub fn drop_top(entries: &mut Vec<Entry>, top: FullXid)
    ensures { entries.new.items ≡ filter (λ (e : Entry). not (top == e.top)) entries.old.items }
{
    entries.retain(|e| top != e.top);
}

/// Whether the id is one of these entries'.
pub fn is_running(entries: &[Entry], id: FullXid) -> bool
    requires { All SubsAscend entries.now }
    ensures { result ≡ list_any (is_of_entry id) entries.now }
{
    for entry in entries {
        if entry.has(id) {
            return true;
        }
    }
    false
}

/// The least of an id and these entries' tops.
pub fn least_top(from: FullXid, entries: &[Entry]) -> FullXid
    ensures { result ≡ fold min from (tops_of entries.now) }
{
    let mut least = from;
    for entry in entries {
        if entry.top < least {
            least = entry.top;
        }
    }
    least
}

/// The tops below the limit, in order.
pub fn tops_below(alloc: Global, entries: &[Entry], limit: FullXid) -> Result<IdList, Memory>
    ensures { IfOk result (λ l. l ≡ tops_of (entries_below entries.now limit)) }
{
    let mut tops = IdList::new(alloc);
    for entry in entries {
        if entry.top < limit {
            tops.push(entry.top)?;
        }
    }
    Ok(tops)
}

/// Whether one of the entries with a top below the limit has overflowed.
pub fn has_overflow_below(entries: &[Entry], limit: FullXid) -> bool
    ensures { result ≡ some_overflowed (entries_below entries.now limit) }
{
    for entry in entries {
        if entry.top < limit && entry.overflowed {
            return true;
        }
    }
    false
}

/// The subids of the entries with a top below the limit, ascending; none where one of these has overflowed.
pub fn listed_subs(
    alloc: Global,
    entries: &[Entry],
    limit: FullXid,
    overflowed: bool,
) -> Result<IdList, Memory>
    ensures { IfOk result (λ l. AreListed entries.now limit overflowed l) }
{
    if overflowed {
        return Ok(IdList::new(alloc));
    }
    let mut subs = subs_below(alloc, entries, limit)?;
    subs.sort()?;
    Ok(IdList::of(subs))
}

/// The subids of the entries with a top below the limit, entry by entry.
fn subs_below(alloc: Global, entries: &[Entry], limit: FullXid) -> Result<Vec<FullXid>, Memory>
    ensures { IfOk result (λ v. v.items ≡ subs_of (entries_below entries.now limit)) }
{
    let mut subs = Vec::new(alloc);
    for entry in entries {
        if entry.top < limit {
            subs.extend_from_slice(&entry.subs)?;
        }
    }
    Ok(subs)
}
