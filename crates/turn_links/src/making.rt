//! The links of events, one after the other.
ghost use Rattle.std.specs.Prelude.{◌≡◌, ◌-◌, ◌<◌, ◌≤◌, List, IfOk, length};
ghost use Rattle.place_columns.specs.declared.own.Own.{Own};
ghost use Rattle.turn_links.specs.Links.{AreAllLinks, AreLinks, IsCovered, IsLink, IsNear};

use crate::links::{Link, last_upto};
use place_columns::Own;
use std::alloc::Global;
use tx_events::Memory;

/// The number in 32 bits. No report that is read has so many events.
fn small(number: usize) -> Result<u32, Memory>
    ensures { IfOk result (λ n. n ≡ number) }
{
    match u32::try_from(number) {
        Ok(n) => Ok(n),
        Err(_e) => Err(Memory),
    }
}

/// From which number on none up to the event of this one, the first that has no link, is of an earlier command.
fn near_of(own: &[Own], links: &[Link], place: usize) -> usize
    requires links { AreLinks own.now links.now }
    requires place { place ≡ length links.now }
    requires within { place < length own.now }
    ensures { IsNear own.now place result }
{
    match own[place].command.checked_sub(1) {
        Some(earlier) => last_upto(own, links, place, earlier),
        None => 0,
    }
}

/// The step by `far` of the last of the first `count` events, if there is one.
fn far_at(links: &[Link], count: u32) -> u32
    ghost own: { List Own }
    requires links { AreLinks own links.now }
    requires within { count ≤ length links.now }
    ensures within { result ≤ count - 1 }
    ensures covered { 0 < count → IsCovered own result (count - 1) }
{
    if count == 0 {
        return 0;
    }
    links[count as usize - 1].far
}

fn depth_at(links: &[Link], count: u32) -> u32 {
    if count == 0 {
        return 0;
    }
    match links.get(count as usize - 1) {
        Some(link) => link.depth,
        None => 0,
    }
}

/// Whether the steps by `far` from there lead as far as those from behind them.
fn are_even(links: &[Link], near: u32, first: u32, second: u32) -> bool {
    let depth = u64::from(depth_at(links, near)) + u64::from(depth_at(links, second));
    depth == 2 * u64::from(depth_at(links, first))
}

/// From which number on none up to the event of this one is of an earlier command than the one before: as far as two steps
/// by `far` lead from the nearest one before, where they are even, else that nearest one.
fn far_of(links: &[Link], place: usize, near: u32) -> u32
    ghost own: { List Own }
    requires links { AreLinks own links.now }
    requires place { place ≡ length links.now }
    requires within { place < length own }
    requires near { IsNear own place near }
    ensures within { result ≤ place }
    ensures covered { IsCovered own result place }
{
    let first = far_at(links, near);
    let second = far_at(links, first);
    if are_even(links, near, first, second) {
        return second;
    }
    near
}

/// The link of the event of this number, the first that has none.
fn link_of(own: &[Own], links: &[Link], place: usize) -> Result<Link, Memory>
    ghost all: { List Own }
    requires all { all ≡ own.now }
    requires links { AreLinks own.now links.now }
    requires place { place ≡ length links.now }
    requires within { place < length own.now }
    ensures { IfOk result (IsLink own.now place) }
{
    let near = small(near_of(own, links, place))?;
    let far = far_of(links, place, near);
    let depth = depth_at(links, near).saturating_add(1);
    Ok(Link { near, far, depth })
}

/// Those of a session's events. Takes the logarithm of their number for each.
fn links_of(alloc: Global, own: &[Own]) -> Result<Vec<Link>, Memory>
    ensures links { IfOk result (λ links. AreLinks own.now links.items) }
    ensures size { IfOk result (λ links. length links.items ≡ length own.now) }
{
    let mut links = Vec::with_capacity(alloc, own.len())?;
    for place in 0..own.len() {
        let link = link_of(own, links.as_slice(), place)?;
        links.push(link)?;
    }
    Ok(links)
}

/// Those of all sessions' events.
pub fn links_of_all(alloc: Global, lists: &[Vec<Own>]) -> Result<Vec<Vec<Link>>, Memory>
    ensures { IfOk result (λ links. AreAllLinks lists.now links.items) }
{
    let mut all = Vec::with_capacity(alloc, lists.len())?;
    for own in lists {
        all.push(links_of(alloc, own.as_slice())?)?;
    }
    Ok(all)
}
