//! A page volume in memory. A crash leaves of each page what was synced, what was written, or a mixture.
ghost use Rattle.std.specs.Prelude.{◌≡◌, ◌⊎◌, ◌≤◌, ◌<◌, ◌^◌, ℕ, Some, None, IfOk, OnOk, OnErr, is_some, replicate, false, IsNone, IsSome, IfSome, IfNone};
ghost use Rattle.std.specs.Ordering.{nat_cmp};
ghost use Rattle.std.specs.BTreeMap as tree;
ghost use Rattle.disk_core.specs.Faults.{CountsFault, counted_by};
ghost use Rattle.disk_core.specs.MemLog.{mixed_bytes};
ghost use Rattle.disk_core.specs.MemPages.{synced_of, mixed_page, HasEntry, HaveSame, BecomesPage};
ghost use Rattle.disk_core.specs.Pages.{HasPage, LacksPage, zero_page, IsPageRead, IsNextPage};

use crate::mem_log::count;
use crate::page_bytes::PageBytes;
use crate::{Crash, Failed, PageDisk};
use notes::Note;
use std::alloc::{AllocError, Global};
use std::collections::{BTreeMap, LinkedList};

type Map = BTreeMap<u32, PageBytes>;

// What pages were at the last sync, none where they were absent.
type Before = BTreeMap<u32, Option<PageBytes>>;

// What a page volume in memory held at a moment.
pub struct PageMoment {
    pub now: BTreeMap<u32, PageBytes>,
    pub before: BTreeMap<u32, Option<PageBytes>>,
}

#[derive(Drop)]
pub struct MemPages {
    alloc: Global,
    now: BTreeMap<u32, PageBytes>,
    /// Of those that were written or removed since the last sync.
    before: BTreeMap<u32, Option<PageBytes>>,
    // One that the last sync let go, for the next write.
    spare: Option<PageBytes>,
    faults: u64,
    past: Note<LinkedList<PageMoment>>,
}

#[tactic(auto, unfolding(crate::specs::Pages::zero_page))]
fn clear(into: &mut [u8; 8192])
    ensures { into.new ≡ zero_page }
{
    *into = [0; 8192];
}

// Notes what a page was. Only of one that has no note can it fail.
fn note_page(before: &mut Before, page: u32, bytes: Option<PageBytes>) -> Result<(), AllocError>
    ensures ok { OnOk result (HasEntry page bytes (λ q. tree.get nat_cmp before.old q) (λ q. tree.get nat_cmp before.new q)) }
    ensures err { OnErr result ((q : ℕ) → tree.get nat_cmp before.new q ≡ tree.get nat_cmp before.old q) }
    ensures absent { OnErr result (tree.get nat_cmp before.old page ≡ None) }
{
    before.insert(page, bytes)?;
    Ok(())
}

fn swap_page(map: &mut Map, page: u32, bytes: PageBytes) -> Result<Option<PageBytes>, AllocError>
    ensures old { IfOk result (λ old. old ≡ tree.get nat_cmp map.old page) }
    ensures ok { OnOk result (HasPage page bytes (λ q. tree.get nat_cmp map.old q) (λ q. tree.get nat_cmp map.new q)) }
    ensures err { OnErr result ((q : ℕ) → tree.get nat_cmp map.new q ≡ tree.get nat_cmp map.old q) }
    ensures absent { OnErr result (tree.get nat_cmp map.old page ≡ None) }
{
    Ok(map.insert(page, bytes)?)
}

fn take_page(map: &mut Map, page: u32) -> Option<PageBytes>
    ensures old { result ≡ tree.get nat_cmp map.old page }
    ensures taken { LacksPage page (λ q. tree.get nat_cmp map.old q) (λ q. tree.get nat_cmp map.new q) }
{
    map.remove(&page)
}

// A page with these bytes, in the room of the spare one if there is one.
fn page_of(
    alloc: Global,
    spare: &mut Option<PageBytes>,
    bytes: &[u8; 8192],
) -> Result<PageBytes, AllocError>
    ensures { IfOk result (λ p. p ≡ bytes.now) }
{
    match spare.take() {
        Some(mut page) => {
            page.put(bytes);
            Ok(page)
        }
        None => PageBytes::new(alloc, bytes),
    }
}

fn put_page(
    alloc: Global,
    now: &mut Map,
    before: &mut Before,
    spare: &mut Option<PageBytes>,
    page: u32,
    from: &[u8; 8192],
) -> Result<(), AllocError>
    ensures ok { OnOk result (HasPage page from.now (λ q. tree.get nat_cmp now.old q) (λ q. tree.get nat_cmp now.new q)) }
    ensures err { OnErr result ((q : ℕ) → tree.get nat_cmp now.new q ≡ tree.get nat_cmp now.old q) }
    ensures synced { HaveSame (λ q. tree.get nat_cmp before.old q) (λ q. tree.get nat_cmp now.old q) (λ q. tree.get nat_cmp before.new q) (λ q. tree.get nat_cmp now.new q) }
{
    let bytes = page_of(alloc, spare, from)?;
    if before.contains_key(&page) {
        swap_page(now, page, bytes)?;
        return Ok(());
    }
    // With its place in the notes made first, nothing fails behind the write.
    note_page(before, page, None)?;
    let old = swap_page(now, page, bytes)?;
    note_page(before, page, old)
}

fn remove_page(now: &mut Map, before: &mut Before, page: u32) -> Result<(), AllocError>
    ensures ok { OnOk result (LacksPage page (λ q. tree.get nat_cmp now.old q) (λ q. tree.get nat_cmp now.new q)) }
    ensures err { OnErr result ((q : ℕ) → tree.get nat_cmp now.new q ≡ tree.get nat_cmp now.old q) }
    ensures synced { HaveSame (λ q. tree.get nat_cmp before.old q) (λ q. tree.get nat_cmp now.old q) (λ q. tree.get nat_cmp before.new q) (λ q. tree.get nat_cmp now.new q) }
{
    if before.contains_key(&page) {
        take_page(now, page);
        return Ok(());
    }
    note_page(before, page, None)?;
    let old = take_page(now, page);
    note_page(before, page, old)
}

// Forgets what pages were, and keeps the room of one.
fn forget_notes(before: &mut Before, spare: &mut Option<PageBytes>)
    ensures { (q : ℕ) → tree.get nat_cmp before.new q ≡ None }
{
    let Some((_, bytes)) = before.pop_first() else {
        return;
    };
    if let Some(bytes) = bytes {
        *spare = Some(bytes);
    }
    before.clear();
}

// The least present page from a place on.
fn page_from(map: &Map, low: u32) -> Option<u32>
    ensures none { IfNone result ((r : ℕ) → low ≤ r → tree.get nat_cmp map.now r ≡ None) }
    ensures within { IfSome result (λ q. low ≤ q) }
    ensures present { IfSome result (λ q. IsSome (tree.get nat_cmp map.now q)) }
    ensures least { IfSome result (λ q. (r : ℕ) → low ≤ r → IsSome (tree.get nat_cmp map.now r) → q ≤ r) }
{
    match map.range(low..).next() {
        Some((key, _)) => Some(*key),
        None => None,
    }
}

fn next_page(map: &Map, page: Option<u32>) -> Option<u32>
    ensures { IsNextPage (λ q. tree.get nat_cmp map.now q) page result }
{
    match page {
        None => page_from(map, 0),
        Some(u32::MAX) => None,
        Some(p) => page_from(map, p + 1),
    }
}

fn read_from(map: &Map, page: u32, into: &mut [u8; 8192]) -> bool
    ensures { IsPageRead result (tree.get nat_cmp map.now page) into.new }
{
    match map.get(&page) {
        Some(bytes) => {
            bytes.read(into);
            true
        }
        None => {
            clear(into);
            false
        }
    }
}

// Puts a page back as it was.
fn put_back(map: &mut Map, page: u32, bytes: Option<PageBytes>) -> Result<(), AllocError>
    ensures { OnOk result (BecomesPage page bytes (λ q. tree.get nat_cmp map.old q) (λ q. tree.get nat_cmp map.new q)) }
{
    match bytes {
        Some(bytes) => {
            map.insert(page, bytes)?;
        }
        None => {
            map.remove(&page);
        }
    }
    Ok(())
}

// Puts all pages back as they were.
fn put_all_back(now: &mut Map, before: &mut Before) -> Result<(), AllocError>
    ensures now { OnOk result ((q : ℕ) → tree.get nat_cmp now.new q ≡ synced_of (tree.get nat_cmp before.old q) (tree.get nat_cmp now.old q)) }
    ensures settled { OnOk result ((q : ℕ) → tree.get nat_cmp before.new q ≡ None) }
{
    while let Some((page, bytes)) = before.pop_first() {
        put_back(now, page, bytes)?;
    }
    Ok(())
}

// A page torn over what it was.
fn tear_page(map: &mut Map, page: u32, old: Option<PageBytes>)
    ensures { BecomesPage page (mixed_page old (tree.get nat_cmp map.old page)) (λ q. tree.get nat_cmp map.old q) (λ q. tree.get nat_cmp map.new q) }
{
    if let Some(bytes) = map.get_mut(&page) {
        match &old {
            Some(old) => bytes.tear(old.bytes()),
            None => bytes.tear(&[]),
        }
    }
}

fn tear_all(now: &mut Map, before: &mut Before)
    ensures torn { (q : ℕ) → tree.get nat_cmp now.new q ≡ mixed_page (synced_of (tree.get nat_cmp before.old q) (tree.get nat_cmp now.old q)) (tree.get nat_cmp now.old q) }
    ensures settled { (q : ℕ) → tree.get nat_cmp before.new q ≡ None }
{
    while let Some((page, old)) = before.pop_first() {
        tear_page(now, page, old);
    }
}

impl PageDisk for MemPages {
    ghost use Rattle.std.specs.Prelude.{◌≡◌, ◌⊎◌, true, refl, length, IfOk, IfSome, OnOk};
    ghost use Rattle.std.proofs.Common.{inl};
    ghost use Rattle.disk_core.specs.Faults.{CountsFault, counted_by};
    ghost use Rattle.disk_core.specs.Images.{NoMore, Follows, Only};
    ghost use Rattle.disk_core.specs.Past.{is_now, only_now};
    ghost use Rattle.disk_core.specs.Pages.{WrotePage, RemovedPage, HasPage, LacksPage, IsPageRead, IsAfter, IsNextPage};
    ghost use Rattle.disk_core.specs.MemPagesViews.{pages_now, pages_images, pages_left, pages_left_at, PagesElapse};

    ghost tells = { true };

    ghost pages = { λ m. pages_now m };

    ghost images = { λ m. pages_images m };

    ghost moment = { λ m. length m.past.value };

    ghost left_at = { λ m t. pages_left_at m t };

    ghost faults = { λ m. m.faults };

    ghost reads_image = { λ m told q. inl refl };

    ghost counts_now = { λ m c told now. is_now pages_left m.past.value (pages_images m) c now };

    ghost only_now = { λ m c told now. only_now pages_left m.past.value (pages_images m) c now };

    fn read_page(&mut self, page: u32, into: &mut [u8; 8192]) -> Result<bool, Failed>
        ensures bytes { IfOk result (λ found. IsPageRead found (pages_now self.old page) into.new) }
        ensures same { pages_now self.new ≡ pages_now self.old }
        ensures crash { NoMore (pages_images self.old) (pages_images self.new) }
        ensures time { PagesElapse self.old self.new }
        ensures cause { CountsFault result self.old.faults self.new.faults }
        ensures counted { self.new.faults ≡ counted_by result self.old.faults }
    {
        Ok(read_from(&self.now, page, into))
    }

    fn write_page(&mut self, page: u32, from: &[u8; 8192]) -> Result<(), Failed>
        ensures written { OnOk result (HasPage page from.now (pages_now self.old) (pages_now self.new)) }
        ensures others { WrotePage page from.now (pages_now self.old) (pages_now self.new) }
        ensures crash { Follows (WrotePage page from.now) (pages_images self.old) (pages_images self.new) }
        ensures time { PagesElapse self.old self.new }
        ensures cause { CountsFault result self.old.faults self.new.faults }
        ensures counted { self.new.faults ≡ counted_by result self.old.faults }
    {
        let past = Note::by(&*self);
        let outcome = put_page(
            self.alloc,
            &mut self.now,
            &mut self.before,
            &mut self.spare,
            page,
            from,
        );
        self.past = past;
        count(outcome, &mut self.faults)
    }

    fn remove(&mut self, page: u32) -> Result<(), Failed>
        ensures removed { OnOk result (LacksPage page (pages_now self.old) (pages_now self.new)) }
        ensures others { RemovedPage page (pages_now self.old) (pages_now self.new) }
        ensures crash { Follows (RemovedPage page) (pages_images self.old) (pages_images self.new) }
        ensures time { PagesElapse self.old self.new }
        ensures cause { CountsFault result self.old.faults self.new.faults }
        ensures counted { self.new.faults ≡ counted_by result self.old.faults }
    {
        let past = Note::by(&*self);
        let outcome = remove_page(&mut self.now, &mut self.before, page);
        self.past = past;
        count(outcome, &mut self.faults)
    }

    fn after(&mut self, page: Option<u32>) -> Result<Option<u32>, Failed>
        ensures above { IfOk result (λ next. IfSome next (IsAfter page)) }
        ensures next { IfOk result (IsNextPage (pages_now self.old) page) }
        ensures same { pages_now self.new ≡ pages_now self.old }
        ensures crash { NoMore (pages_images self.old) (pages_images self.new) }
        ensures time { PagesElapse self.old self.new }
        ensures cause { CountsFault result self.old.faults self.new.faults }
        ensures counted { self.new.faults ≡ counted_by result self.old.faults }
    {
        Ok(next_page(&self.now, page))
    }

    fn sync(&mut self) -> Result<(), Failed>
        ensures durable { OnOk result (Only (pages_now self.old) (pages_images self.new)) }
        ensures same { pages_now self.new ≡ pages_now self.old }
        ensures crash { NoMore (pages_images self.old) (pages_images self.new) }
        ensures time { PagesElapse self.old self.new }
        ensures cause { CountsFault result self.old.faults self.new.faults }
        ensures counted { self.new.faults ≡ counted_by result self.old.faults }
    {
        let past = Note::by(&*self);
        self.past = past;
        forget_notes(&mut self.before, &mut self.spare);
        Ok(())
    }
}

impl MemPages {
    ghost use Rattle.std.specs.Prelude.{◌≡◌, ℕ};
    ghost use Rattle.disk_core.specs.MemPages.{page_outcome_of};
    ghost use Rattle.disk_core.specs.MemPagesViews.{pages_now, pages_synced, pages_crashed, PagesFell};

    /// A volume without pages, which has counted no fault.
    pub fn new(alloc: Global) -> MemPages
        ensures now { (q : ℕ) → pages_now result q ≡ None }
        ensures synced { (q : ℕ) → pages_synced result q ≡ None }
        ensures faults { result.faults ≡ 0 }
    {
        let past = Note::by(&alloc);
        MemPages {
            alloc,
            now: BTreeMap::new(alloc),
            before: BTreeMap::new(alloc),
            spare: None,
            faults: 0,
            past,
        }
    }

    fn fall_back(&mut self, how: Crash) -> Result<(), Failed>
        ensures now { OnOk result ((q : ℕ) → pages_now self.new q ≡ page_outcome_of how (pages_synced self.old q) (pages_now self.old q)) }
        ensures synced { OnOk result ((q : ℕ) → pages_synced self.new q ≡ pages_now self.new q) }
        ensures cause { CountsFault result self.old.faults self.new.faults }
        ensures counted { self.new.faults ≡ counted_by result self.old.faults }
    {
        match how {
            Crash::Lost => {
                let outcome = put_all_back(&mut self.now, &mut self.before);
                count(outcome, &mut self.faults)
            }
            Crash::Kept => {
                forget_notes(&mut self.before, &mut self.spare);
                Ok(())
            }
            Crash::Torn => {
                tear_all(&mut self.now, &mut self.before);
                Ok(())
            }
        }
    }

    /// What a crash makes of it. After an `Err`, for want of memory, it isn't said what it holds.
    pub fn crash(&mut self, how: Crash) -> Result<(), Failed>
        ensures now { OnOk result ((q : ℕ) → pages_now self.new q ≡ page_outcome_of how (pages_synced self.old q) (pages_now self.old q)) }
        ensures fell { OnOk result (PagesFell how self.old self.new) }
        ensures crashed { OnOk result (pages_crashed self.old self.new) }
        ensures cause { CountsFault result self.old.faults self.new.faults }
        ensures counted { self.new.faults ≡ counted_by result self.old.faults }
    {
        self.fall_back(how)
    }
}
