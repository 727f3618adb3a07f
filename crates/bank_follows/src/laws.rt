ghost use Rattle.bank_follows.specs.WordSets.{ParentSet, OffsetSet};
ghost use Rattle.bank_follows.specs.Moments.{MemberMoments, OffsetMoments, ParentMoments, XactMoments};
ghost use Rattle.bank_follows.specs.Sections.{MemberSections, OffsetSections, ParentSections, XactSections};
ghost use Rattle.bank_follows.specs.Tails.{KeepsTails};
ghost use Rattle.bank_follows.specs.StoreSets.{StatesSet, MemberSet};
ghost use Rattle.bank_follows.specs.Laws.{XactKeeps, ParentsKeep, OffsetsKeep, MembersKeep, ImagesFollow, OnePage};
ghost use Rattle.bank_follows.specs.Begins.{BanksOpen, PagesShowWhatTheyHold, ZerosShowNothing};
ghost use Rattle.bank_follows.specs.Making.{StoredPagesMade};
ghost use Rattle.bank_follows.specs.Near.{NearOnMade, ShortMakesNear};
ghost use Rattle.bank_follows.specs.Restored.{LifeBegins, RestoredBegins};
ghost use Rattle.bank_follows.specs.Standing.{BanksStand};
ghost use Rattle.bank_follows.specs.Holding.{EngineFits};
ghost use Rattle.bank_follows.specs.Ends.{ClusterFits};
ghost use Rattle.bank_follows.specs.Flushed.{MembersFlushed, OffsetsFlushed, StatesFlushed};
ghost use Rattle.bank_follows.specs.Fitting.{PartsFitLaw};

use disk_core::{LogDisk, PageDisk};
use store_pages::PageRule;

/// What a bank's calls do keeps what its map and its images stand for, one entry of its lock's list more
/// (`SimpleLruReadPage`, `SimpleLruZeroPage`, `SimpleLruWriteAll` and `SimpleLruTruncate` in
/// `src/backend/access/transam/slru.c`): of members by each member's mode byte and the bytes of its id.
pub fn calls_keep()
    ensures xact { XactKeeps }
    ensures parents { ParentsKeep }
    ensures offsets { OffsetsKeep }
    ensures members { MembersKeep }
{}

/// What a store's call does to the map is what its entry says: `set_states` of `slru_bank`, `set_parent` of
/// `subtrans_log`, `set_offset` of `multi_offsets`, `write_member` of `multi_members`.
pub fn sets_as_said()
    ensures states { StatesSet }
    ensures parent { ParentSet }
    ensures offset { OffsetSet }
    ensures member { MemberSet }
{}

/// Images that show a list are those of which the laws of `recoverable` speak.
pub fn images_follow()
    ensures { ImagesFollow }
{}

/// A page that a life of few numbers makes is the only one of its stored number.
pub fn one_page()
    ensures { OnePage }
{}

/// What `zero` of a bank does, by stored pages in the order of `store_pages`, makes the page in full that the entry
/// names, where a life gives few numbers; and the bank's last page stays the list's.
pub fn stored_pages_made()
    ensures { StoredPagesMade }
{}

/// What lies on a page that the list made is near the life's first number, where these pages are; and a short life makes
/// no others.
pub fn made_is_near()
    ensures numbers { NearOnMade }
    ensures pages { ShortMakesNear }
{}

/// The images of a bank at every moment of a critical section, over any disk.
pub fn moments_keep<P: PageDisk>()
    ensures xact { XactMoments P.images P.moment P.left_at }
    ensures parents { ParentMoments P.images P.moment P.left_at }
    ensures offsets { OffsetMoments P.images P.moment P.left_at }
    ensures members { MemberMoments P.images P.moment P.left_at }
{}

/// What a bank stands for behind a critical section of one call, over any disk.
pub fn sections_keep<P: PageDisk>()
    ensures xact { XactSections P.images P.moment P.left_at }
    ensures parents { ParentSections P.images P.moment P.left_at }
    ensures offsets { OffsetSections P.images P.moment P.left_at }
    ensures members { MemberSections P.images P.moment P.left_at }
{}

/// A bank that was just opened stands for the list without entries, over any disk: so the laws on sections hold from
/// the begin of a life on.
pub fn banks_open<P: PageDisk>()
    ensures { BanksOpen P.images P.moment P.left_at }
{}

/// What a bank's value is to stand for in a life of few numbers, with its last made page, is kept by each call, by the
/// bank's own clauses; and its images are what `recoverable` asks of them.
pub fn banks_stand<P: PageDisk>()
    ensures { BanksStand P.images P.moment P.left_at }
{}

/// Pages of zeros show nothing: those of a new volume, and those of pg_subtrans behind `clear_all`.
pub fn zeros_show_nothing()
    ensures { ZerosShowNothing }
{}

/// What the pages of a store's banks show when a life begins may be read off them.
pub fn pages_show_what_they_hold()
    ensures { PagesShowWhatTheyHold }
{}

/// The bytes behind the last slot of a page of members stay 0, in the map and in each image at every moment.
pub fn tails_stay<P: PageDisk>()
    ensures { KeepsTails P.images P.moment P.left_at }
{}

/// What a recovery leaves (`StartupXLOG` and `TrimMultiXact`) is a clean start of the next life.
pub fn restored_begins()
    ensures { RestoredBegins }
{}

/// And its images follow the lists of that life before their first entries.
pub fn life_begins()
    ensures { LifeBegins }
{}

/// Where the values of all locks hold what they are to, the volumes of an engine fit, over any disks.
pub fn engine_fits<L: LogDisk, P: PageDisk>()
    ensures { EngineFits L.images P.images P.moment P.left_at }
{}

/// Where the value of a cluster's log holds what it is to, and each image of its volumes of pg_xact, of offsets and of
/// members follows its bank's list, in a short life that began right, the volumes fit the life's log.
pub fn cluster_fits<L: LogDisk, P: PageDisk>()
    ensures { ClusterFits L.LogDisk P.PageDisk }
{}

/// While a bank of pg_xact, of offsets or of members puts its pages on disk (`SimpleLruWriteAll` of `slru.c`), at each moment
/// and behind it, whatever it answers, what a crash leaves of its volume follows the list of before.
pub fn flushes_follow<P: PageDisk, O: PageRule>()
    ensures states { StatesFlushed P.PageDisk O.PageRule }
    ensures offsets { OffsetsFlushed P.PageDisk O.PageRule }
    ensures members { MembersFlushed P.PageDisk O.PageRule }
{}

/// The volumes of an engine whose parts stand for the lists of their locks fit a log that follows these, on disk just as far
/// as they say: so they do between two critical sections, and while the host is at home behind whatever was answered. In a
/// short life that began with a base from which one may start.
pub fn parts_fit<L: LogDisk, P: PageDisk>()
    ensures { PartsFitLaw L.LogDisk P.PageDisk }
{}
