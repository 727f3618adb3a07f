ghost use Rattle.engine_life.specs.Courses.{CourseFollows, MembersCourseFollows, OffsetsCourseFollows};
ghost use Rattle.engine_life.specs.Sections.{MembersMoments, OffsetsMoments, SectionsFit, StatesMoments};

use disk_core::PageDisk;
use store_pages::PageRule;

/// While a critical section runs that asks a bank's volume, or forgets the log, each combination of images fits the
/// log, of which those of its volume follow the list with the entry that it will add, and all others theirs.
pub fn sections_fit()
    ensures { SectionsFit }
{}

/// At each moment of the calls of a section, and behind them, what a crash leaves of a bank's volume follows the list
/// that its images show throughout.
pub fn moments_follow<P: PageDisk>()
    ensures states { StatesMoments P.images P.moment P.left_at }
    ensures offsets { OffsetsMoments P.images P.moment P.left_at }
    ensures members { MembersMoments P.images P.moment P.left_at }
{}

/// At each moment since a bank of pg_xact, of offsets or of members was opened what a crash leaves of its volume
/// follows a beginning of the bank's list: the list as it was behind some entry, or behind none. So in a life of fewer
/// than 2,900,000 ids, and for the other two of fewer than 2,900,000 multixacts that began with counters from which a
/// life may start.
pub fn course_follows<P: PageDisk, O: PageRule>()
    ensures states { CourseFollows P.PageDisk O.PageRule }
    ensures offsets { OffsetsCourseFollows P.PageDisk O.PageRule }
    ensures members { MembersCourseFollows P.PageDisk O.PageRule }
{}
