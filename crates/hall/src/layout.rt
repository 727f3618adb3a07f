//! Where the words of a table lie.
ghost use Rattle.std.specs.Prelude.{◌≡◌, ◌^◌, ◌<◌};
ghost use Rattle.hall.specs.Layout.{line_of};

// The words of 64 bits in a cache line of 64 bytes. A processor that writes a word takes its whole
// line from the others, so each place has a line of its own, and threads at different locks don't
// disturb each other.
pub(crate) const LINE: usize = 8;

// The word of no place, in a line of its own.
pub(crate) const SPARE: usize = 0;

// The word of a place, the first of its line: 1 while a pass is inside the lock and else 0, or the
// number of a published word.
pub(crate) fn line_at(place: usize) -> usize
    requires { line_of place < 2 ^ 64 }
    ensures { result ≡ line_of place }
{
    LINE * (place + 1)
}
