//! Whether several things are so.
ghost use Rattle.std.specs.Prelude.{◌<◌, ◌↔◌, IsTrue};

use tx_events::FullXid;

pub fn both(one: bool, other: bool) -> bool
    ensures { IsTrue result ↔ (IsTrue one × IsTrue other) }
{
    one && other
}

pub fn all_three(one: bool, other: bool, third: bool) -> bool
    ensures { IsTrue result ↔ (IsTrue one × IsTrue other × IsTrue third) }
{
    one && other && third
}

pub fn all_six(a: bool, b: bool, c: bool, d: bool, e: bool, f: bool) -> bool
    ensures { IsTrue result ↔ (IsTrue a × IsTrue b × IsTrue c × IsTrue d × IsTrue e × IsTrue f) }
{
    a && b && c && d && e && f
}

pub fn are_same(one: bool, other: bool) -> bool
    ensures { IsTrue result ↔ (IsTrue one ↔ IsTrue other) }
{
    one == other
}

pub fn is_below(x: FullXid, oldest: FullXid) -> bool
    ensures { IsTrue result ↔ (x < oldest) }
{
    x < oldest
}
