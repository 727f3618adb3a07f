//! Which of its calls to come a volume fails without doing them.
ghost use Rattle.std.specs.Prelude.{◌≡◌, IsTrue, false, IsErr, OnErr};
ghost use Rattle.disk_core.specs.Faults.{counted_by, CountsFault};
ghost use Rattle.disk_fuse.specs.Fuse.{spent, is_blown, past_crash};

use disk_core::Failed;

#[derive(Clone, Copy, Debug, PartialEq, Eq)]
pub enum Fails {
    Never,
    /// Each behind so many.
    Behind(u64),
    /// The one of this number, from 1; none where it is 0.
    At(u64),
}

// The next call, which is failed or goes on to the volume within.
pub(crate) fn spend(fails: &mut Fails, refused: &mut u64) -> Result<(), Failed>
    ensures left { fails.new ≡ spent fails.old }
    ensures blown { IsTrue (is_blown fails.old) → IsErr result }
    ensures passes { OnErr result (IsTrue (is_blown fails.old)) }
    ensures counted { refused.new ≡ counted_by result refused.old }
    ensures cause { CountsFault result refused.old refused.new }
{
    let is_blown = match *fails {
        Fails::Never => false,
        Fails::Behind(n) => {
            *fails = Fails::Behind(n.saturating_sub(1));
            n == 0
        }
        Fails::At(n) => {
            *fails = Fails::At(n.saturating_sub(1));
            n == 1
        }
    };
    if is_blown {
        *refused = refused.saturating_add(1);
        return Err(Failed);
    }
    Ok(())
}

// Which calls fail behind a crash, of those that the media's volume was to fail and those that are left of them.
pub(crate) fn past_crash(fails: Fails, left: Fails) -> Fails
    ensures { result ≡ past_crash fails left }
{
    match fails {
        Fails::Never | Fails::Behind(_) => Fails::Never,
        Fails::At(_) => left,
    }
}
