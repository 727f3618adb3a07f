//! Two counters behind locks, of which the second is never ahead of the first: the smallest use of a
//! lock table with a published word (docs/CONCURRENCY.md, "Two uses").
#![tactic(auto)]

ghost use Rattle.std.specs.Prelude.{◌≡◌, ℕ, ◌+◌, ◌<◌, ◌≤◌, IfSome, slice_index, vec_len};
ghost use Rattle.hall.specs.declared.view.Stage.TheVariants.{Free, Inside};
ghost use Rattle.notes.specs.Lists.{at};
ghost use Rattle.hall.specs.Rule.{first_view};
ghost use Rattle.hall.specs.Calls.{view, IsOf, IsSame, passes_of};
ghost use Rattle.hall_counts.specs.Tally.{total, last};
ghost use Rattle.hall_counts.specs.Steps.{Went, Still, Added, CaughtUp, opening};

use hall::{Hall, Law, Note, Pass, Writer};
use std::alloc::Global;
use std::sync::Wait;
use std::thread::{Threads, join};

/// What a critical section adds to a counter, or the number that a publication says.
pub struct Entry {
    pub by: u32,
    pub amount: u64,
}

/// Counter 0 lies behind lock 0, and counter 1, which is never greater, behind lock 1. Word 0 says
/// what counter 0 was before its last critical section, or what it is now. Word 1 is session 0's.
pub struct Tally;

impl Law for Tally {
    ghost use Rattle.hall_counts.specs.Tally.{by, writes, total, last, Kept, May};
    ghost use Rattle.hall_counts.specs.Keeping.{keeps};

    type Value = u64;

    type Entry = Entry;

    type Start = ();

    ghost session = { by };

    ghost writer = { λ _. writes };

    ghost stands = { λ _ c v xs. v ≡ total xs };

    ghost number = { λ _ q xs. last xs };

    ghost kept = { λ _ ls. Kept ls };

    ghost may = { λ _ seen q e. May seen q e };

    ghost keeps = { λ _. keeps };
}

/// Counts one in counter 0, and says before what it was. Returns what it is then, which is `u64::MAX`
/// where it was at its greatest and nothing was counted.
pub fn add<R: Wait>(rt: &R, hall: &Hall<Tally>, pass: &mut Pass<Tally>) -> u64
    requires own { IsOf hall.now pass.old }
    requires free { (view pass.old).stage ≡ Free }
    requires sizes { (hall.now.cells ≡ 2) × (hall.now.posts ≡ 2) }
    ensures own { IsOf hall.now pass.new × IsSame pass.old pass.new }
    ensures went { Went (view pass.old) (view pass.new) }
    ensures added { Added (view pass.old) (view pass.new) result }
{
    let value = hall.enter(rt, pass, 0);
    count(hall, pass, value)
}

/// The critical section of counter 0, and its release: `value` is what the entry answered. Returns what `add` does.
pub fn count(hall: &Hall<Tally>, pass: &mut Pass<Tally>, value: u64) -> u64
    requires own { IsOf hall.now pass.old }
    requires inside { (view pass.old).stage ≡ Inside pass.old.cell }
    requires cell { pass.old.cell ≡ 0 }
    requires value { value ≡ total (at (view pass.old).seen 0) }
    requires sizes { (hall.now.cells ≡ 2) × (hall.now.posts ≡ 2) }
    ensures own { IsOf hall.now pass.new × IsSame pass.old pass.new }
    ensures free { (view pass.new).stage ≡ Free }
    ensures added { Added (view pass.old) (view pass.new) result }
    ensures same { ((view pass.new).name ≡ (view pass.old).name) × ((view pass.new).holds ≡ (view pass.old).holds) }
{
    let said = Note::by(&(&*pass, value));
    hall.post(pass, 0, value, said);
    let amount = if value < u64::MAX { 1 } else { 0 };
    let entry = Note::by(&(&*pass, amount));
    hall.leave(pass, value + amount, entry);
    value + amount
}

/// Lets counter 1 catch up with what word 0 says of counter 0, under lock 1 alone. Returns what
/// counter 1 is then.
pub fn catch_up<R: Wait>(rt: &R, hall: &Hall<Tally>, pass: &mut Pass<Tally>) -> u64
    requires own { IsOf hall.now pass.old }
    requires free { (view pass.old).stage ≡ Free }
    requires sizes { (hall.now.cells ≡ 2) × (hall.now.posts ≡ 2) }
    ensures own { IsOf hall.now pass.new × IsSame pass.old pass.new }
    ensures went { Went (view pass.old) (view pass.new) }
    ensures caught_up { CaughtUp (view pass.old) (view pass.new) result }
{
    let value = hall.enter(rt, pass, 1);
    let said = hall.read_post(pass, 0);
    let amount = said.saturating_sub(value);
    let entry = Note::by(&(&*pass, amount));
    hall.leave(pass, value + amount, entry);
    value + amount
}

/// Says any number in word 1, which is session 0's own.
pub fn tell(hall: &Hall<Tally>, pass: &mut Pass<Tally>, number: u64)
    requires own { IsOf hall.now pass.old }
    requires name { (view pass.old).name ≡ 0 }
    requires sizes { (hall.now.cells ≡ 2) × (hall.now.posts ≡ 2) }
    ensures own { IsOf hall.now pass.new × IsSame pass.old pass.new }
    ensures still { Still (view pass.old) (view pass.new) }
    ensures said { last (at (view pass.new).seen 3) ≡ number }
{
    let entry = Note::by(&(&*pass, number));
    hall.post(pass, 1, number, entry);
}

// In a thread of its own.
fn counted<R: Wait>(rt: &R, hall: &Hall<Tally>, pass: Pass<Tally>) -> Pass<Tally>
    requires own { IsOf hall.now pass }
    requires free { (view pass).stage ≡ Free }
    requires sizes { (hall.now.cells ≡ 2) × (hall.now.posts ≡ 2) }
    ensures own { IsOf hall.now result }
    ensures stage { (view result).stage ≡ Free }
    ensures holds { (view result).holds ≡ (view pass).holds }
{
    let mut pass = pass;
    add(rt, hall, &mut pass);
    catch_up(rt, hall, &mut pass);
    pass
}

/// Two counters at 0, words that say 0, and a first pass that may give the names 0 and 1. None where memory is short.
pub fn counters(alloc: Global) -> Option<(Hall<Tally>, Pass<Tally>)>
    ensures own { IfSome result (λ r. IsOf r.0 r.1 × (view r.1 ≡ first_view opening) × (passes_of r.0 ≡ 3)) }
    ensures sizes { IfSome result (λ r. (r.0.cells ≡ 2) × (r.0.posts ≡ 2)) }
{
    let values = vec![in alloc; 0u64, 0].ok()?;
    let posts = vec![in alloc; 0u64, 0].ok()?;
    let from = Note::by(&values);
    Hall::<Tally>::new(alloc, values, posts, 3, from).ok()
}

/// Two threads count one each in counter 0, and let counter 1 catch up. Returns the counters, of which
/// the second is not greater.
pub fn both<R: Threads + Wait + Sync>(rt: &R, alloc: Global) -> Option<Vec<u64>>
    ensures { IfSome result (λ v. (vec_len v ≡ 2) × (slice_index v.items 1 ≤ slice_index v.items 0)) }
{
    let (hall, mut first) = counters(alloc)?;
    let Some(a) = hall.split(&mut first, 0) else {
        unreachable!()
    };
    let Some(b) = hall.split(&mut first, 1) else {
        unreachable!()
    };
    let (a, b) = join(
        rt,
        || -> Pass<Tally>
            requires { IsOf hall a × ((view a).stage ≡ Free) × (hall.cells ≡ 2) × (hall.posts ≡ 2) }
            ensures { IsOf hall result × ((view result).stage ≡ Free) × ((view result).holds ≡ (view a).holds) }
        { counted(rt, &hall, a) },
        || -> Pass<Tally>
            requires { IsOf hall b × ((view b).stage ≡ Free) × (hall.cells ≡ 2) × (hall.posts ≡ 2) }
            ensures { IsOf hall result × ((view result).stage ≡ Free) × ((view result).holds ≡ (view b).holds) }
        { counted(rt, &hall, b) },
    );
    hall.join(&mut first, a);
    hall.join(&mut first, b);
    Some(hall.close_with(first))
}
