//! The undo of a savepoint that has an id: the states of its ids, page by page, and the end.
ghost use Rattle.std.specs.Prelude.{◌≡◌, ◌⊎◌, ℕ, ◌+◌, ◌*◌, ◌<◌, ◌≤◌, Some, length};
ghost use Rattle.hall.specs.Calls.{view, IsOf, start_of};
ghost use Rattle.engine_parts.specs.declared.session.Stage.TheVariants as stages;
ghost use Rattle.engine_parts.specs.Adding.{Adds, MayFault};
ghost use Rattle.engine_parts.specs.Sessions.{MayCall, by_at, inner_id};
ghost use Rattle.xact_ends.specs.Aborts.{IsOnePage, SetsAborted};
ghost use Rattle.xact_ends.specs.Undos.{AreOfSavepoint, Undoes};

use bank_sections::{set_page, stall};
use disk_core::{LogDisk, PageDisk};
use engine_parts::{Caller, EngineLaw, Passing, Stage};
use hall::Hall;
use proc_sections::{place_of, undo_savepoint};
use slru_bank::{BankRefusal, run_end};
use store_pages::{bank_of, xact_page};
use tx_core::State;
use tx_events::{FullXid, Lock, Refusal};

/// Sets the open ids from the `first` one to before the `past` one aborted, which were given in the savepoint that is
/// undone and lie on one page.
fn roll_back_run<R: Passing, L: LogDisk, P: PageDisk>(
    rt: &R,
    hall: &Hall<EngineLaw<L, P>>,
    caller: &mut Caller<L, P>,
    banks: u32,
    first: usize,
    past: usize,
) -> Result<(), Refusal>
    requires own { IsOf hall.now caller.old.pass }
    requires laid { hall.now.cells ≡ 3 + 4 * (start_of hall.now).banks }
    requires banks { (banks ≡ (start_of hall.now).banks) × (1 ≤ banks) × (banks ≤ 16) }
    requires may { MayCall (start_of hall.now) (view caller.old.pass) caller.old.number caller.old.session }
    requires stage { caller.old.session.stage ≡ stages.Undoing }
    requires some { first < past }
    requires among { past ≤ length caller.old.session.levels.open_ids.items }
    requires inside { AreOfSavepoint caller.old.session first past }
    requires page { IsOnePage caller.old.session.levels.open_ids.items first past }
    ensures own { IsOf hall.now caller.new.pass }
    ensures may { MayCall (start_of hall.now) (view caller.new.pass) caller.new.number caller.new.session }
    ensures adds { Adds (by_at caller.old.number caller.old.session.levels.commands) (MayFault result)
        (view caller.old.pass).seen (view caller.new.pass).seen }
    ensures sets { SetsAborted (start_of hall.now) caller.old.number caller.old.session caller.new.session first past
        (view caller.old.pass).seen (view caller.new.pass).seen result }
    ensures number { caller.new.number ≡ caller.old.number }
{
    let id = caller.session.levels.open_ids[first];
    let bank = bank_of(xact_page(id.low()), banks);
    match set_page(rt, hall, caller, bank, first, past, State::Aborted) {
        Ok(()) => Ok(()),
        Err(BankRefusal::DiskFault) => Err(Refusal::DiskFault {
            lock: Lock::Xact(bank),
        }),
        Err(BankRefusal::Cut { .. }) => {
            stall(rt);
            unreachable!()
        }
    }
}

/// Sets the open ids from this place on aborted (`TransactionIdSetTreeStatus` of `clog.c`), those of a page at once.
fn roll_back<R: Passing, L: LogDisk, P: PageDisk>(
    rt: &R,
    hall: &Hall<EngineLaw<L, P>>,
    caller: &mut Caller<L, P>,
    banks: u32,
    from: usize,
) -> Result<(), Refusal>
    requires own { IsOf hall.now caller.old.pass }
    requires laid { hall.now.cells ≡ 3 + 4 * (start_of hall.now).banks }
    requires banks { (banks ≡ (start_of hall.now).banks) × (1 ≤ banks) × (banks ≤ 16) }
    requires may { MayCall (start_of hall.now) (view caller.old.pass) caller.old.number caller.old.session }
    requires stage { caller.old.session.stage ≡ stages.Undoing }
    requires within { from ≤ length caller.old.session.levels.open_ids.items }
    requires inside { AreOfSavepoint caller.old.session from (length caller.old.session.levels.open_ids.items) }
    ensures own { IsOf hall.now caller.new.pass }
    ensures may { MayCall (start_of hall.now) (view caller.new.pass) caller.new.number caller.new.session }
    ensures adds { Adds (by_at caller.old.number caller.old.session.levels.commands) (MayFault result)
        (view caller.old.pass).seen (view caller.new.pass).seen }
    ensures sets { SetsAborted (start_of hall.now) caller.old.number caller.old.session caller.new.session
        from (length caller.old.session.levels.open_ids.items) (view caller.old.pass).seen (view caller.new.pass).seen
        result }
    ensures number { caller.new.number ≡ caller.old.number }
{
    let mut first = from;
    while first < caller.session.levels.open_ids.len() {
        let past = run_end(&caller.session.levels.open_ids, first);
        match roll_back_run(rt, hall, caller, banks, first, past) {
            Ok(()) => first = past,
            Err(refusal) => return Err(refusal),
        }
    }
    Ok(())
}

/// Undoes the innermost savepoint, which has this id. A fault leaves the undo pending.
pub(crate) fn undo_named<R: Passing, L: LogDisk, P: PageDisk>(
    rt: &R,
    hall: &Hall<EngineLaw<L, P>>,
    caller: &mut Caller<L, P>,
    banks: u32,
    id: FullXid,
) -> Result<(), Refusal>
    requires own { IsOf hall.now caller.old.pass }
    requires laid { hall.now.cells ≡ 3 + 4 * (start_of hall.now).banks }
    requires banks { (banks ≡ (start_of hall.now).banks) × (1 ≤ banks) × (banks ≤ 16) }
    requires may { MayCall (start_of hall.now) (view caller.old.pass) caller.old.number caller.old.session }
    requires stage { (caller.old.session.stage ≡ stages.Clear) ⊎ (caller.old.session.stage ≡ stages.Undoing) }
    requires savepoint { 2 ≤ length caller.old.session.levels.level_ids.items }
    requires innermost { inner_id caller.old.session ≡ Some id }
    ensures own { IsOf hall.now caller.new.pass }
    ensures may { MayCall (start_of hall.now) (view caller.new.pass) caller.new.number caller.new.session }
    ensures adds { Adds (by_at caller.old.number caller.old.session.levels.commands) (MayFault result)
        (view caller.old.pass).seen (view caller.new.pass).seen }
    ensures undoes { Undoes caller.old.number id caller.old.session caller.new.session
        (view caller.old.pass).seen (view caller.new.pass).seen result }
    ensures number { caller.new.number ≡ caller.old.number }
{
    caller.session.stage = Stage::Undoing;
    let from = place_of(&caller.session.levels.open_ids, id);
    match roll_back(rt, hall, caller, banks, from) {
        Ok(()) => {
            undo_savepoint(rt, hall, caller, id);
            Ok(())
        }
        Err(refusal) => Err(refusal),
    }
}
