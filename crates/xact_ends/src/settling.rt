//! The states of a commit are set, step by step.
ghost use Rattle.std.specs.Prelude.{◌≡◌, ℕ, ◌+◌, ◌^◌, ◌<◌, ◌≤◌, ◌∷◌, List, Some, length, slice_get};
ghost use Rattle.hall.specs.Calls.{view, start_of};
ghost use Rattle.slru_bank.specs.Plan.{plan};
ghost use Rattle.slru_bank.specs.Steps.{step_first};
ghost use Rattle.engine_parts.specs.declared.session.Stage.TheVariants as stages;
ghost use Rattle.engine_parts.specs.Adding.{Adds, MayFault};
ghost use Rattle.engine_parts.specs.Calls.{MayStep};
ghost use Rattle.engine_parts.specs.Sessions.{by_at};
ghost use Rattle.engine_parts.specs.Stages.{state_of};
ghost use Rattle.xact_ends.specs.Trees.{IsStepOf, IsStepState, SetsStep, Settles};

use bank_sections::{set_page, stall};
use disk_core::{LogDisk, PageDisk};
use engine_parts::{Caller, EngineLaw, Passing, Stage};
use hall::Hall;
use slru_bank::{BankRefusal, PlanStep, plan_step};
use store_pages::bank_of;
use tx_core::State;
use tx_events::{FullXid, Lock, Refusal};

/// The state of a step as the entries name it.
fn entered(state: slru_bank::State) -> State
    requires { IsStepState state }
    ensures { state_of state ≡ Some result }
{
    match state {
        slru_bank::State::Committed => State::Committed,
        slru_bank::State::SubCommitted => State::SubCommitted,
        slru_bank::State::InProgress | slru_bank::State::Aborted => unreachable!(),
    }
}

/// Step `k` of the commit of these open ids.
fn step_of(opened: &[FullXid], k: u64) -> Option<PlanStep>
    requires { 1 ≤ length opened.now }
    ensures { (top : ℕ) (subs : List ℕ) → opened.now ≡ top ∷ subs → result ≡ slice_get (plan top subs) k }
{
    plan_step(opened[0], &opened[1..], k)
}

/// Where the ids of a step begin among the open ids.
fn first_of(step: &PlanStep) -> usize
    requires { step.now.first < 2 ^ 63 }
    ensures { result ≡ step_first step.now }
{
    if step.with_top { 0 } else { step.first + 1 }
}

/// Sets the states of step `k` (`TransactionIdSetPageStatus` of `clog.c`).
fn set_step<R: Passing, L: LogDisk, P: PageDisk>(
    rt: &R,
    hall: &Hall<EngineLaw<L, P>>,
    caller: &mut Caller<L, P>,
    banks: u32,
    k: u64,
    step: &PlanStep,
) -> Result<(), Refusal>
    requires step { MayStep hall.now banks caller.old }
    requires stage { caller.old.session.stage ≡ stages.Settling k }
    requires planned { IsStepOf caller.old.session.levels.open_ids.items k step.now }
    ensures step { MayStep hall.now banks caller.new }
    ensures adds { Adds (by_at caller.old.number caller.old.session.levels.commands) (MayFault result)
        (view caller.old.pass).seen (view caller.new.pass).seen }
    ensures sets { SetsStep caller.old.number k caller.old.session caller.new.session
        (view caller.old.pass).seen (view caller.new.pass).seen result }
    ensures number { caller.new.number ≡ caller.old.number }
{
    let bank = bank_of(step.page, banks);
    let first = first_of(step);
    match set_page(
        rt,
        hall,
        caller,
        bank,
        first,
        step.past + 1,
        entered(step.state),
    ) {
        Ok(()) => {
            caller.session.stage = Stage::Settling { steps: k + 1 };
            Ok(())
        }
        Err(BankRefusal::DiskFault) => Err(Refusal::DiskFault {
            lock: Lock::Xact(bank),
        }),
        Err(BankRefusal::Cut { .. }) => {
            stall(rt);
            unreachable!()
        }
    }
}

/// Sets the states of a commit whose record is on disk, from the step on that was reached (`TransactionIdSetTreeStatus`
/// of `clog.c`).
pub(crate) fn set_tree<R: Passing, L: LogDisk, P: PageDisk>(
    rt: &R,
    hall: &Hall<EngineLaw<L, P>>,
    caller: &mut Caller<L, P>,
    banks: u32,
    from: u64,
) -> Result<(), Refusal>
    requires step { MayStep hall.now banks caller.old }
    requires stage { caller.old.session.stage ≡ stages.Settling from }
    ensures step { MayStep hall.now banks caller.new }
    ensures adds { Adds (by_at caller.old.number caller.old.session.levels.commands) (MayFault result)
        (view caller.old.pass).seen (view caller.new.pass).seen }
    ensures settles { Settles (start_of hall.now) caller.old.number from caller.old.session caller.new.session
        (view caller.old.pass).seen (view caller.new.pass).seen result }
    ensures number { caller.new.number ≡ caller.old.number }
{
    for k in from..u64::MAX {
        let step = match step_of(&caller.session.levels.open_ids, k) {
            Some(step) => step,
            None => return Ok(()),
        };
        match set_step(rt, hall, caller, banks, k, &step) {
            Ok(()) => {}
            Err(refusal) => return Err(refusal),
        }
    }
    unreachable!()
}
