//! What is kept of the lines of a run.
ghost use Rattle.std.specs.Prelude.{◌≡◌, ℕ, List, [], ◌∷◌, ◌++◌, OnOk};
ghost use Rattle.tx_model.specs.declared.report.Line.{Line};
ghost use Rattle.tx_model.specs.declared.report.Step.{Step as Told};
ghost use Rattle.tx_model.specs.declared.report.Step.TheVariants as steps;

use std::alloc::Global;
use tx_model::{BoxedReply, By, Command, DumpOf, Memory, NameList, Reply, Step};

/// What is kept of the lines of a run while it goes on, as their text or how many there are. In a round each session
/// has a keeper of its own, which then joins that of the run. After want of memory it isn't said what is kept.
pub trait LineKeeper {
    /// Nothing was kept yet.
    ghost nothing: { Self };

    /// What is kept with these lines more, of sessions of these names.
    ghost with_lines: { List (List ℕ) → Self → List Line → Self };

    /// What is kept where the round of this number has begun.
    ghost with_round: { Self → ℕ → Self };

    /// What is kept where this step was told, which stands between two rounds: a checkpoint or a dump.
    ghost with_step: { List (List ℕ) → Self → Told → Self };

    /// What two keep together, the one behind the other.
    ghost joined: { Self → Self → Self };

    /// A keeper of nothing. Takes no memory.
    fn none(alloc: Global) -> Self
        ensures { result ≡ nothing };

    /// Begins the round of this number.
    fn add_round(&mut self, number: u64) -> Result<(), Memory>
        ensures { OnOk result (self.new ≡ with_round self.old number) };

    /// Keeps the line of a command with its reply.
    fn add_line(
        &mut self,
        names: &NameList,
        by: By,
        command: &Command,
        reply: &Reply,
    ) -> Result<(), Memory>
        ensures { OnOk result (self.new ≡ with_lines names.now self.old (record { by = by; command = command.now; reply = reply.now } ∷ [])) };

    /// Keeps a step that stands between two rounds: a checkpoint or a dump.
    fn add_step(&mut self, names: &NameList, step: &Step) -> Result<(), Memory>
        ensures { OnOk result (self.new ≡ with_step names.now self.old step.now) };

    /// Keeps what the other kept, which then keeps nothing.
    fn join(&mut self, other: &mut Self) -> Result<(), Memory>
        ensures kept { OnOk result (self.new ≡ joined self.old other.old) }
        ensures gone { OnOk result (other.new ≡ nothing) };

    /// With no lines more it keeps the same.
    ghost no_lines: { (names : List (List ℕ)) (kept : Self) → with_lines names kept [] ≡ kept };

    /// With lines more, and then others, it keeps them all.
    ghost then_lines: { (names : List (List ℕ)) (kept : Self) (lines more : List Line) → with_lines names (with_lines names kept lines) more ≡ with_lines names kept (lines ++ more) };

    /// What was kept apart is kept as if it had been kept here.
    ghost join_lines: { (names : List (List ℕ)) (kept : Self) (lines : List Line) → joined kept (with_lines names nothing lines) ≡ with_lines names kept lines };
}

/// The laws of a keeper, where threads run too. Does nothing.
pub fn keeper_laws<K: LineKeeper>(_names: &NameList)
    ensures none { (kept : K) → K.with_lines _names.now kept [] ≡ kept }
    ensures then { (kept : K) (lines more : List Line)
        → K.with_lines _names.now (K.with_lines _names.now kept lines) more ≡ K.with_lines _names.now kept (lines ++ more) }
    ensures join { (kept : K) (lines : List Line)
        → K.joined kept (K.with_lines _names.now K.nothing lines) ≡ K.with_lines _names.now kept lines }
{}

/// Keeps a checkpoint that was answered so.
pub fn keep_checkpoint<K: LineKeeper>(
    alloc: Global,
    names: &NameList,
    reply: Reply,
    kept: &mut K,
) -> Result<(), Memory>
    ensures { OnOk result (kept.new ≡ K.with_step names.now kept.old (steps.Checkpoint reply)) }
{
    let step = Step::Checkpoint {
        reply: BoxedReply::of(alloc, reply)?,
    };
    kept.add_step(names, &step)
}

/// Keeps a dump that was answered so.
pub fn keep_dump<K: LineKeeper>(
    alloc: Global,
    names: &NameList,
    what: DumpOf,
    at: u64,
    length: u32,
    reply: Reply,
    kept: &mut K,
) -> Result<(), Memory>
    ensures { OnOk result (kept.new ≡ K.with_step names.now kept.old (steps.Dump what at length reply)) }
{
    let step = Step::Dump {
        what,
        at,
        length,
        reply: BoxedReply::of(alloc, reply)?,
    };
    kept.add_step(names, &step)
}
