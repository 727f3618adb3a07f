//! How many lines a run has.
ghost use Rattle.std.specs.Prelude.{◌≡◌, ◌<◌, ◌^◌, [], length};
ghost use Rattle.script_rounds.specs.Counted.{verdict_count, verdicts_in};

use crate::keeper::LineKeeper;
use crate::told::ToldLines;
use std::alloc::Global;
use std::marker::Model;
use tx_model::{By, Command, Memory, NameList, Reply, Step};

/// How many lines there are, and how many of them have a verdict as their reply. A contract sees the lines themselves.
#[derive(Drop)]
pub struct Tally {
    // Each count stops at the greatest 64-bit number.
    commands: u64,
    verdicts: u64,
    lines: ToldLines,
}

impl Model for Tally {
    ghost use Rattle.std.specs.Prelude.{◌≡◌, List, length};
    ghost use Rattle.tx_model.specs.declared.report.Line.{Line};
    ghost use Rattle.script_rounds.specs.Counted.{capped, verdicts_in};

    ghost Value = { List Line };

    ghost view = { λ t. t.lines };

    ghost invariant = { λ t. (t.commands ≡ capped (length t.lines)) × (t.verdicts ≡ capped (verdicts_in t.lines)) };
}

/// 1 for a verdict, `visible` or `hidden`, and else 0.
fn verdict_count(reply: &Reply) -> u64
    ensures { result ≡ verdict_count reply.now }
{
    match reply {
        Reply::Seen { .. } => 1,
        _ => 0,
    }
}

/// No lines.
fn no_lines() -> Tally
    ensures { result ≡ [] }
{
    Tally {
        commands: 0,
        verdicts: 0,
        lines: ToldLines::none(),
    }
}

impl Tally {
    /// How many lines there are, if fewer than 2^64.
    pub fn commands(&self) -> u64
        ensures { length self.now < 2 ^ 64 → result ≡ length self.now }
    {
        self.commands
    }

    /// How many of them have a verdict, `visible` or `hidden`, if fewer than 2^64.
    pub fn verdicts(&self) -> u64
        ensures { verdicts_in self.now < 2 ^ 64 → result ≡ verdicts_in self.now }
    {
        self.verdicts
    }
}

impl LineKeeper for Tally {
    ghost use Rattle.std.specs.Prelude.{[], ◌++◌};
    ghost use Rattle.std.proofs.Common.{append-nil, append_assoc, refl};

    ghost nothing = { [] };

    ghost with_lines = { λ names kept lines. kept ++ lines };

    ghost with_round = { λ kept number. kept };

    ghost with_step = { λ names kept step. kept };

    ghost joined = { λ kept more. kept ++ more };

    ghost no_lines = { λ names kept. append-nil kept };

    ghost then_lines = { λ names kept lines more. append_assoc kept lines more };

    ghost join_lines = { λ names kept lines. refl };

    fn none(_alloc: Global) -> Tally {
        no_lines()
    }

    fn add_round(&mut self, _number: u64) -> Result<(), Memory> {
        Ok(())
    }

    fn add_line(
        &mut self,
        _names: &NameList,
        by: By,
        command: &Command,
        reply: &Reply,
    ) -> Result<(), Memory> {
        self.lines.add(by, command, reply);
        self.commands = self.commands.saturating_add(1);
        self.verdicts = self.verdicts.saturating_add(verdict_count(reply));
        Ok(())
    }

    fn add_step(&mut self, _names: &NameList, _step: &Step) -> Result<(), Memory> {
        Ok(())
    }

    fn join(&mut self, other: &mut Tally) -> Result<(), Memory> {
        self.lines.add_all(&other.lines);
        self.commands = self.commands.saturating_add(other.commands);
        self.verdicts = self.verdicts.saturating_add(other.verdicts);
        *other = no_lines();
        Ok(())
    }
}
