//! A script that is being written, transaction by transaction.
ghost use Rattle.std.specs.Prelude.{◌≡◌, ◌==◌, [], ◌∷◌, ◌+◌, ◌<◌, ◌^◌, ◌%◌, cond, OnOk};
ghost use Rattle.std.specs.List.{flat_map};
ghost use Rattle.script_lines.specs.Said.{named_command, plain_command, said};
ghost use Rattle.session_lang.specs.Plain.{IsInRange};
ghost use Rattle.session_lang.specs.declared.script.Item.TheVariants as items;
ghost use Rattle.script_gen.specs.Choices.{aborted_of, behind_count, behind_transaction, choices, savepoints, seen_of, undone_of};
ghost use Rattle.script_gen.specs.Draws.{next_state, state_behind};
ghost use Rattle.script_gen.specs.Generated.{end_command, is_round_first, look_commands, run_by, savepoint_commands, snapshot, transaction_items};
ghost use Rattle.script_gen.specs.Writing.{Adds};

use crate::draws::Draws;
use script_lines::{Directive, NamedCommand, PlainCommand, Said};
use session_lang::ItemList;
use std::alloc::Global;
use tx_model::Memory;

/// The sessions that take turns.
const SESSIONS: u32 = 4;

/// The transactions of a round.
const ROUND: u32 = 64;

/// The savepoints of each sixteenth transaction.
const DEEP: u32 = 120;

/// The items so far, and the draws for those to come.
#[derive(Drop)]
pub struct Writer {
    pub draws: Draws,
    pub items: ItemList,
}

/// A command of each transaction's snapshot.
fn of_snapshot(command: NamedCommand, number: u32) -> Said<'static>
    ensures { said result ≡ named_command command snapshot number }
{
    Said::Named {
        command,
        number,
        name: b"s",
    }
}

impl Writer {
    /// Nothing, with the draws of a seed.
    pub fn new(alloc: Global, seed: u32) -> Writer
        ensures draws { result.draws.state ≡ seed }
        ensures items { result.items ≡ [] }
    {
        Writer {
            draws: Draws { state: seed },
            items: ItemList::new(alloc),
        }
    }

    /// Adds a command.
    fn put(&mut self, session: u8, command: &Said<'_>) -> Result<(), Memory>
        requires { IsInRange (said command.now) }
        ensures { OnOk result (Adds self.old self.new self.old.draws.state (run_by session (said command.now ∷ []))) }
    {
        self.items.push_command(session, command)
    }

    /// Adds a command without arguments.
    fn put_plain(&mut self, session: u8, command: PlainCommand) -> Result<(), Memory>
        ensures { OnOk result (Adds self.old self.new self.old.draws.state
            (run_by session (plain_command command ∷ []))) }
    {
        self.put(session, &Said::Plain { command })
    }

    /// Ends the round before each 64th transaction but the first.
    fn put_round_end(&mut self, number: u32) -> Result<(), Memory>
        ensures { OnOk result (Adds self.old self.new self.old.draws.state
            (cond (is_round_first number) (items.Round ∷ []) [])) }
    {
        if number == 0 || number % ROUND != 0 {
            return Ok(());
        }
        self.items.push_directive(Directive::Round)
    }

    /// Adds a savepoint, in which the transaction writes, and its end.
    fn put_savepoint(&mut self, session: u8) -> Result<(), Memory>
        ensures { OnOk result (Adds self.old self.new (next_state self.old.draws.state)
            (run_by session (savepoint_commands (next_state self.old.draws.state % 3 == 0)))) }
    {
        self.put_plain(session, PlainCommand::Save)?;
        self.put_plain(session, PlainCommand::Write)?;
        let end = match self.draws.below(3) {
            0 => PlainCommand::Undo,
            _ => PlainCommand::Release,
        };
        self.put_plain(session, end)
    }

    /// How many savepoints a transaction opens.
    fn draw_savepoints(&mut self, number: u32) -> u32
        ensures count { result ≡ savepoints number self.old.draws.state }
        ensures state { self.new.draws.state ≡ behind_count number self.old.draws.state }
        ensures items { self.new.items ≡ self.old.items }
    {
        if number % 16 == 15 {
            return DEEP;
        }
        self.draws.below(4)
    }

    /// Adds so many savepoints, one behind another.
    fn put_savepoints(&mut self, session: u8, count: u32) -> Result<(), Memory>
        ensures { OnOk result (Adds self.old self.new (state_behind count self.old.draws.state)
            (run_by session (flat_map savepoint_commands (undone_of count self.old.draws.state)))) }
    {
        for _ in 0..count {
            self.put_savepoint(session)?;
        }
        Ok(())
    }

    /// Adds a snapshot, of which an id is asked.
    fn put_look(&mut self, session: u8, number: u32) -> Result<(), Memory>
        requires { number + 1 < 2 ^ 32 }
        ensures { OnOk result (Adds self.old self.new (next_state self.old.draws.state)
            (run_by session (look_commands (seen_of number self.old.draws.state)))) }
    {
        let x = 3 + self.draws.below(number + 1);
        self.put(session, &of_snapshot(NamedCommand::Snap, 0))?;
        self.put(session, &of_snapshot(NamedCommand::See, x))?;
        self.put(session, &of_snapshot(NamedCommand::DropSnap, 0))
    }

    /// Adds the end of a transaction.
    fn put_end(&mut self, session: u8) -> Result<(), Memory>
        ensures { OnOk result (Adds self.old self.new (next_state self.old.draws.state)
            (run_by session (end_command (aborted_of self.old.draws.state) ∷ []))) }
    {
        let end = match self.draws.below(5) {
            0 => PlainCommand::Abort,
            _ => PlainCommand::Commit,
        };
        self.put_plain(session, end)
    }

    /// Adds the transaction of this number.
    pub fn put_transaction(&mut self, number: u32) -> Result<(), Memory>
        requires { number + 1 < 2 ^ 32 }
        ensures { OnOk result (Adds self.old self.new (behind_transaction number self.old.draws.state)
            (transaction_items number (choices number self.old.draws.state))) }
    {
        self.put_round_end(number)?;
        let session = (number % SESSIONS) as u8;
        self.put_plain(session, PlainCommand::Begin)?;
        self.put_plain(session, PlainCommand::Write)?;
        let count = self.draw_savepoints(number);
        self.put_savepoints(session, count)?;
        self.put_look(session, number)?;
        self.put_end(session)
    }
}
