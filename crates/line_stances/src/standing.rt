//! How a session stands, line by line.
ghost use Rattle.std.specs.Prelude.{◌≡◌, ◌↔◌, IsTrue, OnOk, OnErr};
ghost use Rattle.tx_model.specs.declared.command.Command.TheVariants as commands;
ghost use Rattle.tx_model.specs.declared.reply.Reply.TheVariants as replies;
ghost use Rattle.tx_model.specs.Stance.{after, nothing_yet};
ghost use Rattle.line_stances.specs.Settled.{is_snapped, settled, snapped};

use crate::levels::Levels;
use crate::snaps::Snaps;
use std::alloc::Global;
use std::marker::Model;
use tx_events::{FullXid, Memory};
use tx_model::{Command, Line, Reply};

/// How a session stands after some of its lines.
#[derive(Drop)]
pub struct Standing {
    pub levels: Levels,
    pub snaps: Snaps,
}

impl Model for Standing {
    ghost use Rattle.tx_model.specs.Stance.{Stance};

    ghost Value = { Stance };

    ghost view = { λ s. record { levels = s.levels; snaps = s.snaps } };
}

fn is_write(command: &Command) -> bool
    ensures { IsTrue result ↔ (command.now ≡ commands.Write) }
{
    matches!(command, Command::Write)
}

fn is_done(reply: &Reply) -> bool
    ensures { IsTrue result ↔ (reply.now ≡ replies.Done) }
{
    matches!(reply, Reply::Done)
}

fn is_snapped(reply: &Reply) -> bool
    ensures { result ≡ is_snapped reply.now }
{
    matches!(reply, Reply::Snapped { .. })
}

/// What a command leaves that was answered `ok`.
fn settle(standing: &mut Standing, command: &Command) -> Result<(), Memory>
    ensures ok { OnOk result (standing.new ≡ settled standing.old command.now) }
    ensures err { OnErr result (standing.new ≡ standing.old) }
{
    match command {
        Command::Begin => standing.levels.begin(),
        Command::Save => return standing.levels.save(),
        Command::Release => standing.levels.close(),
        Command::Undo => standing.levels.close(),
        Command::Commit => standing.levels.end(),
        Command::Abort => standing.levels.end(),
        Command::DropSnap { name } => standing.snaps.let_go(name.items()),
        _ => (),
    }
    Ok(())
}

/// What a command leaves of the snapshots that was answered with one.
fn take_snapshot(snaps: &mut Snaps, command: &Command, number: u64) -> Result<(), Memory>
    ensures ok { OnOk result (snaps.new ≡ snapped snaps.old number command.now) }
    ensures err { OnErr result (snaps.new ≡ snaps.old) }
{
    match command {
        Command::Snap { name } => snaps.take(name, number),
        _ => Ok(()),
    }
}

impl Standing {
    /// Before its first line.
    pub fn new(alloc: Global) -> Standing
        ensures { result ≡ nothing_yet }
    {
        Standing {
            levels: Levels::new(alloc),
            snaps: Snaps::new(alloc),
        }
    }

    /// One line more, whose command gave these ids. Refused for memory alone; then nothing changed.
    pub fn add(&mut self, line: &Line, ids: &[FullXid]) -> Result<(), Memory>
        ensures ok { OnOk result (self.new ≡ after self.old line.now.by.command line.now.command line.now.reply ids.now) }
        ensures err { OnErr result (self.new ≡ self.old) }
    {
        if is_write(&line.command) {
            return self.levels.fill(ids);
        }
        if is_done(&line.reply) {
            return settle(self, &line.command);
        }
        if is_snapped(&line.reply) {
            return take_snapshot(&mut self.snaps, &line.command, line.by.command);
        }
        Ok(())
    }
}
