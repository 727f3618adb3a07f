//! Commands as a report keeps them.
ghost use Rattle.std.specs.Prelude.{◌≡◌, ◌↔◌, IfOk, IfSome, IsTrue};
ghost use Rattle.tx_model.specs.declared.command.Command.TheVariants as commands;
ghost use Rattle.tx_model.specs.Kept.{command_in};

use crate::command::Command;
use crate::short_name::ShortName;
use std::alloc::Global;
use std::marker::Model;
use tx_events::{Copied, FullMulti, FullXid, Memory, MultiId, Xid};

/// A command in 16 bytes.
#[derive(Drop)]
pub(crate) enum KeptCommand {
    Begin,
    Save,
    Write,
    Release,
    Undo,
    Commit,
    Abort,
    Trim,
    Horizon,
    Snap { name: ShortName },
    DropSnap { name: ShortName },
    See { name: ShortName, x: Xid },
    Status { x: FullXid },
    Did { x: Xid },
    SeeMulti { name: ShortName, multi: MultiId },
    Freeze { oldest: FullXid },
    MultiFreeze { multi: FullMulti },
    /// One with members or a long name.
    Long { command: Box<Command> },
}

const _: () = prove!(size_of::<KeptCommand>() == 16);

#[derive(Drop)]
enum Looked<'a> {
    Made { command: Command },
    Lent { command: &'a Command },
}

/// A command that is looked at. A contract sees the `Command`.
#[derive(Drop)]
pub struct CommandLook<'a> {
    looked: Looked<'a>,
}

impl<'a> Model for CommandLook<'a> {
    ghost use Rattle.tx_model.specs.declared.command.Command.{Command};
    ghost use Rattle.tx_model.specs.Looks.{command_seen};

    ghost Value = { Command };

    ghost view = { λ l. command_seen l.looked };
}

impl<'a> CommandLook<'a> {
    /// A command made for this look.
    pub(crate) fn made(command: Command) -> CommandLook<'a>
        ensures { result ≡ command }
    {
        CommandLook {
            looked: Looked::Made { command },
        }
    }

    /// A command that is kept.
    pub(crate) fn lent(command: &'a Command) -> CommandLook<'a>
        ensures { result ≡ command.now }
    {
        CommandLook {
            looked: Looked::Lent { command },
        }
    }

    /// The command.
    pub fn command(&self) -> &Command
        ensures { result.now ≡ self.now }
    {
        match &self.looked {
            Looked::Made { command } => command,
            Looked::Lent { command } => command,
        }
    }

    /// The command, copied where it is lent.
    pub fn owned(self) -> Result<Command, Memory>
        ensures { IfOk result (λ c. c ≡ self.entry) }
    {
        match self.looked {
            Looked::Made { command } => Ok(command),
            Looked::Lent { command } => command.copy(),
        }
    }
}

/// Whether the command commits.
pub(crate) fn is_commit(command: &Command) -> bool
    ensures { IsTrue result ↔ (command.now ≡ commands.Commit) }
{
    matches!(command, Command::Commit)
}

/// Whether it aborts.
pub(crate) fn is_abort(command: &Command) -> bool
    ensures { IsTrue result ↔ (command.now ≡ commands.Abort) }
{
    matches!(command, Command::Abort)
}

/// The command in place, if it has room.
fn short(command: &Command) -> Option<KeptCommand>
    ensures { IfSome result (λ c. command_in c ≡ command.now) }
{
    Some(match command {
        Command::Begin => KeptCommand::Begin,
        Command::Save => KeptCommand::Save,
        Command::Write => KeptCommand::Write,
        Command::Release => KeptCommand::Release,
        Command::Undo => KeptCommand::Undo,
        Command::Commit => KeptCommand::Commit,
        Command::Abort => KeptCommand::Abort,
        Command::Trim => KeptCommand::Trim,
        Command::Horizon => KeptCommand::Horizon,
        Command::Snap { name } => KeptCommand::Snap {
            name: ShortName::of(name)?,
        },
        Command::DropSnap { name } => KeptCommand::DropSnap {
            name: ShortName::of(name)?,
        },
        Command::See { name, x } => KeptCommand::See {
            name: ShortName::of(name)?,
            x: *x,
        },
        Command::Status { x } => KeptCommand::Status { x: *x },
        Command::Did { x } => KeptCommand::Did { x: *x },
        Command::Multi { .. } => return None,
        Command::SeeMulti { name, multi } => KeptCommand::SeeMulti {
            name: ShortName::of(name)?,
            multi: *multi,
        },
        Command::Freeze { oldest } => KeptCommand::Freeze { oldest: *oldest },
        Command::MultiFreeze { multi } => KeptCommand::MultiFreeze { multi: *multi },
    })
}

impl KeptCommand {
    /// This command. Takes memory only where it has members or a long name.
    pub(crate) fn of(alloc: Global, command: Command) -> Result<KeptCommand, Memory>
        ensures { IfOk result (λ c. command_in c ≡ command) }
    {
        match short(&command) {
            Some(kept) => Ok(kept),
            None => Ok(KeptCommand::Long {
                command: Box::new(alloc, command)?,
            }),
        }
    }

    /// Whether it commits.
    pub(crate) fn is_commit(&self) -> bool
        ensures { IsTrue result ↔ (command_in self.now ≡ commands.Commit) }
    {
        match self {
            KeptCommand::Commit => true,
            KeptCommand::Long { command } => is_commit(command),
            _ => false,
        }
    }

    /// Whether it aborts.
    pub(crate) fn is_abort(&self) -> bool
        ensures { IsTrue result ↔ (command_in self.now ≡ commands.Abort) }
    {
        match self {
            KeptCommand::Abort => true,
            KeptCommand::Long { command } => is_abort(command),
            _ => false,
        }
    }

    /// The command, to be looked at.
    pub(crate) fn look(&self) -> CommandLook<'_>
        ensures { result ≡ command_in self.now }
    {
        let command = match self {
            KeptCommand::Begin => Command::Begin,
            KeptCommand::Save => Command::Save,
            KeptCommand::Write => Command::Write,
            KeptCommand::Release => Command::Release,
            KeptCommand::Undo => Command::Undo,
            KeptCommand::Commit => Command::Commit,
            KeptCommand::Abort => Command::Abort,
            KeptCommand::Trim => Command::Trim,
            KeptCommand::Horizon => Command::Horizon,
            KeptCommand::Snap { name } => Command::Snap { name: name.name() },
            KeptCommand::DropSnap { name } => Command::DropSnap { name: name.name() },
            KeptCommand::See { name, x } => Command::See {
                name: name.name(),
                x: *x,
            },
            KeptCommand::Status { x } => Command::Status { x: *x },
            KeptCommand::Did { x } => Command::Did { x: *x },
            KeptCommand::SeeMulti { name, multi } => Command::SeeMulti {
                name: name.name(),
                multi: *multi,
            },
            KeptCommand::Freeze { oldest } => Command::Freeze { oldest: *oldest },
            KeptCommand::MultiFreeze { multi } => Command::MultiFreeze { multi: *multi },
            KeptCommand::Long { command } => return CommandLook::lent(command),
        };
        CommandLook::made(command)
    }
}
