//! Lines as a report keeps them.
ghost use Rattle.std.specs.Prelude.{◌≡◌, ◌↔◌, IfOk, IsTrue};
ghost use Rattle.tx_model.specs.declared.command.Command.TheVariants as commands;

use crate::exchange::Exchange;
use crate::kept_command::CommandLook;
use crate::kept_reply::ReplyLook;
use crate::report::Line;
use std::alloc::Global;
use std::marker::Model;
use tx_events::{By, Memory};

/// A line as a report keeps it, in a third of the bytes of a `Line`. No report that is read has so many lines that the
/// number of a command wouldn't fit. A contract sees the `Line`.
#[derive(Drop)]
pub struct KeptLine {
    session: u32,
    number: u32,
    exchange: Exchange,
}

const _: () = prove!(size_of::<KeptLine>() == 32);

impl Model for KeptLine {
    ghost use Rattle.tx_model.specs.declared.report.Line.{Line};
    ghost use Rattle.tx_model.specs.Exchanged.{command_said, reply_said};

    ghost Value = { Line };

    ghost view = { λ k. record {
      by = record { session = k.session; command = k.number };
      command = command_said k.exchange;
      reply = reply_said k.exchange;
    } };
}

impl KeptLine {
    /// This line. Refused for want of memory, and where the number of its command is 2^32 or more.
    pub fn of(alloc: Global, line: Line) -> Result<KeptLine, Memory>
        ensures { IfOk result (λ k. k ≡ line) }
    {
        let Line { by, command, reply } = line;
        let number = match u32::try_from(by.command) {
            Ok(number) => number,
            Err(_e) => return Err(Memory),
        };
        Ok(KeptLine {
            session: by.session,
            number,
            exchange: Exchange::of(alloc, command, reply)?,
        })
    }

    /// The command that it is of.
    pub fn by(&self) -> By
        ensures { result ≡ self.now.by }
    {
        By {
            session: self.session,
            command: u64::from(self.number),
        }
    }

    /// Whether its command commits.
    pub fn is_commit(&self) -> bool
        ensures { IsTrue result ↔ (self.now.command ≡ commands.Commit) }
    {
        self.exchange.is_commit()
    }

    /// Whether it aborts.
    pub fn is_abort(&self) -> bool
        ensures { IsTrue result ↔ (self.now.command ≡ commands.Abort) }
    {
        self.exchange.is_abort()
    }

    /// The command, to be looked at.
    pub fn command(&self) -> CommandLook<'_>
        ensures { result ≡ self.now.command }
    {
        self.exchange.command()
    }

    /// The reply, to be looked at.
    pub fn reply(&self) -> ReplyLook<'_>
        ensures { result ≡ self.now.reply }
    {
        self.exchange.reply()
    }

    /// The line itself. Takes memory only where the command or the reply is kept in a block.
    pub fn line(&self) -> Result<Line, Memory>
        ensures { IfOk result (λ l. l ≡ self.now) }
    {
        let command = self.exchange.command().owned()?;
        let reply = self.exchange.reply().owned()?;
        Ok(Line {
            by: self.by(),
            command,
            reply,
        })
    }
}
