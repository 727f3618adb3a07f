// Drives a table by the commands of a test.
ghost use Rattle.std.specs.Prelude.{◌≡◌, ◌<◌, ◌≤◌};
ghost use Rattle.std.specs.List.{All};
ghost use Rattle.tx_events.specs.Events.{by_of};
ghost use Rattle.proc_table.specs.Table.{InTurn};

use crate::numbers::{id, multi};
use proc_table::{Asked, Given, ProcTable};
use std::process::Abort;
use tx_events::{By, Counters, FullXid, Name, Refusal, SharedSnap, XactEnd, is_base};

/// From here on commands have one number.
const MOST_COMMANDS: u64 = 1_000_000;

fn next_command(command: u64) -> u64
    ensures { command ≤ result }
{
    if command < MOST_COMMANDS {
        command + 1
    } else {
        command
    }
}

/// A table for three sessions, called with ever higher command numbers and only where the conditions hold.
#[derive(Drop)]
pub struct Driver {
    pub table: ProcTable,
    pub command: u64,
    ghost three: { table.sessions ≡ 3 },
    ghost in_turn: { All (λ f. (by_of f).command ≤ command) table.events },
}

impl Driver {
    /// A table of a life that starts with these ids.
    pub fn new(rt: &(impl Abort + AllocGlobal), next: u64, oldest: u64) -> Driver {
        let multi = multi(rt, 1);
        let base = Counters {
            next: id(rt, next),
            oldest: id(rt, oldest),
            multi,
            offset: 1,
            oldest_multi: multi,
            oldest_offset: 1,
        };
        assert!(rt; is_base(&base));
        let table = ProcTable::new(rt.alloc(), base, 3).expect(rt, "memory");
        Driver { table, command: 0 }
    }

    /// The session's next command.
    fn by(&mut self, session: u32) -> By
        ensures session { result.session ≡ session }
        ensures command { result.command ≡ self.new.command }
        ensures turn { InTurn result self.new.table.events }
        ensures table { self.new.table ≡ self.old.table }
    {
        let command = next_command(self.command);
        self.command = command;
        By { session, command }
    }

    /// A top-level id, or where the session has one, a subid below it.
    pub fn write(&mut self, session: u32) -> Result<Given, Refusal>
        requires { session < 3 }
    {
        let by = self.by(session);
        match self.table.open_top(session) {
            Some(top) => self.table.add_sub(by, top),
            None => self.table.assign(by),
        }
    }

    /// The pages of the next id are made.
    pub fn make_page(&mut self) {
        let next = self.table.next();
        self.table.made(next);
    }

    /// The end of the session's transaction, if it has one.
    pub fn end(&mut self, session: u32, how: XactEnd)
        requires { session < 3 }
    {
        let by = self.by(session);
        if let Some(top) = self.table.open_top(session) {
            self.table.end(by, top, how);
        }
    }

    /// A snapshot under the name, or none where that is in use.
    pub fn snap(&mut self, rt: &impl Abort, session: u32, name: &Name) -> Option<SharedSnap>
        requires { session < 3 }
    {
        let by = self.by(session);
        if self.table.is_live(session, name) {
            return None;
        }
        Some(self.table.snapshot(by, name).expect(rt, "memory"))
    }

    /// The drop of a live snapshot, if there is one of this name.
    pub fn drop_snap(&mut self, session: u32, name: &Name) -> bool
        requires { session < 3 }
    {
        let by = self.by(session);
        if !self.table.is_live(session, name) {
            return false;
        }
        self.table.drop_snapshot(by, name);
        true
    }

    pub fn raise(&mut self, session: u32, oldest: FullXid) -> Result<(), Refusal>
        requires { session < 3 }
    {
        let by = self.by(session);
        self.table.raise_oldest(by, oldest)
    }

    /// How a full id stands.
    pub fn ask(&mut self, rt: &impl Abort, session: u32, x: FullXid) -> Asked
        requires { session < 3 }
    {
        assert!(rt; x.number() >= 3);
        let by = self.by(session);
        self.table.ask(by, x).expect(rt, "memory")
    }
}
