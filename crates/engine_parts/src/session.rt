//! How a session of an engine stands.
ghost use Rattle.std.specs.Prelude.{◌≡◌, ◌^◌, ◌<◌};
ghost use Rattle.engine_parts.specs.Calls.{IsCounted};
ghost use Rattle.engine_parts.specs.Sessions.{by_at};
ghost use Rattle.engine_parts.specs.Stages.{pending_in};

use crate::gate::Passing;
use crate::law::EngineLaw;
use disk_core::{LogDisk, PageDisk};
use hall::Pass;
use session_levels::Session as Levels;
use tx_events::{By, FullMulti, FullXid, MemberList, Refusal};

/// How far the end of a session's transaction, or the undo of its savepoint, has come that a fault stopped. A later
/// command goes on with it.
#[derive(Clone, Copy, Debug, PartialEq, Eq, Drop)]
pub enum Stage {
    /// None was begun.
    Clear,
    /// The commit record stands in the log, under this number (XactLogCommitRecord of `xact.c` is done).
    Logged { number: u64 },
    /// The record is on disk, and so many steps of `TransactionIdCommitTree` (`transam.c`) are done.
    Settling { steps: u64 },
    /// An abort was begun.
    Aborting,
    /// An undo was begun.
    Undoing,
}

impl Stage {
    /// Why a call is refused in this stage that needs the transaction as it was.
    pub fn pending(self) -> Option<Refusal>
        ensures { result ≡ pending_in self }
    {
        match self {
            Stage::Clear => None,
            Stage::Logged { .. } | Stage::Settling { .. } => Some(Refusal::CommitPending),
            Stage::Aborting => Some(Refusal::AbortPending),
            Stage::Undoing => Some(Refusal::UndoPending),
        }
    }
}

/// A given id whose parent isn't recorded in pg_subtrans yet.
#[derive(Clone, Copy, Debug, PartialEq, Eq, Drop)]
pub struct Unlinked {
    pub id: FullXid,
    pub parent: FullXid,
}

/// A multixact that the session was given and isn't made wholly yet: a fault stopped it. The session's next call on
/// multixacts goes on with it.
#[derive(Drop)]
pub struct Making {
    pub multi: FullMulti,
    /// Where its members begin, in full.
    pub offset: u64,
    pub members: MemberList,
    /// Whether its record stands in the log (`MultiXactIdCreateFromMembers` of `multixact.c` has logged it).
    pub logged: bool,
}

/// How a session stands between two critical sections.
#[derive(Drop)]
pub struct Session {
    /// Its levels, open ids and snapshots, and how many commands it has run.
    pub levels: Levels,
    /// How far an end has come that was begun.
    pub stage: Stage,
    /// The id that it was given last, where that id's parent isn't recorded yet.
    pub unlinked: Option<Unlinked>,
    /// The multixact that it was given last, where that isn't made wholly yet.
    pub making: Option<Making>,
}

/// A session with its lock permit (a backend, with its `PGPROC` of `src/include/storage/proc.h`).
pub struct Caller<L: LogDisk, P: PageDisk> {
    pub pass: Pass<EngineLaw<L, P>>,
    /// The session's number, below the number of sessions.
    pub number: u32,
    pub session: Session,
    /// How many critical sections its command has begun.
    pub holds: u64,
}

/// The command that the session is at.
pub fn command_of<L: LogDisk, P: PageDisk>(caller: &Caller<L, P>) -> By
    ensures { result ≡ by_at caller.now.number caller.now.session.levels.commands }
{
    By {
        session: caller.number,
        command: caller.session.levels.commands,
    }
}

/// The session goes on to its next command.
pub fn count<L: LogDisk, P: PageDisk>(caller: &mut Caller<L, P>)
    requires few { caller.old.session.levels.commands < 2 ^ 48 }
    ensures { IsCounted caller.old caller.new }
{
    caller.session.levels.commands += 1;
    caller.holds = 0;
}

/// The session comes to the gate, before its command's next critical section.
pub(crate) fn knock<R: Passing, L: LogDisk, P: PageDisk>(rt: &R, caller: &mut Caller<L, P>)
    ensures pass { caller.new.pass ≡ caller.old.pass }
    ensures same { (caller.new.session ≡ caller.old.session) × (caller.new.number ≡ caller.old.number) }
{
    caller.holds = caller.holds.wrapping_add(1);
    rt.before(caller.number, caller.session.levels.commands, caller.holds);
}
