//! Commands of one word, refusals and replies of one.
ghost use Rattle.std.specs.Prelude.{◌≡◌, ◌↔◌, IfSome, IsTrue};
ghost use Rattle.tx_model.specs.declared.command.Command.TheVariants as commands;
ghost use Rattle.tx_model.specs.Brief.{command_of, refusal_of, reply_of};

use crate::command::Command;
use crate::reply::{Reply, Status};
use tx_events::Refusal;

/// A command of one word.
#[derive(Clone, Copy, Debug, PartialEq, Eq)]
pub(crate) enum Word {
    Begin,
    Save,
    Write,
    Release,
    Undo,
    Commit,
    Abort,
    Trim,
    Horizon,
}

impl Word {
    /// The word of the command, if it is of one.
    pub(crate) fn of(command: &Command) -> Option<Word>
        ensures { IfSome result (λ w. command_of w ≡ command.now) }
    {
        match command {
            Command::Begin => Some(Word::Begin),
            Command::Save => Some(Word::Save),
            Command::Write => Some(Word::Write),
            Command::Release => Some(Word::Release),
            Command::Undo => Some(Word::Undo),
            Command::Commit => Some(Word::Commit),
            Command::Abort => Some(Word::Abort),
            Command::Trim => Some(Word::Trim),
            Command::Horizon => Some(Word::Horizon),
            _ => None,
        }
    }

    /// Whether its command commits.
    pub(crate) fn is_commit(self) -> bool
        ensures { IsTrue result ↔ (command_of self ≡ commands.Commit) }
    {
        matches!(self, Word::Commit)
    }

    /// Whether it aborts.
    pub(crate) fn is_abort(self) -> bool
        ensures { IsTrue result ↔ (command_of self ≡ commands.Abort) }
    {
        matches!(self, Word::Abort)
    }

    /// Its command.
    pub(crate) fn command(self) -> Command
        ensures { result ≡ command_of self }
    {
        match self {
            Word::Begin => Command::Begin,
            Word::Save => Command::Save,
            Word::Write => Command::Write,
            Word::Release => Command::Release,
            Word::Undo => Command::Undo,
            Word::Commit => Command::Commit,
            Word::Abort => Command::Abort,
            Word::Trim => Command::Trim,
            Word::Horizon => Command::Horizon,
        }
    }
}

/// A refusal of one word.
#[derive(Clone, Copy, Debug, PartialEq, Eq)]
pub(crate) enum WordRefusal {
    AlreadyOpen,
    NoTransaction,
    NoSavepoint,
    DepthLimit,
    CommitPending,
    AbortPending,
    UndoPending,
    LogFault,
    Full,
    NameTaken,
    SnapLimit,
    NoSnapshot,
    TwoUpdaters,
    MemberCount,
    MultiPending,
    Memory,
}

impl WordRefusal {
    /// The word of the refusal, if it is of one.
    pub(crate) fn of(refusal: Refusal) -> Option<WordRefusal>
        ensures { IfSome result (λ w. refusal_of w ≡ refusal) }
    {
        match refusal {
            Refusal::AlreadyOpen => Some(WordRefusal::AlreadyOpen),
            Refusal::NoTransaction => Some(WordRefusal::NoTransaction),
            Refusal::NoSavepoint => Some(WordRefusal::NoSavepoint),
            Refusal::DepthLimit => Some(WordRefusal::DepthLimit),
            Refusal::CommitPending => Some(WordRefusal::CommitPending),
            Refusal::AbortPending => Some(WordRefusal::AbortPending),
            Refusal::UndoPending => Some(WordRefusal::UndoPending),
            Refusal::LogFault => Some(WordRefusal::LogFault),
            Refusal::Full => Some(WordRefusal::Full),
            Refusal::NameTaken => Some(WordRefusal::NameTaken),
            Refusal::SnapLimit => Some(WordRefusal::SnapLimit),
            Refusal::NoSnapshot => Some(WordRefusal::NoSnapshot),
            Refusal::TwoUpdaters => Some(WordRefusal::TwoUpdaters),
            Refusal::MemberCount => Some(WordRefusal::MemberCount),
            Refusal::MultiPending => Some(WordRefusal::MultiPending),
            Refusal::Memory => Some(WordRefusal::Memory),
            _ => None,
        }
    }

    /// The refusal.
    pub(crate) fn refusal(self) -> Refusal
        ensures { result ≡ refusal_of self }
    {
        match self {
            WordRefusal::AlreadyOpen => Refusal::AlreadyOpen,
            WordRefusal::NoTransaction => Refusal::NoTransaction,
            WordRefusal::NoSavepoint => Refusal::NoSavepoint,
            WordRefusal::DepthLimit => Refusal::DepthLimit,
            WordRefusal::CommitPending => Refusal::CommitPending,
            WordRefusal::AbortPending => Refusal::AbortPending,
            WordRefusal::UndoPending => Refusal::UndoPending,
            WordRefusal::LogFault => Refusal::LogFault,
            WordRefusal::Full => Refusal::Full,
            WordRefusal::NameTaken => Refusal::NameTaken,
            WordRefusal::SnapLimit => Refusal::SnapLimit,
            WordRefusal::NoSnapshot => Refusal::NoSnapshot,
            WordRefusal::TwoUpdaters => Refusal::TwoUpdaters,
            WordRefusal::MemberCount => Refusal::MemberCount,
            WordRefusal::MultiPending => Refusal::MultiPending,
            WordRefusal::Memory => Refusal::Memory,
        }
    }
}

/// A reply of one word, as commands that name something have them.
#[derive(Clone, Copy, Debug, PartialEq, Eq)]
pub(crate) enum Brief {
    Done,
    Seen { visible: bool },
    Known { status: Status },
    Did { yes: bool },
    Refused { refusal: WordRefusal },
}

impl Brief {
    /// The reply, if it is of one word.
    pub(crate) fn of(reply: &Reply) -> Option<Brief>
        ensures { IfSome result (λ b. reply_of b ≡ reply.now) }
    {
        match reply {
            Reply::Done => Some(Brief::Done),
            Reply::Seen { visible } => Some(Brief::Seen { visible: *visible }),
            Reply::Known { status } => Some(Brief::Known { status: *status }),
            Reply::Did { yes } => Some(Brief::Did { yes: *yes }),
            Reply::Refused { refusal } => match WordRefusal::of(*refusal) {
                Some(refusal) => Some(Brief::Refused { refusal }),
                None => None,
            },
            _ => None,
        }
    }

    /// The reply.
    pub(crate) fn reply(self) -> Reply
        ensures { result ≡ reply_of self }
    {
        match self {
            Brief::Done => Reply::Done,
            Brief::Seen { visible } => Reply::Seen { visible },
            Brief::Known { status } => Reply::Known { status },
            Brief::Did { yes } => Reply::Did { yes },
            Brief::Refused { refusal } => Reply::Refused {
                refusal: refusal.refusal(),
            },
        }
    }
}
