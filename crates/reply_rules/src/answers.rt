//! Which command may be refused for memory, by a volume or by the log.
ghost use Rattle.std.specs.Prelude.{◌≡◌};
ghost use Rattle.report_law.specs.Answers.{can_append, can_ask, can_flush, can_lack_memory};
ghost use Rattle.reply_rules.specs.Locks.{is_offsets, is_offsets_or_members, is_store, is_xact, is_xact_or_subtrans};

use tx_events::Lock;
use tx_model::Command;

/// Whether the command may be refused for want of memory.
pub fn can_lack_memory(command: &Command) -> bool
    ensures { result ≡ can_lack_memory command.now }
{
    match command {
        Command::Save => true,
        Command::Write => true,
        Command::Commit => true,
        Command::Trim => true,
        Command::Snap { .. } => true,
        Command::Status { .. } => true,
        Command::Multi { .. } => true,
        Command::SeeMulti { .. } => true,
        Command::Freeze { .. } => true,
        Command::MultiFreeze { .. } => true,
        _ => false,
    }
}

fn is_xact(lock: Lock) -> bool
    ensures { result ≡ is_xact lock }
{
    matches!(lock, Lock::Xact(_))
}

fn is_xact_or_subtrans(lock: Lock) -> bool
    ensures { result ≡ is_xact_or_subtrans lock }
{
    match lock {
        Lock::Xact(_bank) => true,
        Lock::Subtrans(_bank) => true,
        _ => false,
    }
}

fn is_offsets(lock: Lock) -> bool
    ensures { result ≡ is_offsets lock }
{
    matches!(lock, Lock::Offsets(_))
}

fn is_offsets_or_members(lock: Lock) -> bool
    ensures { result ≡ is_offsets_or_members lock }
{
    match lock {
        Lock::Offsets(_bank) => true,
        Lock::Members(_bank) => true,
        _ => false,
    }
}

fn is_store(lock: Lock) -> bool
    ensures { result ≡ is_store lock }
{
    match lock {
        Lock::Xact(_bank) => true,
        Lock::Subtrans(_bank) => true,
        Lock::Offsets(_bank) => true,
        Lock::Members(_bank) => true,
        _ => false,
    }
}

/// Whether the command asks the store behind this lock, so that it may be refused for that volume's fault.
pub fn can_ask(command: &Command, lock: Lock) -> bool
    ensures { result ≡ can_ask command.now lock }
{
    match command {
        Command::Write => is_xact_or_subtrans(lock),
        Command::Undo => is_xact(lock),
        Command::Commit => is_xact_or_subtrans(lock),
        Command::Abort => is_xact(lock),
        Command::See { .. } => is_xact_or_subtrans(lock),
        Command::Status { .. } => is_xact(lock),
        Command::Did { .. } => is_xact_or_subtrans(lock),
        Command::Multi { .. } => is_offsets_or_members(lock),
        Command::SeeMulti { .. } => is_store(lock),
        Command::MultiFreeze { .. } => is_offsets(lock),
        Command::Trim => is_store(lock),
        _ => false,
    }
}

/// Whether the command flushes the log, so that it may be refused for the log's fault.
pub fn can_flush(command: &Command) -> bool
    ensures { result ≡ can_flush command.now }
{
    match command {
        Command::Commit => true,
        Command::Trim => true,
        _ => false,
    }
}

/// Whether the command appends to the log, so that it may be refused since this is down or full.
pub fn can_append(command: &Command) -> bool
    ensures { result ≡ can_append command.now }
{
    match command {
        Command::Multi { .. } => true,
        _ => can_flush(command),
    }
}
