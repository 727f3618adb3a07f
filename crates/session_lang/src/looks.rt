//! Which items of a script ask of an id or a multixact.
ghost use Rattle.std.specs.Prelude.{◌≡◌, List, ℕ};
ghost use Rattle.script_lines.specs.Said.{id_command, named_command, plain_command};
ghost use Rattle.session_lang.specs.Packed.{unpacked};
ghost use Rattle.session_lang.specs.declared.packed.Apart.{Apart};
ghost use Rattle.session_lang.specs.Rounds.{is_look, looks};

use crate::packed::PackedItem;
use script_lines::{IdCommand, NamedCommand, PlainCommand};

/// Whether a command that names a snapshot asks of an id or a multixact.
fn named_looks(command: NamedCommand) -> bool
    ensures { (name : List ℕ) (number : ℕ) → result ≡ looks (named_command command name number) }
{
    match command {
        NamedCommand::Snap => false,
        NamedCommand::DropSnap => false,
        NamedCommand::See => true,
        NamedCommand::SeeMulti => true,
    }
}

/// The same of a command of an id in full.
fn id_looks(command: IdCommand) -> bool
    ensures { (number : ℕ) → result ≡ looks (id_command command number) }
{
    match command {
        IdCommand::Status => true,
        IdCommand::Freeze => false,
        IdCommand::MultiFreeze => false,
    }
}

/// Whether a command without arguments does. None does.
fn plain_looks(command: PlainCommand) -> bool
    ensures { result ≡ looks (plain_command command) }
{
    match command {
        PlainCommand::Begin => false,
        PlainCommand::Save => false,
        PlainCommand::Write => false,
        PlainCommand::Release => false,
        PlainCommand::Undo => false,
        PlainCommand::Commit => false,
        PlainCommand::Abort => false,
        PlainCommand::Trim => false,
        PlainCommand::Horizon => false,
    }
}

/// Whether an item in short is a command that asks of an id or a multixact.
pub fn is_look(packed: &PackedItem) -> bool
    ensures { (apart : Apart) → result ≡ is_look (unpacked apart packed.now) }
{
    match packed {
        PackedItem::Plain { command, .. } => plain_looks(*command),
        PackedItem::Short { command, .. } => named_looks(*command),
        PackedItem::Named { command, .. } => named_looks(*command),
        PackedItem::Did { .. } => true,
        PackedItem::OfId { command, .. } => id_looks(*command),
        _ => false,
    }
}
