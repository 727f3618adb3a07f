//! An item of a script in twelve bytes, and what stands apart.
ghost use Rattle.std.specs.Prelude.{◌≡◌, ◌≤◌, IfOk, take};
ghost use Rattle.tx_events.specs.Ids.{IsFullMulti, IsXidNumber};
ghost use Rattle.script_lines.specs.Said.{id_command, named_command, plain_command};
ghost use Rattle.session_lang.specs.Packed.{IsIdOf, IsPacked, dump_of};
ghost use Rattle.session_lang.specs.Packed.{unpacked, whole};
ghost use Rattle.session_lang.specs.declared.packed.Apart.{Apart};
ghost use Rattle.session_lang.specs.Rounds.{asked_by, asked_in, crash_in, session_of};

use crate::script::{Between, Dump, Item};
use script_lines::{IdCommand, NamedCommand, PlainCommand};
use std::alloc::Global;
use tx_events::{FullMulti, FullXid, MultiId, Xid};
use tx_model::{Command, DumpOf, How, Memory, Name, Pair, PairList};

/// What a dump shows bytes of, but for the page.
#[derive(Clone, Copy)]
pub enum DumpKind {
    Log,
    Xact,
    Subtrans,
    Offsets,
    Members,
}

/// A number of 64 bits in two halves, which may stand at any multiple of four bytes.
#[derive(Clone, Copy)]
pub struct Halves {
    pub high: u32,
    pub low: u32,
}

/// `length` bytes from place `at` on.
#[derive(Clone, Copy)]
pub struct Span {
    pub at: Halves,
    pub length: u32,
}

/// An item in short. What has no room in it stands apart, from place `at` on.
#[derive(Clone, Copy)]
pub enum PackedItem {
    Plain {
        session: u8,
        command: PlainCommand,
    },
    /// A name of up to four bytes stands in the item. `number` is 0 where the command has none.
    Short {
        session: u8,
        command: NamedCommand,
        length: u8,
        name: [u8; 4],
        number: u32,
    },
    /// A longer name, of `length` bytes.
    Named {
        session: u8,
        command: NamedCommand,
        length: u8,
        at: u32,
        number: u32,
    },
    Did {
        session: u8,
        x: Xid,
    },
    OfId {
        session: u8,
        command: IdCommand,
        id: Halves,
    },
    Multi {
        session: u8,
        at: u32,
        count: u32,
    },
    Round,
    Checkpoint,
    Crash {
        how: How,
    },
    /// `page` is 0 for the log, which has none.
    Dump {
        kind: DumpKind,
        page: u32,
        at: u32,
    },
}

// A script may have millions of them. A line of it has six bytes or more, a member five more, and a dump thirteen.
const _: () = prove!(size_of::<PackedItem>() == 12);

const _: () = prove!(size_of::<Pair>() == 8);

const _: () = prove!(size_of::<Span>() == 12);

/// What items in short have no room for: the bytes of longer names, the members of multixacts, and the spans of dumps, each kind
/// in the order of the items.
#[derive(Drop)]
pub struct Apart {
    pub names: Vec<u8>,
    pub members: Vec<Pair>,
    pub spans: Vec<Span>,
}

impl Halves {
    /// The halves of a number.
    pub fn of(number: u64) -> Halves
        ensures { whole result ≡ number }
    {
        Halves {
            high: (number >> 32) as u32,
            low: (number & 0xffff_ffff) as u32,
        }
    }

    /// The number.
    fn whole(self) -> u64
        ensures { result ≡ whole self }
    {
        u64::from(self.high) * (1 << 32) + u64::from(self.low)
    }
}

/// What is dumped, and the page.
pub fn dump_parts(what: DumpOf) -> (DumpKind, u32)
    ensures { dump_of result.0 result.1 ≡ what }
{
    match what {
        DumpOf::Log => (DumpKind::Log, 0),
        DumpOf::Xact { page } => (DumpKind::Xact, page),
        DumpOf::Subtrans { page } => (DumpKind::Subtrans, page),
        DumpOf::Offsets { page } => (DumpKind::Offsets, page),
        DumpOf::Members { page } => (DumpKind::Members, page),
    }
}

fn dump_of(kind: DumpKind, page: u32) -> DumpOf
    ensures { result ≡ dump_of kind page }
{
    match kind {
        DumpKind::Log => DumpOf::Log,
        DumpKind::Xact => DumpOf::Xact { page },
        DumpKind::Subtrans => DumpOf::Subtrans { page },
        DumpKind::Offsets => DumpOf::Offsets { page },
        DumpKind::Members => DumpOf::Members { page },
    }
}

fn plain_command(command: PlainCommand) -> Command
    ensures { result ≡ plain_command command }
{
    match command {
        PlainCommand::Begin => Command::Begin,
        PlainCommand::Save => Command::Save,
        PlainCommand::Write => Command::Write,
        PlainCommand::Release => Command::Release,
        PlainCommand::Undo => Command::Undo,
        PlainCommand::Commit => Command::Commit,
        PlainCommand::Abort => Command::Abort,
        PlainCommand::Trim => Command::Trim,
        PlainCommand::Horizon => Command::Horizon,
    }
}

fn named_command(command: NamedCommand, name: Name, number: u32) -> Command
    ensures { result ≡ named_command command name number }
{
    match command {
        NamedCommand::Snap => Command::Snap { name },
        NamedCommand::DropSnap => Command::DropSnap { name },
        NamedCommand::See => Command::See {
            name,
            x: Xid { number },
        },
        NamedCommand::SeeMulti => Command::SeeMulti {
            name,
            multi: MultiId { number },
        },
    }
}

/// A name of up to four bytes.
#[inline(always)]
fn short_name(name: [u8; 4], length: u8) -> Name
    requires { length ≤ 4 }
    ensures { result ≡ take length name }
{
    let (a, b, c, d) = (name[0], name[1], name[2], name[3]);
    Name::of_padded([a, b, c, d, 0, 0, 0, 0, 0, 0, 0, 0, 0, 0, 0, 0], length)
}

/// The id of a number that is one.
fn id_of(number: u64) -> FullXid
    requires { IsXidNumber number }
    ensures { result ≡ number }
{
    match FullXid::new(number) {
        Some(id) => id,
        None => unreachable!(),
    }
}

/// The multixact's id of a number that is one.
#[inline(always)]
fn multi_of(number: u64) -> FullMulti
    requires { IsFullMulti number }
    ensures { result ≡ number }
{
    match FullMulti::new(number) {
        Some(multi) => multi,
        None => unreachable!(),
    }
}

fn id_command(command: IdCommand, number: u64) -> Command
    requires { IsIdOf command number }
    ensures { result ≡ id_command command number }
{
    match command {
        IdCommand::Status => Command::Status { x: id_of(number) },
        IdCommand::Freeze => Command::Freeze {
            oldest: id_of(number),
        },
        IdCommand::MultiFreeze => Command::MultiFreeze {
            multi: multi_of(number),
        },
    }
}

/// A list of these members.
fn pair_list(alloc: Global, members: &[Pair]) -> Result<PairList, Memory>
    ensures { IfOk result (λ pairs. pairs ≡ members.now) }
{
    let mut pairs = Vec::new(alloc);
    pairs.extend_from_slice(members)?;
    Ok(PairList::of(pairs))
}

/// The session of a command in short.
pub fn packed_session(packed: &PackedItem) -> Option<u32>
    ensures { (apart : Apart) → result ≡ session_of (unpacked apart packed.now) }
{
    match packed {
        PackedItem::Plain { session, .. }
        | PackedItem::Short { session, .. }
        | PackedItem::Named { session, .. }
        | PackedItem::Did { session, .. }
        | PackedItem::OfId { session, .. }
        | PackedItem::Multi { session, .. } => Some(u32::from(*session)),
        _ => None,
    }
}

/// The crash that an item in short asks for, if it does.
pub fn packed_crash(packed: &PackedItem) -> Option<How>
    ensures { (apart : Apart) → result ≡ crash_in (unpacked apart packed.now) }
{
    match packed {
        PackedItem::Crash { how } => Some(*how),
        _ => None,
    }
}

/// What an item in short asks for between two rounds, if it does.
pub fn packed_between(apart: &Apart, packed: &PackedItem) -> Option<Between>
    requires { IsPacked apart.now packed.now }
    ensures { asked_by result ≡ asked_in (unpacked apart.now packed.now) }
{
    match *packed {
        PackedItem::Checkpoint => Some(Between::Checkpoint),
        PackedItem::Dump { kind, page, at } => {
            let span = apart.spans[at as usize];
            Some(Between::Dump(Dump {
                what: dump_of(kind, page),
                at: span.at.whole(),
                length: span.length,
            }))
        }
        _ => None,
    }
}

/// The item that is meant.
#[inline(always)]
pub fn unpack(apart: &Apart, packed: &PackedItem) -> Result<Item, Memory>
    requires { IsPacked apart.now packed.now }
    ensures { IfOk result (λ item. item ≡ unpacked apart.now packed.now) }
{
    let item = match *packed {
        PackedItem::Plain { session, command } => Item::Run {
            session: u32::from(session),
            command: plain_command(command),
        },
        PackedItem::Short {
            session,
            command,
            length,
            name,
            number,
        } => Item::Run {
            session: u32::from(session),
            command: named_command(command, short_name(name, length), number),
        },
        PackedItem::Named {
            session,
            command,
            length,
            at,
            number,
        } => {
            let from = at as usize;
            let name = Name::of(&apart.names[from..from + length as usize]);
            Item::Run {
                session: u32::from(session),
                command: named_command(command, name, number),
            }
        }
        PackedItem::Did { session, x } => Item::Run {
            session: u32::from(session),
            command: Command::Did { x },
        },
        PackedItem::OfId {
            session,
            command,
            id,
        } => Item::Run {
            session: u32::from(session),
            command: id_command(command, id.whole()),
        },
        PackedItem::Multi { session, at, count } => {
            let from = at as usize;
            let members = &apart.members[from..from + count as usize];
            Item::Run {
                session: u32::from(session),
                command: Command::Multi {
                    members: pair_list(*apart.members.allocator(), members)?,
                },
            }
        }
        PackedItem::Round => Item::Round,
        PackedItem::Checkpoint => Item::Checkpoint,
        PackedItem::Crash { how } => Item::Crash { how },
        PackedItem::Dump { kind, page, at } => {
            let span = apart.spans[at as usize];
            Item::Dump {
                what: dump_of(kind, page),
                at: span.at.whole(),
                length: span.length,
            }
        }
    };
    Ok(item)
}
