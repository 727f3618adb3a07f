//! The items of a script, in memory in proportion to its text.
ghost use Rattle.std.specs.Prelude.{◌≡◌, ◌≤◌, ◌↔◌, [], ◌∷◌, ◌++◌, IfOk, OnOk, drop, get_or, length, slice_get, take, true};
ghost use Rattle.session_lang.specs.declared.script.Item.TheVariants as items;
ghost use Rattle.tx_model.specs.declared.command.Command.TheVariants as commands;
ghost use Rattle.script_lines.specs.Said.{id_command, named_command, plain_command, said};
ghost use Rattle.session_lang.specs.Packed.{IsIdOf};
ghost use Rattle.session_lang.specs.Plain.{IsInRange};
ghost use Rattle.session_lang.specs.Rounds.{asked_at, asked_by, crash_in, is_look, session_of};
ghost use Rattle.session_lang.specs.Script.{item_of};
ghost use Rattle.tx_events.specs.Names.{is_name};

use crate::looks::is_look;
use crate::packed::{
    Apart, Halves, PackedItem, Span, dump_parts, packed_between, packed_crash, packed_session,
    unpack,
};
use crate::script::{Between, Item};
use script_lines::{Directive, IdCommand, NamedCommand, PlainCommand, Said};
use std::alloc::Global;
use std::marker::Model;
use tx_model::{DumpOf, How, Memory, PairList};

/// The items of a script, in order: twelve bytes for each, the bytes of a name of more than four, eight for each of its
/// members, and twelve more for a dump. That is at most twice the text of any line. A contract sees the list of them.
#[derive(Drop)]
pub struct ItemList {
    packed: Vec<PackedItem>,
    apart: Apart,
}

impl Model for ItemList {
    ghost use Rattle.std.specs.Prelude.{List};
    ghost use Rattle.session_lang.specs.declared.script.Item.{Item};
    ghost use Rattle.session_lang.specs.Packed.{ArePacked, unpacked_all};

    ghost Value = { List Item };

    ghost view = { λ a. unpacked_all a.apart a.packed.items };

    ghost invariant = { λ a. ArePacked a.apart a.packed.items };
}

/// A part of a script's items. A contract sees the list of them.
#[derive(Drop)]
pub struct Items<'a> {
    packed: &'a [PackedItem],
    apart: &'a Apart,
}

impl<'a> Model for Items<'a> {
    ghost use Rattle.std.specs.Prelude.{List};
    ghost use Rattle.session_lang.specs.declared.script.Item.{Item};
    ghost use Rattle.session_lang.specs.Packed.{ArePacked, unpacked_all};

    ghost Value = { List Item };

    ghost view = { λ a. unpacked_all a.apart.now a.packed.now };

    ghost invariant = { λ a. ArePacked a.apart.now a.packed.now };
}

/// A place in 32 bits. A script has fewer bytes than that, so none is refused.
fn place_of(length: usize) -> Result<u32, Memory>
    ensures { IfOk result (λ place. place ≡ length) }
{
    match u32::try_from(length) {
        Ok(place) => Ok(place),
        Err(_) => Err(Memory),
    }
}

/// The byte at this place of a name; 0 behind its end.
#[inline(always)]
fn byte_at(name: &[u8], place: usize) -> u8
    ensures { result ≡ get_or name.now place 0 }
{
    match name.get(place) {
        Some(byte) => *byte,
        None => 0,
    }
}

impl ItemList {
    /// No items. Takes no memory.
    pub fn new(alloc: Global) -> ItemList
        ensures { result ≡ [] }
    {
        ItemList {
            packed: Vec::new(alloc),
            apart: Apart {
                names: Vec::new(alloc),
                members: Vec::new(alloc),
                spans: Vec::new(alloc),
            },
        }
    }

    /// The items, in order.
    pub fn items(&self) -> Items<'_>
        ensures { result ≡ self.now }
    {
        Items {
            packed: self.packed.as_slice(),
            apart: &self.apart,
        }
    }

    /// How many bytes the items take, by count; no clause speaks of it.
    pub fn bytes_kept(&self) -> usize {
        let Apart {
            names,
            members,
            spans,
        } = &self.apart;
        (self.packed.len().saturating_mul(size_of::<PackedItem>()))
            .saturating_add(names.len())
            .saturating_add(members.len().saturating_mul(size_of::<tx_model::Pair>()))
            .saturating_add(spans.len().saturating_mul(size_of::<Span>()))
    }

    /// Adds a command without arguments.
    fn push_plain(&mut self, session: u8, command: PlainCommand) -> Result<(), Memory>
        ensures { OnOk result (self.new ≡ self.old ++ items.Run session (plain_command command) ∷ []) }
    {
        self.packed.push(PackedItem::Plain { session, command })?;
        Ok(())
    }

    /// Adds a command that names a snapshot by at most four bytes.
    fn push_short(
        &mut self,
        session: u8,
        command: NamedCommand,
        name: &[u8],
        number: u32,
    ) -> Result<(), Memory>
        requires { length name.now ≤ 4 }
        ensures { OnOk result (self.new
            ≡ self.old ++ items.Run session (named_command command name.now number) ∷ []) }
    {
        let bytes = [
            byte_at(name, 0),
            byte_at(name, 1),
            byte_at(name, 2),
            byte_at(name, 3),
        ];
        self.packed.push(PackedItem::Short {
            session,
            command,
            length: name.len() as u8,
            name: bytes,
            number,
        })?;
        Ok(())
    }

    /// Adds a command that names a snapshot.
    fn push_named(
        &mut self,
        session: u8,
        command: NamedCommand,
        name: &[u8],
        number: u32,
    ) -> Result<(), Memory>
        requires { is_name name.now ≡ true }
        ensures { OnOk result (self.new
            ≡ self.old ++ items.Run session (named_command command name.now number) ∷ []) }
    {
        if name.len() <= 4 {
            return self.push_short(session, command, name, number);
        }
        let at = place_of(self.apart.names.len())?;
        self.apart.names.extend_from_slice(name)?;
        self.packed.push(PackedItem::Named {
            session,
            command,
            length: name.len() as u8,
            at,
            number,
        })?;
        Ok(())
    }

    /// Adds a command of this id in full.
    fn push_id(&mut self, session: u8, command: IdCommand, number: u64) -> Result<(), Memory>
        requires { IsIdOf command number }
        ensures { OnOk result (self.new ≡ self.old ++ items.Run session (id_command command number) ∷ []) }
    {
        self.packed.push(PackedItem::OfId {
            session,
            command,
            id: Halves::of(number),
        })?;
        Ok(())
    }

    /// Adds a command that makes a multixact of these members.
    fn push_multi(&mut self, session: u8, members: &PairList) -> Result<(), Memory>
        ensures { OnOk result (self.new ≡ self.old ++ items.Run session (commands.Multi members.now) ∷ []) }
    {
        let pairs = members.items();
        let at = place_of(self.apart.members.len())?;
        let count = place_of(pairs.len())?;
        self.apart.members.extend_from_slice(pairs)?;
        self.packed.push(PackedItem::Multi { session, at, count })?;
        Ok(())
    }

    /// Adds a dump.
    fn push_dump(&mut self, what: DumpOf, at: u64, length: u32) -> Result<(), Memory>
        ensures { OnOk result (self.new ≡ self.old ++ items.Dump what at length ∷ []) }
    {
        let (kind, page) = dump_parts(what);
        let place = place_of(self.apart.spans.len())?;
        self.apart.spans.push(Span {
            at: Halves::of(at),
            length,
        })?;
        self.packed.push(PackedItem::Dump {
            kind,
            page,
            at: place,
        })?;
        Ok(())
    }

    /// Adds a command of the session of this number at the end.
    #[inline(always)]
    pub fn push_command(&mut self, session: u8, command: &Said<'_>) -> Result<(), Memory>
        requires { IsInRange (said command.now) }
        ensures { OnOk result (self.new ≡ self.old ++ items.Run session (said command.now) ∷ []) }
    {
        match command {
            Said::Plain { command } => self.push_plain(session, *command),
            Said::Named {
                command,
                number,
                name,
            } => self.push_named(session, *command, name, *number),
            Said::Did { x } => {
                self.packed.push(PackedItem::Did { session, x: *x })?;
                Ok(())
            }
            Said::OfId { command, number } => self.push_id(session, *command, *number),
            Said::Multi { members } => self.push_multi(session, members),
        }
    }

    /// Adds a directive at the end.
    pub fn push_directive(&mut self, directive: Directive) -> Result<(), Memory>
        ensures { OnOk result (self.new ≡ self.old ++ item_of directive ∷ []) }
    {
        let packed = match directive {
            Directive::Round => PackedItem::Round,
            Directive::Checkpoint => PackedItem::Checkpoint,
            Directive::Crash { how } => PackedItem::Crash { how },
            Directive::Dump { what, at, length } => {
                return self.push_dump(what, at, length);
            }
        };
        self.packed.push(packed)?;
        Ok(())
    }
}

impl<'a> Items<'a> {
    /// How many there are.
    pub fn len(&self) -> usize
        ensures { result ≡ length self.now }
    {
        self.packed.len()
    }

    /// Whether there are none.
    pub fn is_empty(&self) -> bool
        ensures { result ≡ true ↔ (self.now ≡ []) }
    {
        self.packed.is_empty()
    }

    /// The item at this place, if there is one.
    #[inline(always)]
    pub fn get(&self, place: usize) -> Result<Option<Item>, Memory>
        ensures { IfOk result (λ item. item ≡ slice_get self.now place) }
    {
        match self.packed.get(place) {
            Some(packed) => Ok(Some(unpack(self.apart, packed)?)),
            None => Ok(None),
        }
    }

    /// The session of the command at this place; None where no command stands there.
    pub fn session_at(&self, place: usize) -> Option<u32>
        ensures { result ≡ session_of (get_or self.now place items.Round) }
    {
        match self.packed.get(place) {
            Some(packed) => packed_session(packed),
            None => None,
        }
    }

    /// Whether a command stands at this place that asks of an id or a multixact: `see`, `seemulti`, `status` or `did`.
    pub fn is_look_at(&self, place: usize) -> bool
        ensures { result ≡ is_look (get_or self.now place items.Round) }
    {
        match self.packed.get(place) {
            Some(packed) => is_look(packed),
            None => false,
        }
    }

    /// What the item at this place asks for between two rounds: a checkpoint or a dump. None where nothing stands there, or
    /// what asks for neither.
    pub fn between_at(&self, place: usize) -> Option<Between>
        ensures { asked_by result ≡ asked_at self.now place }
    {
        match self.packed.get(place) {
            Some(packed) => packed_between(self.apart, packed),
            None => None,
        }
    }

    /// The crash at this place; None where none stands there.
    pub fn crash_at(&self, place: usize) -> Option<How>
        ensures { result ≡ crash_in (get_or self.now place items.Round) }
    {
        match self.packed.get(place) {
            Some(packed) => packed_crash(packed),
            None => None,
        }
    }

    /// So many items from the first one on.
    pub fn front(&self, count: usize) -> Items<'a>
        requires { count ≤ length self.now }
        ensures { result ≡ take count self.now }
    {
        Items {
            packed: &self.packed[..count],
            apart: self.apart,
        }
    }

    /// The items behind so many.
    pub fn behind(&self, count: usize) -> Items<'a>
        requires { count ≤ length self.now }
        ensures { result ≡ drop count self.now }
    {
        Items {
            packed: &self.packed[count..],
            apart: self.apart,
        }
    }
}
