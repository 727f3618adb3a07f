//! What has been read of a script, and one line more.

ghost use Rattle.std.specs.Prelude.{◌≡◌, ◌&&◌, not, ℕ, ◌+◌, ◌<◌, ◌≤◌, List, [], ◌∷◌, ◌++◌, Some, Result, Ok, Err, true, false, IfSome, IfNone, OnOk, length, slice_get};
ghost use Rattle.script_lines.specs.Kinds.{Gives};
ghost use Rattle.script_lines.specs.Header.{is_header_word};
ghost use Rattle.script_lines.specs.LineWords.{is_plain, words_in};
ghost use Rattle.script_lines.specs.Said.{said};
ghost use Rattle.tx_events.specs.Names.{is_name};
ghost use Rattle.session_lang.specs.Reading.{HasRead, IsNew};
ghost use Rattle.session_lang.specs.Answers.{ReadsAs};
ghost use Rattle.session_lang.specs.Plain.{IsInRange};
ghost use Rattle.script_lines.specs.declared.kind.Kind.{Kind};
ghost use Rattle.session_lang.specs.declared.parser.reading.Front.{Front};
ghost use Rattle.session_lang.specs.Script.{at_line, place_of, with_turn, command_line, with_directive, is_dot, words_line, header_words, is_header_line, end_header, is_passed, read_line, no_front};

use crate::items::ItemList;
use crate::script::ParseRefusal;
use script_lines::{
    Directive, Header, Kind, Said, Stop, command_at, directive_at, is_header_word, next_word,
};
use std::alloc::Global;
use tx_model::{Memory, Name, NameList, is_name};

/// The sessions that a script may have.
const MAX_SESSIONS: usize = 64;

/// The commands that a session may have in a round.
const MAX_COMMANDS: u32 = 100_000;

/// What the lines so far say.
#[derive(Drop)]
pub struct Front {
    pub header: Header,
    /// The number of the header's last line, 0 for none.
    pub header_end: u64,
    /// Whether a line has come that isn't of the header.
    pub late: bool,
    pub names: NameList,
    pub items: ItemList,
}

/// The lines so far, and what makes the next one quick to add.
#[derive(Drop)]
pub struct Reading {
    pub front: Front,
    /// How many commands each session has in the round that goes on.
    pub commands: Vec<u32>,
    /// The session of the last line, if it has one.
    last: usize,
}

/// The session of this name.
fn find(names: &[Name], name: &[u8]) -> Option<usize>
    ensures found { IfSome result (λ k. slice_get names.now k ≡ Some name.now) }
    ensures none { IfNone result (IsNew names.now name.now) }
{
    for (i, other) in names.iter().enumerate() {
        if other.items() == name {
            return Some(i);
        }
    }
    None
}

/// Whether the session at this place has this name.
fn is_at(names: &[Name], place: usize, name: &[u8]) -> bool
    ensures { result ≡ true → slice_get names.now place ≡ Some name.now }
{
    match names.get(place) {
        Some(other) => other.items() == name,
        None => false,
    }
}

/// The session of this name. A line mostly is of the same session as the line before it, or of the next one, so these
/// two are tried first.
fn find_near(names: &[Name], last: usize, name: &[u8]) -> Option<usize>
    ensures found { IfSome result (λ k. slice_get names.now k ≡ Some name.now) }
    ensures none { IfNone result (IsNew names.now name.now) }
{
    if is_at(names, last, name) {
        return Some(last);
    }
    let next = last.wrapping_add(1);
    if is_at(names, next, name) {
        return Some(next);
    }
    find(names, name)
}

/// Whether a line that begins with this word is a comment.
fn is_comment(word: &[u8]) -> bool
    requires { 0 < length word.now }
    ensures { result ≡ is_passed (word.now ∷ []) }
{
    word[0] == b'#'
}

/// Whether a line that begins with this word is of the header, which ends where another line comes.
fn is_of_header(late: bool, word: &[u8]) -> bool
    ensures { result ≡ (not late && is_header_word word.now) }
{
    !late && is_header_word(word)
}

/// The same of a whole line.
fn is_header_line(late: bool, line: &[u8]) -> bool
    ensures { result ≡ (not late && is_header_line (words_in line.now)) }
{
    if late {
        return false;
    }
    match next_word(line) {
        Some((word, _rest)) => is_header_word(word),
        None => false,
    }
}

/// What was read of a line by itself, with its number.
fn at_line(number: u64, read: Result<(), Stop>) -> Result<(), ParseRefusal>
    ensures told { (f : Front) (line : Result Front Kind) → Gives (λ _. f) read line → ReadsAs (λ _. f) result (at_line number line) }
    ensures ok { OnOk result (read ≡ Ok tt) }
{
    match read {
        Ok(()) => Ok(()),
        Err(Stop::Fault(kind)) => Err(ParseRefusal::Fault { line: number, kind }),
        Err(Stop::Memory) => Err(ParseRefusal::Memory),
    }
}

impl Reading {
    /// Nothing.
    #[tactic(auto, unfolding(crate::specs::Script::no_front, script_lines::specs::Header::no_header))]
    pub fn new(alloc: Global) -> Reading
        ensures front { result.front ≡ no_front }
        ensures so_far { HasRead result.front.names result.commands.items result.front.items }
    {
        let front = Front {
            header: Header::new(),
            header_end: 0,
            late: false,
            names: NameList::new(alloc),
            items: ItemList::new(alloc),
        };
        Reading {
            front,
            commands: Vec::new(alloc),
            last: 0,
        }
    }

    /// Adds a command of a session that has one.
    fn add_old(&mut self, session: usize, name: &[u8], command: &Said<'_>) -> Result<(), Stop>
        requires so_far { HasRead self.old.front.names self.old.commands.items self.old.front.items }
        requires known { session < length self.old.front.names }
        requires ranges { IsInRange (said command.now) }
        ensures adds { Gives (λ _. self.new.front) result (with_turn self.old.front session name.now (said command.now)) }
        ensures few { OnOk result (length self.new.front.items ≡ length self.old.front.items + 1) }
        ensures so_far { OnOk result (HasRead self.new.front.names self.new.commands.items self.new.front.items) }
    {
        let count = self.commands[session];
        if count >= MAX_COMMANDS {
            return Err(Stop::Fault(Kind::Limit));
        }
        self.commands[session] = count + 1;
        match self.front.items.push_command(session as u8, command) {
            Ok(()) => Ok(()),
            Err(Memory) => Err(Stop::Memory),
        }
    }

    /// Adds the first command of a session.
    fn add_new(&mut self, name: &[u8], command: &Said<'_>) -> Result<(), Stop>
        requires so_far { HasRead self.old.front.names self.old.commands.items self.old.front.items }
        requires named { is_name name.now ≡ true }
        requires short { length name.now ≤ 16 }
        requires fresh { IsNew self.old.front.names name.now }
        requires ranges { IsInRange (said command.now) }
        ensures adds { Gives (λ _. self.new.front) result (with_turn self.old.front (length self.old.front.names) name.now (said command.now)) }
        ensures few { OnOk result (length self.new.front.items ≡ length self.old.front.items + 1) }
        ensures so_far { OnOk result (HasRead self.new.front.names self.new.commands.items self.new.front.items) }
    {
        let session = self.front.names.items().len();
        if session >= MAX_SESSIONS {
            return Err(Stop::Fault(Kind::Limit));
        }
        let Ok(()) = self.front.names.push(Name::of(name)) else {
            return Err(Stop::Memory);
        };
        let Ok(()) = self.commands.push(1) else {
            return Err(Stop::Memory);
        };
        match self.front.items.push_command(session as u8, command) {
            Ok(()) => Ok(()),
            Err(Memory) => Err(Stop::Memory),
        }
    }

    /// Adds a command. Sessions are numbered in the order in which their names first come.
    fn add(&mut self, name: &[u8], command: &Said<'_>) -> Result<(), Stop>
        requires so_far { HasRead self.old.front.names self.old.commands.items self.old.front.items }
        requires named { is_name name.now ≡ true }
        requires short { length name.now ≤ 16 }
        requires ranges { IsInRange (said command.now) }
        ensures adds { Gives (λ _. self.new.front) result (with_turn self.old.front (place_of self.old.front.names name.now) name.now (said command.now)) }
        ensures few { OnOk result (length self.new.front.items ≡ length self.old.front.items + 1) }
        ensures so_far { OnOk result (HasRead self.new.front.names self.new.commands.items self.new.front.items) }
    {
        match find_near(self.front.names.items(), self.last, name) {
            Some(session) => {
                self.last = session;
                self.add_old(session, name, command)
            }
            None => self.add_new(name, command),
        }
    }

    /// Adds a directive, which ends the round: each session may have as many commands again.
    fn end_round(&mut self, directive: Directive) -> Result<(), Memory>
        requires so_far { HasRead self.old.front.names self.old.commands.items self.old.front.items }
        ensures adds { OnOk result (self.new.front ≡ with_directive self.old.front directive) }
        ensures few { OnOk result (length self.new.front.items ≡ length self.old.front.items + 1) }
        ensures so_far { OnOk result (HasRead self.new.front.names self.new.commands.items self.new.front.items) }
    {
        self.commands.fill(0);
        self.front.items.push_directive(directive)
    }

    /// Adds a line of commands.
    #[tactic(auto, unfolding(crate::specs::Script::command_line))]
    fn command_line(&mut self, alloc: Global, name: &[u8], rest: &[u8]) -> Result<(), Stop>
        requires so_far { HasRead self.old.front.names self.old.commands.items self.old.front.items }
        ensures adds { Gives (λ _. self.new.front) result (command_line self.old.front name.now (words_in rest.now)) }
        ensures so_far { OnOk result (HasRead self.new.front.names self.new.commands.items self.new.front.items) }
        ensures few { OnOk result (length self.new.front.items ≡ length self.old.front.items + 1) }
    {
        if !is_name(name) {
            return Err(Stop::Fault(Kind::Session));
        }
        let command = command_at(alloc, rest)?;
        self.add(name, &command)
    }

    /// Adds the words of a line that isn't of the header.
    fn words_line(&mut self, alloc: Global, word: &[u8], rest: &[u8]) -> Result<(), Stop>
        requires so_far { HasRead self.old.front.names self.old.commands.items self.old.front.items }
        requires word { 0 < length word.now }
        ensures adds { Gives (λ _. self.new.front) result (words_line self.old.front (word.now ∷ words_in rest.now)) }
        ensures so_far { OnOk result (HasRead self.new.front.names self.new.commands.items self.new.front.items) }
        ensures few { OnOk result (length self.new.front.items ≡ length self.old.front.items + 1) }
    {
        if word[0] == b'.' {
            let directive = directive_at(word, rest)?;
            self.end_round(directive)?;
            return Ok(());
        }
        self.command_line(alloc, word, rest)
    }

    /// Adds the words of a line of the header.
    fn header_words(&mut self, number: u64, word: &[u8], rest: &[u8]) -> Result<(), Stop>
        ensures adds { Gives (λ _. self.new.front) result (header_words self.old.front number (word.now ∷ words_in rest.now)) }
        ensures names { self.new.front.names ≡ self.old.front.names }
        ensures items { self.new.front.items ≡ self.old.front.items }
        ensures commands { self.new.commands ≡ self.old.commands }
    {
        match self.front.header.with(word, rest) {
            Ok(header) => {
                self.front.header = header;
                self.front.header_end = number;
                Ok(())
            }
            Err(kind) => Err(Stop::Fault(kind)),
        }
    }

    /// Ends the header, where it hasn't ended yet.
    pub fn end_header(&mut self) -> Result<(), ParseRefusal>
        ensures adds { ReadsAs (λ _. self.new.front) result (end_header self.old.front) }
        ensures names { self.new.front.names ≡ self.old.front.names }
        ensures items { self.new.front.items ≡ self.old.front.items }
        ensures commands { self.new.commands ≡ self.old.commands }
    {
        if !self.front.late && !self.front.header.has_base() {
            return Err(ParseRefusal::Fault {
                line: self.front.header_end,
                kind: Kind::Base,
            });
        }
        self.front.late = true;
        Ok(())
    }

    /// The refusal of a line with a byte that may not stand there; of the header, where the line ends it without a base.
    fn refusal_of(&mut self, number: u64, line: &[u8]) -> ParseRefusal
        requires faulty { is_plain line.now ≡ false }
        ensures { ReadsAs {X = Unit {0}} (λ _. self.new.front) (Err result) (read_line self.old.front number line.now) }
    {
        let fault = ParseRefusal::Fault {
            line: number,
            kind: Kind::Byte,
        };
        if is_header_line(self.front.late, line) {
            return fault;
        }
        match self.end_header() {
            Ok(()) => fault,
            Err(refusal) => refusal,
        }
    }

    /// Adds the line of this number.
    #[tactic(auto, unfolding(crate::specs::Script::read_line))]
    pub fn read_line(
        &mut self,
        alloc: Global,
        number: u64,
        plain: bool,
        line: &[u8],
    ) -> Result<(), ParseRefusal>
        requires tested { plain ≡ is_plain line.now }
        requires so_far { HasRead self.old.front.names self.old.commands.items self.old.front.items }
        ensures adds { ReadsAs (λ _. self.new.front) result (read_line self.old.front number line.now) }
        ensures so_far { OnOk result (HasRead self.new.front.names self.new.commands.items self.new.front.items) }
        ensures few { OnOk result (length self.new.front.items ≤ length self.old.front.items + length line.now) }
    {
        if !plain {
            return Err(self.refusal_of(number, line));
        }
        let Some((word, rest)) = next_word(line) else {
            return Ok(());
        };
        if is_comment(word) {
            return Ok(());
        }
        if is_of_header(self.front.late, word) {
            return at_line(number, self.header_words(number, word, rest));
        }
        self.end_header()?;
        at_line(number, self.words_line(alloc, word, rest))
    }
}
