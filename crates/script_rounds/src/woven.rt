//! A text in which the long end of a line that comes again and again stands once.
ghost use Rattle.std.specs.Prelude.{◌≡◌, ℕ, ◌≤◌, List, [], ◌++◌, IfSome, IsTrue, OnErr, OnOk, Some, cond, length, take};
ghost use Rattle.std.specs.Io.KnownBytes.{Appends};
ghost use Rattle.tx_io.specs.Causes.{HasCause};
ghost use Rattle.report_text.specs.ReportText.{command_line, round_line, snapshot_end, step_text};
ghost use Rattle.script_rounds.specs.Woven.{own_before, pieces_in, woven};
ghost use Rattle.tx_model.specs.declared.reply.Reply.TheVariants as replies;

use crate::pieces::pass;
use crate::repeated::Repeated;
use report_text::{
    Text, is_same_snapshot, put_command_line, put_line_front, put_round_line, put_snapshot_end,
    put_step,
};
use std::alloc::Global;
use std::marker::Model;
use tx_events::SharedSnap;
use tx_io::{Failed, Sink};
use tx_model::{By, Command, Memory, NameList, Reply, Step};

// An end that is kept apart takes some hundred bytes more, so it is once so many were printed of it one after another.
const ENOUGH: usize = 128;

/// A snapshot, and how many bytes the ends of its lines take that were printed one after another.
#[derive(Drop)]
struct Seen {
    lists: SharedSnap,
    bytes: usize,
}

/// A text of own bytes, between which ends of lines stand that are kept once each. A contract sees the text.
#[derive(Drop)]
pub struct Woven {
    alloc: Global,
    own: Text,
    runs: Vec<Repeated>,
    /// How many own bytes stand before the last piece.
    before: usize,
    /// The snapshot whose end was printed last.
    seen: Option<Seen>,
}

impl Model for Woven {
    ghost use Rattle.std.specs.Prelude.{◌≡◌, ◌≤◌, ℕ, List, length};
    ghost use Rattle.script_rounds.specs.Woven.{own_before, pieces_in, woven};

    ghost Value = { List ℕ };

    ghost view = { λ w. woven (pieces_in w.runs.items) w.own };

    ghost invariant = { λ w. (w.before ≡ own_before (pieces_in w.runs.items)) × (w.before ≤ length w.own) };
}

/// Whether ends of this snapshot's lines were printed one after another, and enough of them.
fn comes_again(seen: &Option<Seen>, lists: &SharedSnap) -> bool
    ensures { IsTrue result → (s : Seen) × (seen.now ≡ Some s) × (s.lists ≡ lists.now) × (ENOUGH ≤ s.bytes) }
{
    match seen {
        Some(last) => last.bytes >= ENOUGH && is_same_snapshot(&last.lists, lists),
        None => false,
    }
}

/// Notes that an end of this snapshot's line was printed, in so many bytes. Without memory none is.
fn note(seen: &mut Option<Seen>, lists: &SharedSnap, bytes: usize)
    ensures { IfSome seen.new (λ s. s.lists ≡ lists.now) }
{
    if let Some(last) = seen {
        if is_same_snapshot(&last.lists, lists) {
            last.bytes = last.bytes.saturating_add(bytes);
            return;
        }
    }
    *seen = match lists.clone() {
        Ok(lists) => Some(Seen { lists, bytes }),
        Err(_) => None,
    };
}

/// The last end that was kept apart doesn't come again.
fn end_last(runs: &mut [Repeated])
    ensures { runs.new ≡ runs.old }
{
    if let Some(last) = runs.last_mut() {
        last.end();
    }
}

/// Writes own bytes with the pieces between them, or a front of that. The memory that it takes it can do without.
fn write_woven<K: Sink>(
    alloc: Global,
    sink: &mut K,
    own: &[u8],
    runs: &[Repeated],
) -> Result<(), Failed>
    requires { own_before (pieces_in runs.now) ≤ length own.now }
    ensures ok { OnOk result (Appends (K.held sink.old) (K.held sink.new) (woven (pieces_in runs.now) own.now)) }
    ensures front { OnErr result ((n : ℕ)
        × Appends (K.held sink.old) (K.held sink.new) (take n (woven (pieces_in runs.now) own.now))) }
    ensures cause { HasCause (K.faults sink.old) (K.faults sink.new) result }
{
    let mut kept = Vec::new(alloc);
    let mut rest = own;
    for run in runs {
        rest = run.hand(sink, &mut kept, rest)?;
    }
    pass(sink, &mut kept, rest)
}

/// Takes a whole text off. Its room stays. Where memory was wanting, nothing is known of the own bytes, among which the
/// pieces have their places.
fn take_off(own: &mut Text, runs: &mut Vec<Repeated>, before: &mut usize)
    ensures own { own.new ≡ [] }
    ensures runs { runs.new.items ≡ [] }
    ensures before { before.new ≡ 0 }
{
    own.clear();
    runs.clear();
    *before = 0;
}

impl Woven {
    /// No text. Takes no memory.
    pub fn new(alloc: Global) -> Woven
        ensures { result ≡ [] }
    {
        Woven {
            alloc,
            own: Text::new(alloc),
            runs: Vec::new(alloc),
            before: 0,
            seen: None,
        }
    }

    /// Adds the line that begins a round. Where there is no memory the text is taken off.
    pub fn add_round(&mut self, number: u64) -> Result<(), Memory>
        ensures { OnOk result (self.new ≡ self.old ++ round_line number) }
    {
        match put_round_line(&mut self.own, number) {
            Ok(()) => Ok(()),
            Err(Memory) => {
                take_off(&mut self.own, &mut self.runs, &mut self.before);
                Err(Memory)
            }
        }
    }

    /// Adds the line of a command with its reply. Where there is no memory the text is taken off.
    #[inline(always)]
    pub fn add_line(
        &mut self,
        names: &NameList,
        by: By,
        command: &Command,
        reply: &Reply,
    ) -> Result<(), Memory>
        ensures { OnOk result (self.new ≡ self.old ++ command_line names.now (record { by = by; command = command.now; reply = reply.now })) }
    {
        match put_command_line(&mut self.own, names, by, command, reply) {
            Ok(()) => Ok(()),
            Err(Memory) => {
                take_off(&mut self.own, &mut self.runs, &mut self.before);
                Err(Memory)
            }
        }
    }

    /// Adds the lines of a step. Where there is no memory the text is taken off.
    pub fn add_step(&mut self, names: &NameList, step: &Step) -> Result<(), Memory>
        ensures { OnOk result (self.new ≡ self.old ++ step_text names.now step.now) }
    {
        match put_step(&mut self.own, names, step) {
            Ok(()) => Ok(()),
            Err(Memory) => {
                take_off(&mut self.own, &mut self.runs, &mut self.before);
                Err(Memory)
            }
        }
    }

    /// Adds own bytes. Where there is no memory the text is taken off.
    pub fn put(&mut self, piece: &[u8]) -> Result<(), Memory>
        ensures { OnOk result (self.new ≡ self.old ++ piece.now) }
    {
        match self.own.put(piece) {
            Ok(()) => Ok(()),
            Err(Memory) => {
                take_off(&mut self.own, &mut self.runs, &mut self.before);
                Err(Memory)
            }
        }
    }

    // Adds the end of a snapshot's line, if that before it was the same and is kept apart.
    fn repeat(&mut self, lists: &SharedSnap) -> bool
        ensures { self.new ≡ cond result (self.old ++ snapshot_end lists.now) self.old }
    {
        let length = self.own.bytes().len();
        let behind = length - self.before;
        let Some(last) = self.runs.last_mut() else {
            return false;
        };
        if !last.add(lists, behind) {
            return false;
        }
        self.before = length;
        true
    }

    // Keeps the end of a snapshot's line apart, for this place and others. Without memory it isn't added.
    fn keep_apart(&mut self, lists: &SharedSnap) -> bool
        ensures { self.new ≡ cond result (self.old ++ snapshot_end lists.now) self.old }
    {
        let length = self.own.bytes().len();
        let Ok(mut end) = Repeated::new(self.alloc, lists) else {
            return false;
        };
        if !end.add(lists, length - self.before) {
            return false;
        }
        end_last(&mut self.runs);
        if self.runs.push(end).is_err() {
            return false;
        }
        self.before = length;
        true
    }

    // Prints the end of a snapshot's line.
    fn print_end(&mut self, lists: &SharedSnap) -> Result<(), Memory>
        ensures { OnOk result (self.new ≡ self.old ++ snapshot_end lists.now) }
    {
        let start = self.own.bytes().len();
        match put_snapshot_end(&mut self.own, lists) {
            Ok(()) => {
                let bytes = self.own.bytes().len() - start;
                note(&mut self.seen, lists, bytes);
                Ok(())
            }
            Err(Memory) => {
                take_off(&mut self.own, &mut self.runs, &mut self.before);
                Err(Memory)
            }
        }
    }

    // Adds the end of a snapshot's line.
    fn add_end(&mut self, lists: &SharedSnap) -> Result<(), Memory>
        ensures { OnOk result (self.new ≡ self.old ++ snapshot_end lists.now) }
    {
        if self.repeat(lists) {
            return Ok(());
        }
        if comes_again(&self.seen, lists) && self.keep_apart(lists) {
            return Ok(());
        }
        self.print_end(lists)
    }

    /// Adds the line of a command that is told what a snapshot holds. Where that is the same again and again, the end of
    /// the line is neither printed nor kept again. Where there is no memory the text is taken off.
    pub fn add_snapped(
        &mut self,
        names: &NameList,
        by: By,
        command: &Command,
        lists: &SharedSnap,
    ) -> Result<(), Memory>
        ensures { OnOk result (self.new ≡ self.old ++ command_line names.now
            (record { by = by; command = command.now; reply = replies.Snapped lists.now })) }
    {
        match put_line_front(&mut self.own, names, by, command) {
            Ok(()) => self.add_end(lists),
            Err(Memory) => {
                take_off(&mut self.own, &mut self.runs, &mut self.before);
                Err(Memory)
            }
        }
    }

    /// The text, where it stands in one piece.
    #[tactic(auto, unfolding(crate::specs::Woven::woven))]
    pub fn plain(&self) -> Option<&[u8]>
        ensures { IfSome result (λ text. text.now ≡ self.now) }
    {
        if !self.runs.is_empty() {
            return None;
        }
        Some(self.own.bytes())
    }

    /// Writes the text, or a front of it. The memory that it takes it can do without.
    pub fn write<K: Sink>(&self, sink: &mut K) -> Result<(), Failed>
        ensures ok { OnOk result (Appends (K.held sink.old) (K.held sink.new) self.now) }
        ensures front { OnErr result ((n : ℕ) × Appends (K.held sink.old) (K.held sink.new) (take n self.now)) }
        ensures cause { HasCause (K.faults sink.old) (K.faults sink.new) result }
    {
        write_woven(self.alloc, sink, self.own.bytes(), self.runs.as_slice())
    }

    /// The same text, which grows no more.
    pub fn finish(self) -> Finished
        ensures { result ≡ self }
    {
        let Woven {
            alloc: _,
            own,
            runs,
            before: _,
            seen: _,
        } = self;
        Finished {
            own: own.into_bytes(),
            runs,
        }
    }
}

/// The same where the text grows no more.
#[derive(Drop)]
pub struct Finished {
    own: Vec<u8>,
    runs: Vec<Repeated>,
}

impl Model for Finished {
    ghost use Rattle.std.specs.Prelude.{◌≤◌, ℕ, List, length};
    ghost use Rattle.script_rounds.specs.Woven.{own_before, pieces_in, woven};

    ghost Value = { List ℕ };

    ghost view = { λ f. woven (pieces_in f.runs.items) f.own.items };

    ghost invariant = { λ f. own_before (pieces_in f.runs.items) ≤ length f.own.items };
}

impl Finished {
    /// Writes the text, or a front of it. The memory that it takes it can do without.
    pub fn write<K: Sink>(&self, alloc: Global, sink: &mut K) -> Result<(), Failed>
        ensures ok { OnOk result (Appends (K.held sink.old) (K.held sink.new) self.now) }
        ensures front { OnErr result ((n : ℕ) × Appends (K.held sink.old) (K.held sink.new) (take n self.now)) }
        ensures cause { HasCause (K.faults sink.old) (K.faults sink.new) result }
    {
        write_woven(alloc, sink, self.own.as_slice(), self.runs.as_slice())
    }
}
