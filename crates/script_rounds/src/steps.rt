//! The text of a life's steps.
ghost use Rattle.std.specs.Prelude.{◌≡◌, ℕ, ◌++◌, IfSome, OnErr, OnOk, take};
ghost use Rattle.std.specs.List.{flat_map};
ghost use Rattle.std.specs.Io.KnownBytes.{Appends};
ghost use Rattle.tx_io.specs.Causes.{HasCause};

use crate::LineKeeper;
use crate::woven::{Finished, Woven};
use std::alloc::Global;
use std::marker::Model;
use std::mem;
use tx_io::{Failed, Sink};
use tx_model::{By, Command, Memory, NameList, Reply, Step};

// So many bytes are copied when a text is joined to another one: a text of its own takes some hundred bytes more.
const SHORT: usize = 4_096;

/// The text of steps. The end of a snapshot's line stands once where lines with the same follow one another.
#[derive(Drop)]
pub struct Steps {
    alloc: Global,
    /// What stands before the last text: where long texts were joined, these were moved.
    front: Vec<Finished>,
    /// What grows.
    last: Woven,
}

impl Model for Steps {
    ghost use Rattle.std.specs.Prelude.{ℕ, List, ◌++◌};
    ghost use Rattle.std.specs.List.{flat_map};

    ghost Value = { List ℕ };

    ghost view = { λ s. flat_map (λ text. text) s.front.items ++ s.last };
}

impl LineKeeper for Steps {
    ghost use Rattle.std.specs.Prelude.{[], ◌++◌};
    ghost use Rattle.std.specs.List.{flat_map};
    ghost use Rattle.std.proofs.Common.{◌∙◌, ap, append-nil, append_assoc, refl, sym};
    ghost use Rattle.std.proofs.lemmas.Grind.{flat_map-append};
    ghost use Rattle.report_text.specs.ReportText.{command_line, round_line, step_text};

    ghost nothing = { [] };

    ghost with_lines = { λ names kept lines. kept ++ flat_map (command_line names) lines };

    ghost with_round = { λ kept number. kept ++ round_line number };

    ghost with_step = { λ names kept step. kept ++ step_text names step };

    ghost joined = { λ kept more. kept ++ more };

    ghost no_lines = { λ names kept. append-nil kept };

    ghost then_lines = { λ names kept lines more. append_assoc kept (flat_map (command_line names) lines) (flat_map (command_line names) more) ∙ ap (λ text. kept ++ text) (sym (flat_map-append (command_line names) lines more)) };

    ghost join_lines = { λ names kept lines. refl };

    fn none(alloc: Global) -> Steps {
        Steps {
            alloc,
            front: Vec::new(alloc),
            last: Woven::new(alloc),
        }
    }

    fn add_round(&mut self, number: u64) -> Result<(), Memory> {
        self.last.add_round(number)
    }

    #[inline(always)]
    fn add_line(
        &mut self,
        names: &NameList,
        by: By,
        command: &Command,
        reply: &Reply,
    ) -> Result<(), Memory> {
        match reply {
            Reply::Snapped { lists } => self.last.add_snapped(names, by, command, lists),
            _ => self.last.add_line(names, by, command, reply),
        }
    }

    fn add_step(&mut self, names: &NameList, step: &Step) -> Result<(), Memory> {
        self.last.add_step(names, step)
    }

    fn join(&mut self, other: &mut Steps) -> Result<(), Memory> {
        match other.plain() {
            Some(text) if text.is_empty() => return Ok(()),
            Some(text) if text.len() <= SHORT => self.last.put(text)?,
            _ => self.take(other)?,
        }
        *other = Steps::none(self.alloc);
        Ok(())
    }
}

/// Writes texts, one behind another, or a front of that.
fn write_each<K: Sink>(alloc: Global, sink: &mut K, texts: &[Finished]) -> Result<(), Failed>
    ensures ok { OnOk result (Appends (K.held sink.old) (K.held sink.new) (flat_map (λ text. text) texts.now)) }
    ensures front { OnErr result ((n : ℕ)
        × Appends (K.held sink.old) (K.held sink.new) (take n (flat_map (λ text. text) texts.now))) }
    ensures cause { HasCause (K.faults sink.old) (K.faults sink.new) result }
{
    for text in texts {
        text.write(alloc, sink)?;
    }
    Ok(())
}

impl Steps {
    // Takes what the other has. No text is copied.
    fn take(&mut self, other: &mut Steps) -> Result<(), Memory>
        ensures { OnOk result (self.new ≡ self.old ++ other.old) }
    {
        let front = mem::replace(&mut other.front, Vec::new(self.alloc));
        let last = mem::replace(&mut other.last, Woven::new(self.alloc));
        let before = mem::replace(&mut self.last, last);
        self.front.push(before.finish())?;
        for text in front {
            self.front.push(text)?;
        }
        Ok(())
    }

    /// The text, where it stands in one piece.
    pub fn plain(&self) -> Option<&[u8]>
        ensures { IfSome result (λ text. text.now ≡ self.now) }
    {
        if !self.front.is_empty() {
            return None;
        }
        self.last.plain()
    }

    /// Writes the text, or a front of it.
    pub fn write<K: Sink>(&self, sink: &mut K) -> Result<(), Failed>
        ensures ok { OnOk result (Appends (K.held sink.old) (K.held sink.new) self.now) }
        ensures front { OnErr result ((n : ℕ) × Appends (K.held sink.old) (K.held sink.new) (take n self.now)) }
        ensures cause { HasCause (K.faults sink.old) (K.faults sink.new) result }
    {
        write_each(self.alloc, sink, self.front.as_slice())?;
        self.last.write(sink)
    }
}
