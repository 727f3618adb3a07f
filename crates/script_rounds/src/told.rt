//! What a session has told in a round, for contracts alone: what is kept of it as it goes on is a `LineKeeper`'s.
ghost use Rattle.std.specs.Prelude.{◌≡◌, List, [], ◌∷◌, ◌++◌};
ghost use Rattle.tx_model.specs.declared.report.Line.{Line};

use notes::Note;
use std::marker::Model;
use tx_model::{By, Command, LineList, Reply};

/// The lines of the round that runs.
#[derive(Drop)]
pub struct ToldLines {
    note: Note<LineList>,
}

impl Model for ToldLines {
    ghost use Rattle.std.specs.Prelude.{List};
    ghost use Rattle.tx_model.specs.declared.report.Line.{Line};

    ghost Value = { List Line };

    ghost view = { λ t. t.note.value };
}

fn noted_line(_lines: &ToldLines, _by: By, _command: &Command, _reply: &Reply) -> Note<LineList>
    ghost noted: { List Line }
    ensures { result.value ≡ noted }
{
    Note::of()
}

fn noted_lines(_lines: &ToldLines, _more: &ToldLines) -> Note<LineList>
    ghost noted: { List Line }
    ensures { result.value ≡ noted }
{
    Note::of()
}

impl ToldLines {
    pub fn none() -> ToldLines
        ensures { result ≡ [] }
    {
        ToldLines { note: Note::of() }
    }

    /// Adds the line of a command with its reply.
    pub fn add(&mut self, by: By, command: &Command, reply: &Reply)
        ensures { self.new ≡ self.old ++ (record { by = by; command = command.now; reply = reply.now }) ∷ [] }
    {
        let note = noted_line(self, by, command, reply);
        self.note = note;
    }

    /// Adds these lines.
    pub fn add_all(&mut self, more: &ToldLines)
        ensures { self.new ≡ self.old ++ more.now }
    {
        let note = noted_lines(self, more);
        self.note = note;
    }
}
