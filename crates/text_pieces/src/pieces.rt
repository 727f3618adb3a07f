//! A text in pieces.
ghost use Rattle.std.specs.Prelude.{◌≡◌, ◌∷◌, ◌++◌, [], IsOk, OnOk, codes};
ghost use Rattle.std.specs.List.{flat_map, All};
ghost use Rattle.std.specs.Fmt.{decimal};
ghost use Rattle.report_text.specs.Words.{line_text};
ghost use Rattle.report_text.specs.RecordText.{records_text};
ghost use Rattle.report_text.specs.ReportText.{crash_text, history_text, multis_text};
ghost use Rattle.text_pieces.specs.Lines.{events_text, lines_text, piece_text};

use crate::beside::print_beside;
use crate::lines::{Listed, put_lines};
use report_text::{Text, put_crash, put_log_line};
use std::alloc::Global;
use std::marker::Model;
use std::mem;
use std::thread::Threads;
use tx_model::{Event, How, Memory, MultiEvent, NameList, Rec};

// A shorter list isn't worth its threads.
const FEW: usize = 4_096;

// So many events are printed before they go.
const AT_ONCE: usize = 65_536;

/// A text that stands in pieces, so that they can be made side by side and need not be copied together. A contract sees the
/// whole text. After want of memory it isn't said what that is.
#[derive(Drop)]
pub struct Pieces {
    alloc: Global,
    /// What stands before the last piece. Without any it takes no memory.
    front: Vec<Text>,
    /// What grows.
    last: Text,
}

impl Model for Pieces {
    ghost use Rattle.std.specs.Prelude.{ℕ, List, ◌++◌};
    ghost use Rattle.std.specs.List.{flat_map};

    ghost Value = { List ℕ };

    ghost view = { λ p. flat_map (λ text. text) p.front.items ++ p.last };
}

impl Pieces {
    /// No text. Takes no memory.
    pub fn new(alloc: Global) -> Pieces
        ensures { result ≡ [] }
    {
        Pieces {
            alloc,
            front: Vec::new(alloc),
            last: Text::new(alloc),
        }
    }

    /// The pieces before the last one, and this.
    pub fn parts(&self) -> (&[Text], &Text)
        ensures { flat_map (λ text. text) result.0.now ++ result.1.now ≡ self.now }
    {
        (self.front.as_slice(), &self.last)
    }

    // Adds pieces, if memory sufficed for all of them.
    fn add(&mut self, pieces: Vec<Result<Text, Memory>>) -> Result<(), Memory>
        ensures { OnOk result (All IsOk pieces.items × (self.new ≡ self.old ++ flat_map piece_text pieces.items)) }
    {
        let last = mem::replace(&mut self.last, Text::new(self.alloc));
        self.front.push(last)?;
        for piece in pieces {
            self.front.push(piece?)?;
        }
        Ok(())
    }

    // A line for each element, printed in so many threads where they are many.
    fn put_list<R: Threads + Sync, X: Listed + Sync>(
        &mut self,
        rt: &R,
        by: &X::By,
        items: &[X],
        threads: usize,
    ) -> Result<(), Memory>
    where
        X::By: Sync,
        ensures { OnOk result (self.new ≡ self.old ++ lines_text (X.line by.now) 0 items.now) }
    {
        if threads < 2 || items.len() < FEW {
            return put_lines(&mut self.last, by, 0, items);
        }
        let size = items.len().div_ceil(threads);
        let pieces = print_beside(rt, self.alloc, by, items, size)?;
        self.add(pieces)
    }

    /// A line of one word.
    pub fn put_word(&mut self, word: &[u8]) -> Result<(), Memory>
        ensures { OnOk result (self.new ≡ self.old ++ line_text (word.now ∷ [])) }
    {
        self.last.short_line(word)
    }

    /// The line that begins a log.
    pub fn put_log_line(&mut self, flushed: u64, end: u64) -> Result<(), Memory>
        ensures { OnOk result (self.new ≡ self.old ++ line_text (codes "log" ∷ codes "flushed" ∷ decimal flushed ∷ codes "end" ∷ decimal end ∷ [])) }
    {
        put_log_line(&mut self.last, flushed, end)
    }

    /// The line of the crash that ended a life, if one did.
    pub fn put_crash(&mut self, crash: Option<How>) -> Result<(), Memory>
        ensures { OnOk result (self.new ≡ self.old ++ crash_text crash) }
    {
        put_crash(&mut self.last, crash)
    }

    // Takes what the other has. No text is copied.
    fn take(&mut self, other: Pieces) -> Result<(), Memory>
        ensures { OnOk result (self.new ≡ self.old ++ other) }
    {
        let Pieces {
            alloc: _,
            front,
            last,
        } = other;
        let before = mem::replace(&mut self.last, last);
        self.front.push(before)?;
        for text in front {
            self.front.push(text)?;
        }
        Ok(())
    }

    // A line for each event, from the last ones on. They go as soon as they are printed.
    fn put_events<R: Threads + Sync>(
        &mut self,
        rt: &R,
        names: &NameList,
        events: Vec<Event>,
        threads: usize,
    ) -> Result<(), Memory>
        ensures { OnOk result (self.new ≡ self.old ++ events_text names.now events.items) }
    {
        let mut rest = events;
        let mut behind = Vec::new(self.alloc);
        while rest.len() > AT_ONCE {
            let from = rest.len() - AT_ONCE;
            let mut last = Pieces::new(self.alloc);
            last.put_list(rt, names, &rest[from..], threads)?;
            behind.push(last)?;
            rest.truncate(from);
            rest.shrink_to_fit();
        }
        self.put_list(rt, names, &rest, threads)?;
        while let Some(next) = behind.pop() {
            self.take(next)?;
        }
        Ok(())
    }

    /// A history. Its events go as they are printed, so that they and their text don't stand whole beside one another.
    pub fn put_history<R: Threads + Sync>(
        &mut self,
        rt: &R,
        names: &NameList,
        events: Vec<Event>,
        threads: usize,
    ) -> Result<(), Memory>
        ensures { OnOk result (self.new ≡ self.old ++ history_text names.now events.items) }
    {
        self.put_word(b"history")?;
        self.put_events(rt, names, events, threads)
    }

    /// A history of multixacts.
    pub fn put_multis<R: Threads + Sync>(
        &mut self,
        rt: &R,
        names: &NameList,
        multis: &[MultiEvent],
        threads: usize,
    ) -> Result<(), Memory>
        ensures { OnOk result (self.new ≡ self.old ++ multis_text names.now multis.now) }
    {
        self.put_word(b"multis")?;
        self.put_list(rt, names, multis, threads)
    }

    /// Records, numbered from this one on.
    #[tactic(auto, using(crate::proofs::Printed::lines_numbered))]
    pub fn put_records<R: Threads + Sync>(
        &mut self,
        rt: &R,
        from: u64,
        recs: &[Rec],
        threads: usize,
    ) -> Result<(), Memory>
        ensures { OnOk result (self.new ≡ self.old ++ records_text from recs.now) }
    {
        self.put_list(rt, &from, recs, threads)
    }
}
