//! The lists that a life leaves, line by line.
ghost use Rattle.std.specs.Prelude.{◌≡◌, ◌+◌, ◌^◌, ◌<◌, ◌++◌, ℕ, List, IfOk, OnOk, length};
ghost use Rattle.text_pieces.specs.Lines.{lines_text};

use report_text::{Text, put_event, put_multi_event, put_record_line};
use std::alloc::Global;
use tx_model::{Event, Memory, MultiEvent, NameList, Rec};

/// An element of a list, each of which has a line of its own.
pub trait Listed {
    /// What its line goes by, beside its place.
    type By;

    /// The line of an element at a place.
    ghost line: { Self.By → ℕ → Self → List ℕ };

    fn put(&self, out: &mut Text, by: &Self::By, place: usize) -> Result<(), Memory>
        ensures { OnOk result (out.new ≡ out.old ++ line by.now place self.now) };
}

impl Listed for Event {
    ghost use Rattle.report_text.specs.Words.{line_text};
    ghost use Rattle.report_text.specs.EventText.{event_words};

    type By = NameList;

    ghost line = { λ names place event. line_text (event_words names event) };

    #[inline(always)]
    fn put(&self, out: &mut Text, by: &NameList, _place: usize) -> Result<(), Memory> {
        put_event(out, by, self)
    }
}

impl Listed for MultiEvent {
    ghost use Rattle.report_text.specs.Words.{line_text};
    ghost use Rattle.report_text.specs.EventText.{multi_event_words};

    type By = NameList;

    ghost line = { λ names place event. line_text (multi_event_words names event) };

    #[inline(always)]
    fn put(&self, out: &mut Text, by: &NameList, _place: usize) -> Result<(), Memory> {
        put_multi_event(out, by, self)
    }
}

impl Listed for Rec {
    ghost use Rattle.std.specs.Prelude.{◌+◌, ◌∷◌};
    ghost use Rattle.std.specs.Fmt.{decimal};
    ghost use Rattle.report_text.specs.Words.{line_text};
    ghost use Rattle.report_text.specs.RecordText.{record_words};

    /// The number of the first record.
    type By = u64;

    ghost line = { λ from place rec. line_text (decimal (from + place) ∷ record_words rec) };

    #[inline(always)]
    fn put(&self, out: &mut Text, by: &u64, place: usize) -> Result<(), Memory> {
        put_record_line(out, *by as u128 + place as u128, self)
    }
}

/// Prints the elements, the first one of which has this place.
pub fn put_lines<X: Listed>(
    out: &mut Text,
    by: &X::By,
    from: usize,
    items: &[X],
) -> Result<(), Memory>
    requires places { from + length items.now < 2 ^ 64 }
    ensures { OnOk result (out.new ≡ out.old ++ lines_text (X.line by.now) from items.now) }
{
    let mut place = from;
    for item in items {
        item.put(out, by, place)?;
        place += 1;
    }
    Ok(())
}

/// Prints them to a text of their own.
pub fn piece_of<X: Listed>(
    alloc: Global,
    by: &X::By,
    from: usize,
    items: &[X],
) -> Result<Text, Memory>
    requires places { from + length items.now < 2 ^ 64 }
    ensures { IfOk result (λ text. text ≡ lines_text (X.line by.now) from items.now) }
{
    let mut text = Text::new(alloc);
    put_lines(&mut text, by, from, items)?;
    Ok(text)
}
