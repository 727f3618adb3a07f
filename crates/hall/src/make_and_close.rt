//! A table is made, and taken apart.
ghost use Rattle.std.specs.Prelude.{◌≡◌, ℕ, ◌+◌, ◌^◌, ◌<◌, ◌≤◌, [], ◌∷◌, IfOk, IfErr, length, slice_get, Some};
ghost use Rattle.hall.specs.declared.writer.Writer.TheVariants.{Lock};
ghost use Rattle.hall.specs.declared.view.Stage.TheVariants.{Free};
ghost use Rattle.notes.specs.Lists.{at};
ghost use Rattle.hall.specs.Rule.{Holds, first_view};
ghost use Rattle.hall.specs.Calls.{view, IsOf, start_of, passes_of, StandFor, ShownBy};

use crate::hall::Hall;
use crate::law::Law;
use crate::memory::Memory;
use crate::names::Names;
use crate::parts::{first_words, unwrap, wrap};
use crate::pass::{Pass, Token};
use crate::view::{Held, Opening};
use atomic_table::{Refused, Table};
use notes::Note;
use std::alloc::Global;

impl<L: Law> Hall<L> {
    /// A table with a lock for each value and a published word for each number of `posts`, and its
    /// first pass.
    ///
    /// `passes` is 1 to 65. The first pass has the names below it, adds under the name
    /// `passes - 1`, and may give the others to new passes. `from` has the table's start and its
    /// first histories, of which the relation holds: the values stand for those of the locks, and
    /// the numbers are what those of the words show.
    ///
    /// A lock takes 144 bytes and twice the size of its value, a word 64 bytes, and the table 64
    /// more: each lock and each word has a cache line of its own. For the time of this call it takes
    /// nearly as much again.
    ///
    /// Where there is no memory, the values come back. So they do from 2^61 locks and words on, whose
    /// lines have no room in 2^64 bytes. No other call of a table takes memory.
    pub fn new(
        alloc: Global,
        mut values: Vec<L::Value>,
        posts: Vec<u64>,
        passes: u32,
        from: Note<Opening<L::Start, L::Entry>>,
    ) -> Result<(Hall<L>, Pass<L>), (Vec<L::Value>, Memory)>
        requires passes { (0 < passes) × (passes ≤ 65) × (from.value.passes ≡ passes) }
        requires sizes { (length values.items < 2 ^ 62) × (length posts.items < 2 ^ 62) }
        requires places { length from.value.lists ≡ length values.items + length posts.items }
        requires locks { (c : ℕ) → c < length values.items → L.writer from.value.start c ≡ Lock c }
        requires kept { L.kept from.value.start from.value.lists }
        requires stand { StandFor L.stands from.value.start values.items from.value.lists }
        requires shown { ShownBy L.number from.value.start (length values.items) posts.items from.value.lists }
        ensures hall { IfOk result (λ r. (start_of r.0 ≡ from.value.start) × (passes_of r.0 ≡ from.value.passes) × (r.0.cells ≡ length values.items) × (r.0.posts ≡ length posts.items)) }
        ensures pass { IfOk result (λ r. IsOf r.0 r.1 × (view r.1 ≡ first_view from.value)) }
        ensures refused { IfErr result (λ r. r.0.items ≡ values.items) }
    {
        let cells = values.len();
        let words = posts.len();
        let Ok(starts) = first_words(alloc, cells, posts.as_slice()) else {
            return Err((values, Memory));
        };
        let Ok(mut slots) = Vec::with_capacity(alloc, cells) else {
            return Err((values, Memory));
        };
        wrap(&mut values, &mut slots);
        match Table::new(alloc, starts.as_slice(), slots, &from) {
            Ok((table, seat)) => {
                let hall = Hall {
                    table,
                    cells,
                    posts: words,
                    shell: values,
                };
                let pass = Token {
                    seat,
                    cell: 0,
                    names: Names::first(passes),
                };
                Ok((hall, pass))
            }
            Err(Refused { slots }) => {
                unwrap(slots, &mut values);
                Err((values, Memory))
            }
        }
    }

    /// The values, in the order of their locks, once all other passes were joined into this one and
    /// it is inside no lock. The pass has seen all histories whole, the relation holds of them, and
    /// each value stands for its lock's.
    pub fn close_with(self, pass: Pass<L>) -> Vec<L::Value>
        requires own { IsOf self pass }
        requires free { (view pass).stage ≡ Free }
        requires all { (m : ℕ) → m < passes_of self → Holds (view pass) m }
        ensures kept { L.kept (start_of self) (view pass).seen }
        ensures stand { (length result.items ≡ self.cells) × StandFor L.stands (start_of self) result.items (view pass).seen }
    {
        let Hall {
            table,
            cells,
            posts: _,
            mut shell,
        } = self;
        let Token {
            seat,
            cell: _,
            names: _,
        } = pass;
        let mut closed = table.close_with(seat);
        for i in 0..cells {
            let Held {
                value,
                note: _,
                gap: _,
            } = closed.take(i);
            let Some(x) = value else { unreachable!() };
            shell.push_reserved(x);
        }
        closed.free();
        shell
    }
}
