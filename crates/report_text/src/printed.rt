//! A list of ids that was printed, with its words.
ghost use Rattle.std.specs.Prelude.{◌≡◌, ◌++◌, [], IsTrue, OnOk, length};
ghost use Rattle.report_text.specs.Words.{more, numbers};

use crate::numbers::push_numbers;
use std::alloc::Global;
use std::marker::Model;
use text_bytes::Bytes;
use tx_events::{FullXid, Memory};
use tx_model::SharedSnap;

// Shorter lists are printed anew.
const MANY: usize = 8;

/// Whether two lists of as many ids are the same. It looks at all of them, some at once.
#[tactic(auto, using(crate::proofs::Differing::same_so_far, std::proofs::lemmas::List::take_more_same, std::proofs::lemmas::List::take_all))]
fn are_same(a: &[FullXid], b: &[FullXid]) -> bool
    requires { length a.now ≡ length b.now }
    ensures { IsTrue result → a.now ≡ b.now }
{
    let mut differing = 0;
    for i in 0..a.len() {
        differing |= a[i].number() ^ b[i].number();
    }
    differing == 0
}

/// The same of lists of any length.
fn are_same_lists(a: &[FullXid], b: &[FullXid]) -> bool
    ensures { IsTrue result → a.now ≡ b.now }
{
    a.len() == b.len() && are_same(a, b)
}

/// Whether two snapshots hold the same.
pub fn is_same_snapshot(a: &SharedSnap, b: &SharedSnap) -> bool
    ensures { IsTrue result → a.now ≡ b.now }
{
    a.xmax() == b.xmax()
        && a.xmin() == b.xmin()
        && a.overflowed() == b.overflowed()
        && are_same_lists(a.xip(), b.xip())
        && are_same_lists(a.subxip(), b.subxip())
}

/// The list of ids that was printed last, with its words, so that these need not be made anew for the same list. A
/// contract sees the ids.
#[derive(Drop)]
pub struct Printed {
    ids: Vec<FullXid>,
    words: Vec<u8>,
}

impl Model for Printed {
    ghost use Rattle.std.specs.Prelude.{◌≡◌, ℕ, List};
    ghost use Rattle.report_text.specs.Words.{more, numbers};

    ghost Value = { List ℕ };

    ghost view = { λ p. p.ids.items };

    ghost invariant = { λ p. p.words.items ≡ more (numbers p.ids.items) };
}

impl Printed {
    /// No ids. Takes no memory.
    #[tactic(auto, unfolding(crate::specs::Words::more))]
    pub fn new(alloc: Global) -> Printed
        ensures { result ≡ [] }
    {
        Printed {
            ids: Vec::new(alloc),
            words: Vec::new(alloc),
        }
    }

    fn is_of(&self, ids: &[FullXid]) -> bool
        ensures { IsTrue result → self.now ≡ ids.now }
    {
        are_same_lists(&self.ids, ids)
    }

    // Where there is no memory, none are kept.
    #[tactic(auto, unfolding(crate::specs::Words::more))]
    fn keep(&mut self, ids: &[FullXid], words: &[u8])
        requires { words.now ≡ more (numbers ids.now) }
    {
        self.ids.clear();
        self.words.clear();
        if self.words.extend_from_slice(words).is_err() {
            return;
        }
        if self.ids.extend_from_slice(ids).is_err() {
            self.words.clear();
        }
    }

    /// Adds the numbers to a text, each behind a space.
    pub fn put(&mut self, bytes: &mut Bytes, ids: &[FullXid]) -> Result<(), Memory>
        ensures ok { OnOk result (bytes.new ≡ bytes.old ++ more (numbers ids.now)) }
    {
        if ids.len() < MANY {
            return push_numbers(bytes, ids);
        }
        if self.is_of(ids) {
            return bytes.put(self.words.as_slice());
        }
        let from = bytes.len();
        push_numbers(bytes, ids)?;
        self.keep(ids, &bytes.items()[from..]);
        Ok(())
    }
}
