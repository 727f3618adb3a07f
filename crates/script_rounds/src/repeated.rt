//! The end of a snapshot's line that comes again and again in a text.
ghost use Rattle.std.specs.Prelude.{◌≡◌, ℕ, ◌≤◌, List, [], ◌∷◌, ◌++◌, IfOk, OnErr, OnOk, cond, drop, length, take};
ghost use Rattle.std.specs.Io.KnownBytes.{Appends};
ghost use Rattle.tx_io.specs.Causes.{HasCause};
ghost use Rattle.report_text.specs.ReportText.{snapshot_end};
ghost use Rattle.script_rounds.specs.Woven.{own_before, spread};

use crate::pieces::hand_both;
use report_text::{Text, is_same_snapshot, put_snapshot_end};
use std::alloc::Global;
use std::marker::Model;
use tx_events::SharedSnap;
use tx_io::{Failed, Sink};
use tx_model::Memory;

/// The end of a snapshot's line, which stands here once for all places where a text has it. A contract sees the pieces:
/// how many of the text's own bytes stand before each, behind the piece before it, and its bytes.
#[derive(Drop)]
pub struct Repeated {
    /// Whose end it is, as long as it may come again.
    of: Option<SharedSnap>,
    bytes: Vec<u8>,
    /// How many own bytes stand before it, for each place in four bytes.
    places: Vec<u32>,
}

impl Model for Repeated {
    ghost use Rattle.std.specs.Prelude.{◌≡◌, ℕ, IfSome, List};
    ghost use Rattle.report_text.specs.ReportText.{snapshot_end};
    ghost use Rattle.script_rounds.specs.Woven.{pieces_at};

    ghost Value = { List (ℕ × List ℕ) };

    ghost view = { λ r. pieces_at r.bytes.items r.places.items };

    ghost invariant = { λ r. IfSome r.of (λ lists. r.bytes.items ≡ snapshot_end lists) };
}

impl Repeated {
    /// This snapshot's, without a place.
    pub fn new(alloc: Global, lists: &SharedSnap) -> Result<Repeated, Memory>
        ensures { IfOk result (λ end. end ≡ []) }
    {
        let mut text = Text::new(alloc);
        put_snapshot_end(&mut text, lists)?;
        let mut bytes = Vec::new(alloc);
        bytes.extend_from_slice(text.bytes())?;
        Ok(Repeated {
            of: Some(lists.clone()?),
            bytes,
            places: Vec::new(alloc),
        })
    }

    /// Adds a place behind so many own bytes, if this snapshot's line ends so. Where there is no memory, or where they
    /// are too many for four bytes, it isn't added.
    pub fn add(&mut self, lists: &SharedSnap, behind: usize) -> bool
        ensures { self.new ≡ cond result (self.old ++ (behind, snapshot_end lists.now) ∷ []) self.old }
    {
        let Some(of) = &self.of else {
            return false;
        };
        if !is_same_snapshot(of, lists) {
            return false;
        }
        let Ok(behind) = u32::try_from(behind) else {
            return false;
        };
        self.places.push(behind).is_ok()
    }

    /// It doesn't come again.
    pub fn end(&mut self)
        ensures { self.new ≡ self.old }
    {
        self.of = None;
    }

    /// Gathers the own bytes up to the last place, with it in each place, or writes them. Returns the own bytes behind
    /// that.
    pub fn hand<'a, K: Sink>(
        &self,
        sink: &mut K,
        kept: &mut Vec<u8>,
        own: &'a [u8],
    ) -> Result<&'a [u8], Failed>
        requires { own_before self.now ≤ length own.now }
        ensures rest { IfOk result (λ rest. rest.now ≡ drop (own_before self.now) own.now) }
        ensures ok { OnOk result ((written : List ℕ) × (written ++ kept.new.items ≡ kept.old.items ++ spread self.now own.now)
            × Appends (K.held sink.old) (K.held sink.new) written) }
        ensures front { OnErr result ((n : ℕ)
            × Appends (K.held sink.old) (K.held sink.new) (take n (kept.old.items ++ spread self.now own.now))) }
        ensures cause { HasCause (K.faults sink.old) (K.faults sink.new) result }
    {
        let mut rest = own;
        for place in self.places.as_slice() {
            let (before, behind) = rest.split_at(*place as usize);
            hand_both(sink, kept, before, self.bytes.as_slice())?;
            rest = behind;
        }
        Ok(rest)
    }
}
