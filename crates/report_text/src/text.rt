//! A text that grows at its end, by words, numbers and lines.
ghost use Rattle.std.specs.Prelude.{◌≡◌, ◌≤◌, ℕ, List, [], ◌∷◌, ◌++◌, ◌^◌, OnOk, OnErr, length, take};
ghost use Rattle.std.specs.Fmt.{decimal};
ghost use Rattle.report_text.specs.Words.{more, line_text, numbers, numbers_or_dash, yes_or_no, name_at};

use crate::numbers::push_numbers;
use crate::printed::Printed;
use itoa::Buffer;
use std::alloc::Global;
use std::marker::Model;
use text_bytes::Bytes;
use tx_events::FullXid;
use tx_model::{Memory, NameList};

/// A text. After want of memory it may have grown by a part of what was to be added.
#[derive(Drop)]
pub struct Text {
    bytes: Bytes,
    // The top-level ids and the subtransactions' ids of the snapshot that was printed last.
    tops: Printed,
    subs: Printed,
}

impl Model for Text {
    ghost use Rattle.std.specs.Prelude.{ℕ, List};

    ghost Value = { List ℕ };

    ghost view = { λ t. t.bytes };
}

impl Text {
    pub fn new(alloc: Global) -> Text
        ensures { result ≡ [] }
    {
        Text {
            bytes: Bytes::new(alloc),
            tops: Printed::new(alloc),
            subs: Printed::new(alloc),
        }
    }

    #[inline(always)]
    pub fn put(&mut self, piece: &[u8]) -> Result<(), Memory>
        ensures ok { OnOk result (self.new ≡ self.old ++ piece.now) }
    {
        self.bytes.put(piece)
    }

    /// A word behind a space. A word of known length is copied without a loop.
    #[tactic(auto, unfolding(crate::specs::Words::more))]
    #[inline(always)]
    pub fn word(&mut self, word: &[u8]) -> Result<(), Memory>
        ensures ok { OnOk result (self.new ≡ self.old ++ more (word.now ∷ [])) }
    {
        self.bytes.byte(b' ')?;
        self.bytes.put(word)
    }

    /// A name at the front of a line.
    #[inline(always)]
    pub fn front(&mut self, name: &[u8]) -> Result<(), Memory>
        ensures ok { OnOk result (self.new ≡ self.old ++ name.now) }
    {
        self.bytes.short(name)
    }

    /// A name behind a space.
    #[tactic(auto, using(crate::proofs::MoreWords::one_word))]
    pub fn name(&mut self, name: &[u8]) -> Result<(), Memory>
        ensures ok { OnOk result (self.new ≡ self.old ++ more (name.now ∷ [])) }
    {
        self.bytes.name(name)
    }

    /// A number's digits. A record's number may need more than 64 bits.
    pub fn digits(&mut self, n: u128) -> Result<(), Memory>
        ensures ok { OnOk result (self.new ≡ self.old ++ decimal n) }
    {
        match u64::try_from(n) {
            Ok(short) => self.bytes.digits(short),
            Err(_) => {
                let mut buffer = Buffer::new();
                self.put(buffer.format(n).as_bytes())
            }
        }
    }

    /// A number behind a space.
    #[tactic(auto, using(crate::proofs::MoreWords::one_word))]
    pub fn number(&mut self, n: u64) -> Result<(), Memory>
        ensures ok { OnOk result (self.new ≡ self.old ++ more (decimal n ∷ [])) }
    {
        self.bytes.number(n)
    }

    /// The numbers, each behind a space.
    pub fn numbers(&mut self, ids: &[FullXid]) -> Result<(), Memory>
        ensures ok { OnOk result (self.new ≡ self.old ++ more (numbers ids.now)) }
    {
        push_numbers(&mut self.bytes, ids)
    }

    /// The top-level ids of a snapshot, each behind a space, or a dash. The words of those printed last are copied.
    pub fn tops(&mut self, ids: &[FullXid]) -> Result<(), Memory>
        ensures ok { OnOk result (self.new ≡ self.old ++ more (numbers_or_dash ids.now)) }
    {
        if ids.is_empty() {
            return self.word(b"-");
        }
        self.tops.put(&mut self.bytes, ids)
    }

    /// The same for the ids of subtransactions.
    pub fn subs(&mut self, ids: &[FullXid]) -> Result<(), Memory>
        ensures ok { OnOk result (self.new ≡ self.old ++ more (numbers_or_dash ids.now)) }
    {
        if ids.is_empty() {
            return self.word(b"-");
        }
        self.subs.put(&mut self.bytes, ids)
    }

    /// A word and a number, each behind a space.
    #[tactic(auto, using(crate::proofs::MoreWords::then_more))]
    #[inline(always)]
    pub fn named(&mut self, word: &[u8], n: u64) -> Result<(), Memory>
        ensures ok { OnOk result (self.new ≡ self.old ++ more (word.now ∷ decimal n ∷ [])) }
    {
        self.word(word)?;
        self.number(n)
    }

    #[inline(always)]
    pub fn end_line(&mut self) -> Result<(), Memory>
        ensures ok { OnOk result (self.new ≡ self.old ++ 10 ∷ []) }
    {
        self.bytes.byte(b'\n')
    }

    /// A line of one word.
    #[tactic(auto, using(crate::proofs::MoreWords::then_short_line))]
    pub fn short_line(&mut self, word: &[u8]) -> Result<(), Memory>
        ensures ok { OnOk result (self.new ≡ self.old ++ line_text (word.now ∷ [])) }
    {
        self.put(word)?;
        self.end_line()
    }

    /// The bytes so far.
    pub fn bytes(&self) -> &[u8]
        ensures { result.now ≡ self.now }
    {
        self.bytes.items()
    }

    /// Takes all bytes off, so that the text can be used again.
    pub fn clear(&mut self)
        ensures { self.new ≡ [] }
    {
        self.bytes.clear();
    }

    /// Takes off what stands behind so many bytes.
    pub fn cut(&mut self, count: usize)
        requires { count ≤ length self.old }
        ensures { self.new ≡ take count self.old }
    {
        self.bytes.cut(count);
    }

    pub fn into_bytes(self) -> Vec<u8>
        ensures { result.items ≡ self }
    {
        self.bytes.into_vec()
    }
}

/// The numbers, each behind a space, or a dash.
pub fn put_numbers_or_dash(out: &mut Text, ids: &[FullXid]) -> Result<(), Memory>
    ensures ok { OnOk result (out.new ≡ out.old ++ more (numbers_or_dash ids.now)) }
{
    if ids.is_empty() {
        return out.word(b"-");
    }
    out.numbers(ids)
}

pub fn put_yes_or_no(out: &mut Text, yes: bool) -> Result<(), Memory>
    ensures ok { OnOk result (out.new ≡ out.old ++ more (yes_or_no yes ∷ [])) }
{
    if yes {
        out.word(b"yes")
    } else {
        out.word(b"no")
    }
}

/// A session's name.
pub fn name_of(names: &NameList, session: u32) -> &[u8]
    ensures { result.now ≡ name_at names.now session }
{
    match names.items().get(session as usize) {
        Some(name) => name.items(),
        None => &[],
    }
}
