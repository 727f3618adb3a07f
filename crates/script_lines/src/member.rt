//! The members of a multixact, as a script writes them.
ghost use Rattle.std.specs.Prelude.{◌≡◌, ◌≤◌, not, length, [], OnOk, OnErr, IfOk, IfErr};
ghost use Rattle.std.specs.List.{prefix_len};
ghost use Rattle.script_lines.specs.LineWords.{words_in};
ghost use Rattle.script_lines.specs.Kinds.{Gives, seen};
ghost use Rattle.script_lines.specs.Members.{is_colon, id_part, mode_part, mode_in, modes_in, fault_behind, pairs_in};

use crate::argument::stored_in;
use crate::kind::{Kind, Stop};
use crate::word::{is_same, next_word};
use std::alloc::Global;
use tx_events::Xid;
use tx_model::{Mode, Pair, PairList};

/// How many bytes stand before the first colon, or in all.
#[tactic(auto, using(std::proofs::lemmas::List::Sums::prefix_len_is))]
fn colon_place(word: &[u8]) -> usize
    ensures within { result ≤ length word.now }
    ensures value { result ≡ prefix_len (λ b. not (is_colon b)) word.now }
{
    for (i, b) in word.iter().enumerate() {
        if *b == b':' {
            return i;
        }
    }
    word.len()
}

/// What stands before the first colon, and what behind it; nothing behind, where there is none.
fn parts_of(word: &[u8]) -> (&[u8], &[u8])
    ensures id { result.0.now ≡ id_part word.now }
    ensures mode { result.1.now ≡ mode_part word.now }
{
    let place = colon_place(word);
    if place == word.len() {
        return (word, &[]);
    }
    (&word[..place], &word[place + 1..])
}

#[tactic(auto, unfolding(crate::specs::Members::mode_in))]
fn mode_in(word: &[u8]) -> Result<Mode, Kind>
    ensures { result ≡ mode_in word.now }
{
    if is_same(word, b"keysh") {
        return Ok(Mode::KeySh);
    }
    if is_same(word, b"sh") {
        return Ok(Mode::Sh);
    }
    if is_same(word, b"fornokeyupd") {
        return Ok(Mode::ForNoKeyUpd);
    }
    if is_same(word, b"forupd") {
        return Ok(Mode::ForUpd);
    }
    if is_same(word, b"nokeyupd") {
        return Ok(Mode::NoKeyUpd);
    }
    if is_same(word, b"upd") {
        return Ok(Mode::Upd);
    }
    Err(Kind::Mode)
}

/// Whether each word has a mode.
fn modes_in(words: &[u8]) -> Result<(), Kind>
    ensures { seen (λ _. tt) result ≡ modes_in (words_in words.now) }
{
    let mut rest = words;
    while let Some((word, more)) = next_word(rest) {
        let (_id, mode) = parts_of(word);
        if let Err(kind) = mode_in(mode) {
            return Err(kind);
        }
        rest = more;
    }
    Ok(())
}

/// The fault of a word whose number has this one: that of a later word's mode comes before it.
fn number_fault(kind: Kind, more: &[u8]) -> Kind
    ensures { result ≡ fault_behind kind (modes_in (words_in more.now)) }
{
    match modes_in(more) {
        Ok(()) => kind,
        Err(other) => other,
    }
}

/// The members that the words are. All modes are tested before any number.
pub fn pairs_in(alloc: Global, words: &[u8]) -> Result<PairList, Stop>
    ensures { Gives (λ pairs. pairs) result (pairs_in (words_in words.now)) }
{
    let mut pairs = PairList::new(alloc);
    let mut rest = words;
    while let Some((word, more)) = next_word(rest) {
        let (id, mode) = parts_of(word);
        let mode = mode_in(mode)?;
        match stored_in(0, id) {
            Ok(number) => {
                let x = Xid { number };
                pairs.push(Pair { x, mode })?;
            }
            Err(kind) => return Err(Stop::Fault(number_fault(kind, more))),
        }
        rest = more;
    }
    Ok(pairs)
}
