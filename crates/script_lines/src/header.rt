//! The header of a script.
ghost use Rattle.std.specs.Prelude.{◌≡◌, ◌≤◌, ◌^◌, OnOk, Ok, IfOk};
ghost use Rattle.script_lines.specs.LineWords.{words_in};
ghost use Rattle.script_lines.specs.Header.{is_header_word, given_id, given_multi, given_number, header_with, base_of, banks_of, no_header, is_base};

use crate::argument::{GREATEST, id_in, multi_in, number_in, one_of};
use crate::kind::Kind;
use crate::word::is_same;
use tx_events::{FullMulti, FullXid};
use tx_model::Counters;

/// The greatest number of banks that a store may have.
const MOST_BANKS: u64 = 16;

/// What the lines of a header give.
#[derive(Clone, Copy, Debug, PartialEq, Eq)]
pub struct Header {
    /// The next id, from 3 to 2^62.
    pub start: Option<FullXid>,
    /// The oldest id that is still asked for, from 3 to 2^62.
    pub oldest: Option<FullXid>,
    /// The next multixact, from 1 to 2^62.
    pub multi: Option<FullMulti>,
    /// The next member offset, from 1 to 2^62.
    pub offset: Option<u64>,
    /// The oldest multixact that is still asked for, from 1 to 2^62.
    pub oldest_multi: Option<FullMulti>,
    /// Its offset, from 1 to 2^62.
    pub oldest_offset: Option<u64>,
    /// The banks of a store, 1 to 16.
    pub banks: Option<u32>,
}

/// Whether a line of a header begins with the word.
pub fn is_header_word(word: &[u8]) -> bool
    ensures { result ≡ is_header_word word.now }
{
    is_same(word, b".start")
        || is_same(word, b".oldest")
        || is_same(word, b".multi")
        || is_same(word, b".offset")
        || is_same(word, b".oldest-multi")
        || is_same(word, b".oldest-offset")
        || is_same(word, b".banks")
}

#[tactic(auto, unfolding(crate::specs::Header::given_id))]
fn given_id(given: Option<FullXid>, rest: &[u8]) -> Result<FullXid, Kind>
    ensures { result ≡ given_id given (words_in rest.now) }
{
    if given.is_some() {
        return Err(Kind::Directive);
    }
    id_in(one_of(rest)?)
}

#[tactic(auto, unfolding(crate::specs::Header::given_multi))]
fn given_multi(given: Option<FullMulti>, rest: &[u8]) -> Result<FullMulti, Kind>
    ensures { result ≡ given_multi given (words_in rest.now) }
{
    if given.is_some() {
        return Err(Kind::Directive);
    }
    multi_in(one_of(rest)?)
}

#[tactic(auto, unfolding(crate::specs::Header::given_number))]
fn given_offset(given: Option<u64>, rest: &[u8]) -> Result<u64, Kind>
    ensures { result ≡ given_number (2 ^ 62) given (words_in rest.now) }
{
    if given.is_some() {
        return Err(Kind::Directive);
    }
    number_in(1, GREATEST, one_of(rest)?)
}

#[tactic(auto, unfolding(crate::specs::Header::given_number))]
fn given_banks(given: Option<u32>, rest: &[u8]) -> Result<u32, Kind>
    ensures { result ≡ given_number 16 given (words_in rest.now) }
{
    if given.is_some() {
        return Err(Kind::Directive);
    }
    let n = number_in(1, MOST_BANKS, one_of(rest)?)?;
    Ok(n as u32)
}

impl Header {
    /// Of no line.
    #[tactic(auto, unfolding(crate::specs::Header::no_header))]
    pub fn new() -> Header
        ensures { result ≡ no_header }
    {
        Header {
            start: None,
            oldest: None,
            multi: None,
            offset: None,
            oldest_multi: None,
            oldest_offset: None,
            banks: None,
        }
    }

    /// With one line more, or its first fault: of the kinds `directive`, `arguments` and `number`, in this order.
    #[tactic(auto, unfolding(crate::specs::Header::header_with))]
    pub fn with(self, word: &[u8], rest: &[u8]) -> Result<Header, Kind>
        ensures { result ≡ header_with self word.now (words_in rest.now) }
    {
        if is_same(word, b".start") {
            let start = Some(given_id(self.start, rest)?);
            return Ok(Header { start, ..self });
        }
        if is_same(word, b".oldest") {
            let oldest = Some(given_id(self.oldest, rest)?);
            return Ok(Header { oldest, ..self });
        }
        if is_same(word, b".multi") {
            let multi = Some(given_multi(self.multi, rest)?);
            return Ok(Header { multi, ..self });
        }
        if is_same(word, b".offset") {
            let offset = Some(given_offset(self.offset, rest)?);
            return Ok(Header { offset, ..self });
        }
        if is_same(word, b".oldest-multi") {
            let oldest_multi = Some(given_multi(self.oldest_multi, rest)?);
            return Ok(Header {
                oldest_multi,
                ..self
            });
        }
        if is_same(word, b".oldest-offset") {
            let oldest_offset = Some(given_offset(self.oldest_offset, rest)?);
            return Ok(Header {
                oldest_offset,
                ..self
            });
        }
        if is_same(word, b".banks") {
            let banks = Some(given_banks(self.banks, rest)?);
            return Ok(Header { banks, ..self });
        }
        Err(Kind::Directive)
    }

    /// The counters that a script with this header starts from: where no line gives others those of a new log, and of
    /// the oldest multixact and its offset the next ones.
    pub fn base(&self) -> Counters
        ensures { result ≡ base_of self.now }
    {
        let new_log = Counters::of_new_log();
        let multi = self.multi.unwrap_or(new_log.multi);
        let offset = self.offset.unwrap_or(new_log.offset);
        Counters {
            next: self.start.unwrap_or(new_log.next),
            oldest: self.oldest.unwrap_or(new_log.oldest),
            multi,
            offset,
            oldest_multi: self.oldest_multi.unwrap_or(multi),
            oldest_offset: self.oldest_offset.unwrap_or(offset),
        }
    }

    /// The banks of each store.
    pub fn banks(&self) -> u32
        ensures { result ≡ banks_of self.now }
    {
        self.banks.unwrap_or(4)
    }

    /// Whether a life may start from its counters.
    pub fn has_base(&self) -> bool
        ensures { result ≡ is_base (base_of self.now) }
    {
        tx_model::is_base(&self.base())
    }
}
