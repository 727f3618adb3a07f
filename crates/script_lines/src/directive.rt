//! A directive behind the header.
ghost use Rattle.std.specs.Prelude.{◌≡◌};
ghost use Rattle.script_lines.specs.LineWords.{words_in};
ghost use Rattle.script_lines.specs.Directives.{how_in, store_in, on_page, log_dump_in, page_dump_in, dump_at, directive_at};

use crate::argument::{none_of, number_in, one_of, stored_in, three_of, two_of};
use crate::kind::Kind;
use crate::word::{is_same, next_word};
use tx_model::{DumpOf, How};

/// A line that begins with a dot and isn't of the header.
#[derive(Clone, Copy, Debug, PartialEq, Eq)]
pub enum Directive {
    /// The end of a round.
    Round,
    /// A checkpoint.
    Checkpoint,
    /// A crash, and the opening after it.
    Crash { how: How },
    /// A dump of `length` bytes, 1 to 64, from place `at` on.
    Dump { what: DumpOf, at: u64, length: u32 },
}

/// A store of pages that can be dumped.
#[derive(Clone, Copy, Debug, PartialEq, Eq)]
enum Store {
    Xact,
    Subtrans,
    Offsets,
    Members,
}

#[tactic(auto, unfolding(crate::specs::Directives::how_in))]
fn how_in(word: &[u8]) -> Result<How, Kind>
    ensures { result ≡ how_in word.now }
{
    if is_same(word, b"lost") {
        return Ok(How::Lost);
    }
    if is_same(word, b"kept") {
        return Ok(How::Kept);
    }
    if is_same(word, b"torn") {
        return Ok(How::Torn);
    }
    Err(Kind::Name)
}

#[tactic(auto, unfolding(crate::specs::Directives::store_in))]
fn store_in(word: &[u8]) -> Result<Store, Kind>
    ensures { result ≡ store_in word.now }
{
    if is_same(word, b"xact") {
        return Ok(Store::Xact);
    }
    if is_same(word, b"subtrans") {
        return Ok(Store::Subtrans);
    }
    if is_same(word, b"offsets") {
        return Ok(Store::Offsets);
    }
    if is_same(word, b"members") {
        return Ok(Store::Members);
    }
    Err(Kind::Name)
}

fn on_page(store: Store, page: u32) -> DumpOf
    ensures { result ≡ on_page store page }
{
    match store {
        Store::Xact => DumpOf::Xact { page },
        Store::Subtrans => DumpOf::Subtrans { page },
        Store::Offsets => DumpOf::Offsets { page },
        Store::Members => DumpOf::Members { page },
    }
}

#[tactic(auto, unfolding(crate::specs::Directives::log_dump_in))]
fn log_dump_in(rest: &[u8]) -> Result<Directive, Kind>
    ensures { result ≡ log_dump_in (words_in rest.now) }
{
    let (at, length) = two_of(rest)?;
    let at = number_in(0, 1 << 40, at)?;
    let length = number_in(1, 64, length)? as u32;
    let what = DumpOf::Log;
    Ok(Directive::Dump { what, at, length })
}

#[tactic(auto, unfolding(crate::specs::Directives::page_dump_in))]
fn page_dump_in(word: &[u8], rest: &[u8]) -> Result<Directive, Kind>
    ensures { result ≡ page_dump_in word.now (words_in rest.now) }
{
    let (page, at, length) = three_of(rest)?;
    let store = store_in(word)?;
    let page = stored_in(0, page)?;
    let at = number_in(0, 8192, at)?;
    let length = number_in(1, 64, length)? as u32;
    if at + u64::from(length) > 8192 {
        return Err(Kind::Number);
    }
    let what = on_page(store, page);
    Ok(Directive::Dump { what, at, length })
}

/// What is behind `.dump`.
fn dump_at(rest: &[u8]) -> Result<Directive, Kind>
    ensures { result ≡ dump_at (words_in rest.now) }
{
    let Some((word, rest)) = next_word(rest) else {
        return Err(Kind::Arguments);
    };
    if is_same(word, b"log") {
        return log_dump_in(rest);
    }
    page_dump_in(word, rest)
}

/// The directive of this word and those behind it, or its first fault: of the kinds `directive`, `arguments`, `name` and
/// `number`, in this order. A directive of the header is none here.
#[tactic(auto, unfolding(crate::specs::Directives::directive_at))]
pub fn directive_at(word: &[u8], rest: &[u8]) -> Result<Directive, Kind>
    ensures { result ≡ directive_at word.now (words_in rest.now) }
{
    if is_same(word, b".round") {
        none_of(rest)?;
        return Ok(Directive::Round);
    }
    if is_same(word, b".checkpoint") {
        none_of(rest)?;
        return Ok(Directive::Checkpoint);
    }
    if is_same(word, b".crash") {
        let how = how_in(one_of(rest)?)?;
        return Ok(Directive::Crash { how });
    }
    if is_same(word, b".dump") {
        return dump_at(rest);
    }
    Err(Kind::Directive)
}
