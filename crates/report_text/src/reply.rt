//! The words of a reply.
ghost use Rattle.std.specs.Prelude.{◌≡◌, ◌<◌, [], ◌∷◌, ◌++◌, OnOk, codes, map};
ghost use Rattle.std.specs.Fmt.{decimal};
ghost use Rattle.report_text.specs.Words.{more, numbers_or_dash};
ghost use Rattle.report_text.specs.MemberText.{member_verdict_words};
ghost use Rattle.report_text.specs.ReplyText.{reply_words, warned, status_word, snapshot_words, hex_digit, hex_word, dump_bytes};

use crate::member::put_verdicts;
use crate::refusal::{put_refusal, refusal_word};
use crate::text::{Text, name_of, put_numbers_or_dash, put_yes_or_no};
use tx_events::FullXid;
use tx_model::{ByteList, GivenIds, Memory, NameList, Reply, SharedSnap, Status, VerdictList};

/// An arrow behind a space.
#[tactic(auto, unfolding(crate::specs::Words::more))]
fn put_arrow(out: &mut Text) -> Result<(), Memory>
    ensures ok { OnOk result (out.new ≡ out.old ++ more (codes "->" ∷ [])) }
{
    out.put(b" ->")
}

/// An arrow and the first word of most replies, in one piece.
#[tactic(auto, unfolding(crate::specs::Words::more))]
fn put_ok(out: &mut Text) -> Result<(), Memory>
    ensures ok { OnOk result (out.new ≡ out.old ++ more (codes "->" ∷ codes "ok" ∷ [])) }
{
    out.put(b" -> ok")
}

#[tactic(auto, using(crate::proofs::MoreWords::no_more))]
fn put_warned(out: &mut Text, warn: bool) -> Result<(), Memory>
    ensures ok { OnOk result (out.new ≡ out.old ++ more (warned warn)) }
{
    if warn { out.word(b"warn") } else { Ok(()) }
}

#[tactic(auto, using(crate::proofs::MoreWords::then_more))]
fn put_wrote(out: &mut Text, ids: &GivenIds, warn: bool) -> Result<(), Memory>
    ensures ok { OnOk result (out.new ≡ out.old ++ more (codes "->" ∷ codes "ok" ∷ numbers_or_dash ids.now ++ warned warn)) }
{
    put_ok(out)?;
    put_numbers_or_dash(out, ids.items())?;
    put_warned(out, warn)
}

#[tactic(auto, using(crate::proofs::MoreWords::then_more))]
fn put_xip(out: &mut Text, ids: &[FullXid]) -> Result<(), Memory>
    ensures ok { OnOk result (out.new ≡ out.old ++ more (codes "xip" ∷ numbers_or_dash ids.now)) }
{
    out.word(b"xip")?;
    out.tops(ids)
}

#[tactic(auto, using(crate::proofs::MoreWords::then_more))]
fn put_subxip(out: &mut Text, ids: &[FullXid]) -> Result<(), Memory>
    ensures ok { OnOk result (out.new ≡ out.old ++ more (codes "sub" ∷ numbers_or_dash ids.now)) }
{
    out.word(b"sub")?;
    out.subs(ids)
}

#[tactic(auto, using(crate::proofs::MoreWords::then_more), unfolding(crate::specs::ReplyText::snapshot_words))]
fn put_snapshot(out: &mut Text, lists: &SharedSnap) -> Result<(), Memory>
    ensures ok { OnOk result (out.new ≡ out.old ++ more (snapshot_words lists.now)) }
{
    out.named(b"xmin", lists.xmin().number())?;
    out.named(b"xmax", lists.xmax().number())?;
    put_xip(out, lists.xip())?;
    put_subxip(out, lists.subxip())?;
    out.word(b"overflow")?;
    put_yes_or_no(out, lists.overflowed())
}

/// An arrow, and what a snapshot holds.
#[tactic(auto, using(crate::proofs::MoreWords::then_more))]
pub fn put_snapped(out: &mut Text, lists: &SharedSnap) -> Result<(), Memory>
    ensures ok { OnOk result (out.new ≡ out.old ++ more (codes "->" ∷ codes "ok" ∷ snapshot_words lists.now)) }
{
    put_ok(out)?;
    put_snapshot(out, lists)
}

#[tactic(auto, unfolding(crate::specs::ReplyText::status_word))]
fn status_word(status: Status) -> &'static [u8]
    ensures { result.now ≡ status_word status }
{
    match status {
        Status::InProgress => b"in-progress",
        Status::Committed => b"committed",
        Status::Aborted => b"aborted",
    }
}

#[tactic(auto, using(crate::proofs::MoreWords::then_more))]
fn put_multi(out: &mut Text, multi: u64, offset: u64, warn: bool) -> Result<(), Memory>
    ensures ok { OnOk result (out.new ≡ out.old ++ more (codes "->" ∷ codes "ok" ∷ decimal multi ∷ decimal offset ∷ warned warn)) }
{
    put_ok(out)?;
    out.number(multi)?;
    out.number(offset)?;
    put_warned(out, warn)
}

#[tactic(auto, using(crate::proofs::MoreWords::then_more))]
fn put_looked(out: &mut Text, verdicts: &VerdictList) -> Result<(), Memory>
    ensures ok { OnOk result (out.new ≡ out.old ++ more (codes "->" ∷ codes "ok" ∷ member_verdict_words verdicts.now)) }
{
    put_ok(out)?;
    put_verdicts(out, verdicts)
}

fn hex_digit(digit: u8) -> u8
    requires { digit < 16 }
    ensures { result ≡ hex_digit digit }
{
    if digit < 10 {
        b'0' + digit
    } else {
        b'a' - 10 + digit
    }
}

#[tactic(auto, unfolding(crate::specs::ReplyText::hex_word))]
fn put_byte(out: &mut Text, byte: u8) -> Result<(), Memory>
    ensures ok { OnOk result (out.new ≡ out.old ++ more (hex_word byte ∷ [])) }
{
    out.word(&[hex_digit(byte / 16), hex_digit(byte % 16)])
}

#[tactic(auto, using(crate::proofs::MoreWords::then_one_byte, crate::proofs::MoreWords::no_more))]
fn put_hex(out: &mut Text, bytes: &[u8]) -> Result<(), Memory>
    ensures ok { OnOk result (out.new ≡ out.old ++ more (map hex_word bytes.now)) }
{
    for &byte in bytes {
        put_byte(out, byte)?;
    }
    Ok(())
}

fn put_bytes(out: &mut Text, bytes: &ByteList) -> Result<(), Memory>
    ensures ok { OnOk result (out.new ≡ out.old ++ more (dump_bytes bytes.now)) }
{
    if bytes.items().is_empty() {
        return out.word(b"-");
    }
    put_hex(out, bytes.items())
}

#[tactic(auto, using(crate::proofs::MoreWords::then_more))]
fn put_two_words(out: &mut Text, first: &[u8], second: &[u8]) -> Result<(), Memory>
    ensures ok { OnOk result (out.new ≡ out.old ++ more (first.now ∷ second.now ∷ [])) }
{
    out.word(first)?;
    out.word(second)
}

/// An arrow and the words of a reply, each behind a space.
#[tactic(auto, using(crate::proofs::MoreWords::then_more))]
pub fn put_answer(out: &mut Text, names: &NameList, reply: &Reply) -> Result<(), Memory>
    ensures ok { OnOk result (out.new ≡ out.old ++ more (codes "->" ∷ reply_words names.now reply.now)) }
{
    match reply {
        Reply::Done => put_ok(out),
        Reply::Wrote { warn, ids } => put_wrote(out, ids, *warn),
        Reply::Snapped { lists } => put_snapped(out, lists),
        Reply::Seen { visible } => {
            put_arrow(out)?;
            out.word(if *visible {
                b"visible".as_slice()
            } else {
                b"hidden".as_slice()
            })
        }
        Reply::Known { status } => {
            put_arrow(out)?;
            out.word(status_word(*status))
        }
        Reply::Did { yes } => {
            put_arrow(out)?;
            put_yes_or_no(out, *yes)
        }
        Reply::Multi {
            multi,
            offset,
            warn,
        } => put_multi(out, multi.number(), *offset, *warn),
        Reply::Verdicts { verdicts } => put_looked(out, verdicts),
        Reply::Horizon { oldest_xmin } => {
            put_ok(out)?;
            out.number(oldest_xmin.number())
        }
        Reply::Bytes { bytes } => {
            put_arrow(out)?;
            put_bytes(out, bytes)
        }
        Reply::Cut { cutoff } => {
            put_arrow(out)?;
            out.named(b"cut", u64::from(*cutoff))
        }
        Reply::Pending { session, refusal } => {
            put_arrow(out)?;
            put_two_words(out, refusal_word(refusal), name_of(names, *session))
        }
        Reply::Refused { refusal } => {
            put_arrow(out)?;
            put_refusal(out, refusal)
        }
    }
}
