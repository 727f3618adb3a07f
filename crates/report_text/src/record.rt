//! The lines of the log.
ghost use Rattle.std.specs.Prelude.{◌≡◌, ◌+◌, ◌<◌, ◌^◌, length, [], ◌∷◌, ◌++◌, OnOk, codes};
ghost use Rattle.std.specs.Fmt.{decimal};
ghost use Rattle.report_text.specs.Words.{more, line_text, numbers};
ghost use Rattle.report_text.specs.MemberText.{member_words};
ghost use Rattle.report_text.specs.RecordText.{counters_words, first_counters, last_counters, record_words, records_text};

use crate::member::put_members;
use crate::text::Text;
use tx_model::{Counters, IdList, MemberList, Memory, Rec};

#[tactic(auto, using(crate::proofs::MoreWords::then_more))]
fn put_first_counters(out: &mut Text, counters: &Counters) -> Result<(), Memory>
    ensures ok { OnOk result (out.new ≡ out.old ++ more (first_counters counters.now)) }
{
    out.named(b"next", counters.next.number())?;
    out.named(b"oldest", counters.oldest.number())?;
    out.named(b"multi", counters.multi.number())
}

fn put_oldest_multi(out: &mut Text, n: u64) -> Result<(), Memory>
    ensures ok { OnOk result (out.new ≡ out.old ++ more (codes "oldest-multi" ∷ decimal n ∷ [])) }
{
    out.named(b"oldest-multi", n)
}

fn put_oldest_offset(out: &mut Text, n: u64) -> Result<(), Memory>
    ensures ok { OnOk result (out.new ≡ out.old ++ more (codes "oldest-offset" ∷ decimal n ∷ [])) }
{
    out.named(b"oldest-offset", n)
}

#[tactic(auto, using(crate::proofs::MoreWords::then_more))]
fn put_last_counters(out: &mut Text, counters: &Counters) -> Result<(), Memory>
    ensures ok { OnOk result (out.new ≡ out.old ++ more (last_counters counters.now)) }
{
    out.named(b"offset", counters.offset)?;
    put_oldest_multi(out, counters.oldest_multi.number())?;
    put_oldest_offset(out, counters.oldest_offset)
}

/// The counters, each behind its word.
#[tactic(auto, using(crate::proofs::MoreWords::then_more), unfolding(crate::specs::RecordText::counters_words))]
pub fn put_counters(out: &mut Text, counters: &Counters) -> Result<(), Memory>
    ensures ok { OnOk result (out.new ≡ out.old ++ more (counters_words counters.now)) }
{
    put_first_counters(out, counters)?;
    put_last_counters(out, counters)
}

#[tactic(auto, using(crate::proofs::MoreWords::then_more))]
fn put_ended(out: &mut Text, word: &[u8], top: u64, subs: &IdList) -> Result<(), Memory>
    ensures ok { OnOk result (out.new ≡ out.old ++ more (word.now ∷ decimal top ∷ numbers subs.now)) }
{
    out.named(word, top)?;
    out.numbers(subs.items())
}

#[tactic(auto, using(crate::proofs::MoreWords::then_more))]
fn put_multi(out: &mut Text, multi: u64, offset: u64, members: &MemberList) -> Result<(), Memory>
    ensures ok { OnOk result (out.new ≡ out.old ++ more (codes "multi" ∷ decimal multi ∷ decimal offset ∷ member_words members.now)) }
{
    out.named(b"multi", multi)?;
    out.number(offset)?;
    put_members(out, members)
}

#[tactic(auto, using(crate::proofs::MoreWords::then_more))]
fn put_checkpoint(out: &mut Text, counters: &Counters) -> Result<(), Memory>
    ensures ok { OnOk result (out.new ≡ out.old ++ more (codes "checkpoint" ∷ counters_words counters.now)) }
{
    out.word(b"checkpoint")?;
    put_counters(out, counters)
}

#[tactic(auto, using(crate::proofs::MoreWords::then_more))]
fn put_truncate(out: &mut Text, oldest: u64, multi: u64, offset: u64) -> Result<(), Memory>
    ensures ok { OnOk result (out.new ≡ out.old ++ more (codes "truncate" ∷ decimal oldest ∷ decimal multi ∷ decimal offset ∷ [])) }
{
    out.named(b"truncate", oldest)?;
    out.number(multi)?;
    out.number(offset)
}

fn put_record(out: &mut Text, rec: &Rec) -> Result<(), Memory>
    ensures ok { OnOk result (out.new ≡ out.old ++ more (record_words rec.now)) }
{
    match rec {
        Rec::Commit { top, subs } => put_ended(out, b"commit", top.number(), subs),
        Rec::Abort { top, subs } => put_ended(out, b"abort", top.number(), subs),
        Rec::Multi {
            multi,
            offset,
            members,
        } => put_multi(out, multi.number(), *offset, members),
        Rec::Checkpoint { counters, .. } => put_checkpoint(out, counters.get()),
        Rec::Truncate {
            oldest,
            multi,
            offset,
        } => { put_truncate(out, oldest.number(), multi.number(), *offset) }
    }
}

/// The line of a record, behind its number.
#[tactic(auto, using(crate::proofs::MoreWords::then_line))]
pub fn put_record_line(out: &mut Text, number: u128, rec: &Rec) -> Result<(), Memory>
    ensures ok { OnOk result (out.new ≡ out.old ++ line_text (decimal number ∷ record_words rec.now)) }
{
    out.digits(number)?;
    put_record(out, rec)?;
    out.end_line()
}

/// A line for each record, numbered from `from` on.
pub fn put_records(out: &mut Text, from: u64, recs: &[Rec]) -> Result<(), Memory>
    ensures ok { OnOk result (out.new ≡ out.old ++ records_text from recs.now) }
{
    let mut number = u128::from(from);
    for rec in recs {
        put_record_line(out, number, rec)?;
        number += 1;
    }
    Ok(())
}
