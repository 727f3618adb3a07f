//! The members of a multixact.
ghost use Rattle.std.specs.Prelude.{◌≡◌, [], ◌∷◌, ◌++◌, OnOk};
ghost use Rattle.report_text.specs.Words.{colon, more};
ghost use Rattle.report_text.specs.MemberText.{mode_word, verdict_word, id_word, pair_word, pair_words, member_words, member_verdict_word, member_verdict_words};

use crate::text::Text;
use tx_model::{
    Member, MemberList, MemberVerdict, Memory, Mode, Pair, PairList, Verdict, VerdictList,
};

/// A mode behind a colon, joined to the word before. Each word's length is known where it is copied, here as below.
#[tactic(auto, unfolding(crate::specs::MemberText::mode_word))]
fn put_mode(out: &mut Text, mode: Mode) -> Result<(), Memory>
    ensures ok { OnOk result (out.new ≡ out.old ++ colon ∷ mode_word mode) }
{
    match mode {
        Mode::KeySh => out.put(b":keysh"),
        Mode::Sh => out.put(b":sh"),
        Mode::ForNoKeyUpd => out.put(b":fornokeyupd"),
        Mode::ForUpd => out.put(b":forupd"),
        Mode::NoKeyUpd => out.put(b":nokeyupd"),
        Mode::Upd => out.put(b":upd"),
    }
}

/// A verdict's word behind a colon.
#[tactic(auto, unfolding(crate::specs::MemberText::verdict_word))]
fn put_verdict_word(out: &mut Text, verdict: Verdict) -> Result<(), Memory>
    ensures ok { OnOk result (out.new ≡ out.old ++ colon ∷ verdict_word verdict) }
{
    match verdict {
        Verdict::Visible => out.put(b":visible"),
        Verdict::Hidden => out.put(b":hidden"),
        Verdict::TooOld => out.put(b":too-old"),
    }
}

/// An id and a mode, a colon between them.
fn put_id(out: &mut Text, id: u64, mode: Mode) -> Result<(), Memory>
    ensures ok { OnOk result (out.new ≡ out.old ++ more (id_word id mode ∷ [])) }
{
    out.number(id)?;
    put_mode(out, mode)
}

fn put_verdict_id(out: &mut Text, verdict: &MemberVerdict) -> Result<(), Memory>
    ensures ok { OnOk result (out.new ≡ out.old ++ more (id_word verdict.now.id verdict.now.mode ∷ [])) }
{
    put_id(out, verdict.id.number(), verdict.mode)
}

fn put_verdict(out: &mut Text, verdict: &MemberVerdict) -> Result<(), Memory>
    ensures ok { OnOk result (out.new ≡ out.old ++ more (member_verdict_word verdict.now ∷ [])) }
{
    put_verdict_id(out, verdict)?;
    put_verdict_word(out, verdict.verdict)
}

#[tactic(auto, unfolding(crate::specs::MemberText::pair_word))]
fn put_pair(out: &mut Text, pair: &Pair) -> Result<(), Memory>
    ensures ok { OnOk result (out.new ≡ out.old ++ more (pair_word pair.now ∷ [])) }
{
    put_id(out, u64::from(pair.x.number), pair.mode)
}

#[tactic(auto, using(crate::proofs::MoreWords::then_one_pair, crate::proofs::MoreWords::no_more))]
pub fn put_pairs(out: &mut Text, pairs: &PairList) -> Result<(), Memory>
    ensures ok { OnOk result (out.new ≡ out.old ++ more (pair_words pairs.now)) }
{
    for pair in pairs.items() {
        put_pair(out, pair)?;
    }
    Ok(())
}

#[tactic(auto, using(crate::proofs::MoreWords::then_one_member, crate::proofs::MoreWords::no_more))]
pub fn put_members(out: &mut Text, members: &MemberList) -> Result<(), Memory>
    ensures ok { OnOk result (out.new ≡ out.old ++ more (member_words members.now)) }
{
    for member in members.items() {
        put_id(out, member.id.number(), member.mode)?;
    }
    Ok(())
}

#[tactic(auto, using(crate::proofs::MoreWords::then_one_verdict, crate::proofs::MoreWords::no_more))]
pub fn put_verdicts(out: &mut Text, verdicts: &VerdictList) -> Result<(), Memory>
    ensures ok { OnOk result (out.new ≡ out.old ++ more (member_verdict_words verdicts.now)) }
{
    for verdict in verdicts.items() {
        put_verdict(out, verdict)?;
    }
    Ok(())
}
