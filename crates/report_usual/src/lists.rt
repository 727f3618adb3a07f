//! Lists at the front of a line's rest. Each is put into a list that was empty, and what is returned begins behind it.
ghost use Rattle.std.specs.Prelude.{◌≡◌, [], ◌∷◌, ◌++◌, IfOk, IfSome};
ghost use Rattle.std.specs.Fmt.{decimal};
ghost use Rattle.report_text.specs.MemberText.{id_word, member_verdict_word, member_word, mode_word, pair_word, verdict_word};
ghost use Rattle.report_words.specs.Fits.{FitsId, FitsMember, FitsPair, FitsVerdict};
ghost use Rattle.report_usual.specs.Usual.{AreInFront, AreListed};

use crate::spelled::{behind_byte, behind_piece, id_of, next_number};
use tx_events::Xid;
use tx_model::{
    IdList, Member, MemberVerdict, Memory, Mode, Pair, PairList, Sequence, Verdict, VerdictList,
};

/// The ids, each behind a space.
pub fn ids_behind<'a>(ids: &mut IdList, bytes: &'a [u8]) -> Result<&'a [u8], Memory>
    requires { ids.old ≡ [] }
    ensures { IfOk result (λ rest. AreInFront decimal FitsId bytes.now ids.new rest.now) }
{
    let mut rest = bytes;
    while let Some((number, behind)) = next_number(rest) {
        let Some(id) = id_of(number) else {
            return Ok(rest);
        };
        ids.push(id)?;
        rest = behind;
    }
    Ok(rest)
}

/// At least one id, or a dash for none.
pub fn list_behind<'a>(ids: &mut IdList, bytes: &'a [u8]) -> Result<Option<&'a [u8]>, Memory>
    requires { ids.old ≡ [] }
    ensures { IfOk result (λ found. IfSome found (λ rest. AreListed bytes.now ids.new rest.now)) }
{
    if let Some(rest) = behind_piece(bytes, b" -") {
        return Ok(Some(rest));
    }
    let rest = ids_behind(ids, bytes)?;
    if ids.items().is_empty() {
        return Ok(None);
    }
    Ok(Some(rest))
}

/// This mode, where its word stands at the front.
#[inline(always)]
fn mode_behind<'a>(bytes: &'a [u8], word: &[u8], mode: Mode) -> Option<(Mode, &'a [u8])>
    requires { word.now ≡ mode_word mode }
    ensures { IfSome result (λ x. bytes.now ≡ mode_word x.0 ++ x.1.now) }
{
    let rest = behind_piece(bytes, word)?;
    Some((mode, rest))
}

#[tactic(auto, unfolding(report_text::specs::MemberText::mode_word))]
fn spelled_mode(bytes: &[u8]) -> Option<(Mode, &[u8])>
    ensures { IfSome result (λ x. bytes.now ≡ mode_word x.0 ++ x.1.now) }
{
    match bytes {
        [b'k', ..] => mode_behind(bytes, b"keysh", Mode::KeySh),
        [b's', ..] => mode_behind(bytes, b"sh", Mode::Sh),
        [b'u', ..] => mode_behind(bytes, b"upd", Mode::Upd),
        [b'n', ..] => mode_behind(bytes, b"nokeyupd", Mode::NoKeyUpd),
        [b'f', b'o', b'r', b'u', ..] => mode_behind(bytes, b"forupd", Mode::ForUpd),
        [b'f', ..] => mode_behind(bytes, b"fornokeyupd", Mode::ForNoKeyUpd),
        _ => None,
    }
}

/// An id with a mode, behind a space.
fn moded(bytes: &[u8]) -> Option<(u64, Mode, &[u8])>
    ensures { IfSome result (λ x. bytes.now ≡ 32 ∷ (id_word x.0 x.1 ++ x.2.now)) }
{
    let (number, rest) = next_number(bytes)?;
    let rest = behind_byte(rest, b':')?;
    let (mode, rest) = spelled_mode(rest)?;
    Some((number, mode, rest))
}

/// Members as a script writes them.
pub fn pairs_behind<'a>(members: &mut PairList, bytes: &'a [u8]) -> Result<&'a [u8], Memory>
    requires { members.old ≡ [] }
    ensures { IfOk result (λ rest. AreInFront pair_word FitsPair bytes.now members.new rest.now) }
{
    let mut rest = bytes;
    while let Some((number, mode, behind)) = moded(rest) {
        if number >= 1 << 32 {
            return Ok(rest);
        }
        let x = Xid {
            number: number as u32,
        };
        members.push(Pair { x, mode })?;
        rest = behind;
    }
    Ok(rest)
}

/// Members with their ids in full.
pub fn members_behind<'a>(
    members: &mut Sequence<Member>,
    bytes: &'a [u8],
) -> Result<&'a [u8], Memory>
    requires { members.old ≡ [] }
    ensures { IfOk result (λ rest. AreInFront member_word FitsMember bytes.now members.new rest.now) }
{
    let mut rest = bytes;
    while let Some((number, mode, behind)) = moded(rest) {
        let Some(id) = id_of(number) else {
            return Ok(rest);
        };
        members.push(Member { id, mode })?;
        rest = behind;
    }
    Ok(rest)
}

/// This verdict, where its word stands at the front, behind a colon.
#[inline(always)]
fn verdict_behind<'a>(bytes: &'a [u8], word: &[u8], verdict: Verdict) -> Option<(Verdict, &'a [u8])>
    requires { word.now ≡ 58 ∷ verdict_word verdict }
    ensures { IfSome result (λ x. bytes.now ≡ 58 ∷ (verdict_word x.0 ++ x.1.now)) }
{
    let rest = behind_piece(bytes, word)?;
    Some((verdict, rest))
}

#[tactic(auto, unfolding(report_text::specs::MemberText::verdict_word))]
fn spelled_verdict(bytes: &[u8]) -> Option<(Verdict, &[u8])>
    ensures { IfSome result (λ x. bytes.now ≡ 58 ∷ (verdict_word x.0 ++ x.1.now)) }
{
    match bytes {
        [_, b'v', ..] => verdict_behind(bytes, b":visible", Verdict::Visible),
        [_, b'h', ..] => verdict_behind(bytes, b":hidden", Verdict::Hidden),
        [_, b't', ..] => verdict_behind(bytes, b":too-old", Verdict::TooOld),
        _ => None,
    }
}

/// Members with a verdict each.
pub fn verdicts_behind<'a>(verdicts: &mut VerdictList, bytes: &'a [u8]) -> Result<&'a [u8], Memory>
    requires { verdicts.old ≡ [] }
    ensures { IfOk result (λ rest. AreInFront member_verdict_word FitsVerdict bytes.now verdicts.new rest.now) }
{
    let mut rest = bytes;
    while let Some((number, mode, colon)) = moded(rest) {
        let Some((verdict, behind)) = spelled_verdict(colon) else {
            return Ok(rest);
        };
        let Some(id) = id_of(number) else {
            return Ok(rest);
        };
        verdicts.push(MemberVerdict { id, mode, verdict })?;
        rest = behind;
    }
    Ok(rest)
}
