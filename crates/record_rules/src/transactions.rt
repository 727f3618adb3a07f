//! The transactions of a history: those that ended, and those that are open at its end.
ghost use Rattle.std.specs.Prelude.{◌≡◌, ◌↔◌, ◌⊎◌, ◌<◌, ◌∷◌, ℕ, List, IfOk, IsTrue, false, true, length};
ghost use Rattle.std.specs.List.{All, AllByRecursion, flat_map};
ghost use Rattle.tx_events.specs.declared.event.Event.{Event};
ghost use Rattle.tx_events.specs.declared.record.Counters.{Counters};
ghost use Rattle.tx_events.specs.declared.record.Rec.TheVariants as records;
ghost use Rattle.tx_events.specs.Base.{IsBase};
ghost use Rattle.tx_events.specs.Events.{by_of};
ghost use Rattle.tx_events.specs.Families.{is_top};
ghost use Rattle.tx_events.specs.History.{IsLegal};
ghost use Rattle.tx_events.specs.Running.{open_ids};
ghost use Rattle.tx_model.specs.declared.report.Line.{Line};
ghost use Rattle.tx_model.specs.Rounds.{lines_in};
ghost use Rattle.report_law.specs.Records.{IsEndedAs, IsOpenOf, IsTrueRecord};
ghost use Rattle.report_law.specs.Steps.{Judged, lines_of};
ghost use Rattle.record_rules.specs.Answered.{AreAnswers, IsAnswered, may_have};
ghost use Rattle.record_rules.specs.Ends.{AreEnds, AreOpenXacts, AreTransactions, IsOpenXact, is_same};

use crate::answers::{Answers, answers_of};
use crate::ends::{Ends, none_ended, note_end, part_of};
use history_check::HistoryReplay;
use std::alloc::Global;
use tx_events::{Counters, Event, FullXid, Memory, XactEnd};
use tx_model::Step;

/// What a session has open at the end: its ids, whether the first one is a top-level id, and what its last commit and
/// abort were answered.
#[derive(Drop)]
pub struct OpenXact {
    pub ids: Vec<FullXid>,
    pub root: bool,
    pub answers: Answers,
}

/// The transactions of a history.
#[derive(Drop)]
pub struct Transactions {
    pub ends: Ends,
    pub opened: Vec<OpenXact>,
}

fn same_ids(a: &[FullXid], b: &[FullXid]) -> bool
    ensures { IsTrue result ↔ (a.now ≡ b.now) }
{
    if a.len() != b.len() {
        return false;
    }
    for (place, id) in a.iter().enumerate() {
        if *id != b[place] {
            return false;
        }
    }
    true
}

/// Whether the ids are this one and those.
fn is_whole(ids: &[FullXid], top: FullXid, subs: &[FullXid]) -> bool
    ensures { IsTrue result ↔ (ids.now ≡ top ∷ subs.now) }
{
    match ids.split_first() {
        Some((first, rest)) => *first == top && same_ids(rest, subs),
        None => false,
    }
}

fn is_same_end(a: XactEnd, b: XactEnd) -> bool
    ensures { IsTrue result ↔ (a ≡ b) }
{
    match a {
        XactEnd::Commit => match b {
            XactEnd::Commit => true,
            XactEnd::Abort => false,
        },
        XactEnd::Abort => match b {
            XactEnd::Commit => false,
            XactEnd::Abort => true,
        },
    }
}

/// Whether the transaction of this top ended so, with these subids.
fn is_ended_as(ends: &Ends, how: XactEnd, top: FullXid, subs: &[FullXid]) -> bool
    ensures { (base : Counters) (h : List Event) → IsLegal base h → AreEnds h ends.now → IsTrue result ↔ IsEndedAs h how top subs.now }
{
    match ends.by_top.get(top.number()) {
        Some(ended) => {
            let ids = part_of(ends.ids.as_slice(), ended.from, ended.end);
            is_same_end(ended.how, how) && is_whole(ids, top, subs)
        }
        None => false,
    }
}

/// Whether the first of these ids is this one.
fn begins_with(ids: &[FullXid], top: Option<FullXid>) -> bool
    ensures { (x : ℕ) (rest : List ℕ) → ids.now ≡ x ∷ rest → result ≡ is_same top x }
{
    match ids.first() {
        Some(first) => match top {
            Some(top) => top == *first,
            None => false,
        },
        None => false,
    }
}

fn open_xact(
    alloc: Global,
    replay: &HistoryReplay,
    session: u32,
    answers: Answers,
) -> Result<OpenXact, Memory>
    requires { session < replay.now.sessions }
    ensures { IfOk result (λ x. (lines : List Line) → IsAnswered lines session answers → IsOpenXact replay.now.events lines session x) }
{
    let _legal = replay.events();
    let mut ids = Vec::new(alloc);
    replay.push_open(session, &mut ids)?;
    let root = begins_with(&ids, replay.open_top(session));
    Ok(OpenXact { ids, root, answers })
}

/// What each session has open.
fn open_xacts(
    alloc: Global,
    replay: &HistoryReplay,
    answers: &[Answers],
) -> Result<Vec<OpenXact>, Memory>
    requires sessions { replay.now.sessions ≡ 64 }
    requires answers { length answers.now ≡ 64 }
    ensures { IfOk result (λ xacts. (lines : List Line) → AreAnswers lines answers.now → AreOpenXacts replay.now.events lines xacts.items) }
{
    let mut xacts = Vec::with_capacity(alloc, 64)?;
    for session in 0..64_u32 {
        let xact = open_xact(alloc, replay, session, answers[session as usize])?;
        xacts.push(xact)?;
    }
    Ok(xacts)
}

/// Whether the log may have a record of what this session has open, by the answers to its last commit or abort.
fn may_have(answers: Answers, how: XactEnd) -> bool
    ensures { (lines : List Line) (s : ℕ) → IsAnswered lines s answers → result ≡ may_have how lines s }
{
    match how {
        XactEnd::Commit => answers.commit,
        XactEnd::Abort => answers.abort,
    }
}

fn is_open_as(xact: &OpenXact, how: XactEnd, top: FullXid, subs: &[FullXid]) -> bool
    ensures { (h : List Event) (lines : List Line) (s : ℕ) → IsOpenXact h lines s xact.now → IsTrue result ↔ (IsOpenOf h s top subs.now × IsTrue (may_have how lines s)) }
{
    xact.root && may_have(xact.answers, how) && is_whole(xact.ids.as_slice(), top, subs)
}

fn has_open(xacts: &[OpenXact], how: XactEnd, top: FullXid, subs: &[FullXid]) -> bool
    ensures yes { IsTrue result → (h : List Event) (lines : List Line) → AreOpenXacts h lines xacts.now → (s : ℕ) × IsOpenOf h s top subs.now × IsTrue (may_have how lines s) }
    ensures no { result ≡ false → (h : List Event) (lines : List Line) → AreOpenXacts h lines xacts.now → (s : ℕ) → s < 64 → IsOpenOf h s top subs.now → IsTrue (may_have how lines s) → false ≡ true }
{
    for xact in xacts {
        if is_open_as(xact, how, top, subs) {
            return true;
        }
    }
    false
}

/// Whether the transaction of this top ended so with these subids, or it is open at the end and its session's last answer
/// lets the log have its record. Looks at 64 sessions where it didn't.
fn is_end_recorded(xacts: &Transactions, how: XactEnd, top: FullXid, subs: &[FullXid]) -> bool
    ensures { (base : Counters) (h : List Event) (lines : List Line) → IsLegal base h → AllByRecursion (λ e. (by_of e).session < 64) h → AreTransactions h lines xacts.now → IsTrue result ↔ (IsEndedAs h how top subs.now ⊎ ((s : ℕ) × IsOpenOf h s top subs.now × IsTrue (may_have how lines s))) }
{
    if is_ended_as(&xacts.ends, how, top, subs) {
        return true;
    }
    has_open(xacts.opened.as_slice(), how, top, subs)
}

/// Whether a commit's record says what is so of a life whose history is legal, and whose transactions these are.
pub fn is_commit_recorded(xacts: &Transactions, top: FullXid, subs: &[FullXid]) -> bool
    ensures { (j : Judged) → IsLegal j.begun.counters j.life.events → AllByRecursion (λ e. (by_of e).session < 64) j.life.events → AreTransactions j.life.events (lines_of j) xacts.now → IsTrue result ↔ IsTrueRecord j (records.Commit top subs.now) }
{
    is_end_recorded(xacts, XactEnd::Commit, top, subs)
}

/// The same of an abort's record.
pub fn is_abort_recorded(xacts: &Transactions, top: FullXid, subs: &[FullXid]) -> bool
    ensures { (j : Judged) → IsLegal j.begun.counters j.life.events → AllByRecursion (λ e. (by_of e).session < 64) j.life.events → AreTransactions j.life.events (lines_of j) xacts.now → IsTrue result ↔ IsTrueRecord j (records.Abort top subs.now) }
{
    is_end_recorded(xacts, XactEnd::Abort, top, subs)
}

/// The transactions of a whole history, which is legal, and of a life's steps.
pub fn transactions_of(
    alloc: Global,
    base: &Counters,
    events: &[Event],
    steps: &[Step],
) -> Result<Transactions, Memory>
    requires base { IsBase base.now }
    requires legal { IsLegal base.now events.now }
    requires each { All (λ e. (by_of e).session < 64) events.now }
    ensures { IfOk result (λ t. AreTransactions events.now (flat_map lines_in steps.now) t) }
{
    let mut replay = HistoryReplay::new(alloc, base.same(), 64)?;
    let mut ends = none_ended(alloc, base.next, events.len())?;
    for event in events {
        note_end(&mut ends, &replay, event)?;
        let _added = replay.add(event)?;
    }
    let answers = answers_of(alloc, steps)?;
    let opened = open_xacts(alloc, &replay, answers.as_slice())?;
    Ok(Transactions { ends, opened })
}
