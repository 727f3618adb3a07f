//! What the last commit and the last abort of each session were answered.
ghost use Rattle.std.specs.Prelude.{◌≡◌, ◌++◌, ◌∷◌, [], List, IfOk, length};
ghost use Rattle.std.specs.List.{flat_map};
ghost use Rattle.tx_model.specs.declared.report.Line.{Line};
ghost use Rattle.tx_model.specs.Rounds.{lines_in};
ghost use Rattle.record_rules.specs.Answered.{AreAnswers, abort_after, commit_after, is_disk_fault, is_not_done};

use std::alloc::Global;
use tx_events::{Memory, Refusal};
use tx_model::{KeptLine, Reply, Step};

/// Whether the log may have a record of the transaction that a session has open: its last commit wasn't answered `ok`, or
/// its last abort met a fault.
#[derive(Clone, Copy, Debug, PartialEq, Eq)]
pub struct Answers {
    pub commit: bool,
    pub abort: bool,
}

fn is_not_done(reply: &Reply) -> bool
    ensures { result ≡ is_not_done reply.now }
{
    match reply {
        Reply::Done => false,
        _ => true,
    }
}

fn is_disk_fault(reply: &Reply) -> bool
    ensures { result ≡ is_disk_fault reply.now }
{
    match reply {
        Reply::Refused { refusal } => match refusal {
            Refusal::DiskFault { .. } => true,
            _ => false,
        },
        _ => false,
    }
}

fn commit_after(old: bool, line: &KeptLine) -> bool
    ensures { result ≡ commit_after old line.now.command line.now.reply }
{
    if !line.is_commit() {
        return old;
    }
    let reply = line.reply();
    is_not_done(reply.reply())
}

fn abort_after(old: bool, line: &KeptLine) -> bool
    ensures { result ≡ abort_after old line.now.command line.now.reply }
{
    if !line.is_abort() {
        return old;
    }
    let reply = line.reply();
    is_disk_fault(reply.reply())
}

/// Notes one line more. No session from 64 on is asked for.
fn note_line(answers: &mut [Answers], line: &KeptLine)
    requires { length answers.old ≡ 64 }
    ensures size { length answers.new ≡ 64 }
    ensures noted { (lines : List Line) → AreAnswers lines answers.old → AreAnswers (lines ++ line.now ∷ []) answers.new }
{
    let session = line.by().session as usize;
    if session < 64 {
        let old = answers[session];
        answers[session] = Answers {
            commit: commit_after(old.commit, line),
            abort: abort_after(old.abort, line),
        };
    }
}

/// Notes the lines of a round.
fn note_lines(answers: &mut [Answers], lines: &[KeptLine])
    requires { length answers.old ≡ 64 }
    ensures noted { (before : List Line) → AreAnswers before answers.old → AreAnswers (before ++ lines.now) answers.new }
    ensures size { length answers.new ≡ 64 }
{
    for line in lines {
        note_line(answers, line);
    }
}

/// Notes the lines of a step.
#[tactic(auto, using(crate::proofs::Answering::none_more))]
fn note_step(answers: &mut [Answers], step: &Step)
    requires { length answers.old ≡ 64 }
    ensures noted { (before : List Line) → AreAnswers before answers.old → AreAnswers (before ++ lines_in step.now) answers.new }
    ensures size { length answers.new ≡ 64 }
{
    match step {
        Step::Round { lines, .. } => note_lines(answers, lines.items()),
        Step::Checkpoint { .. } => (),
        Step::Dump { .. } => (),
    }
}

/// No session has a line.
#[tactic(auto, using(crate::proofs::Answering::none_noted))]
fn no_answers(alloc: Global) -> Result<Vec<Answers>, Memory>
    ensures { IfOk result (λ answers. AreAnswers [] answers.items) }
{
    let mut answers = Vec::with_capacity(alloc, 64)?;
    for _n in 0..64_u32 {
        answers.push(Answers {
            commit: false,
            abort: false,
        })?;
    }
    Ok(answers)
}

/// What the last commit and the last abort of each of 64 sessions were answered in these steps.
pub fn answers_of(alloc: Global, steps: &[Step]) -> Result<Vec<Answers>, Memory>
    ensures { IfOk result (λ answers. AreAnswers (flat_map lines_in steps.now) answers.items) }
{
    let mut answers = no_answers(alloc)?;
    for step in steps {
        note_step(answers.as_mut_slice(), step);
    }
    Ok(answers)
}
