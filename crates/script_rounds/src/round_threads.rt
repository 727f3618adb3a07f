//! On how many threads the sessions of a round run, and what they did is printed.
ghost use Rattle.std.specs.Prelude.{◌≡◌, ◌↔◌, ℕ, ◌<◌, ◌≤◌, IsTrue, length, max, min};
ghost use Rattle.std.specs.List.{count_by};
ghost use Rattle.session_lang.specs.Rounds.{is_look};
ghost use Rattle.script_rounds.specs.Plans.{MostlyLooks};
ghost use Rattle.script_rounds.specs.declared.round_threads.RoundThreads.TheVariants as ways;

use crate::plan::Plan;
use session_lang::Items;

// A round of fewer commands isn't worth its threads: to start them costs as much as some hundred commands, and then they
// wait for one another at the same few locks.
const FEW_COMMANDS: usize = 4_096;

/// How many commands of a round ask of an id or a multixact.
#[tactic(auto, using(std::proofs::lemmas::List::Sums::count_by_more_yes, std::proofs::lemmas::List::Sums::count_by_more_no, std::proofs::lemmas::List::take_all))]
fn looks_in(round: &Items) -> usize
    ensures value { result ≡ count_by is_look round.now }
    ensures within { result ≤ length round.now }
{
    let mut looks = 0;
    for place in 0..round.len() {
        if round.is_look_at(place) {
            looks += 1;
        }
    }
    looks
}

/// Whether at least half of a round's commands ask of an id or a multixact. These gain by more threads: others spend
/// most of their time in sections of the same few locks.
fn are_mostly_looks(round: &Items) -> bool
    ensures { IsTrue result ↔ MostlyLooks round.now }
{
    let looks = looks_in(round);
    round.len() - looks <= looks
}

/// On how many threads the sessions of a round run, and what they did is printed.
#[derive(Clone, Copy)]
pub enum RoundThreads {
    /// On at most so many, none being one; on one where the round has fewer than 4,096 commands; and on at most two
    /// where more than half of them ask of no id and no multixact.
    AtMost(usize),
    /// On so many whatever the round is, but no more than it has sessions.
    Just(usize),
    /// On one for each session, as is needed where a gate holds a session until another one comes to it.
    OneEach,
}

impl RoundThreads {
    /// How many threads this round takes.
    pub fn count(self, plan: &Plan, round: &Items) -> usize
        ensures some { 0 < result }
        ensures many { (most : ℕ) → self ≡ ways.AtMost most → 2 ≤ length plan.now.sessions.items
            → 4096 ≤ length round.now → MostlyLooks round.now → result ≡ max 1 most }
        ensures few { (most : ℕ) → self ≡ ways.AtMost most → length round.now < 4096 → result ≡ 1 }
        ensures two { (most : ℕ) → self ≡ ways.AtMost most → 2 ≤ length plan.now.sessions.items
            → 4096 ≤ length round.now → (MostlyLooks round.now → ⊥) → result ≡ max 1 (min 2 most) }
        ensures just { (count : ℕ) → self ≡ ways.Just count → result ≡ max 1 (min count (length plan.now.sessions.items)) }
        ensures each { self ≡ ways.OneEach → 1 ≤ length plan.now.sessions.items
            → result ≡ length plan.now.sessions.items }
    {
        let sessions = plan.sessions.len();
        let count = match self {
            RoundThreads::OneEach => sessions,
            RoundThreads::Just(count) => count.min(sessions),
            RoundThreads::AtMost(_) if sessions <= 1 || round.len() < FEW_COMMANDS => 1,
            RoundThreads::AtMost(most) if most > 2 && !are_mostly_looks(round) => 2,
            RoundThreads::AtMost(most) => most,
        };
        count.max(1)
    }

    /// On how many threads a list of what was done is printed: on one where each session has its own.
    pub fn count_to_print(self) -> usize
        ensures some { 0 < result }
        ensures many { (most : ℕ) → self ≡ ways.AtMost most → result ≡ max 1 most }
        ensures just { (count : ℕ) → self ≡ ways.Just count → result ≡ max 1 count }
        ensures each { self ≡ ways.OneEach → result ≡ 1 }
    {
        match self {
            RoundThreads::AtMost(most) => most.max(1),
            RoundThreads::Just(count) => count.max(1),
            RoundThreads::OneEach => 1,
        }
    }
}
