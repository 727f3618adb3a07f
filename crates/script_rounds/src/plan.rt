//! Which commands of a round are whose.
ghost use Rattle.std.specs.Prelude.{◌≡◌, ◌==◌, ℕ, ◌<◌, List, [], ◌∷◌, ◌++◌, cond, IfOk, OnOk, set, get_or, length};
ghost use Rattle.std.specs.List.{All};
ghost use Rattle.script_rounds.specs.Plans.{IsBlank, IsListed, IsPlanOf};
ghost use Rattle.run_law.specs.Turns.{MayRun};

use crate::places::Places;
use session_lang::Items;
use std::alloc::Global;
use std::mem;
use tx_model::Memory;

// In a shorter round the room that doubles isn't much.
const LONG: usize = 65_536;

/// Whose the commands of a round are, so that no session has to look through those of the others.
#[derive(Drop)]
pub struct Plan {
    /// The sessions that have commands, in the order in which they first appear.
    pub sessions: Vec<u32>,
    /// The places of each session's commands, by the session's number.
    pub places: Vec<Places>,
}

/// No places, for so many sessions.
fn no_places(alloc: Global, sessions: usize) -> Result<Vec<Places>, Memory>
    ensures count { IfOk result (λ all. length all.items ≡ sessions) }
    ensures none { IfOk result (λ all. All (λ (places : List ℕ). places ≡ []) all.items) }
{
    let mut all = Vec::with_capacity(alloc, sessions)?;
    for _ in 0..sessions {
        all.push(Places::new(alloc))?;
    }
    Ok(all)
}

/// How many commands of the round each of so many sessions has.
fn counts_in(alloc: Global, sessions: usize, round: &Items) -> Result<Vec<usize>, Memory>
    ensures { IfOk result (λ counts. length counts.items ≡ sessions) }
{
    let mut counts = Vec::with_capacity(alloc, sessions)?;
    for _ in 0..sessions {
        counts.push(0_usize)?;
    }
    for place in 0..round.len() {
        if let Some(session) = round.session_at(place) {
            if let Some(count) = counts.get_mut(session as usize) {
                *count = count.saturating_add(1);
            }
        }
    }
    Ok(counts)
}

/// Makes room for the places of a long round, as much as they take. Without memory there is none.
fn make_rooms(alloc: Global, places: &mut Vec<Places>, round: &Items)
    ensures { places.new.items ≡ places.old.items }
{
    if round.len() < LONG || round.len() < places.len() {
        return;
    }
    let Ok(counts) = counts_in(alloc, places.len(), round) else {
        return;
    };
    for session in 0..places.len() {
        places[session].make_room(counts[session]);
    }
}

impl Plan {
    /// The session's next command stands at this place.
    fn add(&mut self, session: u32, place: usize) -> Result<(), Memory>
        requires known { session < length self.old.places.items }
        ensures places { OnOk result (self.new.places.items
            ≡ set self.old.places.items session (get_or self.old.places.items session [] ++ place ∷ [])) }
        ensures sessions { OnOk result (self.new.sessions.items
            ≡ cond (length (get_or self.old.places.items session []) == 0)
            (self.old.sessions.items ++ session ∷ []) self.old.sessions.items) }
    {
        let places = &mut self.places[session as usize];
        if places.is_empty() {
            self.sessions.push(session)?;
        }
        places.push(place)
    }

    /// A plan of no commands, for so many sessions.
    pub fn new(alloc: Global, sessions: usize) -> Result<Plan, Memory>
        ensures blank { IfOk result (λ plan. IsBlank plan) }
        ensures count { IfOk result (λ plan. length plan.places.items ≡ sessions) }
    {
        Ok(Plan {
            sessions: Vec::new(alloc),
            places: no_places(alloc, sessions)?,
        })
    }

    /// Notes whose the commands of the round are.
    pub fn fill(&mut self, round: &Items) -> Result<(), Memory>
        requires blank { IsBlank self.old }
        requires items { All (MayRun (length self.old.places.items)) round.now }
        ensures plan { OnOk result (IsPlanOf round.now round.now self.new) }
        ensures count { OnOk result (length self.new.places.items ≡ length self.old.places.items) }
    {
        make_rooms(*self.sessions.allocator(), &mut self.places, round);
        for place in 0..round.len() {
            if let Some(session) = round.session_at(place) {
                self.add(session, place)?;
            }
        }
        Ok(())
    }

    /// Forgets the round. Takes time for the sessions that have commands in it alone, and keeps the room of their places.
    pub fn clear(&mut self)
        requires { IsListed self.old }
        ensures blank { IsBlank self.new }
        ensures count { length self.new.places.items ≡ length self.old.places.items }
    {
        while let Some(session) = self.sessions.pop() {
            self.places[session as usize].clear();
        }
    }
}

/// A plan of no commands that a life left, for the next one: most have as many sessions.
#[derive(Drop)]
pub struct SparePlan {
    plan: Plan,
    ghost blank: { IsBlank plan },
}

impl SparePlan {
    /// A plan for no session. Takes no memory.
    pub fn none(alloc: Global) -> SparePlan {
        let plan = Plan {
            sessions: Vec::new(alloc),
            places: Vec::new(alloc),
        };
        SparePlan { plan }
    }

    /// Takes the plan out, if it is for so many sessions; else a new one is made.
    pub fn take(&mut self, alloc: Global, sessions: usize) -> Result<Plan, Memory>
        ensures blank { IfOk result (λ plan. IsBlank plan) }
        ensures count { IfOk result (λ plan. length plan.places.items ≡ sessions) }
    {
        let SparePlan { plan } = mem::replace(self, SparePlan::none(alloc));
        if plan.places.len() == sessions {
            return Ok(plan);
        }
        Plan::new(alloc, sessions)
    }

    /// Keeps a plan for the next life.
    pub fn keep(&mut self, plan: Plan)
        requires { IsBlank plan }
    {
        *self = SparePlan { plan };
    }
}
