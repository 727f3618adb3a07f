//! The places of a session's commands in a round.
ghost use Rattle.std.specs.Prelude.{◌≡◌, ◌==◌, ◌+◌, ◌<◌, [], ◌∷◌, ◌++◌, IfNone, IfSome, OnErr, OnOk, length};
ghost use Rattle.script_rounds.specs.Stepped.{step_from};

use std::alloc::Global;
use std::marker::Model;
use tx_model::Memory;

/// Places in their order: a byte for each that lies up to 255 behind the one before it, five for another. A contract sees
/// the list of them.
#[derive(Drop)]
pub struct Places {
    /// How far each lies behind the one before it; 0 where it stands in `far`.
    steps: Vec<u8>,
    far: Vec<u32>,
    last: u32,
}

impl Model for Places {
    ghost use Rattle.std.specs.Prelude.{ℕ, List};
    ghost use Rattle.script_rounds.specs.Stepped.{EndAt, places_from};

    ghost Value = { List ℕ };

    ghost view = { λ p. places_from 0 p.steps.items p.far.items };

    ghost invariant = { λ p. EndAt p.last 0 p.steps.items p.far.items };
}

/// Places that are taken one after another. A contract sees those that are left.
#[derive(Drop)]
pub struct PlacesLeft<'a> {
    steps: &'a [u8],
    far: &'a [u32],
    last: u32,
}

impl<'a> Model for PlacesLeft<'a> {
    ghost use Rattle.std.specs.Prelude.{ℕ, List};
    ghost use Rattle.script_rounds.specs.Stepped.{places_from};

    ghost Value = { List ℕ };

    ghost view = { λ p. places_from p.last p.steps.now p.far.now };
}

/// The place to which a step leads, and the far ones behind it.
#[inline(always)]
fn step_from(last: u32, step: u8, far: &[u32]) -> (u32, &[u32])
    ensures place { result.0 ≡ (step_from last step far.now).0 }
    ensures far { result.1.now ≡ (step_from last step far.now).1 }
{
    if step != 0 {
        return (last.saturating_add(u32::from(step)), far);
    }
    match far.split_first() {
        Some((place, rest)) => (*place, rest),
        None => (0, far),
    }
}

/// The step from one place to another; 0 where that doesn't lie behind it, or too far for a byte.
fn step_to(last: u32, place: u32) -> u8
    ensures { 0 < result → last + result ≡ place }
{
    let step = place.saturating_sub(last);
    if step < 256 { step as u8 } else { 0 }
}

/// Adds a place that stands in full, and its step. Without memory neither is added.
fn push_far(steps: &mut Vec<u8>, far: &mut Vec<u32>, place: u32) -> Result<(), Memory>
    ensures steps { OnOk result (steps.new.items ≡ steps.old.items ++ 0 ∷ []) }
    ensures far { OnOk result (far.new.items ≡ far.old.items ++ place ∷ []) }
    ensures none { OnErr result ((steps.new.items ≡ steps.old.items) × (far.new.items ≡ far.old.items)) }
{
    steps.reserve(1)?;
    far.push(place)?;
    steps.push_reserved(0);
    Ok(())
}

impl Places {
    /// No places. Takes no memory.
    pub fn new(alloc: Global) -> Places
        ensures { result ≡ [] }
    {
        Places {
            steps: Vec::new(alloc),
            far: Vec::new(alloc),
            last: 0,
        }
    }

    /// Whether there are none.
    pub fn is_empty(&self) -> bool
        ensures { result ≡ (length self.now == 0) }
    {
        self.steps.is_empty()
    }

    /// The places, from the first one on.
    pub fn left(&self) -> PlacesLeft<'_>
        ensures { result ≡ self.now }
    {
        PlacesLeft {
            steps: self.steps.as_slice(),
            far: self.far.as_slice(),
            last: 0,
        }
    }

    /// Makes room for so many in all. Without memory there is none.
    pub fn make_room(&mut self, count: usize)
        ensures { self.new ≡ self.old }
    {
        let more = count.saturating_sub(self.steps.len());
        let _ = self.steps.reserve_exact(more);
    }

    /// Adds a place at the end. Without memory, or where it takes more than four bytes, it isn't added: no script that is
    /// read has such a place.
    pub fn push(&mut self, place: usize) -> Result<(), Memory>
        ensures { OnOk result (self.new ≡ self.old ++ place ∷ []) }
    {
        let Ok(place) = u32::try_from(place) else {
            return Err(Memory);
        };
        let step = step_to(self.last, place);
        if step == 0 {
            push_far(&mut self.steps, &mut self.far, place)?;
        } else {
            self.steps.push(step)?;
        }
        self.last = place;
        Ok(())
    }

    /// Takes all off. Their room stays.
    pub fn clear(&mut self)
        ensures { self.new ≡ [] }
    {
        self.steps.clear();
        self.far.clear();
        self.last = 0;
    }
}

impl<'a> PlacesLeft<'a> {
    /// Takes the next one, if one is left.
    #[inline(always)]
    pub fn next(&mut self) -> Option<u32>
        ensures some { IfSome result (λ place. self.old ≡ place ∷ self.new) }
        ensures none { IfNone result (self.old ≡ []) }
    {
        let (step, steps) = self.steps.split_first()?;
        let (place, far) = step_from(self.last, *step, self.far);
        self.steps = steps;
        self.far = far;
        self.last = place;
        Some(place)
    }
}
