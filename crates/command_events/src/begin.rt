//! With what a command's own multixact events begin, and where an event stands among those that are told.
ghost use Rattle.std.specs.Prelude.{◌≡◌, ◌↔◌, ℕ, IsTrue, ◌∷◌, [], Some, slice_get};
ghost use Rattle.tx_events.specs.declared.multi.Member.{Member};
ghost use Rattle.tx_events.specs.declared.multi.MultiEvent.TheVariants as multis;
ghost use Rattle.std.specs.Prelude.{List};
ghost use Rattle.command_events.specs.Shapes.{begins_between, begins_given, begins_pinned, begins_raised, begins_with};

use tx_events::{By, FullMulti, MultiEvent};

pub fn begins_given(own: &[MultiEvent]) -> bool
    ensures { result ≡ begins_given own.now }
{
    match own {
        [MultiEvent::Gen { .. }, ..] => true,
        _ => false,
    }
}

pub fn begins_with(own: &[MultiEvent], multi: FullMulti, offset: u64) -> bool
    ensures { result ≡ begins_with multi offset own.now }
{
    match own {
        [
            MultiEvent::Gen {
                multi: given,
                offset: at,
                ..
            },
            ..
        ] => *given == multi && *at == offset,
        _ => false,
    }
}

pub fn begins_pinned(own: &[MultiEvent]) -> bool
    ensures { result ≡ begins_pinned own.now }
{
    match own {
        [MultiEvent::Hold { .. }, MultiEvent::Unhold { .. }, ..] => true,
        _ => false,
    }
}

pub fn begins_raised(own: &[MultiEvent]) -> bool
    ensures { result ≡ begins_raised own.now }
{
    match own {
        [MultiEvent::Raise { .. }, ..] => true,
        _ => false,
    }
}

pub fn begins_between(own: &[MultiEvent]) -> bool
    ensures { result ≡ begins_between own.now }
{
    match own {
        [
            MultiEvent::Hold { .. },
            MultiEvent::Raise { .. },
            MultiEvent::Unhold { .. },
            ..
        ] => true,
        _ => false,
    }
}

fn is_hold(e: &MultiEvent, by: By, multi: FullMulti) -> bool
    ensures { IsTrue result ↔ (e.now ≡ multis.Hold by multi) }
{
    match e {
        MultiEvent::Hold {
            by: its,
            multi: held,
        } => its.get() == by && *held == multi,
        _ => false,
    }
}

fn is_unhold(e: &MultiEvent, by: By, multi: FullMulti) -> bool
    ensures { IsTrue result ↔ (e.now ≡ multis.Unhold by multi) }
{
    match e {
        MultiEvent::Unhold {
            by: its,
            multi: held,
        } => its.get() == by && *held == multi,
        _ => false,
    }
}

fn is_raise(e: &MultiEvent, by: By, multi: FullMulti) -> bool
    ensures { IsTrue result ↔ ((offset : ℕ) × (e.now ≡ multis.Raise by multi offset)) }
{
    match e {
        MultiEvent::Raise {
            by: its,
            multi: raised,
            ..
        } => its.get() == by && *raised == multi,
        _ => false,
    }
}

/// Whether the event stands at this place of a pin.
pub fn is_of_pin(by: By, place: u64, e: &MultiEvent, multi: FullMulti) -> bool
    ensures { IsTrue result ↔ (slice_get (multis.Hold by multi ∷ multis.Unhold by multi ∷ []) place ≡ Some e.now) }
{
    match place {
        0 => is_hold(e, by, multi),
        1 => is_unhold(e, by, multi),
        _ => false,
    }
}

/// Whether it stands at this place of a raise behind a pin.
pub fn is_of_raise_between(by: By, place: u64, e: &MultiEvent, multi: FullMulti) -> bool
    ensures { IsTrue result ↔ ((offset : ℕ) × (slice_get (multis.Hold by multi ∷ multis.Raise by multi offset ∷ multis.Unhold by multi ∷ []) place ≡ Some e.now)) }
{
    match place {
        0 => is_hold(e, by, multi),
        1 => is_raise(e, by, multi),
        2 => is_unhold(e, by, multi),
        _ => false,
    }
}

/// Whether it stands at this place of a raise alone.
pub fn is_of_raise(by: By, place: u64, e: &MultiEvent, multi: FullMulti) -> bool
    ensures { IsTrue result ↔ ((offset : ℕ) × (slice_get (multis.Raise by multi offset ∷ []) place ≡ Some e.now)) }
{
    place == 0 && is_raise(e, by, multi)
}

/// The multixact that the event is of.
pub fn multi_of(e: &MultiEvent) -> FullMulti
    ensures { (by : By) (place multi : ℕ) → slice_get (multis.Hold by multi ∷ multis.Unhold by multi ∷ []) place ≡ Some e.now → result ≡ multi }
{
    match e {
        MultiEvent::Gen { multi, .. } => *multi,
        MultiEvent::Hold { multi, .. } => *multi,
        MultiEvent::Unhold { multi, .. } => *multi,
        MultiEvent::Raise { multi, .. } => *multi,
    }
}

/// Whether the event gives this multixact, whose members begin at this offset.
pub fn is_gen_of(e: &MultiEvent, multi: FullMulti, offset: u64) -> bool
    ensures { result ≡ begins_with multi offset (e.now ∷ []) }
{
    match e {
        MultiEvent::Gen {
            multi: given,
            offset: at,
            ..
        } => *given == multi && *at == offset,
        _ => false,
    }
}
