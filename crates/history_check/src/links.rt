//! The ids of a running transaction, each linked to those that were given below it. They stay where they stand when they
//! are closed, so a link lasts as long as the transaction, and each is followed only once after its id was closed.
ghost use Rattle.std.specs.Prelude.{◌≡◌, ◌==◌, ◌<◌, ◌∷◌, ◌++◌, [], None, Some, Contains, IfNone, IfSome, OnOk, cond, length};
ghost use Rattle.std.specs.List.{AllByRecursion, find};
ghost use Rattle.std.specs.Vec.{vec_len, vec_capacity};
ghost use Rattle.tx_events.specs.IdLists.{Ascending};
ghost use Rattle.history_check.specs.declared.links.OpenId.{OpenId};
ghost use Rattle.history_check.specs.Links.{AreChildrenAdded, AreLinked, IsAdded, IsLedTo, IsMissing, IsPlaceOf, id_at, link_ids, links_of, open_in, opens};

use tx_events::{FullXid, Memory};

/// An id that is open.
#[derive(Clone, Copy, Debug, PartialEq, Eq)]
pub struct OpenId {
    pub id: FullXid,
    /// The id below which it was given. None of a top-level id.
    pub parent: Option<FullXid>,
}

/// An id among others, in the order in which they were given.
#[derive(Clone, Copy, Debug, PartialEq, Eq)]
pub struct Linked {
    pub id: FullXid,
    /// The id below which it was given. None of a top-level id.
    pub parent: Option<FullXid>,
    /// Where the last one stands that was given below it.
    pub last_child: Option<usize>,
    /// Where the one before it stands that was given below the same parent.
    pub before: Option<usize>,
}

/// An id that was given, and whether it is open.
#[derive(Clone, Copy, Debug, PartialEq, Eq)]
pub struct Slot {
    pub linked: Linked,
    pub is_open: bool,
}

/// Where the id stands. None where it doesn't.
pub fn place_of(slots: &[Slot], x: FullXid) -> Option<usize>
    requires { Ascending (link_ids (links_of slots.now)) }
    ensures some { IfSome result (IsPlaceOf slots.now x) }
    ensures none { IfNone result (IsMissing slots.now x) }
{
    slots.binary_search_by_key(&x, |s| s.linked.id).ok()
}

fn open_in(slot: &Slot) -> Option<OpenId>
    ensures { result ≡ open_in slot.now }
{
    if slot.is_open {
        return Some(OpenId {
            id: slot.linked.id,
            parent: slot.linked.parent,
        });
    }
    None
}

/// The open id of this number.
pub fn find_open(slots: &[Slot], x: FullXid) -> Option<OpenId>
    requires { Ascending (link_ids (links_of slots.now)) }
    ensures { result ≡ find (λ (o : OpenId). o.id == x) (opens slots.now) }
{
    match place_of(slots, x) {
        Some(place) => open_in(&slots[place]),
        None => None,
    }
}

/// One more is given below the parent, and comes to stand at this place. Answers where the one before it stands.
fn lead_from(slots: &mut [Slot], parent: FullXid, place: usize) -> Option<usize>
    requires linked { AreLinked (links_of slots.old) }
    requires parent { Contains (link_ids (links_of slots.old)) parent }
    ensures leads { IsLedTo parent place result (links_of slots.old) (links_of slots.new) }
    ensures opens { opens slots.new ≡ opens slots.old }
{
    match place_of(slots, parent) {
        Some(at) => {
            let before = slots[at].linked.last_child;
            slots[at].linked.last_child = Some(place);
            before
        }
        None => None,
    }
}

/// A top-level id is given, behind all others.
pub fn push_top(slots: &mut Vec<Slot>, id: FullXid)
    requires linked { AreLinked (links_of slots.old.items) }
    requires above { AllByRecursion (λ x. x < id) (link_ids (links_of slots.old.items)) }
    requires room { vec_len slots.old < vec_capacity slots.old }
    ensures { IsAdded id None slots.old.items slots.new.items }
{
    slots.push_reserved(Slot {
        linked: Linked {
            id,
            parent: None,
            last_child: None,
            before: None,
        },
        is_open: true,
    });
}

/// An id is given below this one, behind all others.
pub fn push_sub(slots: &mut Vec<Slot>, parent: FullXid, id: FullXid)
    requires linked { AreLinked (links_of slots.old.items) }
    requires above { AllByRecursion (λ x. x < id) (link_ids (links_of slots.old.items)) }
    requires parent { Contains (link_ids (links_of slots.old.items)) parent }
    requires room { vec_len slots.old < vec_capacity slots.old }
    ensures { IsAdded id (Some parent) slots.old.items slots.new.items }
{
    let place = slots.len();
    let before = lead_from(slots, parent, place);
    slots.push_reserved(Slot {
        linked: Linked {
            id,
            parent: Some(parent),
            last_child: None,
            before,
        },
        is_open: true,
    });
}

/// Puts the place behind the others if the answer is yes.
pub fn push_where(found: &mut Vec<usize>, yes: bool, place: usize) -> Result<(), Memory>
    ensures { OnOk result (found.new.items ≡ found.old.items ++ cond yes (place ∷ []) []) }
{
    if yes {
        found.push(place)?;
    }
    Ok(())
}

/// Puts the places of the open ones that were given below this one behind the others.
pub fn push_children(slots: &[Slot], place: usize, found: &mut Vec<usize>) -> Result<(), Memory>
    requires linked { AreLinked (links_of slots.now) }
    requires place { place < length slots.now }
    ensures { OnOk result (AreChildrenAdded slots.now (id_at slots.now place) found.old.items found.new.items) }
{
    let mut next = slots[place].linked.last_child;
    while let Some(child) = next {
        push_where(found, slots[child].is_open, child)?;
        next = slots[child].linked.before;
    }
    Ok(())
}
