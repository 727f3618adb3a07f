//! Whether a command's own multixact events begin with those that its reply tells, and which of them are told so.
ghost use Rattle.std.specs.Prelude.{◌≡◌, ◌↔◌, IsTrue, List, [], ◌∷◌, Some, length, map, slice_get};
ghost use Rattle.tx_events.specs.declared.multi.MultiEvent.{MultiEvent};
ghost use Rattle.tx_events.specs.Multis.{multi_by};
ghost use Rattle.std.specs.List.{AllByRecursion, AllZip};
ghost use Rattle.report_law.specs.Kinds.{BeginAsToldMultis};
ghost use Rattle.report_law.specs.MultiLines.{AreGiven};
ghost use Rattle.report_law.specs.Places.{multis_of};
ghost use Rattle.report_law.specs.Steps.{HasFirstMultis};
ghost use Rattle.place_columns.specs.Counted.{AreCounts};
ghost use Rattle.command_events.specs.Reached.{IsMember, IsReach, JudgedRound, MayBeMember};
ghost use Rattle.place_columns.specs.OwnPlaces.{ArePlacesOf};
ghost use Rattle.command_events.specs.Shapes.{IsShaped, Teller, pairs_of};

use crate::begin::{
    begins_between, begins_given, begins_pinned, begins_raised, begins_with, is_gen_of, is_of_pin,
    is_of_raise, is_of_raise_between, multi_of,
};
use crate::pins::{is_near_a_pin, is_near_pin};
use crate::reach::Reach;
use crate::shape::{Shape, may_have_none, shape_of};
use place_columns::GivenCounts;
use tx_events::{By, MemberList, MultiEvent};
use tx_model::{Command, Line};

/// Whether each of a command's pairs may be a member.
fn may_be_given(reach: Reach, command: &Command) -> bool
    ensures { IsTrue result ↔ AllByRecursion (MayBeMember reach) (pairs_of command.now) }
{
    match command {
        Command::Multi { members } => reach.may_be_members(members.items()),
        _ => true,
    }
}

/// Whether these are the members that its pairs are.
fn are_given(reach: Reach, command: &Command, members: &MemberList) -> bool
    ensures { IsTrue result ↔ AllZip (IsMember reach) (pairs_of command.now) members.now }
{
    match command {
        Command::Multi { members: pairs } => reach.are_members(pairs.items(), members.items()),
        _ => members.items().is_empty(),
    }
}

/// Whether an event of the second command stands at the first place of one of the first command's.
fn stands_first(by: By, place: u64, its: By) -> bool
    ensures { IsTrue result ↔ ((place ≡ 0) × (its ≡ by)) }
{
    place == 0 && its == by
}

/// Whether it is told at this place that a multixact of the pairs is given.
fn is_of_gen(
    reach: Reach,
    own: &[MultiEvent],
    command: &Command,
    by: By,
    place: u64,
    e: &MultiEvent,
) -> bool
    ghost t: { Teller }
    requires reach { IsReach t.base t.events t.round reach }
    requires by { by ≡ t.by }
    requires pairs { pairs_of command.now ≡ t.pairs }
    ensures { IsTrue result ↔ ((es : List MultiEvent) × AreGiven t.base t.events t.round t.by t.pairs es × BeginAsToldMultis es own.now × (slice_get es place ≡ Some e.now)) }
{
    match e {
        MultiEvent::Gen {
            by: its,
            multi,
            offset,
            members,
        } => {
            if !stands_first(by, place, its.get()) {
                return false;
            }
            begins_with(own, *multi, *offset) && are_given(reach, command, members)
        }
        _ => false,
    }
}

/// Whether a command's own events begin with some of this shape.
fn has_shape(
    reach: Reach,
    counts: &GivenCounts,
    multis: &[MultiEvent],
    own: &[MultiEvent],
    places: &[u64],
    line: &Line,
    shape: Shape,
) -> bool
    ghost t: { Teller }
    requires reach { IsReach t.base t.events t.round reach }
    requires counts { AreCounts t.base t.events t.all counts.now }
    requires all { multis.now ≡ t.all }
    requires places { ArePlacesOf t.by (map multi_by t.all) places.now }
    requires pairs { pairs_of line.now.command ≡ t.pairs }
    ensures { IsTrue result ↔ ((es : List MultiEvent) × IsShaped t shape es × BeginAsToldMultis es own.now) }
{
    match shape {
        Shape::Nothing => true,
        Shape::Gives => begins_given(own) && may_be_given(reach, &line.command),
        Shape::GivesThis { multi, offset } => {
            begins_with(own, multi, offset) && may_be_given(reach, &line.command)
        }
        Shape::PinsNear { m } => begins_pinned(own) && is_near_a_pin(counts, multis, places, m),
        Shape::Pins { .. } => begins_pinned(own),
        Shape::Raises { .. } => begins_raised(own) || begins_between(own),
    }
}

/// Whether the event stands at this place of some events of this shape, with which the command's own begin.
fn is_of_shape(
    reach: Reach,
    counts: &GivenCounts,
    multis: &[MultiEvent],
    own: &[MultiEvent],
    places: &[u64],
    line: &Line,
    shape: Shape,
    place: u64,
    e: &MultiEvent,
) -> bool
    ghost t: { Teller }
    requires reach { IsReach t.base t.events t.round reach }
    requires counts { AreCounts t.base t.events t.all counts.now }
    requires all { multis.now ≡ t.all }
    requires places { ArePlacesOf t.by (map multi_by t.all) places.now }
    requires by { line.now.by ≡ t.by }
    requires pairs { pairs_of line.now.command ≡ t.pairs }
    ensures { IsTrue result ↔ ((es : List MultiEvent) × IsShaped t shape es × BeginAsToldMultis es own.now × (slice_get es place ≡ Some e.now)) }
{
    match shape {
        Shape::Nothing => false,
        Shape::Gives => is_of_gen(reach, own, &line.command, line.by, place, e),
        Shape::GivesThis { multi, offset } => {
            is_gen_of(e, multi, offset) && is_of_gen(reach, own, &line.command, line.by, place, e)
        }
        Shape::PinsNear { m } => {
            let multi = multi_of(e);
            if !begins_pinned(own) {
                return false;
            }
            is_of_pin(line.by, place, e, multi) && is_near_pin(counts, multis, places, m, multi)
        }
        Shape::Pins { multi } => begins_pinned(own) && is_of_pin(line.by, place, e, multi),
        Shape::Raises { multi } => {
            if begins_between(own) {
                return is_of_raise_between(line.by, place, e, multi);
            }
            begins_raised(own) && is_of_raise(line.by, place, e, multi)
        }
    }
}

/// Whether the line's reply tells some multixact events with which its command's own begin. The round's reach is among the
/// events; the command's own stand at these places. Takes as long as these and the line's members are many.
pub fn has_first_multis(
    reach: Reach,
    counts: &GivenCounts,
    multis: &[MultiEvent],
    own: &[MultiEvent],
    places: &[u64],
    line: &Line,
) -> bool
    ghost of: { JudgedRound }
    requires reach { IsReach of.judged.begun.counters of.judged.life.events of.round reach }
    requires counts { AreCounts of.judged.begun.counters of.judged.life.events of.judged.life.multis counts.now }
    requires all { multis.now ≡ of.judged.life.multis }
    requires own { own.now ≡ multis_of line.now.by of.judged.life.multis }
    requires places { ArePlacesOf line.now.by (map multi_by of.judged.life.multis) places.now }
    ensures { IsTrue result ↔ ((es : List MultiEvent) × HasFirstMultis of.judged of.round line.now es) }
{
    let shape = shape_of(&line.command, &line.reply);
    may_have_none(&line.command, &line.reply)
        || has_shape(reach, counts, multis, own, places, line, shape)
}

/// Whether the event is the one at this place of some multixact events that the line's reply tells and with which its
/// command's own begin.
pub fn is_told_multi(
    reach: Reach,
    counts: &GivenCounts,
    multis: &[MultiEvent],
    own: &[MultiEvent],
    places: &[u64],
    line: &Line,
    place: u64,
    e: &MultiEvent,
) -> bool
    ghost of: { JudgedRound }
    requires reach { IsReach of.judged.begun.counters of.judged.life.events of.round reach }
    requires counts { AreCounts of.judged.begun.counters of.judged.life.events of.judged.life.multis counts.now }
    requires all { multis.now ≡ of.judged.life.multis }
    requires own { own.now ≡ multis_of line.now.by of.judged.life.multis }
    requires places { ArePlacesOf line.now.by (map multi_by of.judged.life.multis) places.now }
    ensures { IsTrue result ↔ ((es : List MultiEvent) × HasFirstMultis of.judged of.round line.now es × (slice_get es place ≡ Some e.now)) }
{
    let shape = shape_of(&line.command, &line.reply);
    is_of_shape(reach, counts, multis, own, places, line, shape, place, e)
}
