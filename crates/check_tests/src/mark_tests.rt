// What is kept of the ids and the cutoffs of a life.
use crate::events::Act::{Commit, Id, Sub, Undo};
use crate::events::{id, multi};
use crate::lives::{Places, places_of};
use dump_rules::cuts_of;
use history_places::{IdMark, id_marks, was_running};
use std::collections::BTreeSet;
use std::process::Abort;
use tx_events::Rec;

/// Id 3 with two savepoints inside each other, of which the outer one is rolled back, and one behind it. Then it commits.
fn worked<R: Abort + AllocGlobal>(rt: &R) -> Places {
    places_of(
        rt,
        &[Id(3), Sub(3, 4), Sub(4, 5), Undo(4), Sub(3, 6), Commit(3)],
    )
}

/// Whether this is kept of the id: its parent, and the places at which it was given and closed.
fn is_mark(mark: &IdMark, number: u64, parent: Option<u64>, given: u64, closed: u64) -> bool {
    let is_parent = match mark.parent {
        Some(above) => parent == Some(above.number()),
        None => parent.is_none(),
    };
    is_parent && mark.id.number() == number && mark.given == given && mark.closed == Some(closed)
}

#[test]
fn an_id_is_closed_with_its_parent(rt: HostRuntime) {
    let life = worked(&rt);
    let marks = id_marks(rt.alloc(), life.places.replay()).expect(&rt, "memory");
    let [three, four, five, six] = marks.as_slice() else {
        panic!(rt; "four ids were given")
    };
    assert!(rt; is_mark(three, 3, None, 0, 5));
    assert!(rt; is_mark(four, 4, Some(3), 1, 3));
    assert!(rt; is_mark(five, 5, Some(4), 2, 3));
    assert!(rt; is_mark(six, 6, Some(3), 4, 5));
    assert!(rt; was_running(marks.as_slice(), 3, id(&rt, 5)));
    assert!(rt; !was_running(marks.as_slice(), 4, id(&rt, 5)));
    assert!(rt; was_running(marks.as_slice(), 5, id(&rt, 6)));
}

fn are_first_two(pages: &BTreeSet<u32>) -> bool {
    pages.len() == 2 && pages.contains(&0) && pages.contains(&1)
}

#[test]
fn cutoffs_are_those_of_the_base_and_of_truncations(rt: HostRuntime) {
    let life = worked(&rt);
    let recs = [Rec::Truncate {
        oldest: id(&rt, 32768),
        multi: multi(&rt, 2049),
        offset: 1636,
    }];
    let cuts = cuts_of(rt.alloc(), &life.base, recs.as_slice(), &life.places).expect(&rt, "memory");
    assert!(rt; are_first_two(&cuts.xacts));
    // the multixact before 2049 is 2048, the first of page 1
    assert!(rt; are_first_two(&cuts.offsets));
    assert!(rt; are_first_two(&cuts.members));
    assert!(rt; cuts.parents.get(&0).copied() == Some(0));
}
