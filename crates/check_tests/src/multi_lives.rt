// Lives with multixacts, by the events of a test.
use crate::events::{MultiAct, NEW_LOG, Start, counters, multi_event_of};
use event_rules::multi_front;
use history_check::{add_multi, first_illegal_multi};
use history_places::MultiPlaces;
use multi_store::MultiGen;
use std::process::Abort;
use tx_events::is_base;

/// What happens by a command of this session, and whether it may come.
pub type Step = (u32, MultiAct, bool);

/// The event is added where it may come.
fn step<R: Abort + AllocGlobal>(rt: &R, multis: &mut MultiGen, place: usize, step: &Step) {
    let (session, act, may_come) = *step;
    let event = multi_event_of(rt, session, act);
    let came = add_multi(multis, &event).expect(rt, "memory");
    assert!(rt; came == may_come, "step {place}");
}

/// Each event of a life from here on comes or doesn't, as its step says.
pub fn check<R: Abort + AllocGlobal>(rt: &R, start: Start, steps: &[Step]) {
    let base = counters(rt, start);
    assert!(rt; is_base(&base));
    let mut multis = MultiGen::new(rt.alloc(), base);
    for (place, next) in steps.iter().enumerate() {
        step(rt, &mut multis, place, next);
    }
}

/// The place of the first event that may not come in a new log's life is this. All are of session 0.
pub fn check_first<R: Abort + AllocGlobal>(rt: &R, acts: &[MultiAct], illegal: Option<usize>) {
    let base = counters(rt, NEW_LOG);
    assert!(rt; is_base(&base));
    let mut events = Vec::new(rt.alloc());
    for act in acts {
        events
            .push(multi_event_of(rt, 0, *act))
            .expect(rt, "memory");
    }
    let found = first_illegal_multi(rt.alloc(), base, events.as_slice()).expect(rt, "memory");
    assert!(rt; found == illegal);
}

/// The life of a new log, with these events of sessions.
pub fn places_of<R: Abort + AllocGlobal>(rt: &R, acts: &[(u32, MultiAct)]) -> MultiPlaces {
    let base = counters(rt, NEW_LOG);
    assert!(rt; is_base(&base));
    let mut events = Vec::new(rt.alloc());
    for (session, act) in acts {
        events
            .push(multi_event_of(rt, *session, *act))
            .expect(rt, "memory");
    }
    let places = multi_front(rt.alloc(), base, &[], events.as_slice()).expect(rt, "memory");
    assert!(rt; places.events().len() == acts.len());
    places
}
