// Lives of two sessions from a new log on, by the events of a test.
ghost use Rattle.std.specs.Prelude.{◌≡◌};

use crate::events::{Act, NEW_LOG, counters, event_of, id};
use history_check::HistoryReplay;
use history_places::HistoryPlaces;
use std::process::Abort;
use tx_events::{By, Counters, is_base};

/// What a session does as its next command, of this number, and whether its event may come.
pub type Step = (u32, u64, Act, bool);

/// At a place of the history, an id and whether it was visible there, where the life began with 1000 as committed.
pub type Look = (u64, u64, bool);

#[derive(Drop)]
pub struct Life {
    pub replay: HistoryReplay,
    ghost two: { replay.sessions ≡ 2 },
}

impl Life {
    fn new<R: Abort + AllocGlobal>(rt: &R) -> Life {
        let base = counters(rt, NEW_LOG);
        assert!(rt; is_base(&base));
        let replay = HistoryReplay::new(rt.alloc(), base, 2).expect(rt, "memory");
        Life { replay }
    }

    /// The event is added where it may come.
    fn step<R: Abort>(&mut self, rt: &R, step: &Step) {
        let (session, command, act, may_come) = *step;
        assert!(rt; session < 2);
        let event = event_of(rt, By { session, command }, act);
        let came = self.replay.add(&event).expect(rt, "memory");
        assert!(rt; came == may_come, "of session {session} command {command}");
    }

    fn look<R: Abort>(&self, rt: &R, look: &Look) {
        let (place, number, is_visible) = *look;
        assert!(rt; place <= self.replay.events().len() as u64);
        let found = self
            .replay
            .was_visible(&[id(rt, 1000)], place, id(rt, number));
        assert!(rt; found == is_visible, "of {number} at {place}");
    }
}

/// The life of these steps.
pub fn life_of<R: Abort + AllocGlobal>(rt: &R, steps: &[Step]) -> Life {
    let mut life = Life::new(rt);
    for step in steps {
        life.step(rt, step);
    }
    life
}

/// After these steps each look finds what it says.
pub fn check<R: Abort + AllocGlobal>(rt: &R, steps: &[Step], looks: &[Look]) {
    let life = life_of(rt, steps);
    for look in looks {
        life.look(rt, look);
    }
}

/// A life of one session, with what is kept of its places.
#[derive(Drop)]
pub struct Places {
    pub places: HistoryPlaces,
    pub base: Counters,
    command: u64,
    ghost one: { places.sessions ≡ 1 },
    ghost its: { places.base ≡ base },
}

impl Places {
    fn new<R: Abort + AllocGlobal>(rt: &R) -> Places {
        let base = counters(rt, NEW_LOG);
        assert!(rt; is_base(&base));
        let places = HistoryPlaces::new(rt.alloc(), base, 1, 0).expect(rt, "memory");
        Places {
            places,
            base,
            command: 0,
        }
    }

    /// Adds the event of its next command, which may come.
    fn add<R: Abort>(&mut self, rt: &R, act: Act) {
        self.command = self.command.saturating_add(1);
        let by = By {
            session: 0,
            command: self.command,
        };
        let event = event_of(rt, by, act);
        assert!(rt; self.places.add(&event).expect(rt, "memory"));
    }
}

/// The life in which the session does this, by a command each.
pub fn places_of<R: Abort + AllocGlobal>(rt: &R, acts: &[Act]) -> Places {
    let mut places = Places::new(rt);
    for act in acts {
        places.add(rt, *act);
    }
    places
}
