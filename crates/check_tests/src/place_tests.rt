// What the places of a history tell.
use crate::events::{Act, MultiAct, id};
use crate::{lives, multi_lives};
use place_columns::{Own, column_of, own_places};
use tx_events::{By, Mode};

#[test]
fn a_column_begins_with_its_first_number(rt: HostRuntime) {
    let column = column_of(rt.alloc(), 7u64, 1).expect(&rt, "memory");
    assert!(rt; column.as_slice() == [7].as_slice());
}

fn own(command: u64, place: u64) -> Own {
    Own { command, place }
}

#[test]
fn events_stand_in_the_list_of_their_session(rt: HostRuntime) {
    let bys = [
        By {
            session: 0,
            command: 1,
        },
        By {
            session: 1,
            command: 1,
        },
        By {
            session: 0,
            command: 2,
        },
    ];
    let lists = own_places(rt.alloc(), 2, &bys).expect(&rt, "memory");
    let [first, second] = lists.as_slice() else {
        panic!(rt; "there are two sessions")
    };
    assert!(rt; first.as_slice() == [own(1, 0), own(2, 2)].as_slice());
    assert!(rt; second.as_slice() == [own(1, 1)].as_slice());
}

#[test]
fn an_id_is_the_next_one_until_it_is_given(rt: HostRuntime) {
    let mut life = lives::places_of(&rt, &[Act::Id(3)]);
    let held = life.places.snapshot_data().expect(&rt, "memory");
    assert!(rt; held.xmin().number() == 3 && held.xmax().number() == 3);
    let three = life.places.where_next(id(&rt, 3));
    assert!(rt; three.from == 0 && three.end == 1);
    let four = life.places.where_next(id(&rt, 4));
    assert!(rt; four.from == 1 && four.end == 2);
}

#[test]
fn a_multixact_is_the_next_one_until_it_is_given(rt: HostRuntime) {
    let places = multi_lives::places_of(&rt, &[(0, MultiAct::Gen(1, 1, Mode::Sh, 2))]);
    let one = places.where_next(1);
    assert!(rt; one.from == 0 && one.end == 1);
}
