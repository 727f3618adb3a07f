// What snapshots say, from rows worked out by hand.
use std::process::Abort;
use tx_events::{FullXid, IdList, Sight, SnapData, sight_of, sight_of_top};

fn id<R: Abort>(rt: &R, number: u64) -> FullXid {
    FullXid::new(number).expect(rt, "an id")
}

fn ids<R: Abort + AllocGlobal>(rt: &R, from: u64, to: u64) -> IdList {
    let mut list = IdList::new(rt.alloc());
    for number in from..to {
        assert!(rt; list.push(id(rt, number)).is_ok());
    }
    list
}

/// The sights of committed ids, by number.
fn expect_sights<R: Abort>(rt: &R, snap: &SnapData, wanted: &[(u64, Sight)]) {
    for (number, sight) in wanted {
        assert!(rt;
            sight_of(snap, id(rt, *number), true) == *sight,
            "at {number}"
        );
        assert!(rt;
            sight_of(snap, id(rt, *number), false) == Sight::Hidden,
            "at {number}"
        );
    }
}

#[test]
fn lists_tell_what_ran(rt: HostRuntime) {
    let snap = SnapData {
        xmin: id(&rt, 3),
        xmax: id(&rt, 69),
        xip: ids(&rt, 3, 4),
        subxip: ids(&rt, 4, 68),
        overflowed: false,
    };
    let wanted = [
        (2, Sight::Seen),
        (3, Sight::Hidden),
        (4, Sight::Hidden),
        (67, Sight::Hidden),
        (68, Sight::Seen),
        (69, Sight::Hidden),
    ];
    expect_sights(&rt, &snap, &wanted);
}

#[test]
fn an_overflowed_snapshot_asks_parents(rt: HostRuntime) {
    let snap = SnapData {
        xmin: id(&rt, 3),
        xmax: id(&rt, 71),
        xip: ids(&rt, 3, 4),
        subxip: ids(&rt, 4, 4),
        overflowed: true,
    };
    let wanted = [
        (2, Sight::Seen),
        (3, Sight::AskParents),
        (67, Sight::AskParents),
        (70, Sight::AskParents),
        (71, Sight::Hidden),
    ];
    expect_sights(&rt, &snap, &wanted);
    assert!(rt; sight_of_top(&snap, id(&rt, 2)));
    assert!(rt; !sight_of_top(&snap, id(&rt, 3)));
    assert!(rt; sight_of_top(&snap, id(&rt, 68)));
}
