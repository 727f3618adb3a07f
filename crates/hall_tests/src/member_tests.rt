//! Members that join, drain and hand back one after the other.
use group_list::{Batch, GroupList, Memory, Role};

#[test]
fn first_to_join_leads_and_drains_both(rt: HostRuntime) {
    let (list, mut c) = GroupList::new(rt.alloc(), 3).expect(&rt, "memory");
    let mut a = list.split(&mut c, 0).expect(&rt, "0 is free");
    let mut b = list.split(&mut c, 1).expect(&rt, "1 is free");
    let mut batch = Batch::new(rt.alloc(), 3).expect(&rt, "memory");
    let Role::Leader = list.join(&mut a) else {
        panic!(rt; "the list was empty")
    };
    assert!(rt; list.join(&mut b) == Role::Follower);
    list.drain(&rt, &mut a, &mut batch);
    assert!(rt; batch.numbers() == [1, 0].as_slice());
    let Role::Leader = list.join(&mut c) else {
        panic!(rt; "the list was drained")
    };
    list.drain(&rt, &mut c, &mut batch);
    assert!(rt; batch.numbers() == [2].as_slice());
}

#[test]
fn each_publication_is_handed_back_once(rt: HostRuntime) {
    let (list, mut b) = GroupList::new(rt.alloc(), 2).expect(&rt, "memory");
    let mut a = list.split(&mut b, 0).expect(&rt, "0 is free");
    let mut batch = Batch::new(rt.alloc(), 2).expect(&rt, "memory");
    let Role::Leader = list.join(&mut a) else {
        panic!(rt; "the list was empty")
    };
    assert!(rt; list.join(&mut b) == Role::Follower);
    list.drain(&rt, &mut a, &mut batch);
    assert!(rt; !list.was_handed_back(&mut a));
    assert!(rt; !list.was_handed_back(&mut b));
    assert!(rt; batch.numbers() == [1, 0].as_slice());
    list.hand_back(&mut a, 1);
    assert!(rt; list.was_handed_back(&mut b));
    assert!(rt; !list.was_handed_back(&mut b));
    assert!(rt; !list.was_handed_back(&mut a));
    list.hand_back(&mut a, 0);
    list.await_back(&rt, &mut a);
    assert!(rt; !list.was_handed_back(&mut a));
}

#[test]
fn a_number_is_given_once(rt: HostRuntime) {
    let (list, mut first) = GroupList::new(rt.alloc(), 65).expect(&rt, "memory");
    assert!(rt; first.number() == 64);
    assert!(rt; list.split(&mut first, 64).is_none());
    let mut last = list.split(&mut first, 63).expect(&rt, "63 is free");
    assert!(rt; last.number() == 63);
    assert!(rt; list.split(&mut first, 63).is_none());
    assert!(rt; list.split(&mut last, 0).is_none());
    list.join_member(&mut first, last);
    assert!(rt; list.split(&mut first, 63).is_none());
    assert!(rt; list.split(&mut first, 0).is_some());
}

#[test]
fn memory_is_taken_where_there_is_some(rt: HostRuntime) {
    let (list, only) = GroupList::new(rt.alloc(), 1).expect(&rt, "memory");
    let batch = Batch::new(rt.alloc(), 65).expect(&rt, "memory");
    assert!(rt; only.number() == 0);
    assert!(rt; batch.numbers().len() == 0);
    drop(list);
    let text = format!(in rt.alloc(); "{Memory}").expect(&rt, "memory");
    assert!(rt; text.as_str() == "out of memory");
}
