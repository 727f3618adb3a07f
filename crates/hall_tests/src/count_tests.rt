//! Two counters behind locks: that calls succeed, and in which order.
ghost use Rattle.std.specs.Prelude.{◌≡◌};

use hall_counts::{add, both, catch_up, count, counters, tell};
use std::process::Abort;

/// The number is as wanted.
fn same<R: Abort>(rt: &R, number: u64, wanted: u64) {
    assert!(rt; number == wanted, "{number} in the place of {wanted}");
}

#[test]
fn each_thread_counts_one(rt: HostRuntime) {
    let values = both(&rt, rt.alloc()).expect(&rt, "there is memory");
    let (first, second) = (values[0], values[1]);
    same(&rt, first, 2);
    assert!(rt; second <= 1, "the word said 0 or 1, and not {second}");
}

#[test]
fn second_look_waits_for_the_release(rt: HostRuntime) {
    let (hall, mut first) = counters(rt.alloc()).expect(&rt, "there is memory");
    let mut a = hall.split(&mut first, 0).expect(&rt, "0 is free");
    let mut b = hall.split(&mut first, 1).expect(&rt, "1 is free");
    let value = hall.look(&mut a, 0).expect(&rt, "the lock is free");
    assert!(rt; hall.look(&mut b, 0).is_none());
    // The other lock is free.
    same(&rt, catch_up(&rt, &hall, &mut b), 0);
    assert!(rt; hall.look(&mut b, 0).is_none());
    same(&rt, count(&hall, &mut a, value), 1);
    let value = hall.look(&mut b, 0).expect(&rt, "the lock was released");
    assert!(rt; hall.look(&mut a, 0).is_none());
    same(&rt, count(&hall, &mut b, value), 2);
    hall.join(&mut first, a);
    hall.join(&mut first, b);
    let values = hall.close_with(first);
    assert!(rt; values.as_slice() == [2, 0].as_slice());
}

#[test]
fn published_words_are_read_by_another_pass(rt: HostRuntime) {
    let (hall, mut first) = counters(rt.alloc()).expect(&rt, "there is memory");
    let mut a = hall.split(&mut first, 0).expect(&rt, "0 is free");
    let mut b = hall.split(&mut first, 1).expect(&rt, "1 is free");
    tell(&hall, &mut a, 7);
    same(&rt, hall.read_post(&mut b, 1), 7);
    tell(&hall, &mut a, 5);
    same(&rt, hall.read_post(&mut b, 1), 5);
    same(&rt, add(&rt, &hall, &mut a), 1);
    // As the last critical section found it.
    same(&rt, hall.read_post(&mut b, 0), 0);
    same(&rt, add(&rt, &hall, &mut a), 2);
    same(&rt, catch_up(&rt, &hall, &mut b), 1);
    hall.join(&mut first, a);
    hall.join(&mut first, b);
    let values = hall.close_with(first);
    assert!(rt; values.as_slice() == [2, 1].as_slice());
}

#[test]
fn names_are_given_again_once_they_are_joined(rt: HostRuntime) {
    let (hall, mut first) = counters(rt.alloc()).expect(&rt, "there is memory");
    let mut a = hall.split(&mut first, 0).expect(&rt, "0 is free");
    // It isn't back yet; it is the first pass's own; no pass may have it; the first pass has it; it is this pass's own.
    assert!(rt; hall.split(&mut first, 0).is_none());
    assert!(rt; hall.split(&mut first, 2).is_none());
    assert!(rt; hall.split(&mut first, 64).is_none());
    assert!(rt; hall.split(&mut a, 1).is_none());
    assert!(rt; hall.split(&mut a, 0).is_none());
    tell(&hall, &mut a, 7);
    hall.join(&mut first, a);
    let mut again = hall.split(&mut first, 0).expect(&rt, "0 is back");
    same(&rt, hall.read_post(&mut again, 1), 7);
    hall.join(&mut first, again);
    let values = hall.close_with(first);
    assert!(rt; values.as_slice() == [0, 0].as_slice());
}
