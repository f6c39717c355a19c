//! The judging of when threads made their calls, on small tales whose order keeps the times and on some whose order doesn't.

use crate::judging::same;
use Asked::{Find, Put, Remove};
use ist_core::{Pair, Reply};
use std::alloc::{AllocError, Global};
use std::process::Abort;
use test_tools::{Asked, Clock, Misfit, Order, Timed, Told, When};

const AT_101: Pair = Pair { key: 1, value: 101 };

// A call with its reply, the time at which it began and the one at which it ended.
type At = (Asked, Reply, u64, u64);

// What a thread was told, and when.
fn timed_tale(alloc: Global, calls: &[At]) -> Result<Vec<Timed>, AllocError> {
    let mut timed = Vec::new(alloc);
    for (asked, reply, began, ended) in calls {
        timed.push(Timed {
            told: Told {
                asked: *asked,
                reply: *reply,
            },
            when: When {
                began: *began,
                ended: *ended,
            },
        })?;
    }
    Ok(timed)
}

// The calls without their times.
fn untimed(alloc: Global, timed: &[Timed]) -> Result<Vec<Told>, AllocError> {
    let mut told = Vec::new(alloc);
    for one in timed {
        told.push(one.told)?;
    }
    Ok(told)
}

// Judges what two threads were told at these times, in a map that had 100 at key 1. They have an order
// that doesn't keep the times.
fn timely(alloc: Global, one: &[At], two: &[At], closing: &[Pair]) -> Result<(), Misfit> {
    let opening = [Pair { key: 1, value: 100 }];
    let (mut threads, mut told) = (Vec::new(alloc), Vec::new(alloc));
    for calls in [one, two] {
        let timed = timed_tale(alloc, calls)?;
        told.push(untimed(alloc, &timed)?)?;
        threads.push(timed)?;
    }
    let order = Order::of(alloc, &opening, &told, closing)?;
    order.judge_times(alloc, &threads)
}

// Fails unless these calls of two threads have an order that keeps their times, with these pairs at the close.
fn is_timely(rt: &impl Abort, alloc: Global, one: &[At], two: &[At], closing: &[Pair]) {
    same(rt, &timely(alloc, one, two, closing), &Ok(()), (one, two));
}

// Fails unless they have none, since a call on the key is too late.
fn is_stale(rt: &impl Abort, alloc: Global, one: &[At], two: &[At], closing: &[Pair], key: u64) {
    let found = timely(alloc, one, two, closing);
    same(rt, &found, &Err(Misfit::Stale { key }), (one, two));
}

#[test]
fn calls_side_by_side_may_come_in_any_order(rt: HostRuntime) {
    let alloc = rt.alloc();
    let put = [(Put(1, 101), Some(100), 2, 7)];
    let end = [AT_101];
    // the find begins before the put ended
    is_timely(&rt, alloc, &put, &[(Find(1), Some(100), 6, 9)], &end);
    is_timely(&rt, alloc, &put, &[(Find(1), Some(101), 6, 9)], &end);
    // or ends after the put began
    is_timely(&rt, alloc, &put, &[(Find(1), Some(101), 2, 3)], &end);
    // it finds nothing while the key has one life, then another
    let lives = [(Remove(1), Some(100), 2, 5), (Put(1, 101), None, 6, 9)];
    is_timely(&rt, alloc, &lives, &[(Find(1), None, 4, 7)], &end);
}

#[test]
fn a_call_that_goes_back_in_time_is_refused(rt: HostRuntime) {
    let alloc = rt.alloc();
    let put = [(Put(1, 101), Some(100), 2, 5)];
    let end = [AT_101];
    // a value that was replaced before
    is_stale(&rt, alloc, &put, &[(Find(1), Some(100), 6, 7)], &end, 1);
    // a value that is put later
    let early = [(Find(1), Some(101), 2, 3)];
    let put = [(Put(1, 101), Some(100), 4, 5)];
    is_stale(&rt, alloc, &early, &put, &end, 1);
    // nothing, though a value was put before
    let other = [(Put(2, 201), None, 2, 5)];
    let both = [Pair { key: 1, value: 100 }, Pair { key: 2, value: 201 }];
    is_stale(&rt, alloc, &other, &[(Find(2), None, 6, 7)], &both, 2);
}

#[test]
fn a_call_that_sees_another_life_is_refused(rt: HostRuntime) {
    let alloc = rt.alloc();
    let gone = (Remove(1), Some(100), 2, 5);
    // a value that was removed before
    is_stale(&rt, alloc, &[gone], &[(Find(1), Some(100), 6, 7)], &[], 1);
    // nothing, though the value is removed later
    let none = [(Find(1), None, 2, 3)];
    let late = [(Remove(1), Some(100), 4, 5)];
    is_stale(&rt, alloc, &none, &late, &[], 1);
    let lives = [gone, (Put(1, 101), None, 6, 9)];
    let end = [AT_101];
    // the old life, though a new one has begun
    is_stale(&rt, alloc, &lives, &[(Find(1), Some(100), 10, 11)], &end, 1);
    // nothing, though the new life had begun
    is_stale(&rt, alloc, &lives, &[(Find(1), None, 10, 11)], &end, 1);
}

#[test]
fn the_clock_orders_calls_as_they_are_made(rt: HostRuntime) {
    let clock = Clock::new();
    let (first, beside) = (clock.begin(), clock.begin());
    let first = clock.end(first);
    let after = clock.end(clock.begin());
    let beside = clock.end(beside);
    let is_apart = first.ended < beside.began || beside.ended < after.began;
    let found = (first.ended < after.began, is_apart);
    same(&rt, &found, &(true, false), "before, and apart");
}
