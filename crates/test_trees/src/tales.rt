//! The judging of what threads were told, on small tales that have an order and on some that have none.

use crate::judging::same;
use Asked::{Find, Put, Remove};
use ist_core::{Pair, Reply};
use std::alloc::{AllocError, Global};
use std::process::Abort;
use test_tools::{Asked, Misfit, Order, Told, judge_moments};

// What a thread was told, in its order.
fn tale(alloc: Global, replies: &[(Asked, Reply)]) -> Result<Vec<Told>, AllocError> {
    let mut told = Vec::new(alloc);
    for (asked, reply) in replies {
        told.push(Told {
            asked: *asked,
            reply: *reply,
        })?;
    }
    Ok(told)
}

// What two threads were told.
fn told_by(
    alloc: Global,
    one: &[(Asked, Reply)],
    two: &[(Asked, Reply)],
) -> Result<Vec<Vec<Told>>, AllocError> {
    let mut threads = Vec::new(alloc);
    threads.push(tale(alloc, one)?)?;
    threads.push(tale(alloc, two)?)?;
    Ok(threads)
}

// Judges what two threads were told, in a map that had the value 100 at key 1.
fn judged(
    alloc: Global,
    one: &[(Asked, Reply)],
    two: &[(Asked, Reply)],
    closing: &[Pair],
) -> Result<(), Misfit> {
    let opening = [Pair { key: 1, value: 100 }];
    let threads = told_by(alloc, one, two)?;
    Order::of(alloc, &opening, &threads, closing)?;
    Ok(())
}

const AT_101: Pair = Pair { key: 1, value: 101 };

const AT_201: Pair = Pair { key: 1, value: 201 };

// Fails unless what two threads were told has an order, with these pairs at the close.
fn has_order(
    rt: &impl Abort,
    alloc: Global,
    one: &[(Asked, Reply)],
    two: &[(Asked, Reply)],
    closing: &[Pair],
) {
    same(rt, &judged(alloc, one, two, closing), &Ok(()), "a tale");
}

// Fails unless it has none, for this reason.
fn has_none(
    rt: &impl Abort,
    alloc: Global,
    one: &[(Asked, Reply)],
    two: &[(Asked, Reply)],
    closing: &[Pair],
    misfit: Misfit,
) {
    let found = judged(alloc, one, two, closing);
    same(rt, &found, &Err(misfit), misfit);
}

#[test]
fn tales_that_have_an_order_are_let_through(rt: HostRuntime) {
    let alloc = rt.alloc();
    let put_101 = (Put(1, 101), Some(100));
    let put_201 = (Put(1, 201), Some(101));
    let (early, between) = ((Find(1), Some(100)), (Find(1), Some(101)));
    let late = (Find(1), Some(201));
    // one after the other, and a find between, before and after
    has_order(&rt, alloc, &[put_101, between], &[put_201], &[AT_201]);
    has_order(&rt, alloc, &[put_101, late], &[put_201], &[AT_201]);
    has_order(&rt, alloc, &[put_101], &[early, put_201], &[AT_201]);
    // a life that ends, and another one
    let gone = (Remove(1), Some(100));
    let anew = (Put(1, 101), None);
    let none = (Find(1), None);
    has_order(&rt, alloc, &[gone, anew], &[none, between], &[AT_101]);
    has_order(&rt, alloc, &[gone], &[early, (Remove(1), None)], &[]);
}

#[test]
fn tales_that_have_no_order_are_refused(rt: HostRuntime) {
    let alloc = rt.alloc();
    let put_101 = (Put(1, 101), Some(100));
    let put_201 = (Put(1, 201), Some(101));
    let late = (Find(1), Some(101));
    let end = [AT_201];
    // what each thread was told, the pairs at the close, what is wrong
    let misfit = Misfit::ReplacedTwice { value: 100 };
    let other = (Put(1, 201), Some(100));
    has_none(&rt, alloc, &[put_101], &[other], &end, misfit);
    let misfit = Misfit::NotAtClose;
    has_none(&rt, alloc, &[put_101], &[put_201], &[AT_101], misfit);
    has_none(&rt, alloc, &[put_101], &[put_201], &[], misfit);
    has_none(&rt, alloc, &[], &[put_201], &end, Misfit::OutOfReach);
    let misfit = Misfit::OutOfOrder { key: 1, value: 101 };
    has_none(&rt, alloc, &[put_201, put_101], &[], &end, misfit);
    has_none(&rt, alloc, &[put_101], &[put_201, late], &end, misfit);
}

#[test]
fn tales_of_what_was_not_there_are_refused(rt: HostRuntime) {
    let alloc = rt.alloc();
    let both = [(Put(1, 101), Some(100)), (Put(1, 201), Some(101))];
    let anew = (Put(1, 101), None);
    let one = [(Remove(1), Some(100)), anew];
    let two = [(Remove(1), Some(101)), anew];
    // what each thread was told, the pairs at the close, what is wrong
    let misfit = Misfit::WrittenTwice { value: 101 };
    has_none(&rt, alloc, &one, &two, &[AT_101], misfit);
    let misfit = Misfit::NotFound { key: 1 };
    has_none(&rt, alloc, &both, &[(Find(1), None)], &[AT_201], misfit);
    let misfit = Misfit::NeverThere { key: 2, value: 101 };
    has_none(
        &rt,
        alloc,
        &both,
        &[(Find(2), Some(101))],
        &[AT_201],
        misfit,
    );
}

#[test]
fn tales_that_go_around_are_refused(rt: HostRuntime) {
    // each thread saw the other's life of key 2 before its own
    let one = [
        (Find(2), Some(202)),
        (Put(2, 102), None),
        (Remove(2), Some(102)),
    ];
    let two = [
        (Find(2), Some(102)),
        (Put(2, 202), None),
        (Remove(2), Some(202)),
    ];
    let kept = [Pair { key: 1, value: 100 }];
    same(
        &rt,
        &judged(rt.alloc(), &one, &two, &kept),
        &Err(Misfit::Around),
        "the two threads",
    );
}

// Judges two frozen trees of a map that had 100 at key 1. One thread put 101 there, and then 201 at key 2;
// the other put 301 and then 302 at key 3.
fn frozen_so(alloc: Global, one: &[Pair], two: &[Pair]) -> Result<(), Misfit> {
    let opening = [Pair { key: 1, value: 100 }];
    let first = [(Put(1, 101), Some(100)), (Put(2, 201), None)];
    let second = [(Put(3, 301), None), (Put(3, 302), Some(301))];
    let closing = [
        AT_101,
        Pair { key: 2, value: 201 },
        Pair { key: 3, value: 302 },
    ];
    let threads = told_by(alloc, &first, &second)?;
    let order = Order::of(alloc, &opening, &threads, &closing)?;
    let mut frozen = Vec::new(alloc);
    frozen.push(one.to_vec(alloc)?)?;
    frozen.push(two.to_vec(alloc)?)?;
    judge_moments(alloc, &order, &threads, &frozen)
}

// Fails unless this is the judgement of two frozen trees.
fn is_frozen(
    rt: &impl Abort,
    alloc: Global,
    one: &[Pair],
    two: &[Pair],
    wanted: Result<(), Misfit>,
) {
    same(rt, &frozen_so(alloc, one, two), &wanted, (one, two));
}

#[test]
fn frozen_trees_that_are_no_moments_are_refused(rt: HostRuntime) {
    let alloc = rt.alloc();
    let first = Pair { key: 1, value: 100 };
    let second = Pair { key: 2, value: 201 };
    let third = Pair { key: 3, value: 301 };
    let later = Pair { key: 3, value: 302 };
    let none = Pair { key: 3, value: 303 };
    // two frozen trees, what is wrong with them
    let end = [AT_101, second, later];
    is_frozen(&rt, alloc, &[first, third], &end, Ok(()));
    let torn = Err(Misfit::Torn { key: 2 });
    is_frozen(&rt, alloc, &[first], &[first, second], torn);
    let crossed = Err(Misfit::Crossed);
    is_frozen(&rt, alloc, &[first, later], &[AT_101, third], crossed);
    is_frozen(&rt, alloc, &[AT_101, third], &[first, later], crossed);
    let absent = Err(Misfit::NeverThere { key: 3, value: 303 });
    is_frozen(&rt, alloc, &[none], &[first], absent);
}
