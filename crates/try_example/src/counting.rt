//! A counter that two threads raise by conditional puts.
ghost use Rattle.std.specs.Prelude.{◌≡◌, IfOk, IfSome, None, OnErr};
ghost use Rattle.try_example.specs.Raises.{HasOnlyGot, HasRaised, counter_number};

use crate::exchange::Fault;
use ist_core::{Full, Reply};
use ist_tree::{Pass, Tree};
use std::alloc::Global;
use std::thread::{Threads, join};

/// How many words of 8 bytes the tree has.
const WORDS: u32 = 100_000;

/// How often a raise is tried before it is given up.
const TRIES: u64 = 1_000_000;

// The number of a counter: one that was never raised has none, which counts as 0.
fn number_of(counter: Reply) -> u64
    ensures value { result ≡ counter_number counter }
{
    match counter {
        Some(number) => number,
        None => 0,
    }
}

/// Raises the counter at the key by one, and returns the number that it had.
///
/// It finds the counter, and puts one more if it still has that number. If it has another one by then, the
/// conditional put finds that one, and is tried again from there. `None` if others were faster in each of
/// `tries` attempts, or no greater number is left: the pass only got the counter then, as with `Full`.
pub fn raise(tree: &Tree, pass: &mut Pass, key: u64, tries: u64) -> Result<Option<u64>, Full>
    requires same_tree { pass.old.tree ≡ tree.now }
    ensures same_tree { pass.new.tree ≡ tree.now }
    ensures raised { IfOk result (λ o. IfSome o (λ before.
        HasRaised pass.old pass.new key before)) }
    ensures given_up { IfOk result (λ o. o ≡ None → HasOnlyGot pass.old pass.new key) }
    ensures full { OnErr result (HasOnlyGot pass.old pass.new key) }
{
    let mut counter = tree.find(pass, key);
    for _ in 0..tries {
        let before = number_of(counter);
        let Some(more) = before.checked_add(1) else {
            return Ok(None);
        };
        let had = tree.put_if(pass, key, counter, more)?;
        if had == counter {
            return Ok(Some(before));
        }
        counter = had;
    }
    Ok(None)
}

// A pass, and how often it raised the counter.
#[derive(Drop)]
struct Raised {
    pass: Pass,
    raises: u64,
}

// Raises the counter this many times, or fewer if a raise is given up or refused.
fn raise_often(tree: &Tree, pass: Pass, key: u64, times: u64) -> Raised
    requires same_tree { pass.tree ≡ tree.now }
    ensures same_tree { result.pass.tree ≡ tree.now }
{
    let mut pass = pass;
    let mut raises: u64 = 0;
    for _ in 0..times {
        if let Ok(Some(_)) = raise(tree, &mut pass, key, TRIES) {
            raises = raises.wrapping_add(1);
        }
    }
    Raised { pass, raises }
}

/// What two threads made of a counter.
#[derive(Clone, Copy, Debug, Drop)]
pub struct Count {
    /// How often both raised it.
    pub raises: u64,
    /// The number that it has at the end.
    pub number: Reply,
}

/// Each of two threads raises the counter at the key this many times, in one new tree.
pub fn count_in_two<R: Threads + Sync>(
    rt: &R,
    alloc: Global,
    key: u64,
    times: u64,
) -> Result<Count, Fault> {
    let (tree, mut maker) = Tree::open(alloc, WORDS, &[])?;
    let one = tree.pass(&mut maker);
    let two = tree.pass(&mut maker);
    let (one, two) = join(
        rt,
        ||
            requires same_tree { one.tree ≡ tree }
        { raise_often(&tree, one, key, times) },
        ||
            requires same_tree { two.tree ≡ tree }
        { raise_often(&tree, two, key, times) },
    );
    let raises = one.raises.wrapping_add(two.raises);
    tree.take_back(&mut maker, one.pass);
    tree.take_back(&mut maker, two.pass);
    let mut last = tree.pass(&mut maker);
    let number = tree.find(&mut last, key);
    Ok(Count { raises, number })
}
