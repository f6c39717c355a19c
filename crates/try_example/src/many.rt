//! Workers whose number is known only when the program runs.
ghost use Rattle.std.specs.Prelude.{◌≡◌, ◌≢◌, All, length, IfOk, IfErr, OnErr};
ghost use Rattle.ist_tree.specs.Closing.{ClosesWith};

use ist_rest::Closed;
use ist_tree::{Holds, Maker, OpenFault, Pass, Tree, take_all_back};
use std::alloc::{AllocError, Global};
use std::thread;
use std::thread::Threads;

/// How many words of 8 bytes the tree has.
const WORDS: u32 = 100_000;

// A worker: its pass, and the key that it puts.
#[derive(Drop)]
struct Worker {
    pass: Pass,
    key: u64,
}

impl Worker {
    // Puts its key, unless too few words are left.
    fn work(&mut self, tree: &Tree)
        requires same_tree { self.old.pass.tree ≡ tree.now }
        ensures same_tree { self.new.pass.tree ≡ tree.now }
    {
        let _ = tree.put(&mut self.pass, self.key, self.key);
    }
}

// Once it worked, its pass goes back to the maker.
impl Holds<Worker> for Worker {
    ghost pass = { λ w. w.pass };

    fn into_pass(holder: Worker) -> Pass {
        let Worker { pass, .. } = holder;
        pass
    }
}

// Makes workers until the maker has made this many passes.
fn make_workers(
    alloc: Global,
    tree: &Tree,
    maker: &mut Maker,
    count: u32,
) -> Result<Vec<Worker>, AllocError>
    requires same_tree { maker.old.tree ≡ tree.now }
    ensures same_tree { maker.new.tree ≡ tree.now }
    ensures trees { IfOk result (λ v. All (λ w. w.pass.tree ≡ tree.now) v.items) }
{
    let mut workers = Vec::new(alloc);
    while maker.made() < u64::from(count) {
        let key = maker.made();
        let pass = tree.pass(maker);
        workers.push(Worker { pass, key })?;
    }
    Ok(workers)
}

// Lets each worker put its key, on its own thread if one can be started.
fn work_all<R: Threads + Sync>(rt: &R, tree: &Tree, workers: &mut [Worker])
    requires trees { All (λ w. w.pass.tree ≡ tree.now) workers.old }
    ensures trees { All (λ w. w.pass.tree ≡ tree.now) workers.new }
{
    if !workers.is_empty() {
        let count = workers.len();
        thread::for_each_mut(rt, workers, count, &|_, worker| worker.work(tree));
    }
}

// Makes workers, lets them work, and takes their passes back.
fn put_all<R: Threads + Sync>(
    rt: &R,
    alloc: Global,
    tree: &Tree,
    maker: &mut Maker,
    count: u32,
) -> Result<(), AllocError>
    requires same_tree { maker.old.tree ≡ tree.now }
    ensures same_tree { maker.new.tree ≡ tree.now }
{
    let mut workers = make_workers(alloc, tree, maker, count)?;
    work_all(rt, tree, workers.as_mut_slice());
    take_all_back::<Worker, Worker>(tree, maker, workers);
    Ok(())
}

/// Closes the tree if its maker took back all passes that it made, however many these are.
/// Otherwise a pass is still out, and both are returned as they were.
pub fn close_if_back(tree: Tree, maker: Maker) -> Result<Closed, (Tree, Maker)>
    requires same_tree { maker.tree ≡ tree }
    ensures closed { IfOk result (ClosesWith maker) }
    ensures kept { IfErr result (λ both. (both.0 ≡ tree) × (both.1 ≡ maker)) }
    ensures out { OnErr result (length maker.taken ≢ maker.made) }
{
    if maker.taken_back() == maker.made() {
        Ok(tree.close(maker))
    } else {
        Err((tree, maker))
    }
}

/// Each of `count` workers puts a key of its own into one new tree, which is then closed. Returns
/// how many keys it has.
///
/// The number of workers is known only when the program runs, and nothing is proved of it: the
/// maker is asked whether each pass is back. `None` if one isn't, which happens only if memory ran
/// out.
pub fn put_by_many<R: Threads + Sync>(
    rt: &R,
    alloc: Global,
    count: u32,
) -> Result<Option<u64>, OpenFault> {
    let (tree, mut maker) = Tree::open(alloc, WORDS, &[])?;
    let _ = put_all(rt, alloc, &tree, &mut maker, count);
    match close_if_back(tree, maker) {
        Ok(closed) => Ok(Some(closed.pairs(alloc)?.len() as u64)),
        Err(_) => Ok(None),
    }
}
