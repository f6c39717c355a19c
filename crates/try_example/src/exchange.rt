//! Two passes on one tree, each in a thread of its own, that tell each other what they did.
ghost use Rattle.std.specs.Prelude.{◌≡◌, ◌≢◌, [], Some, IfOk};
ghost use Rattle.try_example.specs.Turns.{HasPut, HasFoundNext};
ghost use Rattle.ist_tree.specs.Faces.{noted};

use ist_core::{Full, Pair, Reply};
use ist_tree::{Note, OpenFault, Pass, Tree};
use std::alloc::Global;
use std::thread::{Threads, join};

/// How many words of 8 bytes the tree has.
const WORDS: u32 = 1000;

/// Why no exchange came about.
#[derive(Debug, Drop)]
pub enum Fault {
    /// The tree wasn't opened.
    Open(OpenFault),
    /// The tree had too few words left for a put.
    Full(Full),
}

impl From<OpenFault> for Fault {
    fn from(fault: OpenFault) -> Fault {
        Fault::Open(fault)
    }
}

impl From<Full> for Fault {
    fn from(full: Full) -> Fault {
        Fault::Full(full)
    }
}

/// What each thread found at the key of the other.
#[derive(Clone, Copy, Debug, Drop)]
pub struct Told {
    /// What the left thread found at the right key.
    pub left: Reply,
    /// What the right thread found at the left key.
    pub right: Reply,
}

// A pass, and what it found.
#[derive(Drop)]
struct Found {
    pass: Pass,
    reply: Reply,
}

// Puts the pair, as the first call of the pass.
fn put_own(tree: &Tree, pass: Pass, pair: Pair) -> Result<Pass, Full>
    requires same_tree { pass.tree ≡ tree.now }
    requires no_calls { pass.calls ≡ [] }
    ensures put { IfOk result (HasPut pass pair) }
{
    let mut pass = pass;
    tree.put(&mut pass, pair.key, pair.value)?;
    Ok(pass)
}

// Learns what the note says, and finds the key.
fn find_told(tree: &Tree, pass: Pass, note: Note, key: u64) -> Found
    requires same_tree { pass.tree ≡ tree.now }
    requires its_tree { note.tree ≡ tree.now }
    ensures found { HasFoundNext pass note key result.reply result.pass }
{
    let mut pass = pass;
    tree.meet(&mut pass, note);
    let reply = tree.find(&mut pass, key);
    Found { pass, reply }
}

// Both put their pairs, side by side.
fn put_both<R: Threads + Sync>(
    rt: &R,
    tree: &Tree,
    one: Pass,
    two: Pass,
    left: Pair,
    right: Pair,
) -> Result<(Pass, Pass), Full>
    requires same_tree { (one.tree ≡ tree.now) × (two.tree ≡ tree.now) }
    requires no_calls { (one.calls ≡ []) × (two.calls ≡ []) }
    ensures left { IfOk result (λ r. HasPut one left r.0) }
    ensures right { IfOk result (λ r. HasPut two right r.1) }
{
    let (one, two) = join(
        rt,
        ||
            requires same_tree { one.tree ≡ tree.now }
            requires no_calls { one.calls ≡ [] }
        { put_own(tree, one, left) },
        ||
            requires same_tree { two.tree ≡ tree.now }
            requires no_calls { two.calls ≡ [] }
        { put_own(tree, two, right) },
    );
    Ok((one?, two?))
}

// Each meets a note of the other, and finds a key, side by side.
fn find_both<R: Threads + Sync>(
    rt: &R,
    tree: &Tree,
    one: Pass,
    two: Pass,
    left: u64,
    right: u64,
) -> (Found, Found)
    requires same_tree { (one.tree ≡ tree.now) × (two.tree ≡ tree.now) }
    ensures left { HasFoundNext one (noted two) left result.0.reply result.0.pass }
    ensures right { HasFoundNext two (noted one) right result.1.reply result.1.pass }
{
    let (mut one, mut two) = (one, two);
    let from_one = tree.note(&mut one);
    let from_two = tree.note(&mut two);
    join(
        rt,
        ||
            requires same_tree { one.tree ≡ tree.now }
            requires its_tree { from_two.tree ≡ tree.now }
        { find_told(tree, one, from_two, left) },
        ||
            requires same_tree { two.tree ≡ tree.now }
            requires its_tree { from_one.tree ≡ tree.now }
        { find_told(tree, two, from_one, right) },
    )
}

/// Each of two threads puts its pair into one new tree; then each meets a note of the other, and
/// finds the other's key.
///
/// Each finds what the other put, in whatever order their steps come: a call after a note comes
/// after all that the note tells of. `Open` if the tree couldn't be opened since memory ran out;
/// `Full` if it had too few words for a put.
pub fn exchange<R: Threads + Sync>(
    rt: &R,
    alloc: Global,
    left: Pair,
    right: Pair,
) -> Result<Told, Fault>
    requires apart { left.key ≢ right.key }
    ensures found { IfOk result (λ told.
        (told.left ≡ Some right.value) × (told.right ≡ Some left.value)) }
{
    let (tree, mut maker) = Tree::open(alloc, WORDS, &[])?;
    let one = tree.pass(&mut maker);
    let two = tree.pass(&mut maker);
    let (one, two) = put_both(rt, &tree, one, two, left, right)?;
    let (one, two) = find_both(rt, &tree, one, two, right.key, left.key);
    let told = Told {
        left: one.reply,
        right: two.reply,
    };
    tree.take_back(&mut maker, one.pass);
    tree.take_back(&mut maker, two.pass);
    tree.close(maker);
    Ok(told)
}
