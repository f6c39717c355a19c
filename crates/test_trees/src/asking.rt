//! What the tests ask of a tree.
ghost use Rattle.std.specs.Prelude.{◌≡◌};

use ist_core::{Full, Reply};
use ist_tree::{Pass, Tree};
use test_tools::Asked;

/// What the tree finds at the key by the pass.
pub(crate) fn find(tree: &Tree, pass: &mut Pass, key: u64) -> Reply
    requires same_tree { pass.old.tree ≡ tree.now }
    ensures same_tree { pass.new.tree ≡ tree.now }
{
    tree.find(pass, key)
}

/// The same, once another pass has told it what it knows.
pub(crate) fn find_when_told(tree: &Tree, teller: &mut Pass, told: &mut Pass, key: u64) -> Reply
    requires teller_tree { teller.old.tree ≡ tree.now }
    requires told_tree { told.old.tree ≡ tree.now }
    ensures teller_tree { teller.new.tree ≡ tree.now }
    ensures told_tree { told.new.tree ≡ tree.now }
{
    let note = tree.note(teller);
    tree.meet(told, note);
    find(tree, told, key)
}

/// Asks the tree by the pass.
pub(crate) fn ask(tree: &Tree, pass: &mut Pass, asked: Asked) -> Result<Reply, Full>
    requires same_tree { pass.old.tree ≡ tree.now }
    ensures same_tree { pass.new.tree ≡ tree.now }
{
    match asked {
        Asked::Put(key, value) => tree.put(pass, key, value),
        Asked::Remove(key) => tree.remove(pass, key),
        Asked::Find(key) => Ok(find(tree, pass, key)),
    }
}

/// Asks the tree each of these in turn, and gives the first that was answered otherwise than it is to be.
pub(crate) fn ask_each(
    tree: &Tree,
    pass: &mut Pass,
    cases: &[(Asked, Result<Reply, Full>)],
) -> Option<usize>
    requires same_tree { pass.old.tree ≡ tree.now }
    ensures same_tree { pass.new.tree ≡ tree.now }
{
    let mut wrong = None;
    for (i, (asked, answer)) in cases.iter().enumerate() {
        let told = ask(tree, pass, *asked);
        if told != *answer && wrong.is_none() {
            wrong = Some(i);
        }
    }
    wrong
}
