//! Passing the slots of a node that isn't open, after helping the changes in them.
ghost use Rattle.std.specs.Prelude.{◌≡◌, ℕ, ◌<◌, Some};
ghost use Rattle.ist_core.specs.References.{ref_of, ChangeAt};
ghost use Rattle.ist_core.specs.Marking.{IsFrozen};
ghost use Rattle.ist_dcss.specs.Reading.{IsNoChange};
ghost use Rattle.ist_rule.specs.Faces.{IsViewAt};
ghost use Rattle.ist_mark.specs.Passing.{HasMarked, MayPass, IsMetAt, PassedWith};

use crate::below::PassedChild;
use ist_dcss::{change_in, help, target_of};
use ist_layout::{Ref, slot_place};
use ist_rule::{TreeTable, TreeToken, know, load_pass};

// Loads a slot of the node and returns its word. The slot is then passed, unless the word is a
// change's.
fn look(table: &TreeTable, token: &mut TreeToken, node: u32, degree: u64, index: u64) -> u64
    requires may_pass { IsViewAt table.now (λ v. MayPass v node degree) token.old.view }
    requires within { index < degree }
    ensures marked { HasMarked node token.old token.new }
    ensures change { (change : ℕ) → ref_of result ≡ Some (ChangeAt change)
        → IsMetAt token.new.view node change }
    ensures frozen { IsNoChange result → IsFrozen token.new.view.log node index result }
{
    know(token);
    let place = slot_place(node, degree, index);
    // Pass, if the node is marked and the word isn't a change's: else a load. Meets an install in the
    // slot, and another's finish of the node.
    load_pass(table, token, node, index, place)
}

// Passes a slot of the node, and returns its word. Helps each change that it meets there. Helping
// resolves the change, so that there are few.
fn pass(table: &TreeTable, token: &mut TreeToken, node: u32, degree: u64, index: u64) -> u64
    requires may_pass { IsViewAt table.now (λ v. MayPass v node degree) token.old.view }
    requires within { index < degree }
    ensures marked { HasMarked node token.old token.new }
    ensures frozen { IsFrozen token.new.view.log node index result }
{
    know(token);
    'turns: loop {
        let word = look(table, token, node, degree, index);
        match change_in(word) {
            Some(change) => help(table, token, change),
            None => return word,
        };
    }
}

/// Passes a slot of the node, and returns what hangs below it.
pub(crate) fn pass_slot(
    table: &TreeTable,
    token: &mut TreeToken,
    node: u32,
    degree: u64,
    index: u64,
) -> PassedChild
    requires may_pass { IsViewAt table.now (λ v. MayPass v node degree) token.old.view }
    requires within { index < degree }
    ensures marked { HasMarked node token.old token.new }
    ensures passed { PassedWith token.new.view node index result }
{
    let word = pass(table, token, node, degree, index);
    know(token);
    match Ref::from_word(word) {
        Some(Ref::Inner { base }) => PassedChild::Node(base),
        Some(Ref::Rebuild { base }) => PassedChild::Node(target_of(table, token, base)),
        Some(Ref::Leaf { base: _ }) => PassedChild::Keys(1),
        Some(Ref::Empty) => PassedChild::Keys(0),
        Some(Ref::Unset) => unreachable!(),
        Some(Ref::Change { base: _ }) => unreachable!(),
        None => unreachable!(),
    }
}
