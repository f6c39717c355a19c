//! The way down to one leaf of a finished target.
ghost use Rattle.std.specs.Prelude.{◌≡◌, ◌+◌, ◌*◌, ◌-◌, ◌^◌, ◌≤◌, List, [], ◌∷◌, map, take, drop, Some};
ghost use Rattle.ist_core.specs.Leaves.{PlacedLeaf, HasLeaves};
ghost use Rattle.ist_core.specs.References.{InnerAt};
ghost use Rattle.ist_core.specs.RowLayout.{place_limit};
ghost use Rattle.ist_rule.specs.Learning.{now, GoesOnTo};
ghost use Rattle.ist_build.specs.Calls.{HasKeys};
ghost use Rattle.ist_rule.specs.Faces.{IsViewAt};
ghost use Rattle.ist_build.specs.Reading.{HasReadOne};

use crate::below::FinishedChild;
use crate::reading::{degree_of, look_below};
use ist_rule::{TreeTable, TreeToken, know};

// A leaf, and how many words were loaded on the way to it.
#[derive(Clone, Copy, Drop)]
pub(crate) struct Reached {
    pub(crate) base: u32,
    pub(crate) loads: u64,
}

// Goes down to the leaf number `i` below a finished node: skips what lies before it by the finished
// counts, and enters one child per row.
fn go_down(table: &TreeTable, token: &mut TreeToken, node: u32, i: u64) -> Reached
    requires finished { IsViewAt table.now (λ v. HasKeys (now v) node (i + 1)) token.old.view }
    ensures seen { GoesOnTo token.old.view token.new.view }
    ensures read { (leaves : List PlacedLeaf)
        → HasLeaves (now token.old.view).pieces (Some (InnerAt node)) leaves
        → HasReadOne i leaves result.base }
    ensures counted { token.new.view.loaded ≡ token.old.view.loaded + result.loads }
    ensures fits { result.loads ≤ (place_limit - node) * 2 ^ 31 }
{
    know(token);
    let degree = degree_of(table, token, node);
    let mut skip = i;
    let mut loads = 1;
    for index in 0..degree {
        let below = look_below(table, token, node, degree, index);
        loads += below.1;
        match below.0 {
            FinishedChild::Nothing => {}
            FinishedChild::Leaf { base } => {
                if skip == 0 {
                    return Reached { base, loads };
                }
                skip -= 1;
            }
            FinishedChild::Row { base, keys } => {
                if skip < keys {
                    let reached = go_down(table, token, base, skip);
                    return Reached {
                        base: reached.base,
                        loads: loads + reached.loads,
                    };
                }
                skip -= keys;
            }
        }
    }
    unreachable!()
}

/// Returns the leaf of the key number `i` of a finished target, counted from 0, and how many loads
/// it took.
pub(crate) fn leaf_base(table: &TreeTable, token: &mut TreeToken, target: u32, i: u64) -> Reached
    requires finished { IsViewAt table.now (λ v. HasKeys (now v) target (i + 1)) token.old.view }
    ensures seen { GoesOnTo token.old.view token.new.view }
    ensures leaf { (leaves : List PlacedLeaf)
        → HasLeaves (now token.old.view).pieces (Some (InnerAt target)) leaves
        → map (λ leaf. leaf.base) (take 1 (drop i leaves)) ≡ result.base ∷ [] }
    ensures counted { token.new.view.loaded ≡ token.old.view.loaded + result.loads }
    ensures fits { result.loads ≤ 2 ^ 59 }
{
    know(token);
    go_down(table, token, target, i)
}
