//! The public calls of this crate, in terms of references.
ghost use Rattle.std.specs.Prelude.{◌≡◌, ◌≢◌, ◌+◌, ◌≤◌, ◌^◌, ℕ, List, [], take, drop, None, Some, IfOk, IfErr};
ghost use Rattle.ist_core.specs.Leaves.{PlacedLeaf, HasLeaves};
ghost use Rattle.ist_core.specs.References.{InnerAt, IsGoodRef, ref_of};
ghost use Rattle.ist_core.specs.Shapes.{shape};
ghost use Rattle.ist_layout.specs.Meanings.{ref_meant};
ghost use Rattle.ist_rule.specs.Faces.{word_count_of};
ghost use Rattle.ist_rule.specs.Going.{WentOn, KeepsWords};
ghost use Rattle.ist_rule.specs.Learning.{now, GoesOnTo};
ghost use Rattle.ist_rows.specs.Shortage.{RanShort};
ghost use Rattle.ist_rows.specs.Rows.{IsCaller, IsAtTable, spares_of};
ghost use Rattle.ist_rows.specs.Building.{HasRefused, IsInBuild, sizes_built};
ghost use Rattle.ist_rows.specs.Taken.{HasTakenFewIn};
ghost use Rattle.ist_build.specs.Laying.{IsForNode};
ghost use Rattle.ist_build.specs.Calls.{HasKeys, MayBuild, IsBuildable, IsTold, IsPartLaid, IsLeafAmong};
ghost use Rattle.ist_build.specs.Calls.{parts_words, root_words};
ghost use Rattle.ist_build.specs.Calls.{Builds, HasRootAs, IsRooted, IsBuiltOut, RebuildIsShort};

use crate::descent::leaf_base;
use crate::filling::fill_root;
use crate::parts::build_share;
use crate::root::place_root;
use ist_core::Full;
use ist_layout::Ref;
use ist_rows::Caller;
use ist_rule::{TreeTable, TreeToken, know};

// Returns the reference that the word encodes.
fn named(word: u64) -> Ref
    requires named { ref_of word ≢ None }
    ensures value { ref_of word ≡ Some (ref_meant result) }
    ensures good { IsGoodRef (ref_meant result) }
{
    match Ref::from_word(word) {
        Some(reference) => reference,
        None => Ref::Empty,
    }
}

/// Returns the leaf of the key number `i` of a finished target, counted from 0 in the order of the
/// keys.
///
/// Leaves are shared by the old subtree and the new one. The search goes down by the finished counts,
/// and skips what lies before the leaf.
pub fn leaf_at(table: &TreeTable, token: &mut TreeToken, target: u32, i: u64) -> Ref
    requires same_table { token.old.view.table ≡ table.now.table }
    requires finished { HasKeys (now token.old.view) target (i + 1) }
    ensures seen { GoesOnTo token.old.view token.new.view }
    ensures leaf { (leaves : List PlacedLeaf)
        → HasLeaves (now token.old.view).pieces (Some (InnerAt target)) leaves
        → IsLeafAmong leaves i (ref_meant result) }
    ensures good { IsGoodRef (ref_meant result) }
{
    leaf_and_loads(table, token, target, i).0
}

/// Returns the same leaf as `leaf_at`, and how many words were loaded on the way to it.
///
/// A row on the way costs one load, and at most four for each slot up to the one that is entered:
/// its word, what a change in it would take out, the target of a rebuild, and a finished count.
pub fn leaf_and_loads(table: &TreeTable, token: &mut TreeToken, target: u32, i: u64) -> (Ref, u64)
    requires same_table { token.old.view.table ≡ table.now.table }
    requires finished { HasKeys (now token.old.view) target (i + 1) }
    ensures seen { GoesOnTo token.old.view token.new.view }
    ensures leaf { (leaves : List PlacedLeaf)
        → HasLeaves (now token.old.view).pieces (Some (InnerAt target)) leaves
        → IsLeafAmong leaves i (ref_meant result.0) }
    ensures good { IsGoodRef (ref_meant result.0) }
    ensures counted { token.new.view.loaded ≡ token.old.view.loaded + result.1 }
    ensures fits { result.1 ≤ 2 ^ 59 }
{
    know(token);
    let reached = leaf_base(table, token, target, i);
    know(token);
    (Ref::Leaf { base: reached.base }, reached.loads)
}

/// Builds the ideal subtree over the leaves number `start` to `start + len - 1` of a finished target,
/// and returns it: Empty for no key, and the leaf for one.
///
/// Its inner rows are the caller's own, and lie above each row that was published before. Returns
/// `Full` if a load of the first word in this call left too few words for the next row, a row over
/// no more than `len` keys; the rows of the build then stay held, and the next build reserves new
/// ones. Never allocates, always returns.
pub fn build_part(
    table: &TreeTable,
    who: &mut Caller,
    target: u32,
    start: u64,
    len: u64,
) -> Result<Ref, Full>
    requires caller { IsAtTable table.now IsCaller who.old }
    requires refused { HasRefused who.old }
    requires share { MayBuild (now who.old.token.view) target start len }
    ensures caller { IsCaller who.new }
    ensures number { who.new.number ≡ who.old.number }
    ensures rows { spares_of who.new ≡ spares_of who.old }
    ensures went { WentOn Builds who.old.token.view who.new.token.view }
    ensures words { KeepsWords who.old.token.view who.new.token.view }
    ensures laid { IfOk result (λ part. (all : List PlacedLeaf)
        → HasLeaves (now who.old.token.view).pieces (Some (InnerAt target)) all
        → IsPartLaid who.old who.new (ref_meant part) (take len (drop start all))) }
    ensures good { IfOk result (λ part. IsGoodRef (ref_meant part)) }
    ensures held { IfOk result (λ part. 2 ≤ len
        → IsInBuild who.new (sizes_built who.old) (shape len) []) }
    ensures full { IfErr result (λ full. RanShort (WentOn Builds) (IsForNode len)
        who.old.token.view (word_count_of table.now) full who.new.token.view) }
    ensures refused { IfErr result (λ full. HasRefused who.new) }
{
    know(&who.token);
    let word = build_share(table, who, target, start, len)?;
    Ok(named(word))
}

/// Gives a started rebuild with a finished target its root, and returns the root.
///
/// Below `SHARE_FROM` keys the root is the whole ideal subtree over the leaves of the target. From
/// `SHARE_FROM` keys on it is only the top row, with every slot Unset. If another caller's root was
/// first, that root is returned, and what this caller built is lost. Returns `Full` if a load of the
/// first word in this call left too few words for a row of the build; its rows stay held. Never
/// allocates, always returns.
pub fn set_root(table: &TreeTable, who: &mut Caller, rebuild: u32) -> Result<Ref, Full>
    requires caller { IsAtTable table.now IsCaller who.old }
    requires refused { HasRefused who.old }
    requires buildable { IsBuildable (now who.old.token.view) rebuild }
    ensures caller { IsCaller who.new }
    ensures number { who.new.number ≡ who.old.number }
    ensures rows { spares_of who.new ≡ spares_of who.old }
    ensures went { WentOn Builds who.old.token.view who.new.token.view }
    ensures words { KeepsWords who.old.token.view who.new.token.view }
    ensures root { IfOk result (λ root.
        HasRootAs (now who.new.token.view) rebuild (ref_meant root)) }
    ensures few { (k : ℕ) → IsTold (now who.old.token.view) rebuild k
        → HasTakenFewIn result (root_words k) 0 who.old who.new }
    ensures full { IfErr result (λ full.
        RebuildIsShort who.old.token.view rebuild (word_count_of table.now) full who.new.token.view) }
    ensures refused { HasRefused who.new }
{
    know(&who.token);
    let word = place_root(table, who, rebuild)?;
    know(&who.token);
    Ok(named(word))
}

/// Fills the root of a rebuild: afterwards no slot of it is Unset.
///
/// If the target has fewer than `SHARE_FROM` keys, that already holds. Otherwise the caller draws parts
/// and fills them while there are parts to draw; others may do so at the same time. Then it fills each
/// slot that is still Unset, so that it waits for nobody. Returns `Full` if a load of the first word in
/// this call left too few words for a row of a part; the rows of that build stay held. Never allocates,
/// always returns.
pub fn fill_parts(table: &TreeTable, who: &mut Caller, rebuild: u32) -> Result<(), Full>
    requires caller { IsAtTable table.now IsCaller who.old }
    requires refused { HasRefused who.old }
    requires buildable { IsBuildable (now who.old.token.view) rebuild }
    requires rooted { IsRooted (now who.old.token.view) rebuild }
    ensures caller { IsCaller who.new }
    ensures number { who.new.number ≡ who.old.number }
    ensures rows { spares_of who.new ≡ spares_of who.old }
    ensures went { WentOn Builds who.old.token.view who.new.token.view }
    ensures words { KeepsWords who.old.token.view who.new.token.view }
    ensures filled { IfOk result (λ done. IsBuiltOut (now who.new.token.view) rebuild) }
    ensures few { (k : ℕ) → IsTold (now who.old.token.view) rebuild k
        → HasTakenFewIn result (parts_words k) 0 who.old who.new }
    ensures full { IfErr result (λ full.
        RebuildIsShort who.old.token.view rebuild (word_count_of table.now) full who.new.token.view) }
    ensures refused { HasRefused who.new }
{
    know(&who.token);
    fill_root(table, who, rebuild)
}
