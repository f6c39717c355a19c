//! The shapes of ideal trees, and the building lists of a state.
ghost use Rattle.std.specs.Prelude.{◌≡◌, ◌↔◌, ◌<◌, ◌^◌, ◌++◌, ◌∷◌, [], IsTrue, map, OnOk};
ghost use Rattle.ist_core.specs.RowLayout.{inner_words};
ghost use Rattle.ist_core.specs.Shapes.{shape};
ghost use Rattle.ist_core.specs.Elements.{Among};
ghost use Rattle.check_fairness.specs.Builds.{AddsList, AddsLists, HasShapes};

use crate::readings::are_same;
use crate::shares::{degree_of, part_len_of};
use ist_math::SHARE_FROM;
use std::alloc::{AllocError, Global};
use std::collections::BTreeSet;

/// Adds the building lists of a rebuild whose target is finished with `k` keys. Of the parts of a
/// shared root the first and the last are enough, since the parts have at most two lengths.
pub(crate) fn add_lists(
    alloc: Global,
    k: u64,
    shapes: &mut BTreeSet<u64>,
    lists: &mut Vec<Vec<u64>>,
) -> Result<(), AllocError>
    ensures added { let old = map (λ v. v.items) lists.old.items in
        let new = map (λ v. v.items) lists.new.items in
        OnOk result (HasShapes shapes.old old → (AddsLists old new k × HasShapes shapes.new new)) }
{
    if k < 2 {
        return Ok(());
    }
    if k < SHARE_FROM {
        return add_shape_alone(alloc, k, shapes, lists);
    }
    let children = degree_of(k);
    add_top(alloc, children, lists)?;
    add_shape_alone(alloc, part_len_of(k, 0), shapes, lists)?;
    add_shape_alone(alloc, part_len_of(k, children - 1), shapes, lists)
}

/// Adds the length of a shared root with `children` children as a list of its own.
fn add_top(alloc: Global, children: u64, lists: &mut Vec<Vec<u64>>) -> Result<(), AllocError>
    requires fits { children < 2 ^ 33 }
    ensures added { OnOk result (AddsList (map (λ v. v.items) lists.old.items)
        (map (λ v. v.items) lists.new.items) (inner_words children ∷ [])) }
{
    let mut top = Vec::new(alloc);
    top.push(2 * children + 3)?;
    add_list(top, lists)
}

/// Adds the shape of an ideal tree of `n` keys as a list of its own, unless it is known to be there.
fn add_shape_alone(
    alloc: Global,
    n: u64,
    shapes: &mut BTreeSet<u64>,
    lists: &mut Vec<Vec<u64>>,
) -> Result<(), AllocError>
    ensures added { let old = map (λ v. v.items) lists.old.items in
        let new = map (λ v. v.items) lists.new.items in
        OnOk result (HasShapes shapes.old old → (AddsList old new (shape n) × HasShapes shapes.new new)) }
{
    if shapes.contains(&n) {
        return Ok(());
    }
    shapes.insert(n)?;
    make_shape(alloc, n, lists)
}

/// Adds the shape of an ideal tree of `n` keys as a list of its own.
fn make_shape(alloc: Global, n: u64, lists: &mut Vec<Vec<u64>>) -> Result<(), AllocError>
    ensures added { OnOk result (AddsList (map (λ v. v.items) lists.old.items)
        (map (λ v. v.items) lists.new.items) (shape n)) }
{
    let mut sizes = Vec::new(alloc);
    add_shape(n, &mut sizes)?;
    add_list(sizes, lists)
}

/// Adds the list, unless it is one of them.
fn add_list(sizes: Vec<u64>, lists: &mut Vec<Vec<u64>>) -> Result<(), AllocError>
    ensures added { OnOk result (AddsList (map (λ v. v.items) lists.old.items)
        (map (λ v. v.items) lists.new.items) sizes.items) }
{
    if is_listed(lists.as_slice(), sizes.as_slice()) {
        return Ok(());
    }
    lists.push(sizes)?;
    Ok(())
}

/// Returns whether the list is one of these.
pub fn is_listed(lists: &[Vec<u64>], sizes: &[u64]) -> bool
    ensures exact { IsTrue result ↔ Among sizes.now (map (λ v. v.items) lists.now) }
{
    for list in lists {
        if are_same(sizes, list.as_slice()) {
            return true;
        }
    }
    false
}

/// Appends the lengths of the inner rows of an ideal tree of `n` keys: a node's own, then those of
/// each part.
fn add_shape(n: u64, out: &mut Vec<u64>) -> Result<(), AllocError>
    ensures added { OnOk result (out.new.items ≡ out.old.items ++ shape n) }
{
    if n < 2 {
        return Ok(());
    }
    let children = degree_of(n);
    out.push(2 * children + 3)?;
    for j in 0..children {
        add_shape(part_len_of(n, j), out)?;
    }
    Ok(())
}
