//! A search for all keys that share the slot of a key.
ghost use Rattle.std.specs.Prelude.{◌≡◌, ℕ, ◌+◌, ◌-◌, ◌<◌, ◌≤◌, length, slice_index, Some, IfSome};
ghost use Rattle.ist_core.specs.Elements.{Among};
ghost use Rattle.ist_core.specs.RowLayout.{anchor};
ghost use Rattle.ist_core.specs.Arithmetic.{child_count};
ghost use Rattle.ist_core.specs.References.{LeafAt};
ghost use Rattle.ist_core.specs.Slots.{IsChildFor};
ghost use Rattle.ist_layout.specs.Meanings.{ref_meant};
ghost use Rattle.ist_rule.specs.Conditions.{MayWalk};
ghost use Rattle.ist_rule.specs.Learning.{now, GoesOnTo};
ghost use Rattle.ist_rule.specs.Watching.{IsNode};
ghost use Rattle.laws_histories.specs.Searching.{HasPosition};
ghost use Rattle.ist_rule.specs.Faces.{IsViewAt};
ghost use Rattle.ist_find.specs.Searches.{IsRow, SeesLeaf, HasBegunSearch, keys_at};
ghost use Rattle.ist_find.specs.Reads.{IsEnd, TellsValue};
ghost use Rattle.ist_find.specs.Looks.{LooksForAll};
ghost use Rattle.ist_find.specs.Spans.{pair_value, IsPairOf, AllCome, EndAtEdges, HasFewSpanLoads};

use crate::answers::{KeyRange, SharedSlot, Span};
use crate::children::read_child;
use crate::keys::{key_at, key_count};
use crate::reading::leaf_in;
use ist_core::Pair;
use ist_layout::{ANCHOR, LEAF_KEY_OFFSET, LEAF_VALUE_OFFSET, Ref};
use ist_rule::{TreeTable, TreeToken, know, load};

// ---- which keys share a child

// The least key from `first` on that isn't below the child's keys.
fn first_of(table: &TreeTable, token: &mut TreeToken, node: u32, index: u64, first: u64) -> u64
    requires row { IsViewAt table.now (λ v. IsRow v node) token.old.view }
    requires within { index ≤ length (keys_at token.old.view node) }
    ensures seen { GoesOnTo token.old.view token.new.view }
    ensures loads { token.new.view.loaded ≤ token.old.view.loaded + 1 }
    ensures low { first ≤ result }
    ensures above { 0 < index → slice_index (keys_at token.old.view node) (index - 1) ≤ result }
    ensures edge { first < result → Among result (keys_at token.old.view node) }
    ensures least { (key : ℕ) → first ≤ key
        → (0 < index → slice_index (keys_at token.old.view node) (index - 1) ≤ key)
        → result ≤ key }
{
    know(token);
    if index == 0 {
        return first;
    }
    let low = key_at(table, token, node, index - 1);
    if first < low { low } else { first }
}

// The greatest key up to `last` that isn't above the child's keys.
pub(crate) fn last_of(
    table: &TreeTable,
    token: &mut TreeToken,
    node: u32,
    count: u64,
    index: u64,
    key: u64,
    last: u64,
) -> u64
    requires row { IsViewAt table.now (λ v. IsRow v node) token.old.view }
    requires count { count ≡ length (keys_at token.old.view node) }
    requires within { index ≤ length (keys_at token.old.view node) }
    requires below { index < length (keys_at token.old.view node)
        → key < slice_index (keys_at token.old.view node) index }
    ensures seen { GoesOnTo token.old.view token.new.view }
    ensures loads { token.new.view.loaded ≤ token.old.view.loaded + 1 }
    ensures high { result ≤ last }
    ensures under { index < length (keys_at token.old.view node)
        → result < slice_index (keys_at token.old.view node) index }
    ensures edge { result < last → Among (result + 1) (keys_at token.old.view node) }
    ensures most { (k : ℕ) → k ≤ last
        → (index < length (keys_at token.old.view node)
        → k < slice_index (keys_at token.old.view node) index)
        → k ≤ result }
{
    know(token);
    if index == count {
        return last;
    }
    let next = key_at(table, token, node, index);
    if next <= last { next - 1 } else { last }
}

// The keys between these ends that have the same child of an inner row as `key`.
fn row_ends(
    table: &TreeTable,
    token: &mut TreeToken,
    node: u32,
    index: u64,
    key: u64,
    ends: KeyRange,
) -> KeyRange
    requires row { IsViewAt table.now (λ v. IsRow v node) token.old.view }
    requires child { index ≡ child_count (keys_at token.old.view node) key }
    requires first { ends.first ≤ key }
    requires last { key ≤ ends.last }
    ensures seen { GoesOnTo token.old.view token.new.view }
    ensures loads { token.new.view.loaded ≤ token.old.view.loaded + 3 }
    ensures low { ends.first ≤ result.first }
    ensures first { result.first ≤ key }
    ensures last { key ≤ result.last }
    ensures high { result.last ≤ ends.last }
    ensures first_edge { ends.first < result.first
        → Among result.first (keys_at token.old.view node) }
    ensures last_edge { result.last < ends.last
        → Among (result.last + 1) (keys_at token.old.view node) }
    ensures share { (k : ℕ) → result.first ≤ k → k ≤ result.last
        → child_count (keys_at token.old.view node) k ≡ index }
{
    know(token);
    let count = key_count(table, token, node);
    let first = first_of(table, token, node, index, ends.first);
    let last = last_of(table, token, node, count, index, key, ends.last);
    KeyRange { first, last }
}

// The same, also for the anchor, which has one child for all keys.
fn shared_ends(
    table: &TreeTable,
    token: &mut TreeToken,
    node: u32,
    index: u64,
    key: u64,
    ends: KeyRange,
) -> KeyRange
    requires node { IsViewAt table.now (λ v. IsNode (now v) node) token.old.view }
    requires child { IsChildFor (now token.old.view) node key index }
    requires first { ends.first ≤ key }
    requires last { key ≤ ends.last }
    requires edges { EndAtEdges (now token.old.view) ends.first ends.last }
    ensures seen { GoesOnTo token.old.view token.new.view }
    ensures loads { token.new.view.loaded ≤ token.old.view.loaded + 3 }
    ensures anchor_loads { node ≡ anchor → token.new.view.loaded ≡ token.old.view.loaded }
    ensures low { ends.first ≤ result.first }
    ensures first { result.first ≤ key }
    ensures last { key ≤ result.last }
    ensures high { result.last ≤ ends.last }
    ensures edges { EndAtEdges (now token.new.view) result.first result.last }
    ensures share { (k : ℕ) → result.first ≤ k → k ≤ result.last
        → IsChildFor (now token.old.view) node k index }
{
    know(token);
    if node == ANCHOR {
        return ends;
    }
    row_ends(table, token, node, index, key, ends)
}

// ---- a look for all of them

// Looks at the key's slot of a node that the search for each key between these ends has reached. By
// the same loads, the search for each key with this child has looked there.
fn look_for_all(
    table: &TreeTable,
    token: &mut TreeToken,
    node: u32,
    key: u64,
    ends: KeyRange,
) -> SharedSlot
    requires come { IsViewAt table.now (λ v. AllCome v ends.first ends.last node) token.old.view }
    requires top { node ≡ anchor → MayWalk token.old.view }
    requires first { ends.first ≤ key }
    requires last { key ≤ ends.last }
    requires edges { EndAtEdges (now token.old.view) ends.first ends.last }
    ensures looked { let shared = result.ends in LooksForAll token.old.view token.new.view node key
        ends.first ends.last result.index shared.first shared.last (ref_meant result.reference) }
{
    know(token);
    let look = read_child(table, token, node, key);
    let index = look.value.index;
    let shared = shared_ends(table, token, node, index, key, ends);
    SharedSlot {
        index,
        reference: look.value.reference,
        ends: shared,
    }
}

/// Returns the pair of a leaf, by a load of its key and one of its value. The pair gives its key a value,
/// and gives no other key one.
#[inline(always)]
pub fn leaf_pair(table: &TreeTable, token: &mut TreeToken, base: u32) -> Pair
    requires same_table { token.old.view.table ≡ table.now.table }
    requires leaf { SeesLeaf token.old.view base }
    ensures seen { GoesOnTo token.old.view token.new.view }
    ensures pair { IsPairOf (now token.old.view) base result }
    ensures loads { token.new.view.loaded ≡ token.old.view.loaded + 2 }
    ensures values { (k : ℕ) → TellsValue token.old.view token.new.view k (LeafAt base)
        (pair_value (Some result) k) }
{
    know(token);
    let key = load(table, token, u64::from(base) + LEAF_KEY_OFFSET);
    know(token);
    let value = load(table, token, u64::from(base) + LEAF_VALUE_OFFSET);
    Pair { key, value }
}

// The pair in the slot, if it holds a leaf.
pub(crate) fn end_pair(table: &TreeTable, token: &mut TreeToken, reference: Ref) -> Option<Pair>
    requires end { IsViewAt table.now (λ v. IsEnd v (ref_meant reference)) token.old.view }
    ensures seen { GoesOnTo token.old.view token.new.view }
    ensures loads { token.new.view.loaded ≤ token.old.view.loaded + 2 }
    ensures values { (k : ℕ) → TellsValue token.old.view token.new.view k (ref_meant reference)
        (pair_value result k) }
{
    know(token);
    match leaf_in(reference) {
        Some(base) => Some(leaf_pair(table, token, base)),
        None => None,
    }
}

// The pair, if its key lies between the ends.
pub(crate) fn pair_within(pair: Option<Pair>, ends: KeyRange) -> Option<Pair>
    ensures within { IfSome result (λ p. (ends.first ≤ p.key) × (p.key ≤ ends.last)) }
    ensures value { (k : ℕ) → ends.first ≤ k → k ≤ ends.last
        → pair_value result k ≡ pair_value pair k }
{
    match pair {
        Some(pair) => {
            if ends.first <= pair.key && pair.key <= ends.last {
                Some(pair)
            } else {
                None
            }
        }
        None => None,
    }
}

/// Goes on with a search that was begun: looks for the key from the anchor down, by loads only, and at
/// once for all keys that share the slot in which this search ends.
///
/// Returns the range of that slot and the pair in it. Each key of the range has the value that the
/// result gives it, at a position of its own since the search was begun. The range ends at keys of inner
/// rows. Never blocks. With the load by which a search begins, its bound on loads is the bound of
/// `find_from_anchor`, plus three for each row.
#[tactic(auto, using(crate::proofs::EdgeLemmas::no_edges))]
pub fn find_span(table: &TreeTable, token: &mut TreeToken, key: u64) -> Span
    requires same_table { token.old.view.table ≡ table.now.table }
    requires begun { HasBegunSearch token.old.view }
    requires may_walk { MayWalk token.old.view }
    ensures seen { GoesOnTo token.old.view token.new.view }
    ensures first { result.first ≤ key }
    ensures last { key ≤ result.last }
    ensures within { IfSome result.pair (λ p. (result.first ≤ p.key) × (p.key ≤ result.last)) }
    ensures values { let w = token.new.view in (k : ℕ) → result.first ≤ k → k ≤ result.last
        → HasPosition w.start w.words token.old.view.log w.log k (pair_value result.pair k) }
    ensures edges { EndAtEdges (now token.new.view) result.first result.last }
    ensures loads { let value = pair_value result.pair key in
        HasFewSpanLoads token.old.view token.new.view key value }
{
    know(token);
    let mut node = ANCHOR;
    let all = KeyRange {
        first: 0,
        last: u64::MAX,
    };
    let mut look = look_for_all(table, token, node, key, all);
    while let Ref::Inner { base } = look.reference {
        node = base;
        look = look_for_all(table, token, node, key, look.ends);
    }
    let pair = end_pair(table, token, look.reference);
    know(token);
    let its_pair = pair_within(pair, look.ends);
    Span {
        first: look.ends.first,
        last: look.ends.last,
        pair: its_pair,
    }
}
