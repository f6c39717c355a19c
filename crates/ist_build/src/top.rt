//! Building only the top row of the ideal tree over the leaves of a finished target.
ghost use Rattle.std.specs.Prelude.{◌≡◌, ◌+◌, ◌<◌, ◌≤◌, List, [], ◌∷◌, ◌++◌, drop, Some, IfOk, IfErr};
ghost use Rattle.ist_core.specs.Arithmetic.{degree as degree_of};
ghost use Rattle.ist_core.specs.Leaves.{PlacedLeaf, HasLeaves};
ghost use Rattle.ist_core.specs.References.{InnerAt};
ghost use Rattle.ist_core.specs.RowLayout.{inner_words, place_limit};
ghost use Rattle.ist_core.specs.Shapes.{share_from};
ghost use Rattle.ist_rule.specs.Faces.{word_count_of, IsViewAt};
ghost use Rattle.ist_rule.specs.Learning.{now, GoesOnTo};
ghost use Rattle.ist_rows.specs.Rows.{IsCaller, IsAtTable, spares_of};
ghost use Rattle.ist_rows.specs.Building.{HasRefused, sizes_built};
ghost use Rattle.ist_rows.specs.Taken.{HasTakenFewIn};
ghost use Rattle.ist_build.specs.Calls.{HasKeys};
ghost use Rattle.ist_build.specs.Laying.{BuiltOn, IsTopLaid, IsTarget, IsShort};
ghost use Rattle.ist_build.specs.Midway.{IsTopMidway, IsTopRowRefused};

use crate::building::{key_of, open_row, set_part};
use crate::descent::leaf_base;
use ist_core::Full;
use ist_layout::Ref;
use ist_math::{degree, part};
use ist_rows::{Caller, reserve_inner};
use ist_rule::{TreeTable, TreeToken, know};

// Returns the key number `i` of a finished target, counted from 0.
fn key_at(table: &TreeTable, token: &mut TreeToken, target: u32, i: u64) -> u64
    requires finished { IsViewAt table.now (λ v. HasKeys (now v) target (i + 1)) token.old.view }
    ensures seen { GoesOnTo token.old.view token.new.view }
    ensures key { (leaves : List PlacedLeaf)
        → HasLeaves (now token.old.view).pieces (Some (InnerAt target)) leaves
        → (leaf : PlacedLeaf) → (others : List PlacedLeaf) → drop i leaves ≡ leaf ∷ others
        → result ≡ leaf.row.key }
{
    know(token);
    let leaf = leaf_base(table, token, target, i).base;
    key_of(table, token, leaf)
}

// Reserves the top row of the ideal tree over a finished target, and stores its first words.
fn begin_top(
    table: &TreeTable,
    who: &mut Caller,
    target: u32,
    keys: u64,
    degree: u64,
) -> Result<u32, Full>
    requires caller { IsAtTable table.now IsCaller who.old }
    requires refused { HasRefused who.old }
    requires target { IsTarget (now who.old.token.view) target keys }
    requires many { share_from ≤ keys }
    requires degree_is { degree ≡ degree_of keys }
    requires some { 1 ≤ degree }
    requires small { degree < place_limit }
    ensures begun { IfOk result (λ base. IsTopMidway who.old target keys base degree 0 who.new) }
    ensures few { HasTakenFewIn result (inner_words degree) 0 who.old who.new }
    ensures refused { IfErr result (λ full.
        IsTopRowRefused who.old (word_count_of table.now) keys full who.new) }
{
    know(&who.token);
    let base = reserve_inner(table, who, degree)?;
    open_row(table, who, base, degree, keys);
    Ok(base)
}

// Builds the top row of the ideal tree over all leaves of a finished target, with every slot Unset,
// and returns its word.
pub(crate) fn build_top(
    table: &TreeTable,
    who: &mut Caller,
    target: u32,
    keys: u64,
) -> Result<u64, Full>
    requires caller { IsAtTable table.now IsCaller who.old }
    requires refused { HasRefused who.old }
    requires target { IsTarget (now who.old.token.view) target keys }
    requires many { share_from ≤ keys }
    ensures caller { IsCaller who.new }
    ensures number { who.new.number ≡ who.old.number }
    ensures rows { spares_of who.new ≡ spares_of who.old }
    ensures built { BuiltOn who.old.token.view who.new.token.view }
    ensures laid { IfOk result (λ word. (leaves : List PlacedLeaf)
        → HasLeaves (now who.old.token.view).pieces (Some (InnerAt target)) leaves
        → IsTopLaid who.new.token.view who.new.number (now who.old.token.view).next word leaves) }
    ensures sizes { IfOk result (λ word.
        sizes_built who.new ≡ sizes_built who.old ++ inner_words (degree_of keys) ∷ []) }
    ensures few { HasTakenFewIn result (inner_words (degree_of keys)) 0 who.old who.new }
    ensures full { IfErr result (λ full.
        IsShort who.old.token.view (word_count_of table.now) keys full who.new.token.view) }
    ensures refused { IfErr result (λ full. HasRefused who.new) }
{
    know(&who.token);
    let degree = degree(keys);
    let base = begin_top(table, who, target, keys, degree)?;
    for j in 0..degree {
        let first = part(keys, j).start;
        let key = key_at(table, &mut who.token, target, first);
        set_part(table, who, base, degree, j, key, Ref::Unset.to_word());
    }
    know(&who.token);
    Ok(Ref::Inner { base }.to_word())
}
