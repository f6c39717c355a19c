//! Building an ideal subtree in rows that were reserved together.
ghost use Rattle.std.specs.Prelude.{◌≡◌, ◌+◌, ◌<◌, ◌≤◌, ℕ, List, length, None, IfSome, IfOk, IfErr};
ghost use Rattle.std.specs.List.{sum};
ghost use Rattle.ist_core.specs.RowLayout.{place_limit};
ghost use Rattle.ist_core.specs.Leaves.{PlacedLeaf};
ghost use Rattle.ist_core.specs.Shapes.{shape};
ghost use Rattle.ist_rule.specs.Faces.{word_count_of};
ghost use Rattle.ist_rule.specs.Rule.{own_at};
ghost use Rattle.ist_rule.specs.Learning.{now, GoesOnTo};
ghost use Rattle.ist_rows.specs.Rows.{IsCaller, IsAtTable, spares_of};
ghost use Rattle.ist_rows.specs.Building.{HasTaken, HasRefused};
ghost use Rattle.ist_rows.specs.Taken.{HasTakenFewIn};
ghost use Rattle.ist_build.specs.Laying.{BuiltOn, HaveLeaves, AreKeysOf, ArePlaced, IsLaid, AreNextRows, IsShort, IsWritten, IsLaidBelow};
ghost use Rattle.ist_rows.specs.Block.{HasNoRoom, HoldsBlock, ReservedAll};

use crate::building::{build, open_row, set_part, small_word};
use ist_core::Full;
use ist_layout::Ref;
use ist_math::{degree, ideal_words, part};
use ist_rows::{Caller, reserve_block};
use ist_rule::{TreeTable, know};

// Builds the ideal subtree over these leaves in rows that the caller holds from `next` on, and
// returns its word; `next` is then the first place after them. It only stores into these rows.
pub(crate) fn lay(
    table: &TreeTable,
    who: &mut Caller,
    next: &mut u64,
    leaves: &[u32],
    keys: &[u64],
) -> u64
    requires caller { IsAtTable table.now IsCaller who.old }
    requires held { HoldsBlock (now who.old.token.view) who.old.number next.old
        (shape (length leaves.now)) }
    requires fresh { (place : ℕ) → next.old ≤ place → own_at who.old.token.view.own place ≡ 0 }
    requires leaves { HaveLeaves (now who.old.token.view) leaves.now }
    requires keys { AreKeysOf (now who.old.token.view) leaves.now keys.now }
    requires many { length keys.now ≡ length leaves.now }
    requires few { length leaves.now < place_limit }
    requires low { next.old ≤ place_limit }
    ensures written { IsWritten who.old who.new next.old next.new }
    ensures next { next.new ≡ next.old + sum (shape (length leaves.now)) }
    ensures low { next.new ≤ place_limit }
    ensures laid { (placed : List PlacedLeaf)
        → ArePlaced (now who.old.token.view) leaves.now placed
        → IsLaidBelow who.new.token.view who.new.number next.old next.new result placed }
{
    know(&who.token);
    if leaves.len() < 2 {
        return small_word(&who.token, leaves);
    }
    let size = leaves.len() as u64;
    let degree = degree(size);
    let base = *next as u32;
    open_row(table, who, base, degree, size);
    *next += 2 * degree + 3;
    for j in 0..degree {
        let part = part(size, j);
        let own = &leaves[part.start as usize..(part.start + part.len) as usize];
        let own_keys = &keys[part.start as usize..(part.start + part.len) as usize];
        let word = lay(table, who, next, own, own_keys);
        set_part(table, who, base, degree, j, own_keys[0], word);
    }
    Ref::Inner { base }.to_word()
}

// Reserves the rows of an ideal subtree over `size` keys, all at one step. `sizes` lists their
// sizes, for the call to `reserve_block`.
fn reserve_shape(table: &TreeTable, who: &mut Caller, size: u64) -> Option<u32>
    ghost sizes: { List ℕ }
    requires sizes { sizes ≡ shape size }
    requires caller { IsAtTable table.now IsCaller who.old }
    requires due { AreNextRows who.old size }
    requires several { 2 ≤ size }
    requires few { size < place_limit }
    ensures caller { IsCaller who.new }
    ensures same { who.new ≡ record who.old { token = who.new.token } }
    ensures reserved { IfSome result (λ base.
        ReservedAll who.old.token.view who.old.number base (shape size) who.new.token.view) }
    ensures taken { IfSome result (λ base. HasTaken who.old (shape size) who.new) }
    ensures none { result ≡ None → GoesOnTo who.old.token.view who.new.token.view }
    ensures full { result ≡ None → HasNoRoom who.old.token.view (word_count_of table.now)
        (sum (shape size)) who.new.token.view }
{
    let inner = ideal_words(size) - 2 * size;
    reserve_block(table, who, inner)
}

// Builds as `build` does, and reserves all rows at one step if they fit.
pub(crate) fn build_at_once(
    table: &TreeTable,
    who: &mut Caller,
    leaves: &[u32],
    keys: &[u64],
) -> Result<u64, Full>
    requires caller { IsAtTable table.now IsCaller who.old }
    requires due { 2 ≤ length leaves.now → AreNextRows who.old (length leaves.now) }
    requires leaves { HaveLeaves (now who.old.token.view) leaves.now }
    requires keys { AreKeysOf (now who.old.token.view) leaves.now keys.now }
    requires many { length keys.now ≡ length leaves.now }
    requires few { length leaves.now < place_limit }
    ensures caller { IsCaller who.new }
    ensures number { who.new.number ≡ who.old.number }
    ensures rows { spares_of who.new ≡ spares_of who.old }
    ensures built { BuiltOn who.old.token.view who.new.token.view }
    ensures laid { IfOk result (λ word. (placed : List PlacedLeaf)
        → ArePlaced (now who.old.token.view) leaves.now placed
        → IsLaid who.new.token.view who.new.number (now who.old.token.view).next word placed) }
    ensures taken { IfOk result (λ word. HasTaken who.old (shape (length leaves.now)) who.new) }
    ensures few { let n = sum (shape (length leaves.now)) in
        2 ≤ length leaves.now → HasTakenFewIn result n 0 who.old who.new }
    ensures full { IfErr result (λ full. IsShort who.old.token.view (word_count_of table.now)
        (length leaves.now) full who.new.token.view) }
    ensures refused { IfErr result (λ full. HasRefused who.new) }
{
    know(&who.token);
    if leaves.len() < 2 {
        return build(table, who, leaves, keys);
    }
    match reserve_shape(table, who, leaves.len() as u64) {
        Some(base) => {
            let mut next = u64::from(base);
            Ok(lay(table, who, &mut next, leaves, keys))
        }
        None => build(table, who, leaves, keys),
    }
}
