//! Leaves and parts of a finished target.
ghost use Rattle.std.specs.Prelude.{◌≡◌, ◌+◌, ◌<◌, ◌≤◌, List, [], length, take, drop, Some, IfOk, IfErr};
ghost use Rattle.std.specs.List.{sum};
ghost use Rattle.ist_core.specs.Leaves.{PlacedLeaf, HasLeaves};
ghost use Rattle.ist_core.specs.References.{InnerAt};
ghost use Rattle.ist_core.specs.RowLayout.{place_limit};
ghost use Rattle.ist_core.specs.Shapes.{shape};
ghost use Rattle.ist_rule.specs.Faces.{word_count_of, IsViewAt};
ghost use Rattle.ist_rule.specs.Learning.{now};
ghost use Rattle.ist_rows.specs.Rows.{IsCaller, IsAtTable, spares_of};
ghost use Rattle.ist_rows.specs.Building.{HasTaken, HasRefused, IsInBuild, sizes_built};
ghost use Rattle.ist_rows.specs.Taken.{HasTakenFewIn};
ghost use Rattle.ist_build.specs.Calls.{MayBuild, HasKeys};
ghost use Rattle.ist_build.specs.Laying.{BuiltOn, AreKeysOf, IsLaid, AreNextRows, IsShort};
ghost use Rattle.ist_build.specs.Reading.{HasReadOut};

use crate::block::build_at_once;
use crate::building::load_keys;
use crate::reading::{Cursor, read_leaves};
use ist_core::Full;
use ist_rows::Caller;
use ist_rule::{TreeTable, TreeToken, know};

// A target with fewer than `SHARE_FROM` keys has no more leaves than this.
const FEW: usize = 256;

// No part is longer than this.
const MANY: usize = 16388;

// Reads the leaves from number `start` on, one per element of `leaves`, and then loads their keys.
fn read_out(
    table: &TreeTable,
    token: &mut TreeToken,
    target: u32,
    start: u64,
    leaves: &mut [u32],
    keys: &mut [u64],
)
    requires finished { IsViewAt table.now (λ v. HasKeys (now v) target (start + length leaves.old))
        token.old.view }
    requires many { length keys.old ≡ length leaves.old }
    ensures read { HasReadOut token.old.view target start (length leaves.old) leaves.new
        token.new.view }
    ensures many { length keys.new ≡ length leaves.new }
    ensures keys { AreKeysOf (now token.new.view) leaves.new keys.new }
{
    know(token);
    let at = Cursor {
        skip: start,
        count: 0,
    };
    read_leaves(table, token, target, leaves, at);
    know(token);
    load_keys(table, token, leaves, keys);
}

// Builds over the leaves from number `start` on, one per element of `leaves`. It reads all leaves,
// and then all their keys, before it stores a word.
fn build_read(
    table: &TreeTable,
    who: &mut Caller,
    target: u32,
    start: u64,
    leaves: &mut [u32],
    keys: &mut [u64],
) -> Result<u64, Full>
    requires caller { IsAtTable table.now IsCaller who.old }
    requires due { 2 ≤ length leaves.old → AreNextRows who.old (length leaves.old) }
    requires finished { HasKeys (now who.old.token.view) target (start + length leaves.old) }
    requires many { length keys.old ≡ length leaves.old }
    requires few { length leaves.old < place_limit }
    ensures caller { IsCaller who.new }
    ensures number { who.new.number ≡ who.old.number }
    ensures rows { spares_of who.new ≡ spares_of who.old }
    ensures built { BuiltOn who.old.token.view who.new.token.view }
    ensures laid { IfOk result (λ word. (all : List PlacedLeaf)
        → HasLeaves (now who.old.token.view).pieces (Some (InnerAt target)) all
        → IsLaid who.new.token.view who.new.number (now who.old.token.view).next word
        (take (length leaves.old) (drop start all))) }
    ensures taken { IfOk result (λ word. HasTaken who.old (shape (length leaves.old)) who.new) }
    ensures few { let n = sum (shape (length leaves.old)) in
        2 ≤ length leaves.old → HasTakenFewIn result n 0 who.old who.new }
    ensures full { IfErr result (λ full. IsShort who.old.token.view (word_count_of table.now)
        (length leaves.old) full who.new.token.view) }
    ensures refused { IfErr result (λ full. HasRefused who.new) }
{
    know(&who.token);
    read_out(table, &mut who.token, target, start, leaves, keys);
    build_at_once(table, who, leaves, keys)
}

fn build_few(
    table: &TreeTable,
    who: &mut Caller,
    target: u32,
    start: u64,
    len: u64,
) -> Result<u64, Full>
    requires caller { IsAtTable table.now IsCaller who.old }
    requires due { 2 ≤ len → AreNextRows who.old len }
    requires finished { HasKeys (now who.old.token.view) target (start + len) }
    requires few { len ≤ 256 }
    ensures caller { IsCaller who.new }
    ensures number { who.new.number ≡ who.old.number }
    ensures rows { spares_of who.new ≡ spares_of who.old }
    ensures built { BuiltOn who.old.token.view who.new.token.view }
    ensures laid { IfOk result (λ word. (all : List PlacedLeaf)
        → HasLeaves (now who.old.token.view).pieces (Some (InnerAt target)) all
        → IsLaid who.new.token.view who.new.number (now who.old.token.view).next word
        (take len (drop start all))) }
    ensures taken { IfOk result (λ word. HasTaken who.old (shape len) who.new) }
    ensures few { 2 ≤ len → HasTakenFewIn result (sum (shape len)) 0 who.old who.new }
    ensures full { IfErr result (λ full. IsShort who.old.token.view (word_count_of table.now) len
        full who.new.token.view) }
    ensures refused { IfErr result (λ full. HasRefused who.new) }
{
    let mut leaves = [0; FEW];
    let mut keys = [0; FEW];
    let room = len as usize;
    build_read(
        table,
        who,
        target,
        start,
        &mut leaves[..room],
        &mut keys[..room],
    )
}

fn build_many(
    table: &TreeTable,
    who: &mut Caller,
    target: u32,
    start: u64,
    len: u64,
) -> Result<u64, Full>
    requires caller { IsAtTable table.now IsCaller who.old }
    requires due { 2 ≤ len → AreNextRows who.old len }
    requires finished { HasKeys (now who.old.token.view) target (start + len) }
    requires few { len ≤ 16388 }
    ensures caller { IsCaller who.new }
    ensures number { who.new.number ≡ who.old.number }
    ensures rows { spares_of who.new ≡ spares_of who.old }
    ensures built { BuiltOn who.old.token.view who.new.token.view }
    ensures laid { IfOk result (λ word. (all : List PlacedLeaf)
        → HasLeaves (now who.old.token.view).pieces (Some (InnerAt target)) all
        → IsLaid who.new.token.view who.new.number (now who.old.token.view).next word
        (take len (drop start all))) }
    ensures taken { IfOk result (λ word. HasTaken who.old (shape len) who.new) }
    ensures few { 2 ≤ len → HasTakenFewIn result (sum (shape len)) 0 who.old who.new }
    ensures full { IfErr result (λ full. IsShort who.old.token.view (word_count_of table.now) len
        full who.new.token.view) }
    ensures refused { IfErr result (λ full. HasRefused who.new) }
{
    let mut leaves = [0; MANY];
    let mut keys = [0; MANY];
    let room = len as usize;
    build_read(
        table,
        who,
        target,
        start,
        &mut leaves[..room],
        &mut keys[..room],
    )
}

/// Builds the ideal subtree over the leaves number `start` to `start + len - 1` of a finished target,
/// and returns its word.
///
/// Its inner rows are the caller's own, and lie above each row that was published before. If too few
/// words are left, it returns `Full`: its rows stay held, and the next build reserves new ones.
pub(crate) fn build_share(
    table: &TreeTable,
    who: &mut Caller,
    target: u32,
    start: u64,
    len: u64,
) -> Result<u64, Full>
    requires caller { IsAtTable table.now IsCaller who.old }
    requires refused { HasRefused who.old }
    requires share { MayBuild (now who.old.token.view) target start len }
    ensures caller { IsCaller who.new }
    ensures number { who.new.number ≡ who.old.number }
    ensures rows { spares_of who.new ≡ spares_of who.old }
    ensures built { BuiltOn who.old.token.view who.new.token.view }
    ensures laid { IfOk result (λ word. (all : List PlacedLeaf)
        → HasLeaves (now who.old.token.view).pieces (Some (InnerAt target)) all
        → IsLaid who.new.token.view who.new.number (now who.old.token.view).next word
        (take len (drop start all))) }
    ensures at { IfOk result (λ word. 2 ≤ len
        → IsInBuild who.new (sizes_built who.old) (shape len) []) }
    ensures few { 2 ≤ len → HasTakenFewIn result (sum (shape len)) 0 who.old who.new }
    ensures full { IfErr result (λ full. IsShort who.old.token.view (word_count_of table.now) len
        full who.new.token.view) }
    ensures refused { IfErr result (λ full. HasRefused who.new) }
{
    if len <= FEW as u64 {
        return build_few(table, who, target, start, len);
    }
    know(&who.token);
    build_many(table, who, target, start, len)
}
