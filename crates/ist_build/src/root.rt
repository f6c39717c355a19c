//! The root of a rebuild: building it, and putting it in place.
ghost use Rattle.std.specs.Prelude.{◌≡◌, ◌≢◌, ℕ, ◌+◌, ◌<◌, ◌≤◌, List, [], Some, IfOk, IfErr};
ghost use Rattle.ist_core.specs.Building.{IsRoot};
ghost use Rattle.ist_core.specs.Leaves.{PlacedLeaf, HasLeaves};
ghost use Rattle.ist_core.specs.Marking.{HasTarget};
ghost use Rattle.ist_core.specs.Rebuilding.{IsFinishedWith};
ghost use Rattle.ist_core.specs.References.{InnerAt, unset_word};
ghost use Rattle.ist_core.specs.RowLayout.{rebuild_root_offset};
ghost use Rattle.ist_rule.specs.Faces.{word_count_of, IsViewAt};
ghost use Rattle.ist_rule.specs.Learning.{now, GoesOnTo};
ghost use Rattle.ist_rows.specs.Rows.{IsCaller, IsAtTable, spares_of};
ghost use Rattle.ist_rows.specs.Building.{HasRefused};
ghost use Rattle.ist_rows.specs.Taken.{HasTakenFewIn, TakesNoWords};
ghost use Rattle.laws_coming.specs.Builds.{WasUnset};
ghost use Rattle.ist_build.specs.Laying.{BuiltOn, IsRootLaid, IsTarget, IsShort};
ghost use Rattle.ist_build.specs.Calls.{IsTold, IsBuildable, root_words};
ghost use Rattle.ist_build.specs.Putting.{HasRoot, IsStopped};
ghost use Rattle.ist_build.specs.Back.{IsFreeToBuild, IsBack, RootWasMade, EndsRoot};

use crate::descent::leaf_base;
use crate::parts::build_share;
use crate::targets::{Target, find_target};
use crate::top::build_top;
use ist_core::Full;
use ist_layout::{REBUILD_ROOT_OFFSET, Ref};
use ist_math::SHARE_FROM;
use ist_rows::Caller;
use ist_rule::{TreeTable, TreeToken, exchange, exchange_or_lose, know, load};

// Returns the word in a rebuild's root field.
fn root_of(table: &TreeTable, who: &mut Caller, rebuild: u32) -> u64
    requires ready { IsAtTable table.now IsFreeToBuild who.old }
    requires buildable { IsBuildable (now who.old.token.view) rebuild }
    ensures back { IsBack who.old who.new }
    ensures none { TakesNoWords who.old who.new }
    ensures set { result ≢ unset_word → HasRoot (now who.new.token.view) rebuild result }
    ensures unset { result ≡ unset_word
        → WasUnset who.new.token.view who.new.number (rebuild + rebuild_root_offset) }
{
    know(&who.token);
    load(
        table,
        &mut who.token,
        u64::from(rebuild) + REBUILD_ROOT_OFFSET,
    )
}

// Builds a root over the leaves of a finished target with two keys or more, and returns its word: the
// whole ideal subtree, or from `SHARE_FROM` keys on only its top row.
fn build_root(table: &TreeTable, who: &mut Caller, target: u32, keys: u64) -> Result<u64, Full>
    requires caller { IsAtTable table.now IsCaller who.old }
    requires refused { HasRefused who.old }
    requires target { IsTarget (now who.old.token.view) target keys }
    requires several { 2 ≤ keys }
    ensures caller { IsCaller who.new }
    ensures number { who.new.number ≡ who.old.number }
    ensures rows { spares_of who.new ≡ spares_of who.old }
    ensures built { BuiltOn who.old.token.view who.new.token.view }
    ensures laid { IfOk result (λ word. (leaves : List PlacedLeaf)
        → HasLeaves (now who.old.token.view).pieces (Some (InnerAt target)) leaves
        → IsRootLaid who.old who.new target keys word leaves) }
    ensures few { HasTakenFewIn result (root_words keys) 0 who.old who.new }
    ensures full { IfErr result (λ full.
        IsShort who.old.token.view (word_count_of table.now) keys full who.new.token.view) }
    ensures refused { IfErr result (λ full. HasRefused who.new) }
{
    know(&who.token);
    if keys < SHARE_FROM {
        return build_share(table, who, target, 0, keys);
    }
    build_top(table, who, target, keys)
}

// Puts a root that was built in place, if the rebuild has none yet, and returns the root that it then
// has.
fn put_root(table: &TreeTable, who: &mut Caller, rebuild: u32, word: u64) -> u64
    requires made { IsAtTable table.now (λ x. RootWasMade x rebuild word) who.old }
    ensures put { EndsRoot who.old rebuild word who.new result }
    ensures none { TakesNoWords who.old who.new }
{
    know(&who.token);
    let unset = Ref::Unset.to_word();
    let place = u64::from(rebuild) + REBUILD_ROOT_OFFSET;
    // Root, or the Lose of these rows. Meets another caller's root.
    let stood = exchange_or_lose(table, &mut who.token, place, unset, word);
    if stood == unset { word } else { stood }
}

// Builds a root of inner rows and puts it in place, and returns the root that the rebuild then has.
fn set_rows(table: &TreeTable, who: &mut Caller, rebuild: u32, target: Target) -> Result<u64, Full>
    requires ready { IsAtTable table.now IsFreeToBuild who.old }
    requires told { IsTold (now who.old.token.view) rebuild target.keys }
    requires target { HasTarget (now who.old.token.view) rebuild target.base }
    requires several { 2 ≤ target.keys }
    requires unset { WasUnset who.old.token.view who.old.number (rebuild + rebuild_root_offset) }
    ensures back { IsBack who.old who.new }
    ensures few { HasTakenFewIn result (root_words target.keys) 0 who.old who.new }
    ensures root { IfOk result (λ word. HasRoot (now who.new.token.view) rebuild word) }
    ensures full { IfErr result (λ full.
        IsStopped who.old.token.view rebuild (word_count_of table.now) full who.new.token.view) }
{
    know(&who.token);
    let word = build_root(table, who, target.base, target.keys)?;
    Ok(put_root(table, who, rebuild, word))
}

// Returns the root over no key or over one, which has no rows.
fn small_root(table: &TreeTable, token: &mut TreeToken, target: u32, keys: u64) -> u64
    requires finished { IsViewAt table.now (λ v. IsFinishedWith (now v) target keys)
        token.old.view }
    requires few { keys < 2 }
    ensures seen { GoesOnTo token.old.view token.new.view }
    ensures root { (leaves : List PlacedLeaf)
        → HasLeaves (now token.old.view).pieces (Some (InnerAt target)) leaves
        → IsRoot (now token.new.view).pieces result keys leaves target [] }
{
    know(token);
    if keys == 0 {
        return Ref::Empty.to_word();
    }
    let base = leaf_base(table, token, target, 0).base;
    Ref::Leaf { base }.to_word()
}

// Puts a root without rows in place, and returns the root that the rebuild then has.
fn set_small(table: &TreeTable, who: &mut Caller, rebuild: u32, target: Target) -> u64
    requires ready { IsAtTable table.now IsFreeToBuild who.old }
    requires told { IsTold (now who.old.token.view) rebuild target.keys }
    requires target { HasTarget (now who.old.token.view) rebuild target.base }
    requires few { target.keys < 2 }
    ensures back { IsBack who.old who.new }
    ensures none { TakesNoWords who.old who.new }
    ensures root { HasRoot (now who.new.token.view) rebuild result }
{
    know(&who.token);
    let word = small_root(table, &mut who.token, target.base, target.keys);
    know(&who.token);
    let unset = Ref::Unset.to_word();
    let place = u64::from(rebuild) + REBUILD_ROOT_OFFSET;
    // Root. Meets another caller's: then there are no rows to lose, and it is a load.
    let stood = exchange(table, &mut who.token, place, unset, word);
    if stood == unset { word } else { stood }
}

/// Gives a started rebuild with a finished target its root, and returns the root's word.
///
/// Below `SHARE_FROM` keys the root is the whole ideal subtree over the leaves of the target. From
/// `SHARE_FROM` keys on it is only the top row, with every slot Unset. If another caller's root was
/// first, that root is returned, and what this caller built is lost. Returns `Full` if too few words
/// are left for a row of the build; its rows stay held.
pub(crate) fn place_root(table: &TreeTable, who: &mut Caller, rebuild: u32) -> Result<u64, Full>
    requires ready { IsAtTable table.now IsFreeToBuild who.old }
    requires buildable { IsBuildable (now who.old.token.view) rebuild }
    ensures back { IsBack who.old who.new }
    ensures few { (k : ℕ) → IsTold (now who.old.token.view) rebuild k
        → HasTakenFewIn result (root_words k) 0 who.old who.new }
    ensures root { IfOk result (λ word. HasRoot (now who.new.token.view) rebuild word) }
    ensures full { IfErr result (λ full.
        IsStopped who.old.token.view rebuild (word_count_of table.now) full who.new.token.view) }
{
    let stood = root_of(table, who, rebuild);
    if stood != Ref::Unset.to_word() {
        return Ok(stood);
    }
    let target = find_target(table, who, rebuild);
    if target.keys < 2 {
        return Ok(set_small(table, who, rebuild, target));
    }
    set_rows(table, who, rebuild, target)
}
