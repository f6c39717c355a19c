//! The parts of a shared root: building those that are Unset, and putting them in place.
ghost use Rattle.std.specs.Prelude.{◌≡◌, ◌≢◌, ℕ, ◌<◌, ◌≤◌, false, IfOk, IfErr};
ghost use Rattle.std.specs.List.{sum};
ghost use Rattle.ist_core.specs.Arithmetic.{part_len};
ghost use Rattle.ist_core.specs.Marking.{HasTarget};
ghost use Rattle.ist_core.specs.References.{unset_word};
ghost use Rattle.ist_core.specs.Shapes.{shape, share_from};
ghost use Rattle.ist_core.specs.RowLayout.{slot_place};
ghost use Rattle.ist_rule.specs.Faces.{word_count_of, IsViewAt};
ghost use Rattle.ist_rule.specs.Learning.{now, ExchangedOrLost};
ghost use Rattle.ist_rule.specs.Conditions.{CanExchangeOrLose};
ghost use Rattle.ist_rows.specs.Taken.{HasTakenFewIn, TakesNoWords};
ghost use Rattle.ist_rows.specs.Rows.{IsAtTable};
ghost use Rattle.laws_coming.specs.Builds.{WasUnset};
ghost use Rattle.ist_build.specs.BuildEvents.{placing, losing};
ghost use Rattle.ist_build.specs.Calls.{IsTold, IsBuildable, IsRooted, IsBuiltOut, parts_words};
ghost use Rattle.ist_build.specs.Left.{left_for, slot_is_set};
ghost use Rattle.ist_build.specs.Putting.{IsSlotSet, IsStopped};
ghost use Rattle.ist_build.specs.Back.{IsFreeToBuild, IsBack, IsSharedAs, IsPartMade, PartWasMade, EndsPart};

use crate::parts::build_share;
use crate::shared::SharedRoot;
use crate::targets::{Target, find_target};
use ist_core::Full;
use ist_layout::{REBUILD_DRAW_OFFSET, REBUILD_ROOT_OFFSET, Ref, slot_place};
use ist_math::{SHARE_FROM, degree, part};
use ist_rows::Caller;
use ist_rule::{TreeTable, TreeToken, add, exchange_or_lose, know, load};

// Returns the word in a slot of a shared root.
fn slot_of(table: &TreeTable, who: &mut Caller, shared: SharedRoot, i: u64) -> u64
    requires ready { IsAtTable table.now IsFreeToBuild who.old }
    requires shared { IsSharedAs (now who.old.token.view) shared }
    requires within { i < shared.degree }
    ensures back { IsBack who.old who.new }
    ensures none { TakesNoWords who.old who.new }
    ensures set { result ≢ unset_word → IsSlotSet (now who.new.token.view) shared.root i }
    ensures vacant { result ≡ unset_word
        → slot_is_set ((now who.new.token.view).pieces shared.root) i ≡ false }
    ensures unset { result ≡ unset_word → WasUnset who.new.token.view who.new.number
        (slot_place shared.root shared.degree i) }
{
    know(&who.token);
    load(
        table,
        &mut who.token,
        slot_place(shared.root, shared.degree, i),
    )
}

// Puts the word, part `i` of the rebuild, into its slot if the slot is Unset.
fn put_part(
    table: &TreeTable,
    token: &mut TreeToken,
    _rebuild: u32,
    _i: u64,
    place: u64,
    word: u64,
) -> u64
    ghost which: { ℕ × ℕ }
    requires events { IsViewAt table.now (λ v. CanExchangeOrLose v place unset_word word
        (placing v which.0 which.1 word) (losing v word)) token.old.view }
    requires within { place < word_count_of table.now }
    ensures exchanged { ExchangedOrLost token.old.view (placing token.old.view which.0 which.1 word)
        (losing token.old.view word) place unset_word result token.new.view }
{
    // Place, or the Lose of these rows. Meets another caller's part.
    exchange_or_lose(table, token, place, Ref::Unset.to_word(), word)
}

// Puts part `i` of a shared root, which was built, into its slot if that is still Unset.
fn put_slot(table: &TreeTable, who: &mut Caller, shared: SharedRoot, i: u64, word: u64)
    requires made { IsAtTable table.now (λ x. PartWasMade x shared i word) who.old }
    ensures put { EndsPart who.old shared i word who.new }
    ensures none { TakesNoWords who.old who.new }
{
    know(&who.token);
    let place = slot_place(shared.root, shared.degree, i);
    put_part(table, &mut who.token, shared.rebuild, i, place, word);
}

// Builds part `i` of a shared root, whose slot was Unset, and returns its word.
fn build_slot(table: &TreeTable, who: &mut Caller, shared: SharedRoot, i: u64) -> Result<u64, Full>
    requires ready { IsAtTable table.now IsFreeToBuild who.old }
    requires shared { IsSharedAs (now who.old.token.view) shared }
    requires within { i < shared.degree }
    requires unset { WasUnset who.old.token.view who.old.number
        (slot_place shared.root shared.degree i) }
    ensures made { IfOk result (λ word. IsPartMade who.old who.new shared i word) }
    ensures few { let n = sum (shape (part_len shared.keys i)) in
        HasTakenFewIn result n 0 who.old who.new }
    ensures back { IfErr result (λ full. IsBack who.old who.new) }
    ensures full { IfErr result (λ full. IsStopped who.old.token.view shared.rebuild
        (word_count_of table.now) full who.new.token.view) }
{
    know(&who.token);
    let share = part(shared.keys, i);
    build_share(table, who, shared.target, share.start, share.len)
}

// Builds part `i` of a shared root and puts it in place, if its slot is Unset.
fn fill_slot(table: &TreeTable, who: &mut Caller, shared: SharedRoot, i: u64) -> Result<(), Full>
    requires ready { IsAtTable table.now IsFreeToBuild who.old }
    requires shared { IsSharedAs (now who.old.token.view) shared }
    requires within { i < shared.degree }
    ensures back { IsBack who.old who.new }
    ensures few { let left = left_for who.new shared in
        HasTakenFewIn result (left_for who.old shared) left who.old who.new }
    ensures set { IfOk result (λ done. IsSlotSet (now who.new.token.view) shared.root i) }
    ensures full { IfErr result (λ full. IsStopped who.old.token.view shared.rebuild
        (word_count_of table.now) full who.new.token.view) }
{
    if slot_of(table, who, shared, i) != Ref::Unset.to_word() {
        return Ok(());
    }
    let word = build_slot(table, who, shared, i)?;
    put_slot(table, who, shared, i, word);
    Ok(())
}

// Draws the next part of a shared root, and returns its number: none is left if that isn't below the
// number of slots. It loads the draw word before each draw, so that a draw past the last part is the
// caller's last.
fn draw(table: &TreeTable, who: &mut Caller, shared: SharedRoot) -> u64
    requires ready { IsAtTable table.now IsFreeToBuild who.old }
    requires shared { IsSharedAs (now who.old.token.view) shared }
    ensures back { IsBack who.old who.new }
    ensures none { TakesNoWords who.old who.new }
{
    know(&who.token);
    let place = u64::from(shared.rebuild) + REBUILD_DRAW_OFFSET;
    let next = load(table, &mut who.token, place);
    if next >= shared.degree {
        return next;
    }
    // Draw. Meets the draws of other callers.
    add(table, &mut who.token, place)
}

// Draws parts and fills them, as long as there are parts to draw.
fn fill_drawn(table: &TreeTable, who: &mut Caller, shared: SharedRoot) -> Result<(), Full>
    requires ready { IsAtTable table.now IsFreeToBuild who.old }
    requires shared { IsSharedAs (now who.old.token.view) shared }
    ensures back { IsBack who.old who.new }
    ensures few { let left = left_for who.new shared in
        HasTakenFewIn result (left_for who.old shared) left who.old who.new }
    ensures full { IfErr result (λ full. IsStopped who.old.token.view shared.rebuild
        (word_count_of table.now) full who.new.token.view) }
{
    know(&who.token);
    for _ in 0..shared.degree {
        let i = draw(table, who, shared);
        if i >= shared.degree {
            return Ok(());
        }
        fill_slot(table, who, shared, i)?;
    }
    Ok(())
}

// Fills each slot that is still Unset.
fn fill_unset(table: &TreeTable, who: &mut Caller, shared: SharedRoot) -> Result<(), Full>
    requires ready { IsAtTable table.now IsFreeToBuild who.old }
    requires shared { IsSharedAs (now who.old.token.view) shared }
    ensures back { IsBack who.old who.new }
    ensures few { let left = left_for who.new shared in
        HasTakenFewIn result (left_for who.old shared) left who.old who.new }
    ensures filled { IfOk result (λ done. IsBuiltOut (now who.new.token.view) shared.rebuild) }
    ensures full { IfErr result (λ full. IsStopped who.old.token.view shared.rebuild
        (word_count_of table.now) full who.new.token.view) }
{
    know(&who.token);
    for i in 0..shared.degree {
        fill_slot(table, who, shared, i)?;
    }
    Ok(())
}

// Fills a shared root: first the parts that it draws, and then what is left.
fn fill_shared(table: &TreeTable, who: &mut Caller, shared: SharedRoot) -> Result<(), Full>
    requires ready { IsAtTable table.now IsFreeToBuild who.old }
    requires shared { IsSharedAs (now who.old.token.view) shared }
    ensures back { IsBack who.old who.new }
    ensures few { let left = left_for who.new shared in
        HasTakenFewIn result (left_for who.old shared) left who.old who.new }
    ensures filled { IfOk result (λ done. IsBuiltOut (now who.new.token.view) shared.rebuild) }
    ensures full { IfErr result (λ full. IsStopped who.old.token.view shared.rebuild
        (word_count_of table.now) full who.new.token.view) }
{
    fill_drawn(table, who, shared)?;
    fill_unset(table, who, shared)
}

// Returns the shared root of a rebuild.
fn shared_root(table: &TreeTable, who: &mut Caller, rebuild: u32, target: Target) -> SharedRoot
    requires ready { IsAtTable table.now IsFreeToBuild who.old }
    requires told { IsTold (now who.old.token.view) rebuild target.keys }
    requires target { HasTarget (now who.old.token.view) rebuild target.base }
    requires rooted { IsRooted (now who.old.token.view) rebuild }
    requires many { share_from ≤ target.keys }
    ensures back { IsBack who.old who.new }
    ensures none { TakesNoWords who.old who.new }
    ensures shared { IsSharedAs (now who.new.token.view) result }
    ensures rebuild { result.rebuild ≡ rebuild }
    ensures keys { result.keys ≡ target.keys }
{
    know(&who.token);
    // The word of an inner row is 8 * base + 2.
    let root = load(
        table,
        &mut who.token,
        u64::from(rebuild) + REBUILD_ROOT_OFFSET,
    ) / 8;
    SharedRoot {
        rebuild,
        target: target.base,
        root: root as u32,
        keys: target.keys,
        degree: degree(target.keys),
    }
}

// Fills the shared root of a rebuild.
fn fill_many(table: &TreeTable, who: &mut Caller, rebuild: u32, target: Target) -> Result<(), Full>
    requires ready { IsAtTable table.now IsFreeToBuild who.old }
    requires told { IsTold (now who.old.token.view) rebuild target.keys }
    requires target { HasTarget (now who.old.token.view) rebuild target.base }
    requires rooted { IsRooted (now who.old.token.view) rebuild }
    requires many { share_from ≤ target.keys }
    ensures back { IsBack who.old who.new }
    ensures few { HasTakenFewIn result (parts_words target.keys) 0 who.old who.new }
    ensures filled { IfOk result (λ done. IsBuiltOut (now who.new.token.view) rebuild) }
    ensures full { IfErr result (λ full.
        IsStopped who.old.token.view rebuild (word_count_of table.now) full who.new.token.view) }
{
    let shared = shared_root(table, who, rebuild, target);
    fill_shared(table, who, shared)
}

/// Fills the root of a rebuild: afterwards no slot of it is Unset.
///
/// If the target has fewer than `SHARE_FROM` keys, that already holds. Otherwise the caller draws parts
/// and fills them while there are parts to draw; others may do so at the same time. Then it fills each
/// slot that is still Unset, so that it waits for nobody. Returns `Full` if too few words are left for
/// a row of a part; its rows stay held.
pub(crate) fn fill_root(table: &TreeTable, who: &mut Caller, rebuild: u32) -> Result<(), Full>
    requires ready { IsAtTable table.now IsFreeToBuild who.old }
    requires buildable { IsBuildable (now who.old.token.view) rebuild }
    requires rooted { IsRooted (now who.old.token.view) rebuild }
    ensures back { IsBack who.old who.new }
    ensures few { (k : ℕ) → IsTold (now who.old.token.view) rebuild k
        → HasTakenFewIn result (parts_words k) 0 who.old who.new }
    ensures filled { IfOk result (λ done. IsBuiltOut (now who.new.token.view) rebuild) }
    ensures full { IfErr result (λ full.
        IsStopped who.old.token.view rebuild (word_count_of table.now) full who.new.token.view) }
{
    let target = find_target(table, who, rebuild);
    know(&who.token);
    if target.keys < SHARE_FROM {
        return Ok(());
    }
    fill_many(table, who, rebuild, target)
}
