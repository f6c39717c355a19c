//! Putting the root of a rebuild in its place, by a change.
ghost use Rattle.std.specs.Prelude.{◌≡◌, ◌≢◌, ℕ, Ok, None, Some, IfOk, IfErr};
ghost use Rattle.std.specs.List.{sum};
ghost use Rattle.ist_core.specs.Installing.{IsUnrefused};
ghost use Rattle.ist_core.specs.Pieces.{Change as ChangeRowOf, words_of};
ghost use Rattle.ist_core.specs.Rebuilding.{IsReplaced};
ghost use Rattle.ist_core.specs.References.{IsGoodBase, RebuildAt, word_of};
ghost use Rattle.ist_core.specs.RowLayout.{change_words};
ghost use Rattle.ist_core.specs.Shapes.{shape};
ghost use Rattle.ist_core.specs.Slots.{SlotHolds, IsOpen};
ghost use Rattle.ist_rule.specs.Faces.{word_count_of};
ghost use Rattle.ist_rule.specs.Learning.{now};
ghost use Rattle.ist_build.specs.Calls.{IsBuildable, IsBuiltOut, IsTold};
ghost use Rattle.ist_rows.specs.Taken.{HasTakenFewIn, TakesNoWords};
ghost use Rattle.ist_rebuild.specs.Needs.{wanting};
ghost use Rattle.ist_rebuild.specs.declared.answers.Helped.TheVariants.{Replaced, ParentMarked};
ghost use Rattle.ist_rebuild.specs.declared.finishing.Tried.TheVariants.{Yes, No, Other};
ghost use Rattle.ist_rebuild.specs.Finishing.{IsPlan, IsPrepared, finish_row};
ghost use Rattle.ist_rows.specs.Going.{IsReady};
ghost use Rattle.ist_rows.specs.Rows.{IsAtTable};
ghost use Rattle.ist_rebuild.specs.Helping.{IsLeftToParent, IsHelpRefused, HasHelped};
ghost use Rattle.laws_coming.specs.Further.{CameFurther};

use crate::answers::Helped;
use crate::sites::{PlannedFinish, SiteWord, meet, settle};
use ist_build::{fill_parts, set_root};
use ist_core::Full;
use ist_dcss::{Decision, Installed, help, install, is_open};
use ist_layout::{FINISH_KIND, Ref, UNDECIDED};
use ist_rows::{Caller, Kind, fill_row, reserve};
use ist_rule::{TreeTable, know};

// The result of trying to install a finish.
#[derive(Clone, Copy, Drop)]
enum Tried {
    // It was decided yes.
    Yes,
    // It was decided no.
    No,
    // The slot held this word.
    Other(u64),
}

/// Gives the rebuild its root, and fills the root's parts.
pub(crate) fn build_out(table: &TreeTable, who: &mut Caller, rebuild: u32) -> Result<(), Full>
    requires ready { IsAtTable table.now IsReady who.old }
    requires buildable { IsBuildable (now who.old.token.view) rebuild }
    ensures helped { HasHelped who.old who.new }
    ensures few { (k : ℕ) → IsTold (now who.old.token.view) rebuild k
        → HasTakenFewIn result (sum (shape k)) 0 who.old who.new }
    ensures built { IfOk result (λ done. IsBuiltOut (now who.new.token.view) rebuild) }
    ensures full { IfErr result (λ full.
        IsHelpRefused who.old.token.view rebuild (word_count_of table.now) full who.new.token.view) }
{
    know(&who.token);
    set_root(table, who, rebuild)?;
    know(&who.token);
    fill_parts(table, who, rebuild)
}

// Returns the words of the finish, in the order of its row.
fn finish_words(plan: PlannedFinish, owner: u32) -> [u64; 9]
    requires good { IsGoodBase plan.rebuild }
    ensures value { result ≡ words_of (ChangeRowOf (finish_row plan owner)) }
{
    let from = Ref::Rebuild { base: plan.rebuild }.to_word();
    [
        UNDECIDED,
        FINISH_KIND,
        u64::from(plan.parent),
        plan.index,
        from,
        plan.root,
        u64::from(owner),
        0,
        0,
    ]
}

// Fills the caller's change row as the finish of the plan, and returns it.
fn prepare(table: &TreeTable, who: &mut Caller, plan: PlannedFinish) -> Result<u32, Full>
    requires ready { IsAtTable table.now IsReady who.old }
    requires plan { IsPlan who.old.token.view plan }
    requires unrefused { IsUnrefused (now who.old.token.view) who.old.number plan.parent }
    ensures helped { HasHelped who.old who.new }
    ensures few { let n = wanting who.old.change change_words in
        HasTakenFewIn result n 0 who.old who.new }
    ensures prepared { IfOk result (λ change. IsPrepared who.new plan change) }
    ensures full { IfErr result (λ full. IsHelpRefused who.old.token.view plan.rebuild
        (word_count_of table.now) full who.new.token.view) }
{
    know(&who.token);
    // Reserve, unless the caller holds a change row. Meets the reserving of others.
    let change = reserve(table, who, Kind::Change)?;
    know(&who.token);
    let words = finish_words(plan, who.number);
    fill_row(table, who, Kind::Change, change, &words);
    know(&who.token);
    Ok(change)
}

// Installs the prepared finish and helps it, if the slot holds the rebuild.
fn carry(table: &TreeTable, who: &mut Caller, plan: PlannedFinish, change: u32) -> Tried
    requires ready { IsAtTable table.now IsReady who.old }
    requires plan { IsPlan who.old.token.view plan }
    requires prepared { IsPrepared who.old plan change }
    ensures helped { HasHelped who.old who.new }
    ensures none { TakesNoWords who.old who.new }
    ensures held { (word : ℕ) → result ≡ Other word → who.new.change ≡ who.old.change }
    ensures yes { result ≡ Yes → IsReplaced (now who.new.token.view) plan.rebuild }
    ensures no { result ≡ No → ¬ (IsOpen (now who.new.token.view) plan.parent) }
    ensures other { (word : ℕ) → result ≡ Other word
        → SlotHolds (now who.new.token.view) plan.parent plan.index word }
    ensures differs { (word : ℕ) → result ≡ Other word → word ≢ word_of (RebuildAt plan.rebuild) }
{
    know(&who.token);
    // Install. Meets another helper's finish, and the start that is still in the slot.
    match install(table, &mut who.token, change) {
        Installed::Yes => {
            who.change = None;
            know(&who.token);
            // Okay, Decide and Resolve. Meets a mark of the parent, and any helper of the change.
            match help(table, &mut who.token, change) {
                Decision::Yes => Tried::Yes,
                Decision::No => Tried::No,
            }
        }
        Installed::Other(word) => Tried::Other(word),
    }
}

// Returns what a try says of the rebuild, if anything; helps a change that was met in its slot.
fn conclude(
    table: &TreeTable,
    who: &mut Caller,
    plan: PlannedFinish,
    tried: Tried,
) -> Option<Helped>
    requires ready { IsAtTable table.now IsReady who.old }
    requires plan { IsPlan who.old.token.view plan }
    requires yes { tried ≡ Yes → IsReplaced (now who.old.token.view) plan.rebuild }
    requires no { tried ≡ No → ¬ (IsOpen (now who.old.token.view) plan.parent) }
    requires other { (word : ℕ) → tried ≡ Other word
        → SlotHolds (now who.old.token.view) plan.parent plan.index word }
    requires differs { (word : ℕ) → tried ≡ Other word → word ≢ word_of (RebuildAt plan.rebuild) }
    ensures helped { HasHelped who.old who.new }
    ensures none { TakesNoWords who.old who.new }
    ensures held { who.new.change ≡ who.old.change }
    ensures again { result ≡ None → (word : ℕ) × (tried ≡ Other word) }
    ensures replaced { result ≡ Some Replaced → IsReplaced (now who.new.token.view) plan.rebuild }
    ensures left { result ≡ Some ParentMarked
        → IsLeftToParent (now who.new.token.view) plan.rebuild }
    ensures further { result ≡ None → CameFurther who.old.token.view who.new.token.view }
{
    know(&who.token);
    match tried {
        Tried::Yes => Some(Helped::Replaced),
        Tried::No => Some(settle(table, who, plan)),
        Tried::Other(word) => match meet(word, plan.rebuild) {
            SiteWord::Change(change) => {
                // Okay, Decide and Resolve. Meets any helper of the change.
                help(table, &mut who.token, change);
                None
            }
            SiteWord::Itself => unreachable!(),
            SiteWord::Another => Some(Helped::Replaced),
        },
    }
}

// Tries once to put the root of the rebuild in its place.
fn try_finish(
    table: &TreeTable,
    who: &mut Caller,
    plan: PlannedFinish,
) -> Result<Option<Helped>, Full>
    requires ready { IsAtTable table.now IsReady who.old }
    requires plan { IsPlan who.old.token.view plan }
    ensures helped { HasHelped who.old who.new }
    ensures few { let n = wanting who.old.change change_words in
        HasTakenFewIn result n 0 who.old who.new }
    ensures held { result ≡ Ok None → wanting who.new.change change_words ≡ 0 }
    ensures replaced { result ≡ Ok (Some Replaced)
        → IsReplaced (now who.new.token.view) plan.rebuild }
    ensures left { result ≡ Ok (Some ParentMarked)
        → IsLeftToParent (now who.new.token.view) plan.rebuild }
    ensures further { result ≡ Ok None → CameFurther who.old.token.view who.new.token.view }
    ensures full { IfErr result (λ full. IsHelpRefused who.old.token.view plan.rebuild
        (word_count_of table.now) full who.new.token.view) }
{
    know(&who.token);
    // A load. Meets a mark of the parent.
    if !is_open(table, &mut who.token, plan.parent) {
        return Ok(Some(settle(table, who, plan)));
    }
    let change = prepare(table, who, plan)?;
    let tried = carry(table, who, plan, change);
    Ok(conclude(table, who, plan, tried))
}

/// Puts the root of the rebuild in its place, or finds that the rebuild was replaced, or that it is
/// in its slot and its parent isn't open.
pub(crate) fn finish(
    table: &TreeTable,
    who: &mut Caller,
    plan: PlannedFinish,
) -> Result<Helped, Full>
    requires ready { IsAtTable table.now IsReady who.old }
    requires plan { IsPlan who.old.token.view plan }
    ensures helped { HasHelped who.old who.new }
    ensures few { let n = wanting who.old.change change_words in
        HasTakenFewIn result n 0 who.old who.new }
    ensures replaced { result ≡ Ok Replaced → IsReplaced (now who.new.token.view) plan.rebuild }
    ensures left { result ≡ Ok ParentMarked
        → IsLeftToParent (now who.new.token.view) plan.rebuild }
    ensures full { IfErr result (λ full. IsHelpRefused who.old.token.view plan.rebuild
        (word_count_of table.now) full who.new.token.view) }
{
    know(&who.token);
    'turns: loop {
        if let Some(helped) = try_finish(table, who, plan)? {
            return Ok(helped);
        }
    }
}
