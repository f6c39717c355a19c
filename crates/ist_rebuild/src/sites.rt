//! What a rebuild's row and its slot say.
ghost use Rattle.std.specs.Prelude.{◌≡◌, ◌≢◌, ℕ, ◌<◌, Some};
ghost use Rattle.ist_core.specs.Rebuilding.{IsStarted, IsReplaced};
ghost use Rattle.ist_core.specs.References.{ChangeAt, RebuildAt, ref_of};
ghost use Rattle.ist_core.specs.RowLayout.{anchor, rebuild_words};
ghost use Rattle.ist_core.specs.Slots.{SlotHolds, IsOpen};
ghost use Rattle.ist_rule.specs.Learning.{now, GoesOnTo};
ghost use Rattle.ist_build.specs.Calls.{IsBuiltOut};
ghost use Rattle.ist_rebuild.specs.declared.answers.Helped.TheVariants.{Replaced, ParentMarked};
ghost use Rattle.ist_rebuild.specs.declared.sites.SiteWord.TheVariants.{Change, Itself, Another};
ghost use Rattle.ist_dcss.specs.Reading.{IsRebuildRow};
ghost use Rattle.ist_rebuild.specs.Finishing.{IsWordOf, IsPlan};
ghost use Rattle.ist_rows.specs.Going.{IsReady};
ghost use Rattle.ist_rows.specs.Taken.{TakesNoWords};
ghost use Rattle.ist_rows.specs.Rows.{IsAtTable};
ghost use Rattle.ist_rebuild.specs.Helping.{IsLeftToParent, HasHelped};

use crate::answers::Helped;
use ist_dcss::{help, slot_at};
use ist_layout::{REBUILD_INDEX_OFFSET, REBUILD_PARENT_OFFSET, REBUILD_ROOT_OFFSET, Ref};
use ist_rows::Caller;
use ist_rule::{TreeTable, TreeToken, know, load};

/// What the finish of a rebuild will do: put this root into slot `index` of the parent.
#[derive(Clone, Copy, Drop)]
pub(crate) struct PlannedFinish {
    pub(crate) rebuild: u32,
    pub(crate) parent: u32,
    pub(crate) index: u64,
    pub(crate) root: u64,
}

/// What a word in the slot of a rebuild means for it.
#[derive(Clone, Copy, Drop)]
pub(crate) enum SiteWord {
    /// The word of a change.
    Change(u32),
    /// The word of the rebuild itself.
    Itself,
    /// Another word, which is no change's.
    Another,
}

// Loads a word of the rebuild's row.
fn field(table: &TreeTable, token: &mut TreeToken, rebuild: u32, offset: u64) -> u64
    requires same_table { token.old.view.table ≡ table.now.table }
    requires published { IsRebuildRow (now token.old.view) rebuild }
    requires within { offset < rebuild_words }
    ensures seen { GoesOnTo token.old.view token.new.view }
    ensures field { IsWordOf (now token.new.view) rebuild offset result }
{
    know(token);
    load(table, token, u64::from(rebuild) + offset)
}

/// Returns what the finish of a started rebuild will do, once its root is built.
pub(crate) fn plan_of(table: &TreeTable, token: &mut TreeToken, rebuild: u32) -> PlannedFinish
    requires same_table { token.old.view.table ≡ table.now.table }
    requires started { IsStarted (now token.old.view) rebuild }
    requires built { IsBuiltOut (now token.old.view) rebuild }
    ensures seen { GoesOnTo token.old.view token.new.view }
    ensures rebuild { result.rebuild ≡ rebuild }
    ensures plan { IsPlan token.new.view result }
{
    know(token);
    let parent = field(table, token, rebuild, REBUILD_PARENT_OFFSET);
    let index = field(table, token, rebuild, REBUILD_INDEX_OFFSET);
    let root = field(table, token, rebuild, REBUILD_ROOT_OFFSET);
    know(token);
    let parent = parent as u32;
    PlannedFinish {
        rebuild,
        parent,
        index,
        root,
    }
}

/// Returns what a word in the slot of the rebuild means for it.
pub(crate) fn meet(word: u64, rebuild: u32) -> SiteWord
    ensures change { (change : ℕ) → result ≡ Change change → ref_of word ≡ Some (ChangeAt change) }
    ensures itself { result ≡ Itself → ref_of word ≡ Some (RebuildAt rebuild) }
    ensures no_change { result ≡ Another → (change : ℕ) → ref_of word ≢ Some (ChangeAt change) }
    ensures another { result ≡ Another → ref_of word ≢ Some (RebuildAt rebuild) }
{
    match Ref::from_word(word) {
        Some(Ref::Change { base }) => SiteWord::Change(base),
        Some(Ref::Rebuild { base }) => {
            if base == rebuild {
                SiteWord::Itself
            } else {
                SiteWord::Another
            }
        }
        Some(Ref::Empty) => SiteWord::Another,
        Some(Ref::Unset) => SiteWord::Another,
        Some(Ref::Leaf { base: _ }) => SiteWord::Another,
        Some(Ref::Inner { base: _ }) => SiteWord::Another,
        None => SiteWord::Another,
    }
}

// Loads the word in the slot of the rebuild, which isn't the anchor's.
fn slot_word(table: &TreeTable, token: &mut TreeToken, plan: PlannedFinish) -> u64
    requires same_table { token.old.view.table ≡ table.now.table }
    requires plan { IsPlan token.old.view plan }
    requires other { plan.parent ≢ anchor }
    ensures seen { GoesOnTo token.old.view token.new.view }
    ensures holds { SlotHolds (now token.new.view) plan.parent plan.index result }
{
    know(token);
    let place = slot_at(table, token, u64::from(plan.parent), plan.index);
    know(token);
    // A load. Meets an install in the slot, and what a helper leaves there.
    load(table, token, place)
}

/// Returns what became of a rebuild whose parent isn't open, by a last load of its slot, after
/// helping the changes that are there. Each help resolves one, so that there are few.
pub(crate) fn settle(table: &TreeTable, who: &mut Caller, plan: PlannedFinish) -> Helped
    requires ready { IsAtTable table.now IsReady who.old }
    requires plan { IsPlan who.old.token.view plan }
    requires closed { ¬ (IsOpen (now who.old.token.view) plan.parent) }
    ensures helped { HasHelped who.old who.new }
    ensures none { TakesNoWords who.old who.new }
    ensures held { who.new.change ≡ who.old.change }
    ensures replaced { result ≡ Replaced → IsReplaced (now who.new.token.view) plan.rebuild }
    ensures left { result ≡ ParentMarked → IsLeftToParent (now who.new.token.view) plan.rebuild }
{
    know(&who.token);
    'turns: loop {
        let word = slot_word(table, &mut who.token, plan);
        know(&who.token);
        match meet(word, plan.rebuild) {
            // Okay, Decide and Resolve. Meets any helper of the change.
            SiteWord::Change(change) => help(table, &mut who.token, change),
            SiteWord::Itself => return Helped::ParentMarked,
            SiteWord::Another => return Helped::Replaced,
        };
    }
}
