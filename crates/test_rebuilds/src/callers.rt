//! Callers in a call, which start, mark, build and help rebuilds of what stands below the anchor.
ghost use Rattle.std.specs.Prelude.{◌≡◌, ◌+◌, ◌<◌, ℕ, Ok, IfOk, IfSome};
ghost use Rattle.ist_build.specs.Calls.{IsBuildable, IsRooted};
ghost use Rattle.ist_core.specs.Enabled.{caller_limit};
ghost use Rattle.ist_core.specs.Rebuilding.{IsStarted};
ghost use Rattle.ist_core.specs.RowLayout.{anchor};
ghost use Rattle.ist_core.specs.Slots.{SlotHolds};
ghost use Rattle.test_rebuilds.specs.Steps.{IsMakerAt, HasMarkedTarget};
ghost use Rattle.ist_rebuild.specs.declared.answers.Started.TheVariants.{Yes};
ghost use Rattle.ist_rows.specs.Going.{IsReady};
ghost use Rattle.ist_rows.specs.Rows.{IsAtTable};
ghost use Rattle.ist_rebuild.specs.Starting.{MayStart};
ghost use Rattle.ist_rule.specs.Learning.{now};

use ist_build::{fill_parts, set_root};
use ist_core::Full;
use ist_dcss::target_of;
use ist_layout::{ANCHOR, Ref};
use ist_mark::mark_and_count;
use ist_rebuild::{Helped, Started, help_rebuild, start};
use ist_rows::{Caller, enter};
use ist_rule::{TreeTable, TreeToken, begin_call, begin_search, know, load_top};

/// A finished row, and how many keys it has.
#[derive(Clone, Copy, Drop)]
pub(crate) struct Marked {
    pub(crate) target: u32,
    pub(crate) keys: u64,
}

/// The next caller, in a call of its own.
pub(crate) fn enter_call(table: &TreeTable, maker: &mut TreeToken) -> Caller
    requires maker { IsMakerAt table.now maker.old.view.made maker.old }
    requires few { maker.old.view.made < caller_limit }
    ensures ready { IsAtTable table.now IsReady result }
    ensures maker { IsMakerAt table.now (maker.old.view.made + 1) maker.new }
{
    let mut who = enter(table, maker);
    know(&who.token);
    begin_call(table, &mut who.token, None);
    who
}

// Returns the word in the anchor's slot.
fn slot_word(table: &TreeTable, who: &mut Caller) -> u64
    requires ready { IsAtTable table.now IsReady who.old }
    ensures ready { IsAtTable table.now IsReady who.new }
    ensures holds { SlotHolds (now who.new.token.view) anchor 0 result }
{
    know(&who.token);
    begin_search(table, &mut who.token);
    load_top(table, &mut who.token)
}

/// Returns the inner row below the anchor, if there is one: a rebuild of it may be started.
pub(crate) fn see_row(table: &TreeTable, who: &mut Caller) -> Option<u32>
    requires ready { IsAtTable table.now IsReady who.old }
    ensures ready { IsAtTable table.now IsReady who.new }
    ensures may_start { IfSome result (MayStart who.new.token.view anchor 0) }
{
    let word = slot_word(table, who);
    know(&who.token);
    match Ref::from_word(word) {
        Some(Ref::Inner { base }) => Some(base),
        _ => None,
    }
}

/// Starts a rebuild of the row that the caller has seen below the anchor.
pub(crate) fn begin(table: &TreeTable, who: &mut Caller, target: u32) -> Result<Started, Full>
    requires ready { IsAtTable table.now IsReady who.old }
    requires may_start { MayStart who.old.token.view anchor 0 target }
    ensures ready { IsAtTable table.now IsReady who.new }
    ensures started { (rebuild : ℕ) → result ≡ Ok (Yes rebuild)
        → IsStarted (now who.new.token.view) rebuild }
{
    start(table, who, ANCHOR, 0, target)
}

/// Returns the rebuild below the anchor, if there is one.
pub(crate) fn see_rebuild(table: &TreeTable, who: &mut Caller) -> Option<u32>
    requires ready { IsAtTable table.now IsReady who.old }
    ensures ready { IsAtTable table.now IsReady who.new }
    ensures started { IfSome result (IsStarted (now who.new.token.view)) }
{
    let word = slot_word(table, who);
    know(&who.token);
    match Ref::from_word(word) {
        Some(Ref::Rebuild { base }) => Some(base),
        _ => None,
    }
}

/// Marks the target of the rebuild, and counts its keys.
pub(crate) fn mark(table: &TreeTable, who: &mut Caller, rebuild: u32) -> Marked
    requires ready { IsAtTable table.now IsReady who.old }
    requires started { IsStarted (now who.old.token.view) rebuild }
    ensures ready { IsAtTable table.now IsReady who.new }
    ensures marked { HasMarkedTarget (now who.new.token.view) rebuild result.target result.keys }
    ensures started { IsStarted (now who.new.token.view) rebuild }
    ensures buildable { IsBuildable (now who.new.token.view) rebuild }
{
    know(&who.token);
    let target = target_of(table, &mut who.token, rebuild);
    let keys = mark_and_count(table, &mut who.token, target);
    Marked { target, keys }
}

/// Gives the rebuild its root.
pub(crate) fn set(table: &TreeTable, who: &mut Caller, rebuild: u32) -> Result<Ref, Full>
    requires ready { IsAtTable table.now IsReady who.old }
    requires buildable { IsBuildable (now who.old.token.view) rebuild }
    ensures ready { IsAtTable table.now IsReady who.new }
    ensures buildable { IsBuildable (now who.new.token.view) rebuild }
    ensures started { IsStarted (now who.new.token.view) rebuild }
    ensures rooted { IfOk result (λ root. IsRooted (now who.new.token.view) rebuild) }
{
    know(&who.token);
    set_root(table, who, rebuild)
}

/// Fills the parts of the rebuild's root.
pub(crate) fn fill_all(table: &TreeTable, who: &mut Caller, rebuild: u32) -> Result<(), Full>
    requires ready { IsAtTable table.now IsReady who.old }
    requires buildable { IsBuildable (now who.old.token.view) rebuild }
    requires rooted { IsRooted (now who.old.token.view) rebuild }
    ensures ready { IsReady who.new }
{
    know(&who.token);
    fill_parts(table, who, rebuild)
}

/// Helps the rebuild until it is done.
pub(crate) fn help_on(table: &TreeTable, who: &mut Caller, rebuild: u32) -> Result<Helped, Full>
    requires ready { IsAtTable table.now IsReady who.old }
    requires started { IsStarted (now who.old.token.view) rebuild }
    ensures ready { IsAtTable table.now IsReady who.new }
    ensures started { IsStarted (now who.new.token.view) rebuild }
{
    know(&who.token);
    help_rebuild(table, who, rebuild)
}
