//! Helping a rebuild until it is done.
ghost use Rattle.std.specs.Prelude.{◌≡◌, ℕ, ◌+◌, Ok, IfErr};
ghost use Rattle.std.specs.List.{sum};
ghost use Rattle.ist_core.specs.RowLayout.{change_words};
ghost use Rattle.ist_core.specs.Shapes.{shape};
ghost use Rattle.ist_core.specs.Rebuilding.{IsStarted, IsReplaced};
ghost use Rattle.ist_rebuild.specs.declared.answers.Helped.TheVariants.{Replaced, ParentMarked};
ghost use Rattle.ist_rule.specs.Faces.{word_count_of};
ghost use Rattle.ist_rule.specs.Learning.{now};
ghost use Rattle.ist_build.specs.Calls.{IsBuildable, IsTold};
ghost use Rattle.ist_rows.specs.Taken.{HasTakenFewIn, TakesNoWords};
ghost use Rattle.ist_rows.specs.Going.{IsReady};
ghost use Rattle.ist_rows.specs.Rows.{IsAtTable};
ghost use Rattle.ist_rebuild.specs.Helping.{IsLeftToParent, IsHelpRefused, HasHelped};

use crate::answers::Helped;
use crate::finishing::{build_out, finish};
use crate::sites::plan_of;
use ist_core::Full;
use ist_dcss::target_of;
use ist_mark::mark_and_count_from;
use ist_rows::Caller;
use ist_rule::{TreeTable, know};

// Marks the target of a started rebuild, and counts its keys; then the rebuild may be built.
fn mark_target(table: &TreeTable, who: &mut Caller, rebuild: u32)
    requires ready { IsAtTable table.now IsReady who.old }
    requires started { IsStarted (now who.old.token.view) rebuild }
    ensures helped { HasHelped who.old who.new }
    ensures none { TakesNoWords who.old who.new }
    ensures buildable { IsBuildable (now who.new.token.view) rebuild }
{
    know(&who.token);
    let target = target_of(table, &mut who.token, rebuild);
    mark_and_count_from(table, &mut who.token, target, who.number);
}

/// Helps a started rebuild until it is done: marks its target and counts the keys, sets its root,
/// fills the root's parts, and replaces the target by the root, by a change.
///
/// Returns `Replaced` only if a finish of this rebuild was decided yes, and `ParentMarked` only if
/// the parent isn't open: the rebuild is still in its slot, and reads as its target. In each case
/// the target is then finished: it is marked, with all below it, and its keys are counted. Any
/// number of callers may help one rebuild, and each of them may stop at any step. Returns `Full` if
/// a load of the first word in this call left too few words for the change, or for a row of what is
/// built; the rows of a refused build stay held. Begins again only after another's change came
/// between, always returns, and allocates nothing.
///
/// Source: Brown, Prokopec and Alistarh, "Non-Blocking Interpolation Search Trees with
/// Doubly-Logarithmic Running Time", PPoPP 2020.
pub fn help_rebuild(table: &TreeTable, who: &mut Caller, rebuild: u32) -> Result<Helped, Full>
    requires ready { IsAtTable table.now IsReady who.old }
    requires started { IsStarted (now who.old.token.view) rebuild }
    ensures helped { HasHelped who.old who.new }
    ensures few { (k : ℕ) → IsTold (now who.old.token.view) rebuild k
        → HasTakenFewIn result (sum (shape k) + change_words) 0 who.old who.new }
    ensures finished { IsBuildable (now who.new.token.view) rebuild }
    ensures replaced { result ≡ Ok Replaced → IsReplaced (now who.new.token.view) rebuild }
    ensures parent_marked { result ≡ Ok ParentMarked
        → IsLeftToParent (now who.new.token.view) rebuild }
    ensures full { IfErr result (λ full. IsHelpRefused who.old.token.view rebuild
        (word_count_of table.now) full who.new.token.view) }
{
    mark_target(table, who, rebuild);
    build_out(table, who, rebuild)?;
    let plan = plan_of(table, &mut who.token, rebuild);
    finish(table, who, plan)
}
