//! Starting a rebuild.
ghost use Rattle.std.specs.Prelude.{◌≡◌, ℕ, Ok, IfErr, IsTrue, false};
ghost use Rattle.ist_core.specs.Installing.{IsUnrefused};
ghost use Rattle.ist_core.specs.Slots.{IsOpen};
ghost use Rattle.ist_core.specs.Snapshots.{Snapshot};
ghost use Rattle.ist_dcss.specs.Installing.{Filling};
ghost use Rattle.ist_rebuild.specs.declared.answers.Started.TheVariants.{Yes, Other, Marked};
ghost use Rattle.ist_rule.specs.Faces.{word_count_of};
ghost use Rattle.ist_rule.specs.Going.{WentOn};
ghost use Rattle.ist_rule.specs.Learning.{now};
ghost use Rattle.ist_rows.specs.Building.{HasRefused};
ghost use Rattle.ist_rows.specs.Rows.{IsCaller, IsAtTable};
ghost use Rattle.ist_rows.specs.Taken.{HasTakenFew, TakesNoWords};
ghost use Rattle.ist_rebuild.specs.Needs.{needed};
ghost use Rattle.ist_rebuild.specs.Going.{Begins, KeepsFresh, StartsAt};
ghost use Rattle.ist_rebuild.specs.Lacking.{LacksKind};
ghost use Rattle.ist_rows.specs.Going.{IsQuiet};
ghost use Rattle.ist_rebuild.specs.Starting.{MayStart, IsStartedAt, StoodInstead, LeavesDone, StartsDoneSince};
ghost use Rattle.ist_rebuild.specs.Starting.{IsStartRefused, LeavesUninstalled, LeavesUnstarted};
ghost use Rattle.ist_rebuild.specs.StartSteps.{HasBegun, HasReserved, IsStartReady};
ghost use Rattle.ist_rebuild.specs.StartSteps.{TellsStart, start_filling};

use crate::answers::Started;
use crate::start_rows::{StartRows, prepare};
use ist_core::Full;
use ist_dcss::{Decision, Installed, help, install, is_open};
use ist_rows::Caller;
use ist_rule::{TreeTable, know};

// A start whose rows are filled: its slot, the target that was there, the rows.
#[derive(Clone, Copy, Drop)]
struct FilledStart {
    parent: u32,
    index: u64,
    target: u32,
    rows: StartRows,
}

// Installs the change whose rows are filled, and helps it until it is out of its slot.
fn put_in(table: &TreeTable, who: &mut Caller, plan: FilledStart) -> Started
    ghost filling: { Filling }
    requires same_table { who.old.token.view.table ≡ table.now.table }
    requires ready { IsStartReady who.old plan.rows.rebuild plan.rows.change filling }
    requires filled { let number = who.old.number in filling
        ≡ start_filling number plan.parent plan.index plan.target plan.rows.rebuild }
    ensures begun { HasBegun plan.target who.old who.new }
    ensures none { TakesNoWords who.old who.new }
    ensures told { TellsStart who.old who.new plan.parent plan.index plan.target (Ok result) }
{
    know(&who.token);
    // Install. Meets another caller's in the slot, and what a helper left there.
    if let Installed::Other(word) = install(table, &mut who.token, plan.rows.change) {
        return Started::Other(word);
    }
    who.change = None;
    who.rebuild = None;
    // Okay, Decide and Resolve. Meets a mark of the parent, and any other helper of the change.
    match help(table, &mut who.token, plan.rows.change) {
        Decision::Yes => Started::Yes {
            rebuild: plan.rows.rebuild,
        },
        Decision::No => Started::Marked,
    }
}

// Returns whether the parent is open.
fn parent_is_open(table: &TreeTable, who: &mut Caller, parent: u32, index: u64, target: u32) -> bool
    requires caller { IsAtTable table.now IsCaller who.old }
    requires quiet { IsQuiet who.old }
    requires may_start { MayStart who.old.token.view parent index target }
    ensures reserved { HasReserved who.old who.new }
    ensures may_start { MayStart who.new.token.view parent index target }
    ensures open { IsTrue result → IsUnrefused (now who.new.token.view) who.new.number parent }
    ensures closed { result ≡ false → ¬ (IsOpen (now who.new.token.view) parent) }
{
    know(&who.token);
    // A load. Meets a mark of the parent.
    is_open(table, &mut who.token, parent)
}

// Starts the rebuild in a parent that was open, if there is room for its rows.
fn start_open(
    table: &TreeTable,
    who: &mut Caller,
    parent: u32,
    index: u64,
    target: u32,
) -> Result<Started, Full>
    requires caller { IsAtTable table.now IsCaller who.old }
    requires quiet { IsQuiet who.old }
    requires may_start { MayStart who.old.token.view parent index target }
    requires unrefused { IsUnrefused (now who.old.token.view) who.old.number parent }
    ensures begun { HasBegun target who.old who.new }
    ensures few { HasTakenFew (needed who.old) 0 who.old who.new }
    ensures told { TellsStart who.old who.new parent index target result }
    ensures full { IfErr result (λ full.
        IsStartRefused who.old.token.view (word_count_of table.now) full who.new.token.view) }
    ensures lacks { IfErr result (λ full. LacksKind who.new full.asked) }
{
    let rows = prepare(table, who, parent, index, target)?;
    let plan = FilledStart {
        parent,
        index,
        target,
        rows,
    };
    Ok(put_in(table, who, plan))
}

/// Starts a rebuild of the target, which was in slot `index` of the parent: replaces it by a fresh
/// rebuild, by a change.
///
/// It loads the parent's status first. Returns `Yes` if the change was decided yes; `Other` if the
/// slot held that word and not the target when the change was about to be installed; `Marked` only
/// if the parent isn't open. Returns `Full` if a load of the first word in this call left too few
/// words for the rebuild's row or the change's, of which the caller held none. With `Other` and
/// `Full` nothing was installed, and with `Marked` no rebuild was started; a rebuild row that was
/// reserved stays held for the next start. Allocates nothing, and always returns.
///
/// Source: Brown, Prokopec and Alistarh, "Non-Blocking Interpolation Search Trees with
/// Doubly-Logarithmic Running Time", PPoPP 2020.
pub fn start(
    table: &TreeTable,
    who: &mut Caller,
    parent: u32,
    index: u64,
    target: u32,
) -> Result<Started, Full>
    requires caller { IsAtTable table.now IsCaller who.old }
    requires quiet { IsQuiet who.old }
    requires may_start { MayStart who.old.token.view parent index target }
    ensures caller { IsCaller who.new }
    ensures number { who.new.number ≡ who.old.number }
    ensures fresh { KeepsFresh who.old who.new }
    ensures went { WentOn Begins who.old.token.view who.new.token.view }
    ensures aims { WentOn (StartsAt target) who.old.token.view who.new.token.view }
    ensures quiet { IsQuiet who.new }
    ensures refused { HasRefused who.old → HasRefused who.new }
    ensures few { HasTakenFew (needed who.old) 0 who.old who.new }
    ensures yes { (rebuild : ℕ) → result ≡ Ok (Yes rebuild)
        → IsStartedAt (now who.new.token.view) rebuild parent index target }
    ensures other { (word : ℕ) → result ≡ Ok (Other word)
        → StoodInstead who.new.token.view parent index target word }
    ensures marked { result ≡ Ok Marked → ¬ (IsOpen (now who.new.token.view) parent) }
    ensures full { IfErr result (λ full.
        IsStartRefused who.old.token.view (word_count_of table.now) full who.new.token.view) }
    ensures lacks { IfErr result (λ full. LacksKind who.new full.asked) }
    ensures done { (first : Snapshot)
        → StartsDoneSince first (now who.old.token.view) who.old.number
        → LeavesDone first (now who.new.token.view) who.old.number result }
    ensures unstarted { let old = now who.old.token.view in
        LeavesUnstarted old (now who.new.token.view) who.old.number result }
    ensures uninstalled { LeavesUninstalled who.old who.new result }
{
    if parent_is_open(table, who, parent, index, target) {
        start_open(table, who, parent, index, target)
    } else {
        Ok(Started::Marked)
    }
}
