//! Rebuilding a row that reached its limit.
ghost use Rattle.std.specs.Prelude.{◌≡◌, ℕ, Ok, IfErr};
ghost use Rattle.ist_core.specs.References.{ref_of};
ghost use Rattle.ist_core.specs.Slots.{IsOpen};
ghost use Rattle.ist_core.specs.Snapshots.{Snapshot};
ghost use Rattle.ist_rule.specs.Faces.{word_count_of};
ghost use Rattle.ist_rule.specs.Learning.{now};
ghost use Rattle.ist_rows.specs.Going.{IsReady};
ghost use Rattle.ist_rows.specs.Rows.{IsAtTable};
ghost use Rattle.ist_rebuild.specs.declared.answers.Started.TheVariants.{Yes, Other, Marked};
ghost use Rattle.ist_rebuild.specs.Starting.{IsStartedAt, LeavesDone, MayStart, StartsDoneSince, StoodInstead};
ghost use Rattle.ist_tree.specs.Attempts.{GoesFor, HelpsOther, HelpsOwn, RebuildsRow, TriesOnce};
ghost use Rattle.ist_tree.specs.Working.{IsDueRefused, instead_of};

use ist_core::Full;
use ist_dcss::{help, is_open};
use ist_layout::Ref;
use ist_rebuild::{Started, help_rebuild, start};
use ist_rows::Caller;
use ist_rule::{TreeTable, know};
use ist_updates::Due;

/// What a slot holds instead of a row.
#[derive(Clone, Copy, Drop)]
pub(crate) enum Instead {
    /// A rebuild with this base.
    Rebuild(u32),
    /// A change with this base.
    Change(u32),
    /// Neither.
    Other,
}

// What the word names.
fn instead_in(word: u64) -> Instead
    ensures value { result ≡ instead_of (ref_of word) }
{
    match Ref::from_word(word) {
        Some(Ref::Rebuild { base }) => Instead::Rebuild(base),
        Some(Ref::Change { base }) => Instead::Change(base),
        Some(Ref::Leaf { base: _ }) => Instead::Other,
        Some(Ref::Inner { base: _ }) => Instead::Other,
        Some(Ref::Empty) => Instead::Other,
        Some(Ref::Unset) => Instead::Other,
        None => Instead::Other,
    }
}

// Starts a rebuild of the row, or finds what stops it.
fn start_due(table: &TreeTable, who: &mut Caller, due: Due) -> Result<Started, Full>
    requires ready { IsAtTable table.now IsReady who.old }
    requires may_start { MayStart who.old.token.view due.parent due.index due.target }
    ensures on { GoesFor who.old who.new due.target }
    ensures yes { (rebuild : ℕ) → result ≡ Ok (Yes rebuild)
        → IsStartedAt (now who.new.token.view) rebuild due.parent due.index due.target }
    ensures other { (word : ℕ) → result ≡ Ok (Other word)
        → StoodInstead who.new.token.view due.parent due.index due.target word }
    ensures marked { result ≡ Ok Marked → ¬ (IsOpen (now who.new.token.view) due.parent) }
    ensures done { (first : Snapshot)
        → StartsDoneSince first (now who.old.token.view) who.old.number
        → LeavesDone first (now who.new.token.view) who.old.number result }
    ensures full { IfErr result (λ full.
        IsDueRefused (now who.old.token.view) who.new.token.view due (word_count_of table.now) full) }
{
    // Install, Okay, Decide and Resolve of a start. Meets whoever changes the row's slot.
    start(table, who, due.parent, due.index, due.target)
}

// Helps the rebuild that was started of the row.
fn help_own(table: &TreeTable, who: &mut Caller, due: Due, rebuild: u32) -> Result<(), Full>
    requires ready { IsAtTable table.now IsReady who.old }
    requires started { IsStartedAt (now who.old.token.view) rebuild due.parent due.index due.target }
    ensures helped { HelpsOwn who.old who.new due (word_count_of table.now) rebuild result }
{
    match help_rebuild(table, who, rebuild) {
        Ok(_) => Ok(()),
        Err(full) => Err(full),
    }
}

// Helps what the slot holds instead of the row that was due for a rebuild: a rebuild, or a change.
fn help_other(table: &TreeTable, who: &mut Caller, due: Due, word: u64) -> Result<(), Full>
    requires ready { IsAtTable table.now IsReady who.old }
    requires stood { StoodInstead who.old.token.view due.parent due.index due.target word }
    ensures helped { HelpsOther who.old who.new due (word_count_of table.now) word result }
{
    know(&who.token);
    match instead_in(word) {
        Instead::Rebuild(base) => match help_rebuild(table, who, base) {
            Ok(_) => Ok(()),
            Err(full) => Err(full),
        },
        Instead::Change(base) => {
            // Okay, Decide and Resolve. Meets another helper's, and a mark of the node.
            help(table, &mut who.token, base);
            Ok(())
        }
        Instead::Other => Ok(()),
    }
}

// Tries once to rebuild the row. Returns whether that was the last try: the row or its parent isn't
// open.
fn try_due(table: &TreeTable, who: &mut Caller, due: Due) -> Result<bool, Full>
    requires ready { IsAtTable table.now IsReady who.old }
    requires may_start { MayStart who.old.token.view due.parent due.index due.target }
    ensures tried { TriesOnce who.old who.new due (word_count_of table.now) result }
{
    match start_due(table, who, due)? {
        Started::Yes { rebuild } => {
            help_own(table, who, due, rebuild)?;
            Ok(true)
        }
        Started::Marked => Ok(true),
        Started::Other(word) => {
            help_other(table, who, due, word)?;
            Ok(!is_open(table, &mut who.token, due.target))
        }
    }
}

/// Rebuilds the row, or finds that it or its parent isn't open. Helps what others put in its slot,
/// and tries again only after a change of another was resolved.
pub(crate) fn rebuild_due(table: &TreeTable, who: &mut Caller, due: Due) -> Result<(), Full>
    requires ready { IsAtTable table.now IsReady who.old }
    requires may_start { MayStart who.old.token.view due.parent due.index due.target }
    ensures rebuilt { RebuildsRow who.old who.new due (word_count_of table.now) result }
{
    know(&who.token);
    'turns: loop {
        if try_due(table, who, due)? {
            return Ok(());
        }
    }
}
