//! Deciding an installed change, and taking it out of its slot.
ghost use Rattle.std.specs.Prelude.{◌≡◌, ◌<◌, ◌==◌};
ghost use Rattle.ist_core.specs.RowLayout.{change_words};
ghost use Rattle.ist_core.specs.Statuses.{open_word, decided_yes};
ghost use Rattle.ist_core.specs.After.{decision_word};
ghost use Rattle.ist_dcss.specs.declared.decisions.Decision.TheVariants.{Yes, No};
ghost use Rattle.ist_rule.specs.Going.{WentOn, KeepsSearch};
ghost use Rattle.ist_dcss.specs.Helping.{MayHelp, Serves, is_yes, IsDecided};
ghost use Rattle.ist_dcss.specs.Helping.{WasOpen, WasClosed, IsOut};
ghost use Rattle.ist_dcss.specs.HelpEvents.{standing, outcome_offset_of, IsField, IsSlotOf};

use crate::decisions::Decision;
use crate::opening::status_place;
use crate::slots::slot_at;
use ist_layout::{
    CHANGE_DECISION_OFFSET, CHANGE_FROM_OFFSET, CHANGE_INDEX_OFFSET, CHANGE_NODE_OFFSET,
    CHANGE_TO_OFFSET, DECIDED_NO, DECIDED_YES, Ref, UNDECIDED,
};
use ist_rule::{TreeTable, TreeToken, exchange, know, load, load_okay};

// Returns how a change must be decided if its node had this status.
fn decision_for(status: u64) -> u64
    ensures value { result ≡ decision_word (status == open_word) }
{
    if status == 0 { DECIDED_YES } else { DECIDED_NO }
}

// Returns the decision that holds after an exchange to `wanted` that found `stood`.
fn decision_of(wanted: u64, stood: u64) -> Decision
    ensures value { is_yes result ≡ (standing wanted stood == decided_yes) }
{
    let decision = if stood == UNDECIDED { wanted } else { stood };
    if decision == DECIDED_YES {
        Decision::Yes
    } else {
        Decision::No
    }
}

// Returns which word of the change its slot gets after this decision.
fn side_offset(decision: Decision) -> u64
    ensures value { result ≡ outcome_offset_of (is_yes decision) }
    ensures within { result < change_words }
{
    match decision {
        Decision::Yes => CHANGE_TO_OFFSET,
        Decision::No => CHANGE_FROM_OFFSET,
    }
}

// Loads a word of the change's row.
fn field(table: &TreeTable, token: &mut TreeToken, change: u32, offset: u64) -> u64
    requires same_table { token.old.view.table ≡ table.now.table }
    requires may_help { MayHelp token.old.view change }
    requires within { offset < change_words }
    ensures went { WentOn (Serves change) token.old.view token.new.view }
    ensures search { KeepsSearch token.old.view token.new.view }
    ensures field { IsField token.new.view change offset result }
{
    know(token);
    load(table, token, u64::from(change) + offset)
}

// Looks at the node, decides the change by what it saw, and returns the decision that holds.
fn decide(table: &TreeTable, token: &mut TreeToken, change: u32) -> Decision
    requires same_table { token.old.view.table ≡ table.now.table }
    requires may_help { MayHelp token.old.view change }
    ensures went { WentOn (Serves change) token.old.view token.new.view }
    ensures search { KeepsSearch token.old.view token.new.view }
    ensures decided { IsDecided token.new.view change (is_yes result) }
{
    let node = field(table, token, change, CHANGE_NODE_OFFSET);
    // Okay if the node is open and no one has decided the change, and otherwise a load. Meets a
    // mark of the node, and another helper's Decide.
    let status = load_okay(table, token, change, status_place(node));
    know(token);
    let wanted = decision_for(status);
    // Decide. Meets another helper's.
    let stood = exchange(
        table,
        token,
        u64::from(change) + CHANGE_DECISION_OFFSET,
        UNDECIDED,
        wanted,
    );
    decision_of(wanted, stood)
}

// Returns the place of the change's slot.
fn slot_of(table: &TreeTable, token: &mut TreeToken, change: u32) -> u64
    requires same_table { token.old.view.table ≡ table.now.table }
    requires may_help { MayHelp token.old.view change }
    ensures went { WentOn (Serves change) token.old.view token.new.view }
    ensures search { KeepsSearch token.old.view token.new.view }
    ensures slot { IsSlotOf token.new.view change result }
{
    let node = field(table, token, change, CHANGE_NODE_OFFSET);
    let index = field(table, token, change, CHANGE_INDEX_OFFSET);
    slot_at(table, token, node, index)
}

// Takes a decided change out of its slot, if no one has done so.
fn resolve(table: &TreeTable, token: &mut TreeToken, change: u32, decision: Decision)
    requires same_table { token.old.view.table ≡ table.now.table }
    requires may_help { MayHelp token.old.view change }
    requires decided { IsDecided token.old.view change (is_yes decision) }
    ensures went { WentOn (Serves change) token.old.view token.new.view }
    ensures search { KeepsSearch token.old.view token.new.view }
    ensures out { IsOut token.new.view change }
{
    let place = slot_of(table, token, change);
    let side = field(table, token, change, side_offset(decision));
    know(token);
    let word = Ref::Change { base: change }.to_word();
    // Resolve. Meets another helper's, and what was installed after it.
    exchange(table, token, place, word, side);
}

/// Decides an installed change, if no one has, takes it out of its slot, and returns how it was
/// decided.
///
/// Returns `Yes` only if its node was open at a step after the installing, and `No` only if the
/// node wasn't open at one. Takes a bounded number of steps.
pub fn help(table: &TreeTable, token: &mut TreeToken, change: u32) -> Decision
    requires same_table { token.old.view.table ≡ table.now.table }
    requires may_help { MayHelp token.old.view change }
    ensures went { WentOn (Serves change) token.old.view token.new.view }
    ensures search { KeepsSearch token.old.view token.new.view }
    ensures decided { IsDecided token.new.view change (is_yes result) }
    ensures yes { result ≡ Yes → WasOpen token.new.view change }
    ensures no { result ≡ No → WasClosed token.new.view change }
    ensures out { IsOut token.new.view change }
{
    let decision = decide(table, token, change);
    resolve(table, token, change, decision);
    decision
}
