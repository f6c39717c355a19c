//! Carrying out one put or remove.
ghost use Rattle.std.specs.Prelude.{◌≡◌, ◌≢◌, true, None, Ok, IfOk, IfErr, OnErr};
ghost use Rattle.ist_core.specs.Standing.{makes_entry};
ghost use Rattle.ist_rule.specs.Conditions.{CanGiveUp};
ghost use Rattle.ist_rule.specs.Faces.{word_count_of};
ghost use Rattle.ist_rule.specs.Going.{SearchedOn};
ghost use Rattle.ist_rows.specs.Building.{HasRefused};
ghost use Rattle.ist_rows.specs.Rows.{IsCaller, IsAtTable};
ghost use Rattle.ist_rows.specs.Going.{IsQuiet};
ghost use Rattle.ist_updates.specs.declared.updates.Outcome.TheVariants.{Unmet};
ghost use Rattle.ist_updates.specs.Asking.{command_for, IsAsked, Updates, MayEnd};
ghost use Rattle.ist_updates.specs.Counting.{CountedNowhere, IsCounted, LeavesDue};
ghost use Rattle.ist_updates.specs.Further.{HasWalkedFew};
ghost use Rattle.ist_updates.specs.Meeting.{due_in, reply_in, IsMetAs, WasMissed};
ghost use Rattle.ist_updates.specs.Refusals.{WasRefused};

use crate::updates::{Outcome, Update};
use crate::walking::descend;
use ist_core::Full;
use ist_layout::ANCHOR;
use ist_rows::Caller;
use ist_rule::{TreeTable, begin_search, know};

/// Inserts or replaces the value at the key, or removes the key, if the key has a value at which the
/// update should take effect. Returns how it ended.
///
/// It walks from the anchor down, helps each change and rebuild that it meets, and begins again after
/// each. Once the update took effect, it is counted at each inner row on its way, from the lowest up.
/// `due` is the topmost row whose count reached its limit by this.
///
/// Returns `Unmet` if the key had another value at a moment of this call. Nothing took effect then,
/// nothing was counted, and the call may be given up. The value is compared after the slot's word was
/// loaded, and the change is installed over that very word: if the value was replaced in between, the
/// install fails and the walk begins again.
///
/// Returns `Full` if a load of the first word in this call left too few words for a row of the update,
/// or for a row of a rebuild that it met. Nothing took effect then, and nothing was counted.
///
/// Always returns, and takes no memory. It begins one walk, and another only after the table made
/// progress since the last one began.
pub fn apply(table: &TreeTable, who: &mut Caller, update: Update) -> Result<Outcome, Full>
    requires asked { IsAtTable table.now
        (λ x. IsAsked x (command_for update.key update.value)) who.old }
    ensures caller { IsCaller who.new }
    ensures number { who.new.number ≡ who.old.number }
    ensures refused { HasRefused who.new }
    ensures quiet { IsQuiet who.new }
    ensures went { SearchedOn Updates who.old.token.view who.new.token.view }
    ensures few_walks { HasWalkedFew who.old.token.view who.new.token.view }
    ensures answered { let command = command_for update.key update.value in
        IfOk result (λ o. o ≢ Unmet → MayEnd who.new command (reply_in o)) }
    ensures counted { let v = who.old.token.view in
        let command = command_for update.key update.value in
        IfOk result (λ o. o ≢ Unmet → makes_entry command (reply_in o) ≡ true
        → IsCounted v.start v.words v.log who.new.token.view.log who.old.number command) }
    ensures due { IfOk result (λ o.
        LeavesDue who.old.token.view who.new.token.view who.old.number (due_in o)) }
    ensures met { IfOk result (IsMetAs update.when) }
    ensures missed { result ≡ Ok Unmet
        → WasMissed who.old.token.view who.new.token.view update.key update.when }
    ensures unmet { result ≡ Ok Unmet → CanGiveUp who.new.token.view }
    ensures none_counted { result ≡ Ok Unmet
        → CountedNowhere who.old.token.view.log who.new.token.view.log who.old.number }
    ensures full { IfErr result (λ full. WasRefused who.old.token.view update.key update.value
        (word_count_of table.now) full who.new.token.view) }
    ensures given_up { IfErr result (λ full. CanGiveUp who.new.token.view) }
    ensures none_due { OnErr result
        (LeavesDue who.old.token.view who.new.token.view who.old.number None) }
    ensures uncounted { OnErr result
        (CountedNowhere who.old.token.view.log who.new.token.view.log who.old.number) }
{
    know(&who.token);
    'turns: loop {
        begin_search(table, &mut who.token);
        if let Some(outcome) = descend(table, who, update, ANCHOR)? {
            return Ok(outcome);
        }
    }
}
