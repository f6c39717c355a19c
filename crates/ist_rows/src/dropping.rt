//! Giving up a pair row that lies too low.
ghost use Rattle.std.specs.Prelude.{◌≡◌, IfSome};
ghost use Rattle.ist_rows.specs.declared.kinds.Kind.TheVariants.{Pair};
ghost use Rattle.ist_rows.specs.Rows.{IsCaller, IsAtTable, spares_of};
ghost use Rattle.ist_rows.specs.CallerLaws.{without_row};
ghost use Rattle.ist_rows.specs.Dropping.{HasPairBelow, HasLost};

use crate::callers::Caller;
use ist_rule::{TreeTable, know, load_past};

/// Gives up the pair row that the caller holds, since it lies below the published inner row `node`.
///
/// The row is lost: it is never published, and its words are never reserved again. The next pair row
/// that the caller reserves is a fresh one.
pub fn drop_pair(table: &TreeTable, who: &mut Caller, node: u32)
    requires caller { IsAtTable table.now IsCaller who.old }
    requires below { HasPairBelow who.old node }
    ensures caller { IsAtTable table.now IsCaller who.new }
    ensures number { who.new.number ≡ who.old.number }
    ensures rows { spares_of who.new ≡ without_row Pair (spares_of who.old) }
    ensures lost { IfSome who.old.pair (λ pair.
        HasLost who.old.token.view who.old.number pair node who.new.token.view) }
{
    know(&who.token);
    if let Some(pair) = who.pair {
        // Lose. Meets no other's step: only the row's caller uses it.
        load_past(table, &mut who.token, pair, node);
        who.pair = None;
    }
}
