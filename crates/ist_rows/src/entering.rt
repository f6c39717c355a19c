//! Entering one more caller.
ghost use Rattle.std.specs.Prelude.{◌≡◌, ◌+◌, ◌<◌, [], None};
ghost use Rattle.ist_core.specs.Enabled.{caller_limit};
ghost use Rattle.ist_core.specs.declared.events.Who.TheVariants.{Maker, Caller as CallerOf};
ghost use Rattle.ist_core.specs.Authors.{IsIdleIn};
ghost use Rattle.ist_rule.specs.Learning.{now};
ghost use Rattle.ist_rule.specs.Seating.{plain};
ghost use Rattle.ist_rows.specs.Rows.{IsCaller, IsAtTable, spares_of, no_spares, held_by};
ghost use Rattle.ist_rows.specs.Entering.{HasEntered};

use crate::callers::Caller;
use ist_layout::CALLERS_PLACE;
use ist_rule::{TreeTable, TreeToken, add, know, split};

/// Enters the next caller. Its number is the count of the callers before it.
///
/// The caller holds no row, has made no call and no event, and has the maker's start pairs, log and
/// stamp. The entering is the last event of that log; all else that the maker knew is as it was.
pub fn enter(table: &TreeTable, maker: &mut TreeToken) -> Caller
    requires same_table { maker.old.view.table ≡ table.now.table }
    requires maker { maker.old.view.who ≡ Maker }
    requires given { maker.old.view.given ≡ maker.old.view.made }
    requires few { maker.old.view.made < caller_limit }
    ensures caller { IsAtTable table.now IsCaller result }
    ensures maker_table { maker.new.view.table ≡ table.now.table }
    ensures number { result.number ≡ maker.old.view.made }
    ensures no_rows { spares_of result ≡ no_spares }
    ensures holds_none { held_by (now result.token.view) result.number ≡ [] }
    ensures idle { IsIdleIn (CallerOf result.number) result.token.view.log }
    ensures token { result.token.view ≡ plain maker.new.view (CallerOf result.number) [] }
    ensures no_calls { result.token.view.calls ≡ [] }
    ensures in_none { result.token.view.pending ≡ None }
    ensures seen { result.token.view.log ≡ maker.new.view.log }
    ensures entered { HasEntered maker.old.view result.number maker.new.view }
    ensures made { (maker.new.view.who ≡ Maker) × (maker.new.view.made ≡ maker.old.view.made + 1) }
    ensures given { maker.new.view.given ≡ maker.new.view.made }
{
    know(maker);
    // Enter. Meets no other's: a table has one maker.
    let number = add(table, maker, CALLERS_PLACE) as u32;
    know(maker);
    let token = split(table, maker);
    Caller {
        token,
        number,
        leaf: None,
        pair: None,
        change: None,
        rebuild: None,
    }
}
