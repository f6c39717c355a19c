//! The target of a rebuild.
ghost use Rattle.ist_core.specs.Marking.{HasTarget};
ghost use Rattle.ist_rule.specs.Learning.{now, GoesOnTo};
ghost use Rattle.ist_rows.specs.Rows.{IsAtTable};
ghost use Rattle.ist_build.specs.Calls.{IsTold, IsBuildable};
ghost use Rattle.ist_build.specs.Back.{IsFreeToBuild, IsBack};

use crate::reading::keys_of;
use ist_dcss::target_of;
use ist_rows::Caller;
use ist_rule::TreeTable;

// The node that is rebuilt, and with how many keys it is finished.
#[derive(Clone, Copy, Drop)]
pub(crate) struct Target {
    pub(crate) base: u32,
    pub(crate) keys: u64,
}

// Finds the target of a started rebuild, which is finished.
pub(crate) fn find_target(table: &TreeTable, who: &mut Caller, rebuild: u32) -> Target
    requires ready { IsAtTable table.now IsFreeToBuild who.old }
    requires buildable { IsBuildable (now who.old.token.view) rebuild }
    ensures back { IsBack who.old who.new }
    ensures seen { GoesOnTo who.old.token.view who.new.token.view }
    ensures told { IsTold (now who.new.token.view) rebuild result.keys }
    ensures target { HasTarget (now who.new.token.view) rebuild result.base }
{
    let base = target_of(table, &mut who.token, rebuild);
    let keys = keys_of(table, &mut who.token, base);
    Target { base, keys }
}
