//! New tables without pairs.
ghost use Rattle.std.specs.Prelude.{◌≡◌, ◌≤◌, [], IfOk};
ghost use Rattle.ist_core.specs.RowLayout.{place_limit};
ghost use Rattle.ist_rule.specs.Rule.{opened_view};

use ist_rule::{TreeTable, TreeToken, open_table};
use std::alloc::{AllocError, Global};

/// Makes a table of `words` words without pairs, and the maker's token.
pub(crate) fn empty_table(alloc: Global, words: usize) -> Result<(TreeTable, TreeToken), AllocError>
    requires enough { 4 ≤ words }
    requires within { words ≤ place_limit }
    ensures token { IfOk result (λ t. t.1.view ≡ opened_view t.0.table [] words) }
{
    let pairs = Vec::new(alloc);
    let mut image = vec![in alloc; 0; words]?;
    image[0] = 4;
    open_table(alloc, image, &pairs)
}
